// What the fields of accepted words are read as, and that such words are written back as they were.
use crate::fields::*;
use operators::action::Action;
use operators::choice::Choice;
use operators::mode::Mode;
use program::kind::Program;
use program::layout::Words;
use std::process::Abort;
use std::test::Fail;

fn read_as_a_block(
    rt: &impl Abort,
    word: u32,
    first: u8,
    last: u8,
    mode: Mode,
) -> Result<(), Fail> {
    let Program::Block(block) = Program::read(Words {
        first: word,
        second: 4294967295,
        third: 0,
    })?
    else {
        return Err(Fail::new("read as a single"));
    };
    assert_eq!(rt;
        [block.range.first().0, block.range.last().0],
        [first, last]
    );
    assert_eq!(rt; block.mode, mode);
    assert_eq!(rt; block.cell.0, 4294967295);
    Ok(())
}

fn read_as_a_single(
    rt: &impl Abort,
    word: u32,
    third: u32,
    place: u8,
    action: Action,
) -> Result<(), Fail> {
    let Program::Single(single) = Program::read(Words {
        first: word,
        second: 7,
        third,
    })?
    else {
        return Err(Fail::new("read as a block"));
    };
    assert_eq!(rt; single.place.0, place);
    assert_eq!(rt; single.action, action);
    assert_eq!(rt; single.cell.0, 7);
    Ok(())
}

#[test]
fn blocks(rt: HostRuntime) -> Result<(), Fail> {
    // the first word, and the first place, the last place and the mode that it says
    let table = [
        (65280, 0, 255, Mode::Load),
        (AT_255, 255, 255, Mode::Load),
        (0, 0, 0, Mode::Load),
        (STORE + FROM_3_TO_20, 3, 20, Mode::Store),
        (MP, 0, 0, Mode::Mp(Choice::And)),
        (MP + OR, 0, 0, Mode::Mp(Choice::Or)),
        (MP + MAX, 0, 0, Mode::Mp(Choice::Max)),
        (MP + ADD, 0, 0, Mode::Mp(Choice::Add)),
        (SYNC, 0, 0, Mode::Sync(Choice::And)),
        (SYNC + OR, 0, 0, Mode::Sync(Choice::Or)),
        (SYNC + MAX, 0, 0, Mode::Sync(Choice::Max)),
        (SYNC + ADD + FROM_7_TO_8, 7, 8, Mode::Sync(Choice::Add)),
    ];
    for (word, first, last, mode) in table {
        read_as_a_block(&rt, word, first, last, mode)?;
    }
    Ok(())
}

#[test]
fn singles(rt: HostRuntime) -> Result<(), Fail> {
    // the first and the third word, and the place and the action that they say
    let table = [
        (SINGLE, 0, 0, Action::Load),
        (SINGLE + AT_255, 0, 255, Action::Load),
        (SINGLE + STORE, 0, 0, Action::Store(0)),
        (SINGLE + STORE, 9, 0, Action::Store(9)),
        (1967365, 0, 5, Action::Mp(Choice::Add, 0)),
        (1967365, 9, 5, Action::Mp(Choice::Add, 9)),
        (
            SINGLE + SYNC + MAX + AT_255,
            0,
            255,
            Action::Sync(Choice::Max, 0),
        ),
        (SINGLE + SYNC, 8, 0, Action::Sync(Choice::And, 8)),
    ];
    for (word, third, place, action) in table {
        read_as_a_single(&rt, word, third, place, action)?;
    }
    Ok(())
}

#[test]
fn written_back(rt: HostRuntime) -> Result<(), Fail> {
    let table = [
        [65280, 0, 0],
        [AT_255, 1, 0],
        [FROM_3_TO_20, 4294967295, 0],
        [STORE + FROM_7_TO_8, 2147483648, 0],
        [MP + OR + FROM_3_TO_20, 3, 0],
        [SYNC + ADD, 4, 0],
        [SINGLE + AT_255, 5, 0],
        [SINGLE + STORE, 6, 0],
        [1967365, 7, 4294967295],
        [SINGLE + SYNC + MAX, 8, 1],
    ];
    for row in table {
        let [first, second, third] = row;
        let back = Program::read(Words {
            first,
            second,
            third,
        })?
        .write();
        assert_eq!(rt; [back.first, back.second, back.third], row);
    }
    Ok(())
}
