// A piece ends at a place one below a multiple of eight, or at the last place.
use crate::fields::*;
use program::kind::Program;
use program::layout::Words;
use std::process::Abort;
use std::test::Fail;

// The program of this first word has just these pieces, each given by its first and its last place.
fn has_pieces(rt: &impl Abort, first: u32, wanted: &[[u8; 2]]) -> Result<(), Fail> {
    let program = Program::read(Words {
        first,
        second: 0,
        third: 0,
    })?;
    assert_eq!(rt; program.piece_count() as usize, wanted.len());
    let mut pieces = program.pieces();
    for places in wanted {
        let Some(piece) = pieces.next() else {
            return Err(Fail::new("too few pieces"));
        };
        assert_eq!(rt; [piece.first().0, piece.last().0], *places);
    }
    assert!(rt; pieces.next().is_none());
    Ok(())
}

#[test]
fn pieces_of_programs(rt: HostRuntime) -> Result<(), Fail> {
    has_pieces(&rt, FROM_3_TO_20, &[[3, 7], [8, 15], [16, 20]])?;
    has_pieces(&rt, FROM_7_TO_8, &[[7, 7], [8, 8]])?;
    has_pieces(&rt, AT_255, &[[255, 255]])?;
    // the whole of one piece, places 8 to 15
    has_pieces(&rt, 8 + 15 * 256, &[[8, 15]])?;
    // a single at place 5
    has_pieces(&rt, 1967365, &[[5, 5]])
}

#[test]
fn pieces_of_a_whole_window(rt: HostRuntime) -> Result<(), Fail> {
    let program = Program::read(Words {
        first: 65280,
        second: 0,
        third: 0,
    })?;
    assert_eq!(rt; program.piece_count(), 32);
    let mut place = 0u32;
    for piece in program.pieces() {
        assert_eq!(rt; u32::from(piece.first().0), place);
        assert_eq!(rt; u32::from(piece.last().0), place | 7);
        place = place.wrapping_add(8);
    }
    assert_eq!(rt; place, 256);
    Ok(())
}
