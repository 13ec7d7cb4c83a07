ghost use Rattle.std.specs.Prelude.{◌≡◌, Ok};
ghost use Rattle.program.specs.Layout.{read_program, read_single, read_block, header_of, write_program, ReadsAs};

use crate::fault::ProgramFault;
use crate::header::Header;
use crate::kind::{Block, Program, Single};
use crate::range::PlaceRange;
use numbers::cell::Cell;
use operators::action::Action;
use operators::mode::Mode;

// The three words of a program.
#[derive(Clone, Copy)]
pub struct Words {
    pub first: u32,
    pub second: u32,
    pub third: u32,
}

fn read_single(header: Header, words: Words) -> Result<Program, ProgramFault>
    ensures { result ≡ read_single header words }
{
    if header.first != header.last {
        return Err(ProgramFault::SeveralPlaces);
    }
    let action = Action::new(header.mode, words.third);
    if action.word().is_none() && words.third != 0 {
        return Err(ProgramFault::ThirdWord);
    }
    Ok(Program::Single(Single {
        place: header.first,
        cell: Cell(words.second),
        action,
    }))
}

fn read_block(header: Header, range: PlaceRange, words: Words) -> Result<Program, ProgramFault>
    ensures { result ≡ read_block header range words }
{
    if words.third != 0 {
        return Err(ProgramFault::ThirdWord);
    }
    Ok(Program::Block(Block {
        range,
        mode: header.mode,
        cell: Cell(words.second),
    }))
}

impl Program {
    // Reads three words as a program, or refuses them by the first check that fails.
    pub fn read(words: Words) -> Result<Program, ProgramFault>
        ensures value { result ≡ read_program words }
        ensures back { (p : Program) → result ≡ Ok p → write_program p ≡ words }
    {
        let header = Header::read(words.first)?;
        let range = PlaceRange::checked(header.first, header.last).ok_or(ProgramFault::Backward)?;
        if header.single {
            read_single(header, words)
        } else {
            read_block(header, range, words)
        }
    }

    // What the first word of this program says.
    fn header(&self) -> Header
        ensures { result ≡ header_of self.now }
    {
        match *self {
            Program::Block(block) => Header {
                first: block.range.first(),
                last: block.range.last(),
                mode: block.mode,
                single: false,
            },
            Program::Single(single) => Header {
                first: single.place,
                last: single.place,
                mode: single.action.mode(),
                single: true,
            },
        }
    }

    // The three words of this program.
    pub fn write(&self) -> Words
        ensures value { result ≡ write_program self.now }
        ensures again { ReadsAs result self.now }
    {
        let first = self.header().write();
        match *self {
            Program::Block(block) => Words {
                first,
                second: block.cell.0,
                third: 0,
            },
            Program::Single(single) => Words {
                first,
                second: single.cell.0,
                third: single.action.word().unwrap_or(0),
            },
        }
    }
}
