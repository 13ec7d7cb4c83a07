ghost use Rattle.std.specs.Prelude.{◌≡◌};
ghost use Rattle.machine.specs.Calls.{stored};

use operators::mode::Mode;
use program::kind::Program;

// The conditions of a channel.
#[derive(Clone, Copy, Default)]
pub struct Flags {
    pub reserved: bool,
    pub running: bool,
    // a reply came without a word
    pub error: bool,
    // a stop was accepted
    pub stop: bool,
}

// How many requests of the channel's program were sent, and how many replies have landed.
#[derive(Clone, Copy, Default)]
pub struct Counts {
    pub sent: u16,
    pub landed: u16,
}

// A program in plain numbers: a rule of the project, so that a record is data alone. The word is a single's own, and 0 where the
// program has none.
#[derive(Clone, Copy)]
pub struct Stored {
    pub single: bool,
    pub mode: Mode,
    pub first: u8,
    pub last: u8,
    pub cell: u32,
    pub word: u32,
}

// All that the mover keeps of one channel. A place of the window holds a word or is empty.
#[derive(Clone, Copy)]
pub struct Record {
    pub flags: Flags,
    pub counts: Counts,
    pub program: Stored,
    pub window: [Option<u32>; 256],
}

impl From<Program> for Stored {
    ghost from_gives = { λ program r. r ≡ stored program };

    fn from(program: Program) -> Stored {
        match program {
            Program::Block(block) => Stored {
                single: false,
                mode: block.mode,
                first: block.range.first().0,
                last: block.range.last().0,
                cell: block.cell.0,
                word: 0,
            },
            Program::Single(single) => Stored {
                single: true,
                mode: single.action.mode(),
                first: single.place.0,
                last: single.place.0,
                cell: single.cell.0,
                word: single.action.word().unwrap_or(0),
            },
        }
    }
}
