ghost use Rattle.std.specs.Prelude.{◌≡◌};
ghost use Rattle.operators.specs.Modes.{mode_wants_reply};

use crate::choice::Choice;

// What a program asks of each of its cells. Only MP and SYNC have an operator, so no other pair can be written down.
#[derive(Clone, Copy, PartialEq, Eq, Debug)]
pub enum Mode {
    // wants the cell's word
    Load,
    // puts a word into the cell
    Store,
    // multiprefix: wants the cell's word, and then joins a word to it
    Mp(Choice),
    // joins a word to the cell's word, and wants nothing
    Sync(Choice),
}

impl Mode {
    // LOAD and MP want a reply.
    pub fn wants_reply(self) -> bool
        ensures { result ≡ mode_wants_reply self }
    {
        matches!(self, Mode::Load | Mode::Mp(_))
    }
}
