ghost use Rattle.std.specs.Prelude.{◌≡◌};
ghost use Rattle.operators.specs.Modes.{mode_of, sent, sending, wants_reply, word_after};

use crate::choice::Choice;
use crate::mode::Mode;
use crate::operator::Operator;

// A mode together with the word that it sends: LOAD sends none.
#[derive(Clone, Copy, PartialEq, Eq, Debug)]
pub enum Action {
    Load,
    Store(u32),
    Mp(Choice, u32),
    Sync(Choice, u32),
}

impl Action {
    // The action of this mode with this word; LOAD leaves the word aside.
    pub fn new(mode: Mode, word: u32) -> Action
        ensures { result ≡ sending mode word }
    {
        match mode {
            Mode::Load => Action::Load,
            Mode::Store => Action::Store(word),
            Mode::Mp(operator) => Action::Mp(operator, word),
            Mode::Sync(operator) => Action::Sync(operator, word),
        }
    }

    pub fn mode(self) -> Mode
        ensures { result ≡ mode_of self }
    {
        match self {
            Action::Load => Mode::Load,
            Action::Store(_) => Mode::Store,
            Action::Mp(operator, _) => Mode::Mp(operator),
            Action::Sync(operator, _) => Mode::Sync(operator),
        }
    }

    // The word that is sent, or none.
    pub fn word(self) -> Option<u32>
        ensures { result ≡ sent self }
    {
        match self {
            Action::Load => None,
            Action::Store(word) | Action::Mp(_, word) | Action::Sync(_, word) => Some(word),
        }
    }

    // LOAD and MP want a reply.
    pub fn wants_reply(self) -> bool
        ensures { result ≡ wants_reply self }
    {
        self.mode().wants_reply()
    }

    // The word that a cell holds after the action, where it held this one before.
    pub fn word_after(self, before: u32) -> u32
        ensures { result ≡ word_after self before }
    {
        match self {
            Action::Load => before,
            Action::Store(word) => word,
            Action::Mp(operator, word) | Action::Sync(operator, word) => {
                operator.join(before, word)
            }
        }
    }
}
