ghost use Rattle.std.specs.Prelude.{◌≡◌};
ghost use Rattle.answers.specs.Replies.{refused_reply, taken_reply, answer_reply, status_reply};

use machine::answer::{Answer, Turned};
use memory::request::Taken;
use numbers::channel::Channel;
use numbers::layer::Layer;
use numbers::refusal::Refusal;
use program::kind::Program;

// What a refusal tells, whatever layer it comes from.
#[derive(Clone, Copy)]
pub struct Refused {
    pub number: u32,
    pub detail: u32,
    pub layer: Layer,
}

// The answer to one command.
#[derive(Clone, Copy)]
pub enum Reply {
    // the whole program, and the words that it is written back as
    Program(Program),
    // the pieces of this program
    Pieces(Program),
    Word(u32),
    // a reply from a cell that is not fitted
    NoWord,
    // nothing is in transit
    Nothing,
    NotYet,
    Sent,
    Waiting(usize),
    MemoryReady,
    MoverReady,
    Channel(Channel),
    Done,
    Status(u32),
    Turned(Turned),
    Refused(Refused),
}

impl Reply {
    pub fn refused<R: Refusal + Copy>(refusal: R) -> Reply
        ensures { result ≡ refused_reply (R.Refusal.told refusal) }
    {
        Reply::Refused(Refused {
            number: refusal.number(),
            detail: refusal.detail(),
            layer: refusal.layer(),
        })
    }

    // The answer to status: its word is a status word.
    pub fn status(answer: Answer) -> Reply
        ensures { result ≡ status_reply answer }
    {
        match answer {
            Answer::Word(word) => Reply::Status(word),
            other => Reply::from(other),
        }
    }
}

impl From<Taken> for Reply {
    ghost from_gives = { λ taken r. r ≡ taken_reply taken };

    fn from(taken: Taken) -> Reply {
        match taken {
            Taken::Nothing => Reply::Nothing,
            Taken::NotYet => Reply::NotYet,
            Taken::Reply(reply) => reply.map_or(Reply::NoWord, Reply::Word),
        }
    }
}

// The answer to a call of a mover other than status.
impl From<Answer> for Reply {
    ghost from_gives = { λ answer r. r ≡ answer_reply answer };

    fn from(answer: Answer) -> Reply {
        match answer {
            Answer::Refused(fault) => Reply::refused(fault),
            Answer::Done => Reply::Done,
            Answer::Given(channel) => Reply::Channel(channel),
            Answer::Word(word) => Reply::Word(word),
            Answer::Turned(turned) => Reply::Turned(turned),
        }
    }
}
