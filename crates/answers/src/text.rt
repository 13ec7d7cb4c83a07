ghost use Rattle.std.specs.Prelude.{Some};
ghost use Rattle.answers.specs.Texts.{refused_text, reply_text};

use crate::pieces::ShownPieces;
use crate::programs::ShownProgram;
use crate::reply::{Refused, Reply};
use crate::turns::ShownTurn;
use std::fmt;

impl fmt::Display for Refused {
    ghost output = { λ r. Some (refused_text r) };

    fn fmt<W: fmt::Write>(&self, f: &mut fmt::Formatter<W>) -> fmt::Result {
        let number = self.number;
        let detail = self.detail;
        let layer = self.layer.name();
        write!(f, "refused {number} detail {detail} layer {layer}")
    }
}

impl fmt::Display for Reply {
    ghost output = { λ r. Some (reply_text r) };

    fn fmt<W: fmt::Write>(&self, f: &mut fmt::Formatter<W>) -> fmt::Result {
        match *self {
            Reply::Program(program) => write!(f, "{}", ShownProgram(program)),
            Reply::Pieces(program) => write!(f, "pieces{}", ShownPieces(program)),
            Reply::Word(word) => write!(f, "word {word}"),
            Reply::NoWord => write!(f, "no word"),
            Reply::Nothing => write!(f, "none"),
            Reply::NotYet => write!(f, "not yet"),
            Reply::Sent => write!(f, "sent"),
            Reply::Waiting(count) => write!(f, "waiting {count}"),
            Reply::MemoryReady => write!(f, "memory ready"),
            Reply::MoverReady => write!(f, "mover ready"),
            Reply::Channel(channel) => write!(f, "channel {}", channel.0),
            Reply::Done => write!(f, "ok"),
            Reply::Status(word) => write!(f, "status {word}"),
            Reply::Turned(turned) => write!(f, "{}", ShownTurn(turned)),
            Reply::Refused(refused) => write!(f, "{refused}"),
        }
    }
}
