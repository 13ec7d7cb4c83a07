ghost use Rattle.std.specs.Prelude.{◌≡◌, Option};
ghost use Rattle.std.specs.Option.{option_map};
ghost use Rattle.session.specs.Scripts.{AnswersLine, Ended, Finished, Taken, opening, stand};
ghost use Rattle.pile.specs.Piles.{pile_hall};

use crate::session::Session;
use commands::trouble::Trouble;
use reading::line::Line;
use std::alloc::Global;
use std::io;
use std::io::Write;

const LINE_FEED: u8 = b'\n';

// A script that comes in chunk by chunk.
#[derive(Drop)]
pub struct Script {
    session: Session,
    line: Line,
    // how many lines have ended
    lines: u64,
    // whether one of them was a bad line
    bad: bool,
}

impl Script {
    pub fn new(heap: Global) -> Script
        ensures { stand result ≡ opening }
    {
        Script {
            session: Session::new(heap),
            line: Line::new(heap),
            lines: 0,
            bad: false,
        }
    }

    // Answers the lines that end in this chunk, and keeps what follows them. The answers are flushed, since the next chunk
    // may wait for them.
    pub fn take<W: Write>(&mut self, chunk: &[u8], out: &mut W) -> io::Result<()>
        ensures { Taken pile_hall chunk.now result (stand self.old) (stand self.new) }
    {
        for byte in chunk {
            if *byte == LINE_FEED {
                self.end_line(out)?;
            } else {
                self.line.push(*byte)?;
            }
        }
        out.flush()
    }

    // Answers a last line that has no line feed. The result is an error where some line was a bad line.
    pub fn end<W: Write>(&mut self, out: &mut W) -> io::Result<()>
        ensures { Finished pile_hall result (stand self.old) (stand self.new) }
    {
        if !self.line.is_empty() {
            self.end_line(out)?;
        }
        out.flush()?;
        if self.bad {
            return Err(io::Error::other("the script has a bad line"));
        }
        Ok(())
    }

    // The line that has come ends. A bad one is told by its number.
    fn end_line<W: Write>(&mut self, out: &mut W) -> io::Result<()>
        ensures { Ended pile_hall result (stand self.old) (stand self.new) }
    {
        self.lines = self.lines.saturating_add(1);
        let answered = answer(&mut self.session, self.line.bytes(), out);
        self.line.clear();
        match answered {
            Ok(()) => Ok(()),
            Err(Trouble::Stopped(error)) => Err(error),
            Err(Trouble::BadLine) => {
                self.bad = true;
                writeln!(out, "error line {}", self.lines)
            }
        }
    }
}

// Answers a line that has ended. One that was too long to be stored is a bad line.
fn answer<W: Write>(session: &mut Session, line: Option<&[u8]>, out: &mut W) -> Result<(), Trouble>
    ensures { AnswersLine pile_hall (option_map (λ x. x.now) line.entry) result session.old.hall session.new.hall }
{
    session.answer(line.ok_or(Trouble::BadLine)?, out)
}
