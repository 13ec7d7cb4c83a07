// How the pieces of a program are written: each by its first and last place.
ghost use Rattle.std.specs.Fmt.{WritesOnOk};
ghost use Rattle.std.specs.Prelude.{Some};
ghost use Rattle.program.specs.Cuts.{places_named};
ghost use Rattle.program.specs.Pieces.{pieces_left, pieces_of};
ghost use Rattle.answers.specs.Texts.{pieces_text};

use crate::programs::ShownRange;
use program::kind::Program;
use program::pieces::Pieces;
use std::fmt;

// The pieces that are still to come, with a space before each.
fn write_all<W: fmt::Write>(pieces: Pieces, f: &mut fmt::Formatter<W>) -> fmt::Result
    ensures { WritesOnOk W.Write.write_str_gives f.old result (pieces_text (pieces_left pieces.rest)) f.new }
{
    for piece in pieces {
        write!(f, " {}", ShownRange(piece))?;
    }
    Ok(())
}

#[derive(Clone, Copy)]
pub struct ShownPieces(pub Program);

impl fmt::Display for ShownPieces {
    ghost output = { λ x. Some (pieces_text (pieces_of (places_named x.0))) };

    fn fmt<W: fmt::Write>(&self, f: &mut fmt::Formatter<W>) -> fmt::Result {
        write_all(self.0.pieces(), f)
    }
}
