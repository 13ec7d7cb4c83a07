ghost use Rattle.std.specs.Prelude.{◌≡◌, ◌≤◌, length};
ghost use Rattle.program.specs.Cuts.{places_named, Nexts};
ghost use Rattle.program.specs.Pieces.{from_to, span, pieces_of, pieces_left, Covers};
ghost use Rattle.std.specs.Iterator.{at_most};

use crate::kind::Program;
use crate::range::PlaceRange;

// The pieces of a program that are still to come, in order.
#[derive(Clone, Copy)]
pub struct Pieces {
    rest: Option<PlaceRange>,
}

impl Iterator for Pieces {
    type Item = PlaceRange;

    ghost next_gives = { λ before piece after. Nexts (pieces_left before.rest) piece (pieces_left after.rest) };

    ghost remaining = { λ pieces. at_most (length (pieces_left pieces.rest)) };

    fn next(&mut self) -> Option<PlaceRange> {
        let range = self.rest?;
        let cut = range.cut();
        self.rest = cut.rest;
        Some(cut.piece)
    }
}

impl Program {
    // The places that the program names: a single names one.
    pub fn places(&self) -> PlaceRange
        ensures { span result ≡ places_named self.now }
    {
        match *self {
            Program::Block(block) => block.range,
            Program::Single(single) => PlaceRange::only(single.place),
        }
    }

    // The pieces of the program. In order, they cover its places exactly once, and none is longer than 8.
    pub fn pieces(&self) -> Pieces
        ensures pieces { pieces_left result.rest ≡ pieces_of (places_named self.now) }
        ensures law { Covers (places_named self.now) (pieces_left result.rest) }
    {
        Pieces {
            rest: Some(self.places()),
        }
    }

    // How many pieces the program has: 32 where it names a whole window.
    pub fn piece_count(&self) -> u32
        ensures count { result ≡ length (pieces_of (places_named self.now)) }
        ensures most { result ≤ 32 }
        ensures whole { places_named self.now ≡ from_to 0 255 → result ≡ 32 }
    {
        let places = self.places();
        u32::from(places.last().0 / 8 - places.first().0 / 8) + 1
    }
}
