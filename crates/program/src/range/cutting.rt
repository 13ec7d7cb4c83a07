ghost use Rattle.std.specs.Prelude.{◌≡◌, ◌∷◌};
ghost use Rattle.std.specs.Option.{option_map};
ghost use Rattle.program.specs.Pieces.{span, first_piece, after_piece, pieces_of, pieces_left};

use crate::range::PlaceRange;
use numbers::place::Place;

// The next piece of a range, and what remains after it.
#[derive(Clone, Copy)]
pub struct Cut {
    pub piece: PlaceRange,
    pub rest: Option<PlaceRange>,
}

impl PlaceRange {
    // Cuts off the next piece: it ends one below a multiple of eight, or at the last place.
    pub fn cut(self) -> Cut
        ensures piece { span result.piece ≡ first_piece (span self) }
        ensures rest { option_map span result.rest ≡ after_piece (span self) }
        ensures pieces { pieces_of (span self) ≡ span result.piece ∷ pieces_left result.rest }
    {
        let boundary = Place(self.first.0 / 8 * 8 + 7);
        if boundary < self.last {
            Cut {
                piece: PlaceRange {
                    first: self.first,
                    last: boundary,
                },
                rest: Some(PlaceRange {
                    first: Place(boundary.0 + 1),
                    last: self.last,
                }),
            }
        } else {
            Cut {
                piece: self,
                rest: None,
            }
        }
    }
}
