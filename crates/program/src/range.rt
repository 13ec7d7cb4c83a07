pub mod cutting;
pub mod making;

ghost use Rattle.std.specs.Prelude.{◌≤◌};

use numbers::place::Place;

// The places of a block, from the first to the last. No range runs backward, so nothing that cuts or sends one checks that again.
#[derive(Clone, Copy)]
pub struct PlaceRange {
    first: Place,
    last: Place,
    ghost ordered: { first.0 ≤ last.0 },
}
