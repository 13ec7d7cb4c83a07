ghost use Rattle.std.specs.Prelude.{◌≡◌};
ghost use Rattle.program.specs.Pieces.{from_to, span, span_len};
ghost use Rattle.program.specs.Ranges.{range_of};

use crate::range::PlaceRange;
use numbers::place::Place;

impl PlaceRange {
    // The range from one place to another, or none where the first lies above the last.
    pub fn checked(first: Place, last: Place) -> Option<PlaceRange>
        ensures { result ≡ range_of first last }
    {
        let ordered = first <= last;
        if ordered {
            Some(PlaceRange { first, last })
        } else {
            None
        }
    }

    // The range of one place alone.
    pub fn only(place: Place) -> PlaceRange
        ensures { span result ≡ from_to place.0 place.0 }
    {
        PlaceRange {
            first: place,
            last: place,
        }
    }

    pub fn first(&self) -> Place
        ensures { result ≡ self.now.first }
    {
        self.first
    }

    pub fn last(&self) -> Place
        ensures { result ≡ self.now.last }
    {
        self.last
    }

    // How many places the range has: 1 to 256.
    pub fn len(&self) -> u16
        ensures { result ≡ span_len (span self.now) }
    {
        let PlaceRange { first, last, .. } = *self;
        u16::from(last.0 - first.0) + 1
    }
}
