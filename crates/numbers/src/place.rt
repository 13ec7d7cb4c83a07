ghost use Rattle.std.specs.Prelude.{◌≡◌};
ghost use Rattle.numbers.specs.Numbers.{place_of};

// A place of a window, 0 to 255. Channels and places are types of their own, since no number may stand for another; one type over
// the bound would name neither.
#[derive(Clone, Copy, PartialEq, Eq, PartialOrd, Ord, Debug)]
pub struct Place(pub u8);

// No place has this number: it is above 255.
#[derive(Clone, Copy, PartialEq, Eq, Debug)]
pub struct NoPlace;

impl TryFrom<u32> for Place {
    type Error = NoPlace;

    ghost try_from_gives = { λ number r. r ≡ place_of number };

    fn try_from(number: u32) -> Result<Place, NoPlace> {
        if number <= 255 {
            Ok(Place(number as u8))
        } else {
            Err(NoPlace)
        }
    }
}
