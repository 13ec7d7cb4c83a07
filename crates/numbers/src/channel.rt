ghost use Rattle.std.specs.Prelude.{◌≡◌};
ghost use Rattle.numbers.specs.Numbers.{channel_of};

// A channel: one of the sixteen machines, 0 to 15. That bound is not in the type, since definitions make channels of plain numbers,
// and each of them would have to carry its proof.
#[derive(Clone, Copy, PartialEq, Eq, PartialOrd, Ord, Debug)]
pub struct Channel(pub u8);

// No channel has this number: it is above 15.
#[derive(Clone, Copy, PartialEq, Eq, Debug)]
pub struct NoChannel;

impl TryFrom<u32> for Channel {
    type Error = NoChannel;

    ghost try_from_gives = { λ number r. r ≡ channel_of number };

    fn try_from(number: u32) -> Result<Channel, NoChannel> {
        if number <= 15 {
            Ok(Channel(number as u8))
        } else {
            Err(NoChannel)
        }
    }
}
