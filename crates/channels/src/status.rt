ghost use Rattle.std.specs.Prelude.{◌≡◌, ◌^◌, ◌<◌};
ghost use Rattle.channels.specs.Status.{status_of, free_fields, free_number};

use machine::record::{Counts, Flags};
use numbers::channel::Channel;

// The lowest free channel with the mark for none.
fn free_fields(free: Option<Channel>) -> u32
    requires { free_number free < 16 }
    ensures { result ≡ free_fields free }
{
    match free {
        Some(channel) => u32::from(channel.0) << 4,
        None => 1 << 8,
    }
}

// The status word, from bit 0 up: running, error, stop, reserved, the lowest free channel (4 bits, 0 if none), none free, quiet,
// four zeros, landed (9 bits), sent (9 bits).
pub fn status_word(flags: Flags, counts: Counts, free: Option<Channel>, quiet: bool) -> u32
    requires free { free_number free < 16 }
    requires sent { counts.sent < 512 }
    requires landed { counts.landed < 512 }
    ensures { result ≡ status_of flags counts free quiet }
{
    u32::from(flags.running)
        + (u32::from(flags.error) << 1)
        + (u32::from(flags.stop) << 2)
        + (u32::from(flags.reserved) << 3)
        + free_fields(free)
        + (u32::from(quiet) << 9)
        + (u32::from(counts.landed) << 14)
        + (u32::from(counts.sent) << 23)
}
