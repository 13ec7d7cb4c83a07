ghost use Rattle.std.specs.Prelude.{◌≡◌};
ghost use Rattle.machine.specs.Faults.{channel_told};
ghost use Rattle.machine.specs.declared.fault.ChannelFault.TheVariants.{NoChannel, NoPlace, Program, Sheet};

use numbers::channel::NoChannel;
use numbers::layer::Layer;
use numbers::place::NoPlace;
use numbers::refusal::Refusal;
use program::fault::ProgramFault;
use sheet::fault::SheetFault;

// What a call of the mover is refused for.
#[derive(Clone, Copy, PartialEq, Eq, Debug)]
pub enum ChannelFault {
    // 1: the channel is above 15
    NoChannel,
    // 2: the place is above 255
    NoPlace,
    // 3 to 7, with number, detail and layer as they were
    Program(ProgramFault),
    // 8 and 9, with number, detail and layer as they were
    Sheet(SheetFault),
    // 21: no channel is free
    NoneFree,
    // 22: the channel is not reserved
    Unreserved,
    // 23: the channel runs
    Running,
    // 24: the mover is quiet
    Quiet,
    // 25: a place is empty; the detail is the first such place
    Empty(u32),
    // 26: the channel does not run
    NotRunning,
}

impl Refusal for ChannelFault {
    ghost told = { channel_told };

    fn number(&self) -> u32 {
        match *self {
            ChannelFault::NoChannel => 1,
            ChannelFault::NoPlace => 2,
            ChannelFault::Program(fault) => fault.number(),
            ChannelFault::Sheet(fault) => fault.number(),
            ChannelFault::NoneFree => 21,
            ChannelFault::Unreserved => 22,
            ChannelFault::Running => 23,
            ChannelFault::Quiet => 24,
            ChannelFault::Empty(_) => 25,
            ChannelFault::NotRunning => 26,
        }
    }

    fn detail(&self) -> u32 {
        match *self {
            ChannelFault::Program(fault) => fault.detail(),
            ChannelFault::Sheet(fault) => fault.detail(),
            ChannelFault::Empty(place) => place,
            _ => 0,
        }
    }

    fn layer(&self) -> Layer {
        match *self {
            ChannelFault::Program(fault) => fault.layer(),
            ChannelFault::Sheet(fault) => fault.layer(),
            _ => Layer::Channel,
        }
    }
}

impl From<NoChannel> for ChannelFault {
    ghost from_gives = { λ _ r. r ≡ NoChannel };

    fn from(_: NoChannel) -> ChannelFault {
        Self::NoChannel
    }
}

impl From<NoPlace> for ChannelFault {
    ghost from_gives = { λ _ r. r ≡ NoPlace };

    fn from(_: NoPlace) -> ChannelFault {
        Self::NoPlace
    }
}

impl From<ProgramFault> for ChannelFault {
    ghost from_gives = { λ fault r. r ≡ Program fault };

    fn from(fault: ProgramFault) -> ChannelFault {
        ChannelFault::Program(fault)
    }
}

impl From<SheetFault> for ChannelFault {
    ghost from_gives = { λ fault r. r ≡ Sheet fault };

    fn from(fault: SheetFault) -> ChannelFault {
        ChannelFault::Sheet(fault)
    }
}
