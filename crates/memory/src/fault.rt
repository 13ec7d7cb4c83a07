ghost use Rattle.std.specs.Prelude.{◌≡◌};
ghost use Rattle.memory.specs.Faults.{memory_told};
ghost use Rattle.memory.specs.declared.fault.MemoryFault.TheVariants.{TransitFull};

use numbers::layer::Layer;
use numbers::refusal::Refusal;
use queue::full::Full;

// What a hall memory, or the check before one is made, refuses.
#[derive(Clone, Copy, PartialEq, Eq, Debug)]
pub enum MemoryFault {
    // 31: 32 replies are in transit
    TransitFull,
    // 41: the number of given words or entries is out of range
    Size,
    // 42: a cell number is not above the one before; the detail is the first such index, from 0
    NotRising(u32),
    // 43: the constant is even
    EvenFactor,
    // 44: the bit number is above 31
    BitNumber,
    // 45: the memory has replies in transit
    InTransit,
}

impl Refusal for MemoryFault {
    ghost told = { memory_told };

    fn number(&self) -> u32 {
        match *self {
            MemoryFault::TransitFull => 31,
            MemoryFault::Size => 41,
            MemoryFault::NotRising(_) => 42,
            MemoryFault::EvenFactor => 43,
            MemoryFault::BitNumber => 44,
            MemoryFault::InTransit => 45,
        }
    }

    fn detail(&self) -> u32 {
        match *self {
            MemoryFault::NotRising(index) => index,
            _ => 0,
        }
    }

    fn layer(&self) -> Layer {
        Layer::Memory
    }
}

// The replies in transit are the only line of a memory.
impl From<Full> for MemoryFault {
    ghost from_gives = { λ _ r. r ≡ TransitFull };

    fn from(_: Full) -> MemoryFault {
        Self::TransitFull
    }
}
