ghost use Rattle.pile.specs.Eithers.{view_of};
ghost use Rattle.std.proofs.Common.{rules};

use memory::fault::MemoryFault;
use memory::interface::HallMemory;
use memory::request::{Request, Taken};

// One of two kinds of hall memory. The library's type of this shape could not be made a hall memory here, as neither is of this crate.
#[derive(Drop)]
pub enum Either<L, R> {
    First(L),
    Second(R),
}

impl<L: HallMemory, R: HallMemory> HallMemory for Either<L, R> {
    ghost view = { view_of L.HallMemory.view R.HallMemory.view };

    ghost bounded = { Prim.search rules };

    fn send(&mut self, request: Request) -> Result<(), MemoryFault> {
        match self {
            Either::First(memory) => memory.send(request),
            Either::Second(memory) => memory.send(request),
        }
    }

    fn take(&mut self) -> Taken {
        match self {
            Either::First(memory) => memory.take(),
            Either::Second(memory) => memory.take(),
        }
    }

    fn waiting(&self) -> usize {
        match self {
            Either::First(memory) => memory.waiting(),
            Either::Second(memory) => memory.waiting(),
        }
    }
}
