ghost use Rattle.std.specs.Prelude.{◌≡◌, ◌%◌, Ok};
ghost use Rattle.layers.specs.Spreaders.{spread_view, spreader_check, Apart};
ghost use Rattle.std.proofs.Common.{rules};

use memory::fault::MemoryFault;
use memory::interface::HallMemory;
use memory::request::{Request, Taken};
use numbers::cell::Cell;

// A layer that spreads neighbouring cells apart: its cell a is the cell (factor * a) modulo 2^32 of the memory below.
#[derive(Drop)]
pub struct Spreader<M> {
    below: M,
    factor: u32,
    ghost odd: { factor % 2 ≡ 1 },
}

impl<M: HallMemory> Spreader<M> {
    // Refuses an even factor, as it would map two cells to one.
    pub fn check(factor: u32) -> Result<(), MemoryFault>
        ensures { result ≡ spreader_check factor }
    {
        if factor % 2 == 0 {
            return Err(MemoryFault::EvenFactor);
        }
        Ok(())
    }

    // The spreader over this memory. The check was passed before.
    pub fn new(below: M, factor: u32) -> Spreader<M>
        requires { spreader_check factor ≡ Ok tt }
        ensures view { spread_view result.factor (M.HallMemory.view result.below) ≡ spread_view factor (M.HallMemory.view below) }
        ensures apart { Apart result.factor }
    {
        Spreader { below, factor }
    }
}

impl<M: HallMemory> HallMemory for Spreader<M> {
    ghost view = { λ m. spread_view m.factor (M.HallMemory.view m.below) };

    ghost bounded = { Prim.search rules };

    fn send(&mut self, request: Request) -> Result<(), MemoryFault> {
        let cell = Cell(self.factor.wrapping_mul(request.cell.0));
        self.below.send(Request {
            cell,
            action: request.action,
        })
    }

    fn take(&mut self) -> Taken {
        self.below.take()
    }

    fn waiting(&self) -> usize {
        self.below.waiting()
    }
}
