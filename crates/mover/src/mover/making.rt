ghost use Rattle.std.specs.Prelude.{◌≡◌, Ok};
ghost use Rattle.machine.specs.Laws.{Opens};
ghost use Rattle.machine.specs.Soundness.{new_mean};
ghost use Rattle.mover.specs.Making.{mover_check};
ghost use Rattle.mover.specs.Meaning.{MoverSound};

use crate::mover::Mover;
use channels::making::new_state;
use memory::fault::MemoryFault;
use memory::interface::HallMemory;

impl<M: HallMemory> Mover<M> {
    // Refuses a memory that has replies in transit. It stays with its owner, who lends it for the check.
    pub fn check(memory: &M) -> Result<(), MemoryFault>
        ensures { result ≡ mover_check (M.HallMemory.view memory.now) }
    {
        if memory.waiting() > 0 {
            return Err(MemoryFault::InTransit);
        }
        Ok(())
    }

    // A new mover over this memory. The check was passed before.
    pub fn new(memory: M) -> Mover<M>
        requires { mover_check (M.HallMemory.view memory) ≡ Ok tt }
        ensures sound { MoverSound M.HallMemory result.memory result.state }
        ensures state { result.state ≡ new_mean }
        ensures opens { Opens result.state (M.HallMemory.view result.memory) }
        ensures memory { result.memory ≡ memory }
    {
        Mover {
            memory,
            state: new_state(),
        }
    }
}
