ghost use Rattle.std.specs.Prelude.{◌≡◌, length};
ghost use Rattle.memory.specs.Effects.{Sends, Takes};
ghost use Rattle.memory.specs.Views.{View, Bounded};

use crate::fault::MemoryFault;
use crate::request::{Request, Taken};

// Every hall memory is reached through these three functions. What a memory has to keep for them is in its type, so none of them
// requires anything.
pub trait HallMemory {
    // What this memory means: its cells, the replies in transit, and the wait.
    ghost view: { Self → View };

    // Carries out a request. LOAD and MP are refused exactly where 32 replies are in transit, and nothing changes then.
    fn send(&mut self, request: Request) -> Result<(), MemoryFault>
        ensures { Sends request result (view self.old) (view self.new) };

    // Takes the first reply in transit, once its wait is over.
    fn take(&mut self) -> Taken
        ensures { Takes result (view self.old) (view self.new) };

    // How many replies are in transit.
    fn waiting(&self) -> usize
        ensures { result ≡ length (view self.now).transit };

    ghost bounded: { (m : Self) → Bounded (view m) };
}
