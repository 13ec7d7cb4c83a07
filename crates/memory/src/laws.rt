ghost use Rattle.std.specs.Prelude.{◌≡◌, []};
ghost use Rattle.queue.specs.Queues.{items};
ghost use Rattle.memory.specs.Effects.{Sends};
ghost use Rattle.memory.specs.Laws.{Asked, SameCells, SameOthers, stored, load_answer, replies_back};

use crate::fault::MemoryFault;
use crate::interface::HallMemory;
use crate::request::{Request, Taken};
use numbers::cell::Cell;
use operators::action::Action;
use queue::line::Queue;

// For a caller that has some hall memory, and need not know which: what these functions ensure holds of every one.

// Carries out a request.
pub fn ask<M: HallMemory>(memory: &mut M, request: Request) -> Result<(), MemoryFault>
    ensures sends { Sends request result (M.HallMemory.view memory.old) (M.HallMemory.view memory.new) }
    ensures laws { Asked request result (M.HallMemory.view memory.old) (M.HallMemory.view memory.new) }
{
    memory.send(request)
}

// Stores a word and straight after it loads the same cell: the reply is that word. The word is stored even where the LOAD is refused.
pub fn store_then_load<M: HallMemory>(
    memory: &mut M,
    cell: Cell,
    word: u32,
) -> Result<(), MemoryFault>
    ensures answer { result ≡ load_answer (M.HallMemory.view memory.old) }
    ensures reply { (M.HallMemory.view memory.new).transit ≡ replies_back result (M.HallMemory.view memory.old) cell.0 word }
    ensures stores { (M.HallMemory.view memory.new).cell cell.0 ≡ stored (M.HallMemory.view memory.old) cell.0 word }
    ensures others { SameOthers cell.0 (M.HallMemory.view memory.old) (M.HallMemory.view memory.new) }
{
    let store = Request {
        cell,
        action: Action::Store(word),
    };
    let load = Request {
        cell,
        action: Action::Load,
    };
    ask(memory, store)?;
    ask(memory, load)
}

// Takes until nothing is in transit, and answers the replies, the first one first. It ends, since every wait does.
pub fn take_all<M: HallMemory>(memory: &mut M) -> Queue<Option<u32>, 32>
    ensures replies { items result ≡ (M.HallMemory.view memory.old).transit }
    ensures rest { (M.HallMemory.view memory.new).transit ≡ [] }
    ensures cells { SameCells (M.HallMemory.view memory.old) (M.HallMemory.view memory.new) }
{
    let mut replies = Queue::new(None);
    'taking: loop {
        match memory.take() {
            Taken::Nothing => return replies,
            Taken::NotYet => continue,
            Taken::Reply(reply) => {
                let _ = replies.push(reply);
            }
        }
    }
}
