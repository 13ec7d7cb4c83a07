ghost use Rattle.std.specs.Prelude.{◌≡◌, ◌≤◌, [], length, Ok};
ghost use Rattle.queue.specs.Queues.{items};
ghost use Rattle.memory.specs.Views.{room};
ghost use Rattle.memory.specs.Flats.{flat_view, flat_check};
ghost use Rattle.std.proofs.Common.{rules};

use crate::fault::MemoryFault;
use crate::interface::HallMemory;
use crate::request::{Request, Taken};
use queue::line::Queue;

// A memory of given words. Cell a is fitted when a is below their number, and no reply waits.
#[derive(Drop)]
pub struct Flat {
    words: Vec<u32>,
    transit: Queue<Option<u32>, 32>,
    ghost few: { length (items transit) ≤ room },
}

impl Flat {
    // Refuses a number of words that is not 1 to 65,536.
    pub fn check(words: &Vec<u32>) -> Result<(), MemoryFault>
        ensures { result ≡ flat_check words.now.items }
    {
        if words.len() < 1 || words.len() > 65_536 {
            return Err(MemoryFault::Size);
        }
        Ok(())
    }

    // The memory of these words, with nothing in transit. The check was passed before.
    pub fn new(words: Vec<u32>) -> Flat
        requires { flat_check words.items ≡ Ok tt }
        ensures { flat_view result.words.items (items result.transit) ≡ flat_view words.items [] }
    {
        Flat {
            words,
            transit: Queue::new(None),
        }
    }
}

impl HallMemory for Flat {
    ghost view = { λ m. flat_view m.words.items (items m.transit) };

    ghost bounded = { Prim.search rules };

    fn send(&mut self, request: Request) -> Result<(), MemoryFault> {
        let index = request.cell.0 as usize;
        let before = self.words.get(index).copied();
        if request.action.wants_reply() {
            self.transit.push(before)?;
        }
        if let Some(word) = before {
            self.words[index] = request.action.word_after(word);
        }
        Ok(())
    }

    fn take(&mut self) -> Taken {
        match self.transit.pop() {
            None => Taken::Nothing,
            Some(reply) => Taken::Reply(reply),
        }
    }

    fn waiting(&self) -> usize {
        self.transit.len()
    }
}
