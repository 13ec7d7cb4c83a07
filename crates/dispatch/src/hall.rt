ghost use Rattle.runs.specs.Asked.{call_of};
ghost use Rattle.dispatch.specs.Carried.{Asks, Calls, HandsOver};

use crate::{memories, movers};
use answers::reply::Reply;
use commands::memories::MemoryCommand;
use commands::trouble::Trouble;
use memory::interface::HallMemory;
use mover::mover::Mover;
use runs::call::Call;
use std::mem::replace;

// What the lines so far have made. A memory that has become a mover's is reached through the mover alone.
#[derive(Drop)]
pub enum Hall<M: HallMemory> {
    Empty,
    Memory(M),
    Mover(Mover<M>),
}

// The hall after the memory is handed over to a new mover, and the answer. What cannot be handed over is given back.
fn handed<M: HallMemory>(hall: Hall<M>) -> (Hall<M>, Result<Reply, Trouble>)
    ensures { HandsOver M.HallMemory result.1 hall result.0 }
{
    match hall {
        Hall::Memory(memory) => match Mover::check(&memory) {
            Ok(()) => (Hall::Mover(Mover::new(memory)), Ok(Reply::MoverReady)),
            Err(fault) => (Hall::Memory(memory), Ok(Reply::refused(fault))),
        },
        other => (other, Err(Trouble::BadLine)),
    }
}

impl<M: HallMemory + Drop> Hall<M> {
    // Carries out a command on the memory.
    pub fn ask(&mut self, command: MemoryCommand) -> Result<Reply, Trouble>
        ensures { Asks M.HallMemory command result self.old self.new }
    {
        match self {
            Hall::Memory(memory) => Ok(memories::carry_out(memory, command)),
            _ => Err(Trouble::BadLine),
        }
    }

    // Hands the memory over to a new mover. After a refusal the memory is still there.
    pub fn hand_over(&mut self) -> Result<Reply, Trouble>
        ensures { HandsOver M.HallMemory result self.old self.new }
    {
        let (hall, outcome) = handed(replace(self, Hall::Empty));
        *self = hall;
        outcome
    }

    // Carries out one call of the mover.
    pub fn call(&mut self, call: Call<'_>) -> Result<Reply, Trouble>
        ensures { Calls M.HallMemory (call_of call.entry) result self.old self.new }
    {
        match self {
            Hall::Mover(mover) => Ok(movers::carry_out(mover, call)),
            _ => Err(Trouble::BadLine),
        }
    }
}
