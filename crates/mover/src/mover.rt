pub mod calls;
pub mod making;
mod turning;

use machine::state::State;
use memory::interface::HallMemory;
use std::marker::Model;

// The mover over a hall memory that nobody else uses.
#[derive(Drop)]
pub struct Mover<M: HallMemory> {
    memory: M,
    state: State,
}

// Clauses see the memory and the meaning of the state. What every call keeps of them is the invariant.
impl<M: HallMemory> Model for Mover<M> {
    ghost use Rattle.machine.specs.Means.{mean_of};
    ghost use Rattle.mover.specs.Meaning.{Whole, MoverSound};

    ghost Value = { Whole M };

    ghost view = { λ m. record { memory = m.memory; state = mean_of m.state } };

    ghost invariant = { λ m. MoverSound M.HallMemory m.memory (mean_of m.state) };
}
