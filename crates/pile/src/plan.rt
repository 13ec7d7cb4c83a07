ghost use Rattle.pile.specs.Plans.{base_planned, shared_planned, pile_planned, AsPlanned};

use crate::either::Either;
use crate::making::{catalogue, flat, route, spread};
use crate::piles::{Base, Pile, Shared};
use memory::catalogue::Entry;
use memory::fault::MemoryFault;
use memory::interface::HallMemory;

// What a pile is to be made of. Inner memories are made before outer ones and the left one before the right one, so the first
// refusal in this order is the answer.

#[derive(Drop)]
pub enum BasePlan {
    Flat(Vec<u32>),
    Catalogue(Vec<Entry>),
}

#[derive(Drop)]
pub enum SharedPlan {
    One(BasePlan),
    // the left memory, the right memory and the bit
    Route(BasePlan, BasePlan, u32),
}

#[derive(Drop)]
pub enum PilePlan {
    Plain(SharedPlan),
    // the memory below and the factor
    Spread(SharedPlan, u32),
}

impl BasePlan {
    fn make(self) -> Result<Base, MemoryFault>
        ensures { AsPlanned ⟦<Base as HallMemory>⟧.view (base_planned self) result }
    {
        match self {
            BasePlan::Flat(words) => flat(words),
            BasePlan::Catalogue(entries) => catalogue(entries),
        }
    }
}

impl SharedPlan {
    fn make(self) -> Result<Shared, MemoryFault>
        ensures { AsPlanned ⟦<Shared as HallMemory>⟧.view (shared_planned self) result }
    {
        match self {
            SharedPlan::One(base) => Ok(Either::First(base.make()?)),
            SharedPlan::Route(left, right, bit) => {
                let left = left.make()?;
                let right = right.make()?;
                route(left, right, bit)
            }
        }
    }
}

impl PilePlan {
    pub fn make(self) -> Result<Pile, MemoryFault>
        ensures { AsPlanned ⟦<Pile as HallMemory>⟧.view (pile_planned self) result }
    {
        match self {
            PilePlan::Plain(shared) => Ok(Either::First(shared.make()?)),
            PilePlan::Spread(shared, factor) => spread(shared.make()?, factor),
        }
    }
}
