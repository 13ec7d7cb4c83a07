ghost use Rattle.pile.specs.Plans.{flat_planned, catalogue_planned, router_planned, spreader_planned, AsPlanned};

use crate::either::Either;
use crate::piles::{Base, Pile, Shared};
use layers::router::Router;
use layers::spreader::Spreader;
use memory::catalogue::{Catalogue, Entry};
use memory::fault::MemoryFault;
use memory::flat::Flat;
use memory::interface::HallMemory;

// Each function makes a check and then, where it is passed, the memory. They take different parts, so no trait over them would say
// more than their names.

pub fn flat(words: Vec<u32>) -> Result<Base, MemoryFault>
    ensures { AsPlanned ⟦<Base as HallMemory>⟧.view (flat_planned words.items) result }
{
    Flat::check(&words)?;
    Ok(Either::First(Flat::new(words)))
}

pub fn catalogue(entries: Vec<Entry>) -> Result<Base, MemoryFault>
    ensures { AsPlanned ⟦<Base as HallMemory>⟧.view (catalogue_planned entries.items) result }
{
    Catalogue::check(&entries)?;
    Ok(Either::Second(Catalogue::new(entries)))
}

pub fn route(left: Base, right: Base, bit: u32) -> Result<Shared, MemoryFault>
    ensures { AsPlanned ⟦<Shared as HallMemory>⟧.view (router_planned bit (⟦<Base as HallMemory>⟧.view left) (⟦<Base as HallMemory>⟧.view right)) result }
{
    Router::check(&left, &right, bit)?;
    Ok(Either::Second(Router::new(left, right, bit)))
}

pub fn spread(below: Shared, factor: u32) -> Result<Pile, MemoryFault>
    ensures { AsPlanned ⟦<Pile as HallMemory>⟧.view (spreader_planned factor (⟦<Shared as HallMemory>⟧.view below)) result }
{
    Spreader::<Shared>::check(factor)?;
    Ok(Either::Second(Spreader::new(below, factor)))
}
