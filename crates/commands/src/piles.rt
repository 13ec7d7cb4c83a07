// Reads what a memory is made of. A list stands in brackets, which need no space beside them.
ghost use Rattle.std.specs.Prelude.{◌≡◌};
ghost use Rattle.std.specs.Option.{option_map};
ghost use Rattle.commands.specs.Readers.{field, whole};
ghost use Rattle.commands.specs.Troubles.{Spells};
ghost use Rattle.commands.specs.Piles.{base_of, shared_of, pile_of, base_named, base, shared, pile as pile_read};

use crate::lists::{cut, read_list};
use crate::names::next_is;
use crate::trouble::Trouble;
use pile::plan::{BasePlan, PilePlan, SharedPlan};
use reading::fields::Fields;
use std::alloc::Global;

// The one field of a text.
fn only_field(text: &[u8]) -> Option<&[u8]>
    ensures { option_map (λ x. x.now) result ≡ whole field text.now }
{
    let mut fields = Fields::new(text);
    let field = fields.next()?;
    if fields.at_end() { Some(field) } else { None }
}

// The memory of this name, with its list.
fn read_named(heap: Global, name: &[u8], list: &[u8]) -> Result<BasePlan, Trouble>
    ensures { Spells base_of (base_named name.now list.now) result }
{
    match name {
        b"flat" => Ok(BasePlan::Flat(read_list(heap, list)?)),
        b"catalogue" => Ok(BasePlan::Catalogue(read_list(heap, list)?)),
        _ => Err(Trouble::BadLine),
    }
}

// A memory with no other below it, and the text behind it.
fn read_base(heap: Global, text: &[u8]) -> Result<(BasePlan, &[u8]), Trouble>
    ensures { Spells (λ x. (base_of x.0, x.1.now)) (base text.now) result }
{
    let (front, rest) = cut(text, b'[').ok_or(Trouble::BadLine)?;
    let (list, rest) = cut(rest, b']').ok_or(Trouble::BadLine)?;
    let name = only_field(front).ok_or(Trouble::BadLine)?;
    Ok((read_named(heap, name, list)?, rest))
}

// One memory or two side by side, and the text behind them.
fn read_shared(heap: Global, text: &[u8]) -> Result<(SharedPlan, &[u8]), Trouble>
    ensures { Spells (λ x. (shared_of x.0, x.1.now)) (shared text.now) result }
{
    let mut fields = Fields::new(text);
    if !next_is(&mut fields, b"route") {
        let (base, rest) = read_base(heap, text)?;
        return Ok((SharedPlan::One(base), rest));
    }
    let bit = fields.number().ok_or(Trouble::BadLine)?;
    let (left, rest) = read_base(heap, fields.rest())?;
    let (right, rest) = read_base(heap, rest)?;
    Ok((SharedPlan::Route(left, right, bit), rest))
}

// The pile that a text begins with, and the text behind it.
pub fn read_pile(heap: Global, text: &[u8]) -> Result<(PilePlan, &[u8]), Trouble>
    ensures { Spells (λ x. (pile_of x.0, x.1.now)) (pile_read text.now) result }
{
    let mut fields = Fields::new(text);
    if !next_is(&mut fields, b"spread") {
        let (shared, rest) = read_shared(heap, text)?;
        return Ok((PilePlan::Plain(shared), rest));
    }
    let factor = fields.number().ok_or(Trouble::BadLine)?;
    let (shared, rest) = read_shared(heap, fields.rest())?;
    Ok((PilePlan::Spread(shared, factor), rest))
}
