// The items of a list, as its fields spell them.
ghost use Rattle.std.specs.Prelude.{◌≡◌, ℕ, ◌≤◌, List, ◌++◌, take, replicate, is_ok, if◌then◌else◌, vec_items, vec_len, ◌==◌, Option};
ghost use Rattle.std.specs.List.{position};
ghost use Rattle.std.specs.Option.{option_map};
ghost use Rattle.reading.specs.Decimal.{number_of};
ghost use Rattle.commands.specs.Troubles.{Spells};
ghost use Rattle.commands.specs.Lists.{up_to, timed, list_of, entry_of, with_item};

use crate::trouble::Trouble;
use memory::catalogue::Entry;
use numbers::cell::Cell;
use reading::fields::Fields;
use reading::number::number;
use std::alloc::{AllocError, Global};

// So many items are too many for every memory, so a list grows no further.
const MOST: usize = 65_537;

// An item of a list.
pub trait Item: Copy {
    // The item that a text spells.
    ghost spelled: { List ℕ → Option Self };

    fn read(text: &[u8]) -> Option<Self>
        ensures { result ≡ spelled text.now };
}

impl Item for u32 {
    ghost spelled = { number_of };

    fn read(text: &[u8]) -> Option<u32> {
        number(text)
    }
}

impl Item for Entry {
    ghost spelled = { entry_of };

    fn read(text: &[u8]) -> Option<Entry> {
        let (cell, word) = cut(text, b':')?;
        let cell = Cell(number(cell)?);
        let word = number(word)?;
        Some(Entry { cell, word })
    }
}

// Where the first such byte stands.
fn place_of(bytes: &[u8], mark: u8) -> Option<usize>
    ensures { result ≡ position (λ b. b == mark) bytes.now }
{
    bytes.iter().position(|byte| *byte == mark)
}

// What stands before the first such byte, and what stands after it.
pub fn cut(bytes: &[u8], mark: u8) -> Option<(&[u8], &[u8])>
    ensures { option_map (λ parts. (parts.0.now, parts.1.now)) result ≡ up_to mark bytes.now }
{
    let place = place_of(bytes, mark)?;
    Some((&bytes[..place], &bytes[place + 1..]))
}

// An item, and how often it stands there: X, or X*N.
fn read_item<T: Item>(field: &[u8]) -> Option<(T, u32)>
    ensures { result ≡ timed T.Item.spelled field.now }
{
    match cut(field, b'*') {
        None => Some((T::read(field)?, 1)),
        Some((item, count)) => Some((T::read(item)?, number(count)?)),
    }
}

fn push_times<T: Copy>(items: &mut Vec<T>, item: T, count: u32) -> Result<(), AllocError>
    requires { vec_len items.old ≤ 65537 }
    ensures { items.new.items ≡ (if is_ok result then take 65537 (items.old.items ++ replicate count item) else items.old.items) }
{
    let len = MOST.min(items.len() + count as usize);
    items.resize(len, item)
}

// Adds what a field spells to the items.
fn push_field<T: Item>(items: &mut Vec<T>, field: &[u8]) -> Result<(), Trouble>
    requires { vec_len items.old ≤ 65537 }
    ensures { Spells (λ _. items.new.items) (with_item items.old.items (timed T.Item.spelled field.now)) result }
{
    let (item, count) = read_item::<T>(field).ok_or(Trouble::BadLine)?;
    push_times(items, item, count)?;
    Ok(())
}

// The items that the fields of a text spell.
pub fn read_list<T: Item>(heap: Global, list: &[u8]) -> Result<Vec<T>, Trouble>
    ensures { Spells vec_items (list_of T.Item.spelled list.now) result }
{
    let mut items = Vec::new(heap);
    for field in Fields::new(list) {
        push_field(&mut items, field)?;
    }
    Ok(items)
}
