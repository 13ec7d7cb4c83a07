ghost use Rattle.std.specs.Prelude.{◌≡◌, ◌<◌, ◌≤◌, [], length, None, Ok};
ghost use Rattle.numbers.specs.Rising.{not_rising};
ghost use Rattle.queue.specs.Queues.{items};
ghost use Rattle.memory.specs.Catalogues.{cell_of, catalogue_check, catalogue_view, wait_for, wait_left, entry_index, acted, Found, room_for, with_reply, wait_with};
ghost use Rattle.memory.specs.Effects.{Sends, Takes};
ghost use Rattle.memory.specs.Views.{room};
ghost use Rattle.std.proofs.Common.{rules};

use crate::fault::MemoryFault;
use crate::interface::HallMemory;
use crate::request::{Request, Taken};
use numbers::cell::Cell;
use numbers::rising::{Keyed, first_not_rising};
use operators::action::Action;
use queue::line::Queue;

// A cell of a catalogue, and its word.
#[derive(Clone, Copy)]
pub struct Entry {
    pub cell: Cell,
    pub word: u32,
}

// A memory of given entries with strictly rising cells. Exactly the listed cells are fitted, and each reply waits three takes.
#[derive(Drop)]
pub struct Catalogue {
    entries: Vec<Entry>,
    transit: Queue<Option<u32>, 32>,
    wait: u8,
    ghost rising: { not_rising cell_of entries.items ≡ None },
    ghost few: { length (items transit) ≤ room },
    // no reply waits longer than it did when it became the first, and nothing waits for no reply
    ghost short: { wait ≤ wait_for (items transit) },
}

impl Keyed for Entry {
    ghost rank = { cell_of };

    fn key(&self) -> u32 {
        self.cell.0
    }
}

impl Catalogue {
    // Refuses a number of entries that is not 1 to 256, and then cells that do not rise.
    pub fn check(entries: &Vec<Entry>) -> Result<(), MemoryFault>
        ensures { result ≡ catalogue_check entries.now.items }
    {
        if entries.len() < 1 || entries.len() > 256 {
            return Err(MemoryFault::Size);
        }
        first_not_rising(entries.as_slice()).map_or(
            Ok(()),
            |index| Err(MemoryFault::NotRising(index as u32)),
        )
    }

    // The memory of these entries, with nothing in transit. The check was passed before.
    pub fn new(entries: Vec<Entry>) -> Catalogue
        requires { catalogue_check entries.items ≡ Ok tt }
        ensures { (result.entries.items ≡ entries.items) × (items result.transit ≡ []) × (result.wait ≡ 0) }
    {
        Catalogue {
            entries,
            transit: Queue::new(None),
            wait: 0,
        }
    }
}

impl Catalogue {
    // The index of the entry of a cell, or none where the cell is not listed.
    fn find(&self, cell: Cell) -> Option<usize>
        ensures index { result ≡ entry_index cell.0 self.now.entries.items }
        ensures found { Found cell.0 self.now.entries.items result }
    {
        self.entries
            .binary_search_by_key(&cell.0, |entry| entry.cell.0)
            .ok()
    }

    // Puts the reply of an action that wants one into the transit. A reply that becomes the first one waits three takes.
    fn reply(&mut self, action: Action, reply: Option<u32>) -> Result<(), MemoryFault>
        ensures entries { self.new.entries ≡ self.old.entries }
        ensures answer { result ≡ room_for action (items self.old.transit) }
        ensures transit { items self.new.transit ≡ with_reply action reply (items self.old.transit) }
        ensures wait { self.new.wait ≡ wait_with action (items self.old.transit) self.old.wait }
    {
        if !action.wants_reply() {
            return Ok(());
        }
        if self.transit.is_empty() {
            self.wait = 3;
        }
        self.transit.push(reply)?;
        Ok(())
    }

    // Carries an action out on the word of one entry.
    fn change(&mut self, index: usize, action: Action)
        requires { index < length self.old.entries.items }
        ensures entries { self.new.entries.items ≡ acted self.old.entries.items index action }
        ensures rest { (items self.new.transit ≡ items self.old.transit) × (self.new.wait ≡ self.old.wait) }
    {
        let entry = &mut self.entries[index];
        entry.word = action.word_after(entry.word);
    }
}

impl HallMemory for Catalogue {
    ghost view = { λ m. catalogue_view m.entries.items (items m.transit) m.wait };

    ghost bounded = { Prim.search rules };

    fn send(&mut self, request: Request) -> Result<(), MemoryFault>
        ensures sends { Sends request result (catalogue_view self.old.entries.items (items self.old.transit) self.old.wait) (catalogue_view self.new.entries.items (items self.new.transit) self.new.wait) }
        ensures wait { self.new.wait ≡ wait_with request.action (items self.old.transit) self.old.wait }
    {
        match self.find(request.cell) {
            None => self.reply(request.action, None),
            Some(i) => {
                let word = self.entries[i].word;
                self.reply(request.action, Some(word))?;
                self.change(i, request.action);
                Ok(())
            }
        }
    }

    fn take(&mut self) -> Taken
        ensures takes { Takes result (catalogue_view self.old.entries.items (items self.old.transit) self.old.wait) (catalogue_view self.new.entries.items (items self.new.transit) self.new.wait) }
        ensures wait { self.new.wait ≡ wait_left result self.old.wait (items self.new.transit) }
    {
        if self.wait > 0 {
            self.wait -= 1;
            return Taken::NotYet;
        }
        match self.transit.pop() {
            None => Taken::Nothing,
            Some(reply) => {
                self.wait = if self.transit.is_empty() { 0 } else { 3 };
                Taken::Reply(reply)
            }
        }
    }

    fn waiting(&self) -> usize {
        self.transit.len()
    }
}
