ghost use Rattle.std.specs.Prelude.{◌≡◌};
ghost use Rattle.queue.specs.Held.{SoundLine};

use crate::cursor::Cursor;
use crate::full::Full;
use std::alloc::AllocError;

// A line of at most N elements, first in first out. It copies elements in and out, and reads no slot that is not in use.
pub struct Queue<T: Copy, const N: usize> {
    slots: [T; N],
    cursor: Cursor,
    ghost sound: { SoundLine cursor slots N },
}

// Each slot of a clone is a clone of the slot. `copied` gives the queue as it is.
impl<T: Copy, const N: usize> Clone for Queue<T, N> {
    ghost use Rattle.std.specs.Prelude.{◌<◌, ℕ, slice_index_or};
    ghost use Rattle.std.specs.Array.Iter.{IntoIterFitsInMemory};
    ghost use Rattle.queue.specs.Clones.{Cloned};

    ghost is_clone = { Cloned T.is_clone };

    // As of an array: it fits in memory, and no slot's clone fails.
    ghost is_infallible = { λ queue. IntoIterFitsInMemory T.row N.row × ((i : ℕ) (d : T) → i < N → T.is_infallible (slice_index_or queue.slots i d)) };

    fn clone(&self) -> Result<Queue<T, N>, AllocError> {
        let mut copy = self.copied();
        copy.slots = self.slots.clone()?;
        Ok(copy)
    }
}

impl<T: Copy, const N: usize> Copy for Queue<T, N> {}

impl<T: Copy, const N: usize> Queue<T, N> {
    ghost use Rattle.std.specs.Prelude.{◌≡◌, ◌≤◌, [], length, drop, ◌==◌, slice_set, nat_lt, OnErr, IfNone};
    ghost use Rattle.std.specs.List.{slice_get};
    ghost use Rattle.queue.specs.Held.{pushed, room_for};
    ghost use Rattle.queue.specs.Queues.{items};

    // The empty queue. The filler stands in the slots until they are used, and is never answered.
    pub fn new(filler: T) -> Queue<T, N>
        ensures { items result ≡ [] }
    {
        Queue {
            slots: [filler; N],
            cursor: Cursor::new(),
        }
    }

    pub fn len(&self) -> usize
        ensures value { result ≡ length (items self.now) }
        ensures few { length (items self.now) ≤ N }
    {
        self.cursor.len()
    }

    pub fn is_empty(&self) -> bool
        ensures { result ≡ (length (items self.now) == 0) }
    {
        self.len() == 0
    }

    pub fn is_full(&self) -> bool
        ensures value { result ≡ (length (items self.now) == N) }
        ensures few { length (items self.now) ≤ N }
    {
        self.len() == N
    }

    // The same queue. Unlike `clone` it clones no element, so it can't fail.
    pub fn copied(&self) -> Queue<T, N>
        ensures { result ≡ self.now }
    {
        *self
    }

    // The i-th element, counted from 0, or none.
    pub fn get(&self, i: usize) -> Option<T>
        ensures { result ≡ slice_get (items self.now) i }
    {
        let slot = self.cursor.find(i, N)?;
        Some(self.slots[slot])
    }

    // The first element, or none.
    pub fn first(&self) -> Option<T>
        ensures { result ≡ slice_get (items self.now) 0 }
    {
        self.get(0)
    }

    // Puts x in place of the first element and answers that one, or none where there is none.
    pub fn replace_first(&mut self, x: T) -> Option<T>
        ensures holds { items self.new ≡ slice_set (items self.old) 0 x }
        ensures answer { result ≡ slice_get (items self.old) 0 }
        ensures kept { IfNone result (self.new ≡ self.old) }
    {
        let slot = self.cursor.find(0, N)?;
        let first = self.slots[slot];
        self.slots[slot] = x;
        Some(first)
    }

    // Puts x at the end, unless N elements are held.
    pub fn push(&mut self, x: T) -> Result<(), Full>
        ensures holds { items self.new ≡ pushed N (items self.old) x }
        ensures answer { result ≡ room_for N (items self.old) }
        ensures few { length (items self.new) ≤ N }
        ensures kept { OnErr result (self.new ≡ self.old) }
    {
        let end = self.cursor.grow(N).ok_or(Full)?;
        self.slots[end] = x;
        Ok(())
    }

    // Takes the first element out, or answers none where there is none.
    pub fn pop(&mut self) -> Option<T>
        ensures holds { items self.new ≡ drop 1 (items self.old) }
        ensures answer { result ≡ slice_get (items self.old) 0 }
        ensures few { length (items self.old) ≤ N }
        ensures kept { IfNone result (self.new ≡ self.old) }
    {
        let first = self.cursor.shrink(N)?;
        Some(self.slots[first])
    }
}
