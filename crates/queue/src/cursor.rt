ghost use Rattle.std.specs.Prelude.{◌≡◌, ◌≤◌};
ghost use Rattle.queue.specs.Slots.{slot_of, found, free_slot, grown, used_slot, shrunk};

// Which slots of a line are in use: `len` of them from the slot `head` on, where slot 0 follows the last slot.
// It knows no element type, so that every kind of line can share it. The line passes the number of its slots, `size`.
// As a ghost field, the fact that the head is within would be a proof inside each cursor that a definition writes.
#[derive(Clone, Copy)]
pub struct Cursor {
    head: usize,
    len: usize,
}

impl Cursor {
    // No slot is in use.
    pub fn new() -> Cursor
        ensures { result ≡ record { head = 0; len = 0 } }
    {
        Cursor { head: 0, len: 0 }
    }

    pub fn len(&self) -> usize
        ensures { result ≡ self.now.len }
    {
        self.len
    }

    // The slot i steps after the head. No sum here passes `size`, so none can wrap.
    fn slot(&self, i: usize, size: usize) -> usize
        requires { self.now.head ≤ size }
        ensures { result ≡ slot_of self.now.head i size }
    {
        let to_end = size - self.head;
        if i < to_end {
            self.head + i
        } else {
            i - to_end
        }
    }

    // The slot of the i-th element, counted from 0, or none where there are no more than i.
    pub fn find(&self, i: usize, size: usize) -> Option<usize>
        requires { self.now.head ≤ size }
        ensures { result ≡ found self.now i size }
    {
        if i < self.len {
            Some(self.slot(i, size))
        } else {
            None
        }
    }

    // Takes the slot after the last one into use, and answers which; none where all are in use.
    pub fn grow(&mut self, size: usize) -> Option<usize>
        requires { self.old.head ≤ size }
        ensures answer { result ≡ free_slot self.old size }
        ensures state { self.new ≡ grown self.old size }
    {
        if self.len >= size {
            return None;
        }
        let free = self.slot(self.len, size);
        self.len += 1;
        Some(free)
    }

    // Takes the head out of use, and answers which slot it was; none where no slot is in use.
    pub fn shrink(&mut self, size: usize) -> Option<usize>
        requires { self.old.head ≤ size }
        ensures answer { result ≡ used_slot self.old }
        ensures state { self.new ≡ shrunk self.old size }
    {
        if self.len == 0 {
            return None;
        }
        let used = self.head;
        self.head = self.slot(1, size);
        self.len -= 1;
        Some(used)
    }
}
