ghost use Rattle.std.specs.Prelude.{◌≡◌, ◌≤◌, false, [], length, is_ok, if◌then◌else◌, vec_len, ◌==◌};
ghost use Rattle.std.specs.Option.{option_map};
ghost use Rattle.reading.specs.Lines.{with_byte, marked_after, whole_line};

use std::alloc::{AllocError, Global};

// The longest line that is stored. The longest useful line has two lists of 65,536 numbers.
const LONGEST: usize = 2_097_152;

// A line of the input as its bytes come in, without its line feed.
#[derive(Drop)]
pub struct Line {
    bytes: Vec<u8>,
    // Beside the bytes, and no Option of them, since the memory of a line that was too long serves the next one.
    too_long: bool,
    ghost stored: { vec_len bytes ≤ 2097152 },
}

impl Line {
    pub fn new(heap: Global) -> Line
        ensures bytes { result.bytes.items ≡ [] }
        ensures mark { result.too_long ≡ false }
    {
        Line {
            bytes: Vec::new(heap),
            too_long: false,
        }
    }

    // Adds a byte. Past the longest line it is not stored, so that no input takes all memory.
    // Where there is no memory for it, nothing changes.
    pub fn push(&mut self, byte: u8) -> Result<(), AllocError>
        ensures bytes { self.new.bytes.items ≡ (if is_ok result then with_byte self.old.bytes.items byte else self.old.bytes.items) }
        ensures mark { self.new.too_long ≡ (if is_ok result then marked_after self.old.bytes.items self.old.too_long else self.old.too_long) }
    {
        if self.bytes.len() >= LONGEST {
            self.too_long = true;
            return Ok(());
        }
        self.bytes.push(byte)?;
        Ok(())
    }

    // Whether no byte is stored.
    pub fn is_empty(&self) -> bool
        ensures { result ≡ (length self.now.bytes.items == 0) }
    {
        self.bytes.is_empty()
    }

    // The whole line, or none where it is too long.
    pub fn bytes(&self) -> Option<&[u8]>
        ensures { option_map (λ x. x.now) result ≡ whole_line self.now.bytes.items self.now.too_long }
    {
        if self.too_long {
            None
        } else {
            Some(self.bytes.as_slice())
        }
    }

    // Starts the next line in the same memory.
    pub fn clear(&mut self)
        ensures bytes { self.new.bytes.items ≡ [] }
        ensures mark { self.new.too_long ≡ false }
    {
        self.bytes.clear();
        self.too_long = false;
    }
}
