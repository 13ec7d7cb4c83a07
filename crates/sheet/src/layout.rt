ghost use Rattle.std.specs.Prelude.{◌≡◌, ◌≤◌, length, Ok, Err, IfOk, MatchResult};
ghost use Rattle.sheet.specs.Sheets.{sheet_check, count, filled, Fills};

use crate::fault::SheetFault;
use numbers::rising::first_not_rising;

// The bytes of a sheet. They passed both checks, so nothing that reads them checks again.
#[derive(Clone, Copy)]
pub struct Sheet<'a> {
    bytes: &'a [u8],
    ghost checked: { sheet_check bytes.now ≡ Ok tt },
}

// How many entries the first two bytes say.
fn entries(bytes: &[u8]) -> usize
    requires { 2 ≤ length bytes.now }
    ensures { result ≡ count bytes.now }
{
    usize::from(u16::from_le_bytes([bytes[0], bytes[1]]))
}

impl<'a> Sheet<'a> {
    // Takes bytes as a sheet, or refuses them by the first check that fails.
    pub fn read(bytes: &'a [u8]) -> Result<Sheet<'a>, SheetFault>
        ensures answer { MatchResult result (λ _. sheet_check bytes.now ≡ Ok tt) (λ fault. sheet_check bytes.now ≡ Err fault) }
        ensures bytes { IfOk result (λ sheet. sheet.bytes.now ≡ bytes.now) }
    {
        if bytes.len() < 2 {
            return Err(SheetFault::Length);
        }
        let count = entries(bytes);
        if count < 1 || count > 256 || bytes.len() != 2 + 5 * count {
            return Err(SheetFault::Length);
        }
        if let Some(index) = first_not_rising(&bytes[2..2 + count]) {
            return Err(SheetFault::NotRising(index as u32));
        }
        Ok(Sheet { bytes })
    }

    // Puts each word of the sheet into its place of the window.
    pub fn fill(&self, window: &mut [Option<u32>; 256])
        ensures window { window.new ≡ filled self.now.bytes.now window.old }
        ensures law { Fills self.now.bytes.now window.old window.new }
    {
        let (places, words) = self.bytes[2..].split_at(entries(self.bytes));
        let (words, _) = words.as_chunks::<4>();
        for (place, word) in places.iter().zip(words) {
            window[usize::from(*place)] = Some(u32::from_le_bytes(*word));
        }
    }
}
