ghost use Rattle.std.specs.Prelude.{◌≡◌, ℕ, Ok, Err};
ghost use Rattle.program.specs.Headers.{read_header, write_header, mode_of, mode_number, operator_of, operator_number, LowestStray, ReadAs};
ghost use Rattle.program.specs.declared.fault.WordsFault.TheVariants.{StrayBit};

use crate::fault::WordsFault;
use numbers::place::Place;
use operators::choice::Choice;
use operators::mode::Mode;

// What the first word says, its fields taken apart.
#[derive(Clone, Copy)]
pub struct Header {
    pub first: Place,
    pub last: Place,
    pub mode: Mode,
    pub single: bool,
}

// Two bits of a word have no fifth value: a TryFrom would add a refusal that nothing meets.
fn operator_of(number: u32) -> Choice
    ensures { result ≡ operator_of number }
{
    match number {
        0 => Choice::And,
        1 => Choice::Or,
        2 => Choice::Max,
        _ => Choice::Add,
    }
}

fn mode_of(number: u32, operator: u32) -> Mode
    ensures { result ≡ mode_of number operator }
{
    match number {
        0 => Mode::Load,
        1 => Mode::Store,
        2 => Mode::Mp(operator_of(operator)),
        _ => Mode::Sync(operator_of(operator)),
    }
}

// A mode has two numbers, and a From would not say which of them it gives.
fn mode_number(mode: Mode) -> u32
    ensures { result ≡ mode_number mode }
{
    match mode {
        Mode::Load => 0,
        Mode::Store => 1,
        Mode::Mp(_) => 2,
        Mode::Sync(_) => 3,
    }
}

fn operator_number(mode: Mode) -> u32
    ensures { result ≡ operator_number mode }
{
    match mode {
        Mode::Load | Mode::Store => 0,
        Mode::Mp(operator) | Mode::Sync(operator) => operator as u32,
    }
}

impl Header {
    // Takes a first word apart, or refuses it: 3 before 4.
    pub fn read(word: u32) -> Result<Header, WordsFault>
        ensures value { result ≡ read_header word }
        ensures back { (h : Header) → result ≡ Ok h → write_header h ≡ word }
        ensures lowest { (bit : ℕ) → result ≡ Err (StrayBit bit) → LowestStray word bit }
    {
        let stray = word >> 21;
        if stray > 0 {
            return Err(WordsFault::StrayBit(21 + stray.trailing_zeros()));
        }
        let mode = (word >> 16) % 4;
        let operator = (word >> 18) % 4;
        if mode < 2 && operator > 0 {
            return Err(WordsFault::OperatorBits);
        }
        Ok(Header {
            first: Place((word % 256) as u8),
            last: Place(((word >> 8) % 256) as u8),
            mode: mode_of(mode, operator),
            single: (word >> 20) % 2 == 1,
        })
    }

    // The first word that says this.
    pub fn write(&self) -> u32
        ensures value { result ≡ write_header self.now }
        ensures again { ReadAs result self.now }
    {
        u32::from(self.first.0)
            + (u32::from(self.last.0) << 8)
            + (mode_number(self.mode) << 16)
            + (operator_number(self.mode) << 18)
            + (u32::from(self.single) << 20)
    }
}
