ghost use Rattle.sheet.specs.Faults.{sheet_told};

use numbers::layer::Layer;
use numbers::refusal::Refusal;

// What a sheet is refused for.
#[derive(Clone, Copy, PartialEq, Eq, Debug)]
pub enum SheetFault {
    // 8: under 2 bytes, a count that is not 1 to 256, or a length that is not 2 + 5 times the count
    Length,
    // 9: a place number is not above the one before; the detail is the first such index, from 0
    NotRising(u32),
}

impl Refusal for SheetFault {
    ghost told = { sheet_told };

    fn number(&self) -> u32 {
        match *self {
            SheetFault::Length => 8,
            SheetFault::NotRising(_) => 9,
        }
    }

    fn detail(&self) -> u32 {
        match *self {
            SheetFault::Length => 0,
            SheetFault::NotRising(index) => index,
        }
    }

    fn layer(&self) -> Layer {
        Layer::Sheet
    }
}
