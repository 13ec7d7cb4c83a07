// A cell of the hall memory, by its number, 0 to 2^32 − 1.
#[derive(Clone, Copy, PartialEq, Eq, Debug)]
pub struct Cell(pub u32);
