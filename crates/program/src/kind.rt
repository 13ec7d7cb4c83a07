use crate::range::PlaceRange;
use numbers::cell::Cell;
use numbers::place::Place;
use operators::action::Action;
use operators::mode::Mode;

// A program that has been read.
#[derive(Clone, Copy)]
pub enum Program {
    Block(Block),
    Single(Single),
}

// Carries the words of a range of places: place first + i goes with cell + i modulo 2^32.
#[derive(Clone, Copy)]
pub struct Block {
    pub range: PlaceRange,
    pub mode: Mode,
    pub cell: Cell,
}

// Names one place and one cell, and carries its own word (none in LOAD).
#[derive(Clone, Copy)]
pub struct Single {
    pub place: Place,
    pub cell: Cell,
    pub action: Action,
}
