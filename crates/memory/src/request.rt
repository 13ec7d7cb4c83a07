use numbers::cell::Cell;
use operators::action::Action;

// What is asked of one cell.
#[derive(Clone, Copy)]
pub struct Request {
    pub cell: Cell,
    pub action: Action,
}

// What a take answers. A reply holds the word that the cell had just before its request, or no word if the cell is not fitted.
#[derive(Clone, Copy, PartialEq, Eq, Debug)]
pub enum Taken {
    Nothing,
    NotYet,
    Reply(Option<u32>),
}
