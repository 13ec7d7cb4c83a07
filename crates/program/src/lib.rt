// Programs: the three words, how they are read and written back, and the pieces that a program is sent in.
#![tactic(auto)]

pub mod fault;
pub mod header;
pub mod kind;
pub mod layout;
pub mod pieces;
pub mod range;
