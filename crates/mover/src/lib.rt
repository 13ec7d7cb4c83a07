// The mover: sixteen channels with their windows, over any hall memory.
#![tactic(auto)]

pub mod mover;
mod pieces;
