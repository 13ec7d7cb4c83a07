// The commands of a script, as lines spell them.
#![tactic(auto)]

mod choices;
pub mod command;
mod lists;
pub mod memories;
pub mod movers;
mod names;
mod piles;
pub mod programs;
mod requests;
pub mod trouble;
mod words;
