// What is answered to a command: as a value, and as text.
#![tactic(auto)]

mod pieces;
mod programs;
pub mod reply;
pub mod text;
mod turns;
