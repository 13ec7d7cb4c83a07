// A script as it comes in: its lines carried out one after another, and their answers written.
#![tactic(auto)]

pub mod script;
pub mod session;
mod written;
