// The hall memory: one interface, two memories, and laws of any of them.
#![tactic(auto)]

pub mod catalogue;
pub mod fault;
pub mod flat;
pub mod interface;
pub mod laws;
pub mod request;
