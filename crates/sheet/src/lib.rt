// Sheets: several places of a window and their words, in bytes.
#![tactic(auto)]

pub mod fault;
pub mod layout;
