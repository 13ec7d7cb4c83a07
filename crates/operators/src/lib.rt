// The operators that join a word to the word of a cell, and the modes of a request.
#![tactic(auto)]

pub mod action;
pub mod choice;
pub mod four;
pub mod mode;
pub mod operator;
