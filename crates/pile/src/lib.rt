// Hall memories that are chosen while a program runs.
#![tactic(auto)]

pub mod either;
mod making;
pub mod piles;
pub mod plan;
