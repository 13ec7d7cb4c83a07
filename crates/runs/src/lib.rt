// Whole runs: a list of calls carried out on a new mover.
#![tactic(auto)]

pub mod call;
pub mod run;
