// The sixteen channels: what a mover keeps of them, and the calls on it that do not reach the hall memory.
#![tactic(auto)]

pub mod calls;
mod checks;
pub mod making;
mod records;
mod status;
#[cfg(test)]
mod tests;
