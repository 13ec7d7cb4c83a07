// Lines of fixed room, first in first out, which never allocate.
#![tactic(auto)]

mod cursor;
pub mod full;
pub mod line;
#[cfg(test)]
mod tests;
