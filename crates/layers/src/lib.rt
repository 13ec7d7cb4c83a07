// Layers over any hall memory, each a hall memory again.
#![tactic(auto)]

pub mod router;
pub mod spreader;
