// Commands carried out on a memory or a mover, each with its reply.
#![tactic(auto)]

mod carried;
pub mod hall;
mod memories;
pub mod movers;
mod programs;
