// The numbers that name a channel, a place and a cell, and what every refusal tells.
// Each number is a type of its own, so that none can stand for another.
#![tactic(auto)]

pub mod cell;
pub mod channel;
pub mod layer;
pub mod place;
pub mod refusal;
pub mod rising;
