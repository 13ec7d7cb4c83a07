// The mover's state in plain types, and what each of its calls does, as definitions.
#![tactic(auto)]

pub mod answer;
pub mod fault;
pub mod piece;
pub mod record;
pub mod state;
