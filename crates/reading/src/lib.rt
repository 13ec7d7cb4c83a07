// Lines of text taken apart: a line as its bytes come in, its fields, and the numbers and names that fields spell.
#![tactic(auto)]

pub mod fields;
pub mod line;
pub mod number;
pub mod operator_name;
