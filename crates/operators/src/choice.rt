ghost use Rattle.operators.specs.Choices.{join_by};
ghost use Rattle.operators.specs.Chosen.{chosen_bracketing, chosen_order};

use crate::four::{Add, And, Max, Or};
use crate::operator::Operator;

// One of the four operators, in the order of their numbers in a program's first word: 0 to 3.
#[derive(Clone, Copy, PartialEq, Eq, Debug)]
pub enum Choice {
    And,
    Or,
    Max,
    Add,
}

impl Operator for Choice {
    ghost joined = { join_by };

    ghost bracketing = { chosen_bracketing };

    ghost order = { chosen_order };

    fn join(&self, x: u32, y: u32) -> u32 {
        match *self {
            Choice::And => And.join(x, y),
            Choice::Or => Or.join(x, y),
            Choice::Max => Max.join(x, y),
            Choice::Add => Add.join(x, y),
        }
    }
}
