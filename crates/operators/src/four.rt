ghost use Rattle.std.specs.Prelude.{max, bit_and, bit_or};
ghost use Rattle.std.proofs.lemmas.Nat.{and_comm, or_comm};
ghost use Rattle.operators.specs.Joins.{add_words};
ghost use Rattle.operators.specs.Bracketing.{and_bracketing, or_bracketing};
ghost use Rattle.std.proofs.Common.{rules};

use crate::operator::Operator;

// Each operator is a type of its own, so that a later kind can build on the trait; `Choice` picks one of these four.

// Bit by bit: a bit is set where both words have it.
#[derive(Clone, Copy)]
pub struct And;

// Bit by bit: a bit is set where either word has it.
#[derive(Clone, Copy)]
pub struct Or;

// The larger of two unsigned numbers.
#[derive(Clone, Copy)]
pub struct Max;

// The sum modulo 2^32.
#[derive(Clone, Copy)]
pub struct Add;

impl Operator for And {
    ghost joined = { λ _ x y. bit_and x y };

    ghost bracketing = { λ o. and_bracketing };

    ghost order = { λ o. and_comm };

    fn join(&self, x: u32, y: u32) -> u32 {
        x & y
    }
}

impl Operator for Or {
    ghost joined = { λ _ x y. bit_or x y };

    ghost bracketing = { λ o. or_bracketing };

    ghost order = { λ o. or_comm };

    fn join(&self, x: u32, y: u32) -> u32 {
        x | y
    }
}

impl Operator for Max {
    ghost joined = { λ _ x y. max x y };

    ghost bracketing = { Prim.search rules };

    ghost order = { Prim.search rules };

    fn join(&self, x: u32, y: u32) -> u32 {
        x.max(y)
    }
}

impl Operator for Add {
    ghost joined = { λ _ x y. add_words x y };

    ghost bracketing = { Prim.search rules };

    ghost order = { Prim.search rules };

    fn join(&self, x: u32, y: u32) -> u32 {
        x.wrapping_add(y)
    }
}
