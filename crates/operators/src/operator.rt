ghost use Rattle.std.specs.Prelude.{◌≡◌, ℕ};

// A way to join two words into one, such that neither the order nor the bracketing of what is joined matters.
pub trait Operator {
    // The word that two words join to. The laws hold of all numbers, so of all words.
    ghost joined: { Self → ℕ → ℕ → ℕ };

    fn join(&self, x: u32, y: u32) -> u32
        ensures { result ≡ joined self.now x y };

    // Three words join alike in either bracketing.
    ghost bracketing: { (o : Self) (x y z : ℕ) → joined o (joined o x y) z ≡ joined o x (joined o y z) };

    // Two words join alike in either order.
    ghost order: { (o : Self) (x y : ℕ) → joined o x y ≡ joined o y x };
}
