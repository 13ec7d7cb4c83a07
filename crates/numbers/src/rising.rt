ghost use Rattle.std.specs.Prelude.{◌≡◌, ℕ, ◌<◌, length, IfSome};
ghost use Rattle.numbers.specs.Rising.{above, not_rising};

// What is ordered by a number.
pub trait Keyed {
    // The number that orders it.
    ghost rank: { Self → ℕ };

    fn key(&self) -> u32
        ensures { result ≡ rank self.now };
}

impl Keyed for u8 {
    ghost rank = { λ byte. byte };

    fn key(&self) -> u32 {
        u32::from(*self)
    }
}

// The first index, from 0, whose key is not above the one before, or none where the keys rise strictly.
pub fn first_not_rising<T: Keyed>(items: &[T]) -> Option<usize>
    ensures value { result ≡ not_rising T.Keyed.rank items.now }
    ensures within { IfSome result (λ i. i < length items.now) }
{
    let mut before = None;
    for (i, item) in items.iter().enumerate() {
        let key = item.key();
        if before.is_some_and(|before| key <= before) {
            return Some(i);
        }
        before = Some(key);
    }
    None
}
