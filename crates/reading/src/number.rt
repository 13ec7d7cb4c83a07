ghost use Rattle.std.specs.Prelude.{◌≡◌};
ghost use Rattle.reading.specs.Decimal.{with_digit, number_of};

// A value with a digit behind it, or none where the byte is no digit or the value is no longer below 2^32.
fn with_digit(value: u32, byte: u8) -> Option<u32>
    ensures { result ≡ with_digit value byte }
{
    let digit = char::from(byte).to_digit(10)?;
    value.checked_mul(10)?.checked_add(digit)
}

// The number that a field spells in decimal digits, or none where it spells no number below 2^32.
#[tactic(auto, using(crate::proofs::Values::digit_next, crate::proofs::Values::no_more, crate::proofs::Values::number_some))]
pub fn number(field: &[u8]) -> Option<u32>
    ensures { result ≡ number_of field.now }
{
    if field.is_empty() {
        return None;
    }
    // A loop: it was tried with try_fold, and the proof did not close.
    let mut value = 0;
    for byte in field {
        value = with_digit(value, *byte)?;
    }
    Some(value)
}
