ghost use Rattle.std.specs.Prelude.{◌≡◌, ◌≤◌, not, length, is_some};
ghost use Rattle.std.specs.List.{prefix_len};
ghost use Rattle.std.specs.Option.{option_map};
ghost use Rattle.reading.specs.Decimal.{first_number};
ghost use Rattle.reading.specs.Fields.{is_space, after_spaces, first_field, after_field, passed_over, GivesField};

use crate::number::number;

const SPACE: u8 = b' ';

// What is left of a line, to be cut into fields at its spaces.
#[derive(Drop)]
pub struct Fields<'a> {
    rest: &'a [u8],
}

// How many spaces stand in front.
fn spaces_len(bytes: &[u8]) -> usize
    ensures len { result ≡ prefix_len is_space bytes.now }
    ensures within { result ≤ length bytes.now }
{
    bytes.iter().take_while(|byte| **byte == SPACE).count()
}

// How many bytes stand before the first space.
fn field_len(bytes: &[u8]) -> usize
    ensures len { result ≡ prefix_len (λ b. not (is_space b)) bytes.now }
    ensures within { result ≤ length bytes.now }
{
    bytes.iter().take_while(|byte| **byte != SPACE).count()
}

// The bytes from the first that is no space.
fn after_spaces(bytes: &[u8]) -> &[u8]
    ensures bytes { result.now ≡ after_spaces bytes.now }
    ensures within { length result.now ≤ length bytes.now }
{
    &bytes[spaces_len(bytes)..]
}

// Whether a line is passed over: it has only spaces, or its first mark is #.
pub fn passed_over(line: &[u8]) -> bool
    ensures { result ≡ passed_over line.now }
{
    matches!(after_spaces(line), [] | [b'#', ..])
}

impl<'a> Fields<'a> {
    pub fn new(line: &'a [u8]) -> Fields<'a>
        ensures { result.rest.now ≡ line.now }
    {
        Fields { rest: line }
    }

    // The next field as a number.
    pub fn number(&mut self) -> Option<u32>
        ensures value { result ≡ first_number self.old.rest.now }
        ensures rest { self.new.rest.now ≡ after_field self.old.rest.now }
    {
        number(self.next()?)
    }

    // The bytes that are left.
    pub fn rest(&self) -> &'a [u8]
        ensures { result.now ≡ self.now.rest.now }
    {
        self.rest
    }

    // Whether no field is left.
    pub fn at_end(&mut self) -> bool
        ensures { result ≡ not (is_some (first_field self.old.rest.now)) }
    {
        self.next().is_none()
    }
}

// The fields that are left, in order.
impl<'a> Iterator for Fields<'a> {
    ghost use Rattle.std.specs.Iterator.{at_most};

    type Item = &'a [u8];

    ghost next_gives = { λ before field after. GivesField before.rest.now (option_map (λ x. x.now) field) after.rest.now };

    ghost remaining = { λ fields. at_most (length fields.rest.now) };

    // The next field, or none where only spaces are left.
    #[tactic(auto, using(crate::proofs::Spaces::before_first_space, crate::proofs::Spaces::from_first_space))]
    fn next(&mut self) -> Option<&'a [u8]> {
        let bytes = after_spaces(self.rest);
        let (field, rest) = bytes.split_at(field_len(bytes));
        self.rest = rest;
        if field.is_empty() { None } else { Some(field) }
    }
}
