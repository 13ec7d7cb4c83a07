ghost use Rattle.std.specs.Prelude.{◌≡◌};
ghost use Rattle.reading.specs.Names.{Names, operator_name};

use operators::choice::Choice;

// The operator of this name, or none. The type is of another crate, which has no texts, so this is no TryFrom.
pub fn operator(name: &[u8]) -> Option<Choice>
    ensures { Names name.now result }
{
    match name {
        b"and" => Some(Choice::And),
        b"or" => Some(Choice::Or),
        b"max" => Some(Choice::Max),
        b"add" => Some(Choice::Add),
        _ => None,
    }
}

// A text that stands by itself, where Display would need a writer.
pub fn name(operator: Choice) -> &'static str
    ensures { result.now ≡ operator_name operator }
{
    match operator {
        Choice::And => "and",
        Choice::Or => "or",
        Choice::Max => "max",
        Choice::Add => "add",
    }
}
