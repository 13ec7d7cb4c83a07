ghost use Rattle.std.specs.Prelude.{◌≡◌};
ghost use Rattle.std.specs.Str.{bytes_eq};
ghost use Rattle.reading.specs.Fields.{first_field, after_field};
ghost use Rattle.commands.specs.Readers.{first_is};

use reading::fields::Fields;

// Whether a field is this name.
pub fn is(field: &[u8], name: &[u8]) -> bool
    ensures { result ≡ bytes_eq field.now name.now }
{
    field == name
}

// Whether the next field, which is taken, is this name.
pub fn next_is(fields: &mut Fields, name: &[u8]) -> bool
    ensures value { result ≡ first_is name.now (first_field fields.old.rest.now) }
    ensures rest { fields.new.rest.now ≡ after_field fields.old.rest.now }
{
    fields.next().is_some_and(|field| is(field, name))
}
