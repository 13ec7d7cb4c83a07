ghost use Rattle.commands.specs.Readers.{Reads};
ghost use Rattle.commands.specs.Arguments.{words};

use program::layout::Words;
use reading::fields::Fields;

// The three words of a program.
pub fn read_words(fields: &mut Fields) -> Option<Words>
    ensures { Reads (words fields.old.rest.now) result fields.new.rest.now }
{
    Some(Words {
        first: fields.number()?,
        second: fields.number()?,
        third: fields.number()?,
    })
}
