ghost use Rattle.commands.specs.Readers.{Reads};
ghost use Rattle.commands.specs.Arguments as arguments;

use operators::choice::Choice;
use reading::fields::Fields;
use reading::operator_name::operator;

#[tactic(auto, using(crate::proofs::Named::operator_read))]
pub fn read_operator(fields: &mut Fields) -> Option<Choice>
    ensures { Reads (arguments.operator fields.old.rest.now) result fields.new.rest.now }
{
    operator(fields.next()?)
}
