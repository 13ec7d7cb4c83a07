ghost use Rattle.std.specs.Prelude.{codes};
ghost use Rattle.commands.specs.Readers.{Reads, Finds, named};
ghost use Rattle.commands.specs.Commands.{programs};

use crate::choices::read_operator;
use crate::words::read_words;
use operators::choice::Choice;
use program::layout::Words;
use reading::fields::Fields;

// The commands that need no memory.
#[derive(Clone, Copy)]
pub enum ProgramCommand {
    Program(Words),
    Pieces(Words),
    Join(Choice, u32, u32),
}

fn read_join(fields: &mut Fields) -> Option<ProgramCommand>
    ensures { Reads (named programs (codes "join") fields.old.rest.now) result fields.new.rest.now }
{
    let choice = read_operator(fields)?;
    Some(ProgramCommand::Join(choice, fields.number()?, fields.number()?))
}

impl ProgramCommand {
    // What the fields spell as the arguments of this name, or none where no such command has the name.
    pub fn read(name: &[u8], fields: &mut Fields) -> Option<Option<ProgramCommand>>
        ensures { Finds programs name.now fields.old.rest.now result fields.new.rest.now }
    {
        Some(match name {
            b"program" => read_words(fields).map(ProgramCommand::Program),
            b"pieces" => read_words(fields).map(ProgramCommand::Pieces),
            b"join" => read_join(fields),
            _ => return None,
        })
    }
}
