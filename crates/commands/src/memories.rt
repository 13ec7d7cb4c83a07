ghost use Rattle.commands.specs.Readers.{Finds};
ghost use Rattle.commands.specs.Commands.{memories};

use crate::requests::read_request;
use memory::request::Request;
use reading::fields::Fields;

// The commands on a memory.
#[derive(Clone, Copy)]
pub enum MemoryCommand {
    Send(Request),
    Take,
    Waiting,
}

impl MemoryCommand {
    // What the fields spell as the arguments of this name, or none where no such command has the name.
    pub fn read(name: &[u8], fields: &mut Fields) -> Option<Option<MemoryCommand>>
        ensures { Finds memories name.now fields.old.rest.now result fields.new.rest.now }
    {
        Some(match name {
            b"send" => read_request(fields).map(MemoryCommand::Send),
            b"take" => Some(MemoryCommand::Take),
            b"waiting" => Some(MemoryCommand::Waiting),
            _ => return None,
        })
    }
}
