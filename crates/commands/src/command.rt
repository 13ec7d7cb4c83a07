ghost use Rattle.commands.specs.Troubles.{Spells};
ghost use Rattle.commands.specs.Commands.{meaning, other_named, command_named, spelled};

use crate::memories::MemoryCommand;
use crate::movers::MoverCommand;
use crate::piles::read_pile;
use crate::programs::ProgramCommand;
use crate::trouble::Trouble;
use pile::plan::PilePlan;
use reading::fields::Fields;
use std::alloc::Global;

// What a line asks for. Each group of commands is a module of its own.
#[derive(Drop)]
pub enum Command {
    Programs(ProgramCommand),
    MakeMemory(PilePlan),
    Memory(MemoryCommand),
    MakeMover,
    Mover(MoverCommand),
}

impl Command {
    // The command of this name other than memory, with its arguments from the fields.
    fn read_other(heap: Global, name: &[u8], fields: &mut Fields) -> Result<Command, Trouble>
        ensures { Spells (λ x. (meaning x, fields.new.rest.now)) (other_named name.now fields.old.rest.now) result }
    {
        if let Some(command) = ProgramCommand::read(name, fields) {
            return Ok(Command::Programs(command.ok_or(Trouble::BadLine)?));
        }
        if let Some(command) = MemoryCommand::read(name, fields) {
            return Ok(Command::Memory(command.ok_or(Trouble::BadLine)?));
        }
        match name {
            b"mover" => Ok(Command::MakeMover),
            _ => Ok(Command::Mover(MoverCommand::read(heap, name, fields)?)),
        }
    }

    // The command of this name, with its arguments from the text, and the text behind them.
    fn read_named<'a>(
        heap: Global,
        name: &[u8],
        text: &'a [u8],
    ) -> Result<(Command, &'a [u8]), Trouble>
        ensures { Spells (λ x. (meaning x.0, x.1.now)) (command_named name.now text.now) result }
    {
        if let b"memory" = name {
            let (plan, rest) = read_pile(heap, text)?;
            return Ok((Command::MakeMemory(plan), rest));
        }
        let mut fields = Fields::new(text);
        let command = Command::read_other(heap, name, &mut fields)?;
        Ok((command, fields.rest()))
    }

    // The command that a line spells.
    pub fn read(heap: Global, line: &[u8]) -> Result<Command, Trouble>
        ensures { Spells meaning (spelled line.now) result }
    {
        let mut fields = Fields::new(line);
        let name = fields.next().ok_or(Trouble::BadLine)?;
        let (command, rest) = Command::read_named(heap, name, fields.rest())?;
        if Fields::new(rest).at_end() {
            Ok(command)
        } else {
            Err(Trouble::BadLine)
        }
    }
}
