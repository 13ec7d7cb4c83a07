ghost use Rattle.dispatch.specs.Carried.{AsksMemory};

use answers::reply::Reply;
use commands::memories::MemoryCommand;
use memory::interface::HallMemory;

// Carries out a command on a memory.
pub fn carry_out<M: HallMemory>(memory: &mut M, command: MemoryCommand) -> Reply
    ensures { AsksMemory command result (M.HallMemory.view memory.old) (M.HallMemory.view memory.new) }
{
    match command {
        MemoryCommand::Send(request) => memory
            .send(request)
            .map_or_else(Reply::refused, |()| Reply::Sent),
        MemoryCommand::Take => memory.take().into(),
        MemoryCommand::Waiting => Reply::Waiting(memory.waiting()),
    }
}
