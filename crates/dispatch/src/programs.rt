ghost use Rattle.std.specs.Prelude.{◌≡◌};
ghost use Rattle.dispatch.specs.Carried.{alone_reply};

use answers::reply::Reply;
use commands::programs::ProgramCommand;
use operators::operator::Operator;
use program::kind::Program;

// Carries out a command that needs no memory.
pub fn carry_out(command: ProgramCommand) -> Reply
    ensures { result ≡ alone_reply command }
{
    match command {
        ProgramCommand::Program(words) => {
            Program::read(words).map_or_else(Reply::refused, Reply::Program)
        }
        ProgramCommand::Pieces(words) => {
            Program::read(words).map_or_else(Reply::refused, Reply::Pieces)
        }
        ProgramCommand::Join(choice, x, y) => Reply::Word(choice.join(x, y)),
    }
}
