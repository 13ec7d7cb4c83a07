// Carries out commands and writes their answers. No contract can say what is written, so this layer does no more.
ghost use Rattle.std.specs.Prelude.{◌≡◌, Err, ◌≢◌};
ghost use Rattle.commands.specs.declared.trouble.Trouble.TheVariants.{BadLine};
ghost use Rattle.runs.specs.Asked.{call_of};
ghost use Rattle.session.specs.Performed.{Repeats, times_of, Performs, Spares};
ghost use Rattle.pile.specs.Piles.{pile_hall};

use answers::reply::Reply;
use commands::command::Command;
use commands::movers::MoverCommand;
use commands::trouble::Trouble;
use dispatch::hall::Hall;
use dispatch::movers::call_of;
use memory::interface::HallMemory;
use pile::piles::Pile;
use runs::call::Call;
use std::io::Write;

// Writes a reply as a line. Where that fails, the line of the script was not bad.
pub fn write_reply<W: Write>(reply: Reply, out: &mut W) -> Result<(), Trouble>
    ensures { result ≢ Err BadLine }
{
    writeln!(out, "{reply}").map_err(Trouble::Stopped)
}

// How many calls a command makes.
pub fn times(command: &MoverCommand) -> u32
    ensures { result ≡ times_of command.now }
{
    match *command {
        MoverCommand::Turn(count) => count,
        _ => 1,
    }
}

// Makes a call so many times, and writes each reply before the next call.
pub fn repeat<M: HallMemory + Drop, W: Write>(
    hall: &mut Hall<M>,
    call: Call<'_>,
    count: u32,
    out: &mut W,
) -> Result<(), Trouble>
    ensures { Repeats M.HallMemory (call_of call.entry) count result hall.old hall.new }
{
    for done in 0..count {
        let reply = hall.call(call)?;
        write_reply(reply, out)?;
    }
    Ok(())
}

// Carries out a command and writes its answers. A bad line changes nothing.
pub fn perform<W: Write>(
    hall: &mut Hall<Pile>,
    command: Command,
    out: &mut W,
) -> Result<(), Trouble>
    ensures performs { Performs pile_hall command result hall.old hall.new }
    ensures spares { Spares result hall.old hall.new }
{
    match command {
        Command::Mover(command) => repeat(hall, call_of(&command), times(&command), out),
        other => write_reply(hall.carry_out(other)?, out),
    }
}
