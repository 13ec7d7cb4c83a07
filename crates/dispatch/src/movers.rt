ghost use Rattle.std.specs.Prelude.{◌≡◌};
ghost use Rattle.runs.specs.Asked.{call_of};
ghost use Rattle.dispatch.specs.Carried.{asked_by, Called};

use answers::reply::Reply;
use commands::movers::MoverCommand;
use memory::interface::HallMemory;
use mover::mover::Mover;
use runs::call::Call;
use runs::run;

// The call that a command makes. A command may make it several times. Neither type is of this crate, so this is no From.
pub fn call_of(command: &MoverCommand) -> Call<'_>
    ensures { call_of result ≡ asked_by command.now }
{
    match command {
        MoverCommand::Reserve => Call::Reserve,
        MoverCommand::Release(channel) => Call::Release(*channel),
        MoverCommand::Put(channel, place, word) => Call::Put(*channel, *place, *word),
        MoverCommand::Fill(channel, bytes) => Call::Fill(*channel, bytes.as_slice()),
        MoverCommand::Start(channel, words) => Call::Start(*channel, *words),
        MoverCommand::Stop(channel) => Call::Stop(*channel),
        MoverCommand::Quiet => Call::Quiet,
        MoverCommand::Wake => Call::Wake,
        MoverCommand::Look(channel, place) => Call::Look(*channel, *place),
        MoverCommand::Status(channel) => Call::Status(*channel),
        MoverCommand::Turn(_) => Call::Turn,
    }
}

// Carries out one call of a mover.
pub fn carry_out<M: HallMemory>(mover: &mut Mover<M>, call: Call<'_>) -> Reply
    ensures { Called M.HallMemory (call_of call.entry) result mover.old mover.new }
{
    let answer = run::carry_out(mover, call);
    match call {
        Call::Status(_) => Reply::status(answer),
        _ => answer.into(),
    }
}
