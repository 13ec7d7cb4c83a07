ghost use Rattle.std.specs.Prelude.{drop, ◌≡◌, min, length, MatchResult};
ghost use Rattle.mover.specs.Meaning.{Moves, MoverSound};
ghost use Rattle.runs.specs.Asked.{call_of, GoesOn};
ghost use Rattle.runs.specs.Whole.{RanWhole, GaveBack};

use crate::call::Call;
use machine::answer::Answer;
use machine::fault::ChannelFault;
use memory::fault::MemoryFault;
use memory::interface::HallMemory;
use mover::mover::Mover;
use numbers::channel::Channel;

// Carries out one call, whichever it is.
pub fn carry_out<M: HallMemory>(mover: &mut Mover<M>, call: Call<'_>) -> Answer
    ensures { Moves M.HallMemory (call_of call.entry) result mover.old mover.new }
{
    match call {
        Call::Reserve => mover.reserve().map_or_else(Answer::Refused, Answer::Given),
        Call::Release(channel) => mover
            .release(channel)
            .map_or_else(Answer::Refused, |()| Answer::Done),
        Call::Put(channel, place, word) => mover
            .put(channel, place, word)
            .map_or_else(Answer::Refused, |()| Answer::Done),
        Call::Fill(channel, bytes) => mover
            .fill(channel, bytes)
            .map_or_else(Answer::Refused, |()| Answer::Done),
        Call::Start(channel, words) => mover
            .start(channel, words)
            .map_or_else(Answer::Refused, |()| Answer::Done),
        Call::Stop(channel) => mover
            .stop(channel)
            .map_or_else(Answer::Refused, |()| Answer::Done),
        Call::Quiet => {
            mover.quiet();
            Answer::Done
        }
        Call::Wake => {
            mover.wake();
            Answer::Done
        }
        Call::Look(channel, place) => mover
            .look(channel, place)
            .map_or_else(Answer::Refused, Answer::Word),
        Call::Status(channel) => mover
            .status(channel)
            .map_or_else(Answer::Refused, Answer::Word),
        Call::Turn => Answer::Turned(mover.turn()),
    }
}

// Carries out as many of the calls as there are places for their answers, in order. The places are the caller's, so that no call
// fails for want of memory. They are found by the index of the call, as the clause counts both from the first.
pub fn carry_all<M: HallMemory>(mover: &mut Mover<M>, calls: &[Call<'_>], answers: &mut [Answer])
    ensures sound { MoverSound M.HallMemory mover.old.memory mover.old.state → MoverSound M.HallMemory mover.new.memory mover.new.state }
    ensures ran { GoesOn calls.now answers.new (min (length calls.now) (length answers.old)) mover.old.state (M.HallMemory.view mover.old.memory) mover.new.state (M.HallMemory.view mover.new.memory) }
    ensures rest { drop (min (length calls.now) (length answers.old)) answers.new ≡ drop (min (length calls.now) (length answers.old)) answers.old }
{
    let count = calls.len().min(answers.len());
    for (i, call) in calls[..count].iter().enumerate() {
        answers[i] = carry_out(mover, *call);
    }
}

// A memory that was refused, given back to its owner, and why.
pub struct Returned<M> {
    pub memory: M,
    pub fault: MemoryFault,
}

// A whole run: makes a new mover over the memory and carries out as many of the calls as there are places for their answers.
// A memory with replies in transit is refused and given back, and no answer is written.
pub fn run<M: HallMemory>(
    memory: M,
    calls: &[Call<'_>],
    answers: &mut [Answer],
) -> Result<Mover<M>, Returned<M>>
    ensures { MatchResult result (RanWhole M.HallMemory memory calls.now answers.old answers.new) (GaveBack M.HallMemory memory answers.old answers.new) }
{
    match Mover::check(&memory) {
        Err(fault) => Err(Returned { memory, fault }),
        Ok(()) => {
            let mut mover = Mover::new(memory);
            carry_all(&mut mover, calls, answers);
            Ok(mover)
        }
    }
}
