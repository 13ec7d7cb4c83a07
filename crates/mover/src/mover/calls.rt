ghost use Rattle.std.specs.Prelude.{◌≡◌, ℕ, Ok};
ghost use Rattle.machine.specs.Steps.{done_or, given_or, word_or};
ghost use Rattle.machine.specs.Steps as call;
ghost use Rattle.machine.specs.declared.answer.Answer.TheVariants as answer;
ghost use Rattle.mover.specs.Meaning.{Moves, MoverSound};
ghost use Rattle.machine.specs.Told.{PutTold, FillTold, ReserveTold, ReleaseTold, StatusTold};

use crate::mover::Mover;
use crate::mover::turning::{land, serve_next};
use channels::calls;
use machine::answer::Turned;
use machine::fault::ChannelFault;
use memory::interface::HallMemory;
use numbers::channel::Channel;
use program::layout::Words;

// The eleven calls. Each says by Moves: its answer and the whole state after are the defined ones, and the law holds of every
// run that goes on with it. A refusal alters nothing. The clauses told say it by what look and status tell before and after.
impl<M: HallMemory> Mover<M> {
    // Gives the lowest free channel, with an empty window and a clear record.
    pub fn reserve(&mut self) -> Result<Channel, ChannelFault>
        ensures keeps { Moves M.HallMemory call.reserve (given_or result) self.old self.new }
        ensures told { ReserveTold result self.old.state self.new.state }
    {
        calls::reserve(&mut self.state)
    }

    // Frees a channel and clears its record; its window stays.
    pub fn release(&mut self, channel: u32) -> Result<(), ChannelFault>
        ensures keeps { Moves M.HallMemory (call.release channel) (done_or result) self.old self.new }
        ensures told { ReleaseTold channel result self.old.state self.new.state }
    {
        calls::release(&mut self.state, channel)
    }

    // Writes one place.
    pub fn put(&mut self, channel: u32, place: u32, word: u32) -> Result<(), ChannelFault>
        ensures keeps { Moves M.HallMemory (call.put channel place word) (done_or result) self.old self.new }
        ensures told { PutTold channel place word result self.old.state self.new.state }
    {
        calls::put(&mut self.state, channel, place, word)
    }

    // Puts the words of a sheet into its places.
    pub fn fill(&mut self, channel: u32, bytes: &[u8]) -> Result<(), ChannelFault>
        ensures keeps { Moves M.HallMemory (call.fill channel bytes.now) (done_or result) self.old self.new }
        ensures told { FillTold channel bytes.now result self.old.state self.new.state }
    {
        calls::fill(&mut self.state, channel, bytes)
    }

    // Reads a program and sets the channel running.
    pub fn start(&mut self, channel: u32, words: Words) -> Result<(), ChannelFault>
        ensures { Moves M.HallMemory (call.start channel words) (done_or result) self.old self.new }
    {
        calls::start(&mut self.state, channel, words)
    }

    // Marks a running channel; a second stop adds nothing.
    pub fn stop(&mut self, channel: u32) -> Result<(), ChannelFault>
        ensures { Moves M.HallMemory (call.stop channel) (done_or result) self.old self.new }
    {
        calls::stop(&mut self.state, channel)
    }

    // Sets the quiet mark.
    pub fn quiet(&mut self)
        ensures { Moves M.HallMemory call.quiet answer.Done self.old self.new }
    {
        self.state.quiet = true;
    }

    // Clears the quiet mark.
    pub fn wake(&mut self)
        ensures { Moves M.HallMemory call.wake answer.Done self.old self.new }
    {
        self.state.quiet = false;
    }

    // Tells one place.
    pub fn look(&self, channel: u32, place: u32) -> Result<u32, ChannelFault>
        ensures { Moves M.HallMemory (call.look channel place) (word_or result) self.now self.now }
    {
        calls::look(&self.state, channel, place)
    }

    // Tells the status word of a channel, reserved or not.
    pub fn status(&self, channel: u32) -> Result<u32, ChannelFault>
        ensures keeps { Moves M.HallMemory (call.status channel) (word_or result) self.now self.now }
        ensures sound { MoverSound M.HallMemory self.now.memory self.now.state }
        ensures told { (w : ℕ) → result ≡ Ok w → StatusTold self.now.state channel w }
    {
        calls::status(&self.state, channel)
    }

    // Landing, and then service.
    pub fn turn(&mut self) -> Turned
        ensures { Moves M.HallMemory call.turn (answer.Turned result) self.old self.new }
    {
        let landing = land(&mut self.memory, &mut self.state);
        let service = serve_next(&mut self.memory, &mut self.state);
        Turned { landing, service }
    }
}
