ghost use Rattle.std.specs.Prelude.{◌≡◌, ◌<◌, ◌≤◌, true, false, length, OnErr, OnOk};
ghost use Rattle.machine.specs.Calls.{answered, unless_refused, put_refused, put_state, look_answer, stop_refused, stop_state, release_refused, release_state, fill_refused, fill_state, reserve_answer, reserve_state, start_refused, start_state, start_checks, start_program, join_line, status_answer};
ghost use Rattle.machine.specs.Means.{mean_of, record_of};
ghost use Rattle.channels.specs.Lines.{JoinsOne, SameLines};
ghost use Rattle.channels.specs.Standing.{Standing};

use crate::checks::{reserved, resting, running};
use crate::records::{clear_record, empty_record, filled, lowest_free, started_record};
use crate::status::status_word;
use machine::fault::ChannelFault;
use machine::record::Stored;
use machine::state::State;
use numbers::channel::Channel;
use numbers::place::Place;
use program::kind::Program;
use program::layout::Words;
use sheet::layout::Sheet;

// Tells one place.
pub fn look(state: &State, channel: u32, place: u32) -> Result<u32, ChannelFault>
    ensures { result ≡ look_answer (mean_of state.now) channel place }
{
    let channel = Channel::try_from(channel)?;
    let Place(place) = Place::try_from(place)?;
    let record = &state.records[channel.0 as usize];
    reserved(record)?;
    record.window[place as usize].ok_or(ChannelFault::Empty(u32::from(place)))
}

// Writes one place.
pub fn put(state: &mut State, channel: u32, place: u32, word: u32) -> Result<(), ChannelFault>
    ensures answer { result ≡ answered (put_refused (mean_of state.old) channel place) tt }
    ensures after { mean_of state.new ≡ unless_refused (put_refused (mean_of state.old) channel place) (mean_of state.old) (put_state (mean_of state.old) channel place word) }
    ensures kept { OnErr result (state.new ≡ state.old) }
    ensures lines { SameLines state.old state.new }
{
    let channel = Channel::try_from(channel)?;
    let place = Place::try_from(place)?;
    resting(&state.records[channel.0 as usize])?;
    state.records[channel.0 as usize].window[place.0 as usize] = Some(word);
    Ok(())
}

// Marks a running channel; a second stop adds nothing.
pub fn stop(state: &mut State, channel: u32) -> Result<(), ChannelFault>
    ensures answer { result ≡ answered (stop_refused (mean_of state.old) channel) tt }
    ensures after { mean_of state.new ≡ unless_refused (stop_refused (mean_of state.old) channel) (mean_of state.old) (stop_state (mean_of state.old) channel) }
    ensures kept { OnErr result (state.new ≡ state.old) }
    ensures lines { SameLines state.old state.new }
{
    let channel = Channel::try_from(channel)?;
    running(&state.records[channel.0 as usize])?;
    state.records[channel.0 as usize].flags.stop = true;
    Ok(())
}

// Frees a channel and clears its record; its window stays.
pub fn release(state: &mut State, channel: u32) -> Result<(), ChannelFault>
    ensures answer { result ≡ answered (release_refused (mean_of state.old) channel) tt }
    ensures after { mean_of state.new ≡ unless_refused (release_refused (mean_of state.old) channel) (mean_of state.old) (release_state (mean_of state.old) channel) }
    ensures kept { OnErr result (state.new ≡ state.old) }
    ensures lines { SameLines state.old state.new }
{
    let channel = Channel::try_from(channel)?;
    resting(&state.records[channel.0 as usize])?;
    let record = &mut state.records[channel.0 as usize];
    *record = clear_record(false, record.window);
    Ok(())
}

// Puts the words of a sheet into its places.
pub fn fill(state: &mut State, channel: u32, bytes: &[u8]) -> Result<(), ChannelFault>
    ensures answer { result ≡ answered (fill_refused (mean_of state.old) channel bytes.now) tt }
    ensures after { mean_of state.new ≡ unless_refused (fill_refused (mean_of state.old) channel bytes.now) (mean_of state.old) (fill_state (mean_of state.old) channel bytes.now) }
    ensures kept { OnErr result (state.new ≡ state.old) }
    ensures lines { SameLines state.old state.new }
{
    let channel = Channel::try_from(channel)?;
    let sheet = Sheet::read(bytes)?;
    resting(&state.records[channel.0 as usize])?;
    sheet.fill(&mut state.records[channel.0 as usize].window);
    Ok(())
}

// Gives the lowest free channel, with an empty window and a clear record.
pub fn reserve(state: &mut State) -> Result<Channel, ChannelFault>
    ensures answer { result ≡ reserve_answer (mean_of state.old) }
    ensures after { mean_of state.new ≡ reserve_state (mean_of state.old) }
    ensures kept { OnErr result (state.new ≡ state.old) }
    ensures lines { SameLines state.old state.new }
{
    let channel = lowest_free(&state.records).ok_or(ChannelFault::NoneFree)?;
    state.records[channel.0 as usize] = empty_record(true);
    Ok(channel)
}

// Tells the status word of a channel, reserved or not.
pub fn status(state: &State, channel: u32) -> Result<u32, ChannelFault>
    requires { Standing (mean_of state.now) }
    ensures { result ≡ status_answer (mean_of state.now) channel }
{
    let channel = Channel::try_from(channel)?;
    let free = lowest_free(&state.records);
    let record = &state.records[channel.0 as usize];
    Ok(status_word(record.flags, record.counts, free, state.quiet))
}

// Puts a channel at the end of the line of its kind.
fn join_line(state: &mut State, single: bool, channel: Channel)
    requires singles { length (mean_of state.old).singles < 16 }
    requires blocks { length (mean_of state.old).blocks < 16 }
    ensures joins { mean_of state.new ≡ join_line single channel.0 (mean_of state.old) }
    ensures lines { JoinsOne single state.old state.new }
{
    let _ = if single {
        state.singles.push(channel)
    } else {
        state.blocks.push(channel)
    };
}

// Checks 22 to 25 of start.
fn startable(state: &State, channel: Channel, program: &Stored) -> Result<(), ChannelFault>
    requires { channel.0 < 16 }
    ensures { result ≡ answered (start_checks (mean_of state.now) channel.0 program.now) tt }
{
    let record = &state.records[channel.0 as usize];
    resting(record)?;
    if state.quiet {
        return Err(ChannelFault::Quiet);
    }
    filled(program, &record.window)
}

// Sets a resting channel running, at the end of its line.
fn begin(state: &mut State, channel: Channel, program: Stored)
    requires standing { Standing (mean_of state.old) }
    requires low { channel.0 < 16 }
    requires rests { (record_of (mean_of state.old) channel.0).flags.running ≡ false }
    ensures starts { mean_of state.new ≡ start_program (mean_of state.old) channel.0 program }
    ensures lines { JoinsOne program.single state.old state.new }
{
    let record = &mut state.records[channel.0 as usize];
    *record = started_record(program, record.window);
    join_line(state, program.single, channel);
}

// Reads a program and sets the channel running.
pub fn start(state: &mut State, channel: u32, words: Words) -> Result<(), ChannelFault>
    requires { Standing (mean_of state.old) }
    ensures answer { result ≡ answered (start_refused (mean_of state.old) channel words) tt }
    ensures after { mean_of state.new ≡ unless_refused (start_refused (mean_of state.old) channel words) (mean_of state.old) (start_state (mean_of state.old) channel words) }
    ensures kept { OnErr result (state.new ≡ state.old) }
    ensures lines { OnOk result (JoinsOne (record_of (mean_of state.new) channel).program.single state.old state.new) }
{
    let channel = Channel::try_from(channel)?;
    let program = Stored::from(Program::read(words)?);
    startable(state, channel, &program)?;
    begin(state, channel, program);
    Ok(())
}
