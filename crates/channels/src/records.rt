ghost use Rattle.std.specs.Prelude.{◌≡◌, ◌+◌, ◌-◌, ◌<◌, ◌≤◌, true, not, length, position, IfSome};
ghost use Rattle.machine.specs.Calls.{answered, empty_window, lowest_free, sends_words, first_empty, empty_refused, started};
ghost use Rattle.machine.specs.Means.{cleared};
ghost use Rattle.channels.specs.Checks.{to_channel};
ghost use Rattle.std.specs.Option.{option_map, is_none};

use machine::fault::ChannelFault;
use machine::record::{Counts, Flags, Record, Stored};
use numbers::channel::Channel;
use operators::mode::Mode;

// A clear record with this window: nothing runs, nothing was sent.
pub fn clear_record(reserved: bool, window: [Option<u32>; 256]) -> Record
    ensures { result ≡ cleared reserved window }
{
    Record {
        flags: Flags {
            reserved,
            ..Flags::default()
        },
        counts: Counts::default(),
        program: Stored {
            single: false,
            mode: Mode::Load,
            first: 0,
            last: 0,
            cell: 0,
            word: 0,
        },
        window,
    }
}

// A clear record with an empty window.
pub fn empty_record(reserved: bool) -> Record
    ensures { result ≡ cleared reserved empty_window }
{
    clear_record(reserved, [None; 256])
}

// A record that begins to run a program; the window stays.
pub fn started_record(program: Stored, window: [Option<u32>; 256]) -> Record
    ensures { result ≡ started program window }
{
    let clear = clear_record(true, window);
    Record {
        flags: Flags {
            running: true,
            ..clear.flags
        },
        program,
        ..clear
    }
}

// The index of the first record that is not reserved.
fn first_free(records: &[Record]) -> Option<usize>
    ensures { result ≡ position (λ r. not r.flags.reserved) records.now }
{
    records.iter().position(|record| !record.flags.reserved)
}

// The lowest channel that is not reserved.
pub fn lowest_free(channels: &[Record; 16]) -> Option<Channel>
    ensures value { result ≡ option_map to_channel (lowest_free channels.now) }
    ensures within { IfSome result (λ c. c.0 < 16) }
{
    let free = first_free(channels)?;
    Some(Channel(free as u8))
}

// Whether the program sends the words of its places: all blocks but LOAD do.
fn sends_words(program: &Stored) -> bool
    ensures { result ≡ sends_words program.now }
{
    !program.single && program.mode != Mode::Load
}

// The index of the first of some places that is empty.
fn first_none(places: &[Option<u32>]) -> Option<usize>
    ensures { result ≡ position (λ place. is_none place) places.now }
{
    places.iter().position(|place| place.is_none())
}

// The first of some places that is empty.
fn first_empty(window: &[Option<u32>; 256], first: u8, last: u8) -> Option<u32>
    ensures { result ≡ first_empty (last + 1 - first) first window.now }
{
    let places = window.get(first as usize..last as usize + 1)?;
    let empty = first_none(places)?;
    Some(u32::from(first) + empty as u32)
}

// Check 25 of start: no place whose word the program sends is empty.
pub fn filled(program: &Stored, window: &[Option<u32>; 256]) -> Result<(), ChannelFault>
    ensures { result ≡ answered (empty_refused program.now window.now) tt }
{
    if !sends_words(program) {
        return Ok(());
    }
    first_empty(window, program.first, program.last).map_or(
        Ok(()),
        |place| Err(ChannelFault::Empty(place)),
    )
}
