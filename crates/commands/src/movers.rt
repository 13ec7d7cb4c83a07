// The calls of a mover, as lines spell them.
ghost use Rattle.std.specs.Prelude.{◌≡◌, ◌<◌, IfSome, vec_items};
ghost use Rattle.commands.specs.Troubles.{Spells};
ghost use Rattle.commands.specs.Readers.{Reads, ReadsAs, named};
ghost use Rattle.commands.specs.Calls.{call_of, hex_digit, hex_byte, hex_bytes, fill_bytes, turns, fill, calls, call_named};

use crate::names::is;
use crate::trouble::Trouble;
use crate::words::read_words;
use program::layout::Words;
use reading::fields::Fields;
use reading::number::number;
use std::alloc::Global;

// The numbers are as the line has them: whether a channel or a place is good is for the library to say. It owns its bytes and
// counts turns, so it is no call of a run.
#[derive(Drop)]
pub enum MoverCommand {
    Reserve,
    Release(u32),
    Put(u32, u32, u32),
    Fill(u32, Vec<u8>),
    Start(u32, Words),
    Stop(u32),
    Quiet,
    Wake,
    Look(u32, u32),
    Status(u32),
    // so many times, at least once
    Turn(u32),
}

// The value of a hexadecimal digit, or none at any other byte.
fn hexadecimal(byte: u8) -> Option<u8>
    ensures value { result ≡ hex_digit byte }
    ensures small { IfSome result (λ d. d < 16) }
{
    // No char::to_digit(16), which takes A to F too.
    match byte {
        b'0'..=b'9' => Some(byte - b'0'),
        b'a'..=b'f' => Some(byte - b'a' + 10),
        _ => None,
    }
}

// The byte of two hexadecimal digits.
fn read_byte(high: u8, low: u8) -> Option<u8>
    ensures { result ≡ hex_byte (hex_digit high) (hex_digit low) }
{
    let high = hexadecimal(high)?;
    let low = hexadecimal(low)?;
    Some(high * 16 + low)
}

// The bytes that digits spell, two digits each.
fn read_digits(heap: Global, digits: &[u8]) -> Result<Vec<u8>, Trouble>
    ensures { Spells vec_items (hex_bytes digits.now) result }
{
    let mut bytes = Vec::new(heap);
    let mut rest = digits;
    while let [high, low, after @ ..] = rest {
        let byte = read_byte(*high, *low).ok_or(Trouble::BadLine)?;
        bytes.push(byte)?;
        rest = after;
    }
    if rest.is_empty() {
        Ok(bytes)
    } else {
        Err(Trouble::BadLine)
    }
}

// The bytes that a field spells.
fn read_bytes(heap: Global, field: &[u8]) -> Result<Vec<u8>, Trouble>
    ensures { Spells vec_items (fill_bytes field.now) result }
{
    match field {
        b"-" => Ok(Vec::new(heap)),
        _ => read_digits(heap, field),
    }
}

// How many turns: once where the line does not say.
fn read_turns(fields: &mut Fields) -> Option<u32>
    ensures { Reads (turns fields.old.rest.now) result fields.new.rest.now }
{
    let count = match fields.next() {
        None => 1,
        Some(field) => number(field)?,
    };
    if count == 0 {
        return None;
    }
    Some(count)
}

// A call other than fill.
fn read_call(name: &[u8], fields: &mut Fields) -> Option<MoverCommand>
    ensures { ReadsAs call_of (named calls name.now fields.old.rest.now) result fields.new.rest.now }
{
    // No match on the name: its last arm would have 42 ways in, and that no name is left there was not proved.
    if is(name, b"reserve") {
        Some(MoverCommand::Reserve)
    } else if is(name, b"release") {
        Some(MoverCommand::Release(fields.number()?))
    } else if is(name, b"put") {
        Some(MoverCommand::Put(fields.number()?, fields.number()?, fields.number()?))
    } else if is(name, b"start") {
        Some(MoverCommand::Start(fields.number()?, read_words(fields)?))
    } else if is(name, b"stop") {
        Some(MoverCommand::Stop(fields.number()?))
    } else if is(name, b"quiet") {
        Some(MoverCommand::Quiet)
    } else if is(name, b"wake") {
        Some(MoverCommand::Wake)
    } else if is(name, b"look") {
        Some(MoverCommand::Look(fields.number()?, fields.number()?))
    } else if is(name, b"status") {
        Some(MoverCommand::Status(fields.number()?))
    } else if is(name, b"turn") {
        Some(MoverCommand::Turn(read_turns(fields)?))
    } else {
        None
    }
}

fn read_fill(heap: Global, fields: &mut Fields) -> Result<MoverCommand, Trouble>
    ensures { Spells (λ x. (call_of x, fields.new.rest.now)) (fill fields.old.rest.now) result }
{
    let channel = fields.number().ok_or(Trouble::BadLine)?;
    let field = fields.next().ok_or(Trouble::BadLine)?;
    Ok(MoverCommand::Fill(channel, read_bytes(heap, field)?))
}

impl MoverCommand {
    // The call of this name, with its arguments from the fields.
    pub fn read(heap: Global, name: &[u8], fields: &mut Fields) -> Result<MoverCommand, Trouble>
        ensures { Spells (λ x. (call_of x, fields.new.rest.now)) (call_named name.now fields.old.rest.now) result }
    {
        match name {
            b"fill" => read_fill(heap, fields),
            _ => read_call(name, fields).ok_or(Trouble::BadLine),
        }
    }
}
