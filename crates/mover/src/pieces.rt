ghost use Rattle.std.specs.Prelude.{◌≡◌, ◌+◌, ◌<◌, ◌≤◌, length};
ghost use Rattle.machine.specs.Turns.{landed_record, next_piece, final, request_at, requests_from, served_record, SentAll};
ghost use Rattle.program.specs.Pieces.{span, from_to, span_len};

use machine::piece::Piece;
use machine::record::Record;
use memory::interface::HallMemory;
use memory::request::Request;
use numbers::cell::Cell;
use numbers::place::Place;
use operators::action::Action;
use program::range::PlaceRange;

// A reply lands in the next place of the channel's oldest piece.
pub fn land_reply(channel: &mut Record, piece: Piece, reply: Option<u32>)
    requires { channel.old.counts.landed < 256 }
    ensures { channel.new ≡ landed_record piece reply channel.old }
{
    channel.window[piece.next.0 as usize] = reply;
    channel.counts.landed += 1;
    channel.flags.error |= reply.is_none();
    channel.flags.running &= !(piece.last & (piece.due == 1));
}

// The places of the channel's next piece, made again from the plain numbers of its record.
pub fn next_piece(channel: &Record) -> PlaceRange
    requires unsent { channel.now.program.first + channel.now.counts.sent ≤ channel.now.program.last }
    requires within { channel.now.program.last < 256 }
    ensures { span result ≡ next_piece channel.now }
{
    let first = Place(channel.program.first + channel.counts.sent as u8);
    match PlaceRange::checked(first, Place(channel.program.last)) {
        Some(range) => range.cut().piece,
        None => unreachable(),
    }
}

// The request that goes with one place of the program.
fn request_at(channel: &Record, place: u8) -> Request
    requires { channel.now.program.first ≤ place }
    ensures { result ≡ request_at channel.now place }
{
    let word = if channel.program.single {
        channel.program.word
    } else {
        channel.window[place as usize].unwrap_or(0)
    };
    let offset = place - channel.program.first;
    Request {
        cell: Cell(channel.program.cell.wrapping_add(u32::from(offset))),
        action: Action::new(channel.program.mode, word),
    }
}

// Notes in the channel's record that its piece was sent. The piece is final if it holds the last place, or if a stop was accepted.
pub fn served(channel: &mut Record, piece: PlaceRange) -> bool
    requires piece { span piece ≡ next_piece channel.old }
    requires few { channel.old.counts.sent < 256 }
    ensures last { result ≡ final channel.old }
    ensures after { channel.new ≡ served_record channel.old }
{
    let last = (piece.last().0 == channel.program.last) | channel.flags.stop;
    let ends = last & !channel.program.mode.wants_reply();
    channel.flags.running &= !ends;
    channel.counts.sent += piece.len();
    last
}

// Sends the requests of a piece one after another. There is room for their replies, so none is refused.
pub fn send_piece<M: HallMemory>(memory: &mut M, channel: &Record, piece: PlaceRange)
    requires within { channel.now.program.first ≤ (span piece).from }
    requires room { length (M.HallMemory.view memory.old).transit + span_len (span piece) ≤ 32 }
    ensures { SentAll (requests_from channel.now (span_len (span piece)) (span piece).from) (M.HallMemory.view memory.old) (M.HallMemory.view memory.new) }
{
    for place in piece.first().0..=piece.last().0 {
        match memory.send(request_at(channel, place)) {
            Ok(()) => {}
            Err(_) => unreachable(),
        }
    }
}
