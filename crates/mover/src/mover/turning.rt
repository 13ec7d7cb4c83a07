ghost use Rattle.std.specs.Prelude.{◌≡◌, ◌+◌, ◌<◌, ◌≤◌, ◌∷◌, length};
ghost use Rattle.machine.specs.Means.{mean_of, record_of};
ghost use Rattle.machine.specs.Soundness.{Sound};
ghost use Rattle.machine.specs.Turns.{land_piece, rest, serviced, serve, next_piece};
ghost use Rattle.mover.specs.Halves.{Lands, Serves, choose_of, left_line};
ghost use Rattle.program.specs.Pieces.{span};

use crate::pieces::{land_reply, next_piece, send_piece, served};
use machine::answer::{Landing, Service};
use machine::piece::Piece;
use machine::state::State;
use memory::interface::HallMemory;
use memory::request::Taken;
use numbers::channel::Channel;
use numbers::place::Place;
use program::range::PlaceRange;

// The reply of the oldest piece in flight lands. The piece leaves the flight with its last reply.
fn land_oldest(state: &mut State, piece: Piece, reply: Option<u32>)
    requires oldest { (mean_of state.old).flight ≡ piece ∷ rest (mean_of state.old).flight }
    requires low { piece.channel.0 < 16 }
    requires few { (record_of (mean_of state.old) piece.channel.0).counts.landed < 256 }
    requires some { 1 ≤ piece.due }
    requires within { piece.next.0 + piece.due ≤ 256 }
    ensures { mean_of state.new ≡ land_piece (mean_of state.old) piece (rest (mean_of state.old).flight) reply }
{
    land_reply(&mut state.records[piece.channel.0 as usize], piece, reply);
    if piece.due == 1 {
        state.flight.pop();
    } else {
        let _ = state.flight.replace_first(Piece {
            next: Place(piece.next.0 + 1),
            due: piece.due - 1,
            ..piece
        });
    }
}

// Landing: take is called once if a piece is in flight.
pub fn land<M: HallMemory>(memory: &mut M, state: &mut State) -> Landing
    requires { Sound (mean_of state.old) (M.HallMemory.view memory.old) }
    ensures sound { Sound (mean_of state.new) (M.HallMemory.view memory.new) }
    ensures lands { Lands result (mean_of state.old) (mean_of state.new) (M.HallMemory.view memory.old) (M.HallMemory.view memory.new) }
{
    let Some(piece) = state.flight.first() else {
        return Landing::Nothing;
    };
    match memory.take() {
        Taken::Nothing => unreachable(),
        Taken::NotYet => Landing::NotYet,
        Taken::Reply(reply) => {
            land_oldest(state, piece, reply);
            Landing::Reply(piece.channel, piece.next, reply.is_some())
        }
    }
}

// Of the first single and the first block that wait, the one to serve.
fn choose(single: Option<Channel>, block: Option<Channel>, after_single: bool) -> Option<Channel>
    ensures { result ≡ choose_of single block after_single }
{
    if after_single {
        block.or(single)
    } else {
        single.or(block)
    }
}

// The channel to serve: a single goes first, unless the previous service was of a single and a block waits.
fn next_channel(state: &State) -> Option<Channel>
    ensures { result ≡ serviced (mean_of state.now) }
{
    if state.flight.is_full() {
        return None;
    }
    choose(
        state.singles.first(),
        state.blocks.first(),
        state.after_single,
    )
}

// The channel that was served leaves its line; a block whose piece was not final goes to its end.
fn leave_line(state: &mut State, channel: Channel, single: bool, last: bool)
    ensures { mean_of state.new ≡ left_line (mean_of state.old) channel single last }
{
    if single {
        state.singles.pop();
    } else {
        state.blocks.pop();
        if !last {
            let _ = state.blocks.push(channel);
        }
    }
}

// The state after a piece was sent.
fn note_service(state: &mut State, channel: Channel, piece: PlaceRange)
    requires low { channel.0 < 16 }
    requires room { length (mean_of state.old).flight < 4 }
    requires piece { span piece ≡ next_piece (record_of (mean_of state.old) channel.0) }
    requires few { (record_of (mean_of state.old) channel.0).counts.sent < 256 }
    ensures { mean_of state.new ≡ serve (mean_of state.old) channel (record_of (mean_of state.old) channel.0) }
{
    let record = state.records[channel.0 as usize];
    let last = served(&mut state.records[channel.0 as usize], piece);
    leave_line(state, channel, record.program.single, last);
    state.after_single = record.program.single;
    if record.program.mode.wants_reply() {
        let _ = state.flight.push(Piece {
            channel,
            next: piece.first(),
            due: piece.len() as u8,
            last,
        });
    }
}

// Service: one piece of one channel, if fewer than four pieces are in flight and a channel waits.
pub fn serve_next<M: HallMemory>(memory: &mut M, state: &mut State) -> Option<Service>
    requires { Sound (mean_of state.old) (M.HallMemory.view memory.old) }
    ensures sound { Sound (mean_of state.new) (M.HallMemory.view memory.new) }
    ensures serves { Serves result (mean_of state.old) (mean_of state.new) (M.HallMemory.view memory.old) (M.HallMemory.view memory.new) }
{
    let channel = next_channel(state)?;
    let record = &state.records[channel.0 as usize];
    let piece = next_piece(record);
    send_piece(memory, record, piece);
    note_service(state, channel, piece);
    Some(Service {
        channel,
        requests: piece.len() as u8,
    })
}
