use crate::piece::Piece;
use crate::record::Record;
use numbers::channel::Channel;
use queue::line::Queue;

// All that the mover keeps, but for the hall memory.
#[derive(Clone, Copy)]
pub struct State {
    pub records: [Record; 16],
    // the channels that wait for service, first come first served
    pub singles: Queue<Channel, 16>,
    pub blocks: Queue<Channel, 16>,
    // the pieces in flight, the oldest first
    pub flight: Queue<Piece, 4>,
    pub quiet: bool,
    // the previous service was of a single
    pub after_single: bool,
}
