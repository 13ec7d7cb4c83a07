ghost use Rattle.std.specs.Prelude.{◌≡◌};
ghost use Rattle.machine.specs.Means.{mean_of};
ghost use Rattle.machine.specs.Soundness.{new_mean};

use crate::records::empty_record;
use machine::piece::Piece;
use machine::state::State;
use numbers::channel::Channel;
use numbers::place::Place;
use queue::line::Queue;

// The state of a new mover: all channels free, all windows empty, nothing waits, nothing is in flight.
pub fn new_state() -> State
    ensures { mean_of result ≡ new_mean }
{
    let records = [empty_record(false); 16];
    State {
        records,
        singles: Queue::new(Channel(0)),
        blocks: Queue::new(Channel(0)),
        flight: Queue::new(Piece {
            channel: Channel(0),
            next: Place(0),
            due: 0,
            last: false,
        }),
        quiet: false,
        after_single: false,
    }
}
