use numbers::channel::Channel;
use numbers::place::Place;

// A LOAD or MP piece that was sent and whose last reply has not landed yet.
#[derive(Clone, Copy)]
pub struct Piece {
    pub channel: Channel,
    // where its next reply lands
    pub next: Place,
    // how many replies are still due, at least one
    pub due: u8,
    // no other piece of its program follows
    pub last: bool,
}
