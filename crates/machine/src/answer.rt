use crate::fault::ChannelFault;
use numbers::channel::Channel;
use numbers::place::Place;

// What a turn landed.
#[derive(Clone, Copy)]
pub enum Landing {
    Nothing,
    NotYet,
    // where a reply landed, and whether it brought a word
    Reply(Channel, Place, bool),
}

// What a turn sent: for which channel, and how many requests.
#[derive(Clone, Copy)]
pub struct Service {
    pub channel: Channel,
    pub requests: u8,
}

// What a turn did: the landing, and then the service.
#[derive(Clone, Copy)]
pub struct Turned {
    pub landing: Landing,
    pub service: Option<Service>,
}

// What a call answers.
#[derive(Clone, Copy)]
pub enum Answer {
    Refused(ChannelFault),
    Done,
    Given(Channel),
    Word(u32),
    Turned(Turned),
}
