// How a turn is written. The text belongs to the answers of a script, so the types of turns do not have it.
ghost use Rattle.std.specs.Prelude.{Some};
ghost use Rattle.answers.specs.Texts.{landing_text, service_text, turn_text};

use machine::answer::{Landing, Service, Turned};
use std::fmt;

#[derive(Clone, Copy)]
pub struct ShownLanding(pub Landing);

impl fmt::Display for ShownLanding {
    ghost output = { λ x. Some (landing_text x.0) };

    fn fmt<W: fmt::Write>(&self, f: &mut fmt::Formatter<W>) -> fmt::Result {
        match self.0 {
            Landing::Nothing => write!(f, "none"),
            Landing::NotYet => write!(f, "not yet"),
            Landing::Reply(channel, place, true) => write!(
                f,
                "channel {} place {} word",
                channel.0, place.0
            ),
            Landing::Reply(channel, place, false) => write!(
                f,
                "channel {} place {} no word",
                channel.0, place.0
            ),
        }
    }
}

#[derive(Clone, Copy)]
pub struct ShownService(pub Option<Service>);

impl fmt::Display for ShownService {
    ghost output = { λ x. Some (service_text x.0) };

    fn fmt<W: fmt::Write>(&self, f: &mut fmt::Formatter<W>) -> fmt::Result {
        match self.0 {
            None => write!(f, "none"),
            Some(service) => write!(
                f,
                "channel {} requests {}",
                service.channel.0, service.requests
            ),
        }
    }
}

#[derive(Clone, Copy)]
pub struct ShownTurn(pub Turned);

impl fmt::Display for ShownTurn {
    ghost output = { λ x. Some (turn_text x.0) };

    fn fmt<W: fmt::Write>(&self, f: &mut fmt::Formatter<W>) -> fmt::Result {
        // Most turns of a long script are of a mover that has nothing to do, so theirs is one text.
        if let Turned {
            landing: Landing::Nothing,
            service: None,
        } = self.0
        {
            return write!(f, "landing none, service none");
        }
        let landing = ShownLanding(self.0.landing);
        let service = ShownService(self.0.service);
        write!(f, "landing {landing}, service {service}")
    }
}
