ghost use Rattle.std.specs.Prelude.{◌≡◌};
ghost use Rattle.session.specs.Performed.{Answers, Spares};
ghost use Rattle.dispatch.specs.declared.hall.Hall.TheVariants.{Empty};
ghost use Rattle.pile.specs.Piles.{pile_hall};

use crate::written::perform;
use commands::command::Command;
use commands::trouble::Trouble;
use dispatch::hall::Hall;
use pile::piles::Pile;
use reading::fields::passed_over;
use std::alloc::Global;
use std::io::Write;

// The lines of a script, carried out one after another.
#[derive(Drop)]
pub struct Session {
    heap: Global,
    hall: Hall<Pile>,
}

impl Session {
    pub fn new(heap: Global) -> Session
        ensures { result.hall ≡ Empty }
    {
        Session {
            heap,
            hall: Hall::Empty,
        }
    }

    // Carries out one line and writes its answer. A line that is passed over has none, and a bad line changes nothing.
    pub fn answer<W: Write>(&mut self, line: &[u8], out: &mut W) -> Result<(), Trouble>
        ensures answers { Answers pile_hall line.now result self.old.hall self.new.hall }
        ensures spares { Spares result self.old.hall self.new.hall }
    {
        if passed_over(line) {
            return Ok(());
        }
        let command = Command::read(self.heap, line)?;
        perform(&mut self.hall, command, out)
    }
}
