ghost use Rattle.pile.specs.Plans.{pile_planned};
ghost use Rattle.dispatch.specs.Carried.{Makes, CarriesOut};
ghost use Rattle.pile.specs.Piles.{pile_hall};

use crate::hall::Hall;
use crate::movers::call_of;
use crate::programs;
use answers::reply::Reply;
use commands::command::Command;
use commands::trouble::Trouble;
use pile::piles::Pile;
use pile::plan::PilePlan;

impl Hall<Pile> {
    // Makes a new memory in place of whatever was there. After a refusal that is still there.
    pub fn make(&mut self, plan: PilePlan) -> Reply
        ensures { Makes pile_hall (pile_planned plan) result self.old self.new }
    {
        match plan.make() {
            Ok(pile) => {
                *self = Hall::Memory(pile);
                Reply::MemoryReady
            }
            Err(fault) => Reply::refused(fault),
        }
    }

    // Carries out a command. One that asks for several turns makes one of them.
    pub fn carry_out(&mut self, command: Command) -> Result<Reply, Trouble>
        ensures { CarriesOut pile_hall command result self.old self.new }
    {
        match command {
            Command::Programs(command) => Ok(programs::carry_out(command)),
            Command::MakeMemory(plan) => Ok(self.make(plan)),
            Command::Memory(command) => self.ask(command),
            Command::MakeMover => self.hand_over(),
            Command::Mover(command) => self.call(call_of(&command)),
        }
    }
}
