ghost use Rattle.std.specs.Prelude.{◌≡◌, ℕ};
ghost use Rattle.operators.specs.declared.action.Action.{Action};
ghost use Rattle.commands.specs.Readers.{Reads};
ghost use Rattle.commands.specs.Arguments.{sending, request_named, request};

use crate::choices::read_operator;
use memory::request::Request;
use numbers::cell::Cell;
use operators::action::Action;
use reading::fields::Fields;

// A cell and a word, with what is to be done with the word.
fn read_sending<F: FnOnce(u32) -> Action>(fields: &mut Fields, action: F) -> Option<Request>
    requires { F.IsAlwaysCallable action }
    ensures { (wanted : ℕ → Action) → ((word : ℕ) (done : Action) → F.post action word done → done ≡ wanted word) → Reads (sending wanted fields.old.rest.now) result fields.new.rest.now }
{
    let cell = Cell(fields.number()?);
    let action = action(fields.number()?);
    Some(Request { cell, action })
}

// The request of this mode.
fn read_mode(mode: &[u8], fields: &mut Fields) -> Option<Request>
    ensures { Reads (request_named mode.now fields.old.rest.now) result fields.new.rest.now }
{
    match mode {
        b"LOAD" => {
            let cell = Cell(fields.number()?);
            let action = Action::Load;
            Some(Request { cell, action })
        }
        b"STORE" => read_sending(fields, Action::Store),
        b"MP" => {
            let choice = read_operator(fields)?;
            read_sending(fields, |word| Action::Mp(choice, word))
        }
        b"SYNC" => {
            let choice = read_operator(fields)?;
            read_sending(fields, |word| Action::Sync(choice, word))
        }
        _ => None,
    }
}

// A request: its mode, its operator if it has one, its cell, and its word if it sends one.
pub fn read_request(fields: &mut Fields) -> Option<Request>
    ensures { Reads (request fields.old.rest.now) result fields.new.rest.now }
{
    let mode = fields.next()?;
    read_mode(mode, fields)
}
