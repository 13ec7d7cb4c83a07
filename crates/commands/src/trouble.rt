ghost use Rattle.std.specs.Prelude.{◌≡◌};
ghost use Rattle.commands.specs.Troubles.{Stops};
ghost use Rattle.commands.specs.declared.trouble.Trouble.TheVariants.{Stopped};

use std::alloc::{AllocError, AllocFailed};
use std::io;

// Why a line is not answered.
#[derive(Drop)]
pub enum Trouble {
    // it is no command, or asks for what is not there; nothing was changed or written
    // (named by ok_or where a reader found nothing, since `?` makes no Err of a None)
    BadLine,
    // there was no memory for it, or its answer could not be written
    Stopped(io::Error),
}

impl From<io::Error> for Trouble {
    ghost from_gives = { λ error r. r ≡ Stopped error };

    fn from(error: io::Error) -> Trouble {
        Trouble::Stopped(error)
    }
}

impl From<AllocError> for Trouble {
    ghost from_gives = { λ _ r. Stops r };

    fn from(error: AllocError) -> Trouble {
        Trouble::Stopped(error.into())
    }
}

impl<T: Drop> From<AllocFailed<T>> for Trouble {
    ghost from_gives = { λ _ r. Stops r };

    fn from(refused: AllocFailed<T>) -> Trouble {
        Trouble::Stopped(refused.into())
    }
}
