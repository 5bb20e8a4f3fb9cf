// What the work of a command comes to, before a byte goes to err.
ghost use Rattle.std.specs.Prelude.{◌≡◌};
ghost use Rattle.life_cli.specs.Stops.{stop_of};
ghost use Rattle.life_cli.specs.declared.stop.Stop.TheVariants as stop;

use crate::Status;
use life_base::ReadError;
use life_types::NoMemory;
use std::alloc::AllocError;

/// What is left to do once out has its text: to write `err`, and to end with `status`.
#[derive(Drop)]
pub struct Ending {
    pub status: Status,
    pub err: Vec<u8>,
}

/// Why the work stopped.
#[derive(Clone, Copy, Debug, PartialEq, Eq)]
pub enum Stop {
    NoMemory,
    ReadFault,
    WriteFault,
}

impl From<ReadError> for Stop {
    ghost from_gives = { λ error gives. gives ≡ stop_of error };

    fn from(error: ReadError) -> Self {
        match error {
            ReadError::Failed => Stop::ReadFault,
            ReadError::NoMemory => Stop::NoMemory,
        }
    }
}

impl From<NoMemory> for Stop {
    ghost from_gives = { λ _ gives. gives ≡ stop.NoMemory };

    fn from(_: NoMemory) -> Self {
        Stop::NoMemory
    }
}

impl From<AllocError> for Stop {
    ghost from_gives = { λ _ gives. gives ≡ stop.NoMemory };

    fn from(_: AllocError) -> Self {
        Stop::NoMemory
    }
}
