ghost use Rattle.std.specs.Prelude.{◌≡◌};
ghost use Rattle.cx_reader.specs.declared.stop.Stop.TheVariants.{NoMemory as OutOfMemory};

use cx_base::NoMemory;
use std::alloc::{AllocError, AllocFailed};

/// Why a reader gives nothing.
#[derive(Clone, Copy, Debug, PartialEq, Eq)]
pub enum Stop {
    NoMemory,
    /// No lexemes that begin as these do spell what is read: so many are left from the first on with
    /// which that is so, none where the lexemes end too early.
    Unread(usize),
}

impl From<AllocError> for Stop {
    ghost from_gives = { λ _ e. e ≡ OutOfMemory };

    fn from(_e: AllocError) -> Stop {
        Stop::NoMemory
    }
}

impl<T: Drop> From<AllocFailed<T>> for Stop {
    ghost from_gives = { λ _ e. e ≡ OutOfMemory };

    fn from(_e: AllocFailed<T>) -> Stop {
        Stop::NoMemory
    }
}

impl From<NoMemory> for Stop {
    ghost from_gives = { λ _ e. e ≡ OutOfMemory };

    fn from(_e: NoMemory) -> Stop {
        Stop::NoMemory
    }
}
