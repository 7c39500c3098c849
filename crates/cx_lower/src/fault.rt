ghost use Rattle.std.specs.Prelude.{◌≡◌};
ghost use Rattle.cx_lower.specs.declared.fault.LowerFault.TheVariants.{NoMemory as OutOfMemory};

use cx_base::NoMemory;
use thiserror::Error;

/// A quantity of code that has a limit.
#[derive(Clone, Copy, Debug, PartialEq, Eq)]
pub enum LimitKind {
    /// Temporaries included.
    Locals,
    Blocks,
    /// Lines of all blocks; the ends of blocks are none.
    Instructions,
}

/// Why a function has no code.
#[derive(Debug, Drop, Error)]
pub enum LowerFault {
    /// Its code would pass this limit.
    #[error("code of more than {limit} is not made")]
    TooLarge { kind: LimitKind, limit: u32 },
    #[error("out of memory")]
    NoMemory,
}

impl From<NoMemory> for LowerFault {
    ghost from_gives = { λ _ e. e ≡ OutOfMemory };

    fn from(_e: NoMemory) -> LowerFault {
        LowerFault::NoMemory
    }
}
