ghost use Rattle.std.specs.Prelude.{◌≡◌};
ghost use Rattle.cx_abi.specs.declared.fault.LayoutFault.TheVariants.{NoMemory as OutOfMemory};

use cx_base::NoMemory;
use thiserror::Error;

/// Why a type has no layout.
#[derive(Debug, Drop, Error)]
pub enum LayoutFault {
    /// The type is void, and then the number is 0, or it contains, other than behind a pointer, a
    /// tag without members: the first one in order of members.
    #[error("type {0} is incomplete")]
    Incomplete(u32),
    /// Nothing is incomplete, and the type, or a type in it, has more than 2^31 bytes: the tag of
    /// the first such type, parts before wholes, or 0 for an array.
    #[error("type {0} has more than 2147483648 bytes")]
    TooBig(u32),
    #[error("out of memory")]
    NoMemory,
}

impl From<NoMemory> for LayoutFault {
    ghost from_gives = { λ _ e. e ≡ OutOfMemory };

    fn from(_e: NoMemory) -> LayoutFault {
        LayoutFault::NoMemory
    }
}
