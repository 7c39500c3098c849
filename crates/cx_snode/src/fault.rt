ghost use Rattle.std.specs.Prelude.{◌≡◌};
ghost use Rattle.cx_snode.specs.declared.fault.SemaFault.TheVariants.{NoMemory as OutOfMemory};

use cx_base::{NoMemory, Span};
use std::alloc::{AllocError, AllocFailed};
use thiserror::Error;

/// Why a function has no typed tree.
#[derive(Debug, Drop, Error)]
pub enum SemaFault {
    /// A rule on types is broken, and this is the first place where one is. The rules by their
    /// numbers:
    ///
    /// | rule | what must hold |
    /// |---|---|
    /// | 1 | a name is a local in scope, an object of the file or an enumeration constant |
    /// | 2 | arithmetic takes integers; `+` also a pointer and an integer, `-` also these or two pointers to types of one size |
    /// | 3 | what is read through a pointer is complete, and an index is an integer |
    /// | 4 | a member is one of its struct or union |
    /// | 5 | an address is that of an object in memory |
    /// | 6 | the left side of an assignment is a local or in memory, and scalar |
    /// | 7 | a value converts to the type that is asked for |
    /// | 8 | a called function is declared, with that number of parameters; they and its result are scalar |
    /// | 9 | a `return` has a value exactly where the function has a result |
    /// | 10 | a `switch` is on an integer; its labels differ, and at most one is `default` |
    /// | 11 | `break` stands in a loop or `switch`, `continue` in a loop |
    /// | 12 | a local is scalar and new in its block; so is a parameter, which has a name |
    /// | 13 | a size is that of a complete type |
    /// | 14 | a condition is scalar |
    /// | 15 | the arms of `?:` have types that go together |
    /// | 16 | `op=` takes two integers, or moves a pointer by an integer |
    /// | 17 | integers are compared with integers, pointers with pointers and the constant 0 |
    /// | 18 | a value that nothing takes is scalar |
    /// | 19 | a type whose size is asked for has one |
    #[error("rule {rule} on types is broken at byte {}", .span.first)]
    NotWellTyped { span: Span, rule: u8 },
    /// The allocator refused.
    #[error("out of memory")]
    NoMemory,
}

impl From<NoMemory> for SemaFault {
    ghost from_gives = { λ _ e. e ≡ OutOfMemory };

    fn from(_e: NoMemory) -> SemaFault {
        SemaFault::NoMemory
    }
}

impl From<AllocError> for SemaFault {
    ghost from_gives = { λ _ e. e ≡ OutOfMemory };

    fn from(_e: AllocError) -> SemaFault {
        SemaFault::NoMemory
    }
}

impl<T: Drop> From<AllocFailed<T>> for SemaFault {
    ghost from_gives = { λ _ e. e ≡ OutOfMemory };

    fn from(_e: AllocFailed<T>) -> SemaFault {
        SemaFault::NoMemory
    }
}
