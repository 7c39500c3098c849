ghost use Rattle.std.specs.Prelude.{◌≡◌};
ghost use Rattle.cx_cword.specs.declared.reading.Stop.TheVariants.{NoMemory as OutOfMemory};
ghost use Rattle.cx_cword.specs.Reading.{Splits};
ghost use Rattle.cx_cword.specs.Reading as spec;

use crate::lexeme::Lexeme;
use cx_base::{NoMemory, Span};
use std::alloc::{AllocError, AllocFailed};

/// Why a reader gives nothing.
#[derive(Clone, Copy, Debug, PartialEq, Eq)]
pub enum Stop {
    NoMemory,
    /// The lexemes do not spell what is read.
    Unread,
}

impl From<AllocError> for Stop {
    ghost from_gives = { λ _ e. e ≡ OutOfMemory };

    fn from(_e: AllocError) -> Stop {
        Stop::NoMemory
    }
}

impl<T: Drop> From<AllocFailed<T>> for Stop {
    ghost from_gives = { λ _ e. e ≡ OutOfMemory };

    fn from(_e: AllocFailed<T>) -> Stop {
        Stop::NoMemory
    }
}

impl From<NoMemory> for Stop {
    ghost from_gives = { λ _ e. e ≡ OutOfMemory };

    fn from(_e: NoMemory) -> Stop {
        Stop::NoMemory
    }
}

/// From one place up to another; empty where that does not come after it.
pub fn span_between(first: u32, past: u32) -> Span
    ensures { result ≡ spec.span_between first past }
{
    Span {
        first,
        past: if first < past { past } else { first },
    }
}

/// The first lexeme and those after it.
pub fn split(lexemes: &[Lexeme]) -> Option<(Lexeme, &[Lexeme])>
    ensures { Splits result lexemes.now }
{
    match lexemes {
        [] => None,
        [o, rest @ ..] => Some((*o, rest)),
    }
}
