ghost use Rattle.std.specs.Prelude.{◌≡◌};
ghost use Rattle.cx_titem.specs.declared.fault.SyntaxFault.TheVariants.{NoMemory as OutOfMemory};

use cx_base::{NoMemory, Span};
use thiserror::Error;

/// Why a type file has no tree.
#[derive(Debug, Drop, PartialEq, Eq, Error)]
pub enum SyntaxFault {
    /// No type file begins with the tokens up to and with the one that stands here, or this is the last
    /// token and the file ends too early.
    #[error("the token at byte {} is not what a type file has there", .0.first)]
    Syntax(Span),
    #[error("out of memory")]
    NoMemory,
}

impl From<NoMemory> for SyntaxFault {
    ghost from_gives = { λ _ e. e ≡ OutOfMemory };

    fn from(_e: NoMemory) -> SyntaxFault {
        SyntaxFault::NoMemory
    }
}
