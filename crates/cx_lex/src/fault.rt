ghost use Rattle.std.specs.Prelude.{◌≡◌};
ghost use Rattle.cx_lex.specs.declared.fault.LexFault.TheVariants.{NoMemory as OutOfMemory};

use cx_base::NoMemory;
use thiserror::Error;

/// Why a text has no tokens. Each place is the offset of a byte from the first byte of the text.
#[derive(Debug, Drop, PartialEq, Eq, Error)]
pub enum LexFault {
    /// The comment that begins at this byte with `/*` has no end.
    #[error("the comment at byte {0} has no end")]
    OpenComment(u32),
    /// The character constant or string literal that begins with the mark at this byte has no
    /// closing mark on its line.
    #[error("the quotation mark at byte {0} has no partner on its line")]
    OpenText(u32),
    /// No token begins with this byte, or a digraph does (C11 6.4.6), or the name `_Pragma`
    /// (C11 6.10.9), or it is a `#` that begins no line, or the `#` of a line that is not passed
    /// over: a pragma that may change layouts, or a line that its comment or its backslash would
    /// join to the next.
    #[error("the byte at {0} begins no token")]
    BadByte(u32),
    /// The allocator refused.
    #[error("out of memory")]
    NoMemory,
}

impl From<NoMemory> for LexFault {
    ghost from_gives = { λ _ e. e ≡ OutOfMemory };

    fn from(_e: NoMemory) -> LexFault {
        LexFault::NoMemory
    }
}
