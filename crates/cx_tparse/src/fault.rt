ghost use Rattle.std.specs.Prelude.{◌≡◌};
ghost use Rattle.cx_tparse.specs.declared.fault.ParseFault.TheVariants.{NoMemory as OutOfMemory};

use cx_base::{NoMemory, Span};
use cx_lex::LexFault;
use cx_titem::SyntaxFault;
use thiserror::Error;

/// Why the text of a type file has no tree. The first three are faults of tokens: of several of these the
/// one at the earliest place is answered. Each place is the offset of a byte from the first byte of the
/// text.
#[derive(Debug, Drop, PartialEq, Eq, Error)]
pub enum ParseFault {
    /// The comment that begins at this byte with `/*` has no end.
    #[error("the comment at byte {0} has no end")]
    OpenComment(u32),
    /// The character constant or string literal that begins with the mark at this byte has no closing
    /// mark on its line.
    #[error("the quotation mark at byte {0} has no partner on its line")]
    OpenText(u32),
    /// No token begins with this byte, or a `#` line may not be passed over.
    #[error("the byte at {0} begins no token")]
    BadByte(u32),
    /// The text has tokens, and this is the first bracket that opens the 101st level.
    #[error("the bracket at byte {} opens more than 100 levels", .0.first)]
    TooDeep(Span),
    /// Nothing is too deep, and no type file begins with the tokens up to and with the one that stands
    /// here, or this is the last token and the text ends too early.
    #[error("the token at byte {} is not what a type file has there", .0.first)]
    Syntax(Span),
    /// The allocator refused.
    #[error("out of memory")]
    NoMemory,
}

impl From<NoMemory> for ParseFault {
    ghost from_gives = { λ _ e. e ≡ OutOfMemory };

    fn from(_e: NoMemory) -> ParseFault {
        ParseFault::NoMemory
    }
}

impl From<LexFault> for ParseFault {
    ghost use Rattle.cx_tparse.specs.Faults.{of_lex};

    ghost from_gives = { λ f e. e ≡ of_lex f };

    fn from(f: LexFault) -> ParseFault {
        match f {
            LexFault::OpenComment(at) => ParseFault::OpenComment(at),
            LexFault::OpenText(at) => ParseFault::OpenText(at),
            LexFault::BadByte(at) => ParseFault::BadByte(at),
            LexFault::NoMemory => ParseFault::NoMemory,
        }
    }
}

impl From<SyntaxFault> for ParseFault {
    ghost use Rattle.cx_tparse.specs.Faults.{of_syntax};

    ghost from_gives = { λ f e. e ≡ of_syntax f };

    fn from(f: SyntaxFault) -> ParseFault {
        match f {
            SyntaxFault::Syntax(span) => ParseFault::Syntax(span),
            SyntaxFault::NoMemory => ParseFault::NoMemory,
        }
    }
}
