ghost use Rattle.std.specs.Prelude.{◌≡◌};
ghost use Rattle.cx_tread.specs.declared.fault.TypeFault.TheVariants.{NoMemory as OutOfMemory};

use cx_base::{NoMemory, Span};
use cx_tparse::ParseFault;
use thiserror::Error;

/// Why a text is no type file beside the C file. The first three are faults of tokens: of several of these
/// the one at the earliest place is answered. The other causes are tried after them in this order, each
/// over the whole text. Each place is the offset of a byte from the first byte of the text.
#[derive(Debug, Drop, PartialEq, Eq, Error)]
pub enum TypeFault {
    /// The comment that begins at this byte with `/*` has no end.
    #[error("the comment at byte {0} has no end")]
    OpenComment(u32),
    /// The character constant or string literal that begins with the mark at this byte has no closing
    /// mark on its line.
    #[error("the quotation mark at byte {0} has no partner on its line")]
    OpenText(u32),
    /// No token begins with this byte, or a `#` line may not be passed over.
    #[error("the byte at {0} begins no token")]
    BadByte(u32),
    /// The first bracket that opens the 101st level.
    #[error("the bracket at byte {} opens more than 100 levels", .0.first)]
    TooDeep(Span),
    /// No type file begins with the tokens up to and with the one that stands here, or this is the last
    /// token and the text ends too early; or the text has a tree, and this is the first linear form that
    /// is no term, relation whose sides' difference is none, or divisor that is 0.
    #[error("what stands at byte {} is not what a type file has there", .0.first)]
    Syntax(Span),
    /// The first name that is not known: of a region, a symbol, or what the C file declares.
    #[error("the name at byte {} is not known", .0.first)]
    UnknownName(Span),
    /// The first name that is declared a second time.
    #[error("the name at byte {} is declared twice", .0.first)]
    Doubled(Span),
    /// The first name or type at which numbers of arguments, fields or parameters do not agree, or the
    /// name of an item past the limits of their counts.
    #[error("the number of what stands at byte {} is wrong", .0.first)]
    Arity(Span),
    /// The first binder that nothing determines, or type at a place where it determines nothing.
    #[error("what stands at byte {} is not determined", .0.first)]
    Undetermined(Span),
    /// The first type, cell or name whose size is wrong.
    #[error("the size of what stands at byte {} is wrong", .0.first)]
    BadSize(Span),
    /// The allocator refused.
    #[error("out of memory")]
    NoMemory,
}

impl From<NoMemory> for TypeFault {
    ghost from_gives = { λ _ e. e ≡ OutOfMemory };

    fn from(_e: NoMemory) -> TypeFault {
        TypeFault::NoMemory
    }
}

impl From<ParseFault> for TypeFault {
    ghost use Rattle.cx_tread.specs.Faults.{of_parse};

    ghost from_gives = { λ f e. e ≡ of_parse f };

    fn from(f: ParseFault) -> TypeFault {
        match f {
            ParseFault::OpenComment(at) => TypeFault::OpenComment(at),
            ParseFault::OpenText(at) => TypeFault::OpenText(at),
            ParseFault::BadByte(at) => TypeFault::BadByte(at),
            ParseFault::TooDeep(span) => TypeFault::TooDeep(span),
            ParseFault::Syntax(span) => TypeFault::Syntax(span),
            ParseFault::NoMemory => TypeFault::NoMemory,
        }
    }
}
