ghost use Rattle.std.specs.Prelude.{◌≡◌};
ghost use Rattle.cx_citem.specs.Items as spec;

use cx_cword::{LexemeKind, Punctuator};

/// A kind of brackets.
#[derive(Clone, Copy, Debug, PartialEq, Eq)]
pub enum Bracket {
    /// `(` and `)`
    Paren,
    /// `[` and `]`
    Square,
    /// `{` and `}`
    Brace,
}

/// A bracket that is open, and whether it stands directly after a `)`.
#[derive(Clone, Copy, Debug, PartialEq, Eq)]
pub struct Opened {
    pub kind: Bracket,
    pub follows: bool,
}

pub fn same_bracket(a: Bracket, b: Bracket) -> bool
    ensures { result ≡ spec.same_bracket a b }
{
    match a {
        Bracket::Paren => matches!(b, Bracket::Paren),
        Bracket::Square => matches!(b, Bracket::Square),
        Bracket::Brace => matches!(b, Bracket::Brace),
    }
}

/// The bracket that the lexeme opens.
pub fn opens(kind: LexemeKind) -> Option<Bracket>
    ensures { result ≡ spec.opens kind }
{
    match kind {
        LexemeKind::Punctuator(Punctuator::OpenParen) => Some(Bracket::Paren),
        LexemeKind::Punctuator(Punctuator::OpenBracket) => Some(Bracket::Square),
        LexemeKind::Punctuator(Punctuator::OpenBrace) => Some(Bracket::Brace),
        _ => None,
    }
}

/// The bracket that the lexeme would close.
pub fn closes(kind: LexemeKind) -> Option<Bracket>
    ensures { result ≡ spec.closes kind }
{
    match kind {
        LexemeKind::Punctuator(Punctuator::CloseParen) => Some(Bracket::Paren),
        LexemeKind::Punctuator(Punctuator::CloseBracket) => Some(Bracket::Square),
        LexemeKind::Punctuator(Punctuator::CloseBrace) => Some(Bracket::Brace),
        _ => None,
    }
}

pub fn is_close_paren(kind: LexemeKind) -> bool
    ensures { result ≡ spec.is_close_paren kind }
{
    matches!(kind, LexemeKind::Punctuator(Punctuator::CloseParen))
}

pub fn is_open_brace(kind: LexemeKind) -> bool
    ensures { result ≡ spec.is_open_brace kind }
{
    matches!(kind, LexemeKind::Punctuator(Punctuator::OpenBrace))
}
