// The lexemes that readers wait for.

ghost use Rattle.std.specs.Prelude.{◌≡◌};
ghost use Rattle.cx_cword.specs.Marks.{Next};
ghost use Rattle.cx_cword.specs.Marks as spec;

use crate::lexeme::{Lexeme, LexemeKind};
use crate::reading::split;
use crate::word::{Keyword, Punctuator};

/// A punctuator or a word that a reader waits for.
#[derive(Clone, Copy, Debug, PartialEq, Eq)]
pub enum Mark {
    OpenParen,
    CloseParen,
    OpenBracket,
    CloseBracket,
    OpenBrace,
    CloseBrace,
    Star,
    Comma,
    Semicolon,
    Colon,
    Question,
    Assign,
    While,
    Else,
}

fn mark_of(kind: LexemeKind) -> Option<Mark>
    ensures { result ≡ spec.mark_of kind }
{
    match kind {
        LexemeKind::Punctuator(Punctuator::OpenParen) => Some(Mark::OpenParen),
        LexemeKind::Punctuator(Punctuator::CloseParen) => Some(Mark::CloseParen),
        LexemeKind::Punctuator(Punctuator::OpenBracket) => Some(Mark::OpenBracket),
        LexemeKind::Punctuator(Punctuator::CloseBracket) => Some(Mark::CloseBracket),
        LexemeKind::Punctuator(Punctuator::OpenBrace) => Some(Mark::OpenBrace),
        LexemeKind::Punctuator(Punctuator::CloseBrace) => Some(Mark::CloseBrace),
        LexemeKind::Punctuator(Punctuator::Star) => Some(Mark::Star),
        LexemeKind::Punctuator(Punctuator::Comma) => Some(Mark::Comma),
        LexemeKind::Punctuator(Punctuator::Semicolon) => Some(Mark::Semicolon),
        LexemeKind::Punctuator(Punctuator::Colon) => Some(Mark::Colon),
        LexemeKind::Punctuator(Punctuator::Question) => Some(Mark::Question),
        LexemeKind::Punctuator(Punctuator::Assign) => Some(Mark::Assign),
        LexemeKind::Keyword(Keyword::While) => Some(Mark::While),
        LexemeKind::Keyword(Keyword::Else) => Some(Mark::Else),
        _ => None,
    }
}

fn same_mark(a: Mark, b: Mark) -> bool
    ensures { result ≡ spec.same_mark a b }
{
    match (a, b) {
        (Mark::OpenParen, Mark::OpenParen) => true,
        (Mark::CloseParen, Mark::CloseParen) => true,
        (Mark::OpenBracket, Mark::OpenBracket) => true,
        (Mark::CloseBracket, Mark::CloseBracket) => true,
        (Mark::OpenBrace, Mark::OpenBrace) => true,
        (Mark::CloseBrace, Mark::CloseBrace) => true,
        (Mark::Star, Mark::Star) => true,
        (Mark::Comma, Mark::Comma) => true,
        (Mark::Semicolon, Mark::Semicolon) => true,
        (Mark::Colon, Mark::Colon) => true,
        (Mark::Question, Mark::Question) => true,
        (Mark::Assign, Mark::Assign) => true,
        (Mark::While, Mark::While) => true,
        (Mark::Else, Mark::Else) => true,
        _ => false,
    }
}

/// Whether the lexeme is this mark.
pub fn fits(mark: Mark, kind: LexemeKind) -> bool
    ensures { result ≡ spec.fits mark kind }
{
    match mark_of(kind) {
        None => false,
        Some(other) => same_mark(mark, other),
    }
}

/// The first lexeme, where it is this mark, and those after it.
pub fn next(mark: Mark, lexemes: &[Lexeme]) -> Option<(Lexeme, &[Lexeme])>
    ensures { Next mark result lexemes.now }
{
    match split(lexemes) {
        None => None,
        Some((o, rest)) => {
            if fits(mark, o.kind) {
                Some((o, rest))
            } else {
                None
            }
        }
    }
}
