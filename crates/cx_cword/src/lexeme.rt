ghost use Rattle.std.specs.Prelude.{◌≡◌, ◌<◌, ◌≤◌, ◌^◌, length, All, IfOk, IfSome};
ghost use Rattle.cx_cword.specs.Words.{same_text};
ghost use Rattle.cx_base.specs.declared.token.TokenKind.TheVariants as t;
ghost use Rattle.cx_cword.specs.Lexemes as spec;

use crate::character::char_of;
use crate::integer::{int_of, signed_int};
use crate::word::{Keyword, Punctuator, keyword_of, punctuator_of, same_text};
use cx_base::{CInt, List, Names, NoMemory, Span, Token, TokenKind};
use std::alloc::Global;

/// What a token is for the grammar.
#[derive(Clone, Copy, Debug, PartialEq, Eq)]
pub enum LexemeKind {
    Keyword(Keyword),
    Punctuator(Punctuator),
    /// An integer constant or a character constant, with its value and its type.
    Constant(i128, CInt),
    /// A name with its number, if it has one.
    Name(Option<u32>),
    /// A name that as an attribute would change a type.
    Attributive(Option<u32>),
    /// What the grammar has no place for: a string literal, or another constant.
    Other,
}

/// A token as the grammar sees it: the piece of the text that it is, and what it is.
#[derive(Clone, Copy, Debug, PartialEq, Eq)]
pub struct Lexeme {
    pub span: Span,
    pub kind: LexemeKind,
}

#[tactic(auto, unfolding(crate::specs::Lexemes::changes_type))]
fn changes_type(text: &[u8]) -> bool
    ensures { result ≡ spec.changes_type text.now }
{
    same_text(text, b"mode")
        || same_text(text, b"__mode__")
        || same_text(text, b"vector_size")
        || same_text(text, b"__vector_size__")
}

fn word_kind(names: &Names, text: &[u8]) -> LexemeKind
    ensures { result ≡ spec.kind_of names.now t.Name text.now }
{
    match keyword_of(text) {
        Some(keyword) => LexemeKind::Keyword(keyword),
        None => {
            let number = names.number_of(text);
            if changes_type(text) {
                LexemeKind::Attributive(number)
            } else {
                LexemeKind::Name(number)
            }
        }
    }
}

fn number_kind(constant: Option<(u128, CInt)>) -> LexemeKind
    requires { IfSome constant (λ c. c.0 < 2 ^ 64) }
    ensures { result ≡ spec.number_kind constant }
{
    match constant {
        Some((value, ctype)) => LexemeKind::Constant(value as i128, ctype),
        None => LexemeKind::Other,
    }
}

fn char_kind(constant: Option<i128>) -> LexemeKind
    ensures { result ≡ spec.char_kind constant }
{
    match constant {
        Some(value) => LexemeKind::Constant(value, signed_int()),
        None => LexemeKind::Other,
    }
}

fn punctuator_kind(punctuator: Option<Punctuator>) -> LexemeKind
    ensures { result ≡ spec.punctuator_kind punctuator }
{
    match punctuator {
        Some(punctuator) => LexemeKind::Punctuator(punctuator),
        None => LexemeKind::Other,
    }
}

fn kind_of(names: &Names, kind: TokenKind, text: &[u8]) -> LexemeKind
    ensures { result ≡ spec.kind_of names.now kind text.now }
{
    match kind {
        TokenKind::Name => word_kind(names, text),
        TokenKind::Number => number_kind(int_of(text)),
        TokenKind::Char => char_kind(char_of(text)),
        TokenKind::Text => LexemeKind::Other,
        TokenKind::Punct => punctuator_kind(punctuator_of(text)),
    }
}

// What the token of the text is for the grammar, where `names` numbers the names.
fn lexeme_of(names: &Names, bytes: &[u8], token: Token) -> Lexeme
    requires { token.span.past ≤ length bytes.now }
    ensures { result ≡ spec.lexeme_of names.now bytes.now token }
{
    let text = &bytes[token.span.first as usize..token.span.past as usize];
    Lexeme {
        span: token.span,
        kind: kind_of(names, token.kind, text),
    }
}

/// What each of the tokens of the text is for the grammar, where `names` numbers the names.
pub fn lexemes(
    alloc: Global,
    names: &Names,
    bytes: &[u8],
    tokens: &[Token],
) -> Result<List<Lexeme>, NoMemory>
    requires { All (λ t. t.span.past ≤ length bytes.now) tokens.now }
    ensures { IfOk result (λ ls. ls ≡ spec.lexemes names.now bytes.now tokens.now) }
{
    let mut lexemes = List::new(alloc);
    for token in tokens {
        lexemes.push(lexeme_of(names, bytes, *token))?;
    }
    Ok(lexemes)
}
