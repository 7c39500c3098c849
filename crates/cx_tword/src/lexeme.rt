ghost use Rattle.std.specs.Prelude.{◌≡◌, ◌<◌, ◌≤◌, ◌^◌, length, All, IfOk, IfSome};
ghost use Rattle.cx_base.specs.declared.token.TokenKind.TheVariants as t;
ghost use Rattle.cx_tword.specs.Lexemes as spec;

use crate::size::number_after;
use crate::word::{TypeWord, type_word_of};
use cx_base::{CInt, List, Names, NoMemory, Span, Token, TokenKind};
use cx_cword::{LexemeKind, Punctuator, int_of, keyword_of, punctuator_of};
use std::alloc::Global;

/// What a token of a type file is for the grammar.
#[derive(Clone, Copy, Debug, PartialEq, Eq)]
pub enum TypeLexemeKind {
    /// A reserved word without a size.
    Word(TypeWord),
    /// `anyK`: any K bytes, where K is from 1 to 4096.
    AnyBytes(u32),
    /// `uK`: an unsigned number of K bytes, where K is 1, 2, 4 or 8.
    Unsigned(u8),
    /// `sK`: a signed number of K bytes, where K is 1, 2, 4 or 8.
    Signed(u8),
    /// `any`, `u` or `s` with another size, as `any0` and `u3`: a reserved word that is no cell.
    OtherSize,
    /// A name: a word that is not reserved.
    Name,
    /// An integer constant of C (C11 6.4.4.1) with its value, which is from 0 up to below 2^64.
    Number(i128),
    Punctuator(Punctuator),
    /// What the grammar has no place for: a constant that is no integer, or a string literal.
    Other,
}

/// A token as the grammar of type files sees it: the piece of the text that it is, what it is, and what it
/// is in a type of C.
#[derive(Clone, Copy, Debug, PartialEq, Eq)]
pub struct TypeLexeme {
    pub span: Span,
    pub kind: TypeLexemeKind,
    /// A keyword, a punctuator, or a name with its number in the C file, if it has one there; `Other` for
    /// a constant and a string literal.
    pub c_kind: LexemeKind,
}

fn any_kind(size: u32) -> TypeLexemeKind
    ensures { result ≡ spec.any_kind size }
{
    if 1 <= size && size <= 4096 {
        TypeLexemeKind::AnyBytes(size)
    } else {
        TypeLexemeKind::OtherSize
    }
}

fn unsigned_kind(size: u32) -> TypeLexemeKind
    ensures { result ≡ spec.unsigned_kind size }
{
    match size {
        1 | 2 | 4 | 8 => TypeLexemeKind::Unsigned(size as u8),
        _ => TypeLexemeKind::OtherSize,
    }
}

fn signed_kind(size: u32) -> TypeLexemeKind
    ensures { result ≡ spec.signed_kind size }
{
    match size {
        1 | 2 | 4 | 8 => TypeLexemeKind::Signed(size as u8),
        _ => TypeLexemeKind::OtherSize,
    }
}

fn name_kind(text: &[u8]) -> TypeLexemeKind
    ensures { result ≡ spec.kind_of t.Name text.now }
{
    if let Some(word) = type_word_of(text) {
        return TypeLexemeKind::Word(word);
    }
    if let Some(size) = number_after(b"any", text) {
        return any_kind(size);
    }
    if let Some(size) = number_after(b"u", text) {
        return unsigned_kind(size);
    }
    if let Some(size) = number_after(b"s", text) {
        return signed_kind(size);
    }
    TypeLexemeKind::Name
}

fn number_kind(constant: Option<(u128, CInt)>) -> TypeLexemeKind
    requires { IfSome constant (λ c. c.0 < 2 ^ 64) }
    ensures { result ≡ spec.number_kind constant }
{
    match constant {
        Some((value, _)) => TypeLexemeKind::Number(value as i128),
        None => TypeLexemeKind::Other,
    }
}

fn punctuator_kind(punctuator: Option<Punctuator>) -> TypeLexemeKind
    ensures { result ≡ spec.punctuator_kind punctuator }
{
    match punctuator {
        Some(punctuator) => TypeLexemeKind::Punctuator(punctuator),
        None => TypeLexemeKind::Other,
    }
}

fn kind_of(kind: TokenKind, text: &[u8]) -> TypeLexemeKind
    ensures { result ≡ spec.kind_of kind text.now }
{
    match kind {
        TokenKind::Name => name_kind(text),
        TokenKind::Number => number_kind(int_of(text)),
        TokenKind::Punct => punctuator_kind(punctuator_of(text)),
        TokenKind::Char | TokenKind::Text => TypeLexemeKind::Other,
    }
}

fn c_word(names: &Names, text: &[u8]) -> LexemeKind
    ensures { result ≡ spec.c_kind_of names.now t.Name text.now }
{
    match keyword_of(text) {
        Some(keyword) => LexemeKind::Keyword(keyword),
        None => LexemeKind::Name(names.number_of(text)),
    }
}

fn c_punctuator(punctuator: Option<Punctuator>) -> LexemeKind
    ensures { result ≡ spec.c_punctuator punctuator }
{
    match punctuator {
        Some(punctuator) => LexemeKind::Punctuator(punctuator),
        None => LexemeKind::Other,
    }
}

fn c_kind_of(names: &Names, kind: TokenKind, text: &[u8]) -> LexemeKind
    ensures { result ≡ spec.c_kind_of names.now kind text.now }
{
    match kind {
        TokenKind::Name => c_word(names, text),
        TokenKind::Punct => c_punctuator(punctuator_of(text)),
        TokenKind::Number | TokenKind::Char | TokenKind::Text => LexemeKind::Other,
    }
}

fn type_lexeme_of(names: &Names, bytes: &[u8], token: Token) -> TypeLexeme
    requires { token.span.past ≤ length bytes.now }
    ensures { result ≡ spec.type_lexeme_of names.now bytes.now token }
{
    let text = &bytes[token.span.first as usize..token.span.past as usize];
    TypeLexeme {
        span: token.span,
        kind: kind_of(token.kind, text),
        c_kind: c_kind_of(names, token.kind, text),
    }
}

/// What each of the tokens of the text of a type file is for the grammar, in order, where `names` numbers
/// the names of the C file.
pub fn type_lexemes(
    alloc: Global,
    names: &Names,
    bytes: &[u8],
    tokens: &[Token],
) -> Result<List<TypeLexeme>, NoMemory>
    requires { All (λ t. t.span.past ≤ length bytes.now) tokens.now }
    ensures { IfOk result (λ ls. ls ≡ spec.type_lexemes names.now bytes.now tokens.now) }
{
    let mut lexemes = List::new(alloc);
    for token in tokens {
        lexemes.push(type_lexeme_of(names, bytes, *token))?;
    }
    Ok(lexemes)
}
