// What a lexeme can be at each place of a type or an expression.

ghost use Rattle.std.specs.Prelude.{◌≡◌};
ghost use Rattle.cx_cword.specs.Reading.{name_of};
ghost use Rattle.cx_cexpr.specs.Expressions as grammar;
ghost use Rattle.cx_cexpr.specs.Kinds as spec;
ghost use Rattle.cx_cexpr.specs.Reading.{Named};

use cx_base::CInt;
use cx_ctree::{Binary, Unary};
use cx_cword::{Keyword, Lexeme, LexemeKind, Punctuator, split};

/// A word of an integer type (C11 6.7.2).
#[derive(Clone, Copy, Debug, PartialEq, Eq)]
pub enum IntWord {
    Char,
    Short,
    Int,
    Long,
    Signed,
    Unsigned,
}

/// What begins the words of a type that is declared before.
#[derive(Clone, Copy, Debug, PartialEq, Eq)]
pub enum Base {
    Void,
    Word(IntWord),
    /// `struct`, or `union` where it is true.
    Tag(bool),
    Enum,
    Name(u32),
    Other,
}

/// What may follow the words of a type in it.
#[derive(Clone, Copy, Debug, PartialEq, Eq)]
pub enum Tail {
    Star,
    Skipped,
    Other,
}

/// A unary operator in front of an operand (C11 6.5.3).
#[derive(Clone, Copy, Debug, PartialEq, Eq)]
pub enum Prefix {
    Number(Unary),
    Deref,
    Address,
}

/// What begins a unary expression.
#[derive(Clone, Copy, Debug, PartialEq, Eq)]
pub enum Head {
    Prefix(Prefix),
    SizeOf,
    Other,
}

/// What follows an expression in a larger one, of those that bind most (C11 6.5.2).
#[derive(Clone, Copy, Debug, PartialEq, Eq)]
pub enum Suffix {
    Index,
    /// `.`, or `->` where it is true.
    Member(bool),
}

/// What begins a primary expression (C11 6.5.1).
#[derive(Clone, Copy, Debug, PartialEq, Eq)]
pub enum Leaf {
    Number(i128, CInt),
    Name(u32),
    Open,
    Other,
}

pub fn name_of(kind: LexemeKind) -> Option<u32>
    ensures { result ≡ name_of kind }
{
    match kind {
        LexemeKind::Name(n) | LexemeKind::Attributive(n) => n,
        _ => None,
    }
}

fn int_word(word: Keyword) -> Option<IntWord>
    ensures { result ≡ spec.int_word word }
{
    match word {
        Keyword::Char => Some(IntWord::Char),
        Keyword::Short => Some(IntWord::Short),
        Keyword::Int => Some(IntWord::Int),
        Keyword::Long => Some(IntWord::Long),
        Keyword::Signed => Some(IntWord::Signed),
        Keyword::Unsigned => Some(IntWord::Unsigned),
        _ => None,
    }
}

pub fn word_of(kind: LexemeKind) -> Option<IntWord>
    ensures { result ≡ spec.word_of kind }
{
    match kind {
        LexemeKind::Keyword(word) => int_word(word),
        _ => None,
    }
}

fn base_word(word: Keyword) -> Base
    ensures { result ≡ spec.base_word word }
{
    match word {
        Keyword::Void => Base::Void,
        Keyword::Struct => Base::Tag(false),
        Keyword::Union => Base::Tag(true),
        Keyword::Enum => Base::Enum,
        _ => match int_word(word) {
            Some(w) => Base::Word(w),
            None => Base::Other,
        },
    }
}

fn base_name(name: Option<u32>) -> Base
    ensures { result ≡ spec.base_name name }
{
    match name {
        Some(n) => Base::Name(n),
        None => Base::Other,
    }
}

pub fn base_of(kind: LexemeKind) -> Base
    ensures { result ≡ spec.base_of kind }
{
    match kind {
        LexemeKind::Keyword(word) => base_word(word),
        LexemeKind::Name(n) | LexemeKind::Attributive(n) => base_name(n),
        _ => Base::Other,
    }
}

pub fn is_skipped(kind: LexemeKind) -> bool
    ensures { result ≡ spec.is_skipped kind }
{
    match kind {
        LexemeKind::Keyword(Keyword::Skipped) => true,
        _ => false,
    }
}

pub fn tail_of(kind: LexemeKind) -> Tail
    ensures { result ≡ spec.tail_of kind }
{
    match kind {
        LexemeKind::Keyword(Keyword::Skipped) => Tail::Skipped,
        LexemeKind::Punctuator(Punctuator::Star) => Tail::Star,
        _ => Tail::Other,
    }
}

fn op_of(mark: Punctuator) -> Option<(u8, Binary)>
    ensures { result ≡ grammar.op_of mark }
{
    match mark {
        Punctuator::Star => Some((1, Binary::Mul)),
        Punctuator::Slash => Some((1, Binary::Div)),
        Punctuator::Percent => Some((1, Binary::Rem)),
        Punctuator::Plus => Some((2, Binary::Add)),
        Punctuator::Minus => Some((2, Binary::Sub)),
        Punctuator::Shl => Some((3, Binary::Shl)),
        Punctuator::Shr => Some((3, Binary::Shr)),
        Punctuator::Less => Some((4, Binary::Lt)),
        Punctuator::Greater => Some((4, Binary::Gt)),
        Punctuator::LessEqual => Some((4, Binary::Le)),
        Punctuator::GreaterEqual => Some((4, Binary::Ge)),
        Punctuator::Equal => Some((5, Binary::Eq)),
        Punctuator::NotEqual => Some((5, Binary::Ne)),
        Punctuator::Ampersand => Some((6, Binary::BitAnd)),
        Punctuator::Caret => Some((7, Binary::BitXor)),
        Punctuator::Bar => Some((8, Binary::BitOr)),
        Punctuator::AndAnd => Some((9, Binary::And)),
        Punctuator::OrOr => Some((10, Binary::Or)),
        _ => None,
    }
}

/// A binary operator with its level.
pub fn op_at(kind: LexemeKind) -> Option<(u8, Binary)>
    ensures { result ≡ spec.op_at kind }
{
    match kind {
        LexemeKind::Punctuator(mark) => op_of(mark),
        _ => None,
    }
}

fn prefix_of(mark: Punctuator) -> Head
    ensures { result ≡ spec.prefix_of mark }
{
    match mark {
        Punctuator::Plus => Head::Prefix(Prefix::Number(Unary::Plus)),
        Punctuator::Minus => Head::Prefix(Prefix::Number(Unary::Neg)),
        Punctuator::Tilde => Head::Prefix(Prefix::Number(Unary::Compl)),
        Punctuator::Bang => Head::Prefix(Prefix::Number(Unary::Not)),
        Punctuator::Star => Head::Prefix(Prefix::Deref),
        Punctuator::Ampersand => Head::Prefix(Prefix::Address),
        _ => Head::Other,
    }
}

pub fn head_of(kind: LexemeKind) -> Head
    ensures { result ≡ spec.head_of kind }
{
    match kind {
        LexemeKind::Keyword(Keyword::SizeOf) => Head::SizeOf,
        LexemeKind::Punctuator(mark) => prefix_of(mark),
        _ => Head::Other,
    }
}

fn suffix_by(mark: Punctuator) -> Option<Suffix>
    ensures { result ≡ spec.suffix_by mark }
{
    match mark {
        Punctuator::OpenBracket => Some(Suffix::Index),
        Punctuator::Dot => Some(Suffix::Member(false)),
        Punctuator::Arrow => Some(Suffix::Member(true)),
        _ => None,
    }
}

pub fn suffix_of(kind: LexemeKind) -> Option<Suffix>
    ensures { result ≡ spec.suffix_of kind }
{
    match kind {
        LexemeKind::Punctuator(mark) => suffix_by(mark),
        _ => None,
    }
}

fn leaf_name(name: Option<u32>) -> Leaf
    ensures { result ≡ spec.leaf_name name }
{
    match name {
        Some(n) => Leaf::Name(n),
        None => Leaf::Other,
    }
}

pub fn leaf_of(kind: LexemeKind) -> Leaf
    ensures { result ≡ spec.leaf_of kind }
{
    match kind {
        LexemeKind::Constant(v, t) => Leaf::Number(v, t),
        LexemeKind::Name(n) | LexemeKind::Attributive(n) => leaf_name(n),
        LexemeKind::Punctuator(Punctuator::OpenParen) => Leaf::Open,
        _ => Leaf::Other,
    }
}

/// The first lexeme, where it is a name, its number, and the lexemes after it.
pub fn named(lexemes: &[Lexeme]) -> Option<(Lexeme, u32, &[Lexeme])>
    ensures { Named result lexemes.now }
{
    match split(lexemes) {
        None => None,
        Some((o, rest)) => match name_of(o.kind) {
            None => None,
            Some(n) => Some((o, n, rest)),
        },
    }
}
