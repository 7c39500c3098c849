// What a lexeme can be at each place of a statement.

ghost use Rattle.std.specs.Prelude.{◌≡◌};
ghost use Rattle.cx_cname.specs.Known.{known_of};
ghost use Rattle.cx_cstmt.specs.Kinds as spec;

use cx_ceffect::calls;
use cx_cexpr::begins_type;
use cx_ctree::Unit;
use cx_cword::{Keyword, Lexeme, LexemeKind, Mark, Punctuator, fits, split};

/// What begins a statement.
#[derive(Clone, Copy, Debug, PartialEq, Eq)]
pub enum Head {
    Block,
    Empty,
    If,
    While,
    Do,
    For,
    Switch,
    Break,
    Continue,
    Return,
    Other,
}

/// What begins a label.
#[derive(Clone, Copy, Debug, PartialEq, Eq)]
pub enum Label {
    Case,
    Default,
    Other,
}

pub fn head_of(kind: LexemeKind) -> Head
    ensures { result ≡ spec.head_of kind }
{
    match kind {
        LexemeKind::Punctuator(Punctuator::OpenBrace) => Head::Block,
        LexemeKind::Punctuator(Punctuator::Semicolon) => Head::Empty,
        LexemeKind::Keyword(Keyword::If) => Head::If,
        LexemeKind::Keyword(Keyword::While) => Head::While,
        LexemeKind::Keyword(Keyword::Do) => Head::Do,
        LexemeKind::Keyword(Keyword::For) => Head::For,
        LexemeKind::Keyword(Keyword::Switch) => Head::Switch,
        LexemeKind::Keyword(Keyword::Break) => Head::Break,
        LexemeKind::Keyword(Keyword::Continue) => Head::Continue,
        LexemeKind::Keyword(Keyword::Return) => Head::Return,
        _ => Head::Other,
    }
}

pub fn label_of(kind: LexemeKind) -> Label
    ensures { result ≡ spec.label_of kind }
{
    match kind {
        LexemeKind::Keyword(Keyword::Case) => Label::Case,
        LexemeKind::Keyword(Keyword::Default) => Label::Default,
        _ => Label::Other,
    }
}

fn is_label(label: Label) -> bool
    ensures { result ≡ spec.is_label label }
{
    match label {
        Label::Case | Label::Default => true,
        Label::Other => false,
    }
}

/// Whether the first lexeme begins a label.
pub fn begins_label(lexemes: &[Lexeme]) -> bool
    ensures { result ≡ spec.begins_label lexemes.now }
{
    match split(lexemes) {
        None => false,
        Some((o, _)) => is_label(label_of(o.kind)),
    }
}

/// Whether the lexeme ends the statements of a group.
pub fn ends_group(kind: LexemeKind) -> bool
    ensures { result ≡ spec.ends_group kind }
{
    fits(Mark::CloseBrace, kind) || is_label(label_of(kind))
}

fn is_storage(kind: LexemeKind) -> bool
    ensures { result ≡ spec.is_storage kind }
{
    match kind {
        LexemeKind::Keyword(Keyword::Typedef) => true,
        LexemeKind::Keyword(Keyword::Extern) => true,
        LexemeKind::Keyword(Keyword::Static) => true,
        LexemeKind::Keyword(Keyword::Inline) => true,
        LexemeKind::Keyword(Keyword::Register) => true,
        _ => false,
    }
}

/// Whether a declaration of a block begins so. A type's name that is called begins none.
pub fn begins_local(known: &Unit, lexemes: &[Lexeme]) -> bool
    ensures { result ≡ spec.begins_local (known_of known.now) lexemes.now }
{
    match split(lexemes) {
        None => false,
        Some((o, _)) => (is_storage(o.kind) || begins_type(known, lexemes)) && !calls(lexemes),
    }
}
