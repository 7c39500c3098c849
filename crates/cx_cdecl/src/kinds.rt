// What a lexeme can be at each place of a declaration.

ghost use Rattle.std.specs.Prelude.{◌≡◌, option_map};
ghost use Rattle.cx_cword.specs.Reading as lexeme;
ghost use Rattle.cx_cdecl.specs.Declarations as grammar;
ghost use Rattle.cx_cdecl.specs.Kinds as spec;
ghost use Rattle.cx_cdecl.specs.Reading.{said_tree};

use cx_cword::{Keyword, LexemeKind, Mark, Punctuator};

/// What begins the words of a type.
#[derive(Clone, Copy, Debug, PartialEq, Eq)]
pub enum Head {
    /// `struct`, or `union` where it is true.
    Record(bool),
    Enum,
    Other,
}

/// What a lexeme is among attributes.
#[derive(Clone, Copy, Debug, PartialEq, Eq)]
pub enum Bracket {
    Plain,
    /// A bracket that this one closes.
    Open(Mark),
    /// A bracket that closes, or a name that as an attribute changes a type.
    Stop,
}

/// What the words beside a type say.
#[derive(Clone, Copy, Debug, PartialEq, Eq)]
pub struct Said {
    pub typedef_: bool,
    /// `extern` or `static`
    pub linked: bool,
    /// Any word of storage, or `inline`.
    pub stored: bool,
    /// Whether a list of attributes stands there.
    pub attributed: bool,
}

pub fn nothing_said() -> Said
    ensures { said_tree result ≡ grammar.nothing_said }
{
    Said {
        typedef_: false,
        linked: false,
        stored: false,
        attributed: false,
    }
}

pub fn both_said(a: Said, b: Said) -> Said
    ensures { said_tree result ≡ grammar.both_said (said_tree a) (said_tree b) }
{
    Said {
        typedef_: a.typedef_ || b.typedef_,
        linked: a.linked || b.linked,
        stored: a.stored || b.stored,
        attributed: a.attributed || b.attributed,
    }
}

/// What the word adds to what those before it say.
fn also_said(word: Keyword, said: Said) -> Option<Said>
    ensures { option_map said_tree result ≡ grammar.also_said word (said_tree said) }
{
    match word {
        Keyword::Typedef => Some(Said {
            typedef_: true,
            stored: true,
            ..said
        }),
        Keyword::Extern | Keyword::Static => Some(Said {
            linked: true,
            stored: true,
            ..said
        }),
        Keyword::Inline | Keyword::Register => Some(Said {
            stored: true,
            ..said
        }),
        Keyword::Skipped => Some(said),
        _ => None,
    }
}

pub fn also_says(kind: LexemeKind, said: Said) -> Option<Said>
    ensures { option_map said_tree result ≡ spec.also_says kind (said_tree said) }
{
    match kind {
        LexemeKind::Keyword(word) => also_said(word, said),
        _ => None,
    }
}

pub fn is_attribute(kind: LexemeKind) -> bool
    ensures { result ≡ spec.is_attribute kind }
{
    match kind {
        LexemeKind::Keyword(Keyword::Attribute) => true,
        _ => false,
    }
}

pub fn is_after(kind: LexemeKind) -> bool
    ensures { result ≡ spec.is_after kind }
{
    match kind {
        LexemeKind::Keyword(Keyword::Attribute) => true,
        LexemeKind::Keyword(Keyword::Asm) => true,
        _ => false,
    }
}

pub fn is_void(kind: LexemeKind) -> bool
    ensures { result ≡ grammar.is_void_word kind }
{
    match kind {
        LexemeKind::Keyword(Keyword::Void) => true,
        _ => false,
    }
}

pub fn is_tag_word(kind: LexemeKind) -> bool
    ensures { result ≡ grammar.is_tag_word kind }
{
    match kind {
        LexemeKind::Keyword(Keyword::Struct) => true,
        LexemeKind::Keyword(Keyword::Union) => true,
        LexemeKind::Keyword(Keyword::Enum) => true,
        _ => false,
    }
}

/// The number of a name.
pub fn name_of(kind: LexemeKind) -> Option<u32>
    ensures { result ≡ lexeme.name_of kind }
{
    match kind {
        LexemeKind::Name(n) | LexemeKind::Attributive(n) => n,
        _ => None,
    }
}

fn head_word(word: Keyword) -> Head
    ensures { result ≡ spec.head_word word }
{
    match word {
        Keyword::Struct => Head::Record(false),
        Keyword::Union => Head::Record(true),
        Keyword::Enum => Head::Enum,
        _ => Head::Other,
    }
}

/// What begins the words of a type.
pub fn head_of(kind: LexemeKind) -> Head
    ensures { result ≡ spec.head_of kind }
{
    match kind {
        LexemeKind::Keyword(word) => head_word(word),
        _ => Head::Other,
    }
}

fn bracket_by(mark: Punctuator) -> Bracket
    ensures { result ≡ spec.bracket_by mark }
{
    match mark {
        Punctuator::OpenParen => Bracket::Open(Mark::CloseParen),
        Punctuator::OpenBracket => Bracket::Open(Mark::CloseBracket),
        Punctuator::OpenBrace => Bracket::Open(Mark::CloseBrace),
        Punctuator::CloseParen => Bracket::Stop,
        Punctuator::CloseBracket => Bracket::Stop,
        Punctuator::CloseBrace => Bracket::Stop,
        _ => Bracket::Plain,
    }
}

/// What a lexeme is among attributes.
pub fn bracket_of(kind: LexemeKind) -> Bracket
    ensures { result ≡ spec.bracket_of kind }
{
    match kind {
        LexemeKind::Punctuator(mark) => bracket_by(mark),
        LexemeKind::Attributive(_) => Bracket::Stop,
        _ => Bracket::Plain,
    }
}
