use crate::span::Span;

/// What a token of C is. Keywords are names here, and so are the words of the language of type files.
#[derive(Clone, Copy, Debug, PartialEq, Eq)]
pub enum TokenKind {
    /// A letter, `_` or `$`, then these or digits.
    Name,
    /// A preprocessing number (C11 6.4.8).
    Number,
    /// A character constant (C11 6.4.4.4), marks included.
    Char,
    /// A string literal (C11 6.4.5), marks included.
    Text,
    /// A punctuator (C11 6.4.6).
    Punct,
}

/// A token of a text: what it is, and which piece of the text it is.
#[derive(Clone, Copy, Debug, PartialEq, Eq)]
pub struct Token {
    pub span: Span,
    pub kind: TokenKind,
}
