use crate::word::Word;
use cx_base::{List, Span};

/// A part of a linear form, without the sign before it.
#[derive(Debug, Drop)]
pub enum LinPart {
    /// A number. The grammar writes it without a sign.
    Number(i128),
    /// A number times a symbol, `3 * n`.
    Times(i128, Word),
    /// A symbol.
    Symbol(Word),
}

/// A linear form as it is written: parts, each but the first behind a plus or a minus.
#[derive(Debug, Drop)]
pub struct Lin {
    /// From its first token, which may be a minus, to its last.
    pub span: Span,
    /// Whether a minus stands before the first part.
    pub negative: bool,
    /// The first part.
    pub first: LinPart,
    /// The parts after it in order, each with whether the sign before it is a minus.
    pub rest: List<(bool, LinPart)>,
}

/// How a relation compares its sides.
#[derive(Clone, Copy, Debug, PartialEq, Eq)]
pub enum SRel {
    /// `==`
    Eq,
    /// `!=`
    Ne,
    /// `<`
    Lt,
    /// `<=`
    Le,
    /// `>`
    Gt,
    /// `>=`
    Ge,
}

/// A relation of two linear forms.
#[derive(Debug, Drop)]
pub struct Relation {
    /// The linear form before the sign of comparison.
    pub left: Lin,
    /// The sign of comparison.
    pub rel: SRel,
    /// The linear form after it.
    pub right: Lin,
}
