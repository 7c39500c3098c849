use cx_base::{List, Span};

/// An access that the rules show to lie in a region.
#[derive(Clone, Copy, Debug, PartialEq, Eq)]
pub struct Access {
    /// The expression `p->m`.
    pub span: Span,
    /// The place of the region's type in the type file, counted from 0.
    pub name: u32,
}

/// A condition that the rules do not show.
#[derive(Clone, Copy, Debug, PartialEq, Eq)]
pub struct Condition {
    /// Its number, as in the report: 2 for `C2`.
    pub number: u8,
    /// The access `p->m`, or the `return` statement.
    pub span: Span,
}

/// What the rules say of a function.
#[derive(Debug, Drop)]
pub struct Verdict {
    /// The accesses up to the first alarm, in the order of the text.
    pub accesses: List<Access>,
    /// The first condition that is not shown; None where the function is accepted.
    pub alarm: Option<Condition>,
}

/// What is known of a variable's value.
#[derive(Clone, Copy, Debug, PartialEq, Eq)]
pub enum Sort {
    /// Nothing.
    Any,
    /// It is the base of a region whose type stands at this place of the type file.
    Pointer(u32),
}
