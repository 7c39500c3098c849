use crate::ctype::CType;
use crate::expr::{Effect, Expr, Rhs};
use cx_base::{List, Span};

/// A part of a `switch`: labels, and the statements from them on up to the next labels.
#[cycle(stmt)]
#[derive(Debug, Drop)]
pub struct Group {
    /// The value of each `case`; None for `default`.
    pub labels: List<Option<Expr>>,
    pub body: List<Stmt>,
}

/// A statement.
#[cycle(stmt)]
#[derive(Debug, Drop)]
pub struct Stmt {
    pub span: Span,
    pub kind: StmtKind,
}

/// What a statement is (C11 6.8).
#[cycle(stmt)]
#[derive(Debug, Drop)]
pub enum StmtKind {
    Block(List<Stmt>),
    Empty,
    Effect(Effect),
    /// A variable of a block: its name, or its number once the types of the body are known, then
    /// its type and its initialiser.
    Declare(u32, CType, Option<Rhs>),
    If(Expr, Box<Stmt>, Option<Box<Stmt>>),
    While(Expr, Box<Stmt>),
    DoWhile(Box<Stmt>, Expr),
    /// The declarations or effects before a loop, its condition, its steps and its body.
    For(List<Stmt>, Option<Expr>, List<Effect>, Box<Stmt>),
    Switch(Expr, List<Group>),
    Break,
    Continue,
    Return(Option<Rhs>),
}
