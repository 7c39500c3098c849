ghost use Rattle.std.specs.Prelude.{◌↔◌, ◌<◌, IsTrue};
ghost use Rattle.cx_ctree.specs.Exprs.{expr_tree};
ghost use Rattle.cx_ctree.specs.Path.{expr_path};

use crate::ctype::CType;
use cx_base::{CInt, List, Span};

/// A unary operator that gives a number (C11 6.5.3.3).
#[derive(Clone, Copy, Debug, PartialEq, Eq)]
pub enum Unary {
    Plus,
    Neg,
    /// `~`
    Compl,
    /// `!`
    Not,
}

/// A binary operator (C11 6.5.5 to 6.5.14).
#[derive(Clone, Copy, Debug, PartialEq, Eq)]
pub enum Binary {
    Mul,
    Div,
    Rem,
    Add,
    Sub,
    Shl,
    Shr,
    Lt,
    Gt,
    Le,
    Ge,
    Eq,
    Ne,
    BitAnd,
    BitXor,
    BitOr,
    And,
    Or,
}

/// An expression. Its type is Void until the types of its function's body are known.
#[cycle(expr)]
#[derive(Debug, Drop)]
pub struct Expr {
    pub span: Span,
    pub ctype: CType,
    pub kind: ExprKind,
}

/// What an expression is. A name stands as its number in the names of its unit.
#[cycle(expr)]
#[derive(Debug, Drop)]
pub enum ExprKind {
    /// A constant, with its type.
    Num(i128, CInt),
    /// A name that is not looked up yet.
    Name(u32),
    /// A parameter or declared variable of the function, by its number.
    Local(u32),
    /// An object of the file, by its name.
    Global(u32),
    Unary(Unary, Box<Expr>),
    Binary(Binary, Box<Expr>, Box<Expr>),
    /// `a ? b : c`
    Cond(Box<Expr>, Box<Expr>, Box<Expr>),
    Cast(CType, Box<Expr>),
    SizeOf(CType),
    SizeOfExpr(Box<Expr>),
    /// `a[b]`
    Index(Box<Expr>, Box<Expr>),
    /// `a.m`
    Member(Box<Expr>, u32),
    /// `a->m`
    Arrow(Box<Expr>, u32),
    /// `*a`
    Deref(Box<Expr>),
    /// `&a`
    Address(Box<Expr>),
}

/// A call of the function of this name.
#[derive(Debug, Drop)]
pub struct Call {
    pub span: Span,
    pub name: u32,
    pub args: List<Expr>,
}

/// The right side of an assignment, an initialiser or a returned value: an expression, or a call,
/// with the type of a cast that stands before it.
#[derive(Debug, Drop)]
pub enum Rhs {
    Value(Expr),
    Call(Call, Option<CType>),
}

/// What a statement does that is neither a declaration nor a turn in the flow.
#[derive(Debug, Drop)]
pub enum Effect {
    /// `l = r`. The span goes from its first to its last token.
    Set(Expr, Rhs, Span),
    /// `l op= e`, where `l++` and `++l` are `l += 1`. The span goes from its first to its last token.
    Update(Binary, Expr, Expr, Span),
    Call(Call),
    /// An expression whose value nothing takes.
    Value(Expr),
}

impl Expr {
    /// Whether its longest path has more than so many nodes, which are expressions and types.
    pub fn exceeds(&self, nodes: u32) -> bool
        ensures { IsTrue result ↔ (nodes < expr_path (expr_tree self.now)) }
    {
        if nodes == 0 {
            return true;
        }
        let below = nodes - 1;
        match &self.kind {
            ExprKind::Num(_, _) | ExprKind::Name(_) | ExprKind::Local(_) | ExprKind::Global(_) => {
                false
            }
            ExprKind::SizeOf(ctype) => ctype.exceeds(below),
            ExprKind::Cast(ctype, a) => ctype.exceeds(below) || a.exceeds(below),
            ExprKind::Unary(_, a) | ExprKind::SizeOfExpr(a) => a.exceeds(below),
            ExprKind::Member(a, _) | ExprKind::Arrow(a, _) => a.exceeds(below),
            ExprKind::Deref(a) | ExprKind::Address(a) => a.exceeds(below),
            ExprKind::Binary(_, a, b) => a.exceeds(below) || b.exceeds(below),
            ExprKind::Index(a, b) => a.exceeds(below) || b.exceeds(below),
            ExprKind::Cond(a, b, c) => a.exceeds(below) || b.exceeds(below) || c.exceeds(below),
        }
    }
}
