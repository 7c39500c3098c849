//! The trees of C: types, expressions, statements, declarations and the items of a file.
//!
//! Contracts see each tree as plain data, by the functions `type_tree`, `expr_tree`, `stmt_tree`
//! and their kin in `specs/`.
#![tactic(auto)]

mod ctype;
mod decl;
mod expr;
mod extent;
mod stmt;
mod unit;

pub use ctype::CType;
pub use cx_base::{Token, TokenKind};
pub use decl::{Decl, Function, Item, Member, Param, Signature, Tag, Typed};
pub use expr::{Binary, Call, Effect, Expr, ExprKind, Rhs, Unary};
pub use extent::{Extent, MOST_BYTES};
pub use stmt::{Group, Stmt, StmtKind};
pub use unit::Unit;
