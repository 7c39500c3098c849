//! Statements of C (C11 6.8): the grammar, and its readers.
#![tactic(auto)]

mod header;
mod kinds;
mod label;
mod local;
mod make;
mod read;

pub use make::{ReadStmt, ReadStmts, Stmts};
pub use read::{block, stmt};
