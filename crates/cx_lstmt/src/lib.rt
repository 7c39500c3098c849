//! The code of statements, made line by line.
#![tactic(auto)]

mod statement;

pub use statement::emit_stmt;
