//! The trees of C as texts, for the tests that compare them.
#![tactic(auto)]

mod expr;
mod item;
mod stmt;

pub use expr::{expr_text, name, type_text};
pub use item::{decl_text, items_text};
pub use stmt::stmt_text;
