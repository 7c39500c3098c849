//! The types in statements of C (C11 6.8).
#![tactic(auto)]

mod around;
mod flow;
mod join;
mod label;
mod make;
mod variable;
mod walk;

pub use around::Around;
pub use variable::is_variable;
pub use walk::{typed_stmt, typed_stmts};
