//! The code of expressions, made line by line.
#![tactic(auto)]

mod part;
mod value;

pub use value::{emit_place, emit_test, emit_val};
