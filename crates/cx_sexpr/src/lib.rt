//! The types of expressions of C (C11 6.5).
#![tactic(auto)]

mod name;
mod walk;

pub use walk::typed;
