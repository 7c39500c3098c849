//! The locals of a function of C, and the names in scope (C11 6.2.1).
#![tactic(auto)]

mod find;
mod locals;

pub use locals::Locals;
