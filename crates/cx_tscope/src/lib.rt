//! The names that may be used where a text stands in a type file, and the first of the faults of a
//! condition.
#![tactic(auto)]

mod scope;

pub use scope::{Scope, unknown_word};
