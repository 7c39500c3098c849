//! The rules by sorts of the straight-line form, and what they promise: a function that raises no
//! alarm is safe over every memory whose regions hold their types.
#![tactic(auto)]

mod check;
mod layout;
mod names;
mod rules;
mod verdict;

pub use check::check_function;
pub use verdict::{Access, Condition, Verdict};
