//! What the names of a file stand for around its functions.
#![tactic(auto)]

mod meaning;

pub use meaning::{Meaning, meaning_of};
