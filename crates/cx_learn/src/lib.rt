//! What an abstract state becomes when a condition is learnt.
#![tactic(auto)]

mod bounds;
mod learning;

pub use learning::{learn, learn_if, nonzero_in};
