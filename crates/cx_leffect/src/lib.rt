//! The code of effects and right sides, made line by line.
#![tactic(auto)]

mod effect;

pub use effect::{emit_effect, emit_right};
