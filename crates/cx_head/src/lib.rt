//! What a state becomes when the head of a region, or an element of its tail, is opened.
#![tactic(auto)]

mod branches;
mod heads;
mod opening;

pub use opening::{FocusFault, open};
