//! Ranges of symbols, and what they show of linear forms together with known conditions.
#![tactic(auto)]

mod bounding;
mod joining;
mod meeting;
mod multiples;
mod range;
mod showing;

pub use bounding::{bounds, remainder};
pub use range::Range;
pub use showing::{shows, shows_nonzero};
