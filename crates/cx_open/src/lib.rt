//! What a state becomes when a part of a region is opened: what its form says of the bytes is added.
#![tactic(auto)]

mod cells;
mod naming;
mod parts;

pub use cells::learn_all;
pub use naming::{Factual, Named, Opening};
pub use parts::open_part;
