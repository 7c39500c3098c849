//! Code that is made line by line.
#![tactic(auto)]

mod builder;
mod lines;

pub use builder::{Builder, line, start};
pub use lines::{convert, further, object, scale, truth};
