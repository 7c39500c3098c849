//! What type files mean.
#![tactic(auto)]

mod law;

pub use law::{holds_in_fixed_size, holds_in_more_regions};
