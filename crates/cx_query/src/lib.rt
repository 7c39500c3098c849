//! What an abstract state says of a form: the numbers that it may be, the region that it points into,
//! and whether it is shown to be of a kind. No call of this crate takes memory.
#![tactic(auto)]

mod bounding;
mod forms;
mod kinds;
mod pointing;

pub use bounding::range_of;
pub use forms::{at_least, at_most, difference, number, shown_equal, shown_in, shown_zero, sum};
pub use kinds::{in_type, shown, shown_with, shown_with_but};
pub use pointing::{base, point, point_but};
