//! What linear forms of a type file come to as whole numbers.
#![tactic(auto)]

mod forms;
mod sums;
mod whole;

pub use forms::{has_symbol, is_whole, number_of};
pub use sums::{Sums, sums_of};
