//! That the numbers in what a C file is read as are small.
#![tactic(auto)]

mod law;

pub use law::read_is_small;
