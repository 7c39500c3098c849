//! When what a state knows of the bytes of a region shows its type. No call of this crate takes memory.
#![tactic(auto)]

mod cells;
mod closing;
mod knowing;

pub use closing::close;
pub use knowing::{known_binder, known_cell, place_of};
