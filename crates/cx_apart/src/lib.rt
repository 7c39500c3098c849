//! When two spots are shown to have no byte in common, and the state in which a cell is put.
#![tactic(auto)]

mod putting;
mod showing;
mod spots;

pub use putting::{drop_spot, put_cell, with_cell};
pub use showing::{apart, regions_apart};
pub use spots::Spot;
