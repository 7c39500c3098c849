//! Abstract states with an index of their cells, so that the cells of one symbol are found without
//! going through all of them.
#![tactic(auto)]

mod index;
mod packed;

pub use packed::{PackFault, Packed, pack};
