//! How many bytes and cells the types of a type file have beside those of C, and the first part of a
//! type whose size is wrong.
#![tactic(auto)]

mod amount;
mod cells;
mod known;
mod measure;

pub use amount::{Amount, Judged, few_cells};
pub use cells::{bad_cell, is_scalar, size_of_kind};
pub use known::{Known, function_of, object_of, size_in};
pub use measure::{judged, judged_atom};
