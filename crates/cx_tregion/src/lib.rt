//! Regions and globals of type files: the grammar, and its readers.
//!
//! A region item says what the bytes of a kind of region hold. A global item says of which kind the region
//! of an object of C is.
#![tactic(auto)]

mod globals;
mod reader;
mod regions;

pub use reader::{global, region};
