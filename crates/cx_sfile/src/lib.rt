//! A C file whose ordinary names and members are found without a search.
#![tactic(auto)]

mod file;
mod fill;
mod members;

pub use file::File;
pub use fill::file_of;
