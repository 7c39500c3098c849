//! The types of functions in type files: the grammar, and its reader.
//!
//! The type of a function of C says what its arguments are, which conditions hold of them, and what it
//! gives.
#![tactic(auto)]

mod args;
mod functions;
mod reader;
mod result;

pub use args::function_name;
pub use reader::func;
