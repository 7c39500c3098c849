//! The reader of type files: the tree of a text that keeps all conditions, or the first that fails.
#![tactic(auto)]

mod fault;
mod read;

pub use fault::TypeFault;
pub use read::read_types;
