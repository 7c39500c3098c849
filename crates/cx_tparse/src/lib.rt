//! The text of a type file: its tree, or its first fault.
#![tactic(auto)]

mod fault;
mod text;

pub use fault::ParseFault;
pub use text::parse;
