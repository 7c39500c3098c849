//! How deep the brackets of a type file are nested.
#![tactic(auto)]

mod deep;

pub use deep::first_deep;
