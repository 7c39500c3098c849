//! The names of a type file that are declared twice.
#![tactic(auto)]

mod items;
mod seen;
mod types;

pub use items::doubled_name;
