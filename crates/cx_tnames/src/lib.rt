//! The names of a type file that are not known: its regions and symbols, and what it names of the C
//! file.
#![tactic(auto)]

mod cells;
mod items;
mod known;
mod lins;
mod types;

pub use items::unknown_name;
