//! The symbols of a type file that nothing determines: those that no cell holds whole, and arrays and
//! cases where they may not stand.
#![tactic(auto)]

mod has_cases;
mod items;
mod left;
mod occurs;
mod place;
mod types;
mod use_of;

pub use items::undetermined;
