//! Whether numbers in a type file agree: of arguments, of fields and of parameters, and the limits of
//! an item.
#![tactic(auto)]

mod count;
mod fields;
mod items;
mod known;
mod regions;
mod types;

pub use items::wrong_arity;
