//! Turns linear forms and relations of a type file into terms and conditions over numbered symbols.
#![tactic(auto)]

mod conditions;
mod lins;
mod names;

pub use conditions::{add_relation, add_relations};
pub use lins::{term, terms};
pub use names::{Named, declare, symbol_of};
