//! C files: the items in order (C11 6.9), each among the names that those before it declare.
#![tactic(auto)]

mod body;
mod declaration;
mod definition;
mod fault;
mod item;
mod named;
mod unit;

pub use fault::UnitFault;
pub use unit::read_unit;
