//! The sizes of a type file that are wrong: of its types beside those of C, of the cells of functions,
//! and of globals.
#![tactic(auto)]

mod cells;
mod functions;
mod globals;
mod items;
mod regions;
mod tails;
mod values;

pub use items::bad_size;
