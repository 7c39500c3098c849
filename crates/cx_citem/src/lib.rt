//! How the lexemes of a C file are cut into items, the names of functions in an item, and the
//! numbering of all names of a file.
#![tactic(auto)]

mod bracket;
mod calls;
mod faults;
mod items;
mod nesting;
mod numbering;

pub use calls::naming;
pub use faults::{ItemFault, fault};
pub use items::next_item;
pub use numbering::number_names;
