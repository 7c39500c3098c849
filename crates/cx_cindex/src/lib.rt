//! What a C file declares, found by name without a search through its declarations.
#![tactic(auto)]

mod declared;
mod find;
mod sets;

pub use declared::{Declared, FieldNames, OrdinaryNames, TagNames};
pub use find::declared_by;
pub use sets::{FieldName, FieldSet, NumberSet};
