//! What a C file declares, found by name without a search: the signatures of functions, the types of
//! objects, and the places of structs and unions.
#![tactic(auto)]

mod fill;
mod firsts;
mod table;

pub use fill::table_of;
pub use table::Table;
