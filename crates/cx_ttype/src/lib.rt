//! Types of bytes in type files: the grammar, and its reader.
//!
//! A type says what stands in a row of bytes: cells, types one behind the other, structs and unions of C
//! with a type for each member, several possible types under conditions, and arrays of these.
#![tactic(auto)]

mod around;
mod make;
mod reader;
mod tag;
mod types;

pub use around::{binders, conds};
pub use reader::stype;
