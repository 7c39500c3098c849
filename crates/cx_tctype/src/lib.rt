//! Types of C in type files: the grammar, and its reader.
//!
//! Such a type is what the C file declares before: words of C11 6.7.2, the name of a typedef, or a struct,
//! union or enumeration with its name, and pointers to these.
#![tactic(auto)]

mod base;
mod kinds;
mod pointee;
mod reader;
mod words;

pub use pointee::Pointee;
pub use reader::ctype;
