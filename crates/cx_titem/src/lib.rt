//! Whole type files: the grammar, and its reader.
//!
//! From the lexemes of a file the reader gives its only tree, or the place of the first lexeme such that no
//! type file begins with the lexemes up to and with it, or of the last one where the file ends too early.
#![tactic(auto)]

mod fault;
mod file;
mod items;

pub use fault::SyntaxFault;
pub use file::surface;
