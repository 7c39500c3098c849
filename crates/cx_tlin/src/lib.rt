//! Words, linear forms and relations of type files: the grammar, and its readers.
//!
//! A reader reads a front of the lexemes by one lexeme of lookahead. It gives the tree and the lexemes
//! after the front. Else it answers how many lexemes are left from the first on such that no lexemes that
//! begin with those up to and with it have such a front, or that memory ran out.
#![tactic(auto)]

mod forms;
mod kinds;
mod lists;
mod parts;
mod readers;

pub use forms::span_of;
pub use lists::{Lins, Names};
pub use parts::word;
pub use readers::{lin, lins, name, names, part, relation, relations};
