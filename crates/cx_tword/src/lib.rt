//! What the tokens of a type file are for its grammar: reserved words, words with a size, names,
//! integers with their values, and punctuators.
#![tactic(auto)]

mod lexeme;
mod mark;
mod size;
mod word;

pub use lexeme::{TypeLexeme, TypeLexemeKind, type_lexemes};
pub use mark::{is_mark, is_name, is_word};
pub use word::{TypeWord, type_word_of};
