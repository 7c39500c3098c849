//! What the tokens of a C file are for the grammar: keywords, punctuators, constants with their
//! values, and names with their numbers.
#![tactic(auto)]

mod character;
mod integer;
mod lexeme;
mod mark;
mod reading;
mod word;

pub use integer::{Suffix, digits, int_of};
pub use lexeme::{Lexeme, LexemeKind, lexemes};
pub use mark::{Mark, fits, next};
pub use reading::{Stop, span_between, split};
pub use word::{Keyword, Punctuator, keyword_of, look_up, punctuator_of};
