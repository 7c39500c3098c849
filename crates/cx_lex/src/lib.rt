//! The tokens of a text of C (C11 6.4), which a preprocessor has left. The reader of type files
//! reads its texts by the same tokens.
#![tactic(auto)]

mod bytes;
mod directive;
mod fault;
mod lexer;
mod machine;
mod mode;

pub use fault::LexFault;
pub use lexer::lex;
