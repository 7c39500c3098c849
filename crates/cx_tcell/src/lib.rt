//! Cells of type files: the grammar, and its reader.
//!
//! A cell is what stands for the bytes of one number or address, or for any bytes.
#![tactic(auto)]

mod holds;
mod parentheses;
mod pointer;
mod reader;

pub use parentheses::in_parentheses;
pub use reader::cell;
