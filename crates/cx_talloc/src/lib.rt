//! Allocators in type files: the grammar, and its reader.
//!
//! An allocator is a function of C that gives a new block. The item says of which region the block is,
//! where the function's result is taken as a pointer to a type of C, and how many bytes it has.
#![tactic(auto)]

mod alloc;
mod args;
mod pieces;
mod reader;

pub use reader::allocator;
