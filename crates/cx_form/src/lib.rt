//! The straight-line form: one C function that reads and writes fields through pointers, and the
//! types that its file of types declares. This crate has its trees and its readers.
#![tactic(auto)]

mod c_file;
mod lexer;
mod names;
mod read;
mod reader;
mod rules;
mod tree;
mod type_file;

pub use reader::{read_c_file, read_type_file};
pub use tree::{
    Argument, CFile, Cell, Ending, Function, FunctionType, Member, Parameter, RegionType,
    Statement, Struct, TypeFile, ValueType, Word,
};
