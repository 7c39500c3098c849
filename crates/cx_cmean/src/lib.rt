//! The meaning of C: what expressions, statements and functions do over a memory, while others may change
//! regions that are shared.
#![tactic(auto)]

mod operand;
mod table;

pub use operand::{applied_in, compared_in, is_same, is_shift, right_in};
pub use table::{number_in, number_of, offset_in, size_in, target_offset, unit_in};
