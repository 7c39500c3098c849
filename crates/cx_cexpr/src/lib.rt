//! Types without a declaration and expressions of C (C11 6.7.7, 6.5), read from lexemes.
#![tactic(auto)]

mod kinds;
mod make;
mod read;
mod types;
mod words;

pub use kinds::named;
pub use make::{Read, ReadType, pointer_to};
pub use read::{binary, cast, choice, climb, cond, cond_rest, unary};
pub use types::{base_type, begins_type, enclosed_type, opens_type, type_name};
pub use words::{Passed, skipped};
