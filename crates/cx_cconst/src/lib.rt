//! Constant expressions of C (C11 6.6): their types and values.
#![tactic(auto)]

mod conversion;
mod number;
mod scalar;
mod value;
mod walk;

pub use conversion::{common, promoted};
pub use number::{convert, difference, moved_back, moved_on, operated, sum, truth};
pub use walk::{constant_value, is_constant};
