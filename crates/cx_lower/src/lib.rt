//! The lowering of functions of C to block code.
#![tactic(auto)]

mod fault;
mod function;

pub use fault::{LimitKind, LowerFault};
pub use function::lower;
