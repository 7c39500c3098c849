//! Effects of C: assignments, increments, calls and values that stand whole (C11 6.5.16, 6.5.2.2): the
//! grammar, and its readers.
#![tactic(auto)]

mod kinds;
mod make;
mod read;

pub use make::{ReadArguments, ReadCall, ReadEffect, ReadEffects, ReadRhs};
pub use read::{call, calls, effect, effects, rhs};
