//! Calls, assignments and values of C that stand alone, with their types (C11 6.5.2.2, 6.5.16).
#![tactic(auto)]

mod call;
mod effect;
mod kind;
mod taken;

pub use call::{TypedCall, typed_call};
pub use effect::{typed_condition, typed_effect, typed_effects, typed_optional};
pub use kind::{is_scalar_type, is_void};
pub use taken::{Taken, assigned, typed_rhs};
