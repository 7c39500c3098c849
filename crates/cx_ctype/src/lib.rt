//! The types that the operators of C take and give, and what converts to what (C11 6.5).
#![tactic(auto)]

mod access;
mod conversion;
mod convert;
mod operation;
mod value;
mod zero;

pub use access::{element, in_memory, is_sized, member_type, pointee};
pub use conversion::{common, promoted, signed_int, signed_long, unsigned_long};
pub use convert::{cast_type, is_assignable, is_movable, is_updatable};
pub use operation::{arms_type, binary_type, unary_type, unit_of};
pub use value::{ValueType, ctype_of, is_int, is_scalar, number_type, scalar_of, value_type};
pub use zero::is_zero;
