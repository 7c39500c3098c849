ghost use Rattle.std.specs.Prelude.{◌≡◌};
ghost use Rattle.cx_ctree.specs.Types.{type_tree};
ghost use Rattle.cx_ctype.specs.Operations as types;
ghost use Rattle.cx_ctype.specs.ValueTypes.{value_tree};
ghost use Rattle.cx_seffect.specs.Calls as spec;

use cx_ctree::CType;
use cx_ctype::{ValueType, is_assignable, scalar_of};

/// Whether the type is an integer type or a pointer type; an array is neither.
pub fn is_scalar_type(ctype: &CType) -> bool
    ensures { result ≡ types.is_scalar (type_tree ctype.now) }
{
    match ctype {
        CType::Int(_) | CType::Ptr(_) => true,
        CType::Void | CType::Array(_, _) | CType::Tag(_) => false,
    }
}

/// Whether the type is `void`.
pub fn is_void(ctype: &CType) -> bool
    ensures { result ≡ spec.is_void (type_tree ctype.now) }
{
    match ctype {
        CType::Void => true,
        CType::Int(_) | CType::Ptr(_) | CType::Array(_, _) | CType::Tag(_) => false,
    }
}

/// Whether a value of the type `t` may be assigned to an object of the type `to` (C11 6.5.16.1), where
/// it is told whether it is the constant 0.
#[tactic(auto, using(crate::proofs::Taking::taken_scalar, crate::proofs::Taking::taken_never))]
pub fn is_taken(zero: bool, t: ValueType<'_>, to: &CType) -> bool
    ensures { result ≡ types.is_assignable zero (value_tree t.entry) (type_tree to.now) }
{
    match scalar_of(to) {
        Some(w) => is_assignable(zero, t, w),
        None => false,
    }
}
