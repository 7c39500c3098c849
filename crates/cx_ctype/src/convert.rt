ghost use Rattle.std.specs.Prelude.{◌≡◌, option_map};
ghost use Rattle.cx_ctree.specs.Types.{type_tree};
ghost use Rattle.cx_cname.specs.Known.{known_of};
ghost use Rattle.cx_ctype.specs.ValueTypes.{value_tree};
ghost use Rattle.cx_ctype.specs.Operations as spec;

use crate::operation::unit_of;
use crate::value::{ValueType, is_scalar, scalar_of};
use cx_ctree::{Binary, CType, Unit};

/// The type of a cast to the type `t` (C11 6.5.4); None where it is no cast between integer types
/// and pointer types.
pub fn cast_type<'a>(t: &'a CType, w: ValueType<'_>) -> Option<ValueType<'a>>
    ensures { option_map value_tree result ≡ spec.cast_type (type_tree t.now) (value_tree w.entry) }
{
    if is_scalar(w) { scalar_of(t) } else { None }
}

/// Whether a value of the type `t` may be assigned to an object of the type `w` (C11 6.5.16.1),
/// where it is told whether it is the constant 0.
pub fn is_assignable(zero: bool, t: ValueType<'_>, w: ValueType<'_>) -> bool
    ensures { result ≡ spec.is_assignable zero (value_tree t.entry) (value_tree w.entry) }
{
    match (t, w) {
        (ValueType::Int(_), ValueType::Int(_)) | (ValueType::Ptr(_), ValueType::Ptr(_)) => true,
        (ValueType::Int(_), ValueType::Ptr(_)) => zero,
        (ValueType::Ptr(_), ValueType::Int(_)) => false,
        (ValueType::Int(_) | ValueType::Ptr(_), ValueType::Void | ValueType::Tag(_)) => false,
        (ValueType::Void | ValueType::Tag(_), _) => false,
    }
}

fn is_compound(op: Binary) -> bool
    ensures { result ≡ spec.is_compound op }
{
    match op {
        Binary::Lt | Binary::Gt | Binary::Le | Binary::Ge | Binary::Eq | Binary::Ne => false,
        Binary::And | Binary::Or => false,
        Binary::Mul | Binary::Div | Binary::Rem | Binary::Add | Binary::Sub => true,
        Binary::Shl | Binary::Shr | Binary::BitAnd | Binary::BitXor | Binary::BitOr => true,
    }
}

fn is_move(op: Binary) -> bool
    ensures { result ≡ spec.is_move op }
{
    match op {
        Binary::Add | Binary::Sub => true,
        Binary::Mul | Binary::Div | Binary::Rem | Binary::Shl | Binary::Shr => false,
        Binary::Lt | Binary::Gt | Binary::Le | Binary::Ge | Binary::Eq | Binary::Ne => false,
        Binary::BitAnd | Binary::BitXor | Binary::BitOr | Binary::And | Binary::Or => false,
    }
}

/// Whether an object of the type `t` may be changed by an operand of the type `w` (C11 6.5.16.2).
pub fn is_updatable(op: Binary, t: ValueType<'_>, w: ValueType<'_>) -> bool
    ensures { result ≡ spec.is_updatable op (value_tree t.entry) (value_tree w.entry) }
{
    match (t, w) {
        (ValueType::Int(_), ValueType::Int(_)) => is_compound(op),
        (ValueType::Ptr(_), ValueType::Int(_)) => is_move(op),
        (ValueType::Int(_), ValueType::Void | ValueType::Ptr(_) | ValueType::Tag(_)) => false,
        (ValueType::Ptr(_), ValueType::Void | ValueType::Ptr(_) | ValueType::Tag(_)) => false,
        (ValueType::Void | ValueType::Tag(_), _) => false,
    }
}

/// Whether a pointer of the type may be moved: what it points to has a size. True of other types.
pub fn is_movable(known: &Unit, t: ValueType<'_>) -> bool
    ensures { result ≡ spec.is_movable (known_of known.now) (value_tree t.entry) }
{
    match t {
        ValueType::Ptr(t) => unit_of(known, t).is_some(),
        ValueType::Void | ValueType::Int(_) | ValueType::Tag(_) => true,
    }
}
