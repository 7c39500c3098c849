ghost use Rattle.std.specs.Prelude.{◌≡◌, option_map};
ghost use Rattle.cx_ctree.specs.Types.{type_tree, int, pointer};
ghost use Rattle.cx_cname.specs.Known.{known_of};
ghost use Rattle.cx_cname.specs.Meanings.{same_type};
ghost use Rattle.cx_ctype.specs.ValueTypes.{value_tree};
ghost use Rattle.cx_ctype.specs.Operations as spec;

use crate::conversion::{common, promoted, signed_int, signed_long};
use crate::value::{ValueType, is_scalar};
use cx_abi::size_of;
use cx_base::CInt;
use cx_ctree::{Binary, CType, Unary, Unit};

/// The size in bytes of what a pointer to the type is moved by; None where the type has no size.
pub fn unit_of(known: &Unit, ctype: &CType) -> Option<u64>
    ensures { result ≡ spec.unit (known_of known.now) (type_tree ctype.now) }
{
    match ctype {
        CType::Void => Some(1),
        CType::Int(_) | CType::Ptr(_) | CType::Array(_, _) | CType::Tag(_) => {
            size_of(known, ctype)
        }
    }
}

fn same_type(a: &CType, b: &CType) -> bool
    ensures { result ≡ same_type (type_tree a.now) (type_tree b.now) }
{
    a.same(b)
}

fn pointer_if(holds: bool, pointee: &CType) -> Option<ValueType<'_>>
    ensures { option_map value_tree result ≡ spec.if_true holds (pointer (type_tree pointee.now)) }
{
    if holds {
        Some(ValueType::Ptr(pointee))
    } else {
        None
    }
}

fn int_if<'a>(holds: bool, t: CInt) -> Option<ValueType<'a>>
    ensures { option_map value_tree result ≡ spec.if_true holds (int t) }
{
    if holds { Some(ValueType::Int(t)) } else { None }
}

fn common_type<'a>(t: ValueType<'a>, w: ValueType<'a>) -> Option<ValueType<'a>>
    ensures { option_map value_tree result ≡ spec.common_type (value_tree t.entry) (value_tree w.entry) }
{
    match (t, w) {
        (ValueType::Int(t), ValueType::Int(w)) => Some(ValueType::Int(common(t, w))),
        (ValueType::Int(_), ValueType::Void | ValueType::Ptr(_) | ValueType::Tag(_)) => None,
        (ValueType::Void | ValueType::Ptr(_) | ValueType::Tag(_), _) => None,
    }
}

fn shifted_type<'a>(t: ValueType<'a>, w: ValueType<'a>) -> Option<ValueType<'a>>
    ensures { option_map value_tree result ≡ spec.shifted_type (value_tree t.entry) (value_tree w.entry) }
{
    match (t, w) {
        (ValueType::Int(t), ValueType::Int(_)) => Some(ValueType::Int(promoted(t))),
        (ValueType::Int(_), ValueType::Void | ValueType::Ptr(_) | ValueType::Tag(_)) => None,
        (ValueType::Void | ValueType::Ptr(_) | ValueType::Tag(_), _) => None,
    }
}

fn sum_type<'a>(known: &Unit, t: ValueType<'a>, w: ValueType<'a>) -> Option<ValueType<'a>>
    ensures { option_map value_tree result ≡ spec.sum_type (known_of known.now) (value_tree t.entry) (value_tree w.entry) }
{
    match (t, w) {
        (ValueType::Int(t), ValueType::Int(w)) => Some(ValueType::Int(common(t, w))),
        (ValueType::Ptr(t), ValueType::Int(_)) => pointer_if(unit_of(known, t).is_some(), t),
        (ValueType::Int(_), ValueType::Ptr(w)) => pointer_if(unit_of(known, w).is_some(), w),
        (ValueType::Int(_), ValueType::Void | ValueType::Tag(_)) => None,
        (ValueType::Ptr(_), ValueType::Void | ValueType::Ptr(_) | ValueType::Tag(_)) => None,
        (ValueType::Void | ValueType::Tag(_), _) => None,
    }
}

fn same_size(n: Option<u64>, m: Option<u64>) -> bool
    ensures { result ≡ spec.same_size n m }
{
    match (n, m) {
        (Some(n), Some(m)) => n == m,
        (Some(_), None) | (None, _) => false,
    }
}

fn difference_type<'a>(known: &Unit, t: ValueType<'a>, w: ValueType<'a>) -> Option<ValueType<'a>>
    ensures { option_map value_tree result ≡ spec.difference_type (known_of known.now) (value_tree t.entry) (value_tree w.entry) }
{
    match (t, w) {
        (ValueType::Int(t), ValueType::Int(w)) => Some(ValueType::Int(common(t, w))),
        (ValueType::Ptr(t), ValueType::Int(_)) => pointer_if(unit_of(known, t).is_some(), t),
        (ValueType::Ptr(t), ValueType::Ptr(w)) => int_if(
            same_size(unit_of(known, t), unit_of(known, w)),
            signed_long(),
        ),
        (ValueType::Int(_), ValueType::Void | ValueType::Ptr(_) | ValueType::Tag(_)) => None,
        (ValueType::Ptr(_), ValueType::Void | ValueType::Tag(_)) => None,
        (ValueType::Void | ValueType::Tag(_), _) => None,
    }
}

fn compared_type<'a>(
    zero: bool,
    other: bool,
    t: ValueType<'a>,
    w: ValueType<'a>,
) -> Option<ValueType<'a>>
    ensures { option_map value_tree result ≡ spec.compared_type zero other (value_tree t.entry) (value_tree w.entry) }
{
    match (t, w) {
        (ValueType::Int(_), ValueType::Int(_)) | (ValueType::Ptr(_), ValueType::Ptr(_)) => {
            Some(ValueType::Int(signed_int()))
        }
        (ValueType::Ptr(_), ValueType::Int(_)) => int_if(other, signed_int()),
        (ValueType::Int(_), ValueType::Ptr(_)) => int_if(zero, signed_int()),
        (ValueType::Int(_) | ValueType::Ptr(_), ValueType::Void | ValueType::Tag(_)) => None,
        (ValueType::Void | ValueType::Tag(_), _) => None,
    }
}

fn logical_type<'a>(t: ValueType<'a>, w: ValueType<'a>) -> Option<ValueType<'a>>
    ensures { option_map value_tree result ≡ spec.logical_type (value_tree t.entry) (value_tree w.entry) }
{
    int_if(is_scalar(t) && is_scalar(w), signed_int())
}

fn arm_pointers<'a>(t: &'a CType, w: &'a CType) -> Option<ValueType<'a>>
    ensures { option_map value_tree result ≡ spec.arm_pointers (type_tree t.now) (type_tree w.now) }
{
    match t {
        CType::Void => Some(ValueType::Ptr(t)),
        CType::Int(_) | CType::Ptr(_) | CType::Array(_, _) | CType::Tag(_) => match w {
            CType::Void => Some(ValueType::Ptr(w)),
            CType::Int(_) | CType::Ptr(_) | CType::Array(_, _) | CType::Tag(_) => {
                pointer_if(same_type(t, w), t)
            }
        },
    }
}

fn pointer_arms<'a>(zero: bool, other: bool, t: &'a CType, w: &'a CType) -> Option<ValueType<'a>>
    ensures { option_map value_tree result ≡ spec.arms_type zero other (pointer (type_tree t.now)) (pointer (type_tree w.now)) }
{
    if zero {
        Some(ValueType::Ptr(w))
    } else if other {
        Some(ValueType::Ptr(t))
    } else {
        arm_pointers(t, w)
    }
}

/// The type of a conditional whose arms have these types (C11 6.5.15), where it is told which of
/// them is the constant 0; None where no conditional has such arms.
pub fn arms_type<'a>(
    zero: bool,
    other: bool,
    t: ValueType<'a>,
    w: ValueType<'a>,
) -> Option<ValueType<'a>>
    ensures { option_map value_tree result ≡ spec.arms_type zero other (value_tree t.entry) (value_tree w.entry) }
{
    match (t, w) {
        (ValueType::Int(t), ValueType::Int(w)) => Some(ValueType::Int(common(t, w))),
        (ValueType::Ptr(t), ValueType::Ptr(w)) => pointer_arms(zero, other, t, w),
        (ValueType::Ptr(t), ValueType::Int(_)) => pointer_if(other, t),
        (ValueType::Int(_), ValueType::Ptr(w)) => pointer_if(zero, w),
        (ValueType::Int(_) | ValueType::Ptr(_), ValueType::Void | ValueType::Tag(_)) => None,
        (ValueType::Void | ValueType::Tag(_), _) => None,
    }
}

/// The type of what the operator gives, where it is told which operand is the constant 0; None
/// where it takes no such operands.
pub fn binary_type<'a>(
    known: &Unit,
    op: Binary,
    zero: bool,
    other: bool,
    t: ValueType<'a>,
    w: ValueType<'a>,
) -> Option<ValueType<'a>>
    ensures { option_map value_tree result ≡ spec.binary_type (known_of known.now) op zero other (value_tree t.entry) (value_tree w.entry) }
{
    match op {
        Binary::Add => sum_type(known, t, w),
        Binary::Sub => difference_type(known, t, w),
        Binary::Shl | Binary::Shr => shifted_type(t, w),
        Binary::Lt | Binary::Gt | Binary::Le | Binary::Ge => compared_type(zero, other, t, w),
        Binary::Eq | Binary::Ne => compared_type(zero, other, t, w),
        Binary::And | Binary::Or => logical_type(t, w),
        Binary::Mul | Binary::Div | Binary::Rem => common_type(t, w),
        Binary::BitAnd | Binary::BitXor | Binary::BitOr => common_type(t, w),
    }
}

/// The type of what the operator gives (C11 6.5.3.3); None where it takes no such operand.
pub fn unary_type<'a>(op: Unary, t: ValueType<'a>) -> Option<ValueType<'a>>
    ensures { option_map value_tree result ≡ spec.unary_type op (value_tree t.entry) }
{
    match op {
        Unary::Not => int_if(is_scalar(t), signed_int()),
        Unary::Plus | Unary::Neg | Unary::Compl => match t {
            ValueType::Int(t) => Some(ValueType::Int(promoted(t))),
            ValueType::Void | ValueType::Ptr(_) | ValueType::Tag(_) => None,
        },
    }
}
