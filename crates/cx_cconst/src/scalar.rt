ghost use Rattle.std.specs.Prelude.{◌≡◌, option_map};
ghost use Rattle.cx_ctree.specs.Types.{type_tree, int, pointer};
ghost use Rattle.cx_cname.specs.Known.{known_of};
ghost use Rattle.cx_cconst.specs.Walk.{scalar_tree};
ghost use Rattle.cx_cconst.specs.Constants as spec;

use crate::conversion::{common, promoted, signed_int, signed_long, unsigned_long};
use cx_abi::size_of;
use cx_base::CInt;
use cx_ctree::{Binary, CType, Unary, Unit};

/// The type of a constant: an integer type, or the type of a pointer to this type.
#[derive(Clone, Copy)]
pub enum Scalar<'a> {
    Int(CInt),
    Ptr(&'a CType),
}

/// The scalar type that the type is, if it is one.
pub fn scalar_of(ctype: &CType) -> Option<Scalar<'_>>
    ensures { option_map scalar_tree result ≡ spec.if_true (spec.is_scalar (type_tree ctype.now)) (type_tree ctype.now) }
{
    match ctype {
        CType::Int(number) => Some(Scalar::Int(*number)),
        CType::Ptr(pointee) => Some(Scalar::Ptr(pointee)),
        CType::Void | CType::Array(_, _) | CType::Tag(_) => None,
    }
}

/// The type of the numbers that the values of the type are.
pub fn number_type(t: Scalar<'_>) -> CInt
    ensures { result ≡ spec.number_type (scalar_tree t.entry) }
{
    match t {
        Scalar::Int(t) => t,
        Scalar::Ptr(_) => unsigned_long(),
    }
}

/// The size in bytes of what a pointer to the type is moved by.
pub fn unit_of(known: &Unit, ctype: &CType) -> Option<u64>
    ensures { result ≡ spec.unit (known_of known.now) (type_tree ctype.now) }
{
    match ctype {
        CType::Void => Some(1),
        CType::Int(_) | CType::Ptr(_) | CType::Array(_, _) | CType::Tag(_) => {
            size_of(known, ctype)
        }
    }
}

fn same_type(a: &CType, b: &CType) -> bool
    ensures { result ≡ spec.same_type (type_tree a.now) (type_tree b.now) }
{
    a.same(b)
}

fn pointer_if(holds: bool, pointee: &CType) -> Option<Scalar<'_>>
    ensures { option_map scalar_tree result ≡ spec.if_true holds (pointer (type_tree pointee.now)) }
{
    if holds {
        Some(Scalar::Ptr(pointee))
    } else {
        None
    }
}

fn int_if<'a>(holds: bool, t: CInt) -> Option<Scalar<'a>>
    ensures { option_map scalar_tree result ≡ spec.if_true holds (int t) }
{
    if holds { Some(Scalar::Int(t)) } else { None }
}

fn common_type<'a>(t: Scalar<'a>, w: Scalar<'a>) -> Option<Scalar<'a>>
    ensures { option_map scalar_tree result ≡ spec.common_type (scalar_tree t.entry) (scalar_tree w.entry) }
{
    match (t, w) {
        (Scalar::Int(t), Scalar::Int(w)) => Some(Scalar::Int(common(t, w))),
        (Scalar::Int(_), Scalar::Ptr(_)) | (Scalar::Ptr(_), _) => None,
    }
}

fn shifted_type<'a>(t: Scalar<'a>, w: Scalar<'a>) -> Option<Scalar<'a>>
    ensures { option_map scalar_tree result ≡ spec.shifted_type (scalar_tree t.entry) (scalar_tree w.entry) }
{
    match (t, w) {
        (Scalar::Int(t), Scalar::Int(_)) => Some(Scalar::Int(promoted(t))),
        (Scalar::Int(_), Scalar::Ptr(_)) | (Scalar::Ptr(_), _) => None,
    }
}

fn sum_type<'a>(known: &Unit, t: Scalar<'a>, w: Scalar<'a>) -> Option<Scalar<'a>>
    ensures { option_map scalar_tree result ≡ spec.sum_type (known_of known.now) (scalar_tree t.entry) (scalar_tree w.entry) }
{
    match (t, w) {
        (Scalar::Int(t), Scalar::Int(w)) => Some(Scalar::Int(common(t, w))),
        (Scalar::Ptr(pointee), Scalar::Int(_)) | (Scalar::Int(_), Scalar::Ptr(pointee)) => {
            pointer_if(unit_of(known, pointee).is_some(), pointee)
        }
        (Scalar::Ptr(_), Scalar::Ptr(_)) => None,
    }
}

fn same_size(n: Option<u64>, m: Option<u64>) -> bool
    ensures { result ≡ spec.same_size n m }
{
    match (n, m) {
        (Some(n), Some(m)) => n == m,
        (Some(_), None) | (None, _) => false,
    }
}

fn difference_type<'a>(known: &Unit, t: Scalar<'a>, w: Scalar<'a>) -> Option<Scalar<'a>>
    ensures { option_map scalar_tree result ≡ spec.difference_type (known_of known.now) (scalar_tree t.entry) (scalar_tree w.entry) }
{
    match (t, w) {
        (Scalar::Int(t), Scalar::Int(w)) => Some(Scalar::Int(common(t, w))),
        (Scalar::Ptr(t), Scalar::Int(_)) => pointer_if(unit_of(known, t).is_some(), t),
        (Scalar::Ptr(t), Scalar::Ptr(w)) => int_if(
            same_size(unit_of(known, t), unit_of(known, w)),
            signed_long(),
        ),
        (Scalar::Int(_), Scalar::Ptr(_)) => None,
    }
}

fn compared_type<'a>(zero: bool, other: bool, t: Scalar<'a>, w: Scalar<'a>) -> Option<Scalar<'a>>
    ensures { option_map scalar_tree result ≡ spec.compared_type zero other (scalar_tree t.entry) (scalar_tree w.entry) }
{
    match (t, w) {
        (Scalar::Int(_), Scalar::Int(_)) | (Scalar::Ptr(_), Scalar::Ptr(_)) => {
            Some(Scalar::Int(signed_int()))
        }
        (Scalar::Ptr(_), Scalar::Int(_)) => int_if(other, signed_int()),
        (Scalar::Int(_), Scalar::Ptr(_)) => int_if(zero, signed_int()),
    }
}

fn arm_pointers<'a>(t: &'a CType, w: &'a CType) -> Option<Scalar<'a>>
    ensures { option_map scalar_tree result ≡ spec.arm_pointers (type_tree t.now) (type_tree w.now) }
{
    match t {
        CType::Void => Some(Scalar::Ptr(t)),
        CType::Int(_) | CType::Ptr(_) | CType::Array(_, _) | CType::Tag(_) => match w {
            CType::Void => Some(Scalar::Ptr(w)),
            CType::Int(_) | CType::Ptr(_) | CType::Array(_, _) | CType::Tag(_) => {
                pointer_if(same_type(t, w), t)
            }
        },
    }
}

fn pointer_arms<'a>(zero: bool, other: bool, t: &'a CType, w: &'a CType) -> Option<Scalar<'a>>
    ensures { option_map scalar_tree result ≡ spec.arms_type zero other (pointer (type_tree t.now)) (pointer (type_tree w.now)) }
{
    if zero {
        Some(Scalar::Ptr(w))
    } else if other {
        Some(Scalar::Ptr(t))
    } else {
        arm_pointers(t, w)
    }
}

/// The type of the arms of a conditional, where it is told which of them is the constant 0
/// (C11 6.5.15).
pub fn arms_type<'a>(zero: bool, other: bool, t: Scalar<'a>, w: Scalar<'a>) -> Option<Scalar<'a>>
    ensures { option_map scalar_tree result ≡ spec.arms_type zero other (scalar_tree t.entry) (scalar_tree w.entry) }
{
    match (t, w) {
        (Scalar::Int(t), Scalar::Int(w)) => Some(Scalar::Int(common(t, w))),
        (Scalar::Ptr(t), Scalar::Ptr(w)) => pointer_arms(zero, other, t, w),
        (Scalar::Ptr(t), Scalar::Int(_)) => pointer_if(other, t),
        (Scalar::Int(_), Scalar::Ptr(w)) => pointer_if(zero, w),
    }
}

/// The type of what the operator gives, where it is told which operand is the constant 0.
pub fn binary_type<'a>(
    known: &Unit,
    op: Binary,
    zero: bool,
    other: bool,
    t: Scalar<'a>,
    w: Scalar<'a>,
) -> Option<Scalar<'a>>
    ensures { option_map scalar_tree result ≡ spec.binary_type (known_of known.now) op zero other (scalar_tree t.entry) (scalar_tree w.entry) }
{
    match op {
        Binary::Add => sum_type(known, t, w),
        Binary::Sub => difference_type(known, t, w),
        Binary::Shl | Binary::Shr => shifted_type(t, w),
        Binary::Lt | Binary::Gt | Binary::Le | Binary::Ge => compared_type(zero, other, t, w),
        Binary::Eq | Binary::Ne => compared_type(zero, other, t, w),
        Binary::And | Binary::Or => Some(Scalar::Int(signed_int())),
        Binary::Mul | Binary::Div | Binary::Rem => common_type(t, w),
        Binary::BitAnd | Binary::BitXor | Binary::BitOr => common_type(t, w),
    }
}

/// The type of what the operator gives (C11 6.5.3.3).
pub fn unary_type<'a>(op: Unary, t: Scalar<'a>) -> Option<Scalar<'a>>
    ensures { option_map scalar_tree result ≡ spec.unary_type op (scalar_tree t.entry) }
{
    match op {
        Unary::Not => Some(Scalar::Int(signed_int())),
        Unary::Plus | Unary::Neg | Unary::Compl => match t {
            Scalar::Int(t) => Some(Scalar::Int(promoted(t))),
            Scalar::Ptr(_) => None,
        },
    }
}
