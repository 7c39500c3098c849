//! The types in which operators are applied.

ghost use Rattle.std.specs.Prelude.{◌≡◌};
ghost use Rattle.cx_cconst.specs.Constants as numbers;
ghost use Rattle.cx_ctype.specs.ValueTypes.{value_tree};
ghost use Rattle.cx_cmean.specs.Numbers as values;

use cx_base::CInt;
use cx_ctree::Binary;
use cx_ctype::{ValueType, common, promoted, unsigned_long};

/// Whether the operator is a shift.
pub fn is_shift(op: Binary) -> bool
    ensures { result ≡ numbers.is_shift op }
{
    match op {
        Binary::Shl | Binary::Shr => true,
        _ => false,
    }
}

/// Whether the two types are one.
pub fn is_same(t: CInt, u: CInt) -> bool
    ensures { result ≡ values.is_same t u }
{
    t.size == u.size && t.signed == u.signed
}

/// The type in which an operator on integers is applied (C11 6.3.1.8; 6.5.7 for shifts).
pub fn applied_in(op: Binary, t: CInt, u: CInt) -> CInt
    ensures { result ≡ values.applied_in op t u }
{
    if is_shift(op) {
        promoted(t)
    } else {
        common(t, u)
    }
}

/// The type to which the right operand is converted.
pub fn right_in(op: Binary, t: CInt, u: CInt) -> CInt
    ensures { result ≡ values.right_in op t u }
{
    if is_shift(op) {
        promoted(u)
    } else {
        common(t, u)
    }
}

/// The type in which values of these types are compared; pointers compare as numbers.
pub fn compared_in(t: ValueType<'_>, u: ValueType<'_>) -> CInt
    ensures { result ≡ values.compared_in (value_tree t.entry) (value_tree u.entry) }
{
    match (t, u) {
        (ValueType::Int(t), ValueType::Int(u)) => common(t, u),
        _ => unsigned_long(),
    }
}
