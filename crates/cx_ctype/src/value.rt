ghost use Rattle.std.specs.Prelude.{◌≡◌, option_map, IfOk};
ghost use Rattle.cx_ctree.specs.Types.{type_tree};
ghost use Rattle.cx_ctype.specs.ValueTypes.{value_tree};
ghost use Rattle.cx_ctype.specs.Operations as spec;

use crate::conversion::unsigned_long;
use cx_base::{CInt, NoMemory};
use cx_ctree::CType;
use std::alloc::Global;

/// The type of the value of an expression: an array stands for a pointer to its first element
/// (C11 6.3.2.1).
#[derive(Clone, Copy)]
pub enum ValueType<'a> {
    Void,
    Int(CInt),
    /// A pointer to this type.
    Ptr(&'a CType),
    /// A struct or union, by its place in the tags of its unit.
    Tag(u32),
}

/// The type of the value of an expression of the type.
pub fn value_type(ctype: &CType) -> ValueType<'_>
    ensures { value_tree result ≡ spec.value_type (type_tree ctype.now) }
{
    match ctype {
        CType::Void => ValueType::Void,
        CType::Int(number) => ValueType::Int(*number),
        CType::Ptr(pointee) => ValueType::Ptr(pointee),
        CType::Array(element, _) => ValueType::Ptr(element),
        CType::Tag(tag) => ValueType::Tag(*tag),
    }
}

/// The type itself, where it is an integer type or a pointer type.
pub fn scalar_of(ctype: &CType) -> Option<ValueType<'_>>
    ensures { option_map value_tree result ≡ spec.if_true (spec.is_scalar (type_tree ctype.now)) (type_tree ctype.now) }
{
    match ctype {
        CType::Int(number) => Some(ValueType::Int(*number)),
        CType::Ptr(pointee) => Some(ValueType::Ptr(pointee)),
        CType::Void | CType::Array(_, _) | CType::Tag(_) => None,
    }
}

/// The type as a type of C.
pub fn ctype_of(alloc: Global, t: ValueType<'_>) -> Result<CType, NoMemory>
    ensures { IfOk result (λ copy. type_tree copy ≡ value_tree t.entry) }
{
    match t {
        ValueType::Void => Ok(CType::Void),
        ValueType::Int(number) => Ok(CType::Int(number)),
        ValueType::Ptr(pointee) => {
            let copy = pointee.copy()?;
            Ok(CType::Ptr(Box::new(alloc, copy)?))
        }
        ValueType::Tag(tag) => Ok(CType::Tag(tag)),
    }
}

/// Whether it is an integer type.
pub fn is_int(t: ValueType<'_>) -> bool
    ensures { result ≡ spec.is_int (value_tree t.entry) }
{
    match t {
        ValueType::Int(_) => true,
        ValueType::Void | ValueType::Ptr(_) | ValueType::Tag(_) => false,
    }
}

/// Whether it is an integer type or a pointer type.
pub fn is_scalar(t: ValueType<'_>) -> bool
    ensures { result ≡ spec.is_scalar (value_tree t.entry) }
{
    match t {
        ValueType::Int(_) | ValueType::Ptr(_) => true,
        ValueType::Void | ValueType::Tag(_) => false,
    }
}

/// The type of the numbers that the values of a scalar type are; an address is a number of 8 bytes.
pub fn number_type(t: ValueType<'_>) -> CInt
    ensures { result ≡ spec.number_type (value_tree t.entry) }
{
    match t {
        ValueType::Int(t) => t,
        ValueType::Void | ValueType::Ptr(_) | ValueType::Tag(_) => unsigned_long(),
    }
}
