//! Sizes and members of types, and the integer types of values.

ghost use Rattle.std.specs.Prelude.{◌≡◌};
ghost use Rattle.cx_ctree.specs.Types.{type_tree};
ghost use Rattle.cx_ctree.specs.Exprs.{expr_tree};
ghost use Rattle.cx_cconst.specs.Constants as numbers;
ghost use Rattle.cx_ctype.specs.ValueTypes.{value_tree};
ghost use Rattle.cx_sname.specs.File.{declared_of};
ghost use Rattle.cx_cmean.specs.Expressions as means;
ghost use Rattle.cx_cmean.specs.Numbers as values;
ghost use Rattle.cx_cmean.specs.Program as program;

use cx_abi::{offset_of, size_of};
use cx_base::CInt;
use cx_ctree::{CType, Expr, Unit};
use cx_ctype::{ValueType, unsigned_long};

/// The size of a type that has one (C11 6.5.3.4); 0 of another.
pub fn size_in(unit: &Unit, ctype: &CType) -> u64
    ensures { result ≡ program.size_in (declared_of unit.now) (type_tree ctype.now) }
{
    match size_of(unit, ctype) {
        None => 0,
        Some(n) => n,
    }
}

/// The size of what a pointer to the type is moved by: 1 for void.
pub fn unit_in(unit: &Unit, ctype: &CType) -> u64
    ensures { result ≡ program.unit_in (declared_of unit.now) (type_tree ctype.now) }
{
    match ctype {
        CType::Void => 1,
        CType::Int(_) | CType::Ptr(_) | CType::Array(_, _) | CType::Tag(_) => size_in(unit, ctype),
    }
}

/// Where the member of this name stands in a struct or union (System V AMD64 ABI, 3.1.2).
pub fn offset_in(unit: &Unit, ctype: &CType, name: u32) -> u64
    ensures { result ≡ program.offset_in (declared_of unit.now) (type_tree ctype.now) name }
{
    match ctype {
        CType::Tag(k) => match offset_of(unit, *k, name) {
            None => 0,
            Some(n) => n,
        },
        CType::Void | CType::Int(_) | CType::Ptr(_) | CType::Array(_, _) => 0,
    }
}

/// Where the member of this name stands in what a pointer of the type points to.
pub fn target_offset(unit: &Unit, t: ValueType<'_>, name: u32) -> u64
    ensures { result ≡ program.offset_in (declared_of unit.now) (means.target (value_tree t.entry)) name }
{
    match t {
        ValueType::Ptr(t) => offset_in(unit, t, name),
        ValueType::Tag(k) => match offset_of(unit, k, name) {
            None => 0,
            Some(n) => n,
        },
        ValueType::Void | ValueType::Int(_) => 0,
    }
}

/// The integer type of the numbers that are the expression's values.
pub fn number_of(e: &Expr) -> CInt
    ensures { result ≡ values.number_of (expr_tree e.now) }
{
    number_in(&e.ctype)
}

/// The integer type of the numbers that a value of the type is; an address is a number of 8 bytes.
pub fn number_in(ctype: &CType) -> CInt
    ensures { result ≡ numbers.number_type (type_tree ctype.now) }
{
    match ctype {
        CType::Int(t) => *t,
        CType::Void | CType::Ptr(_) | CType::Array(_, _) | CType::Tag(_) => unsigned_long(),
    }
}
