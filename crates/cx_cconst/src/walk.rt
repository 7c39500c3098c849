ghost use Rattle.std.specs.Prelude.{◌≡◌, option_map};
ghost use Rattle.cx_ctree.specs.Types.{type_tree};
ghost use Rattle.cx_ctree.specs.Exprs.{expr_tree, name, size_of};
ghost use Rattle.cx_cname.specs.Known.{known_of};
ghost use Rattle.cx_cconst.specs.Walk.{scalar_tree, found_tree};
ghost use Rattle.cx_cconst.specs.Walk as walk_spec;
ghost use Rattle.cx_cconst.specs.Constants as spec;

use crate::conversion::{promoted, signed_int, unsigned_long};
use crate::number::{convert, is_zero, unary_value, wide};
use crate::scalar::{Scalar, arms_type, binary_type, number_type, scalar_of, unary_type};
use crate::value::binary_value;
use cx_abi::size_of;
use cx_cname::constant_of;
use cx_ctree::{Binary, CType, Expr, ExprKind, Unary, Unit};

/// The type of a constant expression, and its value where it has one.
#[derive(Clone, Copy)]
pub struct Found<'a> {
    pub ctype: Scalar<'a>,
    pub value: Option<i128>,
}

fn is_zero_number(known: &Unit, e: &Expr) -> bool
    ensures { result ≡ spec.is_zero_number (known_of known.now) (expr_tree e.now) }
{
    match &e.kind {
        ExprKind::Num(v, _) => is_zero(*v),
        ExprKind::Name(n) => match constant_of(known, *n) {
            Some(v) => is_zero(v),
            None => false,
        },
        ExprKind::Local(_) | ExprKind::Global(_) => false,
        ExprKind::Unary(_, _) | ExprKind::Binary(_, _, _) | ExprKind::Cond(_, _, _) => false,
        ExprKind::Cast(_, _) | ExprKind::SizeOf(_) | ExprKind::SizeOfExpr(_) => false,
        ExprKind::Index(_, _) | ExprKind::Member(_, _) | ExprKind::Arrow(_, _) => false,
        ExprKind::Deref(_) | ExprKind::Address(_) => false,
    }
}

fn is_void_pointer(t: &CType) -> bool
    ensures { result ≡ spec.is_void_pointer (type_tree t.now) }
{
    match t {
        CType::Ptr(pointee) => match &**pointee {
            CType::Void => true,
            CType::Int(_) | CType::Ptr(_) | CType::Array(_, _) | CType::Tag(_) => false,
        },
        CType::Void | CType::Int(_) | CType::Array(_, _) | CType::Tag(_) => false,
    }
}

// Whether the expression is the constant 0 (C11 6.3.2.3).
fn is_zero_constant(known: &Unit, e: &Expr) -> bool
    ensures { result ≡ spec.is_zero (known_of known.now) (expr_tree e.now) }
{
    match &e.kind {
        ExprKind::Num(_, _) | ExprKind::Name(_) => is_zero_number(known, e),
        ExprKind::Cast(t, a) => is_void_pointer(t) && is_zero_number(known, a),
        ExprKind::Local(_) | ExprKind::Global(_) => false,
        ExprKind::Unary(_, _) | ExprKind::Binary(_, _, _) | ExprKind::Cond(_, _, _) => false,
        ExprKind::SizeOf(_) | ExprKind::SizeOfExpr(_) => false,
        ExprKind::Index(_, _) | ExprKind::Member(_, _) | ExprKind::Arrow(_, _) => false,
        ExprKind::Deref(_) | ExprKind::Address(_) => false,
    }
}

fn found_unary<'a>(op: Unary, a: Found<'a>) -> Option<Found<'a>>
    ensures { option_map found_tree result ≡ walk_spec.found_unary op (found_tree a.entry) }
{
    let ctype = unary_type(op, a.ctype)?;
    let value = match a.value {
        Some(v) => Some(unary_value(op, promoted(number_type(a.ctype)), v)),
        None => None,
    };
    Some(Found { ctype, value })
}

fn decided(op: Binary, v: i128) -> Option<i128>
    ensures { result ≡ spec.decided op v }
{
    match op {
        Binary::And => { if is_zero(v) { Some(0) } else { None } }
        Binary::Or => { if is_zero(v) { None } else { Some(1) } }
        _ => None,
    }
}

// The value of an operator, of which the second operand may have none where the first decides.
fn both_value<'a>(known: &Unit, op: Binary, a: Found<'a>, b: Found<'a>) -> Option<i128>
    ensures { result ≡ walk_spec.both_value (known_of known.now) op (found_tree a.entry) (found_tree b.entry) }
{
    let x = a.value?;
    match decided(op, x) {
        Some(v) => Some(v),
        None => {
            let y = b.value?;
            binary_value(known, op, a.ctype, b.ctype, x, y)
        }
    }
}

fn found_binary<'a>(
    known: &Unit,
    op: Binary,
    zero: bool,
    other: bool,
    a: Found<'a>,
    b: Found<'a>,
) -> Option<Found<'a>>
    ensures { option_map found_tree result ≡ walk_spec.found_binary (known_of known.now) op zero other (found_tree a.entry) (found_tree b.entry) }
{
    let ctype = binary_type(known, op, zero, other, a.ctype, b.ctype)?;
    let value = both_value(known, op, a, b);
    Some(Found { ctype, value })
}

fn converted<'a>(t: Scalar<'a>, value: Option<i128>) -> Option<i128>
    ensures { result ≡ option_map (spec.converted (spec.number_type (scalar_tree t.entry))) value }
{
    match value {
        Some(v) => Some(convert(number_type(t), v)),
        None => None,
    }
}

fn chosen_value<'a>(
    t: Scalar<'a>,
    condition: Option<i128>,
    x: Option<i128>,
    y: Option<i128>,
) -> Option<i128>
    ensures { result ≡ walk_spec.chosen_value (scalar_tree t.entry) condition x y }
{
    let q = condition?;
    converted(t, if is_zero(q) { y } else { x })
}

fn found_cond<'a>(
    zero: bool,
    other: bool,
    c: Found<'a>,
    a: Found<'a>,
    b: Found<'a>,
) -> Option<Found<'a>>
    ensures { option_map found_tree result ≡ walk_spec.found_cond zero other (found_tree c.entry) (found_tree a.entry) (found_tree b.entry) }
{
    let ctype = arms_type(zero, other, a.ctype, b.ctype)?;
    let value = chosen_value(ctype, c.value, a.value, b.value);
    Some(Found { ctype, value })
}

fn found_cast<'a>(t: &'a CType, a: Found<'a>) -> Option<Found<'a>>
    ensures { option_map found_tree result ≡ walk_spec.found_cast (type_tree t.now) (found_tree a.entry) }
{
    let ctype = scalar_of(t)?;
    let value = converted(ctype, a.value);
    Some(Found { ctype, value })
}

fn found_name<'a>(known: &Unit, n: u32) -> Option<Found<'a>>
    ensures { option_map found_tree result ≡ walk_spec.found_kind (known_of known.now) (name n) }
{
    let v = constant_of(known, n)?;
    Some(Found {
        ctype: Scalar::Int(signed_int()),
        value: Some(v),
    })
}

fn found_size<'a>(known: &Unit, t: &CType) -> Option<Found<'a>>
    ensures { option_map found_tree result ≡ walk_spec.found_kind (known_of known.now) (size_of (type_tree t.now)) }
{
    let n = size_of(known, t)?;
    Some(Found {
        ctype: Scalar::Int(unsigned_long()),
        value: Some(wide(n)),
    })
}

fn walk<'a>(known: &Unit, e: &'a Expr) -> Option<Found<'a>>
    ensures { option_map found_tree result ≡ walk_spec.found_in (known_of known.now) (expr_tree e.now) }
{
    match &e.kind {
        ExprKind::Num(v, t) => Some(Found {
            ctype: Scalar::Int(*t),
            value: Some(*v),
        }),
        ExprKind::Name(n) => found_name(known, *n),
        ExprKind::Unary(op, x) => {
            let a = walk(known, x)?;
            found_unary(*op, a)
        }
        ExprKind::Binary(op, x, y) => {
            let a = walk(known, x)?;
            let b = walk(known, y)?;
            let zero = is_zero_constant(known, x);
            let other = is_zero_constant(known, y);
            found_binary(known, *op, zero, other, a, b)
        }
        ExprKind::Cond(q, x, y) => {
            let c = walk(known, q)?;
            let a = walk(known, x)?;
            let b = walk(known, y)?;
            let zero = is_zero_constant(known, x);
            let other = is_zero_constant(known, y);
            found_cond(zero, other, c, a, b)
        }
        ExprKind::Cast(t, x) => {
            let a = walk(known, x)?;
            found_cast(t, a)
        }
        ExprKind::SizeOf(t) => found_size(known, t),
        ExprKind::Local(_) | ExprKind::Global(_) | ExprKind::SizeOfExpr(_) => None,
        ExprKind::Index(_, _) | ExprKind::Member(_, _) | ExprKind::Arrow(_, _) => None,
        ExprKind::Deref(_) | ExprKind::Address(_) => None,
    }
}

fn integer_found(found: Option<Found<'_>>) -> Option<i128>
    ensures { result ≡ walk_spec.integer_found (option_map found_tree found.entry) }
{
    let found = found?;
    match found.ctype {
        Scalar::Int(_) => found.value,
        Scalar::Ptr(_) => None,
    }
}

fn is_found(found: Option<Found<'_>>) -> bool
    ensures { result ≡ walk_spec.is_found (option_map found_tree found.entry) }
{
    match found {
        Some(found) => found.value.is_some(),
        None => false,
    }
}

/// The value of the expression, where it is an integer constant expression (C11 6.6): one of an
/// integer type, of constants, enumeration constants and sizes of types.
#[tactic(auto, using(crate::proofs::Together::integer_law))]
pub fn constant_value(known: &Unit, e: &Expr) -> Option<i128>
    ensures { result ≡ spec.constant_in (known_of known.now) (expr_tree e.now) }
{
    integer_found(walk(known, e))
}

/// Whether the expression may initialise an object of a file: it is such a constant, of an integer
/// type or a pointer type.
#[tactic(auto, using(crate::proofs::Together::initial_law))]
pub fn is_constant(known: &Unit, e: &Expr) -> bool
    ensures { result ≡ spec.is_constant (known_of known.now) (expr_tree e.now) }
{
    is_found(walk(known, e))
}
