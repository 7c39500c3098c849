ghost use Rattle.std.specs.Prelude.{◌≡◌, pos};
ghost use Rattle.std.specs.Ordering.{int_eq};
ghost use Rattle.cx_ctree.specs.Types.{type_tree};
ghost use Rattle.cx_ctree.specs.Exprs.{expr_tree};
ghost use Rattle.cx_cname.specs.Known.{known_of};
ghost use Rattle.cx_ctype.specs.Operations as spec;

use cx_cname::constant_of;
use cx_ctree::{CType, Expr, ExprKind, Unit};

fn is_naught(v: i128) -> bool
    ensures { result ≡ int_eq v (pos 0) }
{
    v == 0
}

fn is_zero_number(known: &Unit, e: &Expr) -> bool
    ensures { result ≡ spec.is_zero_number (known_of known.now) (expr_tree e.now) }
{
    match &e.kind {
        ExprKind::Num(v, _) => is_naught(*v),
        ExprKind::Name(n) => match constant_of(known, *n) {
            Some(v) => is_naught(v),
            None => false,
        },
        ExprKind::Local(_) | ExprKind::Global(_) => false,
        ExprKind::Unary(_, _) | ExprKind::Binary(_, _, _) | ExprKind::Cond(_, _, _) => false,
        ExprKind::Cast(_, _) | ExprKind::SizeOf(_) | ExprKind::SizeOfExpr(_) => false,
        ExprKind::Index(_, _) | ExprKind::Member(_, _) | ExprKind::Arrow(_, _) => false,
        ExprKind::Deref(_) | ExprKind::Address(_) => false,
    }
}

fn is_void_pointer(t: &CType) -> bool
    ensures { result ≡ spec.is_void_pointer (type_tree t.now) }
{
    match t {
        CType::Ptr(pointee) => match &**pointee {
            CType::Void => true,
            CType::Int(_) | CType::Ptr(_) | CType::Array(_, _) | CType::Tag(_) => false,
        },
        CType::Void | CType::Int(_) | CType::Array(_, _) | CType::Tag(_) => false,
    }
}

/// Whether the expression is the constant 0 (C11 6.3.2.3): a number or an enumeration constant that
/// is 0, or such a one cast to `void *`.
pub fn is_zero(known: &Unit, e: &Expr) -> bool
    ensures { result ≡ spec.is_zero (known_of known.now) (expr_tree e.now) }
{
    match &e.kind {
        ExprKind::Num(_, _) | ExprKind::Name(_) => is_zero_number(known, e),
        ExprKind::Cast(t, a) => is_void_pointer(t) && is_zero_number(known, a),
        ExprKind::Local(_) | ExprKind::Global(_) => false,
        ExprKind::Unary(_, _) | ExprKind::Binary(_, _, _) | ExprKind::Cond(_, _, _) => false,
        ExprKind::SizeOf(_) | ExprKind::SizeOfExpr(_) => false,
        ExprKind::Index(_, _) | ExprKind::Member(_, _) | ExprKind::Arrow(_, _) => false,
        ExprKind::Deref(_) | ExprKind::Address(_) => false,
    }
}
