ghost use Rattle.std.specs.Prelude.{◌≡◌, option_map};
ghost use Rattle.cx_ctree.specs.Types.{type_tree};
ghost use Rattle.cx_ctree.specs.Exprs.{expr_tree};
ghost use Rattle.cx_cname.specs.Known.{known_of};
ghost use Rattle.cx_ctype.specs.Accesses as access;
ghost use Rattle.cx_ctype.specs.Operations as types;
ghost use Rattle.cx_ctype.specs.ValueTypes.{value_tree};
ghost use Rattle.cx_sfile.specs.Views.{declared_in};
ghost use Rattle.cx_snode.specs.Judging.{Gives, typed_or};
ghost use Rattle.cx_snode.specs.Nodes as spec;

use crate::fault::SemaFault;
use crate::rule::{binary_rule, index_rule, member_rule, size_rule, unary_rule};
use cx_base::{CInt, Span};
use cx_cname::is_complete;
use cx_ctree::{Binary, CType, Expr, ExprKind, Unary, Unit};
use cx_ctype::{
    ValueType, arms_type, binary_type, cast_type, ctype_of, element, in_memory, is_scalar,
    is_sized, is_zero, pointee, unary_type, unsigned_long, value_type,
};
use cx_sfile::File;
use std::alloc::Global;

/// The type, or else this rule is broken here.
fn value_or(
    alloc: Global,
    span: Span,
    rule: u8,
    t: Option<ValueType<'_>>,
) -> Result<CType, SemaFault>
    ensures { Gives type_tree result (typed_or span rule (option_map value_tree t.entry)) }
{
    match t {
        Some(t) => Ok(ctype_of(alloc, t)?),
        None => Err(SemaFault::NotWellTyped { span, rule }),
    }
}

/// A copy of the type, or else this rule is broken here.
fn type_or(span: Span, rule: u8, t: Option<&CType>) -> Result<CType, SemaFault>
    ensures { Gives type_tree result (typed_or span rule (option_map (λ t. type_tree t.now) t.entry)) }
{
    match t {
        Some(t) => Ok(t.copy()?),
        None => Err(SemaFault::NotWellTyped { span, rule }),
    }
}

/// A number of this type.
pub fn number_node(span: Span, v: i128, t: CInt) -> Expr
    ensures { expr_tree result ≡ spec.number_node span v t }
{
    Expr {
        span,
        ctype: CType::Int(t),
        kind: ExprKind::Num(v, t),
    }
}

/// The operator with its operand.
#[tactic(auto, using(crate::proofs::Judged::tells_then, crate::proofs::Judged::gives_then))]
pub fn unary_node(alloc: Global, span: Span, op: Unary, x: Expr) -> Result<Expr, SemaFault>
    ensures { Gives expr_tree result (spec.unary_node span op (expr_tree x)) }
{
    let t = unary_type(op, value_type(&x.ctype));
    let ctype = value_or(alloc, span, unary_rule(op), t)?;
    let kind = ExprKind::Unary(op, Box::new(alloc, x)?);
    Ok(Expr { span, ctype, kind })
}

/// The operator with its operands.
#[tactic(auto, using(crate::proofs::Judged::tells_then, crate::proofs::Judged::gives_then))]
pub fn binary_node(
    alloc: Global,
    known: &Unit,
    span: Span,
    op: Binary,
    x: Expr,
    y: Expr,
) -> Result<Expr, SemaFault>
    ensures { Gives expr_tree result (spec.binary_node (known_of known.now) span op (expr_tree x) (expr_tree y)) }
{
    let t = value_type(&x.ctype);
    let w = value_type(&y.ctype);
    let both = binary_type(known, op, is_zero(known, &x), is_zero(known, &y), t, w);
    let ctype = value_or(alloc, span, binary_rule(op, t, w), both)?;
    let kind = ExprKind::Binary(op, Box::new(alloc, x)?, Box::new(alloc, y)?);
    Ok(Expr { span, ctype, kind })
}

fn arms_ctype(
    alloc: Global,
    known: &Unit,
    span: Span,
    x: &Expr,
    y: &Expr,
) -> Result<CType, SemaFault>
    ensures { Gives type_tree result (spec.arms_judged (known_of known.now) span (expr_tree x.now) (expr_tree y.now)) }
{
    let t = value_type(&x.ctype);
    let w = value_type(&y.ctype);
    let arms = arms_type(is_zero(known, x), is_zero(known, y), t, w);
    value_or(alloc, span, 15, arms)
}

#[tactic(auto, using(crate::proofs::Judged::tells_then, crate::proofs::Judged::gives_then))]
fn chosen_node(
    alloc: Global,
    known: &Unit,
    span: Span,
    c: Expr,
    x: Expr,
    y: Expr,
) -> Result<Expr, SemaFault>
    ensures { Gives expr_tree result (spec.chosen_node (known_of known.now) span (expr_tree c) (expr_tree x) (expr_tree y)) }
{
    let ctype = arms_ctype(alloc, known, span, &x, &y)?;
    let condition = Box::new(alloc, c)?;
    let kind = ExprKind::Cond(condition, Box::new(alloc, x)?, Box::new(alloc, y)?);
    Ok(Expr { span, ctype, kind })
}

/// The conditional with its condition and its arms.
pub fn cond_node(
    alloc: Global,
    known: &Unit,
    span: Span,
    c: Expr,
    x: Expr,
    y: Expr,
) -> Result<Expr, SemaFault>
    ensures { Gives expr_tree result (spec.cond_node (known_of known.now) span (expr_tree c) (expr_tree x) (expr_tree y)) }
{
    if is_scalar(value_type(&c.ctype)) {
        chosen_node(alloc, known, span, c, x, y)
    } else {
        Err(SemaFault::NotWellTyped { span, rule: 14 })
    }
}

/// The cast of the value to the type.
#[tactic(auto, using(crate::proofs::Judged::tells_then, crate::proofs::Judged::gives_then))]
pub fn cast_node(alloc: Global, span: Span, to: &CType, x: Expr) -> Result<Expr, SemaFault>
    ensures { Gives expr_tree result (spec.cast_node span (type_tree to.now) (expr_tree x)) }
{
    let t = cast_type(to, value_type(&x.ctype));
    let ctype = value_or(alloc, span, 7, t)?;
    let kind = ExprKind::Cast(to.copy()?, Box::new(alloc, x)?);
    Ok(Expr { span, ctype, kind })
}

fn if_true<'a>(holds: bool, t: ValueType<'a>) -> Option<ValueType<'a>>
    ensures { option_map value_tree result ≡ types.if_true holds (value_tree t.entry) }
{
    if holds { Some(t) } else { None }
}

/// The type of sizes, where the type has one.
fn size_type<'a>(known: &Unit, ctype: &CType) -> Option<ValueType<'a>>
    ensures { option_map value_tree result ≡ access.size_type (known_of known.now) (type_tree ctype.now) }
{
    if_true(is_sized(known, ctype), ValueType::Int(unsigned_long()))
}

/// The size of a type.
#[tactic(auto, using(crate::proofs::Judged::tells_then, crate::proofs::Judged::gives_then))]
pub fn size_node(alloc: Global, known: &Unit, span: Span, of: &CType) -> Result<Expr, SemaFault>
    ensures { Gives expr_tree result (spec.size_node (known_of known.now) span (type_tree of.now)) }
{
    let ctype = value_or(alloc, span, size_rule(known, of), size_type(known, of))?;
    let kind = ExprKind::SizeOf(of.copy()?);
    Ok(Expr { span, ctype, kind })
}

/// The size of the type of an expression.
#[tactic(auto, using(crate::proofs::Judged::tells_then, crate::proofs::Judged::gives_then))]
pub fn size_of_node(alloc: Global, known: &Unit, span: Span, x: Expr) -> Result<Expr, SemaFault>
    ensures { Gives expr_tree result (spec.size_of_node (known_of known.now) span (expr_tree x)) }
{
    let rule = size_rule(known, &x.ctype);
    let ctype = value_or(alloc, span, rule, size_type(known, &x.ctype))?;
    let kind = ExprKind::SizeOfExpr(Box::new(alloc, x)?);
    Ok(Expr { span, ctype, kind })
}

fn if_complete<'a>(known: &Unit, t: Option<&'a CType>) -> Option<&'a CType>
    ensures { option_map (λ t. type_tree t.now) result ≡ access.if_complete (known_of known.now) (option_map (λ t. type_tree t.now) t.entry) }
{
    match t {
        Some(t) => { if is_complete(known, t) { Some(t) } else { None } }
        None => None,
    }
}

fn if_sized<'a>(known: &Unit, t: Option<&'a CType>) -> Option<&'a CType>
    ensures { option_map (λ t. type_tree t.now) result ≡ access.if_sized (known_of known.now) (option_map (λ t. type_tree t.now) t.entry) }
{
    match t {
        Some(t) => { if is_sized(known, t) { Some(t) } else { None } }
        None => None,
    }
}

/// The element of an array, or what lies so far behind a pointer.
#[tactic(auto, using(crate::proofs::Judged::tells_then, crate::proofs::Judged::gives_then))]
pub fn index_node(
    alloc: Global,
    known: &Unit,
    span: Span,
    x: Expr,
    y: Expr,
) -> Result<Expr, SemaFault>
    ensures { Gives expr_tree result (spec.index_node (known_of known.now) span (expr_tree x) (expr_tree y)) }
{
    let complete = if_complete(known, element(value_type(&x.ctype), value_type(&y.ctype)));
    let ctype = type_or(span, index_rule(complete), if_sized(known, complete))?;
    let kind = ExprKind::Index(Box::new(alloc, x)?, Box::new(alloc, y)?);
    Ok(Expr { span, ctype, kind })
}

fn target_of<'a>(known: &Unit, x: &'a Expr) -> Option<&'a CType>
    ensures { option_map (λ t. type_tree t.now) result ≡ spec.target_of (known_of known.now) (expr_tree x.now) }
{
    if_complete(known, pointee(value_type(&x.ctype)))
}

/// What a pointer points to.
#[tactic(auto, using(crate::proofs::Judged::tells_then, crate::proofs::Judged::gives_then))]
pub fn deref_node(alloc: Global, known: &Unit, span: Span, x: Expr) -> Result<Expr, SemaFault>
    ensures { Gives expr_tree result (spec.deref_node (known_of known.now) span (expr_tree x)) }
{
    let ctype = type_or(span, 3, target_of(known, &x))?;
    let kind = ExprKind::Deref(Box::new(alloc, x)?);
    Ok(Expr { span, ctype, kind })
}

fn placed_member<'a>(file: &File<'a>, ctype: &CType, name: u32) -> Option<&'a CType>
    ensures { option_map (λ t. type_tree t.now) result ≡ spec.placed_member (declared_in file.now).known (type_tree ctype.now) name }
{
    if is_sized(file.unit, ctype) {
        file.member_type(ctype, name)
    } else {
        None
    }
}

/// The member of a struct or union.
#[tactic(auto, using(crate::proofs::Judged::tells_then, crate::proofs::Judged::gives_then))]
pub fn member_node(
    alloc: Global,
    file: &File<'_>,
    span: Span,
    x: Expr,
    name: u32,
) -> Result<Expr, SemaFault>
    ensures { Gives expr_tree result (spec.member_node (declared_in file.now).known span (expr_tree x) name) }
{
    let rule = member_rule(file, &x.ctype, name);
    let ctype = type_or(span, rule, placed_member(file, &x.ctype, name))?;
    let kind = ExprKind::Member(Box::new(alloc, x)?, name);
    Ok(Expr { span, ctype, kind })
}

/// The member of the struct or union that a pointer points to.
#[tactic(auto, using(crate::proofs::Judged::tells_then, crate::proofs::Judged::gives_then))]
pub fn arrow_node(
    alloc: Global,
    file: &File<'_>,
    span: Span,
    x: Expr,
    name: u32,
) -> Result<Expr, SemaFault>
    ensures { Gives expr_tree result (spec.arrow_node (declared_in file.now).known span (expr_tree x) name) }
{
    let ctype = match target_of(file.unit, &x) {
        Some(t) => type_or(
            span,
            member_rule(file, t, name),
            placed_member(file, t, name),
        )?,
        None => return Err(SemaFault::NotWellTyped { span, rule: 3 }),
    };
    let kind = ExprKind::Arrow(Box::new(alloc, x)?, name);
    Ok(Expr { span, ctype, kind })
}

/// The address of an object in memory.
#[tactic(auto, using(crate::proofs::Judged::tells_then, crate::proofs::Judged::gives_then))]
pub fn address_node(alloc: Global, span: Span, x: Expr) -> Result<Expr, SemaFault>
    ensures { Gives expr_tree result (spec.address_node span (expr_tree x)) }
{
    let t = if_true(in_memory(&x), ValueType::Ptr(&x.ctype));
    let ctype = value_or(alloc, span, 5, t)?;
    let kind = ExprKind::Address(Box::new(alloc, x)?);
    Ok(Expr { span, ctype, kind })
}
