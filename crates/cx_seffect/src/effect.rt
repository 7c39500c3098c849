ghost use Rattle.std.specs.Prelude.{◌≡◌, map, option_map, IfOk};
ghost use Rattle.cx_ctree.specs.Types.{type_tree};
ghost use Rattle.cx_ctree.specs.Exprs.{expr_tree, effect_tree};
ghost use Rattle.cx_scope.specs.Views.{locals_of};
ghost use Rattle.cx_sfile.specs.Views.{declared_in};
ghost use Rattle.cx_snode.specs.Judging.{Gives};
ghost use Rattle.cx_snode.specs.Nodes.{value_of};
ghost use Rattle.cx_seffect.specs.Effects as spec;
ghost use Rattle.cx_seffect.specs.Taken.{taken_view};

use crate::call::typed_call;
use crate::kind::is_scalar_type;
use crate::taken::{Taken, assigned, typed_rhs};
use cx_base::{List, NoMemory, Span};
use cx_ctree::{Binary, CType, Effect, Expr, ExprKind};
use cx_ctype::{in_memory, is_movable, is_scalar, is_updatable, value_type};
use cx_scope::Locals;
use cx_sexpr::typed;
use cx_sfile::File;
use cx_snode::SemaFault;
use std::alloc::Global;

fn is_local(x: &Expr) -> bool
    ensures { result ≡ spec.is_local (expr_tree x.now) }
{
    match &x.kind {
        ExprKind::Local(_) => true,
        ExprKind::Num(_, _) | ExprKind::Name(_) | ExprKind::Global(_) => false,
        ExprKind::Unary(_, _) | ExprKind::Binary(_, _, _) | ExprKind::Cond(_, _, _) => false,
        ExprKind::Cast(_, _) | ExprKind::SizeOf(_) | ExprKind::SizeOfExpr(_) => false,
        ExprKind::Index(_, _) | ExprKind::Member(_, _) | ExprKind::Arrow(_, _) => false,
        ExprKind::Deref(_) | ExprKind::Address(_) => false,
    }
}

fn is_place(x: &Expr) -> bool
    ensures { result ≡ spec.is_place (expr_tree x.now) }
{
    (is_local(x) || in_memory(x)) && is_scalar_type(&x.ctype)
}

#[tactic(auto, using(cx_snode::proofs::Judged::tells_then, cx_snode::proofs::Judged::gives_then))]
fn set_node(span: Span, l: Expr, v: Taken) -> Result<Effect, SemaFault>
    ensures { Gives effect_tree result (spec.set_node span (expr_tree l) (taken_view v)) }
{
    if !is_place(&l) {
        return Err(SemaFault::NotWellTyped { span, rule: 6 });
    }
    let r = assigned(&l.ctype, v)?;
    Ok(Effect::Set(l, r, span))
}

fn update_node(
    file: &File<'_>,
    span: Span,
    op: Binary,
    l: Expr,
    x: Expr,
) -> Result<Effect, SemaFault>
    ensures { Gives effect_tree result (spec.update_node (declared_in file.now) span op (expr_tree l) (expr_tree x)) }
{
    if !is_place(&l) {
        return Err(SemaFault::NotWellTyped { span, rule: 6 });
    }
    let t = value_type(&l.ctype);
    if !is_updatable(op, t, value_type(&x.ctype)) {
        return Err(SemaFault::NotWellTyped { span, rule: 16 });
    }
    if !is_movable(file.unit, t) {
        return Err(SemaFault::NotWellTyped { span, rule: 19 });
    }
    Ok(Effect::Update(op, l, x, span))
}

fn alone(x: Expr) -> Result<Expr, SemaFault>
    ensures { Gives expr_tree result (spec.alone (expr_tree x)) }
{
    if is_scalar(value_type(&x.ctype)) {
        Ok(x)
    } else {
        Err(SemaFault::NotWellTyped {
            span: x.span,
            rule: 18,
        })
    }
}

fn away<'a>(to: &CType, x: &'a Expr) -> Option<&'a Expr>
    ensures { option_map (λ a. expr_tree a.now) result ≡ spec.away (type_tree to.now) (expr_tree x.now) }
{
    match to {
        CType::Void => Some(x),
        CType::Int(_) | CType::Ptr(_) | CType::Array(_, _) | CType::Tag(_) => None,
    }
}

/// What is cast to void, where the expression is such a cast.
fn cast_away(x: &Expr) -> Option<&Expr>
    ensures { option_map (λ a. expr_tree a.now) result ≡ spec.cast_away (expr_tree x.now) }
{
    match &x.kind {
        ExprKind::Cast(to, a) => away(to, a),
        ExprKind::Num(_, _) | ExprKind::Name(_) | ExprKind::Local(_) => None,
        ExprKind::Global(_) | ExprKind::Unary(_, _) | ExprKind::Binary(_, _, _) => None,
        ExprKind::Cond(_, _, _) | ExprKind::SizeOf(_) | ExprKind::SizeOfExpr(_) => None,
        ExprKind::Index(_, _) | ExprKind::Member(_, _) | ExprKind::Arrow(_, _) => None,
        ExprKind::Deref(_) | ExprKind::Address(_) => None,
    }
}

/// A cast to void of a value that has its types.
fn cast_to_void(alloc: Global, span: Span, x: Expr) -> Result<Expr, NoMemory>
    ensures { IfOk result (λ y. expr_tree y ≡ spec.cast_to_void span (expr_tree x)) }
{
    Ok(Expr {
        span,
        ctype: CType::Void,
        kind: ExprKind::Cast(CType::Void, Box::new(alloc, x)?),
    })
}

#[tactic(auto, using(cx_snode::proofs::Judged::tells_then, cx_snode::proofs::Judged::gives_then))]
fn typed_alone(alloc: Global, file: &File<'_>, locals: &Locals, x: &Expr) -> Result<Expr, SemaFault>
    ensures { Gives expr_tree result (spec.typed_alone (declared_in file.now) (locals_of locals.now) (expr_tree x.now)) }
{
    match cast_away(x) {
        None => alone(typed(alloc, file, locals, x)?),
        Some(a) => {
            let a = alone(typed(alloc, file, locals, a)?)?;
            Ok(cast_to_void(alloc, x.span, a)?)
        }
    }
}

/// The effect with its types, or the first rule that it breaks.
#[tactic(auto, using(cx_snode::proofs::Judged::tells_then, cx_snode::proofs::Judged::gives_then), unfolding(crate::specs::Effects::typed_effect))]
pub fn typed_effect(
    alloc: Global,
    file: &File<'_>,
    locals: &Locals,
    e: &Effect,
) -> Result<Effect, SemaFault>
    ensures { Gives effect_tree result (spec.typed_effect (declared_in file.now) (locals_of locals.now) (effect_tree e.now)) }
{
    match e {
        Effect::Set(l, r, span) => {
            let l = typed(alloc, file, locals, l)?;
            let v = typed_rhs(alloc, file, locals, r)?;
            set_node(*span, l, v)
        }
        Effect::Update(op, l, x, span) => {
            let l = typed(alloc, file, locals, l)?;
            let x = typed(alloc, file, locals, x)?;
            update_node(file, *span, *op, l, x)
        }
        Effect::Call(call) => {
            let d = typed_call(alloc, file, locals, false, call)?;
            Ok(Effect::Call(d.call))
        }
        Effect::Value(x) => {
            let x = typed_alone(alloc, file, locals, x)?;
            Ok(Effect::Value(x))
        }
    }
}

/// Effects in order.
#[tactic(auto, using(cx_snode::proofs::Judged::behind_none, cx_snode::proofs::Judged::one_more, cx_snode::proofs::Judged::fault_of_next, crate::proofs::Lists::all_done))]
pub fn typed_effects(
    alloc: Global,
    file: &File<'_>,
    locals: &Locals,
    effects: &[Effect],
) -> Result<List<Effect>, SemaFault>
    ensures { Gives (map effect_tree) result (spec.typed_effects (declared_in file.now) (locals_of locals.now) (map effect_tree effects.now)) }
{
    let mut done = List::new(alloc);
    let mut rest = effects;
    while let [e, after @ ..] = rest {
        done.push(typed_effect(alloc, file, locals, e)?)?;
        rest = after;
    }
    Ok(done)
}

/// The condition of a statement (C11 6.8.4, 6.8.5).
#[tactic(auto, using(cx_snode::proofs::Judged::tells_then, cx_snode::proofs::Judged::gives_then))]
pub fn typed_condition(
    alloc: Global,
    file: &File<'_>,
    locals: &Locals,
    x: &Expr,
) -> Result<Expr, SemaFault>
    ensures { Gives expr_tree result (spec.typed_condition (declared_in file.now) (locals_of locals.now) (expr_tree x.now)) }
{
    let x = typed(alloc, file, locals, x)?;
    if is_scalar(value_type(&x.ctype)) {
        Ok(x)
    } else {
        Err(SemaFault::NotWellTyped {
            span: x.span,
            rule: 14,
        })
    }
}

/// The condition of a loop that may have none.
#[tactic(auto, using(cx_snode::proofs::Judged::tells_then, cx_snode::proofs::Judged::gives_then))]
pub fn typed_optional(
    alloc: Global,
    file: &File<'_>,
    locals: &Locals,
    x: Option<&Expr>,
) -> Result<Option<Expr>, SemaFault>
    ensures { Gives (option_map expr_tree) result (spec.typed_optional (declared_in file.now) (locals_of locals.now) (option_map (λ x. expr_tree x.now) x.entry)) }
{
    match x {
        None => Ok(None),
        Some(x) => Ok(Some(typed_condition(alloc, file, locals, x)?)),
    }
}
