ghost use Rattle.std.specs.Prelude.{◌≡◌, option_map};
ghost use Rattle.cx_ctree.specs.Types.{type_tree};
ghost use Rattle.cx_ctree.specs.Exprs.{expr_tree, rhs_tree, effect_tree};
ghost use Rattle.cx_ctree.specs.Stmts.{stmt_tree, break as break_kind, continue as continue_kind};
ghost use Rattle.cx_scope.specs.Views.{locals_of};
ghost use Rattle.cx_sfile.specs.Views.{declared_in};
ghost use Rattle.cx_snode.specs.Judging.{Gives};
ghost use Rattle.cx_seffect.specs.Taken.{taken_view};
ghost use Rattle.cx_sstmt.specs.Stmts as spec;
ghost use Rattle.cx_sstmt.specs.Around.{Leaves};

use crate::make::of_effect;
use cx_base::{CInt, Span};
use cx_ctree::{CType, Effect, Expr, Rhs, Stmt, StmtKind};
use cx_ctype::{is_int, number_type, promoted, value_type};
use cx_scope::Locals;
use cx_seffect::{Taken, assigned, is_void, typed_effect, typed_rhs};
use cx_sfile::File;
use cx_snode::SemaFault;
use std::alloc::Global;

#[tactic(auto, using(cx_snode::proofs::Judged::tells_then, cx_snode::proofs::Judged::gives_then))]
fn returned(span: Span, of: &CType, v: Taken) -> Result<Stmt, SemaFault>
    ensures { Gives stmt_tree result (spec.returned span (type_tree of.now) (taken_view v)) }
{
    if is_void(of) {
        return Err(SemaFault::NotWellTyped { span, rule: 9 });
    }
    let r = assigned(of, v)?;
    let kind = StmtKind::Return(Some(r));
    Ok(Stmt { span, kind })
}

#[tactic(auto, using(cx_snode::proofs::Judged::tells_then, cx_snode::proofs::Judged::gives_then))]
fn returning(
    alloc: Global,
    file: &File<'_>,
    locals: &Locals,
    span: Span,
    of: &CType,
    r: Option<&Rhs>,
) -> Result<Stmt, SemaFault>
    ensures { Gives stmt_tree result (spec.typed_return (declared_in file.now) (locals_of locals.now) span (type_tree of.now) (option_map (λ r. rhs_tree r.now) r.entry)) }
{
    match r {
        None => {
            if is_void(of) {
                let kind = StmtKind::Return(None);
                Ok(Stmt { span, kind })
            } else {
                Err(SemaFault::NotWellTyped { span, rule: 9 })
            }
        }
        Some(r) => {
            let v = typed_rhs(alloc, file, locals, r)?;
            returned(span, of, v)
        }
    }
}

/// A return from a function whose result has the type `of` (C11 6.8.6.4).
#[tactic(auto, using(crate::proofs::Steps::stays))]
pub fn typed_return(
    alloc: Global,
    file: &File<'_>,
    locals: &Locals,
    span: Span,
    of: &CType,
    r: Option<&Rhs>,
) -> Result<Stmt, SemaFault>
    ensures { Leaves stmt_tree result (locals_of locals.now) (spec.staying (locals_of locals.now) (spec.typed_return (declared_in file.now) (locals_of locals.now) span (type_tree of.now) (option_map (λ r. rhs_tree r.now) r.entry))) }
{
    returning(alloc, file, locals, span, of, r)
}

/// A `break` (C11 6.8.6.3), where it is told whether it may stand there.
pub fn typed_break(locals: &Locals, span: Span, may: bool) -> Result<Stmt, SemaFault>
    ensures { Leaves stmt_tree result (locals_of locals.now) (spec.staying (locals_of locals.now) (spec.typed_jump span may break_kind)) }
{
    if may {
        let kind = StmtKind::Break;
        Ok(Stmt { span, kind })
    } else {
        Err(SemaFault::NotWellTyped { span, rule: 11 })
    }
}

/// A `continue` (C11 6.8.6.2), where it is told whether it may stand there.
pub fn typed_continue(locals: &Locals, span: Span, may: bool) -> Result<Stmt, SemaFault>
    ensures { Leaves stmt_tree result (locals_of locals.now) (spec.staying (locals_of locals.now) (spec.typed_jump span may continue_kind)) }
{
    if may {
        let kind = StmtKind::Continue;
        Ok(Stmt { span, kind })
    } else {
        Err(SemaFault::NotWellTyped { span, rule: 11 })
    }
}

/// An effect that stands alone (C11 6.8.3).
#[tactic(auto, using(cx_snode::proofs::Judged::tells_then, cx_snode::proofs::Judged::gives_then))]
pub fn typed_alone(
    alloc: Global,
    file: &File<'_>,
    locals: &Locals,
    span: Span,
    e: &Effect,
) -> Result<Stmt, SemaFault>
    ensures { Leaves stmt_tree result (locals_of locals.now) (spec.staying (locals_of locals.now) (spec.typed_alone (declared_in file.now) (locals_of locals.now) span (effect_tree e.now))) }
{
    let e = typed_effect(alloc, file, locals, e)?;
    Ok(of_effect(span, e))
}

/// The value that a switch is on.
pub fn switched(x: Expr) -> Result<Expr, SemaFault>
    ensures { Gives expr_tree result (spec.switched (expr_tree x)) }
{
    if is_int(value_type(&x.ctype)) {
        Ok(x)
    } else {
        Err(SemaFault::NotWellTyped {
            span: x.span,
            rule: 10,
        })
    }
}

/// The type that the labels of a switch are converted to.
pub fn label_type(x: &Expr) -> CInt
    ensures { result ≡ spec.label_type (expr_tree x.now) }
{
    promoted(number_type(value_type(&x.ctype)))
}
