ghost use Rattle.std.specs.Prelude.{IfOk};
ghost use Rattle.cx_ctree.specs.Exprs.{expr_tree};
ghost use Rattle.cx_scope.specs.Views.{locals_of};
ghost use Rattle.cx_sfile.specs.Views.{declared_in};
ghost use Rattle.cx_snode.specs.Judging.{Gives};
ghost use Rattle.cx_sexpr.specs.Typing as spec;
ghost use Rattle.cx_sexpr.specs.Kept.{IsTyped};

use crate::name::name_node;
use cx_ctree::{Expr, ExprKind};
use cx_scope::Locals;
use cx_sfile::File;
use cx_snode::{
    SemaFault, address_node, arrow_node, binary_node, cast_node, cond_node, deref_node, index_node,
    member_node, number_node, size_node, size_of_node, unary_node,
};
use std::alloc::Global;

#[tactic(auto, using(cx_snode::proofs::Judged::tells_then, cx_snode::proofs::Judged::gives_then))]
fn walked(alloc: Global, file: &File<'_>, locals: &Locals, e: &Expr) -> Result<Expr, SemaFault>
    ensures { Gives expr_tree result (spec.typed (declared_in file.now) (locals_of locals.now) (expr_tree e.now)) }
{
    let span = e.span;
    match &e.kind {
        ExprKind::Num(v, t) => Ok(number_node(span, *v, *t)),
        ExprKind::Name(n) => name_node(file, locals, span, *n),
        ExprKind::Local(_) | ExprKind::Global(_) => Err(SemaFault::NotWellTyped { span, rule: 1 }),
        ExprKind::Unary(op, x) => {
            let x = walked(alloc, file, locals, x)?;
            unary_node(alloc, span, *op, x)
        }
        ExprKind::Binary(op, x, y) => {
            let x = walked(alloc, file, locals, x)?;
            let y = walked(alloc, file, locals, y)?;
            binary_node(alloc, file.unit, span, *op, x, y)
        }
        ExprKind::Cond(c, x, y) => {
            let c = walked(alloc, file, locals, c)?;
            let x = walked(alloc, file, locals, x)?;
            let y = walked(alloc, file, locals, y)?;
            cond_node(alloc, file.unit, span, c, x, y)
        }
        ExprKind::Cast(to, x) => {
            let x = walked(alloc, file, locals, x)?;
            cast_node(alloc, span, to, x)
        }
        ExprKind::SizeOf(of) => size_node(alloc, file.unit, span, of),
        ExprKind::SizeOfExpr(x) => {
            let x = walked(alloc, file, locals, x)?;
            size_of_node(alloc, file.unit, span, x)
        }
        ExprKind::Index(x, y) => {
            let x = walked(alloc, file, locals, x)?;
            let y = walked(alloc, file, locals, y)?;
            index_node(alloc, file.unit, span, x, y)
        }
        ExprKind::Member(x, m) => {
            let x = walked(alloc, file, locals, x)?;
            member_node(alloc, file, span, x, *m)
        }
        ExprKind::Arrow(x, m) => {
            let x = walked(alloc, file, locals, x)?;
            arrow_node(alloc, file, span, x, *m)
        }
        ExprKind::Deref(x) => {
            let x = walked(alloc, file, locals, x)?;
            deref_node(alloc, file.unit, span, x)
        }
        ExprKind::Address(x) => {
            let x = walked(alloc, file, locals, x)?;
            address_node(alloc, span, x)
        }
    }
}

/// The expression with its types, or the first rule that it breaks.
pub fn typed(alloc: Global, file: &File<'_>, locals: &Locals, e: &Expr) -> Result<Expr, SemaFault>
    ensures answer { Gives expr_tree result (spec.typed (declared_in file.now) (locals_of locals.now) (expr_tree e.now)) }
    ensures kept { IfOk result (λ y. IsTyped (declared_in file.now) (locals_of locals.now).types (expr_tree y)) }
{
    walked(alloc, file, locals, e)
}
