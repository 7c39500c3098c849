ghost use Rattle.std.specs.Prelude.{map, option_map};
ghost use Rattle.cx_ctree.specs.Exprs.{expr_tree, effect_tree};
ghost use Rattle.cx_ctree.specs.Stmts.{stmt, block, if_alone as if_kind, if_else as else_kind, while as while_kind, do_while as do_kind, for as for_kind, switch as switch_kind, stmt_tree, stmt_trees, group_trees};
ghost use Rattle.cx_scope.specs.Views.{locals_of};
ghost use Rattle.cx_sfile.specs.Views.{declared_in};
ghost use Rattle.cx_snode.specs.Judging.{Gives};
ghost use Rattle.cx_sstmt.specs.Stmts as spec;
ghost use Rattle.cx_sstmt.specs.Joined.{Makes, head_view};

use crate::make::{do_loop, for_loop, if_alone, if_else, of_block, of_switch, while_loop};
use cx_base::{List, Span};
use cx_ctree::{Effect, Expr, Group, Stmt};
use cx_scope::Locals;
use cx_seffect::{typed_effects, typed_optional};
use cx_sfile::File;
use cx_snode::SemaFault;
use std::alloc::Global;

/// What stands in the parentheses of a `for`.
#[derive(Drop)]
pub struct Head {
    pub init: List<Stmt>,
    pub c: Option<Expr>,
    pub steps: List<Effect>,
}

pub fn block_of(span: Span, ss: Result<List<Stmt>, SemaFault>) -> Result<Stmt, SemaFault>
    ensures { Makes stmt_trees stmt_tree (λ x. stmt span (block x)) ss result }
{
    match ss {
        Ok(ss) => Ok(of_block(span, ss)),
        Err(e) => Err(e),
    }
}

pub fn if_of(
    alloc: Global,
    span: Span,
    c: Expr,
    a: Result<Stmt, SemaFault>,
) -> Result<Stmt, SemaFault>
    ensures { Makes stmt_tree stmt_tree (λ x. stmt span (if_kind (expr_tree c) x)) a result }
{
    match a {
        Ok(a) => Ok(if_alone(alloc, span, c, a)?),
        Err(e) => Err(e),
    }
}

pub fn else_of(
    alloc: Global,
    span: Span,
    c: Expr,
    a: Stmt,
    b: Result<Stmt, SemaFault>,
) -> Result<Stmt, SemaFault>
    ensures { Makes stmt_tree stmt_tree (λ x. stmt span (else_kind (expr_tree c) (stmt_tree a) x)) b result }
{
    match b {
        Ok(b) => Ok(if_else(alloc, span, c, a, b)?),
        Err(e) => Err(e),
    }
}

pub fn while_of(
    alloc: Global,
    span: Span,
    c: Expr,
    a: Result<Stmt, SemaFault>,
) -> Result<Stmt, SemaFault>
    ensures { Makes stmt_tree stmt_tree (λ x. stmt span (while_kind (expr_tree c) x)) a result }
{
    match a {
        Ok(a) => Ok(while_loop(alloc, span, c, a)?),
        Err(e) => Err(e),
    }
}

pub fn do_of(
    alloc: Global,
    span: Span,
    a: Stmt,
    c: Result<Expr, SemaFault>,
) -> Result<Stmt, SemaFault>
    ensures { Makes expr_tree stmt_tree (λ x. stmt span (do_kind (stmt_tree a) x)) c result }
{
    match c {
        Ok(c) => Ok(do_loop(alloc, span, a, c)?),
        Err(e) => Err(e),
    }
}

/// The head of a `for`, of which the first part has been judged.
#[tactic(auto, using(cx_snode::proofs::Judged::tells_then, cx_snode::proofs::Judged::gives_then))]
pub fn head_of(
    alloc: Global,
    file: &File<'_>,
    locals: &Locals,
    init: List<Stmt>,
    c: Option<&Expr>,
    steps: &[Effect],
) -> Result<Head, SemaFault>
    ensures { Gives head_view result (spec.for_head (declared_in file.now) (locals_of locals.now) (stmt_trees init) (option_map (λ x. expr_tree x.now) c.entry) (map effect_tree steps.now)) }
{
    let c = typed_optional(alloc, file, locals, c)?;
    let steps = typed_effects(alloc, file, locals, steps)?;
    Ok(Head { init, c, steps })
}

pub fn for_of(
    alloc: Global,
    span: Span,
    head: Head,
    a: Result<Stmt, SemaFault>,
) -> Result<Stmt, SemaFault>
    ensures { Makes stmt_tree stmt_tree (λ x. stmt span (for_kind (stmt_trees head.init) (option_map expr_tree head.c) (map effect_tree head.steps) x)) a result }
{
    match a {
        Ok(a) => Ok(for_loop(alloc, span, head.init, head.c, head.steps, a)?),
        Err(e) => Err(e),
    }
}

pub fn switch_of(
    span: Span,
    v: Expr,
    groups: Result<List<Group>, SemaFault>,
) -> Result<Stmt, SemaFault>
    ensures { Makes group_trees stmt_tree (λ x. stmt span (switch_kind (expr_tree v) x)) groups result }
{
    match groups {
        Ok(groups) => Ok(of_switch(span, v, groups)),
        Err(e) => Err(e),
    }
}
