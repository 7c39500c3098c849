ghost use Rattle.std.specs.Prelude.{◌≡◌, map, option_map, IfOk};
ghost use Rattle.cx_ctree.specs.Exprs.{expr_tree, effect_tree};
ghost use Rattle.cx_ctree.specs.Stmts.{stmt, block, effect as effect_kind, if_alone as if_kind, if_else as else_kind, while as while_kind, do_while as do_kind, for as for_kind, switch as switch_kind, stmt_tree, stmt_trees, group_trees};

use cx_base::{List, NoMemory, Span};
use cx_ctree::{Effect, Expr, Group, Stmt, StmtKind};
use std::alloc::Global;

pub fn of_block(span: Span, ss: List<Stmt>) -> Stmt
    ensures { stmt_tree result ≡ stmt span (block (stmt_trees ss)) }
{
    let kind = StmtKind::Block(ss);
    Stmt { span, kind }
}

pub fn of_effect(span: Span, e: Effect) -> Stmt
    ensures { stmt_tree result ≡ stmt span (effect_kind (effect_tree e)) }
{
    let kind = StmtKind::Effect(e);
    Stmt { span, kind }
}

#[tactic(auto, using(crate::proofs::Folds::of_if))]
pub fn if_alone(alloc: Global, span: Span, c: Expr, a: Stmt) -> Result<Stmt, NoMemory>
    ensures { IfOk result (λ s. stmt_tree s ≡ stmt span (if_kind (expr_tree c) (stmt_tree a))) }
{
    let kind = StmtKind::If(c, Box::new(alloc, a)?, None);
    Ok(Stmt { span, kind })
}

#[tactic(auto, using(crate::proofs::Folds::of_else))]
pub fn if_else(alloc: Global, span: Span, c: Expr, a: Stmt, b: Stmt) -> Result<Stmt, NoMemory>
    ensures { IfOk result (λ s. stmt_tree s ≡ stmt span (else_kind (expr_tree c) (stmt_tree a) (stmt_tree b))) }
{
    let first = Box::new(alloc, a)?;
    let kind = StmtKind::If(c, first, Some(Box::new(alloc, b)?));
    Ok(Stmt { span, kind })
}

pub fn while_loop(alloc: Global, span: Span, c: Expr, a: Stmt) -> Result<Stmt, NoMemory>
    ensures { IfOk result (λ s. stmt_tree s ≡ stmt span (while_kind (expr_tree c) (stmt_tree a))) }
{
    let kind = StmtKind::While(c, Box::new(alloc, a)?);
    Ok(Stmt { span, kind })
}

pub fn do_loop(alloc: Global, span: Span, a: Stmt, c: Expr) -> Result<Stmt, NoMemory>
    ensures { IfOk result (λ s. stmt_tree s ≡ stmt span (do_kind (stmt_tree a) (expr_tree c))) }
{
    let kind = StmtKind::DoWhile(Box::new(alloc, a)?, c);
    Ok(Stmt { span, kind })
}

pub fn for_loop(
    alloc: Global,
    span: Span,
    init: List<Stmt>,
    c: Option<Expr>,
    steps: List<Effect>,
    a: Stmt,
) -> Result<Stmt, NoMemory>
    ensures { IfOk result (λ s. stmt_tree s ≡ stmt span (for_kind (stmt_trees init) (option_map expr_tree c) (map effect_tree steps) (stmt_tree a))) }
{
    let kind = StmtKind::For(init, c, steps, Box::new(alloc, a)?);
    Ok(Stmt { span, kind })
}

pub fn of_switch(span: Span, v: Expr, groups: List<Group>) -> Stmt
    ensures { stmt_tree result ≡ stmt span (switch_kind (expr_tree v) (group_trees groups)) }
{
    let kind = StmtKind::Switch(v, groups);
    Stmt { span, kind }
}
