ghost use Rattle.cx_ctree.specs.Exprs.{expr_tree};
ghost use Rattle.cx_ctree.specs.Stmts.{block, if_alone as if_kind, while as while_kind, do_while as do_kind, switch as switch_kind, stmt_tree, stmt_trees, group_trees};
ghost use Rattle.cx_scope.specs.Views.{locals_of};
ghost use Rattle.cx_sfile.specs.Views.{declared_in};
ghost use Rattle.cx_scope.specs.Locals.{opened};
ghost use Rattle.cx_sstmt.specs.Labels as labels;
ghost use Rattle.cx_sstmt.specs.Stmts as spec;
ghost use Rattle.cx_sstmt.specs.Around.{around_view, Leaves};

use crate::around::{Around, in_loop, in_switch};
use crate::flow::{label_type, switched, typed_alone, typed_break, typed_continue, typed_return};
use crate::join::{block_of, do_of, else_of, for_of, head_of, if_of, switch_of, while_of};
use crate::label::{none_seen, typed_labels};
use crate::variable::typed_variable;
use cx_base::{CInt, List, Span};
use cx_ctree::{Expr, Group, Stmt, StmtKind};
use cx_scope::Locals;
use cx_seffect::typed_condition;
use cx_sexpr::typed;
use cx_sfile::File;
use cx_snode::SemaFault;
use std::alloc::Global;

/// The statement with its types, or the first rule that it breaks.
#[cycle(statements)]
#[tactic(auto, using(cx_snode::proofs::Judged::tells_then, cx_snode::proofs::Judged::gives_then))]
pub fn typed_stmt(
    alloc: Global,
    file: &File<'_>,
    around: Around<'_>,
    locals: &mut Locals,
    s: &Stmt,
) -> Result<Stmt, SemaFault>
    ensures { Leaves stmt_tree result (locals_of locals.new) (spec.typed_stmt (declared_in file.now) (around_view around.entry) (locals_of locals.old) (stmt_tree s.now)) }
{
    let span = s.span;
    match &s.kind {
        StmtKind::Block(ss) => typed_block(alloc, file, around, locals, span, ss.as_slice()),
        StmtKind::Empty => {
            let kind = StmtKind::Empty;
            Ok(Stmt { span, kind })
        }
        StmtKind::Effect(e) => typed_alone(alloc, file, locals, span, e),
        StmtKind::Declare(n, t, r) => {
            typed_variable(alloc, file, locals, span, *n, t, r.as_ref())
        }
        StmtKind::If(c, a, None) => typed_if(alloc, file, around, locals, span, a, c),
        StmtKind::If(c, a, Some(b)) => {
            let c = typed_condition(alloc, file, locals, c)?;
            let a = typed_inner(alloc, file, around, locals, a)?;
            else_of(
                alloc,
                span,
                c,
                a,
                typed_inner(alloc, file, around, locals, b),
            )
        }
        StmtKind::While(c, a) => typed_while(alloc, file, around, locals, span, a, c),
        StmtKind::DoWhile(a, c) => typed_do(alloc, file, around, locals, span, a, c),
        StmtKind::For(init, c, steps, a) => {
            locals.open()?;
            let init = typed_stmts(alloc, file, around, locals, init.as_slice())?;
            let head = head_of(alloc, file, locals, init, c.as_ref(), steps.as_slice())?;
            let a = typed_inner(alloc, file, in_loop(around), locals, a);
            locals.close();
            for_of(alloc, span, head, a)
        }
        StmtKind::Switch(v, gs) => {
            typed_switch(alloc, file, around, locals, span, gs.as_slice(), v)
        }
        StmtKind::Break => typed_break(locals, span, around.breakable),
        StmtKind::Continue => typed_continue(locals, span, around.looped),
        StmtKind::Return(r) => typed_return(alloc, file, locals, span, around.result, r.as_ref()),
    }
}

/// A block (C11 6.8.2).
#[cycle(statements)]
#[tactic(auto, using(cx_snode::proofs::Judged::tells_then, cx_snode::proofs::Judged::gives_then))]
fn typed_block(
    alloc: Global,
    file: &File<'_>,
    around: Around<'_>,
    locals: &mut Locals,
    span: Span,
    stmts: &[Stmt],
) -> Result<Stmt, SemaFault>
    ensures { Leaves stmt_tree result (locals_of locals.new) (spec.typed_stmt_kind (declared_in file.now) (around_view around.entry) (locals_of locals.old) span (block (stmt_trees stmts.now))) }
{
    locals.open()?;
    let ss = typed_stmts(alloc, file, around, locals, stmts);
    locals.close();
    block_of(span, ss)
}

/// An `if` without `else` (C11 6.8.4.1).
#[cycle(statements)]
#[tactic(auto, using(cx_snode::proofs::Judged::tells_then, cx_snode::proofs::Judged::gives_then))]
fn typed_if(
    alloc: Global,
    file: &File<'_>,
    around: Around<'_>,
    locals: &mut Locals,
    span: Span,
    a: &Stmt,
    c: &Expr,
) -> Result<Stmt, SemaFault>
    ensures { Leaves stmt_tree result (locals_of locals.new) (spec.typed_stmt_kind (declared_in file.now) (around_view around.entry) (locals_of locals.old) span (if_kind (expr_tree c.now) (stmt_tree a.now))) }
{
    let c = typed_condition(alloc, file, locals, c)?;
    let a = typed_inner(alloc, file, around, locals, a);
    if_of(alloc, span, c, a)
}

/// A `while` loop (C11 6.8.5.1).
#[cycle(statements)]
#[tactic(auto, using(cx_snode::proofs::Judged::tells_then, cx_snode::proofs::Judged::gives_then))]
fn typed_while(
    alloc: Global,
    file: &File<'_>,
    around: Around<'_>,
    locals: &mut Locals,
    span: Span,
    a: &Stmt,
    c: &Expr,
) -> Result<Stmt, SemaFault>
    ensures { Leaves stmt_tree result (locals_of locals.new) (spec.typed_stmt_kind (declared_in file.now) (around_view around.entry) (locals_of locals.old) span (while_kind (expr_tree c.now) (stmt_tree a.now))) }
{
    let c = typed_condition(alloc, file, locals, c)?;
    let a = typed_inner(alloc, file, in_loop(around), locals, a);
    while_of(alloc, span, c, a)
}

/// A `do` loop (C11 6.8.5.2).
#[cycle(statements)]
#[tactic(auto, using(cx_snode::proofs::Judged::tells_then, cx_snode::proofs::Judged::gives_then))]
fn typed_do(
    alloc: Global,
    file: &File<'_>,
    around: Around<'_>,
    locals: &mut Locals,
    span: Span,
    a: &Stmt,
    c: &Expr,
) -> Result<Stmt, SemaFault>
    ensures { Leaves stmt_tree result (locals_of locals.new) (spec.typed_stmt_kind (declared_in file.now) (around_view around.entry) (locals_of locals.old) span (do_kind (stmt_tree a.now) (expr_tree c.now))) }
{
    let a = typed_inner(alloc, file, in_loop(around), locals, a)?;
    let c = typed_condition(alloc, file, locals, c);
    do_of(alloc, span, a, c)
}

/// A `switch` (C11 6.8.4.2).
#[cycle(statements)]
#[tactic(auto, using(cx_snode::proofs::Judged::tells_then, cx_snode::proofs::Judged::gives_then))]
fn typed_switch(
    alloc: Global,
    file: &File<'_>,
    around: Around<'_>,
    locals: &mut Locals,
    span: Span,
    groups: &[Group],
    v: &Expr,
) -> Result<Stmt, SemaFault>
    ensures { Leaves stmt_tree result (locals_of locals.new) (spec.typed_stmt_kind (declared_in file.now) (around_view around.entry) (locals_of locals.old) span (switch_kind (expr_tree v.now) (group_trees groups.now))) }
{
    let v = switched(typed(alloc, file, locals, v)?)?;
    let t = label_type(&v);
    let gs = typed_body(alloc, file, in_switch(around), locals, t, span, groups);
    switch_of(span, v, gs)
}

/// The body of a `switch`, a block with its groups.
#[cycle(statements)]
fn typed_body(
    alloc: Global,
    file: &File<'_>,
    around: Around<'_>,
    locals: &mut Locals,
    t: CInt,
    span: Span,
    groups: &[Group],
) -> Result<List<Group>, SemaFault>
    ensures { Leaves group_trees result (locals_of locals.new) (spec.leaving (spec.typed_groups (declared_in file.now) (around_view around.entry) (opened (locals_of locals.old)) t span labels.none_seen (group_trees groups.now))) }
{
    locals.open()?;
    let gs = typed_groups(alloc, file, around, locals, t, span, groups);
    locals.close();
    gs
}

/// A statement that is a block of its own (C11 6.8.4, 6.8.5).
#[cycle(statements)]
#[tactic(auto, using(cx_snode::proofs::Judged::tells_then, cx_snode::proofs::Judged::gives_then))]
fn typed_inner(
    alloc: Global,
    file: &File<'_>,
    around: Around<'_>,
    locals: &mut Locals,
    s: &Stmt,
) -> Result<Stmt, SemaFault>
    ensures { Leaves stmt_tree result (locals_of locals.new) (spec.leaving (spec.typed_stmt (declared_in file.now) (around_view around.entry) (opened (locals_of locals.old)) (stmt_tree s.now))) }
{
    locals.open()?;
    let s = typed_stmt(alloc, file, around, locals, s);
    locals.close();
    s
}

/// Statements in order.
#[cycle(statements)]
#[tactic(auto, using(crate::proofs::Steps::no_stmts, crate::proofs::Steps::stmts_end, crate::proofs::Steps::stmt_next, crate::proofs::Steps::stmt_breaks))]
pub fn typed_stmts(
    alloc: Global,
    file: &File<'_>,
    around: Around<'_>,
    locals: &mut Locals,
    stmts: &[Stmt],
) -> Result<List<Stmt>, SemaFault>
    ensures { Leaves stmt_trees result (locals_of locals.new) (spec.typed_stmts (declared_in file.now) (around_view around.entry) (locals_of locals.old) (stmt_trees stmts.now)) }
{
    let mut done = List::new(alloc);
    for s in stmts {
        let s = typed_stmt(alloc, file, around, locals, s)?;
        done.push(s)?;
    }
    Ok(done)
}

/// The groups of a `switch` in order, where it is on the type `t` and has this span.
#[cycle(statements)]
#[tactic(auto, using(crate::proofs::Steps::no_groups, crate::proofs::Steps::groups_end, crate::proofs::Steps::group_next, crate::proofs::Steps::labels_break, crate::proofs::Steps::body_breaks))]
fn typed_groups(
    alloc: Global,
    file: &File<'_>,
    around: Around<'_>,
    locals: &mut Locals,
    t: CInt,
    span: Span,
    groups: &[Group],
) -> Result<List<Group>, SemaFault>
    ensures { Leaves group_trees result (locals_of locals.new) (spec.typed_groups (declared_in file.now) (around_view around.entry) (locals_of locals.old) t span labels.none_seen (group_trees groups.now)) }
{
    let mut seen = none_seen(alloc);
    let mut done = List::new(alloc);
    for g in groups {
        let labels = typed_labels(alloc, file, t, span, &mut seen, g.labels.as_slice())?;
        let body = match typed_stmts(alloc, file, around, locals, g.body.as_slice()) {
            Ok(body) => body,
            Err(e) => return Err(e),
        };
        done.push(Group { labels, body })?;
    }
    Ok(done)
}
