//! The code of statements.

ghost use Rattle.std.specs.Prelude.{◌+◌, ◌<◌, ◌≤◌, map, option_map, OnOk};
ghost use Rattle.cx_ctree.specs.Exprs.{expr_tree, effect_tree};
ghost use Rattle.cx_ctree.specs.Stmts.{stmt_tree, stmt_trees, group_trees, no_stmt, if_alone, while, do_while, for, switch};
ghost use Rattle.cx_sname.specs.File.{declared_of};
ghost use Rattle.cx_lcode.specs.Needs as needs;
ghost use Rattle.cx_lcode.specs.Starts as starts;
ghost use Rattle.cx_lcode.specs.Statements as codes;
ghost use Rattle.cx_lemit.specs.Made.{Emits};
ghost use Rattle.cx_lpart.specs.Settings.{setting};

use cx_base::{NoMemory, Span};
use cx_cmean::{number_in, number_of};
use cx_ctree::{CType, Effect, Expr, Group, Stmt, StmtKind, Unit};
use cx_ctype::promoted;
use cx_goto::End;
use cx_leffect::emit_effect;
use cx_lemit::{Builder, convert, start};
use cx_lpart::{
    default_block, emit_all_labels, emit_condition, emit_declare, emit_effects, emit_return,
    first_token,
};
use cx_lsize::{
    all_labels_last, condition_last, effects_last, groups_last, stmt_last, stmts_last, test_last,
    val_last,
};
use cx_lvalue::{emit_test, emit_val};

/// The code of a statement that begins in block `at`; `break` goes to `out`, `continue` to `next`.
#[cycle(stmt_lowered)]
pub fn emit_stmt(
    unit: &Unit,
    served: u32,
    code: &mut Builder,
    at: u32,
    out: u32,
    next: u32,
    s: &Stmt,
    given: &CType,
) -> Result<(), NoMemory>
    requires few_blocks { at + starts.stmt_starts (stmt_tree s.now) < 512 }
    requires few_locals { served + needs.stmt_need (declared_of unit.now) (stmt_tree s.now) ≤ 128 }
    ensures { OnOk result (Emits code.old code.new (codes.stmt_code (setting unit.now given.now served) at out next (stmt_tree s.now))) }
{
    let q = first_token(unit.tokens.as_slice(), s.span);
    let span = s.span;
    match &s.kind {
        StmtKind::Block(ss) => emit_stmts(unit, served, code, at, out, next, ss.as_slice(), given),
        StmtKind::Empty => Ok(()),
        StmtKind::Effect(e) => emit_effect(unit, q, code, at, served, e),
        StmtKind::Declare(x, t, r) => {
            let r = r.as_ref();
            emit_declare(unit, given, served, code, span, at, *x, t, r)
        }
        StmtKind::If(c, x, None) => {
            emit_if(unit, served, code, q, span, at, out, next, x, c, given)
        }
        StmtKind::If(c, x, Some(y)) => {
            let there = test_last(c, at) + 1;
            let other = stmt_last(x, there) + 1;
            let end = stmt_last(y, other) + 1;
            emit_test(unit, q, code, at, served, c, there, other, served)?;
            emit_stmt(unit, served, code, there, out, next, x, given)?;
            start(code, End::Jump(end), q, served)?;
            emit_stmt(unit, served, code, other, out, next, y, given)?;
            start(code, End::Jump(end), q, served)
        }
        StmtKind::While(c, x) => {
            emit_while(unit, served, code, q, span, at, out, next, x, c, given)
        }
        StmtKind::DoWhile(x, c) => {
            emit_do(unit, served, code, q, span, at, out, next, x, c, given)
        }
        StmtKind::For(init, c, steps, x) => {
            let init = init.as_slice();
            let steps = steps.as_slice();
            emit_stmts(unit, served, code, at, out, next, init, given)?;
            let first = stmts_last(init, at);
            let c = c.as_ref();
            emit_loop(
                unit, served, code, q, span, first, out, next, x, c, steps, given,
            )
        }
        StmtKind::Switch(v, gs) => {
            let gs = gs.as_slice();
            emit_switch(unit, served, code, q, span, at, out, next, gs, v, given)
        }
        StmtKind::Break => start(code, End::Jump(out), q, served),
        StmtKind::Continue => start(code, End::Jump(next), q, served),
        StmtKind::Return(r) => emit_return(unit, given, served, code, q, span, at, r.as_ref()),
    }
}

#[cycle(stmt_lowered)]
fn emit_if(
    unit: &Unit,
    served: u32,
    code: &mut Builder,
    q: Span,
    span: Span,
    at: u32,
    out: u32,
    next: u32,
    x: &Stmt,
    c: &Expr,
    given: &CType,
) -> Result<(), NoMemory>
    requires few_blocks { at + starts.kind_stmt_starts (if_alone (expr_tree c.now) (stmt_tree x.now)) < 512 }
    requires few_locals { served + needs.kind_stmt_need (declared_of unit.now) (if_alone (expr_tree c.now) (stmt_tree x.now)) ≤ 128 }
    ensures { OnOk result (Emits code.old code.new (codes.kind_code (setting unit.now given.now served) q span at out next (if_alone (expr_tree c.now) (stmt_tree x.now)))) }
{
    let there = test_last(c, at) + 1;
    let end = stmt_last(x, there) + 1;
    emit_test(unit, q, code, at, served, c, there, end, served)?;
    emit_stmt(unit, served, code, there, out, next, x, given)?;
    start(code, End::Jump(end), q, served)
}

#[cycle(stmt_lowered)]
fn emit_while(
    unit: &Unit,
    served: u32,
    code: &mut Builder,
    q: Span,
    span: Span,
    at: u32,
    out: u32,
    next: u32,
    x: &Stmt,
    c: &Expr,
    given: &CType,
) -> Result<(), NoMemory>
    requires few_blocks { at + starts.kind_stmt_starts (while (expr_tree c.now) (stmt_tree x.now)) < 512 }
    requires few_locals { served + needs.kind_stmt_need (declared_of unit.now) (while (expr_tree c.now) (stmt_tree x.now)) ≤ 128 }
    ensures { OnOk result (Emits code.old code.new (codes.kind_code (setting unit.now given.now served) q span at out next (while (expr_tree c.now) (stmt_tree x.now)))) }
{
    let head = at + 1;
    let body = test_last(c, head) + 1;
    let end = stmt_last(x, body) + 1;
    start(code, End::Jump(head), q, served)?;
    emit_test(unit, q, code, head, served, c, body, end, served)?;
    emit_stmt(unit, served, code, body, end, head, x, given)?;
    start(code, End::Jump(head), q, served)
}

#[cycle(stmt_lowered)]
fn emit_do(
    unit: &Unit,
    served: u32,
    code: &mut Builder,
    q: Span,
    span: Span,
    at: u32,
    out: u32,
    next: u32,
    x: &Stmt,
    c: &Expr,
    given: &CType,
) -> Result<(), NoMemory>
    requires few_blocks { at + starts.kind_stmt_starts (do_while (stmt_tree x.now) (expr_tree c.now)) < 512 }
    requires few_locals { served + needs.kind_stmt_need (declared_of unit.now) (do_while (stmt_tree x.now) (expr_tree c.now)) ≤ 128 }
    ensures { OnOk result (Emits code.old code.new (codes.kind_code (setting unit.now given.now served) q span at out next (do_while (stmt_tree x.now) (expr_tree c.now)))) }
{
    let head = at + 1;
    let test = stmt_last(x, head) + 1;
    let end = test_last(c, test) + 1;
    start(code, End::Jump(head), q, served)?;
    emit_stmt(unit, served, code, head, end, test, x, given)?;
    start(code, End::Jump(test), q, served)?;
    emit_test(unit, q, code, test, served, c, head, end, served)
}

/// A `for` after its first part.
#[cycle(stmt_lowered)]
fn emit_loop(
    unit: &Unit,
    served: u32,
    code: &mut Builder,
    q: Span,
    span: Span,
    at: u32,
    out: u32,
    next: u32,
    x: &Stmt,
    c: Option<&Expr>,
    steps: &[Effect],
    given: &CType,
) -> Result<(), NoMemory>
    requires few_blocks { at + starts.kind_stmt_starts (for no_stmt (option_map (λ c. expr_tree c.now) c) (map effect_tree steps.now) (stmt_tree x.now)) < 512 }
    requires few_locals { served + needs.kind_stmt_need (declared_of unit.now) (for no_stmt (option_map (λ c. expr_tree c.now) c) (map effect_tree steps.now) (stmt_tree x.now)) ≤ 128 }
    ensures { OnOk result (Emits code.old code.new (codes.kind_code (setting unit.now given.now served) q span at out next (for no_stmt (option_map (λ c. expr_tree c.now) c.entry) (map effect_tree steps.now) (stmt_tree x.now)))) }
{
    let head = at + 1;
    let body = condition_last(c, head) + 1;
    let step = stmt_last(x, body) + 1;
    let end = effects_last(steps, step) + 1;
    start(code, End::Jump(head), q, served)?;
    emit_condition(unit, given, served, code, q, head, c, body, end)?;
    emit_stmt(unit, served, code, body, end, step, x, given)?;
    start(code, End::Jump(step), q, served)?;
    emit_effects(unit, given, served, code, q, step, steps)?;
    start(code, End::Jump(head), q, served)
}

#[cycle(stmt_lowered)]
fn emit_switch(
    unit: &Unit,
    served: u32,
    code: &mut Builder,
    q: Span,
    span: Span,
    at: u32,
    out: u32,
    next: u32,
    gs: &[Group],
    v: &Expr,
    given: &CType,
) -> Result<(), NoMemory>
    requires few_blocks { at + starts.kind_stmt_starts (switch (expr_tree v.now) (group_trees gs.now)) < 512 }
    requires few_locals { served + needs.kind_stmt_need (declared_of unit.now) (switch (expr_tree v.now) (group_trees gs.now)) ≤ 128 }
    ensures { OnOk result (Emits code.old code.new (codes.kind_code (setting unit.now given.now served) q span at out next (switch (expr_tree v.now) (group_trees gs.now)))) }
{
    let tested = val_last(v, at);
    let chosen = all_labels_last(gs, tested);
    let first = chosen + 1;
    let end = groups_last(gs, chosen) + 1;
    emit_val(unit, q, code, at, served, v)?;
    convert(
        code,
        v.span,
        number_of(v),
        promoted(number_in(&v.ctype)),
        served,
    )?;
    emit_all_labels(unit, given, served, code, v, first, gs, tested)?;
    start(code, End::Jump(default_block(first, end, gs)), q, served)?;
    emit_groups(unit, served, code, q, first, end, next, gs, given)
}

/// Statements in order.
#[cycle(stmt_lowered)]
fn emit_stmts(
    unit: &Unit,
    served: u32,
    code: &mut Builder,
    at: u32,
    out: u32,
    next: u32,
    ss: &[Stmt],
    given: &CType,
) -> Result<(), NoMemory>
    requires few_blocks { at + starts.stmts_starts (stmt_trees ss.now) < 512 }
    requires few_locals { served + needs.stmts_need (declared_of unit.now) (stmt_trees ss.now) ≤ 128 }
    ensures { OnOk result (Emits code.old code.new (codes.stmts_code (setting unit.now given.now served) at out next (stmt_trees ss.now))) }
{
    let mut block = at;
    for s in ss {
        emit_stmt(unit, served, code, block, out, next, s, given)?;
        block = stmt_last(s, block);
    }
    Ok(())
}

/// The groups of a switch, each in a block of its own from block `first` on.
#[cycle(stmt_lowered)]
fn emit_groups(
    unit: &Unit,
    served: u32,
    code: &mut Builder,
    q: Span,
    first: u32,
    out: u32,
    next: u32,
    gs: &[Group],
    given: &CType,
) -> Result<(), NoMemory>
    requires few_blocks { first + starts.groups_starts (group_trees gs.now) < 512 }
    requires few_locals { served + needs.groups_need (declared_of unit.now) (group_trees gs.now) ≤ 128 }
    ensures { OnOk result (Emits code.old code.new (codes.groups_code (setting unit.now given.now served) q first out next (group_trees gs.now))) }
{
    let mut group = first;
    for g in gs {
        let end = stmts_last(g.body.as_slice(), group) + 1;
        emit_stmts(
            unit,
            served,
            code,
            group,
            out,
            next,
            g.body.as_slice(),
            given,
        )?;
        start(code, End::Jump(end), q, served)?;
        group = end;
    }
    Ok(())
}
