//! How many blocks code starts. Numbers past 600 are given as 600.

ghost use Rattle.std.specs.Prelude.{◌≡◌, ◌+◌, map, option_map, min};
ghost use Rattle.cx_ctree.specs.Exprs.{expr_tree, rhs_tree, effect_tree};
ghost use Rattle.cx_ctree.specs.Stmts.{stmt_tree, stmt_trees, group_trees};
ghost use Rattle.cx_cmean.specs.Effects.{operand_of};
ghost use Rattle.cx_lcode.specs.Starts as spec;

use crate::sort::{Sort, sort_of};
use cx_ctree::{Effect, Expr, ExprKind, Group, Rhs, Stmt, StmtKind, Unary};

/// The sum, or 600 where it is more.
pub fn plus(a: u32, b: u32) -> u32
    ensures { result ≡ min (a + b) 600 }
{
    let sum = a.saturating_add(b);
    if sum < 600 { sum } else { 600 }
}

/// How many blocks the code of a value starts.
#[cycle(counted)]
pub fn val_starts(e: &Expr) -> u32
    ensures { result ≡ min (spec.starts (expr_tree e.now)).val 600 }
{
    match &e.kind {
        ExprKind::Num(_, _) | ExprKind::Name(_) | ExprKind::Local(_) | ExprKind::Global(_) => 0,
        ExprKind::SizeOf(_) | ExprKind::SizeOfExpr(_) => 0,
        ExprKind::Unary(Unary::Not, x) => plus(test_starts(x), 3),
        ExprKind::Unary(Unary::Plus | Unary::Neg | Unary::Compl, x) => val_starts(x),
        ExprKind::Binary(op, x, y) => match sort_of(*op) {
            Sort::Both | Sort::Either => plus(plus(test_starts(x), test_starts(y)), 4),
            Sort::Comparing => plus(plus(val_starts(x), val_starts(y)), 3),
            Sort::Computing => plus(val_starts(x), val_starts(y)),
        },
        ExprKind::Cond(c, x, y) => plus(
            plus(test_starts(c), plus(val_starts(x), val_starts(y))),
            3,
        ),
        ExprKind::Cast(_, x) | ExprKind::Arrow(x, _) | ExprKind::Deref(x) => val_starts(x),
        ExprKind::Index(x, y) => plus(val_starts(x), val_starts(y)),
        ExprKind::Member(x, _) | ExprKind::Address(x) => place_starts(x),
    }
}

/// How many blocks the code of a test starts before it ends its last block.
#[cycle(counted)]
pub fn test_starts(e: &Expr) -> u32
    ensures { result ≡ min (spec.starts (expr_tree e.now)).test 600 }
{
    match &e.kind {
        ExprKind::Unary(Unary::Not, x) => test_starts(x),
        ExprKind::Binary(op, x, y) => match sort_of(*op) {
            Sort::Both | Sort::Either => plus(plus(test_starts(x), test_starts(y)), 1),
            Sort::Comparing | Sort::Computing => plus(val_starts(x), val_starts(y)),
        },
        ExprKind::Unary(Unary::Plus | Unary::Neg | Unary::Compl, _) => val_starts(e),
        ExprKind::Num(_, _) | ExprKind::Name(_) | ExprKind::Local(_) | ExprKind::Global(_) => 0,
        ExprKind::SizeOf(_) | ExprKind::SizeOfExpr(_) => 0,
        ExprKind::Cond(_, _, _) | ExprKind::Index(_, _) | ExprKind::Member(_, _) => val_starts(e),
        ExprKind::Cast(_, x) | ExprKind::Arrow(x, _) | ExprKind::Deref(x) => val_starts(x),
        ExprKind::Address(x) => place_starts(x),
    }
}

/// How many blocks the code of an address starts.
#[cycle(counted)]
pub fn place_starts(e: &Expr) -> u32
    ensures { result ≡ min (spec.place_starts (expr_tree e.now)) 600 }
{
    match &e.kind {
        ExprKind::Index(x, y) => plus(val_starts(x), val_starts(y)),
        ExprKind::Member(x, _) => place_starts(x),
        ExprKind::Arrow(x, _) | ExprKind::Deref(x) => val_starts(x),
        ExprKind::Num(_, _) | ExprKind::Name(_) | ExprKind::Local(_) | ExprKind::Global(_) => 0,
        ExprKind::Unary(_, _) | ExprKind::Binary(_, _, _) | ExprKind::Cond(_, _, _) => 0,
        ExprKind::Cast(_, _) | ExprKind::SizeOf(_) | ExprKind::SizeOfExpr(_) => 0,
        ExprKind::Address(_) => 0,
    }
}

pub fn all_starts(es: &[Expr]) -> u32
    ensures { result ≡ min (spec.all_starts (map expr_tree es.now)) 600 }
{
    let mut n = 0;
    for e in es {
        n = plus(n, val_starts(e));
    }
    n
}

pub fn right_starts(r: &Rhs) -> u32
    ensures { result ≡ min (spec.right_starts (rhs_tree r.now)) 600 }
{
    match r {
        Rhs::Value(e) => val_starts(e),
        Rhs::Call(c, _) => all_starts(c.args.as_slice()),
    }
}

pub fn left_starts(l: &Expr) -> u32
    ensures { result ≡ min (spec.left_starts (expr_tree l.now)) 600 }
{
    match &l.kind {
        ExprKind::Index(_, _) | ExprKind::Member(_, _) | ExprKind::Arrow(_, _) => place_starts(l),
        ExprKind::Deref(x) => val_starts(x),
        ExprKind::Num(_, _) | ExprKind::Name(_) | ExprKind::Local(_) | ExprKind::Global(_) => 0,
        ExprKind::Unary(_, _) | ExprKind::Binary(_, _, _) | ExprKind::Cond(_, _, _) => 0,
        ExprKind::Cast(_, _) | ExprKind::SizeOf(_) | ExprKind::SizeOfExpr(_) => 0,
        ExprKind::Address(_) => 0,
    }
}

pub fn alone_starts(e: &Expr) -> u32
    ensures { result ≡ min (spec.starts (operand_of (expr_tree e.now))).val 600 }
{
    match &e.kind {
        ExprKind::Cast(_, x) => val_starts(x),
        ExprKind::Num(_, _) | ExprKind::Name(_) | ExprKind::Local(_) | ExprKind::Global(_) => 0,
        ExprKind::SizeOf(_) | ExprKind::SizeOfExpr(_) => 0,
        ExprKind::Unary(_, _) | ExprKind::Binary(_, _, _) | ExprKind::Cond(_, _, _) => val_starts(
            e,
        ),
        ExprKind::Index(_, _) | ExprKind::Member(_, _) | ExprKind::Arrow(_, _) => val_starts(e),
        ExprKind::Deref(_) | ExprKind::Address(_) => val_starts(e),
    }
}

pub fn effect_starts(e: &Effect) -> u32
    ensures { result ≡ min (spec.effect_starts (effect_tree e.now)) 600 }
{
    match e {
        Effect::Set(l, r, _) => plus(right_starts(r), left_starts(l)),
        Effect::Update(_, l, e, _) => plus(val_starts(e), left_starts(l)),
        Effect::Call(c) => all_starts(c.args.as_slice()),
        Effect::Value(e) => alone_starts(e),
    }
}

pub fn effects_starts(es: &[Effect]) -> u32
    ensures { result ≡ min (spec.effects_starts (map effect_tree es.now)) 600 }
{
    let mut n = 0;
    for e in es {
        n = plus(n, effect_starts(e));
    }
    n
}

pub fn initial_starts(r: Option<&Rhs>) -> u32
    ensures { result ≡ min (spec.initial_starts (option_map (λ r. rhs_tree r.now) r.entry)) 600 }
{
    match r {
        None => 0,
        Some(r) => right_starts(r),
    }
}

pub fn condition_starts(c: Option<&Expr>) -> u32
    ensures { result ≡ min (spec.condition_starts (option_map (λ c. expr_tree c.now) c.entry)) 600 }
{
    match c {
        None => 0,
        Some(c) => test_starts(c),
    }
}

pub fn labels_starts(labels: &[Option<Expr>]) -> u32
    ensures { result ≡ min (spec.labels_starts (map (option_map expr_tree) labels.now)) 600 }
{
    let mut n = 0;
    for label in labels {
        if label.is_some() {
            n = plus(n, 1);
        }
    }
    n
}

pub fn all_labels_starts(gs: &[Group]) -> u32
    ensures { result ≡ min (spec.all_labels_starts (group_trees gs.now)) 600 }
{
    let mut n = 0;
    for g in gs {
        n = plus(n, labels_starts(g.labels.as_slice()));
    }
    n
}

/// How many blocks the code of a statement starts.
#[cycle(stmt_counted)]
pub fn stmt_starts(s: &Stmt) -> u32
    ensures { result ≡ min (spec.stmt_starts (stmt_tree s.now)) 600 }
{
    match &s.kind {
        StmtKind::Block(ss) => stmts_starts(ss.as_slice()),
        StmtKind::Empty => 0,
        StmtKind::Effect(e) => effect_starts(e),
        StmtKind::Declare(_, _, r) => initial_starts(r.as_ref()),
        StmtKind::If(c, x, None) => plus(plus(test_starts(c), stmt_starts(x)), 2),
        StmtKind::If(c, x, Some(y)) => {
            plus(
                plus(test_starts(c), plus(stmt_starts(x), stmt_starts(y))),
                3,
            )
        }
        StmtKind::While(c, x) => plus(plus(test_starts(c), stmt_starts(x)), 3),
        StmtKind::DoWhile(x, c) => plus(plus(test_starts(c), stmt_starts(x)), 3),
        StmtKind::For(init, c, steps, x) => plus(
            plus(stmts_starts(init.as_slice()), condition_starts(c.as_ref())),
            plus(plus(stmt_starts(x), effects_starts(steps.as_slice())), 4),
        ),
        StmtKind::Switch(v, gs) => plus(
            plus(val_starts(v), all_labels_starts(gs.as_slice())),
            plus(groups_starts(gs.as_slice()), 1),
        ),
        StmtKind::Break | StmtKind::Continue => 1,
        StmtKind::Return(r) => plus(initial_starts(r.as_ref()), 1),
    }
}

#[cycle(stmt_counted)]
pub fn stmts_starts(ss: &[Stmt]) -> u32
    ensures { result ≡ min (spec.stmts_starts (stmt_trees ss.now)) 600 }
{
    let mut n = 0;
    for s in ss {
        n = plus(n, stmt_starts(s));
    }
    n
}

/// Each group starts a block.
#[cycle(stmt_counted)]
pub fn groups_starts(gs: &[Group]) -> u32
    ensures { result ≡ min (spec.groups_starts (group_trees gs.now)) 600 }
{
    let mut n = 0;
    for g in gs {
        n = plus(n, plus(stmts_starts(g.body.as_slice()), 1));
    }
    n
}
