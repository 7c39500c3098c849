//! How many locals code uses, from the first that it may use on. Numbers past 200 are given as 200.

ghost use Rattle.std.specs.Prelude.{ℕ, ◌≡◌, map, option_map, min};
ghost use Rattle.cx_ctree.specs.Types.{type_tree};
ghost use Rattle.cx_ctree.specs.Exprs.{expr_tree, call_tree, rhs_tree, effect_tree};
ghost use Rattle.cx_ctree.specs.Stmts.{stmt_tree, stmt_trees, group_trees};
ghost use Rattle.cx_ctree.specs.Decls.{param_tree};
ghost use Rattle.cx_cmean.specs.Effects.{operand_of};
ghost use Rattle.cx_cmean.specs.Numbers as values;
ghost use Rattle.cx_cmean.specs.Program.{function_of};
ghost use Rattle.cx_lcode.specs.Needs as spec;
ghost use Rattle.cx_sname.specs.File.{declared_of};

use crate::number::{capped, greater, more};
use cx_cmean::{offset_in, target_offset};
use cx_ctree::{
    CType, Call, Effect, Expr, ExprKind, Group, Param, Rhs, Stmt, StmtKind, Unary, Unit,
};
use cx_ctype::{ValueType, value_type};
use cx_lsize::{Sort, params_of, sort_of};

// Of an operator, whose operands' values use so many: a pointer is moved by a product.
fn operation_need(t: &CType, w: &CType, x: u32, y: u32) -> u32
    ensures { (p q : ℕ) → x ≡ min p 200 → y ≡ min q 200 → result ≡ min (spec.operation_need (values.value_type (type_tree t.now)) (values.value_type (type_tree w.now)) p q) 200 }
{
    let two = greater(x, more(y, 1));
    match (value_type(t), value_type(w)) {
        (ValueType::Ptr(_), ValueType::Int(_)) => greater(two, 3),
        (ValueType::Ptr(_), ValueType::Void | ValueType::Ptr(_) | ValueType::Tag(_)) => two,
        (ValueType::Void | ValueType::Int(_) | ValueType::Tag(_), _) => two,
    }
}

// Of `op=` or `++`, beside its operands.
fn updated_need(t: &CType, w: &CType) -> u32
    ensures { result ≡ min (spec.updated_need (type_tree t.now) (values.value_type (type_tree w.now))) 200 }
{
    match (t, value_type(w)) {
        (CType::Ptr(_), ValueType::Int(_)) => 4,
        (CType::Ptr(_), ValueType::Void | ValueType::Ptr(_) | ValueType::Tag(_)) => 3,
        (CType::Void | CType::Int(_) | CType::Array(_, _) | CType::Tag(_), _) => 3,
    }
}

fn further_need(off: u64) -> u32
    ensures { result ≡ min (spec.further_need off) 200 }
{
    if off == 0 { 1 } else { 2 }
}

/// Of the code of a value.
#[cycle(needed)]
pub fn val_need(unit: &Unit, e: &Expr) -> u32
    ensures { result ≡ min (spec.needs (declared_of unit.now) (expr_tree e.now)).val 200 }
{
    match &e.kind {
        ExprKind::Num(_, _) | ExprKind::Name(_) | ExprKind::Local(_) | ExprKind::Global(_) => 1,
        ExprKind::SizeOf(_) | ExprKind::SizeOfExpr(_) => 1,
        ExprKind::Unary(Unary::Not, x) => test_need(unit, x),
        ExprKind::Unary(Unary::Plus, x) => val_need(unit, x),
        ExprKind::Unary(Unary::Neg, x) => more(val_need(unit, x), 1),
        ExprKind::Unary(Unary::Compl, x) => greater(val_need(unit, x), 2),
        ExprKind::Binary(op, x, y) => match sort_of(*op) {
            Sort::Both | Sort::Either => greater(test_need(unit, x), test_need(unit, y)),
            Sort::Comparing => greater(val_need(unit, x), more(val_need(unit, y), 1)),
            Sort::Computing => operation_need(
                &x.ctype,
                &y.ctype,
                val_need(unit, x),
                val_need(unit, y),
            ),
        },
        ExprKind::Cond(c, x, y) => greater(
            test_need(unit, c),
            greater(val_need(unit, x), val_need(unit, y)),
        ),
        ExprKind::Cast(_, x) | ExprKind::Deref(x) => val_need(unit, x),
        ExprKind::Index(x, y) => operation_need(
            &x.ctype,
            &y.ctype,
            val_need(unit, x),
            val_need(unit, y),
        ),
        ExprKind::Member(_, _) | ExprKind::Arrow(_, _) => place_need(unit, e),
        ExprKind::Address(x) => place_need(unit, x),
    }
}

/// Of the code of a test.
#[cycle(needed)]
pub fn test_need(unit: &Unit, e: &Expr) -> u32
    ensures { result ≡ min (spec.needs (declared_of unit.now) (expr_tree e.now)).test 200 }
{
    match &e.kind {
        ExprKind::Unary(Unary::Not, x) => test_need(unit, x),
        ExprKind::Binary(op, x, y) => match sort_of(*op) {
            Sort::Both | Sort::Either => greater(test_need(unit, x), test_need(unit, y)),
            Sort::Comparing => greater(val_need(unit, x), more(val_need(unit, y), 1)),
            Sort::Computing => greater(
                operation_need(&x.ctype, &y.ctype, val_need(unit, x), val_need(unit, y)),
                2,
            ),
        },
        ExprKind::Unary(Unary::Plus | Unary::Neg | Unary::Compl, _) => greater(
            val_need(unit, e),
            2,
        ),
        ExprKind::Num(_, _) | ExprKind::Name(_) | ExprKind::Local(_) | ExprKind::Global(_) => 2,
        ExprKind::SizeOf(_) | ExprKind::SizeOfExpr(_) => 2,
        ExprKind::Cond(_, _, _) | ExprKind::Index(_, _) | ExprKind::Member(_, _) => greater(
            val_need(unit, e),
            2,
        ),
        ExprKind::Cast(_, _) | ExprKind::Arrow(_, _) | ExprKind::Deref(_) => greater(
            val_need(unit, e),
            2,
        ),
        ExprKind::Address(_) => greater(val_need(unit, e), 2),
    }
}

/// Of the code of an address.
#[cycle(needed)]
pub fn place_need(unit: &Unit, e: &Expr) -> u32
    ensures { result ≡ min (spec.place_need (declared_of unit.now) (expr_tree e.now)) 200 }
{
    match &e.kind {
        ExprKind::Index(x, y) => operation_need(
            &x.ctype,
            &y.ctype,
            val_need(unit, x),
            val_need(unit, y),
        ),
        ExprKind::Member(x, m) => greater(
            place_need(unit, x),
            further_need(offset_in(unit, &x.ctype, *m)),
        ),
        ExprKind::Arrow(x, m) => greater(
            val_need(unit, x),
            further_need(target_offset(unit, value_type(&x.ctype), *m)),
        ),
        ExprKind::Deref(x) => val_need(unit, x),
        ExprKind::Num(_, _) | ExprKind::Name(_) | ExprKind::Local(_) | ExprKind::Global(_) => 1,
        ExprKind::Unary(_, _) | ExprKind::Binary(_, _, _) | ExprKind::Cond(_, _, _) => 1,
        ExprKind::Cast(_, _) | ExprKind::SizeOf(_) | ExprKind::SizeOfExpr(_) => 1,
        ExprKind::Address(_) => 1,
    }
}

/// Of the code of arguments, each in the next local.
pub fn arguments_need(unit: &Unit, args: &[Expr], params: &[Param]) -> u32
    ensures { result ≡ min (spec.arguments_need (declared_of unit.now) (map expr_tree args.now) (map (λ p. p.ctype) (map param_tree params.now))) 200 }
{
    let mut need = 0;
    let mut t = 0;
    let mut rest = args;
    let mut others = params;
    while let [e, after @ ..] = rest {
        let [_, others_after @ ..] = others else {
            return greater(need, t);
        };
        need = greater(need, more(val_need(unit, e), t));
        t = more(t, 1);
        rest = after;
        others = others_after;
    }
    greater(need, t)
}

// Of the arguments that have a parameter.
#[tactic(auto, using(crate::proofs::Needing::no_params))]
fn given_need(unit: &Unit, call: &Call) -> u32
    ensures { result ≡ min (spec.arguments_need (declared_of unit.now) (call_tree call.now).args (function_of (declared_of unit.now) call.now.name).params) 200 }
{
    match params_of(unit, call.name) {
        None => 0,
        Some(params) => arguments_need(unit, call.args.as_slice(), params),
    }
}

pub fn call_need(unit: &Unit, call: &Call) -> u32
    ensures { result ≡ min (spec.call_need (declared_of unit.now) (call_tree call.now)) 200 }
{
    let given = given_need(unit, call);
    let count = capped(call.args.len());
    let both = greater(given, count);
    greater(1, both)
}

pub fn right_need(unit: &Unit, r: &Rhs) -> u32
    ensures { result ≡ min (spec.right_need (declared_of unit.now) (rhs_tree r.now)) 200 }
{
    match r {
        Rhs::Value(e) => val_need(unit, e),
        Rhs::Call(c, _) => call_need(unit, c),
    }
}

pub fn left_need(unit: &Unit, l: &Expr) -> u32
    ensures { result ≡ min (spec.left_need (declared_of unit.now) (expr_tree l.now)) 200 }
{
    match &l.kind {
        ExprKind::Local(_) => 1,
        ExprKind::Num(_, _) | ExprKind::Name(_) | ExprKind::Global(_) => 2,
        ExprKind::Unary(_, _) | ExprKind::Binary(_, _, _) | ExprKind::Cond(_, _, _) => 2,
        ExprKind::Cast(_, _) | ExprKind::SizeOf(_) | ExprKind::SizeOfExpr(_) => 2,
        ExprKind::Address(_) => 2,
        ExprKind::Index(_, _) | ExprKind::Member(_, _) | ExprKind::Arrow(_, _) => more(
            place_need(unit, l),
            1,
        ),
        ExprKind::Deref(_) => more(place_need(unit, l), 1),
    }
}

pub fn alone_need(unit: &Unit, e: &Expr) -> u32
    ensures { result ≡ min (spec.needs (declared_of unit.now) (operand_of (expr_tree e.now))).val 200 }
{
    match &e.kind {
        ExprKind::Cast(_, x) => val_need(unit, x),
        ExprKind::Num(_, _) | ExprKind::Name(_) | ExprKind::Local(_) | ExprKind::Global(_) => 1,
        ExprKind::SizeOf(_) | ExprKind::SizeOfExpr(_) => 1,
        ExprKind::Unary(_, _) | ExprKind::Binary(_, _, _) | ExprKind::Cond(_, _, _) => val_need(
            unit, e,
        ),
        ExprKind::Index(_, _) | ExprKind::Member(_, _) | ExprKind::Arrow(_, _) => val_need(unit, e),
        ExprKind::Deref(_) | ExprKind::Address(_) => val_need(unit, e),
    }
}

pub fn effect_need(unit: &Unit, e: &Effect) -> u32
    ensures { result ≡ min (spec.effect_need (declared_of unit.now) (effect_tree e.now)) 200 }
{
    match e {
        Effect::Set(l, r, _) => greater(right_need(unit, r), left_need(unit, l)),
        Effect::Update(_, l, e, _) => greater(
            greater(val_need(unit, e), left_need(unit, l)),
            updated_need(&l.ctype, &e.ctype),
        ),
        Effect::Call(c) => call_need(unit, c),
        Effect::Value(e) => alone_need(unit, e),
    }
}

pub fn initial_need(unit: &Unit, r: Option<&Rhs>) -> u32
    ensures { result ≡ min (spec.initial_need (declared_of unit.now) (option_map (λ r. rhs_tree r.now) r.entry)) 200 }
{
    match r {
        None => 0,
        Some(r) => right_need(unit, r),
    }
}

pub fn effects_need(unit: &Unit, es: &[Effect]) -> u32
    ensures { result ≡ min (spec.effects_need (declared_of unit.now) (map effect_tree es.now)) 200 }
{
    let mut need = 0;
    for e in es {
        need = greater(need, effect_need(unit, e));
    }
    need
}

#[cycle(stmt_needed)]
pub fn stmt_need(unit: &Unit, s: &Stmt) -> u32
    ensures { result ≡ min (spec.stmt_need (declared_of unit.now) (stmt_tree s.now)) 200 }
{
    match &s.kind {
        StmtKind::Block(ss) => stmts_need(unit, ss.as_slice()),
        StmtKind::Empty | StmtKind::Break | StmtKind::Continue => 0,
        StmtKind::Effect(e) => effect_need(unit, e),
        StmtKind::Declare(_, _, r) => initial_need(unit, r.as_ref()),
        StmtKind::If(c, x, None) => greater(test_need(unit, c), stmt_need(unit, x)),
        StmtKind::If(c, x, Some(y)) => greater(
            test_need(unit, c),
            greater(stmt_need(unit, x), stmt_need(unit, y)),
        ),
        StmtKind::While(c, x) => greater(test_need(unit, c), stmt_need(unit, x)),
        StmtKind::DoWhile(x, c) => greater(test_need(unit, c), stmt_need(unit, x)),
        StmtKind::For(init, c, steps, x) => greater(
            greater(
                stmts_need(unit, init.as_slice()),
                condition_need(unit, c.as_ref()),
            ),
            greater(stmt_need(unit, x), effects_need(unit, steps.as_slice())),
        ),
        StmtKind::Switch(v, gs) => greater(val_need(unit, v), groups_need(unit, gs.as_slice())),
        StmtKind::Return(r) => initial_need(unit, r.as_ref()),
    }
}

fn condition_need(unit: &Unit, c: Option<&Expr>) -> u32
    ensures { result ≡ min (spec.condition_need (declared_of unit.now) (option_map (λ c. expr_tree c.now) c.entry)) 200 }
{
    match c {
        None => 0,
        Some(c) => test_need(unit, c),
    }
}

#[cycle(stmt_needed)]
pub fn stmts_need(unit: &Unit, ss: &[Stmt]) -> u32
    ensures { result ≡ min (spec.stmts_need (declared_of unit.now) (stmt_trees ss.now)) 200 }
{
    let mut need = 0;
    for s in ss {
        need = greater(need, stmt_need(unit, s));
    }
    need
}

#[cycle(stmt_needed)]
pub fn groups_need(unit: &Unit, gs: &[Group]) -> u32
    ensures { result ≡ min (spec.groups_need (declared_of unit.now) (group_trees gs.now)) 200 }
{
    let mut need = 0;
    for g in gs {
        need = greater(need, stmts_need(unit, g.body.as_slice()));
        need = greater(need, labels_need(g.labels.as_slice()));
    }
    need
}

fn labels_need(labels: &[Option<Expr>]) -> u32
    ensures { result ≡ min (spec.labels_need (map (option_map expr_tree) labels.now)) 200 }
{
    for label in labels {
        if label.is_some() {
            return 2;
        }
    }
    0
}
