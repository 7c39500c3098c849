//! The code of expressions.

ghost use Rattle.std.specs.Prelude.{◌≡◌, ◌+◌, ◌<◌, ◌≤◌, true, false, OnOk};
ghost use Rattle.cx_ctree.specs.Exprs.{expr_tree, span_of, type_of};
ghost use Rattle.cx_cmean.specs.Numbers as values;
ghost use Rattle.cx_sname.specs.File.{declared_of};
ghost use Rattle.cx_lcode.specs.Items as items;
ghost use Rattle.cx_lcode.specs.Needs as needs;
ghost use Rattle.cx_lcode.specs.Starts as starts;
ghost use Rattle.cx_lcode.specs.Values as codes;
ghost use Rattle.cx_lemit.specs.Made.{Emits};
ghost use Rattle.cx_lvalue.specs.Operands.{first_code, second_code};
ghost use Rattle.cx_lvalue.specs.Tests.{tests_itself};

use crate::part::{complement, has_test, nonzero};
use cx_base::{CInt, NoMemory, Span};
use cx_cmean::{
    applied_in, compared_in, number_in, number_of, offset_in, right_in, size_in, target_offset,
    unit_in,
};
use cx_ctree::{Binary, Expr, ExprKind, Unary, Unit};
use cx_ctype::{ValueType, signed_long, unsigned_long, value_type};
use cx_goto::{End, Instr, Op};
use cx_lemit::{Builder, convert, further, line, object, scale, start, truth};
use cx_lsize::{Sort, op_of, rel_of, sort_of, test_last, val_last};

/// The code of a value in local `t`, which begins in block `at`.
#[cycle(lowered)]
pub fn emit_val(
    unit: &Unit,
    jump: Span,
    code: &mut Builder,
    at: u32,
    t: u32,
    e: &Expr,
) -> Result<(), NoMemory>
    requires few_blocks { at + (starts.starts (expr_tree e.now)).val < 512 }
    requires few_locals { t + (needs.needs (declared_of unit.now) (expr_tree e.now)).val ≤ 128 }
    ensures { OnOk result (Emits code.old code.new ((codes.code_of (declared_of unit.now) jump (expr_tree e.now)).val at t)) }
{
    if has_test(e) {
        let there = test_last(e, at) + 1;
        let other = there + 1;
        emit_own_test(unit, jump, code, at, t, e, there, other, t)?;
        return truth(code, jump, e.span, t, other + 1);
    }
    emit_computed(unit, jump, code, at, t, e)
}

/// A value that is computed by no test.
#[cycle(lowered)]
fn emit_computed(
    unit: &Unit,
    jump: Span,
    code: &mut Builder,
    at: u32,
    t: u32,
    e: &Expr,
) -> Result<(), NoMemory>
    requires plain { tests_itself (expr_tree e.now) ≡ false }
    requires few_blocks { at + (starts.starts (expr_tree e.now)).val < 512 }
    requires few_locals { t + (needs.needs (declared_of unit.now) (expr_tree e.now)).val ≤ 128 }
    ensures { OnOk result (Emits code.old code.new ((codes.code_of (declared_of unit.now) jump (expr_tree e.now)).val at t)) }
{
    let span = e.span;
    let to = number_in(&e.ctype);
    match &e.kind {
        ExprKind::Num(v, _) => line(code, span, Instr::Const(t, *v)),
        ExprKind::Name(_) => line(code, span, Instr::Unset(t)),
        ExprKind::Local(x) => line(code, span, Instr::Copy(t, *x)),
        ExprKind::Global(n) => {
            line(code, span, Instr::Global(t, *n))?;
            object(code, span, &e.ctype, t)
        }
        ExprKind::Unary(Unary::Neg, x) => {
            line(code, span, Instr::Const(t, 0))?;
            emit_as(unit, jump, code, at, t + 1, x, to)?;
            line(code, span, Instr::Bin(t, Op::Sub, to, t, t + 1))
        }
        ExprKind::Unary(Unary::Compl, x) => {
            emit_as(unit, jump, code, at, t, x, to)?;
            complement(code, span, to, t)
        }
        ExprKind::Unary(Unary::Plus, x) | ExprKind::Cast(_, x) => {
            emit_as(unit, jump, code, at, t, x, to)
        }
        // Expressions with a test of their own, here and below.
        ExprKind::Unary(Unary::Not, _) => Ok(()),
        ExprKind::Binary(op, x, y) => match sort_of(*op) {
            Sort::Computing => {
                emit_first(unit, jump, code, at, t, span, *op, x, y)?;
                emit_second(unit, jump, code, val_last(x, at), t, span, *op, y, x)
            }
            Sort::Both | Sort::Either | Sort::Comparing => Ok(()),
        },
        ExprKind::Cond(c, x, y) => {
            let there = test_last(c, at) + 1;
            let other = val_last(x, there) + 1;
            let end = val_last(y, other) + 1;
            emit_test(unit, jump, code, at, t, c, there, other, t)?;
            emit_as(unit, jump, code, there, t, x, to)?;
            start(code, End::Jump(end), jump, t)?;
            emit_as(unit, jump, code, other, t, y, to)?;
            start(code, End::Jump(end), jump, t + 1)
        }
        ExprKind::SizeOf(w) => line(code, span, Instr::Const(t, size_in(unit, w) as i128)),
        ExprKind::SizeOfExpr(x) => {
            line(code, span, Instr::Const(t, size_in(unit, &x.ctype) as i128))
        }
        ExprKind::Index(_, _) | ExprKind::Member(_, _) | ExprKind::Arrow(_, _) => {
            emit_place(unit, jump, code, at, t, e)?;
            object(code, span, &e.ctype, t)
        }
        ExprKind::Deref(x) => {
            emit_val(unit, jump, code, at, t, x)?;
            object(code, span, &e.ctype, t)
        }
        ExprKind::Address(x) => emit_place(unit, jump, code, at, t, x),
    }
}

/// A value as a number of a type.
#[cycle(lowered)]
fn emit_as(
    unit: &Unit,
    jump: Span,
    code: &mut Builder,
    at: u32,
    t: u32,
    e: &Expr,
    to: CInt,
) -> Result<(), NoMemory>
    requires few_blocks { at + (starts.starts (expr_tree e.now)).val < 512 }
    requires few_locals { t + (needs.needs (declared_of unit.now) (expr_tree e.now)).val ≤ 128 }
    ensures { OnOk result (Emits code.old code.new (λ rest. (codes.code_of (declared_of unit.now) jump (expr_tree e.now)).val at t (items.converts (span_of (expr_tree e.now)) (values.number_of (expr_tree e.now)) to t rest))) }
{
    emit_val(unit, jump, code, at, t, e)?;
    convert(code, e.span, number_of(e), to, t)
}

/// The first operand of an operator.
#[cycle(lowered)]
fn emit_first(
    unit: &Unit,
    jump: Span,
    code: &mut Builder,
    at: u32,
    t: u32,
    span: Span,
    op: Binary,
    x: &Expr,
    y: &Expr,
) -> Result<(), NoMemory>
    requires few_blocks { at + (starts.starts (expr_tree x.now)).val < 512 }
    requires few_locals { t + needs.operation_need (values.value_type (type_of (expr_tree x.now))) (values.value_type (type_of (expr_tree y.now))) (needs.needs (declared_of unit.now) (expr_tree x.now)).val (needs.needs (declared_of unit.now) (expr_tree y.now)).val ≤ 128 }
    ensures { OnOk result (Emits code.old code.new (λ rest. (codes.code_of (declared_of unit.now) jump (expr_tree x.now)).val at t (first_code (declared_of unit.now) span op (values.value_type (type_of (expr_tree x.now))) (values.value_type (type_of (expr_tree y.now))) (span_of (expr_tree x.now)) t rest))) }
{
    match (value_type(&x.ctype), value_type(&y.ctype)) {
        (ValueType::Int(v), ValueType::Int(w)) => {
            emit_as(unit, jump, code, at, t, x, applied_in(op, v, w))
        }
        (ValueType::Int(_), ValueType::Ptr(w)) => {
            emit_as(unit, jump, code, at, t, x, unsigned_long())?;
            scale(code, span, unit_in(unit, w), t)
        }
        _ => emit_val(unit, jump, code, at, t, x),
    }
}

/// The second operand of an operator, whose first is in local `t`; the result takes its place.
#[cycle(lowered)]
fn emit_second(
    unit: &Unit,
    jump: Span,
    code: &mut Builder,
    at: u32,
    t: u32,
    span: Span,
    op: Binary,
    y: &Expr,
    x: &Expr,
) -> Result<(), NoMemory>
    requires few_blocks { at + (starts.starts (expr_tree y.now)).val < 512 }
    requires few_locals { t + needs.operation_need (values.value_type (type_of (expr_tree x.now))) (values.value_type (type_of (expr_tree y.now))) (needs.needs (declared_of unit.now) (expr_tree x.now)).val (needs.needs (declared_of unit.now) (expr_tree y.now)).val ≤ 128 }
    ensures { OnOk result (Emits code.old code.new (λ rest. (codes.code_of (declared_of unit.now) jump (expr_tree y.now)).val at (t + 1) (second_code (declared_of unit.now) span op (values.value_type (type_of (expr_tree x.now))) (values.value_type (type_of (expr_tree y.now))) (span_of (expr_tree y.now)) t rest))) }
{
    match (value_type(&x.ctype), value_type(&y.ctype)) {
        (ValueType::Int(v), ValueType::Int(w)) => {
            emit_as(unit, jump, code, at, t + 1, y, right_in(op, v, w))?;
            let applied = applied_in(op, v, w);
            line(code, span, Instr::Bin(t, op_of(op), applied, t, t + 1))
        }
        (ValueType::Ptr(v), ValueType::Int(_)) => {
            emit_as(unit, jump, code, at, t + 1, y, unsigned_long())?;
            scale(code, span, unit_in(unit, v), t + 1)?;
            let applied = unsigned_long();
            line(code, span, Instr::Bin(t, op_of(op), applied, t, t + 1))
        }
        (ValueType::Int(_), ValueType::Ptr(_)) => {
            emit_val(unit, jump, code, at, t + 1, y)?;
            let applied = unsigned_long();
            line(code, span, Instr::Bin(t, op_of(op), applied, t, t + 1))
        }
        (ValueType::Ptr(v), ValueType::Ptr(_)) => {
            emit_val(unit, jump, code, at, t + 1, y)?;
            let applied = signed_long();
            line(code, span, Instr::Bin(t, op_of(op), applied, t, t + 1))?;
            line(code, span, Instr::Const(t + 1, unit_in(unit, v) as i128))?;
            line(code, span, Instr::Bin(t, Op::Div, applied, t, t + 1))
        }
        _ => emit_val(unit, jump, code, at, t + 1, y),
    }
}

/// The code of the address of an object in local `t`, which begins in block `at`.
#[cycle(lowered)]
pub fn emit_place(
    unit: &Unit,
    jump: Span,
    code: &mut Builder,
    at: u32,
    t: u32,
    e: &Expr,
) -> Result<(), NoMemory>
    requires few_blocks { at + starts.place_starts (expr_tree e.now) < 512 }
    requires few_locals { t + needs.place_need (declared_of unit.now) (expr_tree e.now) ≤ 128 }
    ensures { OnOk result (Emits code.old code.new (codes.place_code (declared_of unit.now) jump (expr_tree e.now) at t)) }
{
    let span = e.span;
    match &e.kind {
        ExprKind::Global(n) => line(code, span, Instr::Global(t, *n)),
        ExprKind::Index(x, y) => {
            emit_first(unit, jump, code, at, t, span, Binary::Add, x, y)?;
            emit_second(
                unit,
                jump,
                code,
                val_last(x, at),
                t,
                span,
                Binary::Add,
                y,
                x,
            )
        }
        ExprKind::Member(x, m) => {
            emit_place(unit, jump, code, at, t, x)?;
            further(code, span, offset_in(unit, &x.ctype, *m), t)
        }
        ExprKind::Arrow(x, m) => {
            emit_val(unit, jump, code, at, t, x)?;
            further(code, span, target_offset(unit, value_type(&x.ctype), *m), t)
        }
        ExprKind::Deref(x) => emit_val(unit, jump, code, at, t, x),
        ExprKind::Num(_, _) | ExprKind::Name(_) | ExprKind::Local(_) => {
            line(code, span, Instr::Unset(t))
        }
        ExprKind::Unary(_, _) | ExprKind::Binary(_, _, _) | ExprKind::Cond(_, _, _) => {
            line(code, span, Instr::Unset(t))
        }
        ExprKind::Cast(_, _) | ExprKind::SizeOf(_) | ExprKind::SizeOfExpr(_) => {
            line(code, span, Instr::Unset(t))
        }
        ExprKind::Address(_) => line(code, span, Instr::Unset(t)),
    }
}

/// The code of a test that goes to block `there` or `other`; the next block keeps `keep` locals.
#[cycle(lowered)]
pub fn emit_test(
    unit: &Unit,
    jump: Span,
    code: &mut Builder,
    at: u32,
    t: u32,
    e: &Expr,
    there: u32,
    other: u32,
    keep: u32,
) -> Result<(), NoMemory>
    requires few_blocks { at + (starts.starts (expr_tree e.now)).test < 512 }
    requires few_locals { t + (needs.needs (declared_of unit.now) (expr_tree e.now)).test ≤ 128 }
    ensures { OnOk result (Emits code.old code.new ((codes.code_of (declared_of unit.now) jump (expr_tree e.now)).test at t there other keep)) }
{
    if has_test(e) {
        return emit_own_test(unit, jump, code, at, t, e, there, other, keep);
    }
    emit_val(unit, jump, code, at, t, e)?;
    nonzero(code, e.span, t, there, other, keep)
}

/// The test of an expression that has one of its own.
#[cycle(lowered)]
fn emit_own_test(
    unit: &Unit,
    jump: Span,
    code: &mut Builder,
    at: u32,
    t: u32,
    e: &Expr,
    there: u32,
    other: u32,
    keep: u32,
) -> Result<(), NoMemory>
    requires own { tests_itself (expr_tree e.now) ≡ true }
    requires few_blocks { at + (starts.starts (expr_tree e.now)).test < 512 }
    requires few_locals { t + (needs.needs (declared_of unit.now) (expr_tree e.now)).test ≤ 128 }
    ensures { OnOk result (Emits code.old code.new ((codes.code_of (declared_of unit.now) jump (expr_tree e.now)).test at t there other keep)) }
{
    match &e.kind {
        ExprKind::Unary(Unary::Not, x) => {
            emit_test(unit, jump, code, at, t, x, other, there, keep)
        }
        ExprKind::Binary(op, x, y) => match sort_of(*op) {
            Sort::Both => {
                let second = test_last(x, at) + 1;
                emit_test(unit, jump, code, at, t, x, second, other, t)?;
                emit_test(unit, jump, code, second, t, y, there, other, keep)
            }
            Sort::Either => {
                let second = test_last(x, at) + 1;
                emit_test(unit, jump, code, at, t, x, there, second, t)?;
                emit_test(unit, jump, code, second, t, y, there, other, keep)
            }
            Sort::Comparing => {
                let to = compared_in(value_type(&x.ctype), value_type(&y.ctype));
                emit_as(unit, jump, code, at, t, x, to)?;
                emit_as(unit, jump, code, val_last(x, at), t + 1, y, to)?;
                let end = End::Branch(rel_of(*op), t, t + 1, there, other);
                start(code, end, e.span, keep)
            }
            // Expressions with no test of their own, as all that follow.
            Sort::Computing => Ok(()),
        },
        ExprKind::Unary(Unary::Plus | Unary::Neg | Unary::Compl, _) => Ok(()),
        ExprKind::Num(_, _) | ExprKind::Name(_) | ExprKind::Local(_) | ExprKind::Global(_) => Ok(
            (),
        ),
        ExprKind::SizeOf(_) | ExprKind::SizeOfExpr(_) | ExprKind::Cond(_, _, _) => Ok(()),
        ExprKind::Index(_, _) | ExprKind::Member(_, _) | ExprKind::Arrow(_, _) => Ok(()),
        ExprKind::Cast(_, _) | ExprKind::Deref(_) | ExprKind::Address(_) => Ok(()),
    }
}
