//! The code of effects and right sides.

ghost use Rattle.std.specs.Prelude.{◌≡◌, ◌+◌, ◌<◌, ◌≤◌, ◌∷◌, map, length, option_map, OnOk, IfOk};
ghost use Rattle.cx_ctree.specs.Types.{type_tree};
ghost use Rattle.cx_ctree.specs.Exprs.{expr_tree, call_tree, rhs_tree, effect_tree};
ghost use Rattle.cx_ctree.specs.Decls.{param_tree};
ghost use Rattle.cx_cmean.specs.Effects as means;
ghost use Rattle.cx_cmean.specs.Numbers as values;
ghost use Rattle.cx_cmean.specs.Program.{function_of};
ghost use Rattle.cx_sname.specs.File.{declared_of};
ghost use Rattle.cx_lcode.specs.Effects as codes;
ghost use Rattle.cx_lcode.specs.Lines as lines;
ghost use Rattle.cx_lcode.specs.Needs as needs;
ghost use Rattle.cx_lcode.specs.Starts as starts;
ghost use Rattle.cx_lcode.specs.Values as values_code;
ghost use Rattle.cx_lemit.specs.Made.{Emits};

use cx_base::{List, NoMemory, Span};
use cx_cmean::{applied_in, number_in, number_of, right_in, unit_in};
use cx_ctree::{Binary, CType, Call, Effect, Expr, ExprKind, Param, Rhs, Unit};
use cx_ctype::{ValueType, unsigned_long, value_type};
use cx_goto::{Instr, Op};
use cx_lemit::{Builder, convert, line};
use cx_lsize::{number_given, op_of, params_of, right_last, val_last};
use cx_lvalue::{emit_place, emit_val};

/// Arguments, each in its own local and converted to the type of its parameter.
pub fn emit_arguments(
    unit: &Unit,
    jump: Span,
    code: &mut Builder,
    at: u32,
    t: u32,
    args: &[Expr],
    params: &[Param],
) -> Result<(), NoMemory>
    requires few_blocks { at + starts.all_starts (map expr_tree args.now) < 512 }
    requires few_locals { t + needs.arguments_need (declared_of unit.now) (map expr_tree args.now) (map (λ p. p.ctype) (map param_tree params.now)) ≤ 128 }
    ensures { OnOk result (Emits code.old code.new (codes.arguments_code (declared_of unit.now) jump (map expr_tree args.now) (map (λ p. p.ctype) (map param_tree params.now)) at t)) }
{
    let [e, others @ ..] = args else {
        return Ok(());
    };
    let [param, further @ ..] = params else {
        return Ok(());
    };
    emit_val(unit, jump, code, at, t, e)?;
    convert(code, e.span, number_of(e), number_in(&param.ctype), t)?;
    emit_arguments(unit, jump, code, val_last(e, at), t + 1, others, further)
}

fn pointee_copy(t: &CType) -> Result<Option<CType>, NoMemory>
    ensures { IfOk result (λ q. option_map type_tree q ≡ means.pointee_of (type_tree t.now)) }
{
    match t {
        CType::Ptr(inner) => Ok(Some(inner.copy()?)),
        CType::Void | CType::Int(_) | CType::Array(_, _) | CType::Tag(_) => Ok(None),
    }
}

// As many locals as there are expressions, from a first on.
fn locals_for(code: &Builder, first: u32, args: &[Expr]) -> Result<List<u32>, NoMemory>
    requires { first + length args.now ≤ 128 }
    ensures { IfOk result (λ ls. ls ≡ lines.locals_for (map expr_tree args.now) first) }
{
    let mut locals = List::new(code.blocks.alloc());
    let mut t = first;
    for arg in args {
        locals.push(t)?;
        t += 1;
    }
    Ok(locals)
}

// The arguments that have a parameter; none where no function has the name.
fn emit_given(
    unit: &Unit,
    jump: Span,
    code: &mut Builder,
    at: u32,
    served: u32,
    call: &Call,
) -> Result<(), NoMemory>
    requires few_blocks { at + starts.all_starts (call_tree call.now).args < 512 }
    requires few_locals { served + needs.arguments_need (declared_of unit.now) (call_tree call.now).args (function_of (declared_of unit.now) call.now.name).params ≤ 128 }
    ensures { OnOk result (Emits code.old code.new (codes.arguments_code (declared_of unit.now) jump (call_tree call.now).args (function_of (declared_of unit.now) call.now.name).params at served)) }
{
    match params_of(unit, call.name) {
        None => Ok(()),
        Some(params) => emit_arguments(unit, jump, code, at, served, call.args.as_slice(), params),
    }
}

/// A call; what it gives goes to the first local.
#[tactic(auto, using(crate::proofs::Given::counted))]
fn emit_call(
    unit: &Unit,
    jump: Span,
    code: &mut Builder,
    at: u32,
    served: u32,
    call: &Call,
    pointee: Option<CType>,
) -> Result<(), NoMemory>
    requires few_blocks { at + starts.all_starts (call_tree call.now).args < 512 }
    requires few_locals { served + needs.call_need (declared_of unit.now) (call_tree call.now) ≤ 128 }
    ensures { OnOk result (Emits code.old code.new (codes.call_code (declared_of unit.now) jump (call_tree call.now) (option_map type_tree pointee) at served)) }
{
    let args = locals_for(code, served, call.args.as_slice())?;
    emit_given(unit, jump, code, at, served, call)?;
    let instr = Instr::Call {
        dest: served,
        name: call.name,
        args,
        pointee,
    };
    line(code, call.span, instr)
}

fn taken_as<'a>(w: Option<&'a CType>, t: &'a CType) -> &'a CType
    ensures { type_tree result.now ≡ means.taken_as (option_map (λ w. type_tree w.now) w.entry) (type_tree t.now) }
{
    match w {
        None => t,
        Some(w) => w,
    }
}

/// The code of a right side, converted to the type.
pub fn emit_right(
    unit: &Unit,
    jump: Span,
    code: &mut Builder,
    at: u32,
    served: u32,
    t: &CType,
    r: &Rhs,
) -> Result<(), NoMemory>
    requires few_blocks { at + starts.right_starts (rhs_tree r.now) < 512 }
    requires few_locals { served + needs.right_need (declared_of unit.now) (rhs_tree r.now) ≤ 128 }
    ensures { OnOk result (Emits code.old code.new (codes.right_code (declared_of unit.now) jump (type_tree t.now) (rhs_tree r.now) at served)) }
{
    match r {
        Rhs::Value(e) => {
            emit_val(unit, jump, code, at, served, e)?;
            convert(code, e.span, number_of(e), number_in(t), served)
        }
        Rhs::Call(c, w) => {
            let taken = taken_as(w.as_ref(), t);
            let pointee = pointee_copy(taken)?;
            emit_call(unit, jump, code, at, served, c, pointee)?;
            let given = number_given(unit, c.name);
            let from = number_in(taken);
            let to = number_in(t);
            convert(code, c.span, given, from, served)?;
            convert(code, c.span, from, to, served)
        }
    }
}

/// The address of a left side in memory, in the local after the first; nothing where it is a local.
fn emit_left(
    unit: &Unit,
    jump: Span,
    code: &mut Builder,
    at: u32,
    served: u32,
    l: &Expr,
) -> Result<(), NoMemory>
    requires few_blocks { at + starts.left_starts (expr_tree l.now) < 512 }
    requires few_locals { served + needs.left_need (declared_of unit.now) (expr_tree l.now) ≤ 128 }
    ensures { OnOk result (Emits code.old code.new (codes.left_code (declared_of unit.now) jump (expr_tree l.now) at served)) }
{
    match local_of(l) {
        Some(_) => Ok(()),
        None => emit_place(unit, jump, code, at, served + 1, l),
    }
}

fn local_of(l: &Expr) -> Option<u32>
    ensures { result ≡ means.local_of (expr_tree l.now) }
{
    match &l.kind {
        ExprKind::Local(x) => Some(*x),
        ExprKind::Num(_, _) | ExprKind::Name(_) | ExprKind::Global(_) => None,
        ExprKind::Unary(_, _) | ExprKind::Binary(_, _, _) | ExprKind::Cond(_, _, _) => None,
        ExprKind::Cast(_, _) | ExprKind::SizeOf(_) | ExprKind::SizeOfExpr(_) => None,
        ExprKind::Index(_, _) | ExprKind::Member(_, _) | ExprKind::Arrow(_, _) => None,
        ExprKind::Deref(_) | ExprKind::Address(_) => None,
    }
}

/// The number of a left side, in local `t`.
fn read_left(code: &mut Builder, served: u32, t: u32, l: &Expr) -> Result<(), NoMemory>
    requires { served < 128 }
    ensures { OnOk result (Emits code.old code.new (λ rest. codes.read_code (expr_tree l.now) (means.local_of (expr_tree l.now)) served t ∷ rest)) }
{
    match local_of(l) {
        Some(x) => line(code, l.span, Instr::Copy(t, x)),
        None => line(
            code,
            l.span,
            Instr::Load(t, number_in(&l.ctype), served + 1),
        ),
    }
}

/// Local `t` is put there.
fn write_left(code: &mut Builder, served: u32, t: u32, l: &Expr) -> Result<(), NoMemory>
    requires { served < 128 }
    ensures { OnOk result (Emits code.old code.new (λ rest. codes.write_code (expr_tree l.now) (means.local_of (expr_tree l.now)) served t ∷ rest)) }
{
    match local_of(l) {
        Some(x) => line(code, l.span, Instr::Copy(x, t)),
        None => line(
            code,
            l.span,
            Instr::Store(number_in(&l.ctype), served + 1, t),
        ),
    }
}

/// The local after the next is changed by the first.
fn emit_update(
    unit: &Unit,
    jump: Span,
    code: &mut Builder,
    span: Span,
    op: Binary,
    served: u32,
    l: &CType,
    w: &CType,
) -> Result<(), NoMemory>
    requires { served < 128 }
    ensures { OnOk result (Emits code.old code.new (codes.updates (declared_of unit.now) span op (type_tree l.now) (values.value_type (type_tree w.now)) served)) }
{
    match (l, value_type(w)) {
        (CType::Int(t), ValueType::Int(u)) => {
            let applied = applied_in(op, *t, u);
            convert(code, span, *t, applied, served + 2)?;
            convert(code, span, u, right_in(op, *t, u), served)?;
            line(
                code,
                span,
                Instr::Bin(served + 2, op_of(op), applied, served + 2, served),
            )?;
            convert(code, span, applied, *t, served + 2)
        }
        (CType::Ptr(t), ValueType::Int(u)) => {
            convert(code, span, u, unsigned_long(), served)?;
            line(
                code,
                span,
                Instr::Const(served + 3, unit_in(unit, t) as i128),
            )?;
            line(
                code,
                span,
                Instr::Bin(served, Op::Mul, unsigned_long(), served, served + 3),
            )?;
            line(
                code,
                span,
                Instr::Bin(served + 2, op_of(op), unsigned_long(), served + 2, served),
            )
        }
        (CType::Int(_) | CType::Ptr(_), ValueType::Void | ValueType::Ptr(_) | ValueType::Tag(_)) =>
            Ok(()),
        (CType::Void | CType::Array(_, _) | CType::Tag(_), _) => Ok(()),
    }
}

/// A value that nothing takes; of a cast to void its operand's.
fn emit_alone(
    unit: &Unit,
    jump: Span,
    code: &mut Builder,
    at: u32,
    served: u32,
    e: &Expr,
) -> Result<(), NoMemory>
    requires few_blocks { at + (starts.starts (means.operand_of (expr_tree e.now))).val < 512 }
    requires few_locals { served + (needs.needs (declared_of unit.now) (means.operand_of (expr_tree e.now))).val ≤ 128 }
    ensures { OnOk result (Emits code.old code.new ((values_code.code_of (declared_of unit.now) jump (means.operand_of (expr_tree e.now))).val at served)) }
{
    match &e.kind {
        ExprKind::Cast(CType::Void, x) => emit_val(unit, jump, code, at, served, x),
        ExprKind::Cast(CType::Int(_) | CType::Ptr(_) | CType::Array(_, _) | CType::Tag(_), _) => {
            emit_val(unit, jump, code, at, served, e)
        }
        ExprKind::Num(_, _) | ExprKind::Name(_) | ExprKind::Local(_) | ExprKind::Global(_) => {
            emit_val(unit, jump, code, at, served, e)
        }
        ExprKind::Unary(_, _) | ExprKind::Binary(_, _, _) | ExprKind::Cond(_, _, _) => {
            emit_val(unit, jump, code, at, served, e)
        }
        ExprKind::Index(_, _) | ExprKind::Member(_, _) | ExprKind::Arrow(_, _) => {
            emit_val(unit, jump, code, at, served, e)
        }
        ExprKind::SizeOf(_) | ExprKind::SizeOfExpr(_) => emit_val(unit, jump, code, at, served, e),
        ExprKind::Deref(_) | ExprKind::Address(_) => emit_val(unit, jump, code, at, served, e),
    }
}

/// The code of an effect.
pub fn emit_effect(
    unit: &Unit,
    jump: Span,
    code: &mut Builder,
    at: u32,
    served: u32,
    e: &Effect,
) -> Result<(), NoMemory>
    requires few_blocks { at + starts.effect_starts (effect_tree e.now) < 512 }
    requires few_locals { served + needs.effect_need (declared_of unit.now) (effect_tree e.now) ≤ 128 }
    ensures { OnOk result (Emits code.old code.new (codes.effect_code (declared_of unit.now) jump (effect_tree e.now) at served)) }
{
    match e {
        Effect::Set(l, r, _) => {
            emit_right(unit, jump, code, at, served, &l.ctype, r)?;
            emit_left(unit, jump, code, right_last(r, at), served, l)?;
            write_left(code, served, served, l)
        }
        Effect::Update(op, l, e, span) => {
            emit_val(unit, jump, code, at, served, e)?;
            emit_left(unit, jump, code, val_last(e, at), served, l)?;
            read_left(code, served, served + 2, l)?;
            emit_update(unit, jump, code, *span, *op, served, &l.ctype, &e.ctype)?;
            write_left(code, served, served + 2, l)
        }
        Effect::Call(c) => emit_call(unit, jump, code, at, served, c, None),
        Effect::Value(e) => emit_alone(unit, jump, code, at, served, e),
    }
}
