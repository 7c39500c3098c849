//! The code of the parts of statements.

ghost use Rattle.std.specs.Prelude.{◌≡◌, ◌==◌, ◌+◌, ◌<◌, ◌≤◌, map, option_map, position, OnOk};
ghost use Rattle.std.specs.List.{list_any};
ghost use Rattle.cx_ctree.specs.Types.{type_tree};
ghost use Rattle.cx_ctree.specs.Exprs.{expr_tree, span_of, type_of, rhs_tree, effect_tree};
ghost use Rattle.cx_ctree.specs.Stmts.{group_trees};
ghost use Rattle.cx_cmean.specs.Statements as means;
ghost use Rattle.cx_sname.specs.File.{declared_of};
ghost use Rattle.cx_lcode.specs.Items as items;
ghost use Rattle.cx_lcode.specs.Needs as needs;
ghost use Rattle.cx_lcode.specs.Starts as starts;
ghost use Rattle.cx_lcode.specs.Statements as codes;
ghost use Rattle.cx_lemit.specs.Made.{Emits};
ghost use Rattle.cx_lpart.specs.Settings.{setting};

use cx_base::{NoMemory, Span, Token, wrap};
use cx_cconst::constant_value;
use cx_cmean::{is_same, number_in, number_of};
use cx_ctree::{CType, Effect, Expr, Group, Rhs, Unit};
use cx_ctype::promoted;
use cx_goto::{End, Instr, Rel};
use cx_leffect::{emit_effect, emit_right};
use cx_lemit::{Builder, line, start};
use cx_lsize::{effect_last, labels_last, stmts_last};
use cx_lvalue::emit_test;

// The place of the first token that begins there.
fn place_of(tokens: &[Token], first: u32) -> Option<usize>
    ensures { result ≡ position (λ t. t.span.first == first) tokens.now }
{
    tokens.iter().position(|t| t.span.first == first)
}

/// The first token of a piece of the text.
pub fn first_token(tokens: &[Token], span: Span) -> Span
    ensures { result ≡ items.first_token tokens.now span }
{
    let Some(i) = place_of(tokens, span.first) else {
        return span;
    };
    match tokens.get(i) {
        None => span,
        Some(t) => t.span,
    }
}

/// Effects in order.
pub fn emit_effects(
    unit: &Unit,
    given: &CType,
    served: u32,
    code: &mut Builder,
    jump: Span,
    at: u32,
    es: &[Effect],
) -> Result<(), NoMemory>
    requires few_blocks { at + starts.effects_starts (map effect_tree es.now) < 512 }
    requires few_locals { served + needs.effects_need (declared_of unit.now) (map effect_tree es.now) ≤ 128 }
    ensures { OnOk result (Emits code.old code.new (codes.effects_code (setting unit.now given.now served) jump (map effect_tree es.now) at)) }
{
    let mut block = at;
    for e in es {
        emit_effect(unit, jump, code, block, served, e)?;
        block = effect_last(e, block);
    }
    Ok(())
}

/// The test of a `for`; one that is left out goes to the body.
pub fn emit_condition(
    unit: &Unit,
    given: &CType,
    served: u32,
    code: &mut Builder,
    jump: Span,
    at: u32,
    c: Option<&Expr>,
    there: u32,
    other: u32,
) -> Result<(), NoMemory>
    requires few_blocks { at + starts.condition_starts (option_map (λ c. expr_tree c.now) c) < 512 }
    requires few_locals { served + needs.condition_need (declared_of unit.now) (option_map (λ c. expr_tree c.now) c) ≤ 128 }
    ensures { OnOk result (Emits code.old code.new (codes.condition_code (setting unit.now given.now served) jump (option_map (λ c. expr_tree c.now) c.entry) at there other)) }
{
    match c {
        None => start(code, End::Jump(there), jump, served),
        Some(c) => emit_test(unit, jump, code, at, served, c, there, other, served),
    }
}

// The label's constant, as a number of the switch's promoted type.
fn label_number(unit: &Unit, t: &CType, e: &Expr) -> i128
    ensures { result ≡ means.label_number (declared_of unit.now) (type_tree t.now) (expr_tree e.now) }
{
    let to = promoted(number_in(t));
    let v = match constant_value(unit, e) {
        None => 0,
        Some(v) => v,
    };
    if is_same(number_of(e), to) {
        v
    } else {
        wrap(to, v)
    }
}

/// The labels of a group that begins in block `group`.
fn emit_labels(
    unit: &Unit,
    given: &CType,
    served: u32,
    code: &mut Builder,
    value: &Expr,
    group: u32,
    labels: &[Option<Expr>],
    at: u32,
) -> Result<(), NoMemory>
    requires few_blocks { at + starts.labels_starts (map (option_map expr_tree) labels.now) < 512 }
    requires few_locals { served < 128 }
    ensures { OnOk result (Emits code.old code.new (codes.labels_code (setting unit.now given.now served) (span_of (expr_tree value.now)) (type_of (expr_tree value.now)) group (map (option_map expr_tree) labels.now) at)) }
{
    let mut block = at;
    for label in labels {
        if let Some(e) = label {
            let v = label_number(unit, &value.ctype, e);
            line(code, e.span, Instr::Const(served + 1, v))?;
            let end = End::Branch(Rel::Eq, served, served + 1, group, block + 1);
            start(code, end, value.span, served + 1)?;
            block += 1;
        }
    }
    Ok(())
}

/// The labels of all groups, of which the first begins in block `first`.
pub fn emit_all_labels(
    unit: &Unit,
    given: &CType,
    served: u32,
    code: &mut Builder,
    value: &Expr,
    first: u32,
    gs: &[Group],
    at: u32,
) -> Result<(), NoMemory>
    requires few_blocks { at + starts.all_labels_starts (group_trees gs.now) < 512 }
    requires few_groups { first + starts.groups_starts (group_trees gs.now) < 512 }
    requires few_locals { served < 128 }
    ensures { OnOk result (Emits code.old code.new (codes.all_labels_code (setting unit.now given.now served) (span_of (expr_tree value.now)) (type_of (expr_tree value.now)) first (group_trees gs.now) at)) }
{
    let mut block = at;
    let mut group = first;
    for g in gs {
        emit_labels(
            unit,
            given,
            served,
            code,
            value,
            group,
            g.labels.as_slice(),
            block,
        )?;
        block = labels_last(g.labels.as_slice(), block);
        group = stmts_last(g.body.as_slice(), group) + 1;
    }
    Ok(())
}

fn has_default(labels: &[Option<Expr>]) -> bool
    ensures { result ≡ list_any means.is_default (map (option_map expr_tree) labels.now) }
{
    for label in labels {
        if label.is_none() {
            return true;
        }
    }
    false
}

/// The block of the group with the default, where the first begins in block `first`; else `end`.
pub fn default_block(first: u32, end: u32, gs: &[Group]) -> u32
    requires { first + starts.groups_starts (group_trees gs.now) < 512 }
    ensures { result ≡ codes.default_block first end (group_trees gs.now) }
{
    let mut group = first;
    for g in gs {
        if has_default(g.labels.as_slice()) {
            return group;
        }
        group = stmts_last(g.body.as_slice(), group) + 1;
    }
    end
}

/// A variable that is declared is set to its initialiser's value, or unset.
pub fn emit_declare(
    unit: &Unit,
    given: &CType,
    served: u32,
    code: &mut Builder,
    span: Span,
    at: u32,
    x: u32,
    t: &CType,
    r: Option<&Rhs>,
) -> Result<(), NoMemory>
    requires few_blocks { at + starts.initial_starts (option_map (λ r. rhs_tree r.now) r) < 512 }
    requires few_locals { served + needs.initial_need (declared_of unit.now) (option_map (λ r. rhs_tree r.now) r) ≤ 128 }
    ensures { OnOk result (Emits code.old code.new (codes.declare_code (setting unit.now given.now served) span x (type_tree t.now) (option_map (λ r. rhs_tree r.now) r.entry) at)) }
{
    match r {
        None => line(code, span, Instr::Unset(x)),
        Some(r) => {
            emit_right(unit, span, code, at, served, t, r)?;
            line(code, span, Instr::Copy(x, served))
        }
    }
}

/// A value is converted to the type of the function's result.
pub fn emit_return(
    unit: &Unit,
    given: &CType,
    served: u32,
    code: &mut Builder,
    q: Span,
    span: Span,
    at: u32,
    r: Option<&Rhs>,
) -> Result<(), NoMemory>
    requires few_blocks { at + starts.initial_starts (option_map (λ r. rhs_tree r.now) r) < 512 }
    requires few_locals { served + needs.initial_need (declared_of unit.now) (option_map (λ r. rhs_tree r.now) r) ≤ 128 }
    ensures { OnOk result (Emits code.old code.new (codes.return_code (setting unit.now given.now served) q span (option_map (λ r. rhs_tree r.now) r.entry) at)) }
{
    match r {
        None => start(code, End::Return(None), span, served),
        Some(r) => {
            emit_right(unit, q, code, at, served, given, r)?;
            start(code, End::Return(Some(served)), span, served)
        }
    }
}
