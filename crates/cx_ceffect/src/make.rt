// What was read, with its height. Trees of calls, right sides and effects are made here.

ghost use Rattle.std.specs.Prelude.{◌≡◌, ◌≤◌, ◌++◌, ◌∷◌, [], map, max, Ok, OnOk, Some};
ghost use Rattle.cx_ctree.specs.Conversions.{signed_int};
ghost use Rattle.cx_ctree.specs.Exprs.{expr_tree, effect_tree};
ghost use Rattle.cx_cexpr.specs.Reading.{got, got_type, Measured, MeasuredType};
ghost use Rattle.cx_ceffect.specs.Reading.{got_arguments, got_call, got_rhs, got_effect, MeasuredArguments, MeasuredCall, MeasuredRhs, MeasuredEffect};
ghost use Rattle.cx_ceffect.specs.Effects as grammar;
ghost use Rattle.cx_ceffect.specs.Reading as spec;

use cx_base::{CInt, List, NoMemory, Span};
use cx_cexpr::{Read, ReadType};
use cx_ctree::{Binary, CType, Call, Effect, Expr, ExprKind, Rhs};
use cx_cword::{Lexeme, span_between};

/// The arguments that were read: how many nodes their longest path has, the place past the
/// parenthesis after them, and the lexemes after it.
#[derive(Debug, Drop)]
pub struct ReadArguments<'a> {
    pub all: List<Expr>,
    pub height: u32,
    pub past: u32,
    pub rest: &'a [Lexeme],
}

/// A call that was read: its tree, how many nodes its longest path has, the place past its last
/// lexeme, and the lexemes after it.
#[derive(Debug, Drop)]
pub struct ReadCall<'a> {
    pub tree: Call,
    pub height: u32,
    pub past: u32,
    pub rest: &'a [Lexeme],
}

/// A right side that was read: its tree, how many nodes its longest path has, the place past its
/// last lexeme, and the lexemes after it.
#[derive(Debug, Drop)]
pub struct ReadRhs<'a> {
    pub tree: Rhs,
    pub height: u32,
    pub past: u32,
    pub rest: &'a [Lexeme],
}

/// An effect that was read: its tree, how many nodes its longest path has, the place past its last
/// lexeme, and the lexemes after it.
#[derive(Debug, Drop)]
pub struct ReadEffect<'a> {
    pub tree: Effect,
    pub height: u32,
    pub past: u32,
    pub rest: &'a [Lexeme],
}

/// Effects that were read: how many nodes their longest path has, the place past the last lexeme of
/// the last of them, and the lexemes after it.
#[derive(Debug, Drop)]
pub struct ReadEffects<'a> {
    pub all: List<Effect>,
    pub height: u32,
    pub past: u32,
    pub rest: &'a [Lexeme],
}

pub fn higher(a: u32, b: u32) -> u32
    ensures { result ≡ max a b }
{
    if a < b { b } else { a }
}

/// With one argument more.
#[tactic(auto, using(cx_base::proofs::General::map_push))]
pub fn add_argument(all: &mut List<Expr>, x: Expr) -> Result<(), NoMemory>
    ensures { OnOk result (map expr_tree all.new ≡ map expr_tree all.old ++ expr_tree x ∷ []) }
{
    all.push(x)
}

/// With one effect more.
#[tactic(auto, using(cx_base::proofs::General::map_push))]
pub fn add_effect(all: &mut List<Effect>, x: Effect) -> Result<(), NoMemory>
    ensures { OnOk result (map effect_tree all.new ≡ map effect_tree all.old ++ effect_tree x ∷ []) }
{
    all.push(x)
}

/// A call of the name `n`, which stands from `first` on.
pub fn called<'a>(left: u32, first: u32, n: u32, x: ReadArguments<'a>) -> ReadCall<'a>
    requires known { MeasuredArguments left (Ok x) }
    ensures value { got_call result ≡ spec.called_at first n (got_arguments x.entry) }
    ensures measured { MeasuredCall left (Ok result) }
{
    ReadCall {
        tree: Call {
            span: span_between(first, x.past),
            name: n,
            args: x.all,
        },
        height: x.height,
        past: x.past,
        rest: x.rest,
    }
}

pub fn rhs_value<'a>(left: u32, x: Read<'a>) -> ReadRhs<'a>
    requires known { Measured left (Ok x) }
    ensures value { Some (got_rhs result) ≡ spec.rhs_value (got x.entry) }
    ensures measured { MeasuredRhs left (Ok result) }
{
    ReadRhs {
        tree: Rhs::Value(x.tree),
        height: x.height,
        past: x.past,
        rest: x.rest,
    }
}

pub fn rhs_call<'a>(left: u32, x: ReadCall<'a>) -> ReadRhs<'a>
    requires known { MeasuredCall left (Ok x) }
    ensures value { Some (got_rhs result) ≡ spec.rhs_call None (got_call x.entry) }
    ensures measured { MeasuredRhs left (Ok result) }
{
    ReadRhs {
        tree: Rhs::Call(x.tree, None),
        height: x.height,
        past: x.past,
        rest: x.rest,
    }
}

/// A call whose result is cast.
pub fn rhs_cast<'a>(left: u32, t: ReadType<'a>, x: ReadCall<'a>) -> ReadRhs<'a>
    requires known { MeasuredType left (Ok t) }
    requires known_too { MeasuredCall left (Ok x) }
    ensures value { Some (got_rhs result) ≡ spec.rhs_call (Some (got_type t.entry).tree) (got_call x.entry) }
    ensures measured { MeasuredRhs left (Ok result) }
{
    ReadRhs {
        height: higher(x.height, t.height),
        tree: Rhs::Call(x.tree, Some(t.tree)),
        past: x.past,
        rest: x.rest,
    }
}

pub fn value_effect<'a>(left: u32, x: Read<'a>) -> ReadEffect<'a>
    requires known { Measured left (Ok x) }
    ensures value { Some (got_effect result) ≡ spec.value_effect (got x.entry) }
    ensures measured { MeasuredEffect left (Ok result) }
{
    ReadEffect {
        tree: Effect::Value(x.tree),
        height: x.height,
        past: x.past,
        rest: x.rest,
    }
}

pub fn call_effect<'a>(left: u32, x: ReadCall<'a>) -> ReadEffect<'a>
    requires known { MeasuredCall left (Ok x) }
    ensures value { Some (got_effect result) ≡ spec.call_effect (got_call x.entry) }
    ensures measured { MeasuredEffect left (Ok result) }
{
    ReadEffect {
        tree: Effect::Call(x.tree),
        height: x.height,
        past: x.past,
        rest: x.rest,
    }
}

/// An assignment, which stands from `first` on.
pub fn assigned<'a>(left: u32, first: u32, x: Read<'a>, r: ReadRhs<'a>) -> ReadEffect<'a>
    requires known { Measured left (Ok x) }
    requires known_too { MeasuredRhs left (Ok r) }
    ensures value { Some (got_effect result) ≡ spec.assigned_at first (got x.entry) (got_rhs r.entry) }
    ensures measured { MeasuredEffect left (Ok result) }
{
    ReadEffect {
        height: higher(x.height, r.height),
        tree: Effect::Set(x.tree, r.tree, span_between(first, r.past)),
        past: r.past,
        rest: r.rest,
    }
}

/// A compound assignment, which stands from `first` on.
pub fn updated<'a>(left: u32, first: u32, op: Binary, x: Read<'a>, y: Read<'a>) -> ReadEffect<'a>
    requires known { Measured left (Ok x) }
    requires known_too { Measured left (Ok y) }
    ensures value { Some (got_effect result) ≡ spec.updated_at first op (got x.entry) (got y.entry) }
    ensures measured { MeasuredEffect left (Ok result) }
{
    ReadEffect {
        height: higher(x.height, y.height),
        tree: Effect::Update(op, x.tree, y.tree, span_between(first, y.past)),
        past: y.past,
        rest: y.rest,
    }
}

/// One more or one less, from `first` up to `past`; `rest` are the lexemes after it.
#[tactic(auto, using(crate::proofs::Lists::some_path))]
pub fn stepped<'a>(
    left: u32,
    first: u32,
    past: u32,
    op: Binary,
    x: Read<'a>,
    rest: &'a [Lexeme],
) -> ReadEffect<'a>
    requires known { Measured left (Ok x) }
    ensures value { Some (got_effect result) ≡ spec.stepped_at first past op (got x.entry).tree rest.now }
    ensures measured { MeasuredEffect left (Ok result) }
{
    let span = span_between(first, past);
    ReadEffect {
        tree: Effect::Update(op, x.tree, one(span), span),
        height: x.height,
        past,
        rest,
    }
}

/// `int`.
fn signed_int() -> CInt
    ensures { result ≡ signed_int }
{
    CInt {
        size: 4,
        signed: true,
    }
}

fn one(span: Span) -> Expr
    ensures { expr_tree result ≡ grammar.one span }
{
    Expr {
        span,
        ctype: CType::Void,
        kind: ExprKind::Num(1, signed_int()),
    }
}
