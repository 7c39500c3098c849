// Effects, read from left to right with no way back but one: what begins with a type in parentheses
// is read again where no call follows.

ghost use Rattle.std.specs.Prelude.{◌≡◌, ◌≤◌, [], Ok, is_some};
ghost use Rattle.cx_cword.specs.Reading.{Gives, name_of};
ghost use Rattle.cx_cname.specs.Known.{known_of};
ghost use Rattle.cx_cexpr.specs.Reading.{got, Measured};
ghost use Rattle.cx_ceffect.specs.Kinds as kinds;
ghost use Rattle.cx_ceffect.specs.Reading.{got_arguments, got_call, got_rhs, got_effect, got_effects, MeasuredArguments, MeasuredCall, MeasuredRhs, MeasuredEffect, MeasuredEffects, arguments_at, enclosed_arguments, call_at, cast_rhs_at, rhs_at, value_at, after_at, plain_at, effect_at, effects_at};

use crate::kinds::{
    After, Separator, after_of, begins_postfix, is_close, is_open, separator_of, step_of,
};
use crate::make::{
    ReadArguments, ReadCall, ReadEffect, ReadEffects, ReadRhs, add_argument, add_effect, assigned,
    call_effect, called, higher, rhs_call, rhs_cast, rhs_value, stepped, updated, value_effect,
};
use cx_base::List;
use cx_cexpr::{Read, choice, climb, cond, enclosed_type, named, opens_type, unary};
use cx_ctree::Unit;
use cx_cword::{Lexeme, LexemeKind, Mark, Stop, next, split};
use std::alloc::Global;

fn is_name(kind: LexemeKind) -> bool
    ensures { result ≡ is_some (name_of kind) }
{
    match kind {
        LexemeKind::Name(n) | LexemeKind::Attributive(n) => n.is_some(),
        _ => false,
    }
}

fn opens(lexemes: &[Lexeme]) -> bool
    ensures { result ≡ kinds.opens lexemes.now }
{
    match split(lexemes) {
        None => false,
        Some((o, _)) => is_open(o.kind),
    }
}

/// Whether the first lexemes are a name and a parenthesis, with which a call begins. No expression
/// begins so.
pub fn calls(lexemes: &[Lexeme]) -> bool
    ensures { result ≡ kinds.calls lexemes.now }
{
    match split(lexemes) {
        None => false,
        Some((o, rest)) => is_name(o.kind) && opens(rest),
    }
}

/// Arguments, at least one, up to the parenthesis after them.
#[tactic(auto, using(crate::proofs::Turns::arguments_turn, crate::proofs::Turns::arguments_none, crate::proofs::Lists::greatest_push))]
fn arguments<'a>(
    alloc: Global,
    known: &Unit,
    turns: usize,
    left: u32,
    lexemes: &'a [Lexeme],
) -> Result<ReadArguments<'a>, Stop>
    requires shallow { left ≤ 400 }
    ensures value { Gives got_arguments result (arguments_at (known_of known.now) turns left [] lexemes.now) }
    ensures measured { MeasuredArguments left result }
{
    let mut all = List::new(alloc);
    let mut height = 0;
    let mut n = turns;
    let mut rest = lexemes;
    'each: while n > 0 {
        let x = cond(alloc, known, n - 1, left, rest)?;
        height = higher(height, x.height);
        add_argument(&mut all, x.tree)?;
        match split(x.rest) {
            None => return Err(Stop::Unread),
            Some((c, after)) => match separator_of(c.kind) {
                Separator::Comma => rest = after,
                Separator::Close => {
                    return Ok(ReadArguments {
                        all,
                        height,
                        past: c.span.past,
                        rest: after,
                    });
                }
                Separator::Other => return Err(Stop::Unread),
            },
        }
        n -= 1;
    }
    Err(Stop::Unread)
}

/// What stands between the parentheses of a call, with the second of them.
#[tactic(auto, unfolding(crate::specs::Reading::enclosed_arguments))]
fn enclosed<'a>(
    alloc: Global,
    known: &Unit,
    turns: usize,
    left: u32,
    lexemes: &'a [Lexeme],
) -> Result<ReadArguments<'a>, Stop>
    requires shallow { left ≤ 400 }
    ensures value { Gives got_arguments result (enclosed_arguments (known_of known.now) turns left lexemes.now) }
    ensures measured { MeasuredArguments left result }
{
    match split(lexemes) {
        None => Err(Stop::Unread),
        Some((c, rest)) => {
            if is_close(c.kind) {
                Ok(ReadArguments {
                    all: List::new(alloc),
                    height: 0,
                    past: c.span.past,
                    rest,
                })
            } else {
                arguments(alloc, known, turns, left, lexemes)
            }
        }
    }
}

/// A call of a function by its name (C11 6.5.2.2). `turns` bounds the calls: 16 for each lexeme and
/// 5 more are enough. `left` is how many nodes a path of an argument may have.
#[tactic(auto, unfolding(crate::specs::Reading::call_at))]
pub fn call<'a>(
    alloc: Global,
    known: &Unit,
    turns: usize,
    left: u32,
    lexemes: &'a [Lexeme],
) -> Result<ReadCall<'a>, Stop>
    requires shallow { left ≤ 400 }
    ensures value { Gives got_call result (call_at (known_of known.now) turns left lexemes.now) }
    ensures measured { MeasuredCall left result }
{
    match named(lexemes) {
        None => Err(Stop::Unread),
        Some((o, n, rest)) => match next(Mark::OpenParen, rest) {
            None => Err(Stop::Unread),
            Some((_, after)) => {
                let x = enclosed(alloc, known, turns, left, after)?;
                Ok(called(left, o.span.first, n, x))
            }
        },
    }
}

/// What begins with a type in parentheses: a call whose result is cast, or a value.
#[tactic(auto, unfolding(crate::specs::Reading::cast_rhs_at))]
fn cast_rhs<'a>(
    alloc: Global,
    known: &Unit,
    turns: usize,
    left: u32,
    lexemes: &'a [Lexeme],
) -> Result<ReadRhs<'a>, Stop>
    requires shallow { left ≤ 400 }
    ensures value { Gives got_rhs result (cast_rhs_at (known_of known.now) turns left lexemes.now) }
    ensures measured { MeasuredRhs left result }
{
    let t = enclosed_type(alloc, known, left, lexemes)?;
    if calls(t.rest) {
        let x = call(alloc, known, turns, left, t.rest)?;
        Ok(rhs_cast(left, t, x))
    } else {
        let x = cond(alloc, known, turns, left, lexemes)?;
        Ok(rhs_value(left, x))
    }
}

/// A right side: an expression, or a call whose result may be cast. `turns` bounds the calls: 16 for
/// each lexeme and 5 more are enough. `left` is how many nodes a path of its tree may have.
#[tactic(auto, unfolding(crate::specs::Reading::rhs_at))]
pub fn rhs<'a>(
    alloc: Global,
    known: &Unit,
    turns: usize,
    left: u32,
    lexemes: &'a [Lexeme],
) -> Result<ReadRhs<'a>, Stop>
    requires shallow { left ≤ 400 }
    ensures value { Gives got_rhs result (rhs_at (known_of known.now) turns left lexemes.now) }
    ensures measured { MeasuredRhs left result }
{
    if calls(lexemes) {
        let x = call(alloc, known, turns, left, lexemes)?;
        Ok(rhs_call(left, x))
    } else if opens_type(known, lexemes) {
        cast_rhs(alloc, known, turns, left, lexemes)
    } else {
        let x = cond(alloc, known, turns, left, lexemes)?;
        Ok(rhs_value(left, x))
    }
}

/// Goes on after a unary expression that is the first operand of a value.
#[tactic(auto, unfolding(crate::specs::Reading::value_at))]
fn value<'a>(
    alloc: Global,
    known: &Unit,
    turns: usize,
    left: u32,
    first: u32,
    x: Read<'a>,
) -> Result<ReadEffect<'a>, Stop>
    requires shallow { left ≤ 400 }
    requires known { Measured left (Ok x) }
    ensures value { Gives got_effect result (value_at (known_of known.now) turns left first (got x.entry)) }
    ensures measured { MeasuredEffect left result }
{
    let y = climb(alloc, known, turns.saturating_sub(2), left, 10, first, x)?;
    let z = choice(alloc, known, turns.saturating_sub(1), left, first, y)?;
    Ok(value_effect(left, z))
}

/// Goes on after a unary expression, which is a postfix expression or not.
#[tactic(auto, unfolding(crate::specs::Reading::after_at))]
fn after_unary<'a>(
    alloc: Global,
    known: &Unit,
    turns: usize,
    left: u32,
    postfix: bool,
    first: u32,
    x: Read<'a>,
) -> Result<ReadEffect<'a>, Stop>
    requires shallow { left ≤ 400 }
    requires known { Measured left (Ok x) }
    ensures value { Gives got_effect result (after_at (known_of known.now) turns left postfix first (got x.entry)) }
    ensures measured { MeasuredEffect left result }
{
    match split(x.rest) {
        None => value(alloc, known, turns, left, first, x),
        Some((o, rest)) => match after_of(o.kind) {
            After::Assign => {
                let r = rhs(alloc, known, turns, left, rest)?;
                Ok(assigned(left, first, x, r))
            }
            After::Update(op) => {
                let y = cond(alloc, known, turns, left, rest)?;
                Ok(updated(left, first, op, x, y))
            }
            After::Step(op) => {
                if postfix {
                    Ok(stepped(left, first, o.span.past, op, x, rest))
                } else {
                    Err(Stop::Unread)
                }
            }
            After::Other => value(alloc, known, turns, left, first, x),
        },
    }
}

/// An effect that does not begin with `++` or `--`.
#[tactic(auto, unfolding(crate::specs::Reading::plain_at))]
fn plain<'a>(
    alloc: Global,
    known: &Unit,
    turns: usize,
    left: u32,
    o: Lexeme,
    lexemes: &'a [Lexeme],
) -> Result<ReadEffect<'a>, Stop>
    requires shallow { left ≤ 400 }
    ensures value { Gives got_effect result (plain_at (known_of known.now) turns left o lexemes.now) }
    ensures measured { MeasuredEffect left result }
{
    if calls(lexemes) {
        let x = call(alloc, known, turns, left, lexemes)?;
        Ok(call_effect(left, x))
    } else if opens_type(known, lexemes) {
        let x = cond(alloc, known, turns, left, lexemes)?;
        Ok(value_effect(left, x))
    } else {
        let x = unary(alloc, known, turns.saturating_sub(3), left, lexemes)?;
        let postfix = begins_postfix(o.kind);
        after_unary(alloc, known, turns, left, postfix, o.span.first, x)
    }
}

/// An effect: an assignment, an increment, a call or a value that stands whole. `turns` bounds the
/// calls: 16 for each lexeme and 5 more are enough. `left` is how many nodes a path of its tree may
/// have.
#[tactic(auto, unfolding(crate::specs::Reading::effect_at))]
pub fn effect<'a>(
    alloc: Global,
    known: &Unit,
    turns: usize,
    left: u32,
    lexemes: &'a [Lexeme],
) -> Result<ReadEffect<'a>, Stop>
    requires shallow { left ≤ 400 }
    ensures value { Gives got_effect result (effect_at (known_of known.now) turns left lexemes.now) }
    ensures measured { MeasuredEffect left result }
{
    match split(lexemes) {
        None => Err(Stop::Unread),
        Some((o, rest)) => match step_of(o.kind) {
            Some(op) => {
                let x = unary(alloc, known, turns, left, rest)?;
                let past = x.past;
                let after = x.rest;
                Ok(stepped(left, o.span.first, past, op, x, after))
            }
            None => plain(alloc, known, turns, left, o, lexemes),
        },
    }
}

/// Effects with commas between them, at least one. `turns` bounds the calls: 16 for each lexeme and
/// 6 more are enough. `left` is how many nodes a path of a tree may have.
#[tactic(auto, using(crate::proofs::Turns::effects_turn, crate::proofs::Turns::effects_none, crate::proofs::Lists::greatest_push))]
pub fn effects<'a>(
    alloc: Global,
    known: &Unit,
    turns: usize,
    left: u32,
    lexemes: &'a [Lexeme],
) -> Result<ReadEffects<'a>, Stop>
    requires shallow { left ≤ 400 }
    ensures value { Gives got_effects result (effects_at (known_of known.now) turns left [] lexemes.now) }
    ensures measured { MeasuredEffects left result }
{
    let mut all = List::new(alloc);
    let mut height = 0;
    let mut n = turns;
    let mut rest = lexemes;
    'each: while n > 0 {
        let x = effect(alloc, known, n - 1, left, rest)?;
        height = higher(height, x.height);
        add_effect(&mut all, x.tree)?;
        let past = x.past;
        match split(x.rest) {
            None => {
                return Ok(ReadEffects {
                    all,
                    height,
                    past,
                    rest: x.rest,
                });
            }
            Some((c, after)) => match separator_of(c.kind) {
                Separator::Comma => rest = after,
                _ => {
                    return Ok(ReadEffects {
                        all,
                        height,
                        past,
                        rest: x.rest,
                    });
                }
            },
        }
        n -= 1;
    }
    Err(Stop::Unread)
}
