// Expressions (C11 6.5), read from left to right with no way back.

ghost use Rattle.std.specs.Prelude.{◌≡◌, ◌<◌, ◌≤◌, Ok};
ghost use Rattle.cx_cword.specs.Reading.{Gives};
ghost use Rattle.cx_cname.specs.Known.{known_of};
ghost use Rattle.cx_cexpr.specs.Reading.{got, Measured, cond_at, choice_at, binary_at, climb_at, more_at, cast_at, unary_at, size_at, suffix_at, primary_at, rest_at};

use crate::kinds::{Head, Leaf, Suffix, head_of, leaf_of, op_at, suffix_of};
use crate::make::{
    Read, cast_to, chosen, indexed, joined, made, member, name, number, prefixed, size_of_type,
    size_of_value,
};
use crate::types::{enclosed_type, opens_type};
use cx_cname::names_type;
use cx_ctree::Unit;
use cx_cword::{Lexeme, Mark, Stop, fits, next, split};
use std::alloc::Global;

/// A conditional expression (C11 6.5.15). `turns` bounds the calls: 16 for each lexeme and 5 more
/// are enough. `left` is how many nodes a path of its tree may have.
#[cycle(expr)]
#[tactic(auto, using(crate::proofs::Turns::cond_turn, crate::proofs::Turns::cond_none))]
pub fn cond<'a>(
    alloc: Global,
    known: &Unit,
    turns: usize,
    left: u32,
    lexemes: &'a [Lexeme],
) -> Result<Read<'a>, Stop>
    requires shallow { left ≤ 400 }
    ensures value { Gives got result (cond_at (known_of known.now) turns left lexemes.now) }
    ensures measured { Measured left result }
{
    if turns == 0 {
        return Err(Stop::Unread);
    }
    match split(lexemes) {
        None => Err(Stop::Unread),
        Some((o, _)) => {
            let x = binary(alloc, known, turns - 1, left, 10, lexemes)?;
            choice(alloc, known, turns - 1, left, o.span.first, x)
        }
    }
}

/// Goes on after the first operand of a conditional expression.
#[cycle(expr)]
#[tactic(auto, using(crate::proofs::Turns::choice_turn, crate::proofs::Turns::choice_none))]
pub fn choice<'a>(
    alloc: Global,
    known: &Unit,
    turns: usize,
    left: u32,
    first: u32,
    x: Read<'a>,
) -> Result<Read<'a>, Stop>
    requires shallow { left ≤ 400 }
    requires known { Measured left (Ok x) }
    ensures value { Gives got result (choice_at (known_of known.now) turns left first (got x.entry)) }
    ensures measured { Measured left result }
{
    if turns == 0 {
        return Err(Stop::Unread);
    }
    match split(x.rest) {
        None => Ok(x),
        Some((o, rest)) => {
            if fits(Mark::Question, o.kind) {
                let below = left.saturating_sub(1);
                let y = cond(alloc, known, turns - 1, below, rest)?;
                match next(Mark::Colon, y.rest) {
                    None => Err(Stop::Unread),
                    Some((_, after)) => {
                        let z = cond(alloc, known, turns - 1, below, after)?;
                        chosen(alloc, left, first, x, y, z)
                    }
                }
            } else {
                Ok(x)
            }
        }
    }
}

/// Operands with the binary operators between them, up to a level (C11 6.5.5 to 6.5.14).
#[cycle(expr)]
#[tactic(auto, using(crate::proofs::Turns::binary_turn, crate::proofs::Turns::binary_none))]
pub fn binary<'a>(
    alloc: Global,
    known: &Unit,
    turns: usize,
    left: u32,
    level: u8,
    lexemes: &'a [Lexeme],
) -> Result<Read<'a>, Stop>
    requires shallow { left ≤ 400 }
    requires level { level ≤ 10 }
    ensures value { Gives got result (binary_at (known_of known.now) turns left level lexemes.now) }
    ensures measured { Measured left result }
{
    if turns == 0 {
        return Err(Stop::Unread);
    }
    match split(lexemes) {
        None => Err(Stop::Unread),
        Some((o, _)) => {
            let x = cast(alloc, known, turns - 1, left, lexemes)?;
            climb(alloc, known, turns - 1, left, level, o.span.first, x)
        }
    }
}

/// Goes on after an operand with the operators up to a level.
#[cycle(expr)]
#[tactic(auto, using(crate::proofs::Turns::climb_turn, crate::proofs::Turns::climb_operand, crate::proofs::Turns::climb_none))]
pub fn climb<'a>(
    alloc: Global,
    known: &Unit,
    turns: usize,
    left: u32,
    level: u8,
    first: u32,
    x: Read<'a>,
) -> Result<Read<'a>, Stop>
    requires shallow { left ≤ 400 }
    requires level { level ≤ 10 }
    requires known { Measured left (Ok x) }
    ensures value { Gives got result (climb_at (known_of known.now) turns left level first (got x.entry)) }
    ensures measured { Measured left result }
{
    if turns == 0 {
        return Err(Stop::Unread);
    }
    if level == 0 {
        return Ok(x);
    }
    let x = climb(alloc, known, turns - 1, left, level - 1, first, x)?;
    more(alloc, known, turns - 1, left, level, first, x)
}

/// The operators of one level, over operands of the level below.
#[cycle(expr)]
#[tactic(auto, using(crate::proofs::Turns::more_turn, crate::proofs::Turns::more_none))]
fn more<'a>(
    alloc: Global,
    known: &Unit,
    turns: usize,
    left: u32,
    level: u8,
    first: u32,
    x: Read<'a>,
) -> Result<Read<'a>, Stop>
    requires shallow { left ≤ 400 }
    requires low { 0 < level }
    requires level { level ≤ 10 }
    requires known { Measured left (Ok x) }
    ensures value { Gives got result (more_at (known_of known.now) turns left level first (got x.entry)) }
    ensures measured { Measured left result }
{
    if turns == 0 {
        return Err(Stop::Unread);
    }
    match split(x.rest) {
        None => Ok(x),
        Some((o, rest)) => match op_at(o.kind) {
            None => Ok(x),
            Some((at, op)) => {
                if at != level {
                    return Ok(x);
                }
                let below = left.saturating_sub(1);
                let y = binary(alloc, known, turns - 1, below, level - 1, rest)?;
                let next = joined(alloc, left, first, op, x, y)?;
                more(alloc, known, turns - 1, left, level, first, next)
            }
        },
    }
}

/// A cast expression (C11 6.5.4).
#[cycle(expr)]
#[tactic(auto, using(crate::proofs::Turns::cast_turn, crate::proofs::Turns::cast_none))]
pub fn cast<'a>(
    alloc: Global,
    known: &Unit,
    turns: usize,
    left: u32,
    lexemes: &'a [Lexeme],
) -> Result<Read<'a>, Stop>
    requires shallow { left ≤ 400 }
    ensures value { Gives got result (cast_at (known_of known.now) turns left lexemes.now) }
    ensures measured { Measured left result }
{
    if turns == 0 {
        return Err(Stop::Unread);
    }
    match split(lexemes) {
        None => Err(Stop::Unread),
        Some((o, _)) => {
            if opens_type(known, lexemes) {
                let below = left.saturating_sub(1);
                let t = enclosed_type(alloc, known, below, lexemes)?;
                let x = cast(alloc, known, turns - 1, below, t.rest)?;
                cast_to(alloc, left, o.span.first, t, x)
            } else {
                unary(alloc, known, turns - 1, left, lexemes)
            }
        }
    }
}

/// A unary expression (C11 6.5.3).
#[cycle(expr)]
#[tactic(auto, using(crate::proofs::Turns::unary_turn, crate::proofs::Turns::unary_none, crate::proofs::Turns::operand_left))]
pub fn unary<'a>(
    alloc: Global,
    known: &Unit,
    turns: usize,
    left: u32,
    lexemes: &'a [Lexeme],
) -> Result<Read<'a>, Stop>
    requires shallow { left ≤ 400 }
    ensures value { Gives got result (unary_at (known_of known.now) turns left lexemes.now) }
    ensures measured { Measured left result }
{
    if turns == 0 {
        return Err(Stop::Unread);
    }
    match split(lexemes) {
        None => Err(Stop::Unread),
        Some((o, rest)) => match head_of(o.kind) {
            Head::Prefix(prefix) => {
                if left == 0 {
                    return Err(Stop::Unread);
                }
                let x = cast(alloc, known, turns - 1, left.saturating_sub(1), rest)?;
                prefixed(alloc, left, o.span.first, prefix, x)
            }
            Head::SizeOf => size(alloc, known, turns - 1, left, o.span.first, rest),
            Head::Other => {
                let x = primary(alloc, known, turns - 1, left, lexemes)?;
                suffix(alloc, known, turns - 1, left, o.span.first, x)
            }
        },
    }
}

/// Goes on after the word `sizeof`, which begins at `first`.
#[cycle(expr)]
#[tactic(auto, using(crate::proofs::Turns::size_turn, crate::proofs::Turns::size_none, crate::proofs::Turns::operand_left))]
fn size<'a>(
    alloc: Global,
    known: &Unit,
    turns: usize,
    left: u32,
    first: u32,
    lexemes: &'a [Lexeme],
) -> Result<Read<'a>, Stop>
    requires shallow { left ≤ 400 }
    ensures value { Gives got result (size_at (known_of known.now) turns left first lexemes.now) }
    ensures measured { Measured left result }
{
    if turns == 0 {
        return Err(Stop::Unread);
    }
    let below = left.saturating_sub(1);
    if opens_type(known, lexemes) {
        let t = enclosed_type(alloc, known, below, lexemes)?;
        size_of_type(left, first, t)
    } else {
        if left == 0 {
            return Err(Stop::Unread);
        }
        let x = unary(alloc, known, turns - 1, below, lexemes)?;
        size_of_value(alloc, left, first, x)
    }
}

/// Goes on after a primary expression with the suffixes of C11 6.5.2.
#[cycle(expr)]
#[tactic(auto, using(crate::proofs::Turns::suffix_turn, crate::proofs::Turns::suffix_none))]
fn suffix<'a>(
    alloc: Global,
    known: &Unit,
    turns: usize,
    left: u32,
    first: u32,
    x: Read<'a>,
) -> Result<Read<'a>, Stop>
    requires shallow { left ≤ 400 }
    requires known { Measured left (Ok x) }
    ensures value { Gives got result (suffix_at (known_of known.now) turns left first (got x.entry)) }
    ensures measured { Measured left result }
{
    if turns == 0 {
        return Err(Stop::Unread);
    }
    match split(x.rest) {
        None => Ok(x),
        Some((o, rest)) => match suffix_of(o.kind) {
            None => Ok(x),
            Some(Suffix::Index) => {
                let y = cond(alloc, known, turns - 1, left.saturating_sub(1), rest)?;
                let next = indexed(alloc, left, first, x, y)?;
                suffix(alloc, known, turns - 1, left, first, next)
            }
            Some(Suffix::Member(arrow)) => {
                let next = member(alloc, left, first, arrow, x, rest)?;
                suffix(alloc, known, turns - 1, left, first, next)
            }
        },
    }
}

/// A primary expression (C11 6.5.1).
#[cycle(expr)]
#[tactic(auto, using(crate::proofs::Turns::primary_turn, crate::proofs::Turns::primary_none))]
fn primary<'a>(
    alloc: Global,
    known: &Unit,
    turns: usize,
    left: u32,
    lexemes: &'a [Lexeme],
) -> Result<Read<'a>, Stop>
    requires shallow { left ≤ 400 }
    ensures value { Gives got result (primary_at (known_of known.now) turns left lexemes.now) }
    ensures measured { Measured left result }
{
    if turns == 0 {
        return Err(Stop::Unread);
    }
    match split(lexemes) {
        None => Err(Stop::Unread),
        Some((o, rest)) => match leaf_of(o.kind) {
            Leaf::Number(v, t) => {
                let tree = number(o.span.first, o.span.past, v, t);
                made(left, tree, 1, o.span.past, rest)
            }
            Leaf::Name(n) => {
                if names_type(known, n) {
                    return Err(Stop::Unread);
                }
                let tree = name(o.span.first, o.span.past, n);
                made(left, tree, 1, o.span.past, rest)
            }
            Leaf::Open => {
                let x = cond(alloc, known, turns - 1, left, rest)?;
                match next(Mark::CloseParen, x.rest) {
                    None => Err(Stop::Unread),
                    Some((c, after)) => Ok(Read {
                        past: c.span.past,
                        rest: after,
                        ..x
                    }),
                }
            }
            Leaf::Other => Err(Stop::Unread),
        },
    }
}

/// Goes on after the first operand of an expression, a cast expression that begins at `first`: with
/// binary operators, and with the rest of a conditional expression.
pub fn cond_rest<'a>(
    alloc: Global,
    known: &Unit,
    turns: usize,
    left: u32,
    first: u32,
    x: Read<'a>,
) -> Result<Read<'a>, Stop>
    requires shallow { left ≤ 400 }
    requires known { Measured left (Ok x) }
    ensures value { Gives got result (rest_at (known_of known.now) turns left first (got x.entry)) }
    ensures measured { Measured left result }
{
    let x = climb(alloc, known, turns, left, 10, first, x)?;
    choice(alloc, known, turns, left, first, x)
}
