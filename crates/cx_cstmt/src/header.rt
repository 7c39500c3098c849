// Expressions in parentheses, and what stands between the parentheses of `for` (C11 6.8.5.3).

ghost use Rattle.std.specs.Prelude.{◌≡◌, ◌≤◌, ◌-◌, [], Ok, option_and_then};
ghost use Rattle.cx_ctree.specs.Stmts.{stmt_trees, no_stmt};
ghost use Rattle.cx_cword.specs.Reading.{Gives};
ghost use Rattle.cx_cname.specs.Known.{known_of};
ghost use Rattle.cx_cname.specs.Changes.{past};
ghost use Rattle.cx_cexpr.specs.Reading as expr;
ghost use Rattle.cx_ceffect.specs.Reading.{got_effect, MeasuredEffect};
ghost use Rattle.cx_cstmt.specs.Reading.{got, got_stmts, got_test, got_steps, got_header, spelled, made, enclosed_at, init_effects_at, init_ends, init_at, test_at, steps_at, header_at, Measured, LowStmts, MeasuredStmts, MeasuredTest, MeasuredSteps, MeasuredHeader};
ghost use Rattle.cx_ctree.specs.Stmts as s;

use crate::kinds::begins_local;
use crate::local::local;
use crate::make::{
    ReadHeader, ReadSteps, ReadStmt, ReadStmts, ReadTest, Stmts, made, no_stmts, of_effect,
    with_stmt,
};
use cx_base::List;
use cx_ceffect::{ReadEffect, effect, effects};
use cx_cexpr::{Read, cond};
use cx_cname::Change;
use cx_ctree::Unit;
use cx_cword::{Lexeme, Mark, Stop, next, split};
use std::alloc::Global;

/// An expression in parentheses.
#[tactic(auto, unfolding(crate::specs::Reading::enclosed_at))]
pub fn enclosed<'a>(
    alloc: Global,
    known: &Unit,
    turns: usize,
    left: u32,
    lexemes: &'a [Lexeme],
) -> Result<Read<'a>, Stop>
    requires shallow { left ≤ 400 }
    ensures value { Gives expr.got result (enclosed_at (known_of known.now) turns left lexemes.now) }
    ensures measured { expr.Measured left result }
{
    match next(Mark::OpenParen, lexemes) {
        None => Err(Stop::Unread),
        Some((_, rest)) => {
            let x = cond(alloc, known, turns, left, rest)?;
            match next(Mark::CloseParen, x.rest) {
                None => Err(Stop::Unread),
                Some((c, after)) => Ok(Read {
                    past: c.span.past,
                    rest: after,
                    ..x
                }),
            }
        }
    }
}

/// An effect as a statement that begins at `first`.
pub fn effect_alone<'a>(
    known: &Unit,
    left: u32,
    first: u32,
    e: ReadEffect<'a>,
) -> Result<ReadStmt<'a>, Stop>
    requires shallow { left ≤ 400 }
    requires known { MeasuredEffect (left - 1) (Ok e) }
    ensures value { Gives (λ r. got r (known_of known.now)) result (made left (spelled first e.entry.past (s.effect (got_effect e.entry).tree)) (known_of known.now) e.entry.past e.entry.rest.now) }
    ensures measured { Measured left result }
{
    let height = e.height + 1;
    made(
        known,
        left,
        of_effect(first, e.past, e.tree),
        height,
        e.past,
        e.rest,
    )
}

/// Effects before a loop, each a statement at its own place.
#[tactic(auto, using(crate::proofs::Turns::next_lacks, crate::proofs::Turns::init_effects_turn, crate::proofs::Turns::init_effects_none))]
fn init_effects<'a>(
    alloc: Global,
    known: &Unit,
    turns: usize,
    left: u32,
    lexemes: &'a [Lexeme],
) -> Result<ReadStmts<'a>, Stop>
    requires shallow { left ≤ 400 }
    ensures value { Gives (λ r. got_stmts r (known_of known.now)) result (init_effects_at (known_of known.now) turns left no_stmt lexemes.now) }
    ensures measured { MeasuredStmts left result }
{
    let mut stmts = no_stmts(alloc);
    let mut n = turns;
    let mut rest = lexemes;
    'each: while n > 0 {
        match split(rest) {
            None => return Err(Stop::Unread),
            Some((o, _)) => {
                let e = effect(alloc, known, n - 1, left.saturating_sub(1), rest)?;
                let x = effect_alone(known, left, o.span.first, e)?;
                stmts = with_stmt(left, stmts, x.tree, x.height)?;
                rest = x.rest;
            }
        }
        match next(Mark::Comma, rest) {
            None => return Ok(ReadStmts { stmts, rest }),
            Some((_, after)) => rest = after,
        }
        n -= 1;
    }
    Err(Stop::Unread)
}

fn some_effects<'a>(
    alloc: Global,
    known: &Unit,
    turns: usize,
    left: u32,
    lexemes: &'a [Lexeme],
) -> Result<ReadStmts<'a>, Stop>
    requires shallow { left ≤ 400 }
    ensures value { Gives (λ r. got_stmts r (known_of known.now)) result (option_and_then init_ends (init_effects_at (known_of known.now) turns left no_stmt lexemes.now)) }
    ensures measured { MeasuredStmts left result }
{
    let x = init_effects(alloc, known, turns, left, lexemes)?;
    match next(Mark::Semicolon, x.rest) {
        None => Err(Stop::Unread),
        Some((_, rest)) => Ok(ReadStmts {
            stmts: x.stmts,
            rest,
        }),
    }
}

/// What stands first between the parentheses, with its semicolon.
#[tactic(auto, using(crate::proofs::Turns::next_lacks), unfolding(crate::specs::Reading::init_at))]
fn init<'a>(
    alloc: Global,
    known: &mut Unit,
    changes: &mut List<Change>,
    turns: usize,
    left: u32,
    lexemes: &'a [Lexeme],
) -> Result<ReadStmts<'a>, Stop>
    requires shallow { left ≤ 400 }
    ensures value { Gives (λ r. got_stmts r (known_of known.new)) result (init_at (known_of known.old) turns left lexemes.now) }
    ensures measured { MeasuredStmts left result }
    ensures kept { past changes.new known.new ≡ past changes.old known.old }
    ensures items { known.new.items ≡ known.old.items }
{
    match next(Mark::Semicolon, lexemes) {
        Some((_, rest)) => Ok(ReadStmts {
            stmts: no_stmts(alloc),
            rest,
        }),
        None => {
            if begins_local(known, lexemes) {
                local(alloc, known, changes, turns, left, no_stmts(alloc), lexemes)
            } else {
                some_effects(alloc, known, turns, left, lexemes)
            }
        }
    }
}

/// The condition with its semicolon.
#[tactic(auto, using(crate::proofs::Turns::next_lacks), unfolding(crate::specs::Reading::test_at))]
fn test<'a>(
    alloc: Global,
    known: &Unit,
    turns: usize,
    left: u32,
    lexemes: &'a [Lexeme],
) -> Result<ReadTest<'a>, Stop>
    requires shallow { left ≤ 400 }
    ensures value { Gives got_test result (test_at (known_of known.now) turns left lexemes.now) }
    ensures measured { MeasuredTest left result }
{
    match next(Mark::Semicolon, lexemes) {
        Some((_, rest)) => Ok(ReadTest {
            test: None,
            height: 0,
            rest,
        }),
        None => {
            let x = cond(alloc, known, turns, left, lexemes)?;
            match next(Mark::Semicolon, x.rest) {
                None => Err(Stop::Unread),
                Some((_, rest)) => Ok(ReadTest {
                    test: Some(x.tree),
                    height: x.height,
                    rest,
                }),
            }
        }
    }
}

/// The steps with the parenthesis after them.
#[tactic(auto, using(crate::proofs::Turns::next_lacks), unfolding(crate::specs::Reading::steps_at))]
fn steps<'a>(
    alloc: Global,
    known: &Unit,
    turns: usize,
    left: u32,
    lexemes: &'a [Lexeme],
) -> Result<ReadSteps<'a>, Stop>
    requires shallow { left ≤ 400 }
    ensures value { Gives got_steps result (steps_at (known_of known.now) turns left lexemes.now) }
    ensures measured { MeasuredSteps left result }
{
    match next(Mark::CloseParen, lexemes) {
        Some((_, rest)) => Ok(ReadSteps {
            steps: List::new(alloc),
            height: 0,
            rest,
        }),
        None => {
            let x = effects(alloc, known, turns, left, lexemes)?;
            match next(Mark::CloseParen, x.rest) {
                None => Err(Stop::Unread),
                Some((_, rest)) => Ok(ReadSteps {
                    steps: x.all,
                    height: x.height,
                    rest,
                }),
            }
        }
    }
}

/// What stands between the parentheses of `for`, with these.
#[tactic(auto, unfolding(crate::specs::Reading::header_at))]
pub fn header<'a>(
    alloc: Global,
    known: &mut Unit,
    changes: &mut List<Change>,
    turns: usize,
    left: u32,
    lexemes: &'a [Lexeme],
) -> Result<ReadHeader<'a>, Stop>
    requires shallow { left ≤ 400 }
    ensures value { Gives (λ r. got_header r (known_of known.new)) result (header_at (known_of known.old) turns left lexemes.now) }
    ensures measured { MeasuredHeader left result }
    ensures kept { past changes.new known.new ≡ past changes.old known.old }
    ensures items { known.new.items ≡ known.old.items }
{
    match next(Mark::OpenParen, lexemes) {
        None => Err(Stop::Unread),
        Some((_, rest)) => {
            let i = init(alloc, known, changes, turns, left, rest)?;
            let t = test(alloc, known, turns, left, i.rest)?;
            let s = steps(alloc, known, turns, left, t.rest)?;
            Ok(ReadHeader {
                init: i.stmts,
                test: t.test,
                test_height: t.height,
                steps: s.steps,
                steps_height: s.height,
                rest: s.rest,
            })
        }
    }
}
