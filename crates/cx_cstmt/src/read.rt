// Statements (C11 6.8), read from left to right with no way back.

ghost use Rattle.std.specs.Prelude.{◌≡◌, ◌≤◌, ◌<◌, ◌-◌, Ok, option_and_then};
ghost use Rattle.cx_ctree.specs.Stmts.{stmt_trees, no_stmt, no_group};
ghost use Rattle.cx_ctree.specs.Stmts as s;
ghost use Rattle.cx_cword.specs.Reading.{Gives};
ghost use Rattle.cx_cname.specs.Known.{known_of};
ghost use Rattle.cx_cname.specs.Changes.{past};
ghost use Rattle.cx_ctree.specs.Exprs.{expr_tree};
ghost use Rattle.cx_cexpr.specs.Reading as expr;
ghost use Rattle.cx_cstmt.specs.Reading.{got, got_stmts, got_groups, spelled, made, jump_at, return_at, effect_stmt_at, if_after, else_after, while_after, do_after, for_after, switch_after, switch_ends, block_ends, block_at, stmt_at, items_at, stmts_at, groups_at, Measured, MeasuredStmts, MeasuredGroups};

use crate::header::{enclosed, header};
use crate::kinds::{Head, begins_local, ends_group, head_of};
use crate::label::labels;
use crate::local::local;
use crate::make::{
    ReadGroups, ReadStmt, ReadStmts, breaks, continues, do_loop, empty, for_loop, higher, if_alone,
    if_else, made, no_groups, no_stmts, of_block, of_effect, of_switch, returns, stopped,
    while_loop, with_group, with_stmt,
};
use cx_base::List;
use cx_ceffect::{effect, rhs};
use cx_cexpr::Read;
use cx_cname::Change;
use cx_ctree::Unit;
use cx_cword::{Lexeme, Mark, Stop, next, split};
use std::alloc::Global;

/// What stands after `break`.
fn break_rest<'a>(
    known: &Unit,
    left: u32,
    first: u32,
    lexemes: &'a [Lexeme],
) -> Result<ReadStmt<'a>, Stop>
    ensures value { Gives (λ r. got r (known_of known.now)) result (jump_at left first s.break (known_of known.now) lexemes.now) }
    ensures measured { Measured left result }
{
    match next(Mark::Semicolon, lexemes) {
        None => Err(Stop::Unread),
        Some((c, rest)) => {
            let past = c.span.past;
            made(known, left, breaks(first, past), 1, past, rest)
        }
    }
}

/// What stands after `continue`.
fn continue_rest<'a>(
    known: &Unit,
    left: u32,
    first: u32,
    lexemes: &'a [Lexeme],
) -> Result<ReadStmt<'a>, Stop>
    ensures value { Gives (λ r. got r (known_of known.now)) result (jump_at left first s.continue (known_of known.now) lexemes.now) }
    ensures measured { Measured left result }
{
    match next(Mark::Semicolon, lexemes) {
        None => Err(Stop::Unread),
        Some((c, rest)) => {
            let past = c.span.past;
            made(known, left, continues(first, past), 1, past, rest)
        }
    }
}

/// What stands after `return`.
#[tactic(auto, using(crate::proofs::Turns::next_lacks))]
fn return_rest<'a>(
    alloc: Global,
    known: &Unit,
    turns: usize,
    left: u32,
    first: u32,
    lexemes: &'a [Lexeme],
) -> Result<ReadStmt<'a>, Stop>
    requires shallow { left ≤ 400 }
    ensures value { Gives (λ r. got r (known_of known.now)) result (return_at (known_of known.now) turns left first lexemes.now) }
    ensures measured { Measured left result }
{
    match next(Mark::Semicolon, lexemes) {
        Some((c, rest)) => {
            let past = c.span.past;
            made(known, left, returns(first, past, None), 1, past, rest)
        }
        None => {
            let r = rhs(alloc, known, turns, left.saturating_sub(1), lexemes)?;
            match next(Mark::Semicolon, r.rest) {
                None => Err(Stop::Unread),
                Some((c, rest)) => {
                    let past = c.span.past;
                    let height = r.height + 1;
                    made(
                        known,
                        left,
                        returns(first, past, Some(r.tree)),
                        height,
                        past,
                        rest,
                    )
                }
            }
        }
    }
}

/// An effect with its semicolon.
fn effect_whole<'a>(
    alloc: Global,
    known: &Unit,
    turns: usize,
    left: u32,
    first: u32,
    lexemes: &'a [Lexeme],
) -> Result<ReadStmt<'a>, Stop>
    requires shallow { left ≤ 400 }
    ensures value { Gives (λ r. got r (known_of known.now)) result (effect_stmt_at (known_of known.now) turns left first lexemes.now) }
    ensures measured { Measured left result }
{
    let e = effect(alloc, known, turns, left.saturating_sub(1), lexemes)?;
    match next(Mark::Semicolon, e.rest) {
        None => Err(Stop::Unread),
        Some((c, rest)) => {
            let past = c.span.past;
            let height = e.height + 1;
            made(
                known,
                left,
                of_effect(first, past, e.tree),
                height,
                past,
                rest,
            )
        }
    }
}

/// A block, after its opening brace.
#[cycle(stmt)]
fn block_rest<'a>(
    alloc: Global,
    known: &mut Unit,
    changes: &mut List<Change>,
    turns: usize,
    left: u32,
    first: u32,
    lexemes: &'a [Lexeme],
) -> Result<ReadStmt<'a>, Stop>
    requires shallow { left ≤ 400 }
    ensures value { Gives (λ r. got r (known_of known.new)) result (option_and_then (block_ends left first) (items_at (known_of known.old) turns (left - 1) no_stmt lexemes.now)) }
    ensures measured { Measured left result }
    ensures kept { past changes.new known.new ≡ past changes.old known.old }
    ensures items { known.new.items ≡ known.old.items }
{
    let x = items(
        alloc,
        known,
        changes,
        turns,
        left.saturating_sub(1),
        lexemes,
    )?;
    match next(Mark::CloseBrace, x.rest) {
        None => Err(Stop::Unread),
        Some((c, rest)) => {
            let past = c.span.past;
            let height = x.stmts.height + 1;
            made(
                known,
                left,
                of_block(first, past, x.stmts.all),
                height,
                past,
                rest,
            )
        }
    }
}

/// What stands after `if` (C11 6.8.4.1).
#[cycle(stmt)]
#[tactic(auto, using(crate::proofs::Turns::next_lacks))]
fn if_rest<'a>(
    alloc: Global,
    known: &mut Unit,
    changes: &mut List<Change>,
    turns: usize,
    left: u32,
    first: u32,
    lexemes: &'a [Lexeme],
) -> Result<ReadStmt<'a>, Stop>
    requires shallow { left ≤ 400 }
    ensures value { Gives (λ r. got r (known_of known.new)) result (if_after (λ e ts. stmt_at e turns (left - 1) ts) (known_of known.old) turns left first lexemes.now) }
    ensures measured { Measured left result }
    ensures kept { past changes.new known.new ≡ past changes.old known.old }
    ensures items { known.new.items ≡ known.old.items }
{
    let below = left.saturating_sub(1);
    let x = enclosed(alloc, known, turns, below, lexemes)?;
    let a = stmt(alloc, known, changes, turns, below, x.rest)?;
    else_rest(alloc, known, changes, turns, left, first, x, a)
}

/// What stands after the first statement of an `if`: `else` belongs to it.
#[cycle(stmt)]
#[tactic(auto, using(crate::proofs::Turns::next_lacks))]
fn else_rest<'a>(
    alloc: Global,
    known: &mut Unit,
    changes: &mut List<Change>,
    turns: usize,
    left: u32,
    first: u32,
    x: Read<'a>,
    a: ReadStmt<'a>,
) -> Result<ReadStmt<'a>, Stop>
    requires shallow { left ≤ 400 }
    requires known { expr.Measured (left - 1) (Ok x) }
    requires known_too { Measured (left - 1) (Ok a) }
    ensures value { Gives (λ r. got r (known_of known.new)) result (else_after (λ e ts. stmt_at e turns (left - 1) ts) left first (expr_tree x.entry.tree) (got a.entry (known_of known.old))) }
    ensures measured { Measured left result }
    ensures kept { past changes.new known.new ≡ past changes.old known.old }
    ensures items { known.new.items ≡ known.old.items }
{
    match next(Mark::Else, a.rest) {
        None => if_alone(alloc, known, left, first, x, a),
        Some((_, rest)) => match stmt(alloc, known, changes, turns, left.saturating_sub(1), rest) {
            Ok(b) => if_else(alloc, known, left, first, x, a, b),
            Err(stop) => Err(stopped(x, a, stop)),
        },
    }
}

/// What stands after `while` (C11 6.8.5.1).
#[cycle(stmt)]
fn while_rest<'a>(
    alloc: Global,
    known: &mut Unit,
    changes: &mut List<Change>,
    turns: usize,
    left: u32,
    first: u32,
    lexemes: &'a [Lexeme],
) -> Result<ReadStmt<'a>, Stop>
    requires shallow { left ≤ 400 }
    ensures value { Gives (λ r. got r (known_of known.new)) result (while_after (λ e ts. stmt_at e turns (left - 1) ts) (known_of known.old) turns left first lexemes.now) }
    ensures measured { Measured left result }
    ensures kept { past changes.new known.new ≡ past changes.old known.old }
    ensures items { known.new.items ≡ known.old.items }
{
    let below = left.saturating_sub(1);
    let x = enclosed(alloc, known, turns, below, lexemes)?;
    let a = stmt(alloc, known, changes, turns, below, x.rest)?;
    while_loop(alloc, known, left, first, x, a)
}

/// What stands after `do` (C11 6.8.5.2).
#[cycle(stmt)]
fn do_rest<'a>(
    alloc: Global,
    known: &mut Unit,
    changes: &mut List<Change>,
    turns: usize,
    left: u32,
    first: u32,
    lexemes: &'a [Lexeme],
) -> Result<ReadStmt<'a>, Stop>
    requires shallow { left ≤ 400 }
    ensures value { Gives (λ r. got r (known_of known.new)) result (do_after (λ e ts. stmt_at e turns (left - 1) ts) (known_of known.old) turns left first lexemes.now) }
    ensures measured { Measured left result }
    ensures kept { past changes.new known.new ≡ past changes.old known.old }
    ensures items { known.new.items ≡ known.old.items }
{
    let below = left.saturating_sub(1);
    let a = stmt(alloc, known, changes, turns, below, lexemes)?;
    match next(Mark::While, a.rest) {
        None => Err(Stop::Unread),
        Some((_, rest)) => {
            let x = enclosed(alloc, known, turns, below, rest)?;
            match next(Mark::Semicolon, x.rest) {
                None => Err(Stop::Unread),
                Some((c, after)) => do_loop(alloc, known, left, first, c.span.past, a, x, after),
            }
        }
    }
}

/// What stands after `for` (C11 6.8.5.3).
#[cycle(stmt)]
fn for_rest<'a>(
    alloc: Global,
    known: &mut Unit,
    changes: &mut List<Change>,
    turns: usize,
    left: u32,
    first: u32,
    lexemes: &'a [Lexeme],
) -> Result<ReadStmt<'a>, Stop>
    requires shallow { left ≤ 400 }
    ensures value { Gives (λ r. got r (known_of known.new)) result (for_after (λ e ts. stmt_at e turns (left - 1) ts) (known_of known.old) turns left first lexemes.now) }
    ensures measured { Measured left result }
    ensures kept { past changes.new known.new ≡ past changes.old known.old }
    ensures items { known.new.items ≡ known.old.items }
{
    let below = left.saturating_sub(1);
    let h = header(alloc, known, changes, turns, below, lexemes)?;
    let a = stmt(alloc, known, changes, turns, below, h.rest)?;
    for_loop(alloc, known, left, first, h, a)
}

/// What stands after `switch` (C11 6.8.4.2).
#[cycle(stmt)]
fn switch_rest<'a>(
    alloc: Global,
    known: &mut Unit,
    changes: &mut List<Change>,
    turns: usize,
    left: u32,
    first: u32,
    lexemes: &'a [Lexeme],
) -> Result<ReadStmt<'a>, Stop>
    requires shallow { left ≤ 400 }
    ensures value { Gives (λ r. got r (known_of known.new)) result (switch_after (λ e ts. groups_at e turns (left - 1) no_group ts) (known_of known.old) turns left first lexemes.now) }
    ensures measured { Measured left result }
    ensures kept { past changes.new known.new ≡ past changes.old known.old }
    ensures items { known.new.items ≡ known.old.items }
{
    let below = left.saturating_sub(1);
    let x = enclosed(alloc, known, turns, below, lexemes)?;
    match next(Mark::OpenBrace, x.rest) {
        None => Err(Stop::Unread),
        Some((_, rest)) => switch_body(alloc, known, changes, turns, left, first, x, rest),
    }
}

/// What stands after the brace of a `switch`.
#[cycle(stmt)]
fn switch_body<'a>(
    alloc: Global,
    known: &mut Unit,
    changes: &mut List<Change>,
    turns: usize,
    left: u32,
    first: u32,
    x: Read<'a>,
    lexemes: &'a [Lexeme],
) -> Result<ReadStmt<'a>, Stop>
    requires shallow { left ≤ 400 }
    requires known { expr.Measured (left - 1) (Ok x) }
    ensures value { Gives (λ r. got r (known_of known.new)) result (option_and_then (switch_ends left first (expr_tree x.entry.tree)) (groups_at (known_of known.old) turns (left - 1) no_group lexemes.now)) }
    ensures measured { Measured left result }
    ensures kept { past changes.new known.new ≡ past changes.old known.old }
    ensures items { known.new.items ≡ known.old.items }
{
    let g = groups(
        alloc,
        known,
        changes,
        turns,
        left.saturating_sub(1),
        lexemes,
    )?;
    match next(Mark::CloseBrace, g.rest) {
        None => Err(Stop::Unread),
        Some((c, after)) => {
            let past = c.span.past;
            let height = higher(x.height, g.groups.height) + 1;
            let tree = of_switch(first, past, x.tree, g.groups.all);
            made(known, left, tree, height, past, after)
        }
    }
}

/// A statement. `turns` bounds the calls. `left` is how many nodes a path of its tree may have.
/// Structs and unions that it declares are added to `known`, each with its change.
#[cycle(stmt)]
#[tactic(auto, using(crate::proofs::Turns::stmt_goes, crate::proofs::Turns::stmt_stops, crate::proofs::Turns::stmt_none))]
pub fn stmt<'a>(
    alloc: Global,
    known: &mut Unit,
    changes: &mut List<Change>,
    turns: usize,
    left: u32,
    lexemes: &'a [Lexeme],
) -> Result<ReadStmt<'a>, Stop>
    requires shallow { left ≤ 400 }
    ensures value { Gives (λ r. got r (known_of known.new)) result (stmt_at (known_of known.old) turns left lexemes.now) }
    ensures measured { Measured left result }
    ensures kept { past changes.new known.new ≡ past changes.old known.old }
    ensures items { known.new.items ≡ known.old.items }
{
    if turns == 0 {
        return Err(Stop::Unread);
    }
    if left == 0 {
        return Err(Stop::Unread);
    }
    let n = turns - 1;
    match split(lexemes) {
        None => Err(Stop::Unread),
        Some((o, rest)) => {
            let first = o.span.first;
            let past = o.span.past;
            match head_of(o.kind) {
                Head::Block => block_rest(alloc, known, changes, n, left, first, rest),
                Head::Empty => made(known, left, empty(first, past), 1, past, rest),
                Head::If => if_rest(alloc, known, changes, n, left, first, rest),
                Head::While => while_rest(alloc, known, changes, n, left, first, rest),
                Head::Do => do_rest(alloc, known, changes, n, left, first, rest),
                Head::For => for_rest(alloc, known, changes, n, left, first, rest),
                Head::Switch => switch_rest(alloc, known, changes, n, left, first, rest),
                Head::Break => break_rest(known, left, first, rest),
                Head::Continue => continue_rest(known, left, first, rest),
                Head::Return => return_rest(alloc, known, n, left, first, rest),
                Head::Other => effect_whole(alloc, known, n, left, first, lexemes),
            }
        }
    }
}

/// The declarations and statements of a block, up to its brace.
#[cycle(stmt)]
#[tactic(auto, using(crate::proofs::Turns::next_lacks, crate::proofs::Turns::items_turn, crate::proofs::Turns::items_none))]
fn items<'a>(
    alloc: Global,
    known: &mut Unit,
    changes: &mut List<Change>,
    turns: usize,
    left: u32,
    lexemes: &'a [Lexeme],
) -> Result<ReadStmts<'a>, Stop>
    requires shallow { left ≤ 400 }
    ensures value { Gives (λ r. got_stmts r (known_of known.new)) result (items_at (known_of known.old) turns left no_stmt lexemes.now) }
    ensures measured { MeasuredStmts left result }
    ensures kept { past changes.new known.new ≡ past changes.old known.old }
    ensures items { known.new.items ≡ known.old.items }
{
    let mut stmts = no_stmts(alloc);
    let mut n = turns;
    let mut rest = lexemes;
    'each: while n > 0 {
        match next(Mark::CloseBrace, rest) {
            Some(_) => return Ok(ReadStmts { stmts, rest }),
            None => {}
        }
        if begins_local(known, rest) {
            let x = local(alloc, known, changes, n - 1, left, stmts, rest)?;
            stmts = x.stmts;
            rest = x.rest;
        } else {
            let x = stmt(alloc, known, changes, n - 1, left, rest)?;
            stmts = with_stmt(left, stmts, x.tree, x.height)?;
            rest = x.rest;
        }
        n -= 1;
    }
    Err(Stop::Unread)
}

/// The statements of a group of a `switch`, up to a label or a brace.
#[cycle(stmt)]
#[tactic(auto, using(crate::proofs::Turns::stmts_turn, crate::proofs::Turns::stmts_none))]
fn stmts<'a>(
    alloc: Global,
    known: &mut Unit,
    changes: &mut List<Change>,
    turns: usize,
    left: u32,
    lexemes: &'a [Lexeme],
) -> Result<ReadStmts<'a>, Stop>
    requires shallow { left ≤ 400 }
    ensures value { Gives (λ r. got_stmts r (known_of known.new)) result (stmts_at (known_of known.old) turns left no_stmt lexemes.now) }
    ensures measured { MeasuredStmts left result }
    ensures kept { past changes.new known.new ≡ past changes.old known.old }
    ensures items { known.new.items ≡ known.old.items }
{
    let mut all = no_stmts(alloc);
    let mut n = turns;
    let mut rest = lexemes;
    'each: while n > 0 {
        match split(rest) {
            None => return Err(Stop::Unread),
            Some((o, _)) => {
                if ends_group(o.kind) {
                    return Ok(ReadStmts { stmts: all, rest });
                }
            }
        }
        let x = stmt(alloc, known, changes, n - 1, left, rest)?;
        all = with_stmt(left, all, x.tree, x.height)?;
        rest = x.rest;
        n -= 1;
    }
    Err(Stop::Unread)
}

/// The groups of a `switch`, up to its brace.
#[cycle(stmt)]
#[tactic(auto, using(crate::proofs::Turns::next_lacks, crate::proofs::Turns::groups_turn, crate::proofs::Turns::groups_none))]
fn groups<'a>(
    alloc: Global,
    known: &mut Unit,
    changes: &mut List<Change>,
    turns: usize,
    left: u32,
    lexemes: &'a [Lexeme],
) -> Result<ReadGroups<'a>, Stop>
    requires shallow { left ≤ 400 }
    ensures value { Gives (λ r. got_groups r (known_of known.new)) result (groups_at (known_of known.old) turns left no_group lexemes.now) }
    ensures measured { MeasuredGroups left result }
    ensures kept { past changes.new known.new ≡ past changes.old known.old }
    ensures items { known.new.items ≡ known.old.items }
{
    let mut groups = no_groups(alloc);
    let mut n = turns;
    let mut rest = lexemes;
    'each: while n > 0 {
        match next(Mark::CloseBrace, rest) {
            Some(_) => return Ok(ReadGroups { groups, rest }),
            None => {}
        }
        let ls = labels(alloc, known, n - 1, left, rest)?;
        let body = stmts(alloc, known, changes, n - 1, left, ls.rest)?;
        groups = with_group(left, groups, ls, body.stmts)?;
        rest = body.rest;
        n -= 1;
    }
    Err(Stop::Unread)
}

/// A block, from its opening brace on.
pub fn block<'a>(
    alloc: Global,
    known: &mut Unit,
    changes: &mut List<Change>,
    turns: usize,
    left: u32,
    lexemes: &'a [Lexeme],
) -> Result<ReadStmt<'a>, Stop>
    requires shallow { left ≤ 400 }
    ensures value { Gives (λ r. got r (known_of known.new)) result (block_at (known_of known.old) turns left lexemes.now) }
    ensures measured { Measured left result }
    ensures kept { past changes.new known.new ≡ past changes.old known.old }
    ensures items { known.new.items ≡ known.old.items }
{
    match next(Mark::OpenBrace, lexemes) {
        None => Err(Stop::Unread),
        Some((_, _)) => stmt(alloc, known, changes, turns, left, lexemes),
    }
}
