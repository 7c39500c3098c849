// Declarations of a block (C11 6.8.2).

ghost use Rattle.std.specs.Prelude.{◌≡◌, ◌≤◌, ◌<◌, Some, Ok, IfSome, IfNone, option_map};
ghost use Rattle.std.specs.Option.{option_map_or};
ghost use Rattle.cx_ctree.specs.Types.{type_tree};
ghost use Rattle.cx_ctree.specs.Exprs.{rhs_tree};
ghost use Rattle.cx_ctree.specs.Stmts.{stmt_trees};
ghost use Rattle.cx_ctree.specs.Path.{type_path, rhs_path};
ghost use Rattle.cx_cword.specs.Reading.{Gives};
ghost use Rattle.cx_cname.specs.Known.{known_of};
ghost use Rattle.cx_cname.specs.Changes.{past};
ghost use Rattle.cx_cdecl.specs.Reading.{said_tree, got_named, got_specs};
ghost use Rattle.cx_cstmt.specs.Reading.{got, got_stmts, declared_at, variable_at, variables_at, local_by, local_at, Measured, LowStmts, MeasuredStmts};
ghost use Rattle.cx_cstmt.specs.Reading as spec;

use crate::make::{ReadStmt, ReadStmts, Stmts, declares, higher, made, with_stmt};
use cx_base::List;
use cx_cdecl::declarator::{ReadNamed, object};
use cx_cdecl::kinds::Said;
use cx_cdecl::specifier::{ReadSpecs, plain_specs};
use cx_ceffect::rhs;
use cx_cname::{Change, names_type};
use cx_ctree::{CType, Rhs, Unit};
use cx_cword::{Lexeme, Mark, Stop, next};
use std::alloc::Global;

/// How many nodes the longest path of the type has.
fn height_of(ctype: &CType) -> u32
    requires { type_path (type_tree ctype.now) ≤ 400 }
    ensures { result ≡ type_path (type_tree ctype.now) }
{
    match ctype {
        CType::Void | CType::Int(_) | CType::Tag(_) => 1,
        CType::Ptr(inner) | CType::Array(inner, _) => height_of(inner) + 1,
    }
}

/// The statement that declares the name, with its initialiser of that height.
#[tactic(auto, using(crate::proofs::Lists::made_declare))]
fn declared<'a>(
    known: &Unit,
    left: u32,
    x: ReadNamed<'a>,
    r: Option<Rhs>,
    height: u32,
    rest: &'a [Lexeme],
) -> Result<ReadStmt<'a>, Stop>
    requires shallow { left ≤ 400 }
    requires measured { height ≡ option_map_or rhs_path (option_map rhs_tree r) 0 }
    requires low { height ≤ left }
    ensures value { Gives (λ r. got r (known_of known.now)) result (declared_at left (known_of known.now) (got_named x.entry).tree (option_map rhs_tree r) rest.now) }
    ensures measured { Measured left result }
{
    if x.ctype.exceeds(400) {
        return Err(Stop::Unread);
    }
    let inside = higher(height_of(&x.ctype), height);
    let tree = declares(x.lexeme.span, x.name, x.ctype, r);
    made(known, left, tree, inside + 1, 0, rest)
}

/// A variable with its initialiser.
#[tactic(auto, using(crate::proofs::Turns::next_lacks), unfolding(crate::specs::Reading::variable_at))]
fn variable<'a>(
    alloc: Global,
    known: &Unit,
    turns: usize,
    left: u32,
    base: &CType,
    high: u32,
    lexemes: &'a [Lexeme],
) -> Result<ReadStmt<'a>, Stop>
    requires shallow { left ≤ 400 }
    requires high { high ≡ type_path (type_tree base.now) }
    ensures value { Gives (λ r. got r (known_of known.now)) result (variable_at (known_of known.now) turns left (type_tree base.now) lexemes.now) }
    ensures measured { Measured left result }
{
    let x = object(alloc, known, turns, base, high, lexemes)?;
    if names_type(known, x.name) {
        return Err(Stop::Unread);
    }
    let after = x.rest;
    match next(Mark::Assign, after) {
        None => declared(known, left, x, None, 0, after),
        Some((_, rest)) => {
            let r = rhs(alloc, known, turns, left.saturating_sub(1), rest)?;
            let last = r.rest;
            declared(known, left, x, Some(r.tree), r.height, last)
        }
    }
}

/// Variables, after those statements that were read.
#[tactic(auto, using(crate::proofs::Turns::next_lacks, crate::proofs::Turns::variables_turn, crate::proofs::Turns::variables_none))]
fn variables<'a>(
    alloc: Global,
    known: &Unit,
    turns: usize,
    left: u32,
    s: &ReadSpecs<'a>,
    before: Stmts,
) -> Result<ReadStmts<'a>, Stop>
    requires shallow { left ≤ 400 }
    requires high { s.now.height ≡ type_path (type_tree s.now.ctype) }
    requires known { LowStmts left before }
    ensures value { Gives (λ r. got_stmts r (known_of known.now)) result (variables_at (known_of known.now) turns left (type_tree s.now.ctype) (stmt_trees before.all) s.now.rest.now) }
    ensures measured { MeasuredStmts left result }
{
    let mut stmts = before;
    let mut n = turns;
    let mut rest = s.rest;
    'each: while n > 0 {
        let x = variable(alloc, known, n - 1, left, &s.ctype, s.height, rest)?;
        stmts = with_stmt(left, stmts, x.tree, x.height)?;
        match next(Mark::Comma, x.rest) {
            None => {
                return Ok(ReadStmts {
                    stmts,
                    rest: x.rest,
                });
            }
            Some((_, after)) => rest = after,
        }
        n -= 1;
    }
    Err(Stop::Unread)
}

fn is_plain(s: Said) -> bool
    ensures { result ≡ spec.is_plain (said_tree s) }
{
    !s.attributed && !s.typedef_ && !s.linked
}

fn local_after<'a>(
    alloc: Global,
    known: &Unit,
    turns: usize,
    left: u32,
    s: &ReadSpecs<'a>,
    before: Stmts,
) -> Result<ReadStmts<'a>, Stop>
    requires shallow { left ≤ 400 }
    requires high { s.now.height ≡ type_path (type_tree s.now.ctype) }
    requires known { LowStmts left before }
    ensures value { Gives (λ r. got_stmts r (known_of known.now)) result (local_by turns left (stmt_trees before.all) (got_specs s.now (known_of known.now))) }
    ensures measured { MeasuredStmts left result }
{
    if !is_plain(s.said) {
        return Err(Stop::Unread);
    }
    let x = variables(alloc, known, turns, left, s, before)?;
    match next(Mark::Semicolon, x.rest) {
        None => Err(Stop::Unread),
        Some((_, rest)) => Ok(ReadStmts {
            stmts: x.stmts,
            rest,
        }),
    }
}

/// A declaration of a block: one statement for each variable, after those that were read.
#[tactic(auto, unfolding(crate::specs::Reading::local_at))]
pub fn local<'a>(
    alloc: Global,
    known: &mut Unit,
    changes: &mut List<Change>,
    turns: usize,
    left: u32,
    before: Stmts,
    lexemes: &'a [Lexeme],
) -> Result<ReadStmts<'a>, Stop>
    requires shallow { left ≤ 400 }
    requires known { LowStmts left before }
    ensures value { Gives (λ r. got_stmts r (known_of known.new)) result (local_at (known_of known.old) turns left (stmt_trees before.all) lexemes.now) }
    ensures measured { MeasuredStmts left result }
    ensures kept { past changes.new known.new ≡ past changes.old known.old }
    ensures items { known.new.items ≡ known.old.items }
{
    let s = plain_specs(known, changes, turns, lexemes)?;
    local_after(alloc, known, turns, left, &s, before)
}
