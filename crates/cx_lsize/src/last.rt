//! The number of the open block after code that begins in block `at`.

ghost use Rattle.std.specs.Prelude.{◌≡◌, ◌+◌, ◌<◌, map, option_map};
ghost use Rattle.cx_ctree.specs.Exprs.{expr_tree, rhs_tree, effect_tree};
ghost use Rattle.cx_ctree.specs.Stmts.{stmt_tree, stmt_trees, group_trees};
ghost use Rattle.cx_lcode.specs.Places as places;
ghost use Rattle.cx_lcode.specs.Starts as spec;

use crate::count::{
    all_labels_starts, condition_starts, effect_starts, effects_starts, groups_starts,
    labels_starts, right_starts, stmt_starts, stmts_starts, test_starts, val_starts,
};
use cx_ctree::{Effect, Expr, Group, Rhs, Stmt};

/// After a value.
#[tactic(auto, using(crate::proofs::Lasts::val_is))]
pub fn val_last(e: &Expr, at: u32) -> u32
    requires { at + (spec.starts (expr_tree e.now)).val < 512 }
    ensures value { result ≡ (places.last (expr_tree e.now)).val at }
    ensures sum { result ≡ at + (spec.starts (expr_tree e.now)).val }
{
    at + val_starts(e)
}

/// Before a test ends its block.
#[tactic(auto, using(crate::proofs::Lasts::test_is))]
pub fn test_last(e: &Expr, at: u32) -> u32
    requires { at + (spec.starts (expr_tree e.now)).test < 512 }
    ensures value { result ≡ (places.last (expr_tree e.now)).test at }
    ensures sum { result ≡ at + (spec.starts (expr_tree e.now)).test }
{
    at + test_starts(e)
}

/// After a right side.
#[tactic(auto, using(crate::proofs::Lasts::right_is))]
pub fn right_last(r: &Rhs, at: u32) -> u32
    requires { at + spec.right_starts (rhs_tree r.now) < 512 }
    ensures value { result ≡ places.right_last (rhs_tree r.now) at }
    ensures sum { result ≡ at + spec.right_starts (rhs_tree r.now) }
{
    at + right_starts(r)
}

/// After an effect.
#[tactic(auto, using(crate::proofs::Lasts::effect_is))]
pub fn effect_last(e: &Effect, at: u32) -> u32
    requires { at + spec.effect_starts (effect_tree e.now) < 512 }
    ensures value { result ≡ places.effect_last (effect_tree e.now) at }
    ensures sum { result ≡ at + spec.effect_starts (effect_tree e.now) }
{
    at + effect_starts(e)
}

/// After effects.
#[tactic(auto, using(crate::proofs::Lasts::effects_is))]
pub fn effects_last(es: &[Effect], at: u32) -> u32
    requires { at + spec.effects_starts (map effect_tree es.now) < 512 }
    ensures value { result ≡ places.effects_last (map effect_tree es.now) at }
    ensures sum { result ≡ at + spec.effects_starts (map effect_tree es.now) }
{
    at + effects_starts(es)
}

/// Before a test that may be left out ends its block.
#[tactic(auto, using(crate::proofs::Lasts::condition_is))]
pub fn condition_last(c: Option<&Expr>, at: u32) -> u32
    requires { at + spec.condition_starts (option_map (λ c. expr_tree c.now) c) < 512 }
    ensures value { result ≡ places.condition_last (option_map (λ c. expr_tree c.now) c.entry) at }
    ensures sum { result ≡ at + spec.condition_starts (option_map (λ c. expr_tree c.now) c.entry) }
{
    at + condition_starts(c)
}

/// After the labels of a group.
#[tactic(auto, using(crate::proofs::Lasts::labels_is))]
pub fn labels_last(labels: &[Option<Expr>], at: u32) -> u32
    requires { at + spec.labels_starts (map (option_map expr_tree) labels.now) < 512 }
    ensures value { result ≡ places.labels_last (map (option_map expr_tree) labels.now) at }
    ensures sum { result ≡ at + spec.labels_starts (map (option_map expr_tree) labels.now) }
{
    at + labels_starts(labels)
}

/// After the labels of all groups.
#[tactic(auto, using(crate::proofs::Lasts::all_labels_is))]
pub fn all_labels_last(gs: &[Group], at: u32) -> u32
    requires { at + spec.all_labels_starts (group_trees gs.now) < 512 }
    ensures value { result ≡ places.all_labels_last (group_trees gs.now) at }
    ensures sum { result ≡ at + spec.all_labels_starts (group_trees gs.now) }
{
    at + all_labels_starts(gs)
}

/// After a statement.
#[tactic(auto, using(crate::proofs::Lasts::stmt_is))]
pub fn stmt_last(s: &Stmt, at: u32) -> u32
    requires { at + spec.stmt_starts (stmt_tree s.now) < 512 }
    ensures value { result ≡ places.stmt_last (stmt_tree s.now) at }
    ensures sum { result ≡ at + spec.stmt_starts (stmt_tree s.now) }
{
    at + stmt_starts(s)
}

/// After statements.
#[tactic(auto, using(crate::proofs::Lasts::stmts_is))]
pub fn stmts_last(ss: &[Stmt], at: u32) -> u32
    requires { at + spec.stmts_starts (stmt_trees ss.now) < 512 }
    ensures value { result ≡ places.stmts_last (stmt_trees ss.now) at }
    ensures sum { result ≡ at + spec.stmts_starts (stmt_trees ss.now) }
{
    at + stmts_starts(ss)
}

/// After the groups of a switch.
#[tactic(auto, using(crate::proofs::Lasts::groups_is))]
pub fn groups_last(gs: &[Group], at: u32) -> u32
    requires { at + spec.groups_starts (group_trees gs.now) < 512 }
    ensures value { result ≡ places.groups_last (group_trees gs.now) at }
    ensures sum { result ≡ at + spec.groups_starts (group_trees gs.now) }
{
    at + groups_starts(gs)
}
