ghost use Rattle.std.specs.Prelude.{◌≡◌, ◌++◌, ◌-ℤ◌, map, pos, IfOk, OnOk};
ghost use Rattle.cx_tsyn.specs.Lins.{lin_tree, relation_tree};
ghost use Rattle.cx_flin.specs.Scopes.{scope_of};
ghost use Rattle.cx_flin.specs.Terms as spec;

use crate::lins::{add_lin, term_of};
use crate::names::Named;
use cx_base::{List, NoMemory};
use cx_term::{Ineq, Term};
use cx_tsyn::{Lin, Relation, SRel};
use std::alloc::Global;

fn opposite(less: i128) -> Result<i128, NoMemory>
    ensures { IfOk result (λ z. z ≡ pos 0 -ℤ less) }
{
    match 0i128.checked_sub(less) {
        Some(z) => Ok(z),
        None => Err(NoMemory),
    }
}

fn difference_parts(
    alloc: Global,
    scope: &[Named],
    first: &Lin,
    second: &Lin,
    less: i128,
) -> Result<List<(Option<u32>, i128)>, NoMemory>
    ensures { IfOk result (λ ps. ps ≡ spec.difference_parts (scope_of scope.now) (lin_tree first.now) (lin_tree second.now) less) }
{
    let mut parts = List::new(alloc);
    add_lin(&mut parts, scope, false, first)?;
    add_lin(&mut parts, scope, true, second)?;
    let last = opposite(less)?;
    parts.push((None, last))?;
    Ok(parts)
}

// The first form less the second and a number.
fn difference(
    alloc: Global,
    scope: &[Named],
    first: &Lin,
    second: &Lin,
    less: i128,
) -> Result<Term, NoMemory>
    ensures { IfOk result (λ t. t ≡ spec.difference (scope_of scope.now) (lin_tree first.now) (lin_tree second.now) less) }
{
    let parts = difference_parts(alloc, scope, first, second, less)?;
    Ok(term_of(parts.as_slice()))
}

/// Adds the conditions that a relation stands for: of `a == b` first that `a - b` is at least 0, of
/// `a < b` that `b - a - 1` is.
pub fn add_relation(
    alloc: Global,
    scope: &[Named],
    relation: &Relation,
    conds: &mut List<Ineq>,
) -> Result<(), NoMemory>
    ensures { OnOk result (conds.new ≡ conds.old ++ spec.flat_relation (scope_of scope.now) (relation_tree relation.now)) }
{
    let (left, right) = (&relation.left, &relation.right);
    match relation.rel {
        SRel::Eq => {
            conds.push(Ineq::Ge(difference(alloc, scope, left, right, 0)?))?;
            conds.push(Ineq::Ge(difference(alloc, scope, right, left, 0)?))
        }
        SRel::Ne => conds.push(Ineq::Ne(difference(alloc, scope, left, right, 0)?)),
        SRel::Lt => conds.push(Ineq::Ge(difference(alloc, scope, right, left, 1)?)),
        SRel::Le => conds.push(Ineq::Ge(difference(alloc, scope, right, left, 0)?)),
        SRel::Gt => conds.push(Ineq::Ge(difference(alloc, scope, left, right, 1)?)),
        SRel::Ge => conds.push(Ineq::Ge(difference(alloc, scope, left, right, 0)?)),
    }
}

/// Adds the conditions of relations, in order.
pub fn add_relations(
    alloc: Global,
    scope: &[Named],
    relations: &[Relation],
    conds: &mut List<Ineq>,
) -> Result<(), NoMemory>
    ensures { OnOk result (conds.new ≡ conds.old ++ spec.flat_relations (scope_of scope.now) (map relation_tree relations.now)) }
{
    for r in relations {
        add_relation(alloc, scope, r, conds)?;
    }
    Ok(())
}
