ghost use Rattle.std.specs.Prelude.{◌≡◌, map, IfOk};
ghost use Rattle.cx_tsyn.specs.Lins.{lin_tree, relation_tree};
ghost use Rattle.cx_tscope.specs.Faults.{first};
ghost use Rattle.cx_tforms.specs.Terms as terms;
ghost use Rattle.cx_tforms.specs.Faulty as spec;

use crate::terms::{differences_are_terms, lin_is_term};
use cx_base::{NoMemory, Span};
use cx_cword::span_between;
use cx_tsyn::{Lin, Relation};
use std::alloc::Global;

/// The linear form where it is no term.
pub fn faulty_lin(alloc: Global, lin: &Lin) -> Result<Option<Span>, NoMemory>
    ensures { IfOk result (λ s. s ≡ first (spec.faulty_lin (lin_tree lin.now))) }
{
    if lin_is_term(alloc, lin)? {
        return Ok(None);
    }
    Ok(Some(lin.span))
}

/// The first of the linear forms that is no term.
#[tactic(auto, using(cx_tscope::proofs::Faults::first_after, cx_tscope::proofs::Faults::first_in))]
pub fn faulty_lins(alloc: Global, lins: &[Lin]) -> Result<Option<Span>, NoMemory>
    ensures { IfOk result (λ s. s ≡ first (spec.faulty_lins (map lin_tree lins.now))) }
{
    for lin in lins {
        match faulty_lin(alloc, lin)? {
            Some(span) => return Ok(Some(span)),
            None => {}
        }
    }
    Ok(None)
}

// The relation where a difference of its sides is no term.
fn faulty_difference(alloc: Global, relation: &Relation) -> Result<Option<Span>, NoMemory>
    ensures { IfOk result (λ s. s ≡ first (spec.place_unless (terms.differences_are_terms (relation_tree relation.now)) (spec.relation_span (relation_tree relation.now)))) }
{
    if differences_are_terms(alloc, relation)? {
        return Ok(None);
    }
    let span = span_between(relation.left.span.first, relation.right.span.past);
    Ok(Some(span))
}

#[tactic(auto, using(cx_tscope::proofs::Faults::first_after, cx_tscope::proofs::Faults::first_in), unfolding(crate::specs::Faulty::faulty_relation))]
fn faulty_relation(alloc: Global, relation: &Relation) -> Result<Option<Span>, NoMemory>
    ensures { IfOk result (λ s. s ≡ first (spec.faulty_relation (relation_tree relation.now))) }
{
    match faulty_lin(alloc, &relation.left)? {
        Some(span) => return Ok(Some(span)),
        None => {}
    }
    match faulty_lin(alloc, &relation.right)? {
        Some(span) => return Ok(Some(span)),
        None => {}
    }
    faulty_difference(alloc, relation)
}

/// The first linear form or relation that breaks its rule.
#[tactic(auto, using(cx_tscope::proofs::Faults::first_after, cx_tscope::proofs::Faults::first_in))]
pub fn faulty_relations(alloc: Global, relations: &[Relation]) -> Result<Option<Span>, NoMemory>
    ensures { IfOk result (λ s. s ≡ first (spec.faulty_relations (map relation_tree relations.now))) }
{
    for relation in relations {
        match faulty_relation(alloc, relation)? {
            Some(span) => return Ok(Some(span)),
            None => {}
        }
    }
    Ok(None)
}
