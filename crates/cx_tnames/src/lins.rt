ghost use Rattle.std.specs.Prelude.{◌≡◌, map};
ghost use Rattle.cx_tsyn.specs.Lins.{lin_part_tree, lin_tree, relation_tree};
ghost use Rattle.cx_tscope.specs.Faults.{first};
ghost use Rattle.cx_tnames.specs.Unknown as spec;

use cx_base::Span;
use cx_tscope::{Scope, unknown_word};
use cx_tsyn::{Lin, LinPart, Relation};

fn unknown_in_part(names: &Scope, part: &LinPart) -> Option<Span>
    ensures { result ≡ first (spec.unknown_in_part names.now (lin_part_tree part.now)) }
{
    match part {
        LinPart::Number(_) => None,
        LinPart::Times(_, word) => unknown_word(names, word),
        LinPart::Symbol(word) => unknown_word(names, word),
    }
}

#[tactic(auto, using(cx_tscope::proofs::Faults::first_after, cx_tscope::proofs::Faults::first_in))]
fn unknown_in_rest(names: &Scope, rest: &[(bool, LinPart)]) -> Option<Span>
    ensures { result ≡ first (spec.unknown_in_rest names.now (map (λ p. (p.0, lin_part_tree p.1)) rest.now)) }
{
    for signed in rest {
        if let Some(span) = unknown_in_part(names, &signed.1) {
            return Some(span);
        }
    }
    None
}

/// The first symbol of a linear form that is not known.
#[tactic(auto, using(cx_tscope::proofs::Faults::first_after, cx_tscope::proofs::Faults::first_in))]
pub fn unknown_in_lin(names: &Scope, lin: &Lin) -> Option<Span>
    ensures { result ≡ first (spec.unknown_in_lin names.now (lin_tree lin.now)) }
{
    if let Some(span) = unknown_in_part(names, &lin.first) {
        return Some(span);
    }
    unknown_in_rest(names, lin.rest.as_slice())
}

/// The first symbol of linear forms that is not known.
#[tactic(auto, using(cx_tscope::proofs::Faults::first_after, cx_tscope::proofs::Faults::first_in))]
pub fn unknown_in_lins(names: &Scope, lins: &[Lin]) -> Option<Span>
    ensures { result ≡ first (spec.unknown_in_lins names.now (map lin_tree lins.now)) }
{
    for lin in lins {
        if let Some(span) = unknown_in_lin(names, lin) {
            return Some(span);
        }
    }
    None
}

#[tactic(auto, using(cx_tscope::proofs::Faults::first_after, cx_tscope::proofs::Faults::first_in))]
fn unknown_in_relation(names: &Scope, relation: &Relation) -> Option<Span>
    ensures { result ≡ first (spec.unknown_in_relation names.now (relation_tree relation.now)) }
{
    if let Some(span) = unknown_in_lin(names, &relation.left) {
        return Some(span);
    }
    unknown_in_lin(names, &relation.right)
}

/// The first symbol of relations that is not known.
#[tactic(auto, using(cx_tscope::proofs::Faults::first_after, cx_tscope::proofs::Faults::first_in))]
pub fn unknown_in_relations(names: &Scope, relations: &[Relation]) -> Option<Span>
    ensures { result ≡ first (spec.unknown_in_relations names.now (map relation_tree relations.now)) }
{
    for relation in relations {
        if let Some(span) = unknown_in_relation(names, relation) {
            return Some(span);
        }
    }
    None
}
