ghost use Rattle.std.specs.Prelude.{◌≡◌, Some, map, option_map, IfOk};
ghost use Rattle.cx_tsyn.specs.Words.{word_tree};
ghost use Rattle.cx_tsyn.specs.Lins.{lin_part_tree, lin_tree, relation_tree};
ghost use Rattle.cx_tsyn.specs.Cells.{cell_kind_tree};
ghost use Rattle.cx_tscope.specs.Faults.{first};
ghost use Rattle.cx_tnumber.specs.Sums.{summed};
ghost use Rattle.cx_tbinders.specs.Left as spec;

use cx_base::{NoMemory, Span};
use cx_tnumber::{Sums, sums_of};
use cx_tscope::Scope;
use cx_tsyn::{Lin, LinPart, Relation, SCellKind, Word};
use std::alloc::Global;

fn is_among(names: &Scope, n: usize, word: &Word) -> bool
    ensures { result ≡ spec.is_among names.now n (word_tree word.now) }
{
    match names.place(word.text.as_slice()) {
        None => false,
        Some(at) => at < n,
    }
}

fn left_word(names: &Scope, n: usize, sums: &Sums, word: &Word) -> Option<Span>
    ensures { result ≡ first (spec.left_word names.now n (summed sums.now) (word_tree word.now)) }
{
    if !is_among(names, n, word) {
        return None;
    }
    if sums.is_gone(word.text.as_slice()) {
        return None;
    }
    Some(word.span)
}

fn left_in_part(names: &Scope, n: usize, sums: &Sums, part: &LinPart) -> Option<Span>
    ensures { result ≡ first (spec.left_in_part names.now n (summed sums.now) (lin_part_tree part.now)) }
{
    match part {
        LinPart::Number(_) => None,
        LinPart::Times(_, word) => left_word(names, n, sums, word),
        LinPart::Symbol(word) => left_word(names, n, sums, word),
    }
}

#[tactic(auto, using(cx_tscope::proofs::Faults::first_after, cx_tscope::proofs::Faults::first_in))]
fn left_in_rest(names: &Scope, n: usize, sums: &Sums, rest: &[(bool, LinPart)]) -> Option<Span>
    ensures { result ≡ first (spec.left_in_rest names.now n (summed sums.now) (map (λ p. (p.0, lin_part_tree p.1)) rest.now)) }
{
    for signed in rest {
        if let Some(span) = left_in_part(names, n, sums, &signed.1) {
            return Some(span);
        }
    }
    None
}

#[tactic(auto, using(cx_tscope::proofs::Faults::first_after, cx_tscope::proofs::Faults::first_in))]
fn left_by(names: &Scope, n: usize, sums: &Sums, lin: &Lin) -> Option<Span>
    ensures { result ≡ first (spec.left_by names.now n (summed sums.now) (lin_tree lin.now)) }
{
    if let Some(span) = left_in_part(names, n, sums, &lin.first) {
        return Some(span);
    }
    left_in_rest(names, n, sums, lin.rest.as_slice())
}

/// The first symbol that is left in a linear form and is one of the first `n` of the names.
pub fn left_in(alloc: Global, names: &Scope, n: usize, lin: &Lin) -> Result<Option<Span>, NoMemory>
    ensures { IfOk result (λ s. s ≡ first (spec.left_in names.now n (lin_tree lin.now))) }
{
    let sums = sums_of(alloc, lin)?;
    Ok(left_by(names, n, &sums, lin))
}

#[tactic(auto, using(cx_tscope::proofs::Faults::first_after, cx_tscope::proofs::Faults::first_in))]
fn left_in_lins(
    alloc: Global,
    names: &Scope,
    n: usize,
    lins: &[Lin],
) -> Result<Option<Span>, NoMemory>
    ensures { IfOk result (λ s. s ≡ first (spec.left_in_lins names.now n (map lin_tree lins.now))) }
{
    for lin in lins {
        match left_in(alloc, names, n, lin)? {
            Some(span) => return Ok(Some(span)),
            None => {}
        }
    }
    Ok(None)
}

fn left_in_offset(
    alloc: Global,
    names: &Scope,
    n: usize,
    off: &Option<Lin>,
) -> Result<Option<Span>, NoMemory>
    ensures { IfOk result (λ s. s ≡ first (spec.left_in_offset names.now n (option_map lin_tree off.now))) }
{
    match off {
        None => Ok(None),
        Some(lin) => left_in(alloc, names, n, lin),
    }
}

/// The same in a cell of this kind.
#[tactic(auto, using(cx_tscope::proofs::Faults::first_after, cx_tscope::proofs::Faults::first_in))]
pub fn left_in_kind(
    alloc: Global,
    names: &Scope,
    n: usize,
    kind: &SCellKind,
) -> Result<Option<Span>, NoMemory>
    ensures { IfOk result (λ s. s ≡ first (spec.left_in_kind names.now n (cell_kind_tree kind.now))) }
{
    match kind {
        SCellKind::Any => Ok(None),
        SCellKind::AnyBytes(_) => Ok(None),
        SCellKind::Val(e) => left_in(alloc, names, n, e),
        SCellKind::Unsigned(_, e) => left_in(alloc, names, n, e),
        SCellKind::Signed(_, e) => left_in(alloc, names, n, e),
        SCellKind::Ptr {
            name: _,
            args,
            off,
            null: _,
        } => match left_in_lins(alloc, names, n, args.as_slice())? {
            Some(span) => Ok(Some(span)),
            None => left_in_offset(alloc, names, n, off),
        },
    }
}

#[tactic(auto, using(cx_tscope::proofs::Faults::first_after, cx_tscope::proofs::Faults::first_in))]
fn left_in_relation(
    alloc: Global,
    names: &Scope,
    n: usize,
    relation: &Relation,
) -> Result<Option<Span>, NoMemory>
    ensures { IfOk result (λ s. s ≡ first (spec.left_in_relation names.now n (relation_tree relation.now))) }
{
    match left_in(alloc, names, n, &relation.left)? {
        Some(span) => Ok(Some(span)),
        None => left_in(alloc, names, n, &relation.right),
    }
}

/// The same in relations.
#[tactic(auto, using(cx_tscope::proofs::Faults::first_after, cx_tscope::proofs::Faults::first_in))]
pub fn left_in_relations(
    alloc: Global,
    names: &Scope,
    n: usize,
    relations: &[Relation],
) -> Result<Option<Span>, NoMemory>
    ensures { IfOk result (λ s. s ≡ first (spec.left_in_relations names.now n (map relation_tree relations.now))) }
{
    for relation in relations {
        match left_in_relation(alloc, names, n, relation)? {
            Some(span) => return Ok(Some(span)),
            None => {}
        }
    }
    Ok(None)
}
