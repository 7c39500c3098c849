ghost use Rattle.std.specs.Prelude.{◌≡◌, map, option_map, IfOk};
ghost use Rattle.cx_tsyn.specs.Lins.{lin_tree, relation_tree};
ghost use Rattle.cx_tsyn.specs.Types.{stype_tree, atom_tree, branch_tree, stype_trees, field_trees, branch_trees};
ghost use Rattle.cx_tscope.specs.Faults.{first};
ghost use Rattle.cx_tforms.specs.Faulty as spec;

use crate::cells::faulty_in_cell;
use crate::forms::{faulty_lin, faulty_relations};
use cx_base::{NoMemory, Span};
use cx_tsyn::{Atom, Lin, Relation, SBranch, SField, SType};
use std::alloc::Global;

fn faulty_length(alloc: Global, times: &Option<Lin>) -> Result<Option<Span>, NoMemory>
    ensures { IfOk result (λ s. s ≡ first (spec.faulty_some_lin (option_map lin_tree times.now))) }
{
    match times {
        None => Ok(None),
        Some(times) => faulty_lin(alloc, times),
    }
}

// The first that breaks its rule in the length and the conditions of a type.
#[tactic(auto, using(cx_tscope::proofs::Faults::first_after, cx_tscope::proofs::Faults::first_in))]
fn faulty_behind(
    alloc: Global,
    times: &Option<Lin>,
    conds: &[Relation],
) -> Result<Option<Span>, NoMemory>
    ensures { IfOk result (λ s. s ≡ first (spec.faulty_behind (option_map lin_tree times.now) (map relation_tree conds.now))) }
{
    match faulty_length(alloc, times)? {
        Some(span) => Ok(Some(span)),
        None => faulty_relations(alloc, conds),
    }
}

/// The first linear form or relation in a type that breaks its rule.
#[cycle(faulty)]
#[tactic(auto, using(cx_tscope::proofs::Faults::first_after, cx_tscope::proofs::Faults::first_in))]
pub fn faulty_in_type(alloc: Global, t: &SType) -> Result<Option<Span>, NoMemory>
    ensures { IfOk result (λ s. s ≡ first (spec.faulty_in_type (stype_tree t.now))) }
{
    match faulty_in_atom(alloc, &t.atom)? {
        Some(span) => Ok(Some(span)),
        None => faulty_behind(alloc, &t.times, t.conds.as_slice()),
    }
}

#[cycle(faulty)]
fn faulty_in_atom(alloc: Global, atom: &Atom) -> Result<Option<Span>, NoMemory>
    ensures { IfOk result (λ s. s ≡ first (spec.faulty_in_atom (atom_tree atom.now))) }
{
    match atom {
        Atom::Cell(cell) => faulty_in_cell(alloc, cell),
        Atom::Paren(inner) => faulty_in_type(alloc, inner),
        Atom::Tagged {
            union_: _,
            tag: _,
            fields,
        } => faulty_in_fields(alloc, fields.as_slice()),
        Atom::Product { parts, as_tag: _ } => faulty_in_types(alloc, parts.as_slice()),
        Atom::Cases(branches) => faulty_in_branches(alloc, branches.as_slice()),
    }
}

#[cycle(faulty)]
#[tactic(auto, using(cx_tscope::proofs::Faults::first_after, cx_tscope::proofs::Faults::first_in))]
fn faulty_in_types(alloc: Global, parts: &[SType]) -> Result<Option<Span>, NoMemory>
    ensures { IfOk result (λ s. s ≡ first (spec.faulty_in_types (stype_trees parts.now))) }
{
    for part in parts {
        match faulty_in_type(alloc, part)? {
            Some(span) => return Ok(Some(span)),
            None => {}
        }
    }
    Ok(None)
}

#[cycle(faulty)]
#[tactic(auto, using(cx_tscope::proofs::Faults::first_after, cx_tscope::proofs::Faults::first_in))]
fn faulty_in_fields(alloc: Global, fields: &[SField]) -> Result<Option<Span>, NoMemory>
    ensures { IfOk result (λ s. s ≡ first (spec.faulty_in_fields (field_trees fields.now))) }
{
    for field in fields {
        match faulty_in_type(alloc, &field.body)? {
            Some(span) => return Ok(Some(span)),
            None => {}
        }
    }
    Ok(None)
}

#[cycle(faulty)]
#[tactic(auto, using(cx_tscope::proofs::Faults::first_after, cx_tscope::proofs::Faults::first_in))]
fn faulty_in_branches(alloc: Global, branches: &[SBranch]) -> Result<Option<Span>, NoMemory>
    ensures { IfOk result (λ s. s ≡ first (spec.faulty_in_branches (branch_trees branches.now))) }
{
    for branch in branches {
        match faulty_in_branch(alloc, branch)? {
            Some(span) => return Ok(Some(span)),
            None => {}
        }
    }
    Ok(None)
}

#[cycle(faulty)]
#[tactic(auto, using(cx_tscope::proofs::Faults::first_after, cx_tscope::proofs::Faults::first_in))]
fn faulty_in_branch(alloc: Global, branch: &SBranch) -> Result<Option<Span>, NoMemory>
    ensures { IfOk result (λ s. s ≡ first (spec.faulty_in_branch (branch_tree branch.now))) }
{
    match faulty_relations(alloc, branch.guard.as_slice())? {
        Some(span) => Ok(Some(span)),
        None => faulty_in_type(alloc, &branch.body),
    }
}
