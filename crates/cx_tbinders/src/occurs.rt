ghost use Rattle.std.specs.Prelude.{◌≡◌, map, IfOk};
ghost use Rattle.cx_tsyn.specs.Words.{word_tree};
ghost use Rattle.cx_tsyn.specs.Cells.{cell_tree};
ghost use Rattle.cx_tsyn.specs.Types.{stype_tree, atom_tree, stype_trees, field_trees, branch_trees};
ghost use Rattle.cx_tscope.specs.Faults.{first};
ghost use Rattle.cx_tbinders.specs.Uses as spec;

use crate::use_of::{Use, determines, if_firm, is_none, use_in_cells, use_in_kind};
use cx_base::{NoMemory, Span};
use cx_tsyn::{Atom, SBranch, SCell, SField, SType, Word};
use std::alloc::Global;

/// The first occurrence of a symbol in a type.
#[cycle(occurs)]
fn use_in_type(alloc: Global, text: &[u8], t: &SType) -> Result<Use, NoMemory>
    ensures { IfOk result (λ u. u ≡ spec.use_in_type text.now (stype_tree t.now)) }
{
    if is_none(alloc, &t.times)? {
        return Ok(Use::Absent);
    }
    use_in_atom(alloc, text, &t.atom)
}

#[cycle(occurs)]
fn use_in_atom(alloc: Global, text: &[u8], atom: &Atom) -> Result<Use, NoMemory>
    ensures { IfOk result (λ u. u ≡ spec.use_in_atom text.now (atom_tree atom.now)) }
{
    match atom {
        Atom::Cell(cell) => use_in_kind(alloc, text, &cell.kind),
        Atom::Paren(inner) => use_in_type(alloc, text, inner),
        Atom::Tagged {
            union_: _,
            tag: _,
            fields,
        } => use_in_fields(alloc, text, fields.as_slice()),
        Atom::Product { parts, as_tag: _ } => use_in_types(alloc, text, parts.as_slice()),
        Atom::Cases(branches) => use_in_branches(alloc, text, branches.as_slice()),
    }
}

#[cycle(occurs)]
fn use_in_types(alloc: Global, text: &[u8], parts: &[SType]) -> Result<Use, NoMemory>
    ensures { IfOk result (λ u. u ≡ spec.use_in_types text.now (stype_trees parts.now)) }
{
    for part in parts {
        match use_in_type(alloc, text, part)? {
            Use::Absent => {}
            Use::Whole => return Ok(Use::Whole),
            Use::Partial => return Ok(Use::Partial),
        }
    }
    Ok(Use::Absent)
}

#[cycle(occurs)]
fn use_in_fields(alloc: Global, text: &[u8], fields: &[SField]) -> Result<Use, NoMemory>
    ensures { IfOk result (λ u. u ≡ spec.use_in_fields text.now (field_trees fields.now)) }
{
    for field in fields {
        match use_in_type(alloc, text, &field.body)? {
            Use::Absent => {}
            Use::Whole => return Ok(Use::Whole),
            Use::Partial => return Ok(Use::Partial),
        }
    }
    Ok(Use::Absent)
}

#[cycle(occurs)]
fn use_in_branches(alloc: Global, text: &[u8], branches: &[SBranch]) -> Result<Use, NoMemory>
    ensures { IfOk result (λ u. u ≡ spec.use_in_branches text.now (branch_trees branches.now)) }
{
    for branch in branches {
        match if_firm(false, use_in_type(alloc, text, &branch.body)?) {
            Use::Absent => {}
            Use::Whole => return Ok(Use::Whole),
            Use::Partial => return Ok(Use::Partial),
        }
    }
    Ok(Use::Absent)
}

/// The first of the binders that the type does not determine.
#[tactic(auto, using(cx_tscope::proofs::Faults::first_after, cx_tscope::proofs::Faults::first_in))]
pub fn undetermined_by(alloc: Global, t: &SType, binders: &[Word]) -> Result<Option<Span>, NoMemory>
    ensures { IfOk result (λ s. s ≡ first (spec.undetermined_by (stype_tree t.now) (map word_tree binders.now))) }
{
    for binder in binders {
        let found = use_in_type(alloc, binder.text.as_slice(), t)?;
        if !determines(found) {
            return Ok(Some(binder.span));
        }
    }
    Ok(None)
}

/// The first of the binders that the cells do not determine.
#[tactic(auto, using(cx_tscope::proofs::Faults::first_after, cx_tscope::proofs::Faults::first_in))]
pub fn undetermined_by_cells(
    alloc: Global,
    cells: &[SCell],
    binders: &[Word],
) -> Result<Option<Span>, NoMemory>
    ensures { IfOk result (λ s. s ≡ first (spec.undetermined_by_cells (map cell_tree cells.now) (map word_tree binders.now))) }
{
    for binder in binders {
        let found = use_in_cells(alloc, binder.text.as_slice(), cells)?;
        if !determines(found) {
            return Ok(Some(binder.span));
        }
    }
    Ok(None)
}
