ghost use Rattle.std.specs.Prelude.{◌≡◌, map, true};
ghost use Rattle.cx_tsyn.specs.Words.{word_tree};
ghost use Rattle.cx_tsyn.specs.Cells.{cell_tree};
ghost use Rattle.cx_tsyn.specs.Types.{stype_tree, atom_tree, stype_trees, field_trees, branch_trees};
ghost use Rattle.cx_tscope.specs.Faults.{first};
ghost use Rattle.cx_tarity.specs.Known.{known_of, names_of};
ghost use Rattle.cx_tarity.specs.Arity as spec;

use crate::fields::{are_few, behind, may_stand};
use crate::known::{Known, members_of, params_of_region};
use cx_base::Span;
use cx_ctree::Member;
use cx_tsyn::{Atom, SBranch, SCell, SCellKind, SField, SType, Word};

/// Whether what is known takes as many.
pub fn agrees(params: Option<usize>, given: usize) -> bool
    ensures { result ≡ spec.agrees params given }
{
    match params {
        None => true,
        Some(params) => params == given,
    }
}

/// The name of a region, where it does not take as many arguments.
pub fn arity_of_region(known: &Known, word: &Word, given: usize) -> Option<Span>
    ensures { result ≡ first (spec.arity_of_region (known_of known.now) (word_tree word.now) given) }
{
    if agrees(params_of_region(known, word), given) {
        return None;
    }
    Some(word.span)
}

/// The name of the region in a cell, where it does not take as many arguments.
pub fn arity_in_cell(known: &Known, cell: &SCell) -> Option<Span>
    ensures { result ≡ first (spec.arity_in_cell (known_of known.now) (cell_tree cell.now)) }
{
    match &cell.kind {
        SCellKind::Any => None,
        SCellKind::AnyBytes(_) => None,
        SCellKind::Val(_) => None,
        SCellKind::Unsigned(_, _) => None,
        SCellKind::Signed(_, _) => None,
        SCellKind::Ptr {
            name,
            args,
            off: _,
            null: _,
        } => arity_of_region(known, name, args.len()),
    }
}

/// The first such name in cells.
#[tactic(auto, using(cx_tscope::proofs::Faults::first_after, cx_tscope::proofs::Faults::first_in))]
pub fn arity_in_cells(known: &Known, cells: &[SCell]) -> Option<Span>
    ensures { result ≡ first (spec.arity_in_cells (known_of known.now) (map cell_tree cells.now)) }
{
    for cell in cells {
        if let Some(span) = arity_in_cell(known, cell) {
            return Some(span);
        }
    }
    None
}

/// The first name or type in a type at which numbers do not agree.
#[cycle(arity)]
pub fn arity_in_type(known: &Known, t: &SType) -> Option<Span>
    ensures { result ≡ first (spec.arity_in_type (known_of known.now) (stype_tree t.now)) }
{
    arity_in_atom(known, &t.atom)
}

#[cycle(arity)]
#[tactic(auto, using(cx_tscope::proofs::Faults::first_after, cx_tscope::proofs::Faults::first_in))]
fn arity_in_atom(known: &Known, atom: &Atom) -> Option<Span>
    ensures { result ≡ first (spec.arity_in_atom (known_of known.now) (atom_tree atom.now)) }
{
    match atom {
        Atom::Cell(cell) => arity_in_cell(known, cell),
        Atom::Paren(inner) => arity_in_type(known, inner),
        Atom::Tagged {
            union_,
            tag,
            fields,
        } => {
            let members = members_of(known, *union_, tag);
            if are_few(known, *union_, members, fields.as_slice()) {
                return Some(tag.span);
            }
            arity_in_fields(known, *union_, members, fields.as_slice())
        }
        Atom::Product { parts, as_tag: _ } => arity_in_types(known, parts.as_slice()),
        Atom::Cases(branches) => arity_in_branches(known, branches.as_slice()),
    }
}

#[cycle(arity)]
#[tactic(auto, using(cx_tscope::proofs::Faults::first_after, cx_tscope::proofs::Faults::first_in))]
fn arity_in_types(known: &Known, parts: &[SType]) -> Option<Span>
    ensures { result ≡ first (spec.arity_in_types (known_of known.now) (stype_trees parts.now)) }
{
    for part in parts {
        if let Some(span) = arity_in_type(known, part) {
            return Some(span);
        }
    }
    None
}

#[cycle(arity)]
#[tactic(auto, using(cx_tscope::proofs::Faults::first_after, cx_tscope::proofs::Faults::first_in))]
fn arity_in_fields(
    known: &Known,
    union_: bool,
    members: &[Member],
    fields: &[SField],
) -> Option<Span>
    ensures { result ≡ first (spec.arity_in_fields (known_of known.now) union_ true (names_of members.now) (field_trees fields.now)) }
{
    let mut is_first = true;
    let mut left = members;
    for field in fields {
        if !may_stand(known, union_, is_first, left, &field.name) {
            return Some(field.body.span);
        }
        if let Some(span) = arity_in_type(known, &field.body) {
            return Some(span);
        }
        is_first = false;
        left = behind(left);
    }
    None
}

#[cycle(arity)]
#[tactic(auto, using(cx_tscope::proofs::Faults::first_after, cx_tscope::proofs::Faults::first_in))]
fn arity_in_branches(known: &Known, branches: &[SBranch]) -> Option<Span>
    ensures { result ≡ first (spec.arity_in_branches (known_of known.now) (branch_trees branches.now)) }
{
    for branch in branches {
        if let Some(span) = arity_in_type(known, &branch.body) {
            return Some(span);
        }
    }
    None
}
