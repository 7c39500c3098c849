ghost use Rattle.std.specs.Prelude.{◌≡◌, ◌||◌, drop, OnOk, IfOk};
ghost use Rattle.cx_tsyn.specs.Types.{stype_tree, atom_tree, branch_tree, stype_trees, field_trees, branch_trees};
ghost use Rattle.cx_tscope.specs.Faults.{first};
ghost use Rattle.cx_tbinders.specs.Undetermined as spec;

use crate::has_cases::has_cases;
use crate::left::{left_in_kind, left_in_relations};
use crate::place::{
    Place, before_others, in_a_branch, inside, type_is_right, undetermined_binders,
};
use cx_base::{NoMemory, Span};
use cx_tscope::Scope;
use cx_tsyn::{Atom, SBranch, SField, SType};
use std::alloc::Global;

/// The first word or type in a type at which a symbol is not determined, where these are the binders
/// around it, and cases may have been seen before it in its region.
#[cycle(undetermined)]
#[tactic(auto, using(cx_tscope::proofs::Scopes::left_names))]
pub fn undetermined_in_type(
    alloc: Global,
    names: &mut Scope,
    place: Place,
    seen: bool,
    t: &SType,
) -> Result<Option<Span>, NoMemory>
    ensures first { IfOk result (λ s. s ≡ first (spec.undetermined_in_type names.old place seen (stype_tree t.now))) }
    ensures kept { OnOk result (names.new ≡ names.old) }
{
    let around = names.len();
    let _doubled = names.declare(t.binders.as_slice())?;
    let found = undetermined_inside(alloc, names, place, seen, t)?;
    names.keep(around);
    Ok(found)
}

// The same, once the binders of the type are among the names.
#[cycle(undetermined)]
#[tactic(auto, using(cx_tscope::proofs::Faults::first_after, cx_tscope::proofs::Faults::first_in))]
fn undetermined_inside(
    alloc: Global,
    names: &mut Scope,
    place: Place,
    seen: bool,
    t: &SType,
) -> Result<Option<Span>, NoMemory>
    ensures first { IfOk result (λ s. s ≡ first (spec.undetermined_inside names.old place seen (stype_tree t.now))) }
    ensures kept { OnOk result (names.new ≡ names.old) }
{
    if !type_is_right(alloc, names, place, seen, &t.times, &t.atom)? {
        return Ok(Some(t.span));
    }
    if let Some(span) = undetermined_binders(alloc, place, t, t.binders.as_slice())? {
        return Ok(Some(span));
    }
    undetermined_behind(alloc, names, place, seen, t)
}

// The same in the atom and the conditions of the type.
#[cycle(undetermined)]
#[tactic(auto, using(cx_tscope::proofs::Faults::first_after, cx_tscope::proofs::Faults::first_in))]
fn undetermined_behind(
    alloc: Global,
    names: &mut Scope,
    place: Place,
    seen: bool,
    t: &SType,
) -> Result<Option<Span>, NoMemory>
    ensures first { IfOk result (λ s. s ≡ first (spec.undetermined_behind names.old place seen (stype_tree t.now))) }
    ensures kept { OnOk result (names.new ≡ names.old) }
{
    let inner = inside(alloc, names, place, &t.times)?;
    match undetermined_in_atom(alloc, names, inner, seen, &t.atom)? {
        Some(span) => Ok(Some(span)),
        None => left_in_relations(alloc, names, place.outer, t.conds.as_slice()),
    }
}

#[cycle(undetermined)]
fn undetermined_in_atom(
    alloc: Global,
    names: &mut Scope,
    place: Place,
    seen: bool,
    atom: &Atom,
) -> Result<Option<Span>, NoMemory>
    ensures first { IfOk result (λ s. s ≡ first (spec.undetermined_in_atom names.old place seen (atom_tree atom.now))) }
    ensures kept { OnOk result (names.new ≡ names.old) }
{
    match atom {
        Atom::Cell(cell) => left_in_kind(alloc, names, place.outer, &cell.kind),
        Atom::Paren(inner) => undetermined_in_type(alloc, names, place, seen, inner),
        Atom::Tagged {
            union_: _,
            tag: _,
            fields,
        } => undetermined_in_fields(alloc, names, place, seen, fields.as_slice()),
        Atom::Product { parts, as_tag: _ } => {
            undetermined_in_types(alloc, names, place, seen, parts.as_slice())
        }
        Atom::Cases(branches) => {
            undetermined_in_branches(alloc, names, in_a_branch(place), branches.as_slice())
        }
    }
}

#[cycle(undetermined)]
#[tactic(auto, using(cx_tscope::proofs::Faults::first_after, cx_tscope::proofs::Faults::first_in, crate::proofs::Told::drop_more))]
fn undetermined_in_types(
    alloc: Global,
    names: &mut Scope,
    place: Place,
    seen: bool,
    parts: &[SType],
) -> Result<Option<Span>, NoMemory>
    ensures first { IfOk result (λ s. s ≡ first (spec.undetermined_in_types names.old place seen (stype_trees parts.now))) }
    ensures kept { OnOk result (names.new ≡ names.old) }
{
    let mut met = seen;
    let mut after = parts;
    for part in parts {
        after = types_behind(after);
        let here = before_others(place, some_type(after));
        match undetermined_in_type(alloc, names, here, met, part)? {
            Some(span) => return Ok(Some(span)),
            None => {}
        }
        met = or_cases(met, part);
    }
    Ok(None)
}

#[cycle(undetermined)]
#[tactic(auto, using(cx_tscope::proofs::Faults::first_after, cx_tscope::proofs::Faults::first_in, crate::proofs::Told::drop_more))]
fn undetermined_in_fields(
    alloc: Global,
    names: &mut Scope,
    place: Place,
    seen: bool,
    fields: &[SField],
) -> Result<Option<Span>, NoMemory>
    ensures first { IfOk result (λ s. s ≡ first (spec.undetermined_in_fields names.old place seen (field_trees fields.now))) }
    ensures kept { OnOk result (names.new ≡ names.old) }
{
    let mut met = seen;
    let mut after = fields;
    for field in fields {
        after = fields_behind(after);
        let here = before_others(place, some_field(after));
        match undetermined_in_type(alloc, names, here, met, &field.body)? {
            Some(span) => return Ok(Some(span)),
            None => {}
        }
        met = or_cases(met, &field.body);
    }
    Ok(None)
}

#[cycle(undetermined)]
#[tactic(auto, using(cx_tscope::proofs::Faults::first_after, cx_tscope::proofs::Faults::first_in))]
fn undetermined_in_branches(
    alloc: Global,
    names: &mut Scope,
    place: Place,
    branches: &[SBranch],
) -> Result<Option<Span>, NoMemory>
    ensures first { IfOk result (λ s. s ≡ first (spec.undetermined_in_branches names.old place (branch_trees branches.now))) }
    ensures kept { OnOk result (names.new ≡ names.old) }
{
    for branch in branches {
        match undetermined_in_branch(alloc, names, place, branch)? {
            Some(span) => return Ok(Some(span)),
            None => {}
        }
    }
    Ok(None)
}

#[cycle(undetermined)]
#[tactic(auto, using(cx_tscope::proofs::Faults::first_after, cx_tscope::proofs::Faults::first_in))]
fn undetermined_in_branch(
    alloc: Global,
    names: &mut Scope,
    place: Place,
    branch: &SBranch,
) -> Result<Option<Span>, NoMemory>
    ensures first { IfOk result (λ s. s ≡ first (spec.undetermined_in_branch names.old place (branch_tree branch.now))) }
    ensures kept { OnOk result (names.new ≡ names.old) }
{
    match left_in_relations(alloc, names, place.outer, branch.guard.as_slice())? {
        Some(span) => Ok(Some(span)),
        None => undetermined_in_type(alloc, names, place, true, &branch.body),
    }
}

fn or_cases(met: bool, t: &SType) -> bool
    ensures { result ≡ (met || spec.has_cases (stype_tree t.now)) }
{
    met || has_cases(t)
}

// All of the types but the first.
fn types_behind(parts: &[SType]) -> &[SType]
    ensures { result.now ≡ drop 1 parts.now }
{
    match parts {
        [] => parts,
        [_, after @ ..] => after,
    }
}

// All of the fields but the first.
fn fields_behind(fields: &[SField]) -> &[SField]
    ensures { result.now ≡ drop 1 fields.now }
{
    match fields {
        [] => fields,
        [_, after @ ..] => after,
    }
}

fn some_type(parts: &[SType]) -> bool
    ensures { result ≡ spec.some_type (stype_trees parts.now) }
{
    match parts {
        [] => false,
        [_, ..] => true,
    }
}

fn some_field(fields: &[SField]) -> bool
    ensures { result ≡ spec.some_field (field_trees fields.now) }
{
    match fields {
        [] => false,
        [_, ..] => true,
    }
}
