ghost use Rattle.std.specs.Prelude.{◌≡◌, map, option_map, IfOk, OnOk};
ghost use Rattle.cx_tsyn.specs.Words.{word_tree};
ghost use Rattle.cx_tsyn.specs.Lins.{lin_tree, relation_tree};
ghost use Rattle.cx_tsyn.specs.Types.{stype_tree, atom_tree, as_tag_tree, branch_tree, stype_trees, field_trees, branch_trees};
ghost use Rattle.cx_tscope.specs.Faults.{first};
ghost use Rattle.cx_tnames.specs.Known.{known_of};
ghost use Rattle.cx_tnames.specs.Unknown as spec;

use crate::cells::unknown_in_cell;
use crate::known::{Known, is_field, is_tag};
use crate::lins::{unknown_in_lin, unknown_in_relations};
use cx_base::{NoMemory, Span};
use cx_tscope::Scope;
use cx_tsyn::{AsTag, Atom, Lin, Relation, SBranch, SField, SType, Word};

// A name that is not known in the length or the conditions of a type.
#[tactic(auto, using(cx_tscope::proofs::Faults::first_after, cx_tscope::proofs::Faults::first_in))]
fn unknown_behind(names: &Scope, times: &Option<Lin>, conds: &[Relation]) -> Option<Span>
    ensures { result ≡ first (spec.unknown_behind names.now (option_map lin_tree times.now) (map relation_tree conds.now)) }
{
    if let Some(times) = times {
        if let Some(span) = unknown_in_lin(names, times) {
            return Some(span);
        }
    }
    unknown_in_relations(names, conds)
}

fn unknown_as(known: &Known, as_tag: &Option<AsTag>) -> Option<Span>
    ensures { result ≡ first (spec.unknown_as (known_of known.now) (option_map as_tag_tree as_tag.now)) }
{
    match as_tag {
        None => None,
        Some(named) => {
            if is_tag(known, named.union_, &named.tag) {
                return None;
            }
            Some(named.tag.span)
        }
    }
}

/// The first name in a type that is not known, where these names are.
#[cycle(unknown)]
#[tactic(auto, using(cx_tscope::proofs::Scopes::left_names))]
pub fn unknown_in_type(
    known: &Known,
    names: &mut Scope,
    t: &SType,
) -> Result<Option<Span>, NoMemory>
    ensures first { IfOk result (λ s. s ≡ first (spec.unknown_in_type (known_of known.now) names.old (stype_tree t.now))) }
    ensures kept { OnOk result (names.new ≡ names.old) }
{
    let outer = names.len();
    let _doubled = names.declare(t.binders.as_slice())?;
    let found = unknown_inside(known, names, t)?;
    names.keep(outer);
    Ok(found)
}

// The same, once the binders of the type are known.
#[cycle(unknown)]
#[tactic(auto, using(cx_tscope::proofs::Faults::first_after, cx_tscope::proofs::Faults::first_in))]
fn unknown_inside(known: &Known, names: &mut Scope, t: &SType) -> Result<Option<Span>, NoMemory>
    ensures first { IfOk result (λ s. s ≡ first (spec.unknown_inside (known_of known.now) names.old (stype_tree t.now))) }
    ensures kept { OnOk result (names.new ≡ names.old) }
{
    match unknown_in_atom(known, names, &t.atom)? {
        Some(span) => Ok(Some(span)),
        None => Ok(unknown_behind(names, &t.times, t.conds.as_slice())),
    }
}

#[cycle(unknown)]
#[tactic(auto, using(cx_tscope::proofs::Faults::first_after, cx_tscope::proofs::Faults::first_in))]
fn unknown_in_atom(known: &Known, names: &mut Scope, atom: &Atom) -> Result<Option<Span>, NoMemory>
    ensures first { IfOk result (λ s. s ≡ first (spec.unknown_in_atom (known_of known.now) names.old (atom_tree atom.now))) }
    ensures kept { OnOk result (names.new ≡ names.old) }
{
    match atom {
        Atom::Cell(cell) => Ok(unknown_in_cell(&known.regions, names, cell)),
        Atom::Paren(inner) => unknown_in_type(known, names, inner),
        Atom::Tagged {
            union_,
            tag,
            fields,
        } => {
            if !is_tag(known, *union_, tag) {
                return Ok(Some(tag.span));
            }
            unknown_in_fields(known, names, *union_, tag, fields.as_slice())
        }
        Atom::Product { parts, as_tag } => {
            match unknown_in_types(known, names, parts.as_slice())? {
                Some(span) => Ok(Some(span)),
                None => Ok(unknown_as(known, as_tag)),
            }
        }
        Atom::Cases(branches) => unknown_in_branches(known, names, branches.as_slice()),
    }
}

#[cycle(unknown)]
#[tactic(auto, using(cx_tscope::proofs::Faults::first_after, cx_tscope::proofs::Faults::first_in))]
fn unknown_in_types(
    known: &Known,
    names: &mut Scope,
    parts: &[SType],
) -> Result<Option<Span>, NoMemory>
    ensures first { IfOk result (λ s. s ≡ first (spec.unknown_in_types (known_of known.now) names.old (stype_trees parts.now))) }
    ensures kept { OnOk result (names.new ≡ names.old) }
{
    for part in parts {
        match unknown_in_type(known, names, part)? {
            Some(span) => return Ok(Some(span)),
            None => {}
        }
    }
    Ok(None)
}

#[cycle(unknown)]
#[tactic(auto, using(cx_tscope::proofs::Faults::first_after, cx_tscope::proofs::Faults::first_in))]
fn unknown_in_fields(
    known: &Known,
    names: &mut Scope,
    union_: bool,
    tag: &Word,
    fields: &[SField],
) -> Result<Option<Span>, NoMemory>
    ensures first { IfOk result (λ s. s ≡ first (spec.unknown_in_fields (known_of known.now) names.old union_ (word_tree tag.now) (field_trees fields.now))) }
    ensures kept { OnOk result (names.new ≡ names.old) }
{
    for field in fields {
        if !is_field(known, union_, tag, &field.name) {
            return Ok(Some(field.name.span));
        }
        match unknown_in_type(known, names, &field.body)? {
            Some(span) => return Ok(Some(span)),
            None => {}
        }
    }
    Ok(None)
}

#[cycle(unknown)]
#[tactic(auto, using(cx_tscope::proofs::Faults::first_after, cx_tscope::proofs::Faults::first_in))]
fn unknown_in_branches(
    known: &Known,
    names: &mut Scope,
    branches: &[SBranch],
) -> Result<Option<Span>, NoMemory>
    ensures first { IfOk result (λ s. s ≡ first (spec.unknown_in_branches (known_of known.now) names.old (branch_trees branches.now))) }
    ensures kept { OnOk result (names.new ≡ names.old) }
{
    for branch in branches {
        match unknown_in_branch(known, names, branch)? {
            Some(span) => return Ok(Some(span)),
            None => {}
        }
    }
    Ok(None)
}

#[cycle(unknown)]
#[tactic(auto, using(cx_tscope::proofs::Faults::first_after, cx_tscope::proofs::Faults::first_in))]
fn unknown_in_branch(
    known: &Known,
    names: &mut Scope,
    branch: &SBranch,
) -> Result<Option<Span>, NoMemory>
    ensures first { IfOk result (λ s. s ≡ first (spec.unknown_in_branch (known_of known.now) names.old (branch_tree branch.now))) }
    ensures kept { OnOk result (names.new ≡ names.old) }
{
    if let Some(span) = unknown_in_relations(names, branch.guard.as_slice()) {
        return Ok(Some(span));
    }
    unknown_in_type(known, names, &branch.body)
}
