ghost use Rattle.std.specs.Prelude.{◌≡◌, length, take, IfOk, OnOk};
ghost use Rattle.cx_tsyn.specs.Types.{stype_tree, atom_tree, stype_trees, field_trees, branch_trees};
ghost use Rattle.cx_tscope.specs.Faults.{first};
ghost use Rattle.cx_tdoubled.specs.Doubled as spec;

use cx_base::{NoMemory, Span};
use cx_tscope::Scope;
use cx_tsyn::{Atom, SBranch, SField, SType};

/// The first binder in a type that is declared where a symbol of its name is known, if these are known
/// around it.
#[cycle(doubled)]
pub fn doubled_in_type(names: &mut Scope, t: &SType) -> Result<Option<Span>, NoMemory>
    ensures first { IfOk result (λ s. s ≡ first (spec.doubled_in_type names.old (stype_tree t.now))) }
    ensures kept { OnOk result (names.new ≡ names.old) }
{
    let outer = names.len();
    let found = doubled_inside(names, t)?;
    names.keep(outer);
    Ok(found)
}

// The same; what is declared may stay known.
#[cycle(doubled)]
#[tactic(auto, using(cx_tscope::proofs::Faults::first_after, cx_tscope::proofs::Faults::first_in, cx_tscope::proofs::Scopes::left_names))]
fn doubled_inside(names: &mut Scope, t: &SType) -> Result<Option<Span>, NoMemory>
    ensures first { IfOk result (λ s. s ≡ first (spec.doubled_in_type names.old (stype_tree t.now))) }
    ensures kept { OnOk result (take (length names.old) names.new ≡ names.old) }
{
    match names.declare(t.binders.as_slice())? {
        Some(span) => Ok(Some(span)),
        None => doubled_in_atom(names, &t.atom),
    }
}

#[cycle(doubled)]
fn doubled_in_atom(names: &mut Scope, atom: &Atom) -> Result<Option<Span>, NoMemory>
    ensures first { IfOk result (λ s. s ≡ first (spec.doubled_in_atom names.old (atom_tree atom.now))) }
    ensures kept { OnOk result (names.new ≡ names.old) }
{
    match atom {
        Atom::Cell(_) => Ok(None),
        Atom::Paren(inner) => doubled_in_type(names, inner),
        Atom::Tagged {
            union_: _,
            tag: _,
            fields,
        } => doubled_in_fields(names, fields.as_slice()),
        Atom::Product { parts, as_tag: _ } => doubled_in_types(names, parts.as_slice()),
        Atom::Cases(branches) => doubled_in_branches(names, branches.as_slice()),
    }
}

#[cycle(doubled)]
#[tactic(auto, using(cx_tscope::proofs::Faults::first_after, cx_tscope::proofs::Faults::first_in))]
fn doubled_in_types(names: &mut Scope, parts: &[SType]) -> Result<Option<Span>, NoMemory>
    ensures first { IfOk result (λ s. s ≡ first (spec.doubled_in_types names.old (stype_trees parts.now))) }
    ensures kept { OnOk result (names.new ≡ names.old) }
{
    for part in parts {
        match doubled_in_type(names, part)? {
            Some(span) => return Ok(Some(span)),
            None => {}
        }
    }
    Ok(None)
}

#[cycle(doubled)]
#[tactic(auto, using(cx_tscope::proofs::Faults::first_after, cx_tscope::proofs::Faults::first_in))]
fn doubled_in_fields(names: &mut Scope, fields: &[SField]) -> Result<Option<Span>, NoMemory>
    ensures first { IfOk result (λ s. s ≡ first (spec.doubled_in_fields names.old (field_trees fields.now))) }
    ensures kept { OnOk result (names.new ≡ names.old) }
{
    for field in fields {
        match doubled_in_type(names, &field.body)? {
            Some(span) => return Ok(Some(span)),
            None => {}
        }
    }
    Ok(None)
}

#[cycle(doubled)]
#[tactic(auto, using(cx_tscope::proofs::Faults::first_after, cx_tscope::proofs::Faults::first_in))]
fn doubled_in_branches(names: &mut Scope, branches: &[SBranch]) -> Result<Option<Span>, NoMemory>
    ensures first { IfOk result (λ s. s ≡ first (spec.doubled_in_branches names.old (branch_trees branches.now))) }
    ensures kept { OnOk result (names.new ≡ names.old) }
{
    for branch in branches {
        match doubled_in_type(names, &branch.body)? {
            Some(span) => return Ok(Some(span)),
            None => {}
        }
    }
    Ok(None)
}
