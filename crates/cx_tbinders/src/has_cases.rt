ghost use Rattle.std.specs.Prelude.{◌≡◌};
ghost use Rattle.cx_tsyn.specs.Types.{stype_tree, atom_tree, stype_trees, field_trees};
ghost use Rattle.cx_tbinders.specs.Undetermined as spec;

use cx_tsyn::{Atom, SField, SType};

/// Whether cases stand in a type.
#[cycle(has_cases)]
pub fn has_cases(t: &SType) -> bool
    ensures { result ≡ spec.has_cases (stype_tree t.now) }
{
    has_cases_in(&t.atom)
}

#[cycle(has_cases)]
fn has_cases_in(atom: &Atom) -> bool
    ensures { result ≡ spec.has_cases_in (atom_tree atom.now) }
{
    match atom {
        Atom::Cell(_) => false,
        Atom::Paren(inner) => has_cases(inner),
        Atom::Tagged {
            union_: _,
            tag: _,
            fields,
        } => some_field_has_cases(fields.as_slice()),
        Atom::Product { parts, as_tag: _ } => some_type_has_cases(parts.as_slice()),
        Atom::Cases(_) => true,
    }
}

#[cycle(has_cases)]
fn some_type_has_cases(parts: &[SType]) -> bool
    ensures { result ≡ spec.some_type_has_cases (stype_trees parts.now) }
{
    for part in parts {
        if has_cases(part) {
            return true;
        }
    }
    false
}

#[cycle(has_cases)]
fn some_field_has_cases(fields: &[SField]) -> bool
    ensures { result ≡ spec.some_field_has_cases (field_trees fields.now) }
{
    for field in fields {
        if has_cases(&field.body) {
            return true;
        }
    }
    false
}
