ghost use Rattle.std.specs.Prelude.{◌≡◌, option_map, IfOk};
ghost use Rattle.cx_tsyn.specs.Lins.{lin_tree};
ghost use Rattle.cx_tsyn.specs.Types.{stype_tree, atom_tree, stype_trees};
ghost use Rattle.cx_tsizes.specs.Regions as spec;
ghost use Rattle.cx_tsizes.specs.Views.{row_of};

use cx_base::NoMemory;
use cx_tnumber::number_of;
use cx_tsyn::{Atom, Lin, SType};
use std::alloc::Global;

/// An array of symbolic length: the length, and what the elements are.
#[derive(Clone, Copy)]
pub struct Row<'a> {
    pub length: &'a Lin,
    pub element: &'a Atom,
}

// The array itself, where its length is symbolic.
fn own_tail<'a>(
    alloc: Global,
    times: &'a Option<Lin>,
    element: &'a Atom,
) -> Result<Option<Row<'a>>, NoMemory>
    ensures { IfOk result (λ r. option_map row_of r ≡ spec.own_tail (option_map lin_tree times.now) (atom_tree element.now)) }
{
    match times {
        None => Ok(None),
        Some(length) => {
            let number = number_of(alloc, length)?;
            if number.is_some() {
                return Ok(None);
            }
            Ok(Some(Row { length, element }))
        }
    }
}

/// The first array of symbolic length in a type, other than in structs, unions and branches.
#[cycle(tail)]
pub fn tail_of<'a>(alloc: Global, t: &'a SType) -> Result<Option<Row<'a>>, NoMemory>
    ensures { IfOk result (λ r. option_map row_of r ≡ spec.tail_of (stype_tree t.now)) }
{
    match own_tail(alloc, &t.times, &t.atom)? {
        Some(row) => Ok(Some(row)),
        None => tail_in(alloc, &t.atom),
    }
}

#[cycle(tail)]
fn tail_in<'a>(alloc: Global, atom: &'a Atom) -> Result<Option<Row<'a>>, NoMemory>
    ensures { IfOk result (λ r. option_map row_of r ≡ spec.tail_in (atom_tree atom.now)) }
{
    match atom {
        Atom::Cell(_) => Ok(None),
        Atom::Paren(inner) => tail_of(alloc, inner),
        Atom::Tagged {
            union_: _,
            tag: _,
            fields: _,
        } => Ok(None),
        Atom::Product { parts, as_tag: _ } => tail_in_types(alloc, parts.as_slice()),
        Atom::Cases(_) => Ok(None),
    }
}

#[cycle(tail)]
fn tail_in_types<'a>(alloc: Global, parts: &'a [SType]) -> Result<Option<Row<'a>>, NoMemory>
    ensures { IfOk result (λ r. option_map row_of r ≡ spec.tail_in_types (stype_trees parts.now)) }
{
    for part in parts {
        if let Some(row) = tail_of(alloc, part)? {
            return Ok(Some(row));
        }
    }
    Ok(None)
}
