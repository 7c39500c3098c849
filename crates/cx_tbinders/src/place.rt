ghost use Rattle.std.specs.Prelude.{◌≡◌, map, option_map, IfOk};
ghost use Rattle.cx_tsyn.specs.Words.{word_tree};
ghost use Rattle.cx_tsyn.specs.Lins.{lin_tree};
ghost use Rattle.cx_tsyn.specs.Types.{stype_tree, atom_tree};
ghost use Rattle.cx_tscope.specs.Faults.{first};
ghost use Rattle.cx_tbinders.specs.Undetermined as spec;

use crate::left::left_in;
use crate::occurs::undetermined_by;
use crate::use_of::is_none;
use cx_base::{NoMemory, Span};
use cx_tnumber::number_of;
use cx_tscope::Scope;
use cx_tsyn::{Atom, Lin, SType, Word};
use std::alloc::Global;

/// Where a type stands in its region.
#[derive(Clone, Copy, Debug, PartialEq, Eq)]
pub struct Place {
    pub in_array: bool,
    pub in_branch: bool,
    /// Whether it stands at the end of its region.
    pub is_last: bool,
    /// Whether it stands in an array without an element.
    pub is_absent: bool,
    /// How many of the binders around it are declared outside the element in which it stands.
    pub outer: usize,
}

fn is_number(alloc: Global, lin: &Lin) -> Result<bool, NoMemory>
    ensures { IfOk result (λ number. number ≡ spec.is_number (lin_tree lin.now)) }
{
    let number = number_of(alloc, lin)?;
    Ok(number.is_some())
}

fn has_binder(alloc: Global, names: &Scope, lin: &Lin) -> Result<bool, NoMemory>
    ensures { IfOk result (λ has. has ≡ spec.has_binder names.now (lin_tree lin.now)) }
{
    let left = left_in(alloc, names, names.len(), lin)?;
    Ok(left.is_some())
}

fn may_be_symbolic(alloc: Global, names: &Scope, place: Place, lin: &Lin) -> Result<bool, NoMemory>
    ensures { IfOk result (λ may. may ≡ spec.may_be_symbolic names.now place (lin_tree lin.now)) }
{
    let has = has_binder(alloc, names, lin)?;
    Ok(place.is_last && (!place.in_array && !place.in_branch) && !has)
}

fn length_is_right(
    alloc: Global,
    names: &Scope,
    place: Place,
    times: &Option<Lin>,
) -> Result<bool, NoMemory>
    ensures { IfOk result (λ right. right ≡ spec.length_is_right names.now place (option_map lin_tree times.now)) }
{
    match times {
        None => Ok(true),
        Some(lin) => {
            let fixed = is_number(alloc, lin)?;
            let may = may_be_symbolic(alloc, names, place, lin)?;
            Ok(fixed || may)
        }
    }
}

fn is_cases(atom: &Atom) -> bool
    ensures { result ≡ spec.is_cases (atom_tree atom.now) }
{
    match atom {
        Atom::Cell(_) => false,
        Atom::Paren(_) => false,
        Atom::Tagged {
            union_: _,
            tag: _,
            fields: _,
        } => false,
        Atom::Product {
            parts: _,
            as_tag: _,
        } => false,
        Atom::Cases(_) => true,
    }
}

fn cases_are_right(place: Place, seen: bool, times: &Option<Lin>, atom: &Atom) -> bool
    ensures { result ≡ spec.cases_are_right place seen (option_map lin_tree times.now) (atom_tree atom.now) }
{
    !(is_cases(atom) && (place.in_array || (times.is_some() || seen)))
}

/// Whether a type of this length and atom may stand at the place.
pub fn type_is_right(
    alloc: Global,
    names: &Scope,
    place: Place,
    seen: bool,
    times: &Option<Lin>,
    atom: &Atom,
) -> Result<bool, NoMemory>
    ensures { IfOk result (λ right. right ≡ spec.type_is_right names.now place seen (option_map lin_tree times.now) (atom_tree atom.now)) }
{
    let length = length_is_right(alloc, names, place, times)?;
    Ok(length && cases_are_right(place, seen, times, atom))
}

fn outer_after(
    alloc: Global,
    names: &Scope,
    place: Place,
    times: &Option<Lin>,
) -> Result<usize, NoMemory>
    ensures { IfOk result (λ outer. outer ≡ spec.outer_after names.now place (option_map lin_tree times.now)) }
{
    match times {
        None => Ok(place.outer),
        Some(lin) => {
            if is_number(alloc, lin)? {
                return Ok(place.outer);
            }
            Ok(names.len())
        }
    }
}

/// Where the atom of a type of this length stands.
pub fn inside(
    alloc: Global,
    names: &Scope,
    place: Place,
    times: &Option<Lin>,
) -> Result<Place, NoMemory>
    ensures { IfOk result (λ inner. inner ≡ spec.inside names.now place (option_map lin_tree times.now)) }
{
    let none = is_none(alloc, times)?;
    let outer = outer_after(alloc, names, place, times)?;
    Ok(Place {
        in_array: place.in_array || times.is_some(),
        in_branch: place.in_branch,
        is_last: place.is_last,
        is_absent: place.is_absent || none,
        outer,
    })
}

/// The place of a part, where others may stand behind it.
pub fn before_others(place: Place, others: bool) -> Place
    ensures { result ≡ spec.before_others place others }
{
    Place {
        in_array: place.in_array,
        in_branch: place.in_branch,
        is_last: place.is_last && !others,
        is_absent: place.is_absent,
        outer: place.outer,
    }
}

/// The place of the type of a branch.
pub fn in_a_branch(place: Place) -> Place
    ensures { result ≡ spec.in_a_branch place }
{
    Place {
        in_array: place.in_array,
        in_branch: true,
        is_last: false,
        is_absent: place.is_absent,
        outer: place.outer,
    }
}

/// The first of the binders that the type does not determine, where it is written out at least once.
pub fn undetermined_binders(
    alloc: Global,
    place: Place,
    t: &SType,
    binders: &[Word],
) -> Result<Option<Span>, NoMemory>
    ensures { IfOk result (λ s. s ≡ first (spec.undetermined_binders place (stype_tree t.now) (map word_tree binders.now))) }
{
    if place.is_absent {
        return Ok(None);
    }
    undetermined_by(alloc, t, binders)
}
