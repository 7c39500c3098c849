ghost use Rattle.std.specs.Prelude.{◌≡◌, ◌&&◌, Some, map, option_map, IfOk};
ghost use Rattle.std.specs.Option.{unwrap_or};
ghost use Rattle.cx_ctree.specs.Types.{type_tree};
ghost use Rattle.cx_ctree.specs.Decls.{member_tree};
ghost use Rattle.cx_tsyn.specs.Words.{word_tree};
ghost use Rattle.cx_tsyn.specs.Cells.{cell_tree};
ghost use Rattle.cx_tsyn.specs.Lins.{lin_tree};
ghost use Rattle.cx_tsyn.specs.Types.{stype_tree, atom_tree, as_tag_tree, stype_trees, field_trees, branch_trees};
ghost use Rattle.cx_tmeasure.specs.Sizes as sizes;
ghost use Rattle.cx_tmeasure.specs.BadTypes as bad;
ghost use Rattle.cx_tmeasure.specs.Judged as spec;
ghost use Rattle.cx_tmeasure.specs.Views.{known_of};

use crate::amount::{Amount, Judged, array_is_right, in_row, nothing, plus};
use crate::cells::{bad_cell, size_of_kind};
use crate::known::{Known, behind, member_for, members_of, size_in, tag_size};
use cx_base::{NoMemory, Span};
use cx_ctree::{CType, Member};
use cx_tsyn::{AsTag, Atom, Lin, SBranch, SCell, SField, SType, Word};
use std::alloc::Global;

/// The first part of a type whose size is wrong, or how much the type has, for a member, parameter or
/// result of this type of C.
#[cycle(judged)]
pub fn judged(
    alloc: Global,
    known: &Known,
    m: Option<&CType>,
    t: &SType,
) -> Result<Judged, NoMemory>
    ensures { IfOk result (λ j. spec.IsJudged j (bad.bad_in_type (known_of known.now) (option_map (λ t. type_tree t.now) m.entry) (stype_tree t.now)) (spec.amount (known_of known.now) (option_map (λ t. type_tree t.now) m.entry) (stype_tree t.now))) }
{
    match judged_atom(alloc, known, type_inside(&t.times, m), &t.atom)? {
        Judged::Bad(span) => Ok(Judged::Bad(span)),
        Judged::Right(each) => judged_whole(alloc, known, t, each),
    }
}

// The type that an element, or what is no array, is for: an element has none.
fn type_inside<'a>(times: &Option<Lin>, m: Option<&'a CType>) -> Option<&'a CType>
    ensures { option_map (λ t. type_tree t.now) result ≡ sizes.type_inside (option_map lin_tree times.now) (option_map (λ t. type_tree t.now) m.entry) }
{
    match times {
        None => m,
        Some(_) => None,
    }
}

// A type where its parts are right, and one of its elements, or itself where it is no array, has so much.
fn judged_whole(alloc: Global, known: &Known, t: &SType, each: Amount) -> Result<Judged, NoMemory>
    ensures { IfOk result (λ j. spec.IsJudged j (bad.unless_span (bad.atom_is_sized (known_of known.now) (atom_tree t.now.atom) && bad.array_is_right (option_map lin_tree t.now.times) each.size each.cells) t.now.span) (spec.in_row (option_map lin_tree t.now.times) each)) }
{
    let sized = atom_is_sized(known, &t.atom)?;
    let right = array_is_right(alloc, &t.times, each)?;
    if sized && right {
        let all = in_row(alloc, &t.times, each)?;
        return Ok(Judged::Right(all));
    }
    Ok(Judged::Bad(t.span))
}

fn atom_is_sized(known: &Known, atom: &Atom) -> Result<bool, NoMemory>
    ensures { IfOk result (λ sized. sized ≡ bad.atom_is_sized (known_of known.now) (atom_tree atom.now)) }
{
    match atom {
        Atom::Cell(_) => Ok(true),
        Atom::Paren(_) => Ok(true),
        Atom::Tagged {
            union_,
            tag,
            fields: _,
        } => {
            let size = tag_size(known, *union_, tag)?;
            Ok(size.is_some())
        }
        Atom::Product {
            parts: _,
            as_tag: _,
        } => Ok(true),
        Atom::Cases(_) => Ok(true),
    }
}

/// The same of what an array's elements are.
#[cycle(judged)]
pub fn judged_atom(
    alloc: Global,
    known: &Known,
    m: Option<&CType>,
    atom: &Atom,
) -> Result<Judged, NoMemory>
    ensures { IfOk result (λ j. spec.IsJudged j (bad.bad_in_atom (known_of known.now) (option_map (λ t. type_tree t.now) m.entry) (atom_tree atom.now)) (spec.amount_atom (known_of known.now) (option_map (λ t. type_tree t.now) m.entry) (atom_tree atom.now))) }
{
    match atom {
        Atom::Cell(cell) => Ok(judged_cell(known, m, cell)),
        Atom::Paren(inner) => judged(alloc, known, m, inner),
        Atom::Tagged {
            union_,
            tag,
            fields,
        } => {
            let members = members_of(known, *union_, tag);
            match tag_size(known, *union_, tag)? {
                None => judged_fields(alloc, known, *union_, members, 0, fields.as_slice()),
                Some(size) => {
                    judged_fields(alloc, known, *union_, members, size, fields.as_slice())
                }
            }
        }
        Atom::Product { parts, as_tag } => {
            match judged_types(alloc, known, parts.as_slice())? {
                Judged::Bad(span) => Ok(Judged::Bad(span)),
                Judged::Right(all) => judged_as(known, as_tag, all),
            }
        }
        Atom::Cases(branches) => judged_branches(alloc, known, m, branches.as_slice()),
    }
}

fn judged_cell(known: &Known, m: Option<&CType>, cell: &SCell) -> Judged
    ensures { spec.IsJudged result (bad.bad_cell (known_of known.now) (option_map (λ t. type_tree t.now) m.entry) (cell_tree cell.now)) (spec.amount_cell (known_of known.now) (option_map (λ t. type_tree t.now) m.entry) (cell_tree cell.now)) }
{
    match bad_cell(known, m, cell) {
        Some(span) => Judged::Bad(span),
        None => Judged::Right(Amount {
            size: size_of_kind(known, m, &cell.kind),
            cells: 1,
            tail: false,
        }),
    }
}

fn is_exactly(bytes: Option<u64>, taken: Amount) -> bool
    ensures { result ≡ bad.is_exactly bytes taken.size taken.tail }
{
    match bytes {
        None => false,
        Some(n) => taken.size == n && !taken.tail,
    }
}

// What takes so much, where it is for so many bytes and has this place.
fn judged_exactly(bytes: Option<u64>, taken: Amount, span: Span) -> Judged
    ensures { spec.IsJudged result (bad.unless_span (bad.is_exactly bytes taken.size taken.tail) span) taken }
{
    if is_exactly(bytes, taken) {
        return Judged::Right(taken);
    }
    Judged::Bad(span)
}

fn judged_as(known: &Known, as_tag: &Option<AsTag>, all: Amount) -> Result<Judged, NoMemory>
    ensures { IfOk result (λ j. spec.IsJudged j (bad.bad_as (known_of known.now) all.size all.tail (option_map as_tag_tree as_tag.now)) all) }
{
    match as_tag {
        None => Ok(Judged::Right(all)),
        Some(named) => {
            let size = tag_size(known, named.union_, &named.tag)?;
            Ok(judged_exactly(size, all, named.span))
        }
    }
}

#[cycle(judged)]
fn judged_types(alloc: Global, known: &Known, parts: &[SType]) -> Result<Judged, NoMemory>
    ensures { IfOk result (λ j. spec.IsJudged j (bad.bad_in_types (known_of known.now) (stype_trees parts.now)) (spec.amount_types (known_of known.now) (stype_trees parts.now))) }
{
    let mut all = nothing();
    for part in parts {
        match judged(alloc, known, None, part)? {
            Judged::Bad(span) => return Ok(Judged::Bad(span)),
            Judged::Right(x) => all = plus(all, x)?,
        }
    }
    Ok(Judged::Right(all))
}

fn type_of<'a>(member: Option<&'a Member>) -> Option<&'a CType>
    ensures { option_map (λ t. type_tree t.now) result ≡ bad.ctype_of (option_map (λ m. member_tree m.now) member.entry) }
{
    match member {
        None => None,
        Some(member) => Some(&member.ctype),
    }
}

// A type for so many bytes: the type where it takes other than these.
#[cycle(judged)]
fn judged_for(
    alloc: Global,
    known: &Known,
    m: Option<&CType>,
    bytes: Option<u64>,
    t: &SType,
) -> Result<Judged, NoMemory>
    ensures { IfOk result (λ j. spec.IsJudged j (bad.bad_for (known_of known.now) (option_map (λ t. type_tree t.now) m.entry) bytes (stype_tree t.now)) (spec.amount (known_of known.now) (option_map (λ t. type_tree t.now) m.entry) (stype_tree t.now))) }
{
    match judged(alloc, known, m, t)? {
        Judged::Bad(span) => Ok(Judged::Bad(span)),
        Judged::Right(x) => Ok(judged_exactly(bytes, x, t.span)),
    }
}

// A field where these members are left: the type where it takes other bytes than its member.
#[cycle(judged)]
fn judged_field(
    alloc: Global,
    known: &Known,
    union_: bool,
    members: &[Member],
    field: &SField,
) -> Result<Judged, NoMemory>
    ensures { IfOk result (λ j. spec.IsJudged j (bad.bad_in_field (known_of known.now) union_ (map member_tree members.now) (word_tree field.now.name) (stype_tree field.now.body)) (spec.amount_field (known_of known.now) union_ (map member_tree members.now) (word_tree field.now.name) (stype_tree field.now.body))) }
{
    let m = type_of(member_for(known, union_, members, &field.name));
    judged_for(alloc, known, m, size_in(known, m), &field.body)
}

#[cycle(judged)]
fn judged_fields(
    alloc: Global,
    known: &Known,
    union_: bool,
    members: &[Member],
    size: u64,
    fields: &[SField],
) -> Result<Judged, NoMemory>
    ensures { IfOk result (λ j. spec.IsJudged j (bad.bad_in_fields (known_of known.now) union_ (map member_tree members.now) (field_trees fields.now)) (spec.amount_fields size (field_trees fields.now))) }
{
    let mut left = members;
    let mut all = nothing();
    for field in fields {
        match judged_field(alloc, known, union_, left, field)? {
            Judged::Bad(span) => return Ok(Judged::Bad(span)),
            Judged::Right(x) => all = plus(all, x)?,
        }
        left = behind(union_, left);
    }
    Ok(Judged::Right(Amount {
        size,
        cells: all.cells,
        tail: all.tail,
    }))
}

// A branch beside those before it, which take so many bytes: the type where it takes other than these.
#[cycle(judged)]
fn judged_branch(
    alloc: Global,
    known: &Known,
    m: Option<&CType>,
    bytes: Option<u64>,
    t: &SType,
) -> Result<Judged, NoMemory>
    ensures { IfOk result (λ j. spec.IsJudged j (bad.bad_for (known_of known.now) (option_map (λ t. type_tree t.now) m.entry) (Some (unwrap_or bytes (sizes.size (known_of known.now) (option_map (λ t. type_tree t.now) m.entry) (stype_tree t.now)))) (stype_tree t.now)) (spec.amount (known_of known.now) (option_map (λ t. type_tree t.now) m.entry) (stype_tree t.now))) }
{
    match judged(alloc, known, m, t)? {
        Judged::Bad(span) => Ok(Judged::Bad(span)),
        Judged::Right(x) => Ok(judged_exactly(Some(first_or(bytes, x.size)), x, t.span)),
    }
}

#[cycle(judged)]
fn judged_branches(
    alloc: Global,
    known: &Known,
    m: Option<&CType>,
    branches: &[SBranch],
) -> Result<Judged, NoMemory>
    ensures { IfOk result (λ j. spec.IsJudged j (bad.bad_in_branches (known_of known.now) (option_map (λ t. type_tree t.now) m.entry) (sizes.first_size (known_of known.now) (option_map (λ t. type_tree t.now) m.entry) (branch_trees branches.now)) (branch_trees branches.now)) (spec.amount_branches (sizes.first_size (known_of known.now) (option_map (λ t. type_tree t.now) m.entry) (branch_trees branches.now)) (branch_trees branches.now))) }
{
    let mut bytes: Option<u64> = None;
    let mut all = nothing();
    for branch in branches {
        match judged_branch(alloc, known, m, bytes, &branch.body)? {
            Judged::Bad(span) => return Ok(Judged::Bad(span)),
            Judged::Right(x) => {
                bytes = Some(first_or(bytes, x.size));
                all = plus(all, x)?;
            }
        }
    }
    Ok(Judged::Right(Amount {
        size: first_or(bytes, 0),
        cells: all.cells,
        tail: all.tail,
    }))
}

fn first_or(bytes: Option<u64>, other: u64) -> u64
    ensures { result ≡ unwrap_or bytes other }
{
    match bytes {
        None => other,
        Some(n) => n,
    }
}
