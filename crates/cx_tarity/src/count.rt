ghost use Rattle.std.specs.Prelude.{◌≡◌, ◌+◌, ◌*◌, option_map, IfOk};
ghost use Rattle.cx_tsyn.specs.Lins.{lin_tree};
ghost use Rattle.cx_tsyn.specs.Types.{stype_tree, atom_tree, stype_trees, field_trees, branch_trees};
ghost use Rattle.cx_tarity.specs.Counts.{turns};
ghost use Rattle.cx_tarity.specs.Capped as spec;

use cx_base::NoMemory;
use cx_tnumber::number_of;
use cx_tsyn::{Atom, Lin, SBranch, SField, SType};
use std::alloc::Global;

/// How many binders and conditions a type has in the part in which it stands, where 17 stands for
/// every number from 17 on, and whether a part in it has more of them than it may.
#[derive(Clone, Copy, Debug, PartialEq, Eq)]
pub struct Amounts {
    pub binders: u32,
    pub conds: u32,
    pub over: bool,
}

fn few(n: u64) -> u32
    ensures { result ≡ spec.few n }
{
    if n < 17 { n as u32 } else { 17 }
}

fn nothing() -> Amounts
    ensures { result ≡ spec.nothing }
{
    Amounts {
        binders: 0,
        conds: 0,
        over: false,
    }
}

fn plus(a: Amounts, b: Amounts) -> Amounts
    ensures { result ≡ spec.plus a b }
{
    Amounts {
        binders: few(a.binders as u64 + b.binders as u64),
        conds: few(a.conds as u64 + b.conds as u64),
        over: a.over || b.over,
    }
}

/// Whether there are more binders or conditions than a part may have.
pub fn is_over(c: Amounts) -> bool
    ensures { result ≡ spec.is_over c }
{
    16 < c.binders || 16 < c.conds
}

// The number as a number of turns.
fn few_turns(z: i128) -> u32
    ensures { result ≡ spec.few (turns z) }
{
    if z < 0 {
        0
    } else if z < 17 {
        z as u32
    } else {
        17
    }
}

// So many turns of so many.
#[tactic(auto, using(crate::proofs::Capping::few_times))]
fn turns_of(z: i128, each: u32) -> u32
    ensures { result ≡ spec.few (turns z * each) }
{
    few(few_turns(z) as u64 * each as u64)
}

fn in_row_by(number: Option<i128>, each: Amounts) -> Amounts
    ensures { result ≡ spec.in_row_by number each }
{
    match number {
        None => Amounts {
            binders: 0,
            conds: 0,
            over: is_over(each) || each.over,
        },
        Some(z) => Amounts {
            binders: turns_of(z, each.binders),
            conds: turns_of(z, each.conds),
            over: each.over,
        },
    }
}

fn in_row(alloc: Global, times: &Option<Lin>, each: Amounts) -> Result<Amounts, NoMemory>
    ensures { IfOk result (λ c. c ≡ spec.in_row (option_map lin_tree times.now) each) }
{
    match times {
        None => Ok(each),
        Some(lin) => {
            let number = number_of(alloc, lin)?;
            Ok(in_row_by(number, each))
        }
    }
}

fn few_more(n: usize, more: u32) -> u32
    ensures { result ≡ spec.few (n + more) }
{
    if n < 17 {
        few(n as u64 + more as u64)
    } else {
        17
    }
}

fn with_own(binders: usize, conds: usize, inner: Amounts) -> Amounts
    ensures { result ≡ spec.with_own binders conds inner }
{
    Amounts {
        binders: few_more(binders, inner.binders),
        conds: few_more(conds, inner.conds),
        over: inner.over,
    }
}

/// What a type has.
#[cycle(counted)]
pub fn counted(alloc: Global, t: &SType) -> Result<Amounts, NoMemory>
    ensures { IfOk result (λ c. c ≡ spec.counted (stype_tree t.now)) }
{
    let inner = counted_atom(alloc, &t.atom)?;
    let row = in_row(alloc, &t.times, inner)?;
    Ok(with_own(t.binders.len(), t.conds.len(), row))
}

#[cycle(counted)]
fn counted_atom(alloc: Global, atom: &Atom) -> Result<Amounts, NoMemory>
    ensures { IfOk result (λ c. c ≡ spec.counted_atom (atom_tree atom.now)) }
{
    match atom {
        Atom::Cell(_) => Ok(nothing()),
        Atom::Paren(inner) => counted(alloc, inner),
        Atom::Tagged {
            union_: _,
            tag: _,
            fields,
        } => counted_fields(alloc, fields.as_slice()),
        Atom::Product { parts, as_tag: _ } => counted_types(alloc, parts.as_slice()),
        Atom::Cases(branches) => counted_branches(alloc, branches.as_slice()),
    }
}

#[cycle(counted)]
fn counted_types(alloc: Global, parts: &[SType]) -> Result<Amounts, NoMemory>
    ensures { IfOk result (λ c. c ≡ spec.counted_types (stype_trees parts.now)) }
{
    let mut all = nothing();
    for part in parts {
        all = plus(all, counted(alloc, part)?);
    }
    Ok(all)
}

#[cycle(counted)]
fn counted_fields(alloc: Global, fields: &[SField]) -> Result<Amounts, NoMemory>
    ensures { IfOk result (λ c. c ≡ spec.counted_fields (field_trees fields.now)) }
{
    let mut all = nothing();
    for field in fields {
        all = plus(all, counted(alloc, &field.body)?);
    }
    Ok(all)
}

#[cycle(counted)]
fn counted_branches(alloc: Global, branches: &[SBranch]) -> Result<Amounts, NoMemory>
    ensures { IfOk result (λ c. c ≡ spec.counted_branches (branch_trees branches.now)) }
{
    let mut over = false;
    for branch in branches {
        let part = counted(alloc, &branch.body)?;
        over = over || is_over(part) || part.over;
    }
    Ok(Amounts {
        binders: 0,
        conds: 0,
        over,
    })
}
