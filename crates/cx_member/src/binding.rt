ghost use Rattle.std.specs.Prelude.{◌≡◌, ◌≤◌, ◌+◌, ◌^◌, ◌-ℤ◌, ℤ, List as ListOf, All, Any, Some, IsSome, IfSome, MatchOption, length, option_copied, slice_get, unsigned_abs};
ghost use Rattle.cx_cells.specs.Kept.{AllTold};
ghost use Rattle.cx_cells.specs.Layouts.{IsAt, layout_of};
ghost use Rattle.cx_cells.specs.Symbols.{telling_cell};
ghost use Rattle.cx_member.specs.Reading.{AreSmall, bytes_at, HaveCell, CellsHold, IsTold, IsOnly, BindsNone, Binds};

use crate::cell::number_at;
use crate::pointing::{minus, region_at};
use arrayvec::ArrayVec;
use cx_base::Memory;
use cx_cells::{CellKind, FlatCell, Told, telling_cell};
use cx_term::Term;

/// Numbers as the values of symbols: of at most 8 parameters, 16 binders of a form, and 16 of a part.
pub(crate) type Values = ArrayVec<i128, 40>;

fn item_at(items: &[i128], i: usize) -> Option<i128>
    requires { AreSmall items.now }
    ensures value { result ≡ slice_get items.now i }
    ensures small { IfSome result (λ z. unsigned_abs z ≤ 2 ^ 64) }
{
    items.get(i).copied()
}

/// The argument at place `i` of the region of this type and this base.
fn argument_at(memory: &Memory, name: u32, base: i128, i: usize) -> Option<i128>
    ensures value { (args : ListOf ℤ) → Any (IsAt name args base) (layout_of memory.now) → result ≡ slice_get args i }
    ensures small { IfSome result (λ z. unsigned_abs z ≤ 2 ^ 64) }
{
    match region_at(memory, name, base) {
        Some(r) => item_at(r.args.as_slice(), i),
        None => None,
    }
}

/// The argument at place `i` of the region that the number points to, the constant of the offset past
/// its base.
pub(crate) fn pointed_argument(
    memory: &Memory,
    name: u32,
    off: &Term,
    z: i128,
    i: usize,
) -> Option<i128>
    requires { unsigned_abs z ≤ 2 ^ 64 }
    ensures value { (args : ListOf ℤ) → Any (IsAt name args (z -ℤ off.now.konst)) (layout_of memory.now) → result ≡ slice_get args i }
    ensures small { IfSome result (λ z. unsigned_abs z ≤ 2 ^ 64) }
{
    off.known();
    let base = minus(z, off.konst());
    argument_at(memory, name, base, i)
}

/// The number that the cell tells in this way.
fn told_number(memory: &Memory, index: u32, off: u64, c: &FlatCell, told: Told) -> Option<i128>
    requires room { length (bytes_at memory.now index) ≤ 2 ^ 47 }
    requires cell { HaveCell (length (bytes_at memory.now index)) off c.now }
    ensures only { IsTold memory.now index off c.now told result }
    ensures small { IfSome result (λ z. unsigned_abs z ≤ 2 ^ 64) }
{
    let from = off + u64::from(c.at);
    match &c.kind {
        CellKind::Any => None,
        CellKind::Val { signed, value: _ } => {
            Some(number_at(memory, index, from, c.size, *signed))
        }
        CellKind::Ptr {
            name,
            args: _,
            off,
            null: _,
        } => match told {
            Told::Value => None,
            Told::Argument(i) => {
                let z = number_at(memory, index, from, c.size, false);
                pointed_argument(memory, *name, off, z, i)
            }
        },
    }
}

fn cell_at(cells: &[FlatCell], i: usize) -> Option<&FlatCell>
    ensures { option_copied result ≡ slice_get cells.now i }
{
    cells.get(i)
}

/// The number that the cell at place `i` tells.
fn number_told(
    memory: &Memory,
    index: u32,
    off: u64,
    cells: &[FlatCell],
    s: u32,
    i: usize,
    told: Told,
) -> Option<i128>
    requires telling { telling_cell s cells.now ≡ Some (i, told) }
    requires room { length (bytes_at memory.now index) ≤ 2 ^ 47 }
    requires cells { All (HaveCell (length (bytes_at memory.now index)) off) cells.now }
    ensures only { IsOnly (CellsHold memory.now index off cells.now) s result }
    ensures small { IfSome result (λ z. unsigned_abs z ≤ 2 ^ 64) }
{
    match cell_at(cells, i) {
        Some(c) => told_number(memory, index, off, c, told),
        None => None,
    }
}

/// The value of the symbol by the first cell that names it.
fn bound_value(memory: &Memory, index: u32, off: u64, cells: &[FlatCell], s: u32) -> Option<i128>
    requires telling { IsSome (telling_cell s cells.now) }
    requires room { length (bytes_at memory.now index) ≤ 2 ^ 47 }
    requires cells { All (HaveCell (length (bytes_at memory.now index)) off) cells.now }
    ensures only { IsOnly (CellsHold memory.now index off cells.now) s result }
    ensures small { IfSome result (λ z. unsigned_abs z ≤ 2 ^ 64) }
{
    match telling_cell(cells, s) {
        Some((i, told)) => number_told(memory, index, off, cells, s, i, told),
        None => None,
    }
}

pub(crate) fn copied(known: &[i128]) -> Values
    requires { length known.now ≤ 40 }
    ensures { result.items ≡ known.now }
{
    let mut values = ArrayVec::new();
    for z in known {
        values.push(*z);
    }
    values
}

/// The known numbers and the values of the next `n` symbols, each by the first cell that names it.
/// None where the cells hold with no values.
pub(crate) fn bound_values(
    memory: &Memory,
    index: u32,
    off: u64,
    known: &[i128],
    n: u32,
    cells: &[FlatCell],
) -> Option<Values>
    requires small { AreSmall known.now }
    requires few { length known.now + n ≤ 40 }
    requires told { AllTold (length known.now) (length known.now + n) cells.now }
    requires room { length (bytes_at memory.now index) ≤ 2 ^ 47 }
    requires cells { All (HaveCell (length (bytes_at memory.now index)) off) cells.now }
    ensures { MatchOption result (BindsNone (CellsHold memory.now index off cells.now) known.now n)
        (λ values. Binds (CellsHold memory.now index off cells.now) known.now n values.items) }
{
    let mut values = copied(known);
    let first = known.len() as u32;
    for s in first..first + n {
        match bound_value(memory, index, off, cells, s) {
            Some(z) => values.push(z),
            None => return None,
        }
    }
    Some(values)
}
