ghost use Rattle.std.specs.Prelude.{◌≡◌, ◌<◌, ◌≤◌, ◌+◌, ◌-ℤ◌, ◌^◌, ◌↔◌, ℕ, ℤ, [], List as ListOf, false, Any, IsTrue, IsSome, IfSome, MatchOption, Some, length, option_copied, slice_get, unsigned_abs};
ghost use Rattle.cx_base.specs.Number.{InRange};
ghost use Rattle.cx_cells.specs.Calls.{ValueHolds, ValuesHold};
ghost use Rattle.cx_cells.specs.Layouts.{IsAt, layout_of};
ghost use Rattle.cx_cells.specs.Symbols.{told_by, telling_kind};
ghost use Rattle.cx_cells.specs.Values.{values_of};
ghost use Rattle.cx_member.specs.Reading.{AreSmall, IsOnly, BindsNone, Binds};
ghost use Rattle.cx_member.specs.Passing.{IsToldBy, ArgsHold, ResultHolds};

use crate::binding::{Values, copied, pointed_argument};
use crate::pointing::points;
use crate::valued::value_of;
use arrayvec::ArrayVec;
use cx_base::{CInt, Memory, fits};
use cx_cells::{CellKind, Told, telling_kind, told_by};
use cx_term::Term;

/// Whether 8 bytes of this sign write the number.
fn is_word(signed: bool, z: i128) -> bool
    ensures { IsTrue result ↔ InRange 8 signed z }
{
    fits(CInt { size: 8, signed }, z)
}

/// Whether the number, which is passed or returned, holds what the kind says.
pub(crate) fn value_holds(memory: &Memory, values: &[i128], kind: &CellKind, z: i128) -> bool
    requires { AreSmall values.now }
    ensures { IsTrue result ↔ ValueHolds (values_of values.now) (layout_of memory.now) kind.now z }
{
    match kind {
        CellKind::Any => true,
        CellKind::Val { signed, value } => is_word(*signed, z) && value_of(values, value) == z,
        CellKind::Ptr {
            name,
            args,
            off,
            null,
        } => is_word(false, z) && points(memory, values, *name, args, off, *null, z),
    }
}

/// Whether each number holds what the kind at its place says.
pub(crate) fn values_hold(
    memory: &Memory,
    values: &[i128],
    kinds: &[CellKind],
    given: &[i128],
) -> bool
    requires small { AreSmall values.now }
    requires count { length given.now ≡ length kinds.now }
    ensures { IsTrue result ↔ ValuesHold (values_of values.now) (layout_of memory.now) kinds.now given.now }
{
    for i in 0..kinds.len() {
        if !value_holds(memory, values, &kinds[i], given[i]) {
            return false;
        }
    }
    true
}

/// The number, where 8 bytes of this sign write it.
fn word(signed: bool, z: i128) -> Option<i128>
    ensures value { InRange 8 signed z → result ≡ Some z }
    ensures small { IfSome result (λ n. unsigned_abs n ≤ 2 ^ 64) }
{
    if is_word(signed, z) { Some(z) } else { None }
}

/// The argument at place `i` of the region that the number points to, where it is an address.
fn pointed_by(memory: &Memory, name: u32, off: &Term, z: i128, i: usize) -> Option<i128>
    ensures value { InRange 8 false z → (args : ListOf ℤ) → Any (IsAt name args (z -ℤ off.now.konst)) (layout_of memory.now) → result ≡ slice_get args i }
    ensures small { IfSome result (λ n. unsigned_abs n ≤ 2 ^ 64) }
{
    if is_word(false, z) {
        pointed_argument(memory, name, off, z, i)
    } else {
        None
    }
}

/// The value of a symbol that the kind tells in this way of the number.
fn told_value(memory: &Memory, kind: &CellKind, z: i128, told: Told) -> Option<i128>
    ensures only { IsToldBy (layout_of memory.now) kind.now z told result }
    ensures small { IfSome result (λ n. unsigned_abs n ≤ 2 ^ 64) }
{
    match kind {
        CellKind::Any => None,
        CellKind::Val { signed, value: _ } => word(*signed, z),
        CellKind::Ptr {
            name,
            args: _,
            off,
            null: _,
        } => match told {
            Told::Value => None,
            Told::Argument(i) => pointed_by(memory, *name, off, z, i),
        },
    }
}

fn kind_at(kinds: &[CellKind], i: usize) -> Option<&CellKind>
    ensures { option_copied result ≡ slice_get kinds.now i }
{
    kinds.get(i)
}

fn number_in(given: &[i128], i: usize) -> Option<i128>
    ensures { result ≡ slice_get given.now i }
{
    given.get(i).copied()
}

/// The value of the symbol by the number at place `i`.
fn value_passed(
    memory: &Memory,
    kinds: &[CellKind],
    given: &[i128],
    s: u32,
    i: usize,
    told: Told,
) -> Option<i128>
    requires { telling_kind s kinds.now ≡ Some (i, told) }
    ensures only { IsOnly (ArgsHold (layout_of memory.now) kinds.now given.now) s result }
    ensures small { IfSome result (λ n. unsigned_abs n ≤ 2 ^ 64) }
{
    match kind_at(kinds, i) {
        Some(kind) => match number_in(given, i) {
            Some(z) => told_value(memory, kind, z, told),
            None => None,
        },
        None => None,
    }
}

/// The value of the symbol by the first number whose kind names it.
fn passed_value(memory: &Memory, kinds: &[CellKind], given: &[i128], s: u32) -> Option<i128>
    requires { IsSome (telling_kind s kinds.now) }
    ensures only { IsOnly (ArgsHold (layout_of memory.now) kinds.now given.now) s result }
    ensures small { IfSome result (λ n. unsigned_abs n ≤ 2 ^ 64) }
{
    match telling_kind(kinds, s) {
        Some((i, told)) => value_passed(memory, kinds, given, s, i, told),
        None => None,
    }
}

/// The values of the first `n` symbols, each by the first number whose kind names it. None where the
/// numbers hold their kinds with no values.
pub(crate) fn bound_by_args(
    memory: &Memory,
    kinds: &[CellKind],
    given: &[i128],
    n: u32,
) -> Option<Values>
    requires few { n ≤ 40 }
    requires told { (s : ℕ) → s < n → IsSome (telling_kind s kinds.now) }
    ensures { MatchOption result (BindsNone (ArgsHold (layout_of memory.now) kinds.now given.now) [] n)
        (λ values. Binds (ArgsHold (layout_of memory.now) kinds.now given.now) [] n values.items) }
{
    let mut values = ArrayVec::new();
    for s in 0..n {
        match passed_value(memory, kinds, given, s) {
            Some(z) => values.push(z),
            None => return None,
        }
    }
    Some(values)
}

/// The value of the symbol by the number that is returned.
fn returned_value(memory: &Memory, kind: &CellKind, z: i128, s: u32) -> Option<i128>
    requires { IsSome (told_by s kind.now) }
    ensures only { IsOnly (ResultHolds (layout_of memory.now) kind.now z) s result }
    ensures small { IfSome result (λ n. unsigned_abs n ≤ 2 ^ 64) }
{
    match told_by(kind, s) {
        Some(told) => told_value(memory, kind, z, told),
        None => None,
    }
}

/// The known numbers and the values of the next `n` symbols by the number that is returned. None where
/// it holds the kind with no values.
pub(crate) fn bound_by_result(
    memory: &Memory,
    kind: &CellKind,
    z: i128,
    known: &[i128],
    n: u32,
) -> Option<Values>
    requires small { AreSmall known.now }
    requires few { length known.now + n ≤ 40 }
    requires told { (s : ℕ) → length known.now ≤ s → s < length known.now + n → IsSome (told_by s kind.now) }
    ensures { MatchOption result (BindsNone (ResultHolds (layout_of memory.now) kind.now z) known.now n)
        (λ values. Binds (ResultHolds (layout_of memory.now) kind.now z) known.now n values.items) }
{
    let mut values = copied(known);
    let first = known.len() as u32;
    for s in first..first + n {
        match returned_value(memory, kind, z, s) {
            Some(v) => values.push(v),
            None => return None,
        }
    }
    Some(values)
}
