ghost use Rattle.std.specs.Prelude.{◌≡◌, ◌≤◌, ◌<◌, ◌+◌, ◌++◌, ◌^◌, ◌↔◌, ℕ, pos, IsTrue, IfSome, MatchOption, Some, length, replicate};
ghost use Rattle.cx_cells.specs.Kept.{symbols_of};
ghost use Rattle.cx_cells.specs.Layouts.{layout_of};
ghost use Rattle.cx_cells.specs.Meaning.{PartHolds, HeadHolds, FormHolds, element_at, element_count};
ghost use Rattle.cx_member.specs.Reading.{AreSmall, bytes_at, HeadReads, TailReads, FormReads, HeadHoldsWith, ElementsHoldUpTo, TailHolds};

use crate::binding::{Values, bound_values, copied};
use crate::cell::cells_hold;
use crate::part::{cases_hold, part_holds};
use crate::valued::{conds_hold, value_of};
use cx_base::Memory;
use cx_cells::{Form, Tail};

/// Whether the head holds with these values of the symbols.
fn head_with(memory: &Memory, index: u32, values: &[i128], form: &Form) -> bool
    requires small { AreSmall values.now }
    requires count { length values.now ≡ symbols_of form.now }
    requires room { length (bytes_at memory.now index) ≤ 2 ^ 47 }
    requires head { HeadReads (length (bytes_at memory.now index)) form.now }
    ensures { IsTrue result ↔ HeadHoldsWith values.now memory.now index form.now }
{
    conds_hold(values, form.conds.as_slice())
        && cells_hold(memory, index, 0, values, form.head.as_slice())
        && cases_hold(memory, index, u64::from(form.cases_at), values, &form.cases)
}

/// Whether the region at place `index` holds the form's head for these arguments.
fn head_holds(memory: &Memory, index: u32, args: &[i128], form: &Form) -> bool
    requires small { AreSmall args.now }
    requires given { length args.now ≡ form.now.params }
    requires room { length (bytes_at memory.now index) ≤ 2 ^ 47 }
    requires head { HeadReads (length (bytes_at memory.now index)) form.now }
    ensures { IsTrue result ↔ HeadHolds form.now args.now (layout_of memory.now) (bytes_at memory.now index) }
{
    let head = form.head.as_slice();
    match bound_values(memory, index, 0, args, form.binders, head) {
        Some(values) => head_with(memory, index, values.as_slice(), form),
        None => false,
    }
}

/// How many elements the tail has. None where there are more than the region has bytes, or fewer
/// than none.
fn element_count(args: &[i128], tail: &Tail, bytes: u64) -> Option<u64>
    requires small { AreSmall args.now }
    requires room { bytes ≤ 2 ^ 47 }
    ensures { MatchOption result ((n : ℕ) → element_count args.now tail.now ≡ pos n → bytes < n)
        (λ n. (element_count args.now tail.now ≡ pos n) × (n ≤ bytes)) }
{
    let n = value_of(args, &tail.count);
    if 0 <= n && n <= i128::from(bytes) {
        Some(n as u64)
    } else {
        None
    }
}

/// The arguments, and 0 for each binder of the form.
fn with_zeros(args: &[i128], n: u32) -> Values
    requires small { AreSmall args.now }
    requires few { length args.now + n ≤ 24 }
    ensures value { result.items ≡ args.now ++ replicate n (pos 0) }
    ensures small { AreSmall result.items }
    ensures count { length result.items ≡ length args.now + n }
{
    let mut values = copied(args);
    for _ in 0..n {
        values.push(0);
    }
    values
}

/// Whether the region holds the element `i`.
fn element_holds(
    memory: &Memory,
    index: u32,
    known: &[i128],
    form: &Form,
    tail: &Tail,
    i: u64,
) -> bool
    requires small { AreSmall known.now }
    requires room { length (bytes_at memory.now index) ≤ 2 ^ 47 }
    requires inside { element_at form.now tail.now (i + 1) ≤ length (bytes_at memory.now index) }
    requires tail { TailReads (length known.now) tail.now }
    ensures { IsTrue result ↔ PartHolds known.now (layout_of memory.now) (bytes_at memory.now index) (element_at form.now tail.now i) tail.now.part }
{
    let off = u64::from(form.head_size) + i * u64::from(tail.part.size);
    part_holds(memory, index, off, known, &tail.part)
}

/// Whether it holds the first `n` elements.
fn elements_hold(
    memory: &Memory,
    index: u32,
    known: &[i128],
    form: &Form,
    tail: &Tail,
    n: u64,
) -> bool
    requires small { AreSmall known.now }
    requires room { length (bytes_at memory.now index) ≤ 2 ^ 47 }
    requires inside { element_at form.now tail.now n ≤ length (bytes_at memory.now index) }
    requires tail { TailReads (length known.now) tail.now }
    ensures { IsTrue result ↔ ElementsHoldUpTo n known.now memory.now index form.now tail.now }
{
    for i in 0..n {
        if !element_holds(memory, index, known, form, tail, i) {
            return false;
        }
    }
    true
}

/// Whether `n` elements after the head have so many bytes together with it.
fn is_size(form: &Form, tail: &Tail, n: u64, bytes: u64) -> bool
    ensures { IsTrue result ↔ (element_at form.now tail.now n ≡ bytes) }
{
    u128::from(form.head_size) + u128::from(n) * u128::from(tail.part.size) == u128::from(bytes)
}

/// Whether the region has the bytes of the head and of the tail's elements, and holds the elements.
fn some_tail_holds(
    memory: &Memory,
    index: u32,
    args: &[i128],
    form: &Form,
    tail: &Tail,
    bytes: u64,
) -> bool
    requires small { AreSmall args.now }
    requires given { length args.now ≡ form.now.params }
    requires bytes { bytes ≡ length (bytes_at memory.now index) }
    requires room { bytes ≤ 2 ^ 47 }
    requires few { symbols_of form.now ≤ 24 }
    requires tail { TailReads (symbols_of form.now) tail.now }
    ensures { IsTrue result ↔ TailHolds bytes form.now args.now memory.now index (Some tail.now) }
{
    match element_count(args, tail, bytes) {
        Some(n) => {
            if !is_size(form, tail, n, bytes) {
                return false;
            }
            let known = with_zeros(args, form.binders);
            elements_hold(memory, index, known.as_slice(), form, tail, n)
        }
        None => false,
    }
}

/// The same, where a form without a tail has the bytes of the head alone.
fn tail_holds(memory: &Memory, index: u32, args: &[i128], form: &Form, bytes: u64) -> bool
    requires small { AreSmall args.now }
    requires given { length args.now ≡ form.now.params }
    requires bytes { bytes ≡ length (bytes_at memory.now index) }
    requires room { bytes ≤ 2 ^ 47 }
    requires form { FormReads form.now }
    ensures { IsTrue result ↔ TailHolds bytes form.now args.now memory.now index form.now.tail }
{
    match &form.tail {
        Some(tail) => some_tail_holds(memory, index, args, form, tail, bytes),
        None => u64::from(form.head_size) == bytes,
    }
}

/// Whether the region at place `index`, which has so many bytes, holds the form for these arguments.
pub(crate) fn form_holds(
    memory: &Memory,
    index: u32,
    args: &[i128],
    form: &Form,
    bytes: u64,
) -> bool
    requires small { AreSmall args.now }
    requires bytes { bytes ≡ length (bytes_at memory.now index) }
    requires room { bytes ≤ 2 ^ 47 }
    requires form { FormReads form.now }
    ensures { IsTrue result ↔ FormHolds form.now args.now (layout_of memory.now) (bytes_at memory.now index) }
{
    args.len() == form.params as usize
        && tail_holds(memory, index, args, form, bytes)
        && head_holds(memory, index, args, form)
}
