ghost use Rattle.std.specs.Prelude.{◌≡◌, ◌≤◌, ◌+◌, ◌↔◌, ℤ, List as ListOf, IsTrue, IfSome, IsSomeAnd, None, length, slice_get};
ghost use Rattle.cx_cells.specs.Calls.{ArgsMeet, ValueMeets, ResultMeets, Answers};
ghost use Rattle.cx_cells.specs.Layouts.{Extends, extent_of, layout_of};
ghost use Rattle.cx_cells.specs.Typing.{Typed};
ghost use Rattle.cx_member.specs.Reading.{AreSmall};
ghost use Rattle.cx_member.specs.Passing.{FnReads, ResultReads, ResultMeetsWith, AreSameAt};

use crate::meeting::met;
use crate::passing::{bound_by_result, value_holds};
use crate::region::typed;
use crate::valued::conds_hold;
use cx_base::{List, Memory, Region};
use cx_cells::{FnType, ResultType, Rules};

fn same_args(a: &List<i128>, b: &List<i128>) -> bool
    ensures { IsTrue result ↔ (a.now ≡ b.now) }
{
    a.as_slice() == b.as_slice()
}

fn same_parts(r: &Region, s: &Region) -> bool
    ensures { IsTrue result ↔ ((r.now.base ≡ s.now.base) × (r.now.name ≡ s.now.name) × (r.now.args ≡ s.now.args) × (length r.now.bytes ≡ length s.now.bytes)) }
{
    r.base == s.base
        && r.name == s.name
        && same_args(&r.args, &s.args)
        && r.bytes.len() == s.bytes.len()
}

/// Whether they have the same base, type, arguments and size.
fn same_extent(r: &Region, s: &Region) -> bool
    ensures { IsTrue result ↔ (extent_of r.now ≡ extent_of s.now) }
{
    same_parts(r, s)
}

fn same_at(before: &Memory, after: &Memory, i: u32) -> bool
    ensures { IsTrue result ↔ AreSameAt before.now after.now i }
{
    match before.region(i) {
        Some(r) => match after.region(i) {
            Some(s) => same_extent(r, s),
            None => false,
        },
        None => false,
    }
}

/// Whether the regions of the first memory stand first in the second, but for their bytes.
fn extends(before: &Memory, after: &Memory) -> bool
    ensures { IsTrue result ↔ Extends before.now after.now }
{
    if after.len() < before.len() {
        return false;
    }
    for i in 0..before.len() {
        if !same_at(before, after, i) {
            return false;
        }
    }
    true
}

/// Whether the number meets the type of a result with these values of the binders.
fn result_meets_with(memory: &Memory, r: &ResultType, values: &[i128], z: i128) -> bool
    requires { AreSmall values.now }
    ensures { IsTrue result ↔ ResultMeetsWith r.now values.now (layout_of memory.now) z }
{
    conds_hold(values, r.conds.as_slice()) && value_holds(memory, values, &r.cell, z)
}

fn value_meets(memory: &Memory, r: &ResultType, known: &[i128], z: i128) -> bool
    requires small { AreSmall known.now }
    requires few { length known.now ≤ 24 }
    requires reads { ResultReads (length known.now) r.now }
    ensures { IsTrue result ↔ ValueMeets r.now known.now (layout_of memory.now) z }
{
    match bound_by_result(memory, &r.cell, z, known, r.binders) {
        Some(values) => result_meets_with(memory, r, values.as_slice(), z),
        None => false,
    }
}

/// Whether what is returned meets the type of the result, where the numbers are the values of the
/// function's binders.
fn result_meets(
    memory: &Memory,
    promised: &Option<ResultType>,
    known: &[i128],
    value: Option<i128>,
) -> bool
    requires small { AreSmall known.now }
    requires few { length known.now ≤ 24 }
    requires reads { IfSome promised.now (ResultReads (length known.now)) }
    ensures { IsTrue result ↔ ResultMeets promised.now known.now (layout_of memory.now) value }
{
    match promised {
        Some(r) => match value {
            Some(z) => value_meets(memory, r, known, z),
            None => false,
        },
        None => value.is_none(),
    }
}

/// Whether what is returned meets the type of the result for all values of the binders that the
/// arguments meet.
fn given_meets(
    before: &Memory,
    called: &FnType,
    args: &[i128],
    value: Option<i128>,
    after: &Memory,
) -> bool
    requires count { length args.now ≡ length called.now.args }
    requires reads { FnReads called.now }
    ensures { IsTrue result ↔ ((binders : ListOf ℤ) → ArgsMeet called.now binders args.now (layout_of before.now) → ResultMeets called.now.result binders (layout_of after.now) value) }
{
    match met(before, called, args) {
        Some(binders) => result_meets(after, &called.result, binders.as_slice(), value),
        None => true,
    }
}

/// Whether nothing is returned where the function gives no value.
fn may_return(called: &FnType, value: Option<i128>) -> bool
    ensures { IsTrue result ↔ (called.now.result ≡ None → value ≡ None) }
{
    called.result.is_some() || value.is_none()
}

fn fn_answers(
    rules: &Rules,
    before: &Memory,
    called: &FnType,
    args: &[i128],
    value: Option<i128>,
    after: &Memory,
) -> bool
    requires count { length args.now ≡ length called.now.args }
    requires reads { FnReads called.now }
    ensures { IsTrue result ↔ Answers rules.now.forms called.now args.now before.now value after.now }
{
    extends(before, after)
        && typed(rules, after).is_none()
        && may_return(called, value)
        && given_meets(before, called, args, value, after)
}

/// Whether a call of the function at place `f` of the rules may give the value and leave the memory as
/// it is after: that extends the memory before and is typed, and for all values of the binders that the
/// arguments meet, the value meets the type of the result.
pub fn answers(
    rules: &Rules,
    before: &Memory,
    f: u32,
    args: &[i128],
    value: Option<i128>,
    after: &Memory,
) -> bool
    requires { IsSomeAnd (slice_get rules.now.fns f) (λ called. length args.now ≡ length called.args) }
    ensures { IfSome (slice_get rules.now.fns f) (λ called. IsTrue result ↔ Answers rules.now.forms called args.now before.now value after.now) }
{
    match rules.fns.get(f as usize) {
        Some(called) => fn_answers(rules, before, called, args, value, after),
        None => false,
    }
}
