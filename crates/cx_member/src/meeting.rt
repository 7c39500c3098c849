ghost use Rattle.std.specs.Prelude.{◌≡◌, ◌↔◌, ℤ, List as ListOf, IsTrue, IfSome, IsSomeAnd, MatchOption, length, slice_get};
ghost use Rattle.cx_cells.specs.Calls.{ArgsMeet};
ghost use Rattle.cx_cells.specs.Layouts.{layout_of};
ghost use Rattle.cx_member.specs.Reading.{AreSmall};
ghost use Rattle.cx_member.specs.Passing.{FnReads, ArgsMeetWith, MeetOnly, MeetNone};

use crate::binding::Values;
use crate::passing::{bound_by_args, values_hold};
use crate::valued::conds_hold;
use cx_base::Memory;
use cx_cells::{FnType, Rules};

/// Whether the arguments meet the function with these values of its binders.
fn meet_with(memory: &Memory, called: &FnType, values: &[i128], args: &[i128]) -> bool
    requires small { AreSmall values.now }
    requires count { length args.now ≡ length called.now.args }
    ensures { IsTrue result ↔ ArgsMeetWith called.now values.now args.now (layout_of memory.now) }
{
    values_hold(memory, values, called.args.as_slice(), args)
        && conds_hold(values, called.conds.as_slice())
}

/// The values of the function's binders with which the arguments meet it.
pub(crate) fn met(memory: &Memory, called: &FnType, args: &[i128]) -> Option<Values>
    requires count { length args.now ≡ length called.now.args }
    requires reads { FnReads called.now }
    ensures { MatchOption result (MeetNone called.now args.now (layout_of memory.now))
        (λ values. MeetOnly called.now args.now (layout_of memory.now) values.items) }
{
    let kinds = called.args.as_slice();
    match bound_by_args(memory, kinds, args, called.binders) {
        Some(values) => {
            if meet_with(memory, called, values.as_slice(), args) {
                Some(values)
            } else {
                None
            }
        }
        None => None,
    }
}

fn fn_meets(memory: &Memory, called: &FnType, args: &[i128]) -> bool
    requires count { length args.now ≡ length called.now.args }
    requires reads { FnReads called.now }
    ensures { IsTrue result ↔ ((binders : ListOf ℤ) × ArgsMeet called.now binders args.now (layout_of memory.now)) }
{
    met(memory, called, args).is_some()
}

/// Whether the arguments hold the kinds of the function at place `f` of the rules, and its conditions
/// are true, for some values of its binders.
pub fn meets(rules: &Rules, memory: &Memory, f: u32, args: &[i128]) -> bool
    requires { IsSomeAnd (slice_get rules.now.fns f) (λ called. length args.now ≡ length called.args) }
    ensures { IfSome (slice_get rules.now.fns f) (λ called. IsTrue result ↔ ((binders : ListOf ℤ) × ArgsMeet called binders args.now (layout_of memory.now))) }
{
    match rules.fns.get(f as usize) {
        Some(called) => fn_meets(memory, called, args),
        None => false,
    }
}
