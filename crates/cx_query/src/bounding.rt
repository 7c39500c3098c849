//! The numbers that a form may be.

ghost use Rattle.std.specs.Prelude.{◌≡◌, ◌<◌, ◌≤◌, ◌^◌, pos, unsigned_abs};
ghost use Rattle.std.specs.Int.{int_rem_euclid};
ghost use Rattle.cx_entail.specs.Joins.{stepped};
ghost use Rattle.cx_query.specs.Shown.{at_least, at_most};
ghost use Rattle.cx_query.specs.Range.{thresholds, greatest_shown, least_shown, low_of, high_of, ranged, range_of, Ranges};

use crate::forms::{at_least, at_most};
use cx_entail::{Range, bounds, remainder};
use cx_state::Env;
use cx_term::Term;

/// The largest absolute value of a bound, 2^65.
const END: u128 = 36893488147419103232;

/// 2^64. A step is below it.
const STEP_LIMIT: u128 = 18446744073709551616;

/// The bounds that are tried of each form: the ends of the integer types, and numbers beside them.
static THRESHOLDS: [i128; 14] = [
    -9223372036854775808,
    -2147483648,
    -32768,
    -1,
    0,
    1,
    255,
    32767,
    65535,
    2147483647,
    4294967295,
    140737488355328,
    9223372036854775807,
    18446744073709551615,
];

fn thresholds() -> &'static [i128]
    ensures { result.now ≡ thresholds }
{
    &THRESHOLDS
}

fn is_at_least(env: &Env, t: &Term, z: &i128) -> bool
    ensures { result ≡ at_least env.now t.now z.now }
{
    at_least(env, t, *z)
}

fn is_at_most(env: &Env, t: &Term, z: &i128) -> bool
    ensures { result ≡ at_most env.now t.now z.now }
{
    at_most(env, t, *z)
}

/// The greatest of `best` and the thresholds that the form is shown to be at least.
fn greatest_shown(env: &Env, t: &Term, thresholds: &[i128], best: i128) -> i128
    ensures { result ≡ greatest_shown env.now t.now thresholds.now best }
{
    let mut best = best;
    for z in thresholds {
        if best <= *z && is_at_least(env, t, z) {
            best = *z;
        }
    }
    best
}

/// The least of `best` and the thresholds that the form is shown to be at most.
fn least_shown(env: &Env, t: &Term, thresholds: &[i128], best: i128) -> i128
    ensures { result ≡ least_shown env.now t.now thresholds.now best }
{
    let mut best = best;
    for z in thresholds {
        if *z <= best && is_at_most(env, t, z) {
            best = *z;
        }
    }
    best
}

fn low_of(env: &Env, t: &Term) -> i128
    ensures { result ≡ low_of env.now t.now }
{
    let ends = bounds(t, env.ranges.as_slice());
    greatest_shown(env, t, thresholds(), ends.0)
}

fn high_of(env: &Env, t: &Term) -> i128
    ensures { result ≡ high_of env.now t.now }
{
    let ends = bounds(t, env.ranges.as_slice());
    least_shown(env, t, thresholds(), ends.1)
}

/// The remainder of the number, at least 0 and below `m`.
fn residue(x: i128, m: u64) -> u64
    requires { 0 < m }
    ensures value { result ≡ unsigned_abs (int_rem_euclid x (pos m)) }
    ensures below { result < m }
{
    x.rem_euclid(i128::from(m)) as u64
}

/// The numbers from `lo` to `hi` that are `x` modulo `m`; all of them where `m` is no step of a range.
fn stepped(lo: i128, hi: i128, m: u128, x: i128) -> Range
    requires lo_small { unsigned_abs lo ≤ 2 ^ 65 }
    requires hi_small { unsigned_abs hi ≤ 2 ^ 65 }
    ensures { result ≡ stepped lo hi m x }
{
    if m == 0 || m >= STEP_LIMIT {
        return Range { lo, hi, m: 1, r: 0 };
    }
    let m = m as u64;
    Range {
        lo,
        hi,
        m,
        r: residue(x, m),
    }
}

/// The numbers from `lo` to `hi` that are `x` modulo `m`, None where a bound is past 2^65.
fn ranged(lo: i128, hi: i128, m: u128, x: i128) -> Option<Range>
    ensures { result ≡ ranged lo hi m x }
{
    if lo.unsigned_abs() <= END && hi.unsigned_abs() <= END {
        Some(stepped(lo, hi, m, x))
    } else {
        None
    }
}

fn range_by(env: &Env, t: &Term) -> Option<Range>
    ensures { result ≡ range_of env.now t.now }
{
    let rest = remainder(t, env.ranges.as_slice());
    ranged(low_of(env, t), high_of(env, t), rest.0, rest.1)
}

/// The numbers that the form may be: between the bounds that its symbols' ranges give, or the closest
/// thresholds that are shown, with the remainder that the ranges give. None exactly where a bound is
/// past 2^65.
pub fn range_of(env: &Env, t: &Term) -> Option<Range>
    ensures exact { result ≡ range_of env.now t.now }
    ensures sound { Ranges env.now t.now result }
{
    range_by(env, t)
}
