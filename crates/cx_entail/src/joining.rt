ghost use Rattle.std.specs.Prelude.{◌≡◌, ◌<◌, ◌≤◌, ◌^◌, ℤ, pos, ◌-ℤ◌, neg_ℤ, unsigned_abs};
ghost use Rattle.std.specs.Int.{int_rem_euclid};
ghost use Rattle.cx_entail.specs.Ranges.{Span, IsRange};
ghost use Rattle.cx_entail.specs.Joins.{gcd, lesser, greater, stepped, joined, join_of, greatest_up_to, least_from, widened_low, widened_high, widen_of, AreEnds, HasBoth};

use crate::range::{Range, distance, rem};

/// The largest absolute value of a bound, 2^65.
const END: i128 = 36893488147419103232;

/// 2^64. A step is below it.
pub(crate) const STEP_LIMIT: u128 = 18446744073709551616;

pub(crate) fn lesser(a: i128, b: i128) -> i128
    requires a_small { unsigned_abs a ≤ 2 ^ 65 }
    requires b_small { unsigned_abs b ≤ 2 ^ 65 }
    ensures value { result ≡ lesser a b }
    ensures small { unsigned_abs result ≤ 2 ^ 65 }
{
    if a <= b { a } else { b }
}

pub(crate) fn greater(a: i128, b: i128) -> i128
    requires a_small { unsigned_abs a ≤ 2 ^ 65 }
    requires b_small { unsigned_abs b ≤ 2 ^ 65 }
    ensures value { result ≡ greater a b }
    ensures small { unsigned_abs result ≤ 2 ^ 65 }
{
    if a <= b { b } else { a }
}

/// The greatest common divisor.
pub(crate) fn gcd(a: u128, b: u128) -> u128
    ensures { result ≡ gcd a b }
{
    let mut x = a;
    let mut y = b;
    while y != 0 {
        let next = x % y;
        x = y;
        y = next;
    }
    x
}

pub(crate) fn residue_of(x: i128, g: u64) -> u64
    requires { 0 < g }
    ensures value { result ≡ unsigned_abs (int_rem_euclid x (pos g)) }
    ensures below { result < g }
{
    rem(x, g) as u64
}

/// The numbers from `lo` to `hi` that are `x` modulo `g`, all of them where `g` is no step of a range.
fn stepped(lo: i128, hi: i128, g: u128, x: i128) -> Range
    requires lo_small { unsigned_abs lo ≤ 2 ^ 65 }
    requires hi_small { unsigned_abs hi ≤ 2 ^ 65 }
    ensures { result ≡ stepped lo hi g x }
{
    if g == 0 || g >= STEP_LIMIT {
        return Range { lo, hi, m: 1, r: 0 };
    }
    let m = g as u64;
    Range {
        lo,
        hi,
        m,
        r: residue_of(x, m),
    }
}

fn joined(a: &Range, b: &Range) -> Range
    ensures { result ≡ joined a.now b.now }
{
    let low = a.low_by();
    let other = b.low_by();
    let steps = gcd(u128::from(a.stride()), u128::from(b.stride()));
    let g = gcd(steps, distance(low, other));
    stepped(
        lesser(low, other),
        greater(a.high_by(), b.high_by()),
        g,
        low,
    )
}

fn join_by(a: &Range, b: &Range) -> Range
    ensures { result ≡ join_of a.now b.now }
{
    if !a.has_any() {
        return *b;
    }
    if !b.has_any() {
        return *a;
    }
    joined(a, b)
}

/// The greatest threshold up to `z`, or -2^65 where there is none.
fn threshold_up_to(z: i128, thresholds: &[i128]) -> i128
    requires { AreEnds thresholds.now }
    ensures value { result ≡ greatest_up_to z thresholds.now (neg_ℤ (pos (2 ^ 65))) }
    ensures small { unsigned_abs result ≤ 2 ^ 65 }
{
    let mut best = -END;
    for t in thresholds {
        if *t <= z && best <= *t {
            best = *t;
        }
    }
    best
}

/// The least threshold from `z` on, or 2^65 where there is none.
fn threshold_from(z: i128, thresholds: &[i128]) -> i128
    requires { AreEnds thresholds.now }
    ensures value { result ≡ least_from z thresholds.now (pos (2 ^ 65)) }
    ensures small { unsigned_abs result ≤ 2 ^ 65 }
{
    let mut best = END;
    for t in thresholds {
        if z <= *t && *t <= best {
            best = *t;
        }
    }
    best
}

fn widened_low(a: &Range, b: &Range, thresholds: &[i128]) -> i128
    requires { AreEnds thresholds.now }
    ensures value { result ≡ widened_low a.now b.now thresholds.now }
    ensures small { unsigned_abs result ≤ 2 ^ 65 }
{
    let low = a.low_by();
    let other = b.low_by();
    if low <= other {
        low
    } else {
        threshold_up_to(other, thresholds)
    }
}

fn widened_high(a: &Range, b: &Range, thresholds: &[i128]) -> i128
    requires { AreEnds thresholds.now }
    ensures value { result ≡ widened_high a.now b.now thresholds.now }
    ensures small { unsigned_abs result ≤ 2 ^ 65 }
{
    let high = a.high_by();
    let other = b.high_by();
    if other <= high {
        high
    } else {
        threshold_from(other, thresholds)
    }
}

fn widen_by(a: &Range, b: &Range, thresholds: &[i128]) -> Range
    requires { AreEnds thresholds.now }
    ensures { result ≡ widen_of a.now b.now thresholds.now }
{
    let joined = join_by(a, b);
    joined.known();
    Range {
        lo: widened_low(a, b, thresholds),
        hi: widened_high(a, b, thresholds),
        m: joined.m,
        r: joined.r,
    }
}

impl Range {
    /// A range that has the numbers of both: from the least to the greatest, in the greatest common step. Where one of them has
    /// no number it is the other.
    pub fn join(&self, o: &Range) -> Range
        ensures exact { result ≡ join_of self.now o.now }
        ensures sound { HasBoth self.now o.now result }
    {
        join_by(self, o)
    }

    /// The join, whose ends stay this range's where the other's lie within them, and else go out to the next of `thresholds`,
    /// past all of them to -2^65 or 2^65.
    pub fn widen(&self, o: &Range, thresholds: &[i128]) -> Range
        requires { AreEnds thresholds.now }
        ensures exact { result ≡ widen_of self.now o.now thresholds.now }
        ensures sound { HasBoth self.now o.now result }
    {
        o.known();
        widen_by(self, o, thresholds)
    }
}
