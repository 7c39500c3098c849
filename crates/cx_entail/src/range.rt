ghost use Rattle.std.specs.Prelude.{◌≡◌, ◌<◌, ◌≤◌, ◌^◌, ℤ, pos, ◌-ℤ◌, ◌≤ℤ◌, unsigned_abs};
ghost use Rattle.std.specs.Int.{int_rem_euclid};
ghost use Rattle.cx_entail.specs.Ranges.{Span, IsRange, Has, first, last, low, high, has_any, stride, IsLow, IsHigh};

use std::marker::Model;

/// The numbers from `lo` to `hi` that are congruent to `r` modulo `m`. `m` is at least 1, `r` is below `m`, and the bounds lie
/// between -2^65 and 2^65, ends included. Contracts see a `Span`.
#[derive(Clone, Copy, Debug, PartialEq)]
pub struct Range {
    pub lo: i128,
    pub hi: i128,
    pub m: u64,
    pub r: u64,
}

impl Model for Range {
    ghost use Rattle.cx_entail.specs.Ranges.{Span, IsRange};

    ghost Value = { Span };

    ghost view = { λ a. record { lo = a.lo; hi = a.hi; m = a.m; r = a.r } };

    ghost invariant = { λ a. IsRange (record { lo = a.lo; hi = a.hi; m = a.m; r = a.r }) };

    ghost inverse = { λ a. record { lo = a.lo; hi = a.hi; m = a.m; r = a.r } };
}

pub(crate) fn rem(z: i128, m: u64) -> i128
    requires positive { 0 < m }
    ensures value { result ≡ int_rem_euclid z (pos m) }
    ensures least { pos 0 ≤ℤ result }
    ensures below { unsigned_abs result < m }
    ensures small { unsigned_abs result < 2 ^ 64 }
{
    z.rem_euclid(i128::from(m))
}

pub(crate) fn distance(a: i128, b: i128) -> u128
    requires a_small { unsigned_abs a ≤ 2 ^ 66 }
    requires b_small { unsigned_abs b ≤ 2 ^ 66 }
    ensures { result ≡ unsigned_abs (a -ℤ b) }
{
    a.abs_diff(b)
}

impl Range {
    /// Tells a caller's proof that the range keeps the limits of a `Range`.
    pub fn known(&self)
        ensures { IsRange self.now }
    {
        let _lo = self.lo;
    }

    pub(crate) fn first(&self) -> i128
        ensures value { result ≡ first self.now }
        ensures from { self.now.lo ≤ℤ result }
    {
        self.lo + rem(i128::from(self.r) - self.lo, self.m)
    }

    fn last(&self) -> i128
        ensures value { result ≡ last self.now }
        ensures up_to { result ≤ℤ self.now.hi }
    {
        self.hi - rem(self.hi - i128::from(self.r), self.m)
    }

    pub(crate) fn low_by(&self) -> i128
        ensures value { result ≡ low self.now }
        ensures small { unsigned_abs result ≤ 2 ^ 65 }
    {
        let first = self.first();
        if first <= self.hi { first } else { self.lo }
    }

    pub(crate) fn high_by(&self) -> i128
        ensures value { result ≡ high self.now }
        ensures small { unsigned_abs result ≤ 2 ^ 65 }
    {
        let last = self.last();
        if self.lo <= last { last } else { self.hi }
    }

    /// The least number of the range, or `lo` where it has none.
    pub fn low(&self) -> i128
        ensures value { result ≡ low self.now }
        ensures least { IsLow self.now result }
    {
        self.low_by()
    }

    /// The greatest number of the range, or `hi` where it has none.
    pub fn high(&self) -> i128
        ensures value { result ≡ high self.now }
        ensures greatest { IsHigh self.now result }
    {
        self.high_by()
    }

    pub(crate) fn has_any(&self) -> bool
        ensures { result ≡ has_any self.now }
    {
        self.first() <= self.hi
    }

    pub(crate) fn stride(&self) -> u64
        ensures { result ≡ stride self.now }
    {
        if distance(self.low_by(), self.high_by()) == 0 {
            0
        } else {
            self.m
        }
    }
}
