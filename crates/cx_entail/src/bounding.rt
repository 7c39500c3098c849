ghost use Rattle.std.specs.Prelude.{◌≡◌, ◌≤◌, ◌^◌, ℕ, ℤ, ◌+ℤ◌, ◌*ℤ◌, ◌*◌, unsigned_abs, length};
ghost use Rattle.cx_term.specs.Sums.{AreUpTo};
ghost use Rattle.cx_entail.specs.Ranges.{Span, IsRange, low, high, stride};
ghost use Rattle.cx_entail.specs.Joins.{gcd};
ghost use Rattle.cx_entail.specs.Bounds.{range_at, least_end, least_parts, least, most_end, most_parts, most, lows_parts, at_lows, modulus_with, modulus, LiesBetween, LeavesRemainder};

use crate::joining::gcd;
use crate::range::Range;
use cx_term::Term;

fn range_at(ranges: &[Range], s: u32) -> Range
    ensures value { result ≡ range_at ranges.now s }
    ensures valid { IsRange result }
{
    let range = match ranges.get(s as usize) {
        Some(range) => *range,
        None => Range {
            lo: 0,
            hi: 0,
            m: 1,
            r: 0,
        },
    };
    range.known();
    range
}

/// The end of the symbol's range at which the part is least.
fn least_end(ranges: &[Range], p: (u32, i64)) -> i128
    ensures value { result ≡ least_end ranges.now p }
    ensures small { unsigned_abs result ≤ 2 ^ 66 }
{
    let range = range_at(ranges, p.0);
    if p.1 >= 0 {
        range.low_by()
    } else {
        range.high_by()
    }
}

/// The end of the symbol's range at which the part is greatest.
fn most_end(ranges: &[Range], p: (u32, i64)) -> i128
    ensures value { result ≡ most_end ranges.now p }
    ensures small { unsigned_abs result ≤ 2 ^ 66 }
{
    let range = range_at(ranges, p.0);
    if p.1 >= 0 {
        range.high_by()
    } else {
        range.low_by()
    }
}

fn low_end(ranges: &[Range], s: u32) -> i128
    ensures value { result ≡ low (range_at ranges.now s) }
    ensures small { unsigned_abs result ≤ 2 ^ 66 }
{
    range_at(ranges, s).low_by()
}

fn product(c: i64, end: i128) -> i128
    requires coefficient { unsigned_abs c ≤ 2 ^ 32 }
    requires end { unsigned_abs end ≤ 2 ^ 66 }
    ensures value { result ≡ c *ℤ end }
    ensures small { unsigned_abs result ≤ 2 ^ 98 }
{
    i128::from(c) * end
}

fn least_part(ranges: &[Range], p: (u32, i64)) -> i128
    requires { unsigned_abs p.1 ≤ 2 ^ 32 }
    ensures value { result ≡ p.1 *ℤ least_end ranges.now p }
    ensures small { unsigned_abs result ≤ 2 ^ 98 }
{
    product(p.1, least_end(ranges, p))
}

fn most_part(ranges: &[Range], p: (u32, i64)) -> i128
    requires { unsigned_abs p.1 ≤ 2 ^ 32 }
    ensures value { result ≡ p.1 *ℤ most_end ranges.now p }
    ensures small { unsigned_abs result ≤ 2 ^ 98 }
{
    product(p.1, most_end(ranges, p))
}

fn low_part(ranges: &[Range], p: (u32, i64)) -> i128
    requires { unsigned_abs p.1 ≤ 2 ^ 32 }
    ensures value { result ≡ p.1 *ℤ low (range_at ranges.now p.0) }
    ensures small { unsigned_abs result ≤ 2 ^ 98 }
{
    product(p.1, low_end(ranges, p.0))
}

fn least_parts(ranges: &[Range], parts: &[(u32, i64)]) -> i128
    requires few { length parts.now ≤ 4 }
    requires up_to { AreUpTo (2 ^ 32) parts.now }
    ensures value { result ≡ least_parts ranges.now parts.now }
    ensures small { unsigned_abs result ≤ 2 ^ 100 }
{
    let mut sum = 0;
    for p in parts {
        sum += least_part(ranges, *p);
    }
    sum
}

fn most_parts(ranges: &[Range], parts: &[(u32, i64)]) -> i128
    requires few { length parts.now ≤ 4 }
    requires up_to { AreUpTo (2 ^ 32) parts.now }
    ensures value { result ≡ most_parts ranges.now parts.now }
    ensures small { unsigned_abs result ≤ 2 ^ 100 }
{
    let mut sum = 0;
    for p in parts {
        sum += most_part(ranges, *p);
    }
    sum
}

fn lows_parts(ranges: &[Range], parts: &[(u32, i64)]) -> i128
    requires few { length parts.now ≤ 4 }
    requires up_to { AreUpTo (2 ^ 32) parts.now }
    ensures value { result ≡ lows_parts ranges.now parts.now }
    ensures small { unsigned_abs result ≤ 2 ^ 100 }
{
    let mut sum = 0;
    for p in parts {
        sum += low_part(ranges, *p);
    }
    sum
}

/// The least value of the form over the ranges.
pub(crate) fn least(ranges: &[Range], t: &Term) -> i128
    ensures { result ≡ least ranges.now t.now }
{
    t.known();
    t.konst() + least_parts(ranges, t.parts())
}

/// The greatest value of the form over the ranges.
fn most(ranges: &[Range], t: &Term) -> i128
    ensures { result ≡ most ranges.now t.now }
{
    t.known();
    t.konst() + most_parts(ranges, t.parts())
}

/// The form's value where each symbol is at the low of its range.
pub(crate) fn at_lows(ranges: &[Range], t: &Term) -> i128
    ensures { result ≡ at_lows ranges.now t.now }
{
    t.known();
    t.konst() + lows_parts(ranges, t.parts())
}

/// The coefficient's size times the symbol's stride.
fn stride_part(ranges: &[Range], p: (u32, i64)) -> u128
    requires { unsigned_abs p.1 ≤ 2 ^ 32 }
    ensures value { result ≡ unsigned_abs p.1 * stride (range_at ranges.now p.0) }
    ensures small { result ≤ 2 ^ 96 }
{
    u128::from(p.1.unsigned_abs()) * u128::from(range_at(ranges, p.0).stride())
}

/// The greatest common divisor of two small numbers.
fn common(m: u128, n: u128) -> u128
    requires first { m ≤ 2 ^ 96 }
    requires second { n ≤ 2 ^ 96 }
    ensures value { result ≡ gcd m n }
    ensures small { result ≤ 2 ^ 96 }
{
    gcd(m, n)
}

fn modulus_parts(ranges: &[Range], parts: &[(u32, i64)]) -> u128
    requires { AreUpTo (2 ^ 32) parts.now }
    ensures value { result ≡ modulus_with ranges.now 0 parts.now }
    ensures small { result ≤ 2 ^ 96 }
{
    let mut m = 0;
    for p in parts {
        m = common(m, stride_part(ranges, *p));
    }
    m
}

/// What all values of the form over the ranges are congruent by.
pub(crate) fn modulus(ranges: &[Range], t: &Term) -> u128
    ensures value { result ≡ modulus ranges.now t.now }
    ensures small { result ≤ 2 ^ 96 }
{
    t.known();
    modulus_parts(ranges, t.parts())
}

/// The least and the greatest value of the form, where each symbol's value is in its range. A symbol past the end of `ranges`
/// is 0.
pub fn bounds(t: &Term, ranges: &[Range]) -> (i128, i128)
    ensures least { result.0 ≡ least ranges.now t.now }
    ensures most { result.1 ≡ most ranges.now t.now }
    ensures sound { LiesBetween ranges.now t.now result.0 result.1 }
{
    (least(ranges, t), most(ranges, t))
}

/// A modulus and a number to which each value of the form is congruent, where each symbol's value is in its range: the greatest
/// common divisor of the coefficients' sizes times the strides, and the value at the lows. The modulus 0 says that the value is
/// that number.
pub fn remainder(t: &Term, ranges: &[Range]) -> (u128, i128)
    ensures modulus { result.0 ≡ modulus ranges.now t.now }
    ensures rest { result.1 ≡ at_lows ranges.now t.now }
    ensures sound { LeavesRemainder ranges.now t.now result.0 result.1 }
{
    (modulus(ranges, t), at_lows(ranges, t))
}
