//! The ranges of symbols where a form is at least 0.

ghost use Rattle.std.specs.Prelude.{◌≡◌, ◌<◌, ◌≤◌, ◌^◌, pos, negsuc, neg_ℤ, ◌≤ℤ◌, unsigned_abs, slice_set};
ghost use Rattle.std.specs.Int.{int_div_euclid};
ghost use Rattle.cx_entail.specs.Bounds.{range_at, most};
ghost use Rattle.cx_entail.specs.Ranges.{low, high};
ghost use Rattle.cx_learn.specs.Learning.{raised, lowered, others, reach, bounded_by, bounded, all_bounded};

use cx_base::List;
use cx_entail::{Range, bounds};
use cx_term::Term;

/// Past the bounds of every range, 2^66.
const FAR: i128 = 73786976294838206464;

/// The range of the symbol `s`: a symbol past the end of the list is 0.
pub(crate) fn range_at(ranges: &[Range], s: u32) -> Range
    ensures { result ≡ range_at ranges.now s }
{
    match ranges.get(s as usize) {
        Some(range) => *range,
        None => Range {
            lo: 0,
            hi: 0,
            m: 1,
            r: 0,
        },
    }
}

/// The least number of the range, small enough to be moved.
pub(crate) fn low_of(r: Range) -> i128
    ensures value { result ≡ low r }
    ensures small { unsigned_abs result ≤ 2 ^ 65 }
{
    r.known();
    r.low()
}

/// The greatest number of the range, small enough to be moved.
pub(crate) fn high_of(r: Range) -> i128
    ensures value { result ≡ high r }
    ensures small { unsigned_abs result ≤ 2 ^ 65 }
{
    r.known();
    r.high()
}

/// The range from `z` on, where that is above its lower bound and leaves a number.
fn raised(z: i128, r: Range) -> Range
    ensures { result ≡ raised z r }
{
    r.known();
    if r.lo < z && z <= high_of(r) {
        return Range {
            lo: z,
            hi: r.hi,
            m: r.m,
            r: r.r,
        };
    }
    r
}

fn minus(q: i128) -> i128
    requires { negsuc (2 ^ 66) ≤ℤ q }
    ensures { result ≡ neg_ℤ q }
{
    -q
}

/// The range from `-q` on, where that is above its lower bound and leaves a number.
fn raised_from(q: i128, r: Range) -> Range
    ensures { result ≡ raised (neg_ℤ q) r }
{
    r.known();
    if q < -FAR {
        return r;
    }
    raised(minus(q), r)
}

/// The range up to `z`, where that is below its upper bound and leaves a number.
fn lowered(z: i128, r: Range) -> Range
    ensures { result ≡ lowered z r }
{
    r.known();
    if z < r.hi && low_of(r) <= z {
        return Range {
            lo: r.lo,
            hi: z,
            m: r.m,
            r: r.r,
        };
    }
    r
}

/// The form without the part.
fn others(t: &Term, p: (u32, i64)) -> Option<Term>
    ensures { result ≡ others t.now p }
{
    t.plus_times(-i128::from(p.1), &Term::symbol(p.0))
}

fn greatest(ranges: &[Range], t: &Term) -> i128
    ensures { result ≡ most ranges.now t.now }
{
    let ends = bounds(t, ranges);
    ends.1
}

/// The quotient by the size of the coefficient, rounded down.
fn divided(z: i128, k: i64) -> i128
    requires { 0 < unsigned_abs k }
    ensures { result ≡ int_div_euclid z (pos (unsigned_abs k)) }
{
    z.div_euclid(i128::from(k.unsigned_abs()))
}

fn reach(ranges: &[Range], rest: &Term, p: (u32, i64)) -> i128
    requires { 0 < unsigned_abs p.1 }
    ensures { result ≡ reach ranges.now rest.now p }
{
    divided(greatest(ranges, rest), p.1)
}

fn bounded_by(ranges: &[Range], rest: Option<Term>, p: (u32, i64)) -> Range
    ensures { result ≡ bounded_by ranges.now rest p }
{
    let range = range_at(ranges, p.0);
    match rest {
        Some(rest) => {
            if p.1 > 0 {
                raised_from(reach(ranges, &rest, p), range)
            } else if p.1 < 0 {
                lowered(reach(ranges, &rest, p), range)
            } else {
                range
            }
        }
        None => range,
    }
}

/// The range of the part's symbol, with the bound that it has where the form is at least 0.
fn bounded(ranges: &[Range], t: &Term, p: (u32, i64)) -> Range
    ensures { result ≡ bounded ranges.now t.now p }
{
    bounded_by(ranges, others(t, p), p)
}

/// Puts the range of the symbol, where it has a place.
pub(crate) fn put_range(ranges: &mut List<Range>, s: u32, range: Range)
    ensures { ranges.new ≡ slice_set ranges.old s range }
{
    if (s as usize) < ranges.len() {
        let _old = ranges.set(s as usize, range);
    }
}

/// Bounds each symbol of the form in order, where the form is at least 0.
pub(crate) fn bound_all(ranges: &mut List<Range>, t: &Term)
    ensures { ranges.new ≡ all_bounded t.now t.now.parts ranges.old }
{
    for p in t.parts() {
        let range = bounded(ranges.as_slice(), t, *p);
        put_range(ranges, p.0, range);
    }
}
