ghost use Rattle.std.specs.Prelude.{◌-◌, ◌≡◌, ◌<◌, ◌≤◌, ℕ, pos, ◌*◌, ◌/◌, ◌%◌, ◌+◌, ◌-ℤ◌, ◌*ℤ◌, ◌+ℤ◌, ◌≤ℤ◌, ◌<ℤ◌, ◌≢◌, ◌^◌, ℤ, unsigned_abs, MatchOption};
ghost use Rattle.std.specs.Int.{int_rem_euclid};
ghost use Rattle.cx_entail.specs.Ranges.{Congruent, first, IsRange};
ghost use Rattle.cx_entail.specs.Meets.{IsInverse, IsMultiple, IsLeastOfBoth, HaveNone, from, IsStep, IsMeet, met_span};
ghost use Rattle.cx_entail.specs.Joins.{lesser};

use crate::joining::{STEP_LIMIT, greater, lesser, residue_of};
use crate::range::{Range, distance};

/// 2^70, past which a step leaves every range.
const FAR: u128 = 1180591620717411303424;

/// One step: `s - q * t` modulo `b`.
fn less_times(s: u64, q: u64, t: u64, b: u64) -> u64
    requires positive { 0 < b }
    requires s_below { s < b }
    requires t_below { t < b }
    ensures value { Congruent b (pos result) (pos s -ℤ (pos q *ℤ pos t)) }
    ensures below { result < b }
{
    let product = u128::from(q) * u128::from(t) % u128::from(b);
    ((u128::from(s) + u128::from(b) - product) % u128::from(b)) as u64
}

/// The greatest common divisor, and a number that is it modulo `b` when it is multiplied by `a`.
fn inverse(a: u64, b: u64) -> (u64, u64)
    requires { 0 < b }
    ensures { IsInverse a b result.0 result.1 }
{
    let mut r = a;
    let mut n = b;
    let mut s = 1 % b;
    let mut t = 0;
    while n != 0 {
        let q = r / n;
        let rest = r % n;
        let next = less_times(s, q, t, b);
        r = n;
        n = rest;
        s = t;
        t = next;
    }
    (r, s)
}

fn part(d: i128, g: u64) -> i128
    requires { 0 < g }
    ensures { d ≡ (pos g *ℤ result) +ℤ int_rem_euclid d (pos g) }
{
    d.div_euclid(i128::from(g))
}

fn residue(z: i128, m: u64) -> u64
    requires { 0 < m }
    ensures value { pos result ≡ int_rem_euclid z (pos m) }
    ensures below { result < m }
{
    z.rem_euclid(i128::from(m)) as u64
}

fn product_mod(s: u64, n: u64, k: u64) -> u64
    requires { 0 < k }
    ensures value { result ≡ (s * n) % k }
    ensures below { result < k }
{
    (u128::from(s) * u128::from(n) % u128::from(k)) as u64
}

/// How often the step is to be taken, below `k`, where there is a way.
fn multiple(d: i128, g: u64, s: u64, k: u64) -> Option<u64>
    requires g_positive { 0 < g }
    requires k_positive { 0 < k }
    ensures { MatchOption result ((e : ℤ) → d ≢ (pos g *ℤ e)) (λ t. IsMultiple d g s k t) }
{
    if residue(d, g) != 0 {
        return None;
    }
    Some(product_mod(s, residue(part(d, g), k), k))
}

/// `x` and `t` steps of `m`, where that is at most `hi`.
fn stepped_to(x: i128, m: u64, t: u64, hi: i128) -> Option<i128>
    requires x_small { unsigned_abs x ≤ 2 ^ 66 }
    requires hi_small { unsigned_abs hi ≤ 2 ^ 65 }
    ensures { MatchOption result (hi <ℤ (x +ℤ (pos m *ℤ pos t))) (λ v. (v ≡ x +ℤ (pos m *ℤ pos t)) × (v ≤ℤ hi)) }
{
    let far = u128::from(m) * u128::from(t);
    if far > FAR {
        return None;
    }
    let v = x + far as i128;
    if v <= hi { Some(v) } else { None }
}

fn from(range: &Range, lo: i128) -> i128
    requires small { unsigned_abs lo ≤ 2 ^ 65 }
    ensures value { result ≡ first (from lo range.now) }
    ensures small { unsigned_abs result ≤ 2 ^ 66 }
{
    let cut = Range {
        lo,
        hi: range.hi,
        m: range.m,
        r: range.r,
    };
    cut.first()
}

/// The greatest common divisor, the number of `inverse`, and how often the divisor goes into `b`.
fn steps(a: u64, b: u64) -> (u64, u64, u64)
    requires { 0 < b }
    ensures inverse { IsInverse a b result.0 result.1 }
    ensures positive { 0 < result.0 }
    ensures whole { result.0 * result.2 ≡ b }
    ensures k_positive { 0 < result.2 }
{
    let (g, s) = inverse(a, b);
    (g, s, b / g)
}

fn minus(y: i128, x: i128) -> i128
    requires y_small { unsigned_abs y ≤ 2 ^ 66 }
    requires x_small { unsigned_abs x ≤ 2 ^ 66 }
    ensures { result ≡ y -ℤ x }
{
    y - x
}

/// The least number in both ranges.
fn least_common(a: &Range, b: &Range) -> Option<i128>
    ensures { MatchOption result (HaveNone a.now b.now) (IsLeastOfBoth a.now b.now) }
{
    a.known();
    b.known();
    let lo = greater(a.lo, b.lo);
    let hi = lesser(a.hi, b.hi);
    let x = from(a, lo);
    let y = from(b, lo);
    let (g, s, k) = steps(a.m, b.m);
    match multiple(minus(y, x), g, s, k) {
        Some(t) => stepped_to(x, a.m, t, hi),
        None => None,
    }
}

/// The step between the common numbers of both, the least common multiple of their moduli.
fn step_of(a: &Range, b: &Range) -> u128
    ensures { IsStep a.now b.now result }
{
    a.known();
    b.known();
    let (_g, _s, k) = steps(a.m, b.m);
    u128::from(a.m) * u128::from(k)
}

/// The lesser of the upper bounds.
fn top_of(a: &Range, b: &Range) -> i128
    ensures value { result ≡ lesser a.now.hi b.now.hi }
    ensures small { unsigned_abs result ≤ 2 ^ 65 }
{
    lesser(a.hi, b.hi)
}

/// The last number up to `hi` in steps of `n` from `v` on.
fn last_step(v: i128, n: u128, hi: i128) -> i128
    requires positive { 0 < n }
    requires v_small { unsigned_abs v ≤ 2 ^ 65 }
    requires hi_small { unsigned_abs hi ≤ 2 ^ 65 }
    requires order { v ≤ℤ hi }
    ensures value { result ≡ v +ℤ pos (unsigned_abs (hi -ℤ v) - unsigned_abs (hi -ℤ v) % n) }
    ensures small { unsigned_abs result ≤ 2 ^ 65 }
{
    let d = distance(hi, v);
    v + (d - d % n) as i128
}

/// The numbers from `v` to `hi` in steps of `n`, where that is a step of a range, else in those of `a`.
fn met_range(a: &Range, v: i128, hi: i128, n: u128) -> Range
    requires positive { 0 < n }
    requires v_small { unsigned_abs v ≤ 2 ^ 65 }
    requires hi_small { unsigned_abs hi ≤ 2 ^ 65 }
    ensures { result ≡ met_span a.now v hi n }
{
    if n < STEP_LIMIT {
        let m = n as u64;
        Range {
            lo: v,
            hi,
            m,
            r: residue_of(v, m),
        }
    } else {
        Range {
            lo: v,
            hi,
            m: a.m,
            r: a.r,
        }
    }
}

/// The range of the common numbers, of which `v` is the least.
fn met(a: &Range, b: &Range, v: i128) -> Range
    requires { IsLeastOfBoth a.now b.now v }
    ensures { IsMeet a.now b.now result }
{
    a.known();
    let n = step_of(a, b);
    let hi = last_step(v, n, top_of(a, b));
    met_range(a, v, hi, n)
}

impl Range {
    /// The common numbers of both ranges, None exactly where there is none. The ends are the least and the greatest common
    /// number. Where the least common multiple of the moduli is below 2^64 the range has no other number; else it keeps this
    /// range's modulus and remainder.
    pub fn meet(&self, o: &Range) -> Option<Range>
        ensures { MatchOption result (HaveNone self.now o.now) (IsMeet self.now o.now) }
    {
        match least_common(self, o) {
            Some(v) => Some(met(self, o, v)),
            None => None,
        }
    }
}
