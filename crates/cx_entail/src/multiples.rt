ghost use Rattle.std.specs.Prelude.{◌≡◌, ◌<◌, ◌≤◌, ◌^◌, ◌/◌, ℤ, pos, neg_ℤ, ◌-ℤ◌, [], unsigned_abs, IfSome};
ghost use Rattle.std.specs.List.{list_any, AllByRecursion};
ghost use Rattle.arrayvec.specs.ArrayVec.{array_vec_len};
ghost use Rattle.cx_term.specs.Forms.{value, fit};
ghost use Rattle.cx_term.specs.Sums.{AreUpTo, combined};
ghost use Rattle.cx_entail.specs.Joins.{gcd};
ghost use Rattle.cx_entail.specs.Shows.{one_sign, divided, factors, same_factors, with_new, all_factors, less_multiple};

use crate::joining::gcd;
use arrayvec::ArrayVec;
use cx_term::Term;

/// Pairs of factors, each once: that of a form, and that of another.
pub(crate) type Factors = ArrayVec<(u64, u64), 4>;

fn one_sign(a: i64, b: i64) -> bool
    ensures { result ≡ one_sign a b }
{
    (a >= 1 && b >= 1) || (a <= -1 && b <= -1)
}

/// The greatest common divisor.
fn common(p: u64, q: u64) -> u64
    requires { 0 < p }
    ensures value { result ≡ gcd p q }
    ensures positive { 0 < result }
{
    gcd(u128::from(p), u128::from(q)) as u64
}

/// The least numbers above 0 that make `p` and `q` equal.
fn divided(p: u64, q: u64) -> (u64, u64)
    requires { 0 < p }
    ensures { result ≡ divided p q }
{
    let d = common(p, q);
    (q / d, p / d)
}

/// The least factors above 0 that make the coefficients equal.
fn factors(p: i64, q: i64) -> Option<(u64, u64)>
    ensures { result ≡ factors p q }
{
    if one_sign(p, q) {
        Some(divided(p.unsigned_abs(), q.unsigned_abs()))
    } else {
        None
    }
}

fn is_same(a: (u64, u64), b: (u64, u64)) -> bool
    ensures { result ≡ same_factors a b }
{
    a.0 == b.0 && a.1 == b.1
}

fn is_in(found: &[(u64, u64)], k: (u64, u64)) -> bool
    ensures { result ≡ list_any (same_factors k) found.now }
{
    for f in found {
        if is_same(k, *f) {
            return true;
        }
    }
    false
}

/// Adds the factors, where they are new.
fn add_new(found: &mut Factors, k: Option<(u64, u64)>)
    requires { array_vec_len found.old < 4 }
    ensures { found.new.items ≡ with_new k found.old.items }
{
    match k {
        Some(k) => {
            if !is_in(found.as_slice(), k) {
                found.push(k);
            }
        }
        None => {}
    }
}

/// The factors for each symbol of the first form that the other has too.
pub(crate) fn all_factors(t: &Term, g: &Term) -> Factors
    ensures value { result.items ≡ all_factors g.now.parts t.now.parts [] }
    ensures first { AllByRecursion (λ k. k.0 ≤ 2 ^ 32) result.items }
    ensures second { AllByRecursion (λ k. k.1 ≤ 2 ^ 32) result.items }
{
    t.known();
    g.known();
    each_factors(t, g)
}

fn each_factors(t: &Term, g: &Term) -> Factors
    ensures { result.items ≡ all_factors g.now.parts t.now.parts [] }
{
    t.known();
    let mut found = ArrayVec::new();
    for p in t.parts() {
        add_new(&mut found, factors(p.1, g.coefficient(p.0)));
    }
    found
}

fn factor(k: u64) -> i64
    requires { k ≤ 2 ^ 32 }
    ensures value { result ≡ pos k }
    ensures small { unsigned_abs result ≤ 2 ^ 32 }
{
    k as i64
}

fn minus_factor(k: u64) -> i64
    requires { k ≤ 2 ^ 32 }
    ensures value { result ≡ neg_ℤ (pos k) }
    ensures small { unsigned_abs result ≤ 2 ^ 32 }
{
    -(k as i64)
}

fn less_one_of(k: u64) -> i128
    requires { k ≤ 2 ^ 32 }
    ensures value { result ≡ pos k -ℤ pos 1 }
    ensures small { unsigned_abs result ≤ 2 ^ 32 }
{
    i128::from(k) - 1
}

/// `k.0` times the form, less `k.1` times the other, and `k.0 - 1`.
pub(crate) fn less_multiple(f: &Term, g: &Term, k: (u64, u64)) -> Option<Term>
    requires first { k.0 ≤ 2 ^ 32 }
    requires second { k.1 ≤ 2 ^ 32 }
    ensures { result ≡ less_multiple f.now g.now k }
{
    f.combined(factor(k.0), minus_factor(k.1), g, less_one_of(k.0))
}
