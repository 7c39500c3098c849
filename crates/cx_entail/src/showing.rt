ghost use Rattle.std.specs.Prelude.{◌≡◌, ◌≢◌, ◌<◌, ◌≤◌, ◌≤ℤ◌, ◌^◌, ℤ, pos, ◌-ℤ◌, unsigned_abs, IsTrue};
ghost use Rattle.std.specs.Int.{int_rem_euclid};
ghost use Rattle.std.specs.List.{list_any, AllByRecursion};
ghost use Rattle.cx_term.specs.Forms.{value};
ghost use Rattle.cx_entail.specs.Shows.{passes, slack, rounded, less_multiple, passes_less, passes_known, shown_none, shown_once, shown_twice, shown, Follows, same_form, is_listed_by, listed, leaves_rest, less_one, minus_less_one, minus, shown_nonzero};

use crate::bounding::{at_lows, least, modulus};
use crate::multiples::{all_factors, less_multiple};
use crate::range::Range;
use cx_term::{Ineq, Term};

/// From `c` up to the next number that is `m - 1` modulo `m`.
fn to_top(m: u128, c: i128) -> i128
    requires positive { 1 < m }
    requires small { m ≤ 2 ^ 96 }
    ensures { result ≡ (pos m -ℤ pos 1) -ℤ int_rem_euclid c (pos m) }
{
    let m = m as i128;
    m - 1 - c.rem_euclid(m)
}

/// What can be added to a number that is `c` modulo `m`, so that it is at least 0 only where it was.
fn slack(m: u128, c: i128) -> i128
    requires { m ≤ 2 ^ 96 }
    ensures { result ≡ slack m c }
{
    if m > 1 { to_top(m, c) } else { 0 }
}

/// The form, rounded up by its remainder.
fn rounded(ranges: &[Range], t: &Term) -> Option<Term>
    ensures { result ≡ rounded ranges.now t.now }
{
    t.plus_number(slack(modulus(ranges, t), at_lows(ranges, t)))
}

fn shown_none(ranges: &[Range], t: &Term) -> bool
    ensures { result ≡ shown_none ranges.now t.now }
{
    least(ranges, t) >= 0
}

fn once_among(ranges: &[Range], f: &Term, g: &Term, ks: &[(u64, u64)]) -> bool
    requires first { AllByRecursion (λ k. k.0 ≤ 2 ^ 32) ks.now }
    requires second { AllByRecursion (λ k. k.1 ≤ 2 ^ 32) ks.now }
    ensures { result ≡ list_any (λ k. passes (shown_none ranges.now) (less_multiple f.now g.now k)) ks.now }
{
    for k in ks {
        if let Some(less) = less_multiple(f, g, *k) {
            if shown_none(ranges, &less) {
                return true;
            }
        }
    }
    false
}

fn once_by(ranges: &[Range], f: &Term, c: &Ineq) -> bool
    ensures { result ≡ passes_less (shown_none ranges.now) f.now c.now }
{
    match c {
        Ineq::Ge(g) => once_among(ranges, f, g, all_factors(f, g).as_slice()),
        Ineq::Ne(_) => false,
    }
}

fn once_less(known: &[Ineq], ranges: &[Range], f: &Term) -> bool
    ensures { result ≡ passes_known (shown_none ranges.now) known.now f.now }
{
    for c in known {
        if once_by(ranges, f, c) {
            return true;
        }
    }
    false
}

/// Whether the form is shown to be at least 0 in one step.
fn shown_once(known: &[Ineq], ranges: &[Range], t: &Term) -> bool
    ensures { result ≡ shown_once known.now ranges.now t.now }
{
    if shown_none(ranges, t) {
        return true;
    }
    match rounded(ranges, t) {
        Some(f) => once_less(known, ranges, &f),
        None => false,
    }
}

fn twice_among(known: &[Ineq], ranges: &[Range], f: &Term, g: &Term, ks: &[(u64, u64)]) -> bool
    requires first { AllByRecursion (λ k. k.0 ≤ 2 ^ 32) ks.now }
    requires second { AllByRecursion (λ k. k.1 ≤ 2 ^ 32) ks.now }
    ensures { result ≡ list_any (λ k. passes (shown_once known.now ranges.now) (less_multiple f.now g.now k)) ks.now }
{
    for k in ks {
        if let Some(less) = less_multiple(f, g, *k) {
            if shown_once(known, ranges, &less) {
                return true;
            }
        }
    }
    false
}

fn twice_by(known: &[Ineq], ranges: &[Range], f: &Term, c: &Ineq) -> bool
    ensures { result ≡ passes_less (shown_once known.now ranges.now) f.now c.now }
{
    match c {
        Ineq::Ge(g) => twice_among(known, ranges, f, g, all_factors(f, g).as_slice()),
        Ineq::Ne(_) => false,
    }
}

fn twice_less(known: &[Ineq], ranges: &[Range], f: &Term) -> bool
    ensures { result ≡ passes_known (shown_once known.now ranges.now) known.now f.now }
{
    for c in known {
        if twice_by(known, ranges, f, c) {
            return true;
        }
    }
    false
}

/// In two steps.
fn shown_twice(known: &[Ineq], ranges: &[Range], t: &Term) -> bool
    ensures { result ≡ shown_twice known.now ranges.now t.now }
{
    if shown_none(ranges, t) {
        return true;
    }
    match rounded(ranges, t) {
        Some(f) => twice_less(known, ranges, &f),
        None => false,
    }
}

fn thrice_among(known: &[Ineq], ranges: &[Range], f: &Term, g: &Term, ks: &[(u64, u64)]) -> bool
    requires first { AllByRecursion (λ k. k.0 ≤ 2 ^ 32) ks.now }
    requires second { AllByRecursion (λ k. k.1 ≤ 2 ^ 32) ks.now }
    ensures { result ≡ list_any (λ k. passes (shown_twice known.now ranges.now) (less_multiple f.now g.now k)) ks.now }
{
    for k in ks {
        if let Some(less) = less_multiple(f, g, *k) {
            if shown_twice(known, ranges, &less) {
                return true;
            }
        }
    }
    false
}

fn thrice_by(known: &[Ineq], ranges: &[Range], f: &Term, c: &Ineq) -> bool
    ensures { result ≡ passes_less (shown_twice known.now ranges.now) f.now c.now }
{
    match c {
        Ineq::Ge(g) => thrice_among(known, ranges, f, g, all_factors(f, g).as_slice()),
        Ineq::Ne(_) => false,
    }
}

fn thrice_less(known: &[Ineq], ranges: &[Range], f: &Term) -> bool
    ensures { result ≡ passes_known (shown_twice known.now ranges.now) known.now f.now }
{
    for c in known {
        if thrice_by(known, ranges, f, c) {
            return true;
        }
    }
    false
}

/// In three steps.
fn shown_thrice(known: &[Ineq], ranges: &[Range], t: &Term) -> bool
    ensures { result ≡ shown known.now ranges.now t.now }
{
    if shown_none(ranges, t) {
        return true;
    }
    match rounded(ranges, t) {
        Some(f) => thrice_less(known, ranges, &f),
        None => false,
    }
}

/// Whether the form is shown to be at least 0, in three steps. It is shown by the ranges; or, rounded up by its remainder, by a
/// known form: the least multiples of the two that agree in a symbol are taken, and their difference is shown. A symbol past the
/// end of `ranges` is 0.
pub fn shows(known: &[Ineq], ranges: &[Range], t: &Term) -> bool
    ensures exact { result ≡ shown known.now ranges.now t.now }
    ensures sound { IsTrue result → Follows known.now ranges.now (λ v. pos 0 ≤ℤ value v t.now) }
{
    shown_thrice(known, ranges, t)
}

fn passes(known: &[Ineq], ranges: &[Range], t: Option<Term>) -> bool
    ensures { result ≡ passes (shown known.now ranges.now) t }
{
    match t {
        Some(t) => shown_thrice(known, ranges, &t),
        None => false,
    }
}

fn same_form(a: &Term, b: &Term) -> bool
    ensures { result ≡ same_form a.now b.now }
{
    a.same(b)
}

fn is_listed_by(t: &Term, c: &Ineq) -> bool
    ensures { result ≡ is_listed_by t.now c.now }
{
    match c {
        Ineq::Ge(_) => false,
        Ineq::Ne(g) => same_form(g, t),
    }
}

/// Whether it is among the known conditions that the form is not 0.
fn listed(known: &[Ineq], t: &Term) -> bool
    ensures { result ≡ listed known.now t.now }
{
    for c in known {
        if is_listed_by(t, c) {
            return true;
        }
    }
    false
}

fn listed_too(known: &[Ineq], t: Option<Term>) -> bool
    ensures { result ≡ passes (listed known.now) t }
{
    match t {
        Some(t) => listed(known, &t),
        None => false,
    }
}

/// Whether a number that is `c` modulo `m` is never 0.
fn leaves_rest(m: u128, c: i128) -> bool
    ensures { result ≡ leaves_rest m c }
{
    m > 0 && c.unsigned_abs() % m != 0
}

fn less_one(t: &Term) -> Option<Term>
    ensures { result ≡ less_one t.now }
{
    match Term::constant(1) {
        Some(one) => t.sub(&one),
        None => None,
    }
}

fn minus_less_one(t: &Term) -> Option<Term>
    ensures { result ≡ minus_less_one t.now }
{
    match Term::constant(-1) {
        Some(one) => one.sub(t),
        None => None,
    }
}

fn minus(t: &Term) -> Option<Term>
    ensures { result ≡ minus t.now }
{
    Term::zero().sub(t)
}

/// Whether the form is shown not to be 0: it is shown to be above 0 or below 0, or by its remainder, or it or its negative is
/// listed. A symbol past the end of `ranges` is 0.
pub fn shows_nonzero(known: &[Ineq], ranges: &[Range], t: &Term) -> bool
    ensures exact { result ≡ shown_nonzero known.now ranges.now t.now }
    ensures sound { IsTrue result → Follows known.now ranges.now (λ v. value v t.now ≢ pos 0) }
{
    nonzero_by(known, ranges, t)
}

fn nonzero_by(known: &[Ineq], ranges: &[Range], t: &Term) -> bool
    ensures { result ≡ shown_nonzero known.now ranges.now t.now }
{
    passes(known, ranges, less_one(t))
        || passes(known, ranges, minus_less_one(t))
        || leaves_rest(modulus(ranges, t), at_lows(ranges, t))
        || listed(known, t)
        || listed_too(known, minus(t))
}
