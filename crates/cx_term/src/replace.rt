ghost use Rattle.std.specs.Prelude.{◌≡◌, ◌≤◌, ◌^◌, ℤ, pos, [], unsigned_abs, ◌+ℤ◌, ◌*ℤ◌, length, nat_le, MatchOption, true, false};
ghost use Rattle.cx_term.specs.Forms.{IsTerm, parts_within};
ghost use Rattle.cx_term.specs.Sums.{AreUpTo};
ghost use Rattle.cx_term.specs.Replaced.{form_at, replaced_konst, replaced_parts};

use crate::parts::{Parts, WideParts, add_times, narrow};
use crate::term::{Term, times_konst};
use arrayvec::ArrayVec;

/// 2^64, at which a constant is cut in two, so that no product passes 128 bits.
pub(crate) const CUT: i128 = 18446744073709551616;

/// The form at `s`, the number 0 past the end.
fn form_at(forms: &[Term], s: u32) -> Term
    ensures form { result ≡ form_at forms.now s }
    ensures known { IsTerm result }
{
    let form = match forms.get(s as usize) {
        Some(t) => t.copy(),
        None => Term::zero(),
    };
    form.known();
    form
}

/// The number cut in two: it is the first and 2^64 times the second.
fn halves(z: i128) -> (i128, i128)
    requires { unsigned_abs z ≤ 2 ^ 96 }
    ensures value { z ≡ result.0 +ℤ result.1 *ℤ pos (2 ^ 64) }
    ensures low_small { unsigned_abs result.0 ≤ 2 ^ 64 }
    ensures high_small { unsigned_abs result.1 ≤ 2 ^ 33 }
{
    (z.rem_euclid(CUT), z.div_euclid(CUT))
}

fn product(c: i64, z: i128) -> i128
    requires coefficient { unsigned_abs c ≤ 2 ^ 32 }
    requires half { unsigned_abs z ≤ 2 ^ 64 }
    ensures value { result ≡ c *ℤ z }
    ensures small { unsigned_abs result ≤ 2 ^ 96 }
{
    i128::from(c) * z
}

/// `c` times the number, cut in two.
pub(crate) fn halves_times(c: i64, z: i128) -> (i128, i128)
    requires coefficient { unsigned_abs c ≤ 2 ^ 32 }
    requires small { unsigned_abs z ≤ 2 ^ 96 }
    ensures value { c *ℤ z ≡ result.0 +ℤ result.1 *ℤ pos (2 ^ 64) }
    ensures low_small { unsigned_abs result.0 ≤ 2 ^ 96 }
    ensures high_small { unsigned_abs result.1 ≤ 2 ^ 96 }
{
    let (low, high) = halves(z);
    (product(c, low), product(c, high))
}

/// The constant of the replaced form, cut in two.
fn replaced_konst(konst: i128, parts: &[(u32, i64)], forms: &[Term]) -> (i128, i128)
    requires konst_small { unsigned_abs konst ≤ 2 ^ 96 }
    requires few { length parts.now ≤ 4 }
    requires small { AreUpTo (2 ^ 32) parts.now }
    ensures value { result.0 +ℤ result.1 *ℤ pos (2 ^ 64) ≡ replaced_konst forms.now parts.now konst }
    ensures low_small { unsigned_abs result.0 ≤ 2 ^ 100 }
{
    let (mut low, mut high) = halves(konst);
    for p in parts {
        let (more_low, more_high) = halves_times(p.1, form_at(forms, p.0).konst());
        low += more_low;
        high += more_high;
    }
    (low, high)
}

/// The parts of the replaced form.
fn replaced_parts(parts: &[(u32, i64)], forms: &[Term]) -> WideParts
    requires few { length parts.now ≤ 4 }
    requires small { AreUpTo (2 ^ 32) parts.now }
    ensures { result.items ≡ replaced_parts forms.now parts.now [] }
{
    let mut wide = ArrayVec::new();
    for p in parts {
        add_times(&mut wide, i128::from(p.1), form_at(forms, p.0).parts());
    }
    wide
}

/// The constant of the replaced form, where that is within the limit of a constant.
pub(crate) fn put_konst(konst: i128, parts: &[(u32, i64)], forms: &[Term]) -> Option<i128>
    requires konst_small { unsigned_abs konst ≤ 2 ^ 96 }
    requires within { parts_within parts.now ≡ true }
    ensures { MatchOption result (nat_le (unsigned_abs (replaced_konst forms.now parts.now konst)) (2 ^ 96) ≡ false)
        (λ r. (nat_le (unsigned_abs (replaced_konst forms.now parts.now konst)) (2 ^ 96) ≡ true) × (r ≡ replaced_konst forms.now parts.now konst)) }
{
    let (low, high) = replaced_konst(konst, parts, forms);
    times_konst(low, high, CUT)
}

/// The parts of the replaced form, where they are within the limits of a `Term`.
pub(crate) fn put_parts(parts: &[(u32, i64)], forms: &[Term]) -> Option<Parts>
    requires within { parts_within parts.now ≡ true }
    ensures { MatchOption result (parts_within (replaced_parts forms.now parts.now []) ≡ false)
        (λ r. (parts_within (replaced_parts forms.now parts.now []) ≡ true) × (r.items ≡ replaced_parts forms.now parts.now [])) }
{
    narrow(replaced_parts(parts, forms).as_slice())
}
