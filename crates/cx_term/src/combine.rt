ghost use Rattle.std.specs.Prelude.{◌≡◌, ◌≤◌, ◌^◌, ℤ, pos, [], unsigned_abs, ◌+ℤ◌, ◌*ℤ◌, length, nat_le, MatchOption, true, false};
ghost use Rattle.cx_term.specs.Forms.{parts_within};
ghost use Rattle.cx_term.specs.Sums.{with_parts, AreUpTo};

use crate::parts::{Parts, WideParts, add_times, narrow};
use crate::replace::{CUT, halves_times};
use crate::term::times_konst;
use arrayvec::ArrayVec;

/// `c`, `k` times `a` and `m` times `b`, cut in two.
fn combined_halves(k: i64, a: i128, m: i64, b: i128, c: i128) -> (i128, i128)
    requires first { unsigned_abs k ≤ 2 ^ 32 }
    requires second { unsigned_abs m ≤ 2 ^ 32 }
    requires number { unsigned_abs c ≤ 2 ^ 32 }
    requires first_konst { unsigned_abs a ≤ 2 ^ 96 }
    requires second_konst { unsigned_abs b ≤ 2 ^ 96 }
    ensures value { result.0 +ℤ result.1 *ℤ pos (2 ^ 64) ≡ (c +ℤ k *ℤ a) +ℤ m *ℤ b }
    ensures low_small { unsigned_abs result.0 ≤ 2 ^ 100 }
{
    let (low, high) = halves_times(k, a);
    let (more_low, more_high) = halves_times(m, b);
    (c + low + more_low, high + more_high)
}

/// The constant of the combination, where that is within the limit of a constant.
pub(crate) fn combined_konst(k: i64, a: i128, m: i64, b: i128, c: i128) -> Option<i128>
    requires first { unsigned_abs k ≤ 2 ^ 32 }
    requires second { unsigned_abs m ≤ 2 ^ 32 }
    requires number { unsigned_abs c ≤ 2 ^ 32 }
    requires first_konst { unsigned_abs a ≤ 2 ^ 96 }
    requires second_konst { unsigned_abs b ≤ 2 ^ 96 }
    ensures { MatchOption result (nat_le (unsigned_abs ((c +ℤ k *ℤ a) +ℤ m *ℤ b)) (2 ^ 96) ≡ false)
        (λ r. (nat_le (unsigned_abs ((c +ℤ k *ℤ a) +ℤ m *ℤ b)) (2 ^ 96) ≡ true) × (r ≡ (c +ℤ k *ℤ a) +ℤ m *ℤ b)) }
{
    let (low, high) = combined_halves(k, a, m, b, c);
    times_konst(low, high, CUT)
}

/// `k` times the first parts and `m` times the second.
fn combined_wide(k: i64, a: &[(u32, i64)], m: i64, b: &[(u32, i64)]) -> WideParts
    requires first { unsigned_abs k ≤ 2 ^ 32 }
    requires second { unsigned_abs m ≤ 2 ^ 32 }
    requires first_few { length a.now ≤ 4 }
    requires second_few { length b.now ≤ 4 }
    requires first_small { AreUpTo (2 ^ 32) a.now }
    requires second_small { AreUpTo (2 ^ 32) b.now }
    ensures { result.items ≡ with_parts m b.now (with_parts k a.now []) }
{
    let mut wide = ArrayVec::new();
    add_times(&mut wide, i128::from(k), a);
    add_times(&mut wide, i128::from(m), b);
    wide
}

/// The parts of the combination, where they are within the limits of a `Term`.
pub(crate) fn combined_parts(k: i64, a: &[(u32, i64)], m: i64, b: &[(u32, i64)]) -> Option<Parts>
    requires first { unsigned_abs k ≤ 2 ^ 32 }
    requires second { unsigned_abs m ≤ 2 ^ 32 }
    requires first_within { parts_within a.now ≡ true }
    requires second_within { parts_within b.now ≡ true }
    ensures { MatchOption result (parts_within (with_parts m b.now (with_parts k a.now [])) ≡ false)
        (λ r. (parts_within (with_parts m b.now (with_parts k a.now [])) ≡ true) × (r.items ≡ with_parts m b.now (with_parts k a.now []))) }
{
    narrow(combined_wide(k, a, m, b).as_slice())
}
