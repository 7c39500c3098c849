ghost use Rattle.std.specs.Prelude.{◌≡◌, ◌≢◌, ◌<◌, ◌*◌, ◌^◌, ℤ, pos, nat_abs, ◌≤ℤ◌, ◌<ℤ◌, ◌+ℤ◌, ◌-ℤ◌, ◌*ℤ◌, int_div, int_rem, int_lt, int_le, bit_and, bit_or, bit_xor, ◌&&◌, IsTrue, IsFalse, if◌then◌else◌};
ghost use Rattle.std.specs.Int.{int_div_euclid, int_wrap};
ghost use mir.Syntax.{w128};
ghost use Rattle.cx_cconst.specs.Word.{IsWord, overflowing};
ghost use Rattle.std.specs.Ordering.{int_eq};
ghost use Rattle.cx_base.specs.Number.{InRange};
ghost use Rattle.cx_ctree.specs.Conversions as types;
ghost use Rattle.cx_cconst.specs.Constants as spec;

use crate::conversion::unsigned_long;
use cx_base::{CInt, wrap};
use cx_ctree::{Binary, Unary};

/// The number that tells the truth (C11 6.5.8).
pub fn truth(holds: bool) -> i128
    ensures { result ≡ spec.truth holds }
{
    if holds { 1 } else { 0 }
}

pub fn is_zero(v: i128) -> bool
    ensures { result ≡ int_eq v (pos 0) }
{
    v == 0
}

pub fn wide(v: u64) -> i128
    ensures { result ≡ pos v }
{
    v as i128
}

fn is_less(x: i128, y: i128) -> bool
    ensures { result ≡ int_lt x y }
{
    x < y
}

fn is_at_most(x: i128, y: i128) -> bool
    ensures { result ≡ int_le x y }
{
    x <= y
}

fn is_same(x: i128, y: i128) -> bool
    ensures { result ≡ int_eq x y }
{
    x == y
}

#[tactic(auto, using(std::proofs::lemmas::Int::wraps))]
fn plus(x: i128, y: i128) -> i128
    ensures { result ≡ int_wrap w128 (x +ℤ y) }
{
    x.wrapping_add(y)
}

#[tactic(auto, using(std::proofs::lemmas::Int::wraps))]
fn minus(x: i128, y: i128) -> i128
    ensures { result ≡ int_wrap w128 (x -ℤ y) }
{
    x.wrapping_sub(y)
}

#[tactic(auto, using(std::proofs::lemmas::Int::wraps))]
fn times(x: i128, y: i128) -> i128
    ensures { result ≡ int_wrap w128 (x *ℤ y) }
{
    x.wrapping_mul(y)
}

// Whether the quotient is no number of 128 bits.
fn overflows(x: i128, y: i128) -> bool
    ensures { result ≡ overflowing x y }
{
    is_same(x, i128::MIN) && is_same(y, -1)
}

#[tactic(auto, using(crate::proofs::Ranges::quotient_fits, crate::proofs::Ranges::nonzero_bits))]
fn quotient(x: i128, y: i128) -> i128
    requires small { IsFalse (overflowing x y) }
    requires divisor { y ≢ pos 0 }
    ensures { result ≡ int_div x y }
{
    x / y
}

#[tactic(auto, using(crate::proofs::Ranges::quotient_fits, crate::proofs::Ranges::nonzero_bits))]
fn rest(x: i128, y: i128) -> i128
    requires small { IsFalse (overflowing x y) }
    requires divisor { y ≢ pos 0 }
    ensures { result ≡ int_rem x y }
{
    x % y
}

/// The number in the type (C11 6.3.1.3).
#[tactic(auto, using(crate::proofs::Ranges::in_word))]
pub fn convert(t: CInt, v: i128) -> i128
    ensures value { result ≡ spec.converted t v }
    ensures word { IsWord result }
{
    wrap(t, v)
}

/// The sum in the type.
pub fn sum(t: CInt, x: i128, y: i128) -> i128
    ensures { result ≡ spec.converted t (x +ℤ y) }
{
    convert(t, plus(x, y))
}

/// The difference in the type.
pub fn difference(t: CInt, x: i128, y: i128) -> i128
    ensures value { result ≡ spec.converted t (x -ℤ y) }
    ensures word { IsWord result }
{
    convert(t, minus(x, y))
}

fn product(t: CInt, x: i128, y: i128) -> i128
    ensures { result ≡ spec.converted t (x *ℤ y) }
{
    convert(t, times(x, y))
}

#[tactic(auto, using(crate::proofs::Ranges::in_word, crate::proofs::Ranges::unsigned_bits))]
fn bits(t: CInt, v: i128) -> u64
    ensures { result ≡ spec.bits t v }
{
    let unsigned = CInt {
        size: t.size,
        signed: false,
    };
    wrap(unsigned, v) as u64
}

// A quotient, or what comes with it, where the type has the quotient (C11 6.5.5).
#[tactic(auto, using(crate::proofs::Ranges::not_held))]
fn divided(t: CInt, x: i128, y: i128, whole: bool) -> Option<i128>
    ensures { result ≡ spec.divided t x y (if whole then int_div x y else int_rem x y) }
{
    if is_zero(y) {
        return None;
    }
    if overflows(x, y) {
        return None;
    }
    let of_both = quotient(x, y);
    if !is_same(convert(t, of_both), of_both) {
        return None;
    }
    Some(if whole { of_both } else { rest(x, y) })
}

#[tactic(auto, using(crate::proofs::Ranges::power_fits))]
fn power(count: i128) -> i128
    requires { (pos 0 ≤ℤ count) × (count <ℤ pos 64) }
    ensures value { result ≡ pos (2 ^ nat_abs count) }
    ensures positive { pos 0 <ℤ result }
{
    2i128.pow(count as u32)
}

// Whether values of the type may be shifted by so many bits (C11 6.5.7).
fn may_count(t: CInt, count: i128) -> bool
    ensures value { result ≡ (int_le (pos 0) count && int_lt count (pos (8 * t.size))) }
    ensures small { IsTrue result → (pos 0 ≤ℤ count) × (count <ℤ pos 64) }
{
    is_at_most(0, count) && is_less(count, 8 * t.size as i128)
}

fn shifted_left(t: CInt, x: i128, count: i128) -> Option<i128>
    ensures { result ≡ spec.counted_shift t count (x *ℤ pos (2 ^ nat_abs count)) }
{
    if may_count(t, count) {
        Some(product(t, x, power(count)))
    } else {
        None
    }
}

fn shifted_right(t: CInt, x: i128, count: i128) -> Option<i128>
    ensures { result ≡ spec.counted_shift t count (int_div_euclid x (pos (2 ^ nat_abs count))) }
{
    if may_count(t, count) {
        Some(convert(t, x.div_euclid(power(count))))
    } else {
        None
    }
}

fn both_bits(t: CInt, x: i128, y: i128) -> i128
    ensures { result ≡ spec.converted t (pos (bit_and (spec.bits t x) (spec.bits t y))) }
{
    convert(t, wide(bits(t, x) & bits(t, y)))
}

fn other_bits(t: CInt, x: i128, y: i128) -> i128
    ensures { result ≡ spec.converted t (pos (bit_xor (spec.bits t x) (spec.bits t y))) }
{
    convert(t, wide(bits(t, x) ^ bits(t, y)))
}

fn all_bits(t: CInt, x: i128, y: i128) -> i128
    ensures { result ≡ spec.converted t (pos (bit_or (spec.bits t x) (spec.bits t y))) }
{
    convert(t, wide(bits(t, x) | bits(t, y)))
}

/// What the operator gives for two numbers of the type, of which the second is the count of a shift.
pub fn operated(op: Binary, t: CInt, x: i128, y: i128) -> Option<i128>
    ensures { result ≡ spec.operated op t x y }
{
    match op {
        Binary::Mul => Some(product(t, x, y)),
        Binary::Div => divided(t, x, y, true),
        Binary::Rem => divided(t, x, y, false),
        Binary::Add => Some(sum(t, x, y)),
        Binary::Sub => Some(difference(t, x, y)),
        Binary::Shl => shifted_left(t, x, y),
        Binary::Shr => shifted_right(t, x, y),
        Binary::Lt => Some(truth(is_less(x, y))),
        Binary::Gt => Some(truth(is_less(y, x))),
        Binary::Le => Some(truth(is_at_most(x, y))),
        Binary::Ge => Some(truth(is_at_most(y, x))),
        Binary::Eq => Some(truth(is_same(x, y))),
        Binary::Ne => Some(truth(!is_same(x, y))),
        Binary::BitAnd => Some(both_bits(t, x, y)),
        Binary::BitXor => Some(other_bits(t, x, y)),
        Binary::BitOr => Some(all_bits(t, x, y)),
        Binary::And => Some(truth(!is_zero(x) && !is_zero(y))),
        Binary::Or => Some(truth(!is_zero(x) || !is_zero(y))),
    }
}

/// What the operator gives for a number of the type (C11 6.5.3.3).
pub fn unary_value(op: Unary, t: CInt, v: i128) -> i128
    ensures { result ≡ spec.unary_value op t v }
{
    match op {
        Unary::Plus => convert(t, v),
        Unary::Neg => difference(t, 0, convert(t, v)),
        Unary::Compl => difference(t, -1, convert(t, v)),
        Unary::Not => truth(is_zero(v)),
    }
}

/// The pointer moved on by so many units of this size (C11 6.5.6).
pub fn moved_on(p: i128, i: i128, size: u64) -> i128
    ensures { result ≡ spec.converted types.unsigned_long (p +ℤ i *ℤ pos size) }
{
    sum(unsigned_long(), p, times(i, wide(size)))
}

/// The pointer moved back by so many units of this size (C11 6.5.6).
pub fn moved_back(p: i128, i: i128, size: u64) -> i128
    ensures { result ≡ spec.converted types.unsigned_long (p +ℤ (pos 0 -ℤ i) *ℤ pos size) }
{
    sum(unsigned_long(), p, times(minus(0, i), wide(size)))
}

/// The pointer moved by so many units of this size, on or back (C11 6.5.6).
pub fn moved(unit: Option<u64>, p: i128, i: i128, on: bool) -> Option<i128>
    ensures { result ≡ spec.moved unit p (if on then i else (pos 0 -ℤ i)) }
{
    let size = unit?;
    Some(if on {
        moved_on(p, i, size)
    } else {
        moved_back(p, i, size)
    })
}
