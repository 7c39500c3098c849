ghost use Rattle.std.specs.Int.{int_rem_euclid};
ghost use Rattle.std.specs.Prelude.{ℤ, ◌≡◌, ◌↔◌, ◌*◌, ◌^◌, nat_abs, ◌≤ℤ◌, ◌<ℤ◌, pos, IsTrue};
ghost use Rattle.cx_base.specs.Number.{HasSize, InRange, Congruent, wrapped, half_of};

/// An integer type of C as the System V AMD64 ABI has it (3.1.2): its size in bytes, which is 1, 2,
/// 4 or 8, and whether it has a sign. `long` and `long long` are the same type here, and plain
/// `char` is signed.
#[derive(Clone, Copy, Debug, PartialEq, Eq)]
pub struct CInt {
    pub size: u8,
    pub signed: bool,
    ghost known: { HasSize size },
}

/// Half of the number of values of the type.
fn half(t: CInt) -> i128
    ensures value { result ≡ pos (half_of t.size) }
    ensures positive { pos 0 <ℤ result }
    ensures small { result ≤ℤ pos 9223372036854775808 }
{
    match t.size {
        1 => 128,
        2 => 32768,
        4 => 2147483648,
        _ => 9223372036854775808,
    }
}

/// The number of values of the type.
#[tactic(auto, using(crate::proofs::Sizes::two_halves))]
fn modulus(t: CInt) -> i128
    ensures value { result ≡ pos (2 * half_of t.size) }
    ensures power { result ≡ pos (2 ^ (8 * t.size)) }
    ensures positive { pos 0 <ℤ result }
    ensures small { result ≤ℤ pos 18446744073709551616 }
{
    2 * half(t)
}

/// Whether the type's range has the number (C11 6.2.6.2).
pub fn fits(t: CInt, v: i128) -> bool
    ensures { IsTrue result ↔ InRange t.size t.signed v }
{
    if t.signed {
        let half = half(t);
        -half <= v && v < half
    } else {
        0 <= v && v < modulus(t)
    }
}

/// The number that the low bytes of `v` write, as many as the type has.
pub(crate) fn low_part(t: CInt, v: i128) -> u64
    ensures { result ≡ nat_abs (int_rem_euclid v (pos (2 ^ (8 * t.size)))) }
{
    v.rem_euclid(modulus(t)) as u64
}

/// The number of the type's range that differs from `v` by a multiple of the number of its values.
fn wrapped(t: CInt, v: i128) -> i128
    ensures { result ≡ wrapped t.size t.signed v }
{
    let low = v.rem_euclid(modulus(t));
    if t.signed && low >= half(t) {
        low - modulus(t)
    } else {
        low
    }
}

/// The only number of the type's range that is congruent to `v` modulo 2^(8 * size): a conversion to
/// the type (C11 6.3.1.3), where a signed type wraps as an unsigned one does.
#[tactic(auto, using(crate::proofs::Wrapping::wrap_laws))]
pub fn wrap(t: CInt, v: i128) -> i128
    ensures range { InRange t.size t.signed result }
    ensures congruent { Congruent t.size result v }
    ensures only { (u : ℤ) → InRange t.size t.signed u → Congruent t.size u v → u ≡ result }
    ensures value { result ≡ wrapped t.size t.signed v }
{
    wrapped(t, v)
}
