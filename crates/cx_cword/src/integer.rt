ghost use Rattle.std.specs.Prelude.{◌≡◌, ◌<◌, ◌≤◌, ◌^◌, ◌+◌, ◌*◌, min, map, true, IsTrue, IsSome, IfSome};
ghost use Rattle.cx_cword.specs.Words.{look_up};
ghost use Rattle.cx_ctree.specs.Conversions as types;
ghost use Rattle.cx_cword.specs.Integers as spec;
ghost use Rattle.cx_cword.specs.Fronts.{Begins};

use crate::word::look_up;
use cx_base::CInt;

/// What the suffix of an integer constant says (C11 6.4.4.1).
#[derive(Clone, Copy, Debug, PartialEq, Eq)]
pub struct Suffix {
    pub unsigned: bool,
    pub long: bool,
}

const PLAIN: Suffix = Suffix {
    unsigned: false,
    long: false,
};

const U: Suffix = Suffix {
    unsigned: true,
    long: false,
};

const L: Suffix = Suffix {
    unsigned: false,
    long: true,
};

const UL: Suffix = Suffix {
    unsigned: true,
    long: true,
};

const SUFFIXES: [(&[u8], Suffix); 23] = [
    (b"", PLAIN),
    (b"u", U),
    (b"U", U),
    (b"l", L),
    (b"L", L),
    (b"ll", L),
    (b"LL", L),
    (b"ul", UL),
    (b"uL", UL),
    (b"Ul", UL),
    (b"UL", UL),
    (b"ull", UL),
    (b"uLL", UL),
    (b"Ull", UL),
    (b"ULL", UL),
    (b"lu", UL),
    (b"lU", UL),
    (b"Lu", UL),
    (b"LU", UL),
    (b"llu", UL),
    (b"llU", UL),
    (b"LLu", UL),
    (b"LLU", UL),
];

const TOO_BIG: u128 = 18446744073709551616;

#[tactic(auto, using(std::proofs::lemmas::Bool::Decides::nat_tests), unfolding(crate::specs::Integers::is_digit_of))]
pub fn is_digit_of(base: u8, b: u8) -> bool
    requires { base ≤ 16 }
    ensures { result ≡ spec.is_digit_of base b }
{
    b'0' <= b && b <= b'9' && b < b'0' + base
        || 10 < base && (b'a' <= b && b <= b'f' || b'A' <= b && b <= b'F')
}

#[tactic(auto, using(std::proofs::lemmas::Bool::Decides::nat_tests), unfolding(crate::specs::Integers::digit_value, crate::specs::Integers::is_digit_of))]
fn digit_value(base: u8, b: u8) -> u8
    requires { spec.is_digit_of base b ≡ true }
    ensures value { result ≡ spec.digit_value b }
    ensures low { result < 16 }
{
    if b <= b'9' {
        b - b'0'
    } else if b <= b'F' {
        b - b'A' + 10
    } else {
        b - b'a' + 10
    }
}

fn first(text: &[u8]) -> Option<(u8, &[u8])>
    ensures { Begins result text.now }
{
    match text {
        [] => None,
        [b, rest @ ..] => Some((*b, rest)),
    }
}

#[tactic(auto, using(crate::proofs::DigitLemmas::kept, crate::proofs::DigitLemmas::product))]
fn grown(base: u8, value: u128, digit: u8) -> u128
    requires base { (8 ≤ base) × (base ≤ 16) }
    requires small { value ≤ 2 ^ 64 * 16 + 16 }
    requires digit { digit < 16 }
    ensures value { min result (2 ^ 64) ≡ min (value * base + digit) (2 ^ 64) }
    ensures small { result ≤ 2 ^ 64 * 16 + 16 }
{
    if value < TOO_BIG {
        value * base as u128 + digit as u128
    } else {
        value
    }
}

/// The number that the digits at the front write, as far as it is below 2^64, and the text after
/// them. A number from 2^64 on is answered by one from 2^64 on.
#[tactic(auto, using(crate::proofs::DigitLemmas::next))]
pub fn digits(base: u8, text: &[u8]) -> (u128, &[u8])
    requires base { (8 ≤ base) × (base ≤ 16) }
    ensures value { min result.0 (2 ^ 64) ≡ min (spec.digits_of base 0 text.now).0 (2 ^ 64) }
    ensures rest { result.1.now ≡ (spec.digits_of base 0 text.now).1 }
{
    let mut value: u128 = 0;
    let mut rest = text;
    while let Some((b, after)) = first(rest) {
        if !is_digit_of(base, b) {
            break;
        }
        value = grown(base, value, digit_value(base, b));
        rest = after;
    }
    (value, rest)
}

#[tactic(auto, using(std::proofs::lemmas::Bool::Decides::nat_tests), unfolding(crate::specs::Integers::may_be_int))]
fn may_be_int(_decimal: bool, suffix: Suffix, v: u128) -> bool
    ensures value { result ≡ spec.may_be_int _decimal suffix v }
    ensures small { IsTrue result → v < 2 ^ 64 }
{
    !suffix.unsigned && !suffix.long && v < 2147483648
}

#[tactic(auto, using(std::proofs::lemmas::Bool::Decides::nat_tests), unfolding(crate::specs::Integers::may_be_unsigned_int))]
fn may_be_unsigned_int(decimal: bool, suffix: Suffix, v: u128) -> bool
    ensures value { result ≡ spec.may_be_unsigned_int decimal suffix v }
    ensures small { IsTrue result → v < 2 ^ 64 }
{
    (suffix.unsigned || !decimal) && !suffix.long && v < 4294967296
}

#[tactic(auto, using(std::proofs::lemmas::Bool::Decides::nat_tests), unfolding(crate::specs::Integers::may_be_long))]
fn may_be_long(_decimal: bool, suffix: Suffix, v: u128) -> bool
    ensures value { result ≡ spec.may_be_long _decimal suffix v }
    ensures small { IsTrue result → v < 2 ^ 64 }
{
    !suffix.unsigned && v < 9223372036854775808
}

#[tactic(auto, using(std::proofs::lemmas::Bool::Decides::nat_tests), unfolding(crate::specs::Integers::may_be_unsigned_long))]
fn may_be_unsigned_long(decimal: bool, suffix: Suffix, v: u128) -> bool
    ensures value { result ≡ spec.may_be_unsigned_long decimal suffix v }
    ensures small { IsTrue result → v < 2 ^ 64 }
{
    (suffix.unsigned || !decimal) && v < TOO_BIG
}

#[tactic(auto, using(cx_ctree::proofs::Numbers::number_same))]
pub fn signed_int() -> CInt
    ensures { result ≡ types.signed_int }
{
    CInt {
        size: 4,
        signed: true,
    }
}

#[tactic(auto, using(cx_ctree::proofs::Numbers::number_same))]
fn unsigned_int() -> CInt
    ensures { result ≡ types.unsigned_int }
{
    CInt {
        size: 4,
        signed: false,
    }
}

#[tactic(auto, using(cx_ctree::proofs::Numbers::number_same))]
fn signed_long() -> CInt
    ensures { result ≡ types.signed_long }
{
    CInt {
        size: 8,
        signed: true,
    }
}

#[tactic(auto, using(cx_ctree::proofs::Numbers::number_same))]
fn unsigned_long() -> CInt
    ensures { result ≡ types.unsigned_long }
{
    CInt {
        size: 8,
        signed: false,
    }
}

fn type_of_value(decimal: bool, suffix: Suffix, v: u128) -> Option<CInt>
    ensures value { result ≡ spec.type_of_value decimal suffix v }
    ensures small { IsSome result → v < 2 ^ 64 }
{
    if may_be_int(decimal, suffix, v) {
        Some(signed_int())
    } else if may_be_unsigned_int(decimal, suffix, v) {
        Some(unsigned_int())
    } else if may_be_long(decimal, suffix, v) {
        Some(signed_long())
    } else if may_be_unsigned_long(decimal, suffix, v) {
        Some(unsigned_long())
    } else {
        None
    }
}

fn suffix_of(text: &[u8]) -> Option<Suffix>
    ensures { result ≡ look_up spec.suffixes text.now }
{
    look_up(&SUFFIXES, text)
}

fn typed_by(decimal: bool, value: u128, suffix: Option<Suffix>) -> Option<(u128, CInt)>
    ensures value { result ≡ spec.typed_by decimal value suffix }
    ensures small { IfSome result (λ c. c.0 < 2 ^ 64) }
{
    match suffix {
        None => None,
        Some(suffix) => match type_of_value(decimal, suffix, value) {
            None => None,
            Some(ctype) => Some((value, ctype)),
        },
    }
}

fn constant_in(base: u8, text: &[u8]) -> Option<(u128, CInt)>
    requires base { (8 ≤ base) × (base ≤ 16) }
    ensures value { result ≡ spec.constant_in base text.now }
    ensures small { IfSome result (λ c. c.0 < 2 ^ 64) }
{
    let (value, rest) = digits(base, text);
    typed_by(base == 10, value, suffix_of(rest))
}

fn after_zero(text: &[u8]) -> Option<(u128, CInt)>
    ensures value { result ≡ spec.after_zero text.now }
    ensures small { IfSome result (λ c. c.0 < 2 ^ 64) }
{
    match text {
        [x, digits @ ..] => match digits {
            [d, ..] => {
                if (*x == b'x' || *x == b'X') && is_digit_of(16, *d) {
                    constant_in(16, digits)
                } else {
                    constant_in(8, text)
                }
            }
            [] => constant_in(8, text),
        },
        [] => constant_in(8, text),
    }
}

/// The value and the type of the integer constant that the text is, if it is one (C11 6.4.4.1).
pub fn int_of(text: &[u8]) -> Option<(u128, CInt)>
    ensures value { result ≡ spec.int_of text.now }
    ensures small { IfSome result (λ c. c.0 < 2 ^ 64) }
{
    match text {
        [b, rest @ ..] => {
            if *b == b'0' {
                after_zero(rest)
            } else if is_digit_of(10, *b) {
                constant_in(10, text)
            } else {
                None
            }
        }
        [] => None,
    }
}
