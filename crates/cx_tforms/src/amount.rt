ghost use Rattle.std.specs.Prelude.{◌≡◌, ◌<◌, ◌^◌, ◌-ℤ◌, pos, Some, None, MatchOption, false};
ghost use Rattle.cx_tnumber.specs.Numbers as number;
ghost use Rattle.cx_tforms.specs.Terms as spec;
ghost use Rattle.cx_tforms.specs.Amounts.{amount};

use cx_tnumber::Sums;

/// What is asked to be a term, by the sums of its numbers and of the factors of each symbol.
#[derive(Clone, Copy)]
pub enum Amounts<'a> {
    /// A linear form.
    Form(&'a Sums),
    /// The first form less the second.
    Difference(&'a Sums, &'a Sums),
    /// The first form less the second and less 1.
    OneLess(&'a Sums, &'a Sums),
}

// None only where the difference is past all limits.
fn difference(a: i128, b: i128) -> Option<i128>
    ensures { MatchOption result (spec.is_small (2 ^ 100) (a -ℤ b) ≡ false) (λ d. d ≡ a -ℤ b) }
{
    a.checked_sub(b)
}

fn is_small(limit: u128, a: i128) -> bool
    ensures { result ≡ spec.is_small limit a }
{
    a.unsigned_abs() <= limit
}

fn is_small_difference(limit: u128, a: i128, b: i128) -> bool
    requires { limit < 2 ^ 99 }
    ensures { result ≡ spec.is_small limit (a -ℤ b) }
{
    match difference(a, b) {
        Some(d) => is_small(limit, d),
        None => false,
    }
}

fn is_small_one_less(limit: u128, a: i128, b: i128) -> bool
    requires { limit < 2 ^ 99 }
    ensures { result ≡ spec.is_small limit ((a -ℤ b) -ℤ pos 1) }
{
    match difference(a, b) {
        Some(d) => is_small_difference(limit, d, 1),
        None => false,
    }
}

/// Whether the number is at most 2^96, without its sign.
pub fn number_is_small(a: &Amounts) -> bool
    ensures { result ≡ spec.is_small (2 ^ 96) (amount a.now None) }
{
    let limit = 1 << 96;
    match a {
        Amounts::Form(first) => is_small(limit, first.number()),
        Amounts::Difference(first, second) => {
            is_small_difference(limit, first.number(), second.number())
        }
        Amounts::OneLess(first, second) => {
            is_small_one_less(limit, first.number(), second.number())
        }
    }
}

/// Whether the factor of the symbol is at most 2^32, without its sign.
pub fn factor_is_small(a: &Amounts, text: &[u8]) -> bool
    ensures { result ≡ spec.is_small (2 ^ 32) (amount a.now (Some text.now)) }
{
    let limit = 1 << 32;
    match a {
        Amounts::Form(first) => is_small(limit, first.of(text)),
        Amounts::Difference(first, second) | Amounts::OneLess(first, second) => {
            is_small_difference(limit, first.of(text), second.of(text))
        }
    }
}

/// Whether nothing is left of the symbol.
pub fn is_gone(a: &Amounts, text: &[u8]) -> bool
    ensures { result ≡ number.is_zero (amount a.now (Some text.now)) }
{
    match a {
        Amounts::Form(first) => first.is_gone(text),
        Amounts::Difference(first, second) | Amounts::OneLess(first, second) => {
            is_zero_difference(first.of(text), second.of(text))
        }
    }
}

fn is_zero_difference(a: i128, b: i128) -> bool
    ensures { result ≡ number.is_zero (a -ℤ b) }
{
    match difference(a, b) {
        Some(d) => d == 0,
        None => false,
    }
}
