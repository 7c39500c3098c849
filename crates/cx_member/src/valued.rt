ghost use Rattle.std.specs.Prelude.{◌≡◌, ◌≤◌, ◌^◌, ◌*ℤ◌, ◌↔◌, IsTrue, length, unsigned_abs};
ghost use Rattle.std.specs.List.{AllByRecursion};
ghost use Rattle.cx_term.specs.Forms.{value, value_parts};
ghost use Rattle.cx_term.specs.Sums.{AreUpTo};
ghost use Rattle.cx_term.specs.Conditions.{Holds};
ghost use Rattle.cx_cells.specs.Values.{values_of, all_values};
ghost use Rattle.cx_member.specs.Reading.{AreSmall};

use cx_term::{Ineq, Term};

/// The value of the symbol `s`, 0 past the end.
fn value_at(values: &[i128], s: u32) -> i128
    requires { AreSmall values.now }
    ensures value { result ≡ values_of values.now s }
    ensures small { unsigned_abs result ≤ 2 ^ 64 }
{
    match values.get(s as usize) {
        Some(z) => *z,
        None => 0,
    }
}

fn product(c: i64, z: i128) -> i128
    requires coefficient { unsigned_abs c ≤ 2 ^ 32 }
    requires value { unsigned_abs z ≤ 2 ^ 64 }
    ensures value { result ≡ c *ℤ z }
    ensures small { unsigned_abs result ≤ 2 ^ 96 }
{
    i128::from(c) * z
}

fn part_value(values: &[i128], p: (u32, i64)) -> i128
    requires values { AreSmall values.now }
    requires coefficient { unsigned_abs p.1 ≤ 2 ^ 32 }
    ensures value { result ≡ p.1 *ℤ values_of values.now p.0 }
    ensures small { unsigned_abs result ≤ 2 ^ 96 }
{
    product(p.1, value_at(values, p.0))
}

fn parts_value(values: &[i128], parts: &[(u32, i64)]) -> i128
    requires values { AreSmall values.now }
    requires few { length parts.now ≤ 4 }
    requires up_to { AreUpTo (2 ^ 32) parts.now }
    ensures value { result ≡ value_parts (values_of values.now) parts.now }
    ensures small { unsigned_abs result ≤ 2 ^ 98 }
{
    let mut sum = 0;
    for p in parts {
        sum += part_value(values, *p);
    }
    sum
}

/// What the form comes to, where the numbers are the values of the symbols.
pub(crate) fn value_of(values: &[i128], t: &Term) -> i128
    requires { AreSmall values.now }
    ensures value { result ≡ value (values_of values.now) t.now }
    ensures small { unsigned_abs result ≤ 2 ^ 99 }
{
    t.known();
    t.konst() + parts_value(values, t.parts())
}

fn is_value(values: &[i128], t: &Term, z: i128) -> bool
    requires { AreSmall values.now }
    ensures { IsTrue result ↔ (z ≡ value (values_of values.now) t.now) }
{
    value_of(values, t) == z
}

/// Whether the given numbers are what the forms come to.
pub(crate) fn are_values(values: &[i128], terms: &[Term], given: &[i128]) -> bool
    requires { AreSmall values.now }
    ensures { IsTrue result ↔ (given.now ≡ all_values (values_of values.now) terms.now) }
{
    if terms.len() != given.len() {
        return false;
    }
    for i in 0..terms.len() {
        if !is_value(values, &terms[i], given[i]) {
            return false;
        }
    }
    true
}

fn cond_holds(values: &[i128], c: &Ineq) -> bool
    requires { AreSmall values.now }
    ensures { IsTrue result ↔ Holds (values_of values.now) c.now }
{
    match c {
        Ineq::Ge(t) => value_of(values, t) >= 0,
        Ineq::Ne(t) => value_of(values, t) != 0,
    }
}

/// Whether the conditions are true of the numbers.
pub(crate) fn conds_hold(values: &[i128], conds: &[Ineq]) -> bool
    requires { AreSmall values.now }
    ensures { IsTrue result ↔ AllByRecursion (Holds (values_of values.now)) conds.now }
{
    conds.iter().all(|c| cond_holds(values, c))
}
