ghost use Rattle.std.specs.Prelude.{◌≡◌, ◌≤◌, ◌^◌, ℕ, ℤ, pos, negsuc, IsTrue, ◌↔◌, unsigned_abs, ◌+ℤ◌, ◌-ℤ◌, ◌*ℤ◌, nat_le, MatchOption, true, false, length};
ghost use Rattle.cx_term.specs.Forms.{Linear, IsTerm, value, constant_of, symbol_of, fit, IsExactly, parts_within};
ghost use Rattle.cx_term.specs.Sums.{plus_times, combined, plus_number, AreUpTo};
ghost use Rattle.cx_term.specs.Listed.{value_listed};
ghost use Rattle.cx_term.specs.Replaced.{coefficient, without, put, with_value, put_all, values_of};

use crate::combine::{combined_konst, combined_parts};
use crate::listing::{sum_parts, total};
use crate::parts::{coefficient_of, copy_parts, parts_without, same_parts, times_parts};
use crate::replace::{put_konst, put_parts};
use arrayvec::ArrayVec;
use std::marker::Model;

/// The largest absolute value of a constant, 2^96.
const KONST_LIMIT: u128 = 79228162514264337593543950336;

/// A linear form: a constant of at most 2^96 in absolute value, and at most four parts in rising order of their symbols,
/// each a symbol with a coefficient that is not 0 and at most 2^32 in absolute value. Contracts see a `Linear`.
/// No call on it takes memory.
#[derive(Drop)]
pub struct Term {
    konst: i128,
    parts: ArrayVec<(u32, i64), 4>,
}

impl Model for Term {
    ghost use Rattle.cx_term.specs.Forms.{Linear, IsTerm};

    ghost Value = { Linear };

    ghost view = { λ t. record { konst = t.konst; parts = t.parts.items } };

    ghost invariant = { λ t. IsTerm (record { konst = t.konst; parts = t.parts.items }) };
}

impl Default for Term {
    ghost is_default = { λ t. t ≡ constant_of (pos 0) };

    fn default() -> Term {
        Term::zero()
    }
}

/// `a` and `k` times `b`, where that is within the limit of a constant.
pub(crate) fn times_konst(a: i128, k: i128, b: i128) -> Option<i128>
    requires { unsigned_abs a ≤ 2 ^ 100 }
    ensures { MatchOption result (nat_le (unsigned_abs (a +ℤ k *ℤ b)) (2 ^ 96) ≡ false)
        (λ r. (nat_le (unsigned_abs (a +ℤ k *ℤ b)) (2 ^ 96) ≡ true) × (r ≡ a +ℤ k *ℤ b)) }
{
    let product = k.checked_mul(b)?;
    let sum = a.checked_add(product)?;
    if sum.unsigned_abs() <= KONST_LIMIT {
        Some(sum)
    } else {
        None
    }
}

impl Term {
    /// The number 0.
    pub fn zero() -> Term
        ensures { result ≡ constant_of (pos 0) }
    {
        Term {
            konst: 0,
            parts: ArrayVec::new(),
        }
    }

    /// The number `v`, None where its absolute value is above 2^96.
    pub fn constant(v: i128) -> Option<Term>
        ensures form { result ≡ fit (constant_of v) }
        ensures exact { IsExactly (λ x. v) result }
    {
        Term::constant_by(v)
    }

    fn constant_by(v: i128) -> Option<Term>
        ensures { result ≡ fit (constant_of v) }
    {
        if v.unsigned_abs() <= KONST_LIMIT {
            Some(Term {
                konst: v,
                parts: ArrayVec::new(),
            })
        } else {
            None
        }
    }

    /// The symbol `s`, with the coefficient 1.
    pub fn symbol(s: u32) -> Term
        ensures { result ≡ symbol_of s }
    {
        let mut parts = ArrayVec::new();
        parts.push((s, 1));
        Term { konst: 0, parts }
    }

    /// The constant.
    pub fn konst(&self) -> i128
        ensures { result ≡ self.now.konst }
    {
        self.konst
    }

    /// The parts, in rising order of their symbols.
    pub fn parts(&self) -> &[(u32, i64)]
        ensures { result.now ≡ self.now.parts }
    {
        self.parts.as_slice()
    }

    /// The coefficient of the symbol `s`, 0 where no part has it.
    pub fn coefficient(&self, s: u32) -> i64
        ensures { result ≡ coefficient s self.now.parts }
    {
        coefficient_of(self.parts.as_slice(), s)
    }

    /// Tells a caller's proof that the form keeps the limits and the order of a `Term`.
    pub fn known(&self)
        ensures { IsTerm self.now }
    {
        let _konst = self.konst;
    }

    /// The same form. A `Term` is not `Copy`.
    pub fn copy(&self) -> Term
        ensures { result ≡ self.now }
    {
        Term {
            konst: self.konst,
            parts: copy_parts(self.parts.as_slice()),
        }
    }

    /// Whether the two forms are the same, which is whether they have the same value at all values of the symbols.
    pub fn same(&self, o: &Term) -> bool
        ensures { IsTrue result ↔ (self.now ≡ o.now) }
    {
        self.konst == o.konst && same_parts(self.parts.as_slice(), o.parts.as_slice())
    }

    /// The form and `k` times the other, None exactly where no form within the limits has that value.
    pub fn plus_times(&self, k: i128, o: &Term) -> Option<Term>
        ensures form { result ≡ fit (plus_times k o.now self.now) }
        ensures exact { IsExactly (λ v. value v self.now +ℤ k *ℤ value v o.now) result }
    {
        self.known();
        self.sum(k, o)
    }

    fn sum(&self, k: i128, o: &Term) -> Option<Term>
        ensures { result ≡ fit (plus_times k o.now self.now) }
    {
        let konst = times_konst(self.konst, k, o.konst)?;
        let parts = times_parts(self.parts.as_slice(), k, o.parts.as_slice())?;
        Some(Term { konst, parts })
    }

    /// The sum, None exactly where no form within the limits has that value.
    pub fn add(&self, o: &Term) -> Option<Term>
        ensures form { result ≡ fit (plus_times (pos 1) o.now self.now) }
        ensures exact { IsExactly (λ v. value v self.now +ℤ value v o.now) result }
    {
        self.plus_times(1, o)
    }

    /// The difference, None exactly where no form within the limits has that value.
    pub fn sub(&self, o: &Term) -> Option<Term>
        ensures form { result ≡ fit (plus_times (negsuc 0) o.now self.now) }
        ensures exact { IsExactly (λ v. value v self.now -ℤ value v o.now) result }
    {
        self.plus_times(-1, o)
    }

    /// `k` times the form, None exactly where no form within the limits has that value.
    pub fn scale(&self, k: i128) -> Option<Term>
        ensures form { result ≡ fit (plus_times k self.now (constant_of (pos 0))) }
        ensures exact { IsExactly (λ v. k *ℤ value v self.now) result }
    {
        Term::zero().plus_times(k, self)
    }

    /// `k` times the form, `m` times the other and the number `c`, None exactly where no form within the limits has that value;
    /// what stands between may pass them.
    pub fn combined(&self, k: i64, m: i64, o: &Term, c: i128) -> Option<Term>
        requires first { unsigned_abs k ≤ 2 ^ 32 }
        requires second { unsigned_abs m ≤ 2 ^ 32 }
        requires number { unsigned_abs c ≤ 2 ^ 32 }
        ensures form { result ≡ fit (combined k self.now m o.now c) }
        ensures exact { IsExactly (λ v. (c +ℤ k *ℤ value v self.now) +ℤ m *ℤ value v o.now) result }
    {
        self.combined_by(k, m, o, c)
    }

    fn combined_by(&self, k: i64, m: i64, o: &Term, c: i128) -> Option<Term>
        requires first { unsigned_abs k ≤ 2 ^ 32 }
        requires second { unsigned_abs m ≤ 2 ^ 32 }
        requires number { unsigned_abs c ≤ 2 ^ 32 }
        ensures { result ≡ fit (combined k self.now m o.now c) }
    {
        let konst = combined_konst(k, self.konst, m, o.konst, c)?;
        let parts = combined_parts(k, self.parts.as_slice(), m, o.parts.as_slice())?;
        Some(Term { konst, parts })
    }

    /// The form and the number `z`, None exactly where no form within the limits has that value.
    pub fn plus_number(&self, z: i128) -> Option<Term>
        ensures form { result ≡ fit (plus_number z self.now) }
        ensures exact { IsExactly (λ v. value v self.now +ℤ z) result }
    {
        self.known();
        self.plus_number_by(z)
    }

    fn plus_number_by(&self, z: i128) -> Option<Term>
        ensures { result ≡ fit (plus_number z self.now) }
    {
        let konst = times_konst(self.konst, 1, z)?;
        Some(Term {
            konst,
            parts: copy_parts(self.parts.as_slice()),
        })
    }

    /// The sum of the parts, each a number or a number times a symbol, in any order and with repeats. None exactly where no form
    /// within the limits has that value; what stands between may pass them.
    pub fn sum_of(parts: &[(Option<u32>, i128)]) -> Option<Term>
        ensures exact { IsExactly (λ v. value_listed v parts.now) result }
    {
        let konst = total(parts, None)?;
        let parts = sum_parts(parts)?;
        Some(Term { konst, parts })
    }

    /// The form but for the part of the symbol.
    fn without(&self, s: u32) -> Term
        ensures { result ≡ record { konst = self.now.konst; parts = without s self.now.parts } }
    {
        Term {
            konst: self.konst,
            parts: parts_without(self.parts.as_slice(), s),
        }
    }

    /// The form with the symbol `s` replaced by `by`, None exactly where no form within the limits has that value.
    pub fn put(&self, s: u32, by: &Term) -> Option<Term>
        ensures form { result ≡ fit (put s by.now self.now) }
        ensures exact { IsExactly (λ v. value (with_value s (value v by.now) v) self.now) result }
    {
        self.known();
        self.put_by(s, by)
    }

    /// The form with each symbol `s` replaced by the form at `s`, the number 0 past the end, all at once. None exactly where
    /// no form within the limits has that value; what stands between may pass them.
    pub fn put_all(&self, forms: &[Term]) -> Option<Term>
        ensures form { result ≡ fit (put_all forms.now self.now) }
        ensures exact { IsExactly (λ v. value (values_of forms.now v) self.now) result }
    {
        self.put_all_by(forms)
    }

    fn put_all_by(&self, forms: &[Term]) -> Option<Term>
        ensures { result ≡ fit (put_all forms.now self.now) }
    {
        let konst = put_konst(self.konst, self.parts.as_slice(), forms)?;
        let parts = put_parts(self.parts.as_slice(), forms)?;
        Some(Term { konst, parts })
    }

    fn put_by(&self, s: u32, by: &Term) -> Option<Term>
        ensures { result ≡ fit (put s by.now self.now) }
    {
        self.without(s)
            .plus_times(i128::from(self.coefficient(s)), by)
    }
}

/// The inequality of a form.
#[derive(Drop)]
pub enum Ineq {
    /// The form is at least 0.
    Ge(Term),
    /// The form is not 0.
    Ne(Term),
}

impl Ineq {
    /// The same inequality.
    pub fn copy(&self) -> Ineq
        ensures { result ≡ self.now }
    {
        match self {
            Ineq::Ge(t) => Ineq::Ge(t.copy()),
            Ineq::Ne(t) => Ineq::Ne(t.copy()),
        }
    }

    /// Whether the two inequalities are the same.
    pub fn same(&self, o: &Ineq) -> bool
        ensures { IsTrue result ↔ (self.now ≡ o.now) }
    {
        match self {
            Ineq::Ge(t) => match o {
                Ineq::Ge(u) => t.same(u),
                Ineq::Ne(_) => false,
            },
            Ineq::Ne(t) => match o {
                Ineq::Ge(_) => false,
                Ineq::Ne(u) => t.same(u),
            },
        }
    }
}
