//! Sums and differences of forms, and what a state shows of them.

ghost use Rattle.std.specs.Prelude.{◌≡◌, Some};
ghost use Rattle.cx_query.specs.Shown.{difference, sum, number, shown_in, at_least, at_most, shown_equal, shown_zero};

use cx_entail::shows;
use cx_state::Env;
use cx_term::Term;

/// The first form less the second, where both are there and that is a form.
pub fn difference(t: Option<Term>, u: Option<Term>) -> Option<Term>
    ensures { result ≡ difference t u }
{
    match t {
        Some(t) => match u {
            Some(u) => t.sub(&u),
            None => None,
        },
        None => None,
    }
}

/// The sum, where both are there and that is a form.
pub fn sum(t: Option<Term>, u: Option<Term>) -> Option<Term>
    ensures { result ≡ sum t u }
{
    match t {
        Some(t) => match u {
            Some(u) => t.add(&u),
            None => None,
        },
        None => None,
    }
}

/// The form of the number.
pub fn number(z: i128) -> Option<Term>
    ensures { result ≡ number z }
{
    Term::constant(z)
}

/// The same form, where there is one.
fn copied(t: &Option<Term>) -> Option<Term>
    ensures { result ≡ t.now }
{
    match t {
        Some(t) => Some(t.copy()),
        None => None,
    }
}

/// Whether the form is there and shown to be at least 0.
#[tactic(auto, unfolding(crate::specs::Shown::shown_in))]
pub fn shown_in(env: &Env, t: Option<Term>) -> bool
    ensures { result ≡ shown_in env.now t }
{
    match t {
        Some(t) => shows(env.conds.as_slice(), env.ranges.as_slice(), &t),
        None => false,
    }
}

/// Whether the form is shown to be at least the number.
pub fn at_least(env: &Env, t: &Term, z: i128) -> bool
    ensures { result ≡ at_least env.now t.now z }
{
    shown_in(env, difference(Some(t.copy()), number(z)))
}

/// Whether the form is shown to be at most the number.
pub fn at_most(env: &Env, t: &Term, z: i128) -> bool
    ensures { result ≡ at_most env.now t.now z }
{
    shown_in(env, difference(number(z), Some(t.copy())))
}

/// Whether the two forms are there and shown to be equal.
pub fn shown_equal(env: &Env, t: &Option<Term>, u: &Option<Term>) -> bool
    ensures { result ≡ shown_equal env.now t.now u.now }
{
    shown_in(env, difference(copied(t), copied(u)))
        && shown_in(env, difference(copied(u), copied(t)))
}

/// Whether the form is shown to be 0.
pub fn shown_zero(env: &Env, t: &Term) -> bool
    ensures { result ≡ shown_zero env.now t.now }
{
    shown_equal(env, &Some(t.copy()), &number(0))
}
