//! The region that a form points into.

ghost use Rattle.std.specs.Prelude.{◌≡◌, Some};
ghost use Rattle.cx_term.specs.Forms.{symbol_of};
ghost use Rattle.cx_entail.specs.Shows.{shown_nonzero};
ghost use Rattle.cx_state.specs.Known.{is_one_of};
ghost use Rattle.cx_query.specs.Pointing.{is_base_part, base_of, null_of, is_nothing, pointed, point_with, point_by, point_at, point_of, fresh_but, not_fresh, PointsTruly};

use crate::forms::{difference, sum};
use cx_entail::{Range, shows_nonzero};
use cx_state::{Env, Fact, Pointed};
use cx_term::{Ineq, Term};

fn is_base_part(env: &Env, s: u32, k: i64) -> bool
    ensures { result ≡ is_base_part env.now.facts (s, k) }
{
    k == 1 && env.fact(s).is_some()
}

/// The base of the form: its least symbol that has the coefficient 1 and a fact. None exactly where it
/// has none.
pub fn base(env: &Env, t: &Term) -> Option<u32>
    ensures { result ≡ base_of env.now t.now }
{
    for p in t.parts() {
        if is_base_part(env, p.0, p.1) {
            return Some(p.0);
        }
    }
    None
}

fn nonzero_by(known: &[Ineq], ranges: &[Range], t: &Term) -> bool
    ensures { result ≡ shown_nonzero known.now ranges.now t.now }
{
    shows_nonzero(known, ranges, t)
}

/// Whether the symbol is shown to be other than 0.
fn is_nonzero(env: &Env, s: u32) -> bool
    ensures { result ≡ shown_nonzero env.now.conds env.now.ranges (symbol_of s) }
{
    nonzero_by(
        env.conds.as_slice(),
        env.ranges.as_slice(),
        &Term::symbol(s),
    )
}

/// Whether the symbol, which has this fact, may be null: the fact allows it, and it is not shown to be
/// other than 0.
fn null_of(env: &Env, s: u32, f: &Fact) -> bool
    ensures { result ≡ null_of env.now s f.now }
{
    f.null && !is_nonzero(env, s)
}

fn is_nothing(t: &Option<Term>) -> bool
    ensures { result ≡ is_nothing t.now }
{
    match t {
        Some(t) => t.konst().unsigned_abs() == 0 && t.parts().len() == 0,
        None => false,
    }
}

fn pointed(sym: u32, off: Option<Term>, null: bool) -> Option<Pointed>
    ensures { result ≡ pointed sym off null }
{
    match off {
        Some(off) => Some(Pointed { sym, off, null }),
        None => None,
    }
}

fn point_with(env: &Env, s: u32, f: &Fact, rest: Option<Term>) -> Option<Pointed>
    ensures { result ≡ point_with env.now s f.now rest }
{
    let null = null_of(env, s, f);
    if null && !is_nothing(&rest) {
        return None;
    }
    pointed(s, sum(Some(f.off.copy()), rest), null)
}

fn point_by(env: &Env, t: &Term, s: u32) -> Option<Pointed>
    ensures { result ≡ point_by env.now t.now s }
{
    match env.fact(s) {
        Some(f) => {
            let rest = difference(Some(t.copy()), Some(Term::symbol(s)));
            point_with(env, s, f, rest)
        }
        None => None,
    }
}

/// Whether the symbol is fresh, and another than the one that counts as not fresh.
fn is_fresh_but(own: Option<u32>, env: &Env, s: u32) -> bool
    ensures { result ≡ is_one_of (fresh_but own env.now.fresh) s }
{
    match own {
        Some(o) => env.is_fresh(s) && s != o,
        None => env.is_fresh(s),
    }
}

fn point_at(own: Option<u32>, env: &Env, t: &Term, s: Option<u32>) -> Option<Pointed>
    ensures { result ≡ point_at (not_fresh own env.now) t.now s }
{
    match s {
        Some(s) => {
            if is_fresh_but(own, env, s) {
                return None;
            }
            point_by(env, t, s)
        }
        None => None,
    }
}

/// As `point`, where the symbol `own`, if there is one, counts as not fresh.
pub fn point_but(own: Option<u32>, env: &Env, t: &Term) -> Option<Pointed>
    ensures { result ≡ point_of (not_fresh own env.now) t.now }
{
    point_at(own, env, t, base(env, t))
}

/// Where the form points to: it is its base and a rest, and lies by that rest past what the base's fact
/// says; it may be null where the base may be. None exactly where it has no base or a fresh one, where
/// the offset is no form, or where it may be null and the rest is not 0.
pub fn point(env: &Env, t: &Term) -> Option<Pointed>
    ensures exact { result ≡ point_of env.now t.now }
    ensures sound { PointsTruly env.now t.now result }
{
    point_but(None, env, t)
}
