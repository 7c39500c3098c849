//! When two regions, and two spots, are shown to be apart.

ghost use Rattle.std.specs.Prelude.{◌≡◌, IsTrue, Some};
ghost use Rattle.cx_state.specs.Known.{fact_at};
ghost use Rattle.cx_apart.specs.Apart.{base_form, shown_nonzero, bases_apart, fresh_apart, is_global, globals_apart, regions_apart, offset_form, ends_before, offsets_apart, spots_by, are_apart, AreApart};

use crate::spots::Spot;
use cx_learn::nonzero_in;
use cx_query::{difference, number, shown_in, sum};
use cx_state::{Env, Fact};
use cx_term::Term;

fn base_form(s: u32, f: &Fact) -> Option<Term>
    ensures { result ≡ base_form s f.now }
{
    difference(Some(Term::symbol(s)), Some(f.off.copy()))
}

fn shown_nonzero(env: &Env, t: Option<Term>) -> bool
    ensures { result ≡ shown_nonzero env.now t }
{
    match t {
        Some(t) => nonzero_in(env, &t),
        None => false,
    }
}

/// Whether the regions are shown to begin at different addresses.
fn bases_apart(env: &Env, s: u32, f: &Fact, t: u32, g: &Fact) -> bool
    ensures { result ≡ bases_apart env.now s f.now t g.now }
{
    shown_nonzero(env, difference(base_form(s, f), base_form(t, g)))
}

/// Whether exactly one of the symbols is fresh, or both are and they are different.
fn fresh_apart(env: &Env, s: u32, t: u32) -> bool
    ensures { result ≡ fresh_apart env.now s t }
{
    if env.is_fresh(s) {
        !(env.is_fresh(t) && s == t)
    } else {
        env.is_fresh(t)
    }
}

/// Whether the symbol stands for one of the first globals, and its fact is about the region there.
fn is_global(s: u32, f: &Fact) -> bool
    ensures { result ≡ is_global s f.now }
{
    (24 <= s && s < 40) && (f.off.parts().len() == 0 && f.off.konst().unsigned_abs() == 0)
}

fn globals_apart(s: u32, f: &Fact, t: u32, g: &Fact) -> bool
    ensures { result ≡ globals_apart s f.now t g.now }
{
    is_global(s, f) && (is_global(t, g) && s != t)
}

/// Whether the regions that these facts of the two symbols are about are shown to be different: they
/// have different types, begin at different addresses, exactly one is a new block or they are two, or
/// they are two globals.
pub fn regions_apart(env: &Env, s: u32, f: &Fact, t: u32, g: &Fact) -> bool
    ensures { result ≡ regions_apart env.now s f.now t g.now }
{
    f.name != g.name
        || bases_apart(env, s, f, t, g)
        || fresh_apart(env, s, t)
        || globals_apart(s, f, t, g)
}

fn offset_form(f: &Fact, a: &Spot) -> Option<Term>
    ensures { result ≡ offset_form f.now a.now }
{
    sum(Some(f.off.copy()), Some(a.at.copy()))
}

fn ends_before(env: &Env, a: Option<Term>, size: u8, b: Option<Term>) -> bool
    ensures { result ≡ ends_before env.now a size b }
{
    shown_in(env, difference(difference(b, a), number(i128::from(size))))
}

fn offsets_apart(env: &Env, f: &Fact, a: &Spot, g: &Fact, b: &Spot) -> bool
    ensures { result ≡ offsets_apart env.now f.now a.now g.now b.now }
{
    ends_before(env, offset_form(f, a), a.size, offset_form(g, b))
        || ends_before(env, offset_form(g, b), b.size, offset_form(f, a))
}

fn facts_apart(env: &Env, f: &Fact, a: &Spot, g: &Fact, b: &Spot) -> bool
    ensures { result ≡ spots_by env.now (Some f.now) a.now (Some g.now) b.now }
{
    regions_apart(env, a.sym, f, b.sym, g) || offsets_apart(env, f, a, g, b)
}

pub(crate) fn are_apart(env: &Env, a: &Spot, b: &Spot) -> bool
    ensures { result ≡ are_apart env.now a.now b.now }
{
    match env.fact(a.sym) {
        Some(f) => match env.fact(b.sym) {
            Some(g) => facts_apart(env, f, a, g, b),
            None => false,
        },
        None => false,
    }
}

/// Whether the two spots are shown to have no byte in common: their regions are shown to be different,
/// or one is shown to end, counted from its region's base, before the other begins. A spot whose symbol
/// has no fact is apart from none.
pub fn apart(env: &Env, a: &Spot, b: &Spot) -> bool
    ensures exact { result ≡ are_apart env.now a.now b.now }
    ensures sound { IsTrue result → AreApart env.now a.now b.now }
{
    are_apart(env, a, b)
}
