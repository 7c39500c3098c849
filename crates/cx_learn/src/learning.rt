//! Learning a condition.

ghost use Rattle.std.specs.Prelude.{◌≡◌, ◌↔◌, IsTrue, ◌≤◌, ◌^◌, Some, IfOk, pos, ◌+ℤ◌, ◌-ℤ◌, unsigned_abs, length};
ghost use Rattle.cx_term.specs.Conditions.{Holds};
ghost use Rattle.cx_entail.specs.Ranges.{low, high, same_z};
ghost use Rattle.cx_entail.specs.Shows.{less_one, minus, minus_less_one};
ghost use Rattle.cx_state.specs.Valid.{CondBelow};
ghost use Rattle.cx_query.specs.Shown.{shown_in};
ghost use Rattle.cx_learn.specs.Answers.{Agrees};
ghost use Rattle.cx_learn.specs.Keeping.{KeepsWhere, KeepsValid};
ghost use Rattle.cx_learn.specs.Learning.{nonzero_in, all_bounded, with_cond, learnt_ge, learnt_if, excluded_by, excluded, fitted, end_moved, moved_to, excluding, learnt_ne, learnt};

use crate::bounds::{bound_all, high_of, low_of, put_range, range_at};
use cx_entail::{Range, shows_nonzero};
use cx_query::shown_in;
use cx_state::{Env, EnvFault, EnvLimit};
use cx_term::{Ineq, Term};

/// How many conditions a state may have.
const CONDS: usize = 64;

/// The largest absolute value of a bound, 2^65.
const END: u128 = 36893488147419103232;

/// Adds the condition.
fn with_cond(env: Env, c: Ineq) -> Result<Env, EnvFault>
    ensures { Agrees result (with_cond env c) }
{
    if env.conds.len() >= CONDS {
        return Err(EnvFault::Limit(EnvLimit::Conds));
    }
    let mut env = env;
    env.conds.push(c)?;
    Ok(env)
}

fn bounded(env: Env, t: &Term) -> Env
    ensures { result ≡ record env { ranges = all_bounded t.now t.now.parts env.ranges } }
{
    let mut env = env;
    bound_all(&mut env.ranges, t);
    env
}

fn is_shown(env: &Env, t: &Term) -> bool
    ensures { result ≡ shown_in env.now (Some t.now) }
{
    shown_in(env, Some(t.copy()))
}

/// Whether the form is shown not to be 0.
#[tactic(auto, unfolding(crate::specs::Learning::nonzero_in))]
pub fn nonzero_in(env: &Env, t: &Term) -> bool
    ensures { result ≡ nonzero_in env.now t.now }
{
    shows_nonzero(env.conds.as_slice(), env.ranges.as_slice(), t)
}

/// Learns that the form is at least 0.
fn learn_ge(env: Env, t: &Term) -> Result<Env, EnvFault>
    ensures { Agrees result (learnt_ge env t.now) }
{
    if is_shown(&env, t) {
        return Ok(env);
    }
    let env = bounded(env, t);
    if t.parts().len() > 1 {
        return with_cond(env, Ineq::Ge(t.copy()));
    }
    Ok(env)
}

/// Learns that the form is at least 0, where there is one.
pub fn learn_if(env: Env, t: Option<Term>) -> Result<Env, EnvFault>
    ensures { Agrees result (learnt_if env t) }
{
    match t {
        Some(t) => learn_ge(env, &t),
        None => Ok(env),
    }
}

fn are_same(a: i128, b: i128) -> bool
    ensures { IsTrue result ↔ (a ≡ b) }
{
    a == b
}

/// Whether the two numbers are the same.
fn same(a: i128, b: i128) -> bool
    ensures { result ≡ same_z a b }
{
    are_same(a, b)
}

fn excluded_by(z: i128, p: (u32, i64)) -> Option<(u32, i128)>
    requires { unsigned_abs z ≤ 2 ^ 96 }
    ensures { result ≡ excluded_by z (Some p) }
{
    let k = i128::from(p.1);
    if same(k, 1) {
        return Some((p.0, -z));
    }
    if same(k, -1) {
        return Some((p.0, z));
    }
    None
}

/// The symbol and the number that it is not, where the form is not 0, and is a number plus or minus one
/// symbol.
fn excluded(t: &Term) -> Option<(u32, i128)>
    ensures { result ≡ excluded t.now }
{
    t.known();
    let parts = t.parts();
    if parts.len() != 1 {
        return None;
    }
    excluded_by(t.konst(), parts[0])
}

/// The range of these parts, where its bounds are those of a range.
fn fitted(lo: i128, hi: i128, r: Range) -> Option<Range>
    ensures { result ≡ fitted (record r { lo = lo; hi = hi }) }
{
    r.known();
    if lo.unsigned_abs() <= END && hi.unsigned_abs() <= END {
        return Some(Range {
            lo,
            hi,
            m: r.m,
            r: r.r,
        });
    }
    None
}

/// The next number of the range after its least.
fn after_low(r: Range) -> i128
    ensures { result ≡ low r +ℤ pos r.m }
{
    low_of(r) + i128::from(r.m)
}

/// The last number of the range before its greatest.
fn before_high(r: Range) -> i128
    ensures { result ≡ high r -ℤ pos r.m }
{
    high_of(r) - i128::from(r.m)
}

fn without_low(r: Range) -> Option<Range>
    ensures { result ≡ fitted (record r { lo = low r +ℤ pos r.m }) }
{
    let hi = r.hi;
    fitted(after_low(r), hi, r)
}

fn without_high(r: Range) -> Option<Range>
    ensures { result ≡ fitted (record r { hi = high r -ℤ pos r.m }) }
{
    let lo = r.lo;
    fitted(lo, before_high(r), r)
}

/// The range without the number, where that is one of its ends and not its only number.
fn end_moved(r: Range, z: i128) -> Option<Range>
    ensures { result ≡ end_moved r z }
{
    if same(low_of(r), high_of(r)) {
        return None;
    }
    if same(z, low_of(r)) {
        return without_low(r);
    }
    if same(z, high_of(r)) {
        return without_high(r);
    }
    None
}

fn moved_to(env: Env, t: &Term, s: u32, range: Option<Range>) -> Result<Env, EnvFault>
    ensures { Agrees result (moved_to env t.now s range) }
{
    match range {
        Some(range) => {
            let mut env = env;
            put_range(&mut env.ranges, s, range);
            Ok(env)
        }
        None => with_cond(env, Ineq::Ne(t.copy())),
    }
}

/// Learns that the form is not 0 by an end of its only symbol's range, else by the condition.
fn excluding(env: Env, t: &Term, x: Option<(u32, i128)>) -> Result<Env, EnvFault>
    ensures { Agrees result (excluding env t.now x) }
{
    match x {
        Some(x) => {
            let range = end_moved(range_at(env.ranges.as_slice(), x.0), x.1);
            moved_to(env, t, x.0, range)
        }
        None => with_cond(env, Ineq::Ne(t.copy())),
    }
}

fn less_one(t: &Term) -> Option<Term>
    ensures { result ≡ less_one t.now }
{
    match Term::constant(1) {
        Some(one) => t.sub(&one),
        None => None,
    }
}

fn minus_less_one(t: &Term) -> Option<Term>
    ensures { result ≡ minus_less_one t.now }
{
    match Term::constant(-1) {
        Some(one) => one.sub(t),
        None => None,
    }
}

fn is_not_above(env: &Env, t: &Term) -> bool
    ensures { result ≡ shown_in env.now (minus t.now) }
{
    shown_in(env, Term::zero().sub(t))
}

/// Learns that the form is not 0.
fn learn_ne(env: Env, t: &Term) -> Result<Env, EnvFault>
    ensures { Agrees result (learnt_ne env t.now) }
{
    if nonzero_in(&env, t) {
        return Ok(env);
    }
    if is_shown(&env, t) {
        return learn_if(env, less_one(t));
    }
    if is_not_above(&env, t) {
        return learn_if(env, minus_less_one(t));
    }
    let x = excluded(t);
    excluding(env, t, x)
}

fn learn_by(env: Env, c: &Ineq) -> Result<Env, EnvFault>
    ensures { Agrees result (learnt env c.now) }
{
    match c {
        Ineq::Ge(t) => learn_ge(env, t),
        Ineq::Ne(t) => learn_ne(env, t),
    }
}

/// The state in which the condition is learnt. Nothing is, where it is shown. That a form is at least 0
/// bounds each of its symbols, in order, by what the others may be, and is kept where it has two or more.
/// That a form is not 0 is that it is above 0 or below 0 where it is shown not to be on the other side;
/// else it moves the end of its only symbol's range, or is kept. `Limit` exactly where the conditions
/// would be more than 64.
pub fn learn(env: Env, c: &Ineq) -> Result<Env, EnvFault>
    ensures exact { Agrees result (learnt env c.now) }
    ensures sound { IfOk result (λ next. KeepsWhere env next (λ v. Holds v c.now)) }
    ensures valid { IfOk result (λ next. KeepsValid env next (CondBelow (length env.ranges) c.now)) }
{
    learn_by(env, c)
}
