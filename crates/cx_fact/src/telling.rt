//! Telling a state what a fact means.

ghost use Rattle.std.specs.Prelude.{◌≡◌, ◌&&◌, if◌then◌else◌, Ok, Some, IfOk, pos, neg_ℤ, ◌-ℤ◌, ◌^◌, slice_get};
ghost use Rattle.cx_term.specs.Forms.{symbol_of};
ghost use Rattle.cx_state.specs.Known.{fact_at};
ghost use Rattle.cx_query.specs.Shown.{number};
ghost use Rattle.cx_learn.specs.Answers.{Agrees, and_then};
ghost use Rattle.cx_learn.specs.Keeping.{KeepsRun, KeepsFormed};
ghost use Rattle.cx_learn.specs.Learning.{nonzero_in, learnt_if};
ghost use Rattle.cx_fact.specs.Telling.{above_zero, below_end, count_of, plus_multiple, size_gap, told_tail, told_size, is_count, told_fact, told, not_null, with_fact, settled_by, settled};

use cx_base::NoMemory;
use cx_cells::{Form, Rules, Tail};
use cx_learn::{learn_if, nonzero_in};
use cx_query::{difference, number, sum};
use cx_state::{Env, EnvFault, Fact};
use cx_term::Term;

/// The greatest address, 2^47 - 1.
const LAST: i128 = 140737488355327;

/// The base of the region, less 1.
fn above_zero(s: u32, f: &Fact) -> Option<Term>
    ensures { result ≡ above_zero s f.now }
{
    sum(
        difference(Some(Term::symbol(s)), Some(f.off.copy())),
        number(-1),
    )
}

/// The greatest address less the base of the region.
fn below_end(s: u32, f: &Fact) -> Option<Term>
    ensures { result ≡ below_end s f.now }
{
    difference(sum(Some(f.off.copy()), number(LAST)), Some(Term::symbol(s)))
}

/// How many elements the tail has for the fact's arguments.
fn count_of(f: &Fact, tail: &Tail) -> Option<Term>
    ensures { result ≡ count_of f.now tail.now }
{
    tail.count.put_all(f.args.as_slice())
}

fn plus_multiple(t: Option<Term>, k: i128, u: Option<Term>) -> Option<Term>
    ensures { result ≡ plus_multiple t k u }
{
    match t {
        Some(t) => match u {
            Some(u) => t.plus_times(k, &u),
            None => None,
        },
        None => None,
    }
}

/// How much the head is below 2^47.
fn head_gap(form: &Form) -> Option<Term>
    ensures { result ≡ number (pos (2 ^ 47) -ℤ pos form.now.head_size) }
{
    number(LAST + 1 - i128::from(form.head_size))
}

fn minus_element(tail: &Tail) -> i128
    ensures { result ≡ neg_ℤ (pos tail.now.part.size) }
{
    -i128::from(tail.part.size)
}

/// How much the size of the region is below 2^47.
fn size_gap(form: &Form, f: &Fact, tail: &Tail) -> Option<Term>
    ensures { result ≡ size_gap form.now f.now tail.now }
{
    plus_multiple(head_gap(form), minus_element(tail), count_of(f, tail))
}

fn tell_tail(form: &Form, f: &Fact, env: Env) -> Result<Env, EnvFault>
    ensures { Agrees result (told_tail form.now f.now form.now.tail env) }
{
    match &form.tail {
        Some(tail) => {
            let env = learn_if(env, count_of(f, tail))?;
            learn_if(env, size_gap(form, f, tail))
        }
        None => Ok(env),
    }
}

fn tell_size(forms: &[Form], f: &Fact, env: Env) -> Result<Env, EnvFault>
    ensures { Agrees result (told_size (slice_get forms.now f.now.name) f.now env) }
{
    match forms.get(f.name as usize) {
        Some(form) => tell_tail(form, f, env),
        None => Ok(env),
    }
}

fn is_count(t: &Term) -> bool
    ensures { result ≡ is_count t.now }
{
    t.parts().len() == 0 && t.konst() >= 0
}

fn tell_null(env: Env, s: u32, f: &Fact) -> Result<Env, EnvFault>
    ensures { Agrees result (if is_count f.now.off then learnt_if env (below_end s f.now) else Ok env) }
{
    if is_count(&f.off) {
        return learn_if(env, below_end(s, f));
    }
    Ok(env)
}

fn tell_base(forms: &[Form], env: Env, s: u32, f: &Fact) -> Result<Env, EnvFault>
    ensures { Agrees result (and_then (learnt_if env (above_zero s f.now)) (λ e. and_then (learnt_if e (below_end s f.now)) (λ d. told_size (slice_get forms.now f.now.name) f.now d))) }
{
    let env = learn_if(env, above_zero(s, f))?;
    let env = learn_if(env, below_end(s, f))?;
    tell_size(forms, f, env)
}

fn tell_fact(forms: &[Form], env: Env, s: u32, f: &Fact) -> Result<Env, EnvFault>
    ensures { Agrees result (told_fact forms.now env s f.now) }
{
    if f.null {
        return tell_null(env, s, f);
    }
    tell_base(forms, env, s, f)
}

/// The fact of the symbol once more.
fn fact_of(env: &Env, s: u32) -> Result<Option<Fact>, NoMemory>
    ensures { IfOk result (λ copy. copy ≡ fact_at env.now.facts s) }
{
    match env.fact(s) {
        Some(f) => {
            let copy = f.copy()?;
            Ok(Some(copy))
        }
        None => Ok(None),
    }
}

fn tell_by(forms: &[Form], env: Env, s: u32) -> Result<Env, EnvFault>
    ensures { Agrees result (told forms.now env s) }
{
    match fact_of(&env, s)? {
        Some(f) => tell_fact(forms, env, s, &f),
        None => Ok(env),
    }
}

/// The state, told what the fact of the symbol `s` means: its region begins above 0 and below 2^47, and
/// where its type has a tail the number of elements is not negative and the size at most 2^47. Where the
/// fact allows null, only that the region begins below 2^47, and only where the offset is a number not
/// negative. A condition that is no form is left out. Without a fact nothing is told. `Limit` exactly
/// where the conditions would be more than 64.
pub fn tell(rules: &Rules, env: Env, s: u32) -> Result<Env, EnvFault>
    ensures exact { Agrees result (told rules.now.forms env s) }
    ensures sound { IfOk result (λ next. KeepsRun rules.now.forms env next) }
    ensures valid { IfOk result (λ next. KeepsFormed rules.now.forms env next) }
{
    tell_by(rules.forms.as_slice(), env, s)
}

fn not_null(f: Fact) -> Fact
    ensures { result ≡ not_null f }
{
    Fact {
        name: f.name,
        args: f.args,
        off: f.off,
        null: false,
    }
}

/// The state in which the symbol `s` has the fact. A symbol past the end of the list has none.
pub fn with_fact(env: Env, s: u32, f: &Fact) -> Result<Env, NoMemory>
    ensures { IfOk result (λ next. next ≡ with_fact env s f.now) }
{
    let mut env = env;
    let copy = f.copy()?;
    if (s as usize) < env.facts.len() {
        let _old = env.facts.set(s as usize, Some(copy));
    }
    Ok(env)
}

fn is_settled(env: &Env, s: u32, f: &Fact) -> bool
    ensures { result ≡ (f.now.null && nonzero_in env.now (symbol_of s)) }
{
    f.null && nonzero_in(env, &Term::symbol(s))
}

fn settle_fact(forms: &[Form], env: Env, s: u32, f: Fact) -> Result<Env, EnvFault>
    ensures { Agrees result (settled_by forms.now env s (Some f)) }
{
    if is_settled(&env, s, &f) {
        let f = not_null(f);
        let env = with_fact(env, s, &f)?;
        return tell_fact(forms, env, s, &f);
    }
    Ok(env)
}

fn settle_by(forms: &[Form], env: Env, s: u32) -> Result<Env, EnvFault>
    ensures { Agrees result (settled forms.now env s) }
{
    match fact_of(&env, s)? {
        Some(f) => settle_fact(forms, env, s, f),
        None => Ok(env),
    }
}

/// The state in which the fact of the symbol `s` has lost its null, and is told, where the symbol is
/// shown to be other than 0; else the same state. `Limit` exactly where the conditions would be more than
/// 64.
pub fn settle(rules: &Rules, env: Env, s: u32) -> Result<Env, EnvFault>
    ensures exact { Agrees result (settled rules.now.forms env s) }
    ensures sound { IfOk result (λ next. KeepsRun rules.now.forms env next) }
    ensures valid { IfOk result (λ next. KeepsFormed rules.now.forms env next) }
{
    settle_by(rules.forms.as_slice(), env, s)
}
