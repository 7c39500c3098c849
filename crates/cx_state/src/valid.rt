//! When a state is valid.

ghost use Rattle.std.specs.Prelude.{◌<◌, ◌↔◌, IsTrue, All};
ghost use Rattle.cx_cells.specs.Kept.{HasParams};
ghost use Rattle.cx_state.specs.Valid.{TermBelow, CondBelow, LocalBelow, FactBelow, CellBelow, SymbolBelow, OptionBelow, HasType, Scoped, WithinLimits, HasTypes, IsValid};

use crate::state::{Cell, Env, Fact};
use cx_base::List;
use cx_cells::{Form, Rules};
use cx_term::{Ineq, Term};

fn term_below(t: &Term, n: usize) -> bool
    ensures { IsTrue result ↔ TermBelow n t.now }
{
    t.parts().iter().all(|p| (p.0 as usize) < n)
}

fn terms_below(terms: &[Term], n: usize) -> bool
    ensures { IsTrue result ↔ All (TermBelow n) terms.now }
{
    terms.iter().all(|t| term_below(t, n))
}

fn local_below(local: &Option<Term>, n: usize) -> bool
    ensures { IsTrue result ↔ LocalBelow n local.now }
{
    match local {
        Some(t) => term_below(t, n),
        None => true,
    }
}

fn cond_below(c: &Ineq, n: usize) -> bool
    ensures { IsTrue result ↔ CondBelow n c.now }
{
    match c {
        Ineq::Ge(t) => term_below(t, n),
        Ineq::Ne(t) => term_below(t, n),
    }
}

fn fact_below(f: &Fact, n: usize) -> bool
    ensures { IsTrue result ↔ FactBelow n f.now }
{
    terms_below(f.args.as_slice(), n) && term_below(&f.off, n)
}

fn option_below(fact: &Option<Fact>, n: usize) -> bool
    ensures { IsTrue result ↔ OptionBelow n fact.now }
{
    match fact {
        Some(f) => fact_below(f, n),
        None => true,
    }
}

fn cell_below(c: &Cell, n: usize) -> bool
    ensures { IsTrue result ↔ CellBelow n c.now }
{
    (c.sym as usize) < n && term_below(&c.at, n) && term_below(&c.value, n)
}

fn symbols_below(symbols: &[u32], n: usize) -> bool
    ensures { IsTrue result ↔ All (SymbolBelow n) symbols.now }
{
    symbols.iter().all(|s| (*s as usize) < n)
}

fn locals_below(locals: &[Option<Term>], n: usize) -> bool
    ensures { IsTrue result ↔ All (LocalBelow n) locals.now }
{
    locals.iter().all(|local| local_below(local, n))
}

fn conds_below(conds: &[Ineq], n: usize) -> bool
    ensures { IsTrue result ↔ All (CondBelow n) conds.now }
{
    conds.iter().all(|c| cond_below(c, n))
}

fn facts_below(facts: &[Option<Fact>], n: usize) -> bool
    ensures { IsTrue result ↔ All (OptionBelow n) facts.now }
{
    facts.iter().all(|f| option_below(f, n))
}

fn cells_below(cells: &[Cell], n: usize) -> bool
    ensures { IsTrue result ↔ All (CellBelow n) cells.now }
{
    cells.iter().all(|c| cell_below(c, n))
}

fn is_scoped(env: &Env) -> bool
    ensures { IsTrue result ↔ Scoped env.now }
{
    let n = env.ranges.len();
    env.facts.len() == n
        && locals_below(env.locals.as_slice(), n)
        && conds_below(env.conds.as_slice(), n)
        && facts_below(env.facts.as_slice(), n)
        && cells_below(env.cells.as_slice(), n)
        && symbols_below(env.staged.as_slice(), n)
        && symbols_below(env.fresh.as_slice(), n)
}

fn is_within_limits(env: &Env) -> bool
    ensures { IsTrue result ↔ WithinLimits env.now }
{
    env.ranges.len() <= 512
        && env.conds.len() <= 64
        && env.cells.len() <= 256
        && env.staged.len() <= 8
}

fn has_params(forms: &[Form], name: u32, n: usize) -> bool
    ensures { IsTrue result ↔ HasParams forms.now name n }
{
    match forms.get(name as usize) {
        Some(f) => f.params as usize == n,
        None => false,
    }
}

fn has_type(forms: &[Form], fact: &Option<Fact>) -> bool
    ensures { IsTrue result ↔ HasType forms.now fact.now }
{
    match fact {
        Some(f) => has_params(forms, f.name, f.args.len()),
        None => true,
    }
}

fn has_types(forms: &[Form], facts: &[Option<Fact>]) -> bool
    ensures { IsTrue result ↔ HasTypes forms.now facts.now }
{
    facts.iter().all(|f| has_type(forms, f))
}

/// Whether the state is valid for the rules: it has at least 40 symbols and a place for the fact of
/// each, names no others, keeps the limits of a state, and the region types of its facts are there,
/// with their numbers of arguments.
pub fn valid_env(rules: &Rules, env: &Env) -> bool
    ensures { IsTrue result ↔ IsValid rules.now.forms env.now }
{
    env.ranges.len() >= 40
        && is_scoped(env)
        && is_within_limits(env)
        && has_types(rules.forms.as_slice(), env.facts.as_slice())
}
