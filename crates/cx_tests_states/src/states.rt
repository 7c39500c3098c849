ghost use Rattle.std.specs.Prelude.{◌≤◌, ◌<◌, ◌^◌, unsigned_abs};

use cx_base::{List, NoMemory};
use cx_cells::{CellKind, Form, Part, Rules, Tail};
use cx_entail::Range;
use cx_env::{
    Cell, Env, EnvFault, EnvLimit, Fact, base, known, learn, point, range_of, settle, shown, tell,
    valid_env,
};
use cx_term::{Ineq, Term};
use std::alloc::Global;
use std::test::Fail;

/// 2^64 - 1.
const TOP: i128 = 18446744073709551615;

/// 2^47 - 1.
const LAST: i128 = 140737488355327;

/// All numbers from `lo` to `hi`.
fn all(lo: i128, hi: i128) -> Range
    requires lo { unsigned_abs lo ≤ 2 ^ 65 }
    requires hi { unsigned_abs hi ≤ 2 ^ 65 }
{
    Range { lo, hi, m: 1, r: 0 }
}

fn has(env: &Env, s: u32, lo: i128, hi: i128) -> bool {
    match env.ranges.get(s as usize) {
        Some(r) => r.lo == lo && r.hi == hi,
        None => false,
    }
}

/// `a` times symbol 40 and `b` times symbol 41 and the number `c`.
fn form(a: i128, b: i128, c: i128) -> Term {
    let sum = match Term::constant(c) {
        Some(t) => t,
        None => return Term::zero(),
    };
    let sum = match sum.plus_times(a, &Term::symbol(40)) {
        Some(t) => t,
        None => return Term::zero(),
    };
    match sum.plus_times(b, &Term::symbol(41)) {
        Some(t) => t,
        None => Term::zero(),
    }
}

/// region array(n) = any8[n];
fn array(alloc: Global) -> Form {
    Form {
        params: 1,
        binders: 0,
        conds: List::new(alloc),
        head: List::new(alloc),
        head_size: 0,
        cases_at: 0,
        cases: List::new(alloc),
        tail: Some(Tail {
            count: Term::symbol(0),
            part: Part {
                binders: 0,
                conds: List::new(alloc),
                cells: List::new(alloc),
                size: 8,
            },
        }),
        shared: false,
    }
}

fn rules(alloc: Global) -> Result<Option<Rules>, NoMemory> {
    let mut name = List::new(alloc);
    for b in b"array" {
        name.push(*b)?;
    }
    let mut names = List::new(alloc);
    names.push(name)?;
    let mut forms = List::new(alloc);
    forms.push(array(alloc))?;
    Ok(Rules::new(
        names,
        forms,
        List::new(alloc),
        List::new(alloc),
        List::new(alloc),
    ))
}

fn add(env: &mut Env, range: Range, fact: Option<Fact>) -> Result<(), NoMemory> {
    env.ranges.push(range)?;
    env.facts.push(fact)
}

/// 40 symbols that are 0, then an index, a length, and the address of an array of that length, or 0.
fn state(alloc: Global) -> Result<Env, NoMemory> {
    let mut env = Env {
        locals: List::new(alloc),
        ranges: List::new(alloc),
        conds: List::new(alloc),
        facts: List::new(alloc),
        cells: List::new(alloc),
        staged: List::new(alloc),
        fresh: List::new(alloc),
    };
    for _i in 0..40 {
        add(&mut env, all(0, 0), None)?;
    }
    add(&mut env, all(0, TOP), None)?;
    add(&mut env, all(0, TOP), None)?;
    let mut args = List::new(alloc);
    args.push(Term::symbol(41))?;
    let fact = Fact {
        name: 0,
        args,
        off: Term::zero(),
        null: true,
    };
    add(&mut env, all(0, TOP), Some(fact))?;
    Ok(env)
}

#[test]
fn conditions_bound_symbols(rt: HostRuntime) -> Result<(), Fail> {
    let alloc = rt.alloc();
    // the index is below the length
    let env = learn(state(alloc)?, &Ineq::Ge(form(-1, 1, -1)))?;
    assert!(&rt; has(&env, 40, 0, TOP - 1) && has(&env, 41, 1, TOP));
    assert!(&rt; env.conds.len() == 1);
    // it is not 0, and was not below 0
    let env = learn(env, &Ineq::Ne(form(1, 0, 0)))?;
    assert!(&rt; has(&env, 40, 1, TOP - 1) && has(&env, 41, 1, TOP));
    // it is not the greatest number that it may be
    let env = learn(env, &Ineq::Ne(form(1, 0, 1 - TOP)))?;
    assert!(&rt; has(&env, 40, 1, TOP - 2) && env.conds.len() == 1);
    // it is not some number in between
    let env = learn(env, &Ineq::Ne(form(1, 0, -5)))?;
    assert!(&rt; has(&env, 40, 1, TOP - 2) && env.conds.len() == 2);
    Ok(())
}

#[test]
fn addresses_are_told_and_settled(rt: HostRuntime) -> Result<(), Fail> {
    let alloc = rt.alloc();
    let Some(rules) = rules(alloc)? else {
        panic!(&rt; "no rules");
    };
    let env = state(alloc)?;
    assert!(&rt; valid_env(&rules, &env));
    assert!(&rt; base(&env, &Term::symbol(42)) == Some(42));
    assert!(&rt; base(&env, &Term::symbol(41)).is_none());
    // null stays: only the end of the addresses is told, and nothing is settled
    let env = settle(&rules, tell(&rules, env, 42)?, 42)?;
    assert!(&rt; has(&env, 42, 0, LAST) && has(&env, 41, 0, TOP));
    // the address is not 0: the array lies in the addresses, so its length is small
    let env = learn(env, &Ineq::Ne(Term::symbol(42)))?;
    let env = settle(&rules, env, 42)?;
    assert!(&rt; has(&env, 42, 1, LAST) && has(&env, 41, 0, 17592186044416));
    let to = match point(&env, &Term::symbol(42)) {
        Some(p) => p.sym == 42 && !p.null,
        None => false,
    };
    assert!(&rt; to);
    let mut args = List::new(alloc);
    args.push(Term::symbol(41))?;
    let kind = CellKind::Ptr {
        name: 0,
        args,
        off: Term::zero(),
        null: false,
    };
    assert!(&rt; shown(&env, &kind, 8, &Term::symbol(42)));
    assert!(&rt; !shown(&env, &kind, 8, &Term::symbol(41)));
    assert!(&rt; valid_env(&rules, &env));
    Ok(())
}

#[test]
fn ranges_take_thresholds(rt: HostRuntime) -> Result<(), Fail> {
    let alloc = rt.alloc();
    let env = learn(state(alloc)?, &Ineq::Ge(form(-1, 1, -1)))?;
    // the length less the index is at least 1, though the ranges alone do not say so
    let range = match range_of(&env, &form(-1, 1, 0)) {
        Some(r) => r.lo == 1 && r.hi == TOP,
        None => false,
    };
    assert!(&rt; range);
    assert!(&rt; range_of(&env, &form(8, 0, 0)).is_none());
    Ok(())
}

#[test]
fn the_first_cell_is_known(rt: HostRuntime) -> Result<(), Fail> {
    let alloc = rt.alloc();
    let mut env = state(alloc)?;
    let places = [(42, 0, 4), (42, 0, 8), (42, 8, 8), (42, 8, 8)];
    for p in &places {
        env.cells.push(Cell {
            sym: p.0,
            at: form(0, 0, p.1),
            size: p.2,
            signed: false,
            value: Term::symbol(40),
        })?;
    }
    assert!(&rt; env.cells.len() < 5);
    assert!(&rt; known(&env, 42, &form(0, 0, 0), 8) == Some(1));
    assert!(&rt; known(&env, 42, &form(0, 0, 8), 8) == Some(2));
    assert!(&rt; known(&env, 42, &form(0, 0, 16), 8).is_none());
    assert!(&rt; known(&env, 41, &form(0, 0, 0), 8).is_none());
    Ok(())
}

#[test]
fn conditions_are_at_most_64(rt: HostRuntime) -> Result<(), Fail> {
    let alloc = rt.alloc();
    let mut env = state(alloc)?;
    for i in 0..64u8 {
        env.conds.push(Ineq::Ne(form(1, 1, -100 - i128::from(i))))?;
    }
    let past = match learn(env, &Ineq::Ge(form(-1, 1, 0))) {
        Err(EnvFault::Limit(EnvLimit::Conds)) => true,
        _ => false,
    };
    assert!(&rt; past);
    Ok(())
}
