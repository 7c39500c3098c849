//! New symbols, and forms that stand for what is known or for new symbols.

ghost use Rattle.std.specs.Prelude.{◌≡◌, ◌<◌, ◌≤◌, ◌+◌, ◌^◌, ℤ, pos, neg_ℤ, length, slice_get, unsigned_abs, IfOk, true, if◌then◌else◌, None};
ghost use Rattle.cx_learn.specs.Answers.{Agrees};
ghost use Rattle.cx_query.specs.Kinds.{is_size, least_of, greatest_of};
ghost use Rattle.cx_close.specs.Knowing.{window};
ghost use Rattle.cx_open.specs.Steps.{AgreesOn};
ghost use Rattle.cx_open.specs.Naming as spec;

use cx_base::List;
use cx_cells::{CellKind, FlatCell, cell_range, telling_cell};
use cx_close::known_binder;
use cx_entail::Range;
use cx_state::{Env, EnvFault, EnvLimit, Fact};
use cx_term::Term;

/// How many symbols a state may have.
const SYMBOLS: usize = 512;

/// A state and a form of it.
#[derive(Drop)]
pub struct Named {
    pub env: Env,
    pub term: Term,
}

/// A state and forms of it.
#[derive(Drop)]
pub struct Opening {
    pub env: Env,
    pub terms: List<Term>,
}

/// A state and what is said in it of a symbol.
#[derive(Drop)]
pub struct Factual {
    pub env: Env,
    pub fact: Fact,
}

fn between(lo: i128, hi: i128) -> Range
    requires low { unsigned_abs lo ≤ 2 ^ 65 }
    requires high { unsigned_abs hi ≤ 2 ^ 65 }
    ensures { result ≡ spec.between lo hi }
{
    Range { lo, hi, m: 1, r: 0 }
}

/// The numbers that a region's argument may be.
pub(crate) fn argument_range() -> Range
    ensures { result ≡ spec.argument_range }
{
    between(-(1 << 64), 1 << 64)
}

pub(crate) fn is_size(size: u32) -> bool
    ensures { result ≡ is_size size }
{
    size == 1 || (size == 2 || (size == 4 || size == 8))
}

/// The least and the greatest number of the integer type.
pub(crate) fn type_ends(size: u32, signed: bool) -> (i128, i128)
    requires { is_size size ≡ true }
    ensures least { result.0 ≡ least_of size signed }
    ensures greatest { result.1 ≡ greatest_of size signed }
    ensures low { unsigned_abs result.0 ≤ 2 ^ 65 }
    ensures high { unsigned_abs result.1 ≤ 2 ^ 65 }
{
    cell_range(size, signed)
}

/// The numbers of the integer type.
pub(crate) fn type_range(size: u32, signed: bool) -> Range
    requires { is_size size ≡ true }
    ensures { result ≡ spec.type_range size signed }
{
    let ends = type_ends(size, signed);
    between(ends.0, ends.1)
}

fn val_range(size: u32, signed: bool) -> Range
    ensures { result ≡ (if is_size size then spec.type_range size signed else spec.argument_range) }
{
    if is_size(size) {
        return type_range(size, signed);
    }
    argument_range()
}

/// The state with one symbol more.
pub(crate) fn add(env: Env, range: Range, fact: Option<Fact>) -> Result<Env, EnvFault>
    ensures exact { Agrees result (spec.added env range fact) }
    ensures few { IfOk result (λ _. length env.ranges < 512) }
{
    if env.ranges.len() >= SYMBOLS {
        return Err(EnvFault::Limit(EnvLimit::Symbols));
    }
    let mut env = env;
    env.ranges.push(range)?;
    env.facts.push(fact)?;
    Ok(env)
}

fn new_symbol(env: Env, range: Range) -> Result<Named, EnvFault>
    ensures { AgreesOn result (spec.named env range None) }
{
    let s = env.ranges.len();
    let env = add(env, range, None)?;
    Ok(Named {
        env,
        term: Term::symbol(s as u32),
    })
}

/// The form, or where there is none a new symbol of the range.
pub(crate) fn name(env: Env, range: Range, t: Option<Term>) -> Result<Named, EnvFault>
    ensures { AgreesOn result (spec.named env range t) }
{
    match t {
        Some(term) => Ok(Named { env, term }),
        None => new_symbol(env, range),
    }
}

fn range_of_kind(size: u32, kind: &CellKind) -> Range
    ensures { result ≡ spec.range_of_kind size kind.now }
{
    match kind {
        CellKind::Any => argument_range(),
        CellKind::Val { signed, value: _ } => val_range(size, *signed),
        CellKind::Ptr {
            name: _,
            args: _,
            off: _,
            null: _,
        } => argument_range(),
    }
}

/// The range of a new symbol for the binder that is the symbol `k`.
fn binder_range(cells: &[FlatCell], k: u32) -> Range
    ensures { result ≡ spec.binder_range cells.now k }
{
    match telling_cell(cells, k) {
        Some((i, _how)) => match cells.get(i) {
            Some(c) => range_of_kind(c.size, &c.kind),
            None => argument_range(),
        },
        None => argument_range(),
    }
}

/// The value of the next binder: its known value, or a new symbol.
fn next_bound(
    s: u32,
    f: &Fact,
    start: &Option<Term>,
    cells: &[FlatCell],
    o: Opening,
) -> Result<Opening, EnvFault>
    requires few { length o.terms < 2 ^ 32 }
    ensures longer { IfOk result (λ next. length next.terms ≡ length o.terms + 1) }
    ensures exact { AgreesOn result (spec.next_bound (window None s f.now start.now cells.now) o) }
{
    let k = o.terms.len() as u32;
    let t = known_binder(None, &o.env, s, f, start, cells, k);
    let n = name(o.env, binder_range(cells, k), t)?;
    let mut terms = o.terms;
    terms.push(n.term)?;
    Ok(Opening { env: n.env, terms })
}

/// The values, and those of the next `n` binders, whose symbols come next.
pub(crate) fn bind_all(
    s: u32,
    f: &Fact,
    start: &Option<Term>,
    cells: &[FlatCell],
    n: u32,
    o: Opening,
) -> Result<Opening, EnvFault>
    requires few { length o.terms + n ≤ 40 }
    ensures longer { IfOk result (λ next. length next.terms ≡ length o.terms + n) }
    ensures exact { AgreesOn result (spec.bound n (window None s f.now start.now cells.now) o) }
{
    let mut o = o;
    for _i in 0..n {
        match next_bound(s, f, start, cells, o) {
            Ok(next) => o = next,
            Err(fault) => return Err(fault),
        }
    }
    Ok(o)
}
