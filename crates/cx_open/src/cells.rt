//! What a state becomes when the conditions and cells of a part of a region are true.

ghost use Rattle.std.specs.Prelude.{◌≡◌, ◌&&◌, not, Some, None, option_copied, true, if◌then◌else◌, [], Ok};
ghost use Rattle.cx_learn.specs.Answers.{Agrees};
ghost use Rattle.cx_query.specs.Kinds.{is_size, instance, least_of, greatest_of};
ghost use Rattle.cx_close.specs.Knowing.{window, known_cell, place_of};
ghost use Rattle.cx_open.specs.Steps.{AgreesOn};
ghost use Rattle.cx_open.specs.Cells as spec;

use crate::naming::{
    Factual, Named, Opening, add, argument_range, is_size, name, type_ends, type_range,
};
use cx_apart::with_cell;
use cx_base::List;
use cx_cells::{CellKind, FlatCell, Rules};
use cx_close::{known_cell, place_of};
use cx_fact::{tell, with_fact};
use cx_learn::{learn, learn_if};
use cx_query::{difference, number};
use cx_state::{Cell, Env, EnvFault, Fact};
use cx_term::{Ineq, Term};

fn learn_ne_if(env: Env, t: Option<Term>) -> Result<Env, EnvFault>
    ensures { Agrees result (spec.learnt_ne_if env t) }
{
    match t {
        Some(t) => learn(env, &Ineq::Ne(t)),
        None => Ok(env),
    }
}

fn learn_with(values: &[Term], env: Env, c: &Ineq) -> Result<Env, EnvFault>
    ensures { Agrees result (spec.learnt_with values.now env c.now) }
{
    match c {
        Ineq::Ge(t) => learn_if(env, t.put_all(values)),
        Ineq::Ne(t) => learn_ne_if(env, t.put_all(values)),
    }
}

/// The state in which each condition, with the values for its symbols, is learnt in order; one that is no
/// `Term` then is left out. `Limit` exactly where the conditions would be more than 64.
pub fn learn_all(values: &[Term], env: Env, conds: &[Ineq]) -> Result<Env, EnvFault>
    ensures { Agrees result (spec.learnt_all values.now env conds.now) }
{
    let mut env = env;
    for c in conds {
        env = learn_with(values, env, c)?;
    }
    Ok(env)
}

fn copied(t: &Option<Term>) -> Option<Term>
    ensures { result ≡ t.now }
{
    match t {
        Some(t) => Some(t.copy()),
        None => None,
    }
}

fn learn_equal(env: Env, t: &Option<Term>, u: &Option<Term>) -> Result<Env, EnvFault>
    ensures { Agrees result (spec.learnt_equal env t.now u.now) }
{
    let env = learn_if(env, difference(copied(t), copied(u)))?;
    learn_if(env, difference(copied(u), copied(t)))
}

fn learn_ends(env: Env, lo: i128, hi: i128, t: &Term) -> Result<Env, EnvFault>
    ensures { Agrees result (spec.learnt_ends env lo hi t.now) }
{
    let env = learn_if(env, difference(Some(t.copy()), number(lo)))?;
    learn_if(env, difference(number(hi), Some(t.copy())))
}

/// The form is in the range of the integer type.
fn learn_type(env: Env, size: u32, signed: bool, t: &Term) -> Result<Env, EnvFault>
    requires { is_size size ≡ true }
    ensures { Agrees result (spec.learnt_type env size signed t.now) }
{
    let ends = type_ends(size, signed);
    learn_ends(env, ends.0, ends.1, t)
}

fn cell_of(s: u32, at: &Term, size: u8, signed: bool, t: &Term) -> Cell
    ensures { result ≡ spec.cell_of s at.now size signed t.now }
{
    Cell {
        sym: s,
        at: at.copy(),
        size,
        signed,
        value: t.copy(),
    }
}

fn new_value(s: u32, at: &Term, size: u32, signed: bool, n: Named) -> Result<Env, EnvFault>
    requires { is_size size ≡ true }
    ensures { Agrees result (spec.new_value s at.now size signed n) }
{
    let env = with_cell(n.env, cell_of(s, at, size as u8, signed, &n.term))?;
    learn_type(env, size, signed, &n.term)
}

fn same_sign(a: bool, b: bool) -> bool
    ensures { result ≡ spec.same_sign a b }
{
    if a { b } else { !b }
}

fn open_new_val(
    env: Env,
    s: u32,
    size: u32,
    signed: bool,
    u: Option<Term>,
    at: &Term,
) -> Result<Env, EnvFault>
    requires { is_size size ≡ true }
    ensures { Agrees result (spec.val_opened env s size signed u (Some at.now) None) }
{
    let n = name(env, type_range(size, signed), u)?;
    new_value(s, at, size, signed, n)
}

fn open_known_val(env: Env, signed: bool, u: Option<Term>, d: Cell) -> Result<Env, EnvFault>
    ensures { Agrees result (if spec.same_sign d.signed signed then spec.learnt_equal env (Some d.value) u else Ok env) }
{
    if same_sign(d.signed, signed) {
        return learn_equal(env, &Some(d.value), &u);
    }
    Ok(env)
}

fn open_val(
    env: Env,
    s: u32,
    size: u32,
    signed: bool,
    u: Option<Term>,
    at: Option<Term>,
    d: Option<Cell>,
) -> Result<Env, EnvFault>
    requires { is_size size ≡ true }
    ensures { Agrees result (spec.val_opened env s size signed u at d) }
{
    match at {
        Some(at) => match d {
            Some(d) => open_known_val(env, signed, u, d),
            None => open_new_val(env, s, size, signed, u, &at),
        },
        None => Ok(env),
    }
}

fn name_args(values: &[Term], env: Env, args: &[Term]) -> Result<Opening, EnvFault>
    ensures { AgreesOn result (spec.args_named values.now (spec.begun env) args.now) }
{
    let mut env = env;
    let mut terms = List::new(env.ranges.alloc());
    for u in args {
        let n = name(env, argument_range(), u.put_all(values))?;
        env = n.env;
        terms.push(n.term)?;
    }
    Ok(Opening { env, terms })
}

fn fact_at(name: u32, args: List<Term>, off: Term, null: bool) -> Fact
    ensures { result ≡ spec.pointer_fact name args off null }
{
    Fact {
        name,
        args,
        off,
        null,
    }
}

fn name_offset(
    values: &[Term],
    name_of: u32,
    off: &Term,
    null: bool,
    o: Opening,
) -> Result<Factual, EnvFault>
    ensures { AgreesOn result (spec.offset_named values.now name_of off.now null o) }
{
    let n = name(o.env, argument_range(), off.put_all(values))?;
    Ok(Factual {
        env: n.env,
        fact: fact_at(name_of, o.terms, n.term, null),
    })
}

/// The fact that the pointer's kind says.
fn name_fact(
    values: &[Term],
    env: Env,
    name_of: u32,
    args: &[Term],
    off: &Term,
    null: bool,
) -> Result<Factual, EnvFault>
    ensures { AgreesOn result (spec.fact_named values.now env name_of args.now off.now null) }
{
    let o = name_args(values, env, args)?;
    name_offset(values, name_of, off, null, o)
}

/// A new symbol with the fact, which is told, and its cell.
fn new_pointer(rules: &Rules, s: u32, at: &Term, o: Factual) -> Result<Env, EnvFault>
    ensures { Agrees result (spec.new_pointer rules.now.forms s at.now o) }
{
    let count = o.env.ranges.len();
    let env = add(o.env, type_range(8, false), Some(o.fact))?;
    let t = count as u32;
    let env = tell(rules, env, t)?;
    with_cell(env, cell_of(s, at, 8, false, &Term::symbol(t)))
}

fn is_lone(env: &Env, s: u32, k: i64, z: i128) -> bool
    ensures { result ≡ spec.is_lone env.now.facts z (s, k) }
{
    z == 0 && (k == 1 && env.fact(s).is_none())
}

/// The symbol that the form is, where it is one symbol without a fact.
fn lone(env: &Env, t: &Term) -> Option<u32>
    ensures { result ≡ spec.lone_in env.now.facts t.now.konst t.now.parts }
{
    let parts = t.parts();
    if parts.len() != 1 {
        return None;
    }
    let (s, k) = parts[0];
    if is_lone(env, s, k, t.konst()) {
        Some(s)
    } else {
        None
    }
}

fn give_fact(rules: &Rules, t: u32, o: Factual) -> Result<Env, EnvFault>
    ensures { Agrees result (spec.fact_given rules.now.forms t o) }
{
    let env = with_fact(o.env, t, &o.fact)?;
    tell(rules, env, t)
}

fn open_known_ptr(
    rules: &Rules,
    env: Env,
    values: &[Term],
    name_of: u32,
    args: &[Term],
    off: &Term,
    null: bool,
    d: Cell,
) -> Result<Env, EnvFault>
    ensures { Agrees result (spec.ptr_known rules.now.forms env values.now name_of args.now off.now null d) }
{
    if d.signed {
        return Ok(env);
    }
    match lone(&env, &d.value) {
        Some(t) => {
            let o = name_fact(values, env, name_of, args, off, null)?;
            give_fact(rules, t, o)
        }
        None => Ok(env),
    }
}

fn open_new_ptr(
    rules: &Rules,
    env: Env,
    values: &[Term],
    s: u32,
    name_of: u32,
    args: &[Term],
    off: &Term,
    null: bool,
    at: &Term,
) -> Result<Env, EnvFault>
    ensures { Agrees result (spec.ptr_opened rules.now.forms env values.now s name_of args.now off.now null (Some at.now) None) }
{
    let o = name_fact(values, env, name_of, args, off, null)?;
    new_pointer(rules, s, at, o)
}

fn open_ptr(
    rules: &Rules,
    env: Env,
    values: &[Term],
    s: u32,
    kind: &CellKind,
    at: Option<Term>,
    d: Option<Cell>,
) -> Result<Env, EnvFault>
    ensures { Agrees result (spec.pointer_opened rules.now.forms values.now env s kind.now at d) }
{
    match kind {
        CellKind::Ptr {
            name,
            args,
            off,
            null,
        } => match at {
            Some(at) => match d {
                Some(d) => {
                    open_known_ptr(rules, env, values, *name, args.as_slice(), off, *null, d)
                }
                None => {
                    let args = args.as_slice();
                    open_new_ptr(rules, env, values, s, *name, args, off, *null, &at)
                }
            },
            None => Ok(env),
        },
        CellKind::Any => Ok(env),
        CellKind::Val {
            signed: _,
            value: _,
        } => Ok(env),
    }
}

fn open_kind(
    rules: &Rules,
    values: &[Term],
    env: Env,
    s: u32,
    size: u32,
    kind: &CellKind,
    at: Option<Term>,
    d: Option<Cell>,
) -> Result<Env, EnvFault>
    ensures { Agrees result (spec.kind_opened rules.now.forms values.now env s size kind.now at d) }
{
    match kind {
        CellKind::Val { signed, value } => {
            if is_size(size) {
                return open_val(env, s, size, *signed, value.put_all(values), at, d);
            }
            Ok(env)
        }
        CellKind::Any => Ok(env),
        CellKind::Ptr {
            name: _,
            args: _,
            off: _,
            null: _,
        } => open_ptr(rules, env, values, s, kind, at, d),
    }
}

fn copied_cell(d: Option<&Cell>) -> Option<Cell>
    ensures { result ≡ option_copied d.entry }
{
    match d {
        Some(d) => Some(d.copy()),
        None => None,
    }
}

fn open_cell(
    rules: &Rules,
    s: u32,
    f: &Fact,
    start: &Option<Term>,
    values: &[Term],
    env: Env,
    c: &FlatCell,
) -> Result<Env, EnvFault>
    ensures { Agrees result (spec.cell_opened rules.now.forms (window None s f.now start.now []) values.now env c.now) }
{
    let at = place_of(start, f, c);
    let d = copied_cell(known_cell(env.cells.as_slice(), s, &at, c.size));
    open_kind(rules, values, env, s, c.size, &c.kind, at, d)
}

/// The state in which what each cell of the part says is known.
pub(crate) fn open_cells(
    rules: &Rules,
    s: u32,
    f: &Fact,
    start: &Option<Term>,
    values: &[Term],
    env: Env,
    cells: &[FlatCell],
) -> Result<Env, EnvFault>
    ensures { Agrees result (spec.cells_opened rules.now.forms (window None s f.now start.now []) values.now env cells.now) }
{
    let mut env = env;
    for c in cells {
        env = open_cell(rules, s, f, start, values, env, c)?;
    }
    Ok(env)
}
