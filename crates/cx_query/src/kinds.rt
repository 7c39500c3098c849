//! Whether a form is shown to be of a kind.

ghost use Rattle.std.specs.Prelude.{◌≡◌, ◌&&◌, IsTrue, Some, None, true};
ghost use Rattle.cx_query.specs.Kinds.{is_size, least_of, greatest_of, in_type, values_given, instance, args_equal, pointer_meets, point_meets, kind_shown, kind_shown_but, HoldsKind};
ghost use Rattle.cx_query.specs.Shown.{at_least, at_most, shown_equal};

use crate::forms::{at_least, at_most, shown_equal, shown_zero};
use crate::pointing::point_but;
use cx_base::List;
use cx_cells::{CellKind, cell_range};
use cx_state::{Env, Fact, Pointed};
use cx_term::Term;

fn is_size(size: u32) -> bool
    ensures { result ≡ is_size size }
{
    size == 1 || (size == 2 || (size == 4 || size == 8))
}

/// The least and the greatest number of the integer type.
fn type_ends(size: u32, signed: bool) -> (i128, i128)
    requires { is_size size ≡ true }
    ensures least { result.0 ≡ least_of size signed }
    ensures greatest { result.1 ≡ greatest_of size signed }
{
    cell_range(size, signed)
}

fn in_ends(env: &Env, size: u32, signed: bool, t: &Term) -> bool
    requires { is_size size ≡ true }
    ensures { result ≡ (at_least env.now t.now (least_of size signed) && at_most env.now t.now (greatest_of size signed)) }
{
    let ends = type_ends(size, signed);
    at_least(env, t, ends.0) && at_most(env, t, ends.1)
}

/// Whether the form is shown to lie in the range of the integer type of this size, in bytes, and sign.
pub fn in_type(env: &Env, size: u32, signed: bool, t: &Term) -> bool
    ensures { result ≡ in_type env.now size signed t.now }
{
    is_size(size) && in_ends(env, size, signed, t)
}

/// The kind's form as one of the state: as it is, or with its symbols replaced where values are given.
fn instance(given: bool, values: &[Term], u: &Term) -> Option<Term>
    ensures { result ≡ instance (values_given given values.now) u.now }
{
    if given {
        u.put_all(values)
    } else {
        Some(u.copy())
    }
}

fn equal_to(env: &Env, given: bool, values: &[Term], a: &Term, b: &Term) -> bool
    ensures { result ≡ shown_equal env.now (instance (values_given given values.now) a.now) (Some b.now) }
{
    shown_equal(env, &instance(given, values, a), &Some(b.copy()))
}

/// Whether the arguments are as many, and shown equal one by one.
fn args_equal(env: &Env, given: bool, values: &[Term], a: &[Term], b: &[Term]) -> bool
    ensures { result ≡ args_equal env.now (values_given given values.now) a.now b.now }
{
    if a.len() != b.len() {
        return false;
    }
    for i in 0..a.len() {
        if !equal_to(env, given, values, &a[i], &b[i]) {
            return false;
        }
    }
    true
}

/// Whether the kind is a pointer to where the fact says, at the offset shown.
fn pointer_meets(
    env: &Env,
    given: bool,
    values: &[Term],
    kind: &CellKind,
    p: &Pointed,
    f: &Fact,
) -> bool
    ensures { result ≡ pointer_meets env.now (values_given given values.now) kind.now p.now f.now }
{
    match kind {
        CellKind::Any => false,
        CellKind::Val {
            signed: _,
            value: _,
        } => false,
        CellKind::Ptr {
            name,
            args,
            off,
            null,
        } => {
            f.name == *name
                && (args_equal(env, given, values, args.as_slice(), f.args.as_slice())
                    && (equal_to(env, given, values, off, &p.off) && (*null || !p.null)))
        }
    }
}

fn point_meets(env: &Env, given: bool, values: &[Term], kind: &CellKind, p: Option<Pointed>) -> bool
    ensures { result ≡ point_meets env.now (values_given given values.now) kind.now p }
{
    match p {
        Some(p) => match env.fact(p.sym) {
            Some(f) => pointer_meets(env, given, values, kind, &p, f),
            None => false,
        },
        None => false,
    }
}

fn value_shown(env: &Env, given: bool, values: &[Term], u: &Term, t: &Term) -> bool
    ensures { result ≡ shown_equal env.now (Some t.now) (instance (values_given given values.now) u.now) }
{
    shown_equal(env, &Some(t.copy()), &instance(given, values, u))
}

fn kind_by(
    own: Option<u32>,
    env: &Env,
    given: bool,
    values: &[Term],
    kind: &CellKind,
    size: u32,
    t: &Term,
) -> bool
    ensures { result ≡ kind_shown_but own env.now (values_given given values.now) kind.now size t.now }
{
    match kind {
        CellKind::Any => true,
        CellKind::Val { signed, value } => {
            value_shown(env, given, values, value, t) && in_type(env, size, *signed, t)
        }
        CellKind::Ptr {
            name: _,
            args: _,
            off: _,
            null,
        } => {
            in_type(env, 8, false, t)
                && ((*null && shown_zero(env, t))
                    || point_meets(env, given, values, kind, point_but(own, env, t)))
        }
    }
}

/// Whether `value` is shown to be of the kind, whose symbols are those of the state, as a number of
/// `size` bytes: any is; a number is that is shown equal to the kind's and in the range of the integer
/// type; an address is that is shown 0 where the kind allows null, or whose point has the kind's region
/// type, arguments and offset.
pub fn shown(env: &Env, kind: &CellKind, size: u32, value: &Term) -> bool
    ensures exact { result ≡ kind_shown env.now None kind.now size value.now }
    ensures sound { IsTrue result → HoldsKind env.now None kind.now size value.now }
{
    kind_by(None, env, false, &[], kind, size, value)
}

/// Whether `value` is shown to be of the kind in which each symbol `k` is replaced by `values[k]`, all at
/// once. A form of it that is none then, as a symbol past the end is the number 0, is never shown.
pub fn shown_with(env: &Env, kind: &CellKind, values: &[Term], size: u32, value: &Term) -> bool
    ensures exact { result ≡ kind_shown env.now (Some values.now) kind.now size value.now }
    ensures sound { IsTrue result → HoldsKind env.now (Some values.now) kind.now size value.now }
{
    kind_by(None, env, true, values, kind, size, value)
}

/// As `shown_with`, where the symbol `own`, if there is one, counts as not fresh.
pub fn shown_with_but(
    own: Option<u32>,
    env: &Env,
    kind: &CellKind,
    values: &[Term],
    size: u32,
    value: &Term,
) -> bool
    ensures { result ≡ kind_shown_but own env.now (Some values.now) kind.now size value.now }
{
    kind_by(own, env, true, values, kind, size, value)
}
