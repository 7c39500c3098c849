//! Whether what is known of the bytes of a part shows its conditions and its cells.

ghost use Rattle.std.specs.Prelude.{◌≡◌, Some, option_copied};
ghost use Rattle.cx_apart.specs.Apart.{shown_nonzero};
ghost use Rattle.cx_close.specs.Knowing.{window, known_cell, place_of};
ghost use Rattle.cx_close.specs.Closing as spec;

use crate::knowing::{known_cell, place_of};
use cx_cells::{CellKind, FlatCell};
use cx_learn::nonzero_in;
use cx_query::{shown_in, shown_with_but};
use cx_state::{Cell, Env, Fact};
use cx_term::{Ineq, Term};

fn shown_nonzero(env: &Env, t: Option<Term>) -> bool
    ensures { result ≡ shown_nonzero env.now t }
{
    match t {
        Some(t) => nonzero_in(env, &t),
        None => false,
    }
}

fn cond_shown(env: &Env, values: &[Term], c: &Ineq) -> bool
    ensures { result ≡ spec.cond_shown env.now values.now c.now }
{
    match c {
        Ineq::Ge(t) => shown_in(env, t.put_all(values)),
        Ineq::Ne(t) => shown_nonzero(env, t.put_all(values)),
    }
}

/// Whether each condition, with the values for its symbols, is shown.
pub(crate) fn conds_shown(env: &Env, values: &[Term], conds: &[Ineq]) -> bool
    ensures { result ≡ spec.conds_shown env.now values.now conds.now }
{
    for c in conds {
        if !cond_shown(env, values, c) {
            return false;
        }
    }
    true
}

fn is_any(kind: &CellKind) -> bool
    ensures { result ≡ spec.is_any kind.now }
{
    match kind {
        CellKind::Any => true,
        CellKind::Val {
            signed: _,
            value: _,
        } => false,
        CellKind::Ptr {
            name: _,
            args: _,
            off: _,
            null: _,
        } => false,
    }
}

fn known_shown(
    own: Option<u32>,
    env: &Env,
    values: &[Term],
    size: u32,
    kind: &CellKind,
    d: Option<&Cell>,
) -> bool
    ensures { result ≡ spec.known_shown own env.now values.now size kind.now (option_copied d.entry) }
{
    match d {
        Some(d) => shown_with_but(own, env, kind, values, size, &d.value),
        None => is_any(kind),
    }
}

fn cell_shown(
    own: Option<u32>,
    env: &Env,
    s: u32,
    f: &Fact,
    start: &Option<Term>,
    values: &[Term],
    c: &FlatCell,
) -> bool
    ensures { result ≡ spec.known_shown own env.now values.now c.now.size c.now.kind (known_cell env.now.cells s (place_of start.now f.now c.now) c.now.size) }
{
    let place = place_of(start, f, c);
    let d = known_cell(env.cells.as_slice(), s, &place, c.size);
    known_shown(own, env, values, c.size, &c.kind, d)
}

/// Whether each cell of the part that says something is known, and shown to be of its kind.
pub(crate) fn cells_shown(
    own: Option<u32>,
    env: &Env,
    s: u32,
    f: &Fact,
    start: &Option<Term>,
    values: &[Term],
    cells: &[FlatCell],
) -> bool
    ensures { result ≡ spec.cells_shown env.now (window own s f.now start.now cells.now) values.now cells.now }
{
    for c in cells {
        if !cell_shown(own, env, s, f, start, values, c) {
            return false;
        }
    }
    true
}

/// Whether all cells are any bytes.
pub(crate) fn are_any(cells: &[FlatCell]) -> bool
    ensures { result ≡ spec.are_any cells.now }
{
    for c in cells {
        if !is_any(&c.kind) {
            return false;
        }
    }
    true
}
