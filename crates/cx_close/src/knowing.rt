//! What is known of the bytes of a part of a region: the known cells, and the known values of binders.

ghost use Rattle.std.specs.Prelude.{◌≡◌, ◌≤◌, ◌+◌, ◌&&◌, not, ◌==◌, Some, option_copied, option_map, length, slice_get};
ghost use Rattle.cx_cells.specs.Symbols.{telling_cell};
ghost use Rattle.cx_query.specs.Kinds.{in_type};
ghost use Rattle.cx_query.specs.Shown.{number};
ghost use Rattle.cx_entail.specs.Shows.{same_form};
ghost use Rattle.cx_state.specs.Known.{is_cell_at, known_in};
ghost use Rattle.cx_close.specs.Knowing as spec;

use arrayvec::ArrayVec;
use cx_cells::{CellKind, FlatCell, Told, telling_cell};
use cx_query::{difference, in_type, number, point_but, shown_equal, sum};
use cx_state::{Cell, Env, Fact, Pointed};
use cx_term::Term;

/// Forms as the values of symbols: of at most 8 parameters, 16 binders of a form, and 16 of a part.
pub(crate) type Values = ArrayVec<Term, 40>;

fn copied(t: &Option<Term>) -> Option<Term>
    ensures { result ≡ t.now }
{
    match t {
        Some(t) => Some(t.copy()),
        None => None,
    }
}

/// Where the cell of a part lies, counted from the symbol with the fact `f`: the part begins `start` bytes
/// past the region's base. None exactly where that is no form.
pub fn place_of(start: &Option<Term>, f: &Fact, c: &FlatCell) -> Option<Term>
    ensures { result ≡ spec.place_of start.now f.now c.now }
{
    difference(
        sum(copied(start), number(i128::from(c.at))),
        Some(f.off.copy()),
    )
}

fn same_form(a: &Term, b: &Term) -> bool
    ensures { result ≡ same_form a.now b.now }
{
    a.same(b)
}

fn is_cell_at(c: &Cell, s: u32, at: &Term, size: u32) -> bool
    ensures { result ≡ is_cell_at s at.now size c.now }
{
    c.sym == s && (u32::from(c.size) == size && same_form(&c.at, at))
}

fn first_cell(cells: &[Cell], s: u32, at: &Term, size: u32) -> Option<usize>
    ensures { result ≡ known_in cells.now s at.now size }
{
    cells.iter().position(|c| is_cell_at(c, s, at, size))
}

fn cell_at(cells: &[Cell], i: Option<usize>) -> Option<&Cell>
    ensures { option_copied result ≡ spec.cell_at cells.now i }
{
    match i {
        Some(i) => cells.get(i),
        None => None,
    }
}

/// The known cell of the symbol at the place, of `size` bytes. None where there is none, or the place is
/// no form.
pub fn known_cell<'a>(
    cells: &'a [Cell],
    s: u32,
    place: &Option<Term>,
    size: u32,
) -> Option<&'a Cell>
    ensures { option_copied result ≡ spec.known_cell cells.now s place.now size }
{
    match place {
        Some(at) => cell_at(cells, first_cell(cells, s, at, size)),
        None => None,
    }
}

fn number_known(env: &Env, size: u32, signed: bool, d: Option<&Cell>) -> Option<Term>
    ensures { result ≡ spec.number_known env.now size signed (option_copied d.entry) }
{
    match d {
        Some(d) => {
            if in_type(env, size, signed, &d.value) {
                Some(d.value.copy())
            } else {
                None
            }
        }
        None => None,
    }
}

fn item_at(items: &[Term], i: usize) -> Option<Term>
    ensures { result ≡ slice_get items.now i }
{
    match items.get(i) {
        Some(t) => Some(t.copy()),
        None => None,
    }
}

fn argument_of(env: &Env, name: u32, off: &Term, i: usize, p: &Pointed) -> Option<Term>
    ensures { result ≡ spec.argument_at env.now name off.now i (Some p.now) }
{
    match env.fact(p.sym) {
        Some(g) => {
            if !p.null
                && (g.name == name && shown_equal(env, &Some(p.off.copy()), &Some(off.copy())))
            {
                item_at(g.args.as_slice(), i)
            } else {
                None
            }
        }
        None => None,
    }
}

fn argument_at(env: &Env, name: u32, off: &Term, i: usize, p: Option<Pointed>) -> Option<Term>
    ensures { result ≡ spec.argument_at env.now name off.now i p }
{
    match p {
        Some(p) => argument_of(env, name, off, i, &p),
        None => None,
    }
}

fn argument_known(
    own: Option<u32>,
    env: &Env,
    name: u32,
    off: &Term,
    i: usize,
    d: Option<&Cell>,
) -> Option<Term>
    ensures { result ≡ spec.argument_known own env.now name off.now i (option_copied d.entry) }
{
    match d {
        Some(d) => argument_at(env, name, off, i, point_but(own, env, &d.value)),
        None => None,
    }
}

fn told(
    own: Option<u32>,
    env: &Env,
    size: u32,
    kind: &CellKind,
    how: Told,
    d: Option<&Cell>,
) -> Option<Term>
    ensures { result ≡ spec.told own env.now size kind.now how (option_copied d.entry) }
{
    match kind {
        CellKind::Any => None,
        CellKind::Val { signed, value: _ } => number_known(env, size, *signed, d),
        CellKind::Ptr {
            name,
            args: _,
            off,
            null: _,
        } => match how {
            Told::Value => None,
            Told::Argument(i) => argument_known(own, env, *name, off, i, d),
        },
    }
}

/// The cell of the part at the place, by how it tells a binder.
fn told_by(
    own: Option<u32>,
    env: &Env,
    s: u32,
    f: &Fact,
    start: &Option<Term>,
    c: &FlatCell,
    how: Told,
) -> Option<Term>
    ensures { result ≡ spec.told own env.now c.now.size c.now.kind how (spec.known_cell env.now.cells s (spec.place_of start.now f.now c.now) c.now.size) }
{
    let place = place_of(start, f, c);
    told(
        own,
        env,
        c.size,
        &c.kind,
        how,
        known_cell(env.cells.as_slice(), s, &place, c.size),
    )
}

/// The known value of the binder that is the symbol `k` of a form, by the cells of the part that begins
/// `start` bytes past the base of the region into which the symbol `s` with the fact `f` points. The symbol
/// `own`, if there is one, counts as not fresh. None where no value is known.
pub fn known_binder(
    own: Option<u32>,
    env: &Env,
    s: u32,
    f: &Fact,
    start: &Option<Term>,
    cells: &[FlatCell],
    k: u32,
) -> Option<Term>
    ensures { result ≡ spec.known_binder env.now (spec.window own s f.now start.now cells.now) k }
{
    match telling_cell(cells, k) {
        Some((i, how)) => match cells.get(i) {
            Some(c) => told_by(own, env, s, f, start, c, how),
            None => None,
        },
        None => None,
    }
}

fn with_all(known: &[Term]) -> Values
    requires { length known.now ≤ 40 }
    ensures { result.items ≡ known.now }
{
    let mut values = ArrayVec::new();
    for t in known {
        values.push(t.copy());
    }
    values
}

/// The known forms and the known values of the next `n` binders, whose symbols come next. None where one
/// is not known.
pub(crate) fn known_binders(
    own: Option<u32>,
    env: &Env,
    s: u32,
    f: &Fact,
    start: &Option<Term>,
    cells: &[FlatCell],
    known: &[Term],
    n: u32,
) -> Option<Values>
    requires few { length known.now + n ≤ 40 }
    ensures { option_map (λ values. values.items) result ≡ spec.known_binders env.now (spec.window own s f.now start.now cells.now) n (Some known.now) }
{
    let mut values = with_all(known);
    let first = known.len() as u32;
    for k in first..first + n {
        match known_binder(own, env, s, f, start, cells, k) {
            Some(t) => values.push(t),
            None => return None,
        }
    }
    Some(values)
}
