ghost use Rattle.std.specs.Prelude.{◌↔◌, IsTrue, All};
ghost use Rattle.cx_cells.specs.Kept.{TermIn, CondIn, HasParams, KindIn, HasKindSize, CellKept, AllTold};

use crate::cell::{CellKind, FlatCell};
use crate::form::Form;
use crate::telling::telling_cell;
use cx_term::{Ineq, Term};

/// Whether each symbol that the term names is below `known`, or from `first` on and below `past`.
pub(crate) fn term_in(t: &Term, known: u32, first: u32, past: u32) -> bool
    ensures { IsTrue result ↔ TermIn known first past t.now }
{
    t.parts()
        .iter()
        .all(|p| p.0 < known || (first <= p.0 && p.0 < past))
}

fn cond_in(c: &Ineq, known: u32, first: u32, past: u32) -> bool
    ensures { IsTrue result ↔ CondIn known first past c.now }
{
    match c {
        Ineq::Ge(t) => term_in(t, known, first, past),
        Ineq::Ne(t) => term_in(t, known, first, past),
    }
}

/// Whether the conditions name such symbols alone.
pub(crate) fn conds_in(conds: &[Ineq], known: u32, first: u32, past: u32) -> bool
    ensures { IsTrue result ↔ All (CondIn known first past) conds.now }
{
    conds.iter().all(|c| cond_in(c, known, first, past))
}

/// Whether there is a form at the place, with so many parameters.
pub(crate) fn has_params(forms: &[Form], name: u32, n: usize) -> bool
    ensures { IsTrue result ↔ HasParams forms.now name n }
{
    match forms.get(name as usize) {
        Some(f) => f.params as usize == n,
        None => false,
    }
}

fn terms_in(terms: &[Term], known: u32, first: u32, past: u32) -> bool
    ensures { IsTrue result ↔ All (TermIn known first past) terms.now }
{
    terms.iter().all(|t| term_in(t, known, first, past))
}

/// Whether the kind names such symbols alone, and a pointer's region type is there and has that
/// number of arguments.
pub(crate) fn kind_in(forms: &[Form], kind: &CellKind, known: u32, first: u32, past: u32) -> bool
    ensures { IsTrue result ↔ KindIn forms.now known first past kind.now }
{
    match kind {
        CellKind::Any => true,
        CellKind::Val { signed: _, value } => term_in(value, known, first, past),
        CellKind::Ptr {
            name,
            args,
            off,
            null: _,
        } => {
            terms_in(args.as_slice(), known, first, past)
                && term_in(off, known, first, past)
                && has_params(forms, *name, args.len())
        }
    }
}

fn has_kind_size(size: u32, kind: &CellKind) -> bool
    ensures { IsTrue result ↔ HasKindSize size kind.now }
{
    match kind {
        CellKind::Any => true,
        CellKind::Val {
            signed: _,
            value: _,
        } => size == 1 || size == 2 || size == 4 || size == 8,
        CellKind::Ptr {
            name: _,
            args: _,
            off: _,
            null: _,
        } => size == 8,
    }
}

fn cell_kept(forms: &[Form], c: &FlatCell, known: u32, first: u32, past: u32, size: u32) -> bool
    ensures { IsTrue result ↔ CellKept forms.now known first past size c.now }
{
    kind_in(forms, &c.kind, known, first, past)
        && has_kind_size(c.size, &c.kind)
        && u64::from(c.at) + u64::from(c.size) <= u64::from(size)
}

/// Whether each cell is one of so many bytes that names such symbols alone.
pub(crate) fn cells_kept(
    forms: &[Form],
    cells: &[FlatCell],
    known: u32,
    first: u32,
    past: u32,
    size: u32,
) -> bool
    ensures { IsTrue result ↔ All (CellKept forms.now known first past size) cells.now }
{
    cells
        .iter()
        .all(|c| cell_kept(forms, c, known, first, past, size))
}

/// Whether each symbol from `first` on and below `past` is told by the first cell that names it.
pub(crate) fn all_told(cells: &[FlatCell], first: u32, past: u32) -> bool
    ensures { IsTrue result ↔ AllTold first past cells.now }
{
    for s in first..past {
        if telling_cell(cells, s).is_none() {
            return false;
        }
    }
    true
}
