ghost use Rattle.std.specs.Prelude.{◌≡◌, option_copied, length, position};
ghost use Rattle.cx_cells.specs.Symbols.{term_names, kind_names, is_symbol, is_number, told_by, told_at, telling_in, telling_kind, telling_cell};

use crate::cell::{CellKind, FlatCell};
use cx_term::Term;

/// How a cell tells the value of a symbol.
#[derive(Clone, Copy, Debug, PartialEq, Eq)]
pub enum Told {
    /// It is the cell's whole value.
    Value,
    /// It is the pointer's whole argument at this place.
    Argument(usize),
}

fn term_names(t: &Term, s: u32) -> bool
    ensures { result ≡ term_names s t.now }
{
    t.coefficient(s) != 0
}

/// The place of the first argument that names the symbol.
fn first_argument(args: &[Term], s: u32) -> Option<usize>
    ensures { result ≡ position (term_names s) args.now }
{
    args.iter().position(|t| term_names(t, s))
}

/// Whether a term of the cell names the symbol.
pub fn kind_names(kind: &CellKind, s: u32) -> bool
    ensures { result ≡ kind_names s kind.now }
{
    match kind {
        CellKind::Any => false,
        CellKind::Val { signed: _, value } => term_names(value, s),
        CellKind::Ptr {
            name: _,
            args,
            off,
            null: _,
        } => first_argument(args.as_slice(), s).is_some() || term_names(off, s),
    }
}

fn is_symbol(t: &Term, s: u32) -> bool
    ensures { result ≡ is_symbol s t.now }
{
    t.konst() == 0 && (t.parts().len() == 1 && t.coefficient(s) == 1)
}

fn is_number(t: &Term) -> bool
    ensures { result ≡ is_number t.now }
{
    t.parts().is_empty()
}

/// The place of the first argument that names the symbol, where that argument is the symbol.
fn told_at(args: &[Term], s: u32) -> Option<Told>
    ensures { result ≡ told_at s args.now (position (term_names s) args.now) }
{
    match first_argument(args, s) {
        Some(i) => match args.get(i) {
            Some(t) => {
                if is_symbol(t, s) {
                    Some(Told::Argument(i))
                } else {
                    None
                }
            }
            None => None,
        },
        None => None,
    }
}

/// How the cell tells the symbol: as its whole value; or as a whole argument, the first that names
/// it, of a pointer that is not null and whose offset is a number.
pub fn told_by(kind: &CellKind, s: u32) -> Option<Told>
    ensures { result ≡ told_by s kind.now }
{
    match kind {
        CellKind::Any => None,
        CellKind::Val { signed: _, value } => {
            if is_symbol(value, s) {
                Some(Told::Value)
            } else {
                None
            }
        }
        CellKind::Ptr {
            name: _,
            args,
            off,
            null,
        } => {
            if !*null && is_number(off) {
                told_at(args.as_slice(), s)
            } else {
                None
            }
        }
    }
}

/// The symbol's value by the cell at place `i`.
fn telling_in(kind: &CellKind, i: usize, s: u32) -> Option<(usize, Told)>
    ensures { result ≡ telling_in s i (Some kind.now) }
{
    match told_by(kind, s) {
        Some(w) => Some((i, w)),
        None => None,
    }
}

/// The place of the first kind that names the symbol.
fn first_kind(kinds: &[CellKind], s: u32) -> Option<usize>
    ensures { result ≡ position (kind_names s) kinds.now }
{
    kinds.iter().position(|k| kind_names(k, s))
}

/// The place of the first cell that names the symbol.
fn first_cell(cells: &[FlatCell], s: u32) -> Option<usize>
    ensures { result ≡ position (λ c. kind_names s c.kind) cells.now }
{
    cells.iter().position(|c| kind_names(&c.kind, s))
}

/// The place of the first kind that names the symbol, and how that kind tells it; None where none
/// names it or that one does not tell it.
pub fn telling_kind(kinds: &[CellKind], s: u32) -> Option<(usize, Told)>
    ensures { result ≡ telling_kind s kinds.now }
{
    match first_kind(kinds, s) {
        Some(i) => match kinds.get(i) {
            Some(k) => telling_in(k, i, s),
            None => None,
        },
        None => None,
    }
}

/// The place of the first cell that names the symbol, and how that cell tells it; None where none
/// names it or that one does not tell it.
pub fn telling_cell(cells: &[FlatCell], s: u32) -> Option<(usize, Told)>
    ensures { result ≡ telling_cell s cells.now }
{
    match first_cell(cells, s) {
        Some(i) => match cells.get(i) {
            Some(c) => telling_in(&c.kind, i, s),
            None => None,
        },
        None => None,
    }
}
