ghost use Rattle.cx_reader.specs.Reading.{Gives};
ghost use Rattle.cx_tsyn.specs.Cells as tree;
ghost use Rattle.cx_tsyn.specs.Cells.{cell_kind_tree, cell_tree};
ghost use Rattle.cx_tcell.specs.Reading.{number_of, holds_at, cell_at};

use crate::pointer::pointer;
use cx_reader::{Read, Stop, front, split};
use cx_tlin::{lin, span_of};
use cx_tsyn::{SCell, SCellKind};
use cx_tword::{TypeLexeme, TypeLexemeKind, TypeWord};
use std::alloc::Global;

// The number behind the word `val`.
fn value<'a>(
    alloc: Global,
    bytes: &[u8],
    lexemes: &'a [TypeLexeme],
) -> Result<Read<'a, TypeLexeme, SCellKind>, Stop>
    ensures { Gives cell_kind_tree result (number_of bytes.now tree.val lexemes.now) }
{
    let x = lin(alloc, bytes, lexemes)?;
    Ok(Read {
        tree: SCellKind::Val(x.tree),
        rest: x.rest,
    })
}

// The number behind `u` and a size.
fn unsigned<'a>(
    alloc: Global,
    bytes: &[u8],
    size: u8,
    lexemes: &'a [TypeLexeme],
) -> Result<Read<'a, TypeLexeme, SCellKind>, Stop>
    ensures { Gives cell_kind_tree result (number_of bytes.now (tree.unsigned size) lexemes.now) }
{
    let x = lin(alloc, bytes, lexemes)?;
    Ok(Read {
        tree: SCellKind::Unsigned(size, x.tree),
        rest: x.rest,
    })
}

// The number behind `s` and a size.
fn signed<'a>(
    alloc: Global,
    bytes: &[u8],
    size: u8,
    lexemes: &'a [TypeLexeme],
) -> Result<Read<'a, TypeLexeme, SCellKind>, Stop>
    ensures { Gives cell_kind_tree result (number_of bytes.now (tree.signed size) lexemes.now) }
{
    let x = lin(alloc, bytes, lexemes)?;
    Ok(Read {
        tree: SCellKind::Signed(size, x.tree),
        rest: x.rest,
    })
}

// What a cell holds.
#[tactic(auto, unfolding(crate::specs::Reading::holds_at))]
fn holds<'a>(
    alloc: Global,
    bytes: &[u8],
    lexemes: &'a [TypeLexeme],
) -> Result<Read<'a, TypeLexeme, SCellKind>, Stop>
    ensures { Gives cell_kind_tree result (holds_at bytes.now lexemes.now) }
{
    match split(lexemes) {
        None => Err(Stop::Unread(lexemes.len())),
        Some((o, rest)) => match o.kind {
            TypeLexemeKind::Word(TypeWord::Any) => Ok(Read {
                tree: SCellKind::Any,
                rest,
            }),
            TypeLexemeKind::Word(TypeWord::Val) => value(alloc, bytes, rest),
            TypeLexemeKind::Word(TypeWord::Ptr) => pointer(alloc, bytes, rest),
            TypeLexemeKind::AnyBytes(size) => Ok(Read {
                tree: SCellKind::AnyBytes(size),
                rest,
            }),
            TypeLexemeKind::Unsigned(size) => unsigned(alloc, bytes, size, rest),
            TypeLexemeKind::Signed(size) => signed(alloc, bytes, size, rest),
            _ => Err(Stop::Unread(lexemes.len())),
        },
    }
}

// A cell.
#[tactic(auto, unfolding(crate::specs::Reading::cell_at))]
pub fn read_cell<'a>(
    alloc: Global,
    bytes: &[u8],
    lexemes: &'a [TypeLexeme],
) -> Result<Read<'a, TypeLexeme, SCell>, Stop>
    ensures { Gives cell_tree result (cell_at bytes.now lexemes.now) }
{
    let x = holds(alloc, bytes, lexemes)?;
    let span = span_of(front(lexemes, x.rest));
    Ok(Read {
        tree: SCell { span, kind: x.tree },
        rest: x.rest,
    })
}
