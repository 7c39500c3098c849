ghost use Rattle.cx_reader.specs.Reading.{Gives};
ghost use Rattle.cx_reader.specs.Parts.{ReadsFront};
ghost use Rattle.cx_tsyn.specs.Cells.{cell_tree};
ghost use Rattle.cx_tcell.specs.Cells.{IsCell, EndsCell};
ghost use Rattle.cx_tcell.specs.Reading.{cell_at};

use crate::holds::read_cell;
use cx_reader::{Read, Stop};
use cx_tsyn::SCell;
use cx_tword::TypeLexeme;
use std::alloc::Global;

/// Reads a cell. Behind it no star, no sign, no opening parenthesis and no `null` stands.
#[tactic(auto, using(crate::proofs::Laws::cell_reads))]
pub fn cell<'a>(
    alloc: Global,
    bytes: &[u8],
    lexemes: &'a [TypeLexeme],
) -> Result<Read<'a, TypeLexeme, SCell>, Stop>
    ensures value { Gives cell_tree result (cell_at bytes.now lexemes.now) }
    ensures reads { ReadsFront (IsCell bytes.now) EndsCell cell_tree lexemes.now result }
{
    read_cell(alloc, bytes, lexemes)
}
