ghost use Rattle.cx_reader.specs.Reading.{Gives};
ghost use Rattle.cx_reader.specs.Parts.{ReadsFront};
ghost use Rattle.cx_tsyn.specs.Types.{stype_tree};
ghost use Rattle.cx_ttype.specs.Types.{IsType, EndsType};
ghost use Rattle.cx_ttype.specs.Reading.{stype_at};

use crate::types::read_type;
use cx_reader::{Read, Stop};
use cx_tsyn::SType;
use cx_tword::TypeLexeme;
use std::alloc::Global;

/// Reads a type. Behind it stands nothing that goes on with a type or a cell: no star, no sign, no opening
/// parenthesis or bracket, no comma, no `null`, no `as` and no `where`. Each bracket that is open takes some
/// of the stack.
#[tactic(auto, using(crate::proofs::Laws::type_reads))]
pub fn stype<'a>(
    alloc: Global,
    bytes: &[u8],
    lexemes: &'a [TypeLexeme],
) -> Result<Read<'a, TypeLexeme, SType>, Stop>
    ensures value { Gives stype_tree result (stype_at bytes.now lexemes.now) }
    ensures reads { ReadsFront (IsType bytes.now) EndsType stype_tree lexemes.now result }
{
    read_type(alloc, bytes, lexemes.len() + 1, lexemes)
}
