ghost use Rattle.cx_reader.specs.Reading.{Gives};
ghost use Rattle.cx_reader.specs.Parts.{AnyRest, ReadsFront};
ghost use Rattle.cx_tsyn.specs.Items.{func_tree};
ghost use Rattle.cx_tfunc.specs.Funcs.{IsFunc};
ghost use Rattle.cx_tfunc.specs.Reading.{func_at};

use crate::functions::read_func;
use cx_reader::{Read, Stop};
use cx_tsyn::FuncItem;
use cx_tword::TypeLexeme;
use std::alloc::Global;

/// Reads the type of a function, up to its semicolon.
#[tactic(auto, using(crate::proofs::Laws::func_reads))]
pub fn func<'a>(
    alloc: Global,
    bytes: &[u8],
    lexemes: &'a [TypeLexeme],
) -> Result<Read<'a, TypeLexeme, FuncItem>, Stop>
    ensures value { Gives func_tree result (func_at bytes.now lexemes.now) }
    ensures reads { ReadsFront (IsFunc bytes.now) AnyRest func_tree lexemes.now result }
{
    read_func(alloc, bytes, lexemes)
}
