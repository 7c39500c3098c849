ghost use Rattle.cx_cname.specs.Known.{known_of};
ghost use Rattle.cx_reader.specs.Reading.{Gives};
ghost use Rattle.cx_reader.specs.Parts.{AnyRest, ReadsFront};
ghost use Rattle.cx_tsyn.specs.Items.{alloc_tree};
ghost use Rattle.cx_talloc.specs.Allocs.{IsAlloc};
ghost use Rattle.cx_talloc.specs.Reading.{alloc_at};

use crate::alloc::read_alloc;
use cx_ctree::Unit;
use cx_reader::{Read, Stop};
use cx_tsyn::AllocItem;
use cx_tword::TypeLexeme;
use std::alloc::Global;

/// Reads an allocator, up to its semicolon. Its type of C is one of what the unit declares.
#[tactic(auto, using(crate::proofs::Laws::alloc_reads))]
pub fn allocator<'a>(
    alloc: Global,
    bytes: &[u8],
    unit: &Unit,
    lexemes: &'a [TypeLexeme],
) -> Result<Read<'a, TypeLexeme, AllocItem>, Stop>
    ensures value { Gives alloc_tree result (alloc_at bytes.now (known_of unit.now) lexemes.now) }
    ensures reads { ReadsFront (IsAlloc bytes.now (known_of unit.now)) AnyRest alloc_tree lexemes.now result }
{
    read_alloc(alloc, bytes, unit, lexemes)
}
