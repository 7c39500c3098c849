ghost use Rattle.cx_reader.specs.Reading.{Gives};
ghost use Rattle.cx_reader.specs.Parts.{AnyRest, ReadsFront};
ghost use Rattle.cx_tsyn.specs.Items.{region_tree, global_tree};
ghost use Rattle.cx_tregion.specs.Regions.{IsRegion, IsGlobal};
ghost use Rattle.cx_tregion.specs.Reading.{region_at, global_at};

use crate::globals::read_global;
use crate::regions::read_region;
use cx_reader::{Read, Stop};
use cx_tsyn::{GlobalItem, RegionItem};
use cx_tword::TypeLexeme;
use std::alloc::Global;

/// Reads a region, up to its semicolon.
#[tactic(auto, using(crate::proofs::Laws::region_reads))]
pub fn region<'a>(
    alloc: Global,
    bytes: &[u8],
    lexemes: &'a [TypeLexeme],
) -> Result<Read<'a, TypeLexeme, RegionItem>, Stop>
    ensures value { Gives region_tree result (region_at bytes.now lexemes.now) }
    ensures reads { ReadsFront (IsRegion bytes.now) AnyRest region_tree lexemes.now result }
{
    read_region(alloc, bytes, lexemes)
}

/// Reads a global, up to its semicolon.
#[tactic(auto, using(crate::proofs::Laws::global_reads))]
pub fn global<'a>(
    alloc: Global,
    bytes: &[u8],
    lexemes: &'a [TypeLexeme],
) -> Result<Read<'a, TypeLexeme, GlobalItem>, Stop>
    ensures value { Gives global_tree result (global_at bytes.now lexemes.now) }
    ensures reads { ReadsFront (IsGlobal bytes.now) AnyRest global_tree lexemes.now result }
{
    read_global(alloc, bytes, lexemes)
}
