// The readers, by what their answers mean: what is read is spelled so, what is spelled is read, and where
// nothing is read the fault is at the first lexeme that cannot go on.

ghost use Rattle.std.specs.Prelude.{map};
ghost use Rattle.cx_reader.specs.Reading.{Gives};
ghost use Rattle.cx_reader.specs.Parts.{ReadsFront};
ghost use Rattle.cx_tsyn.specs.Words.{word_tree};
ghost use Rattle.cx_tsyn.specs.Lins.{lin_part_tree, lin_tree, relation_tree};
ghost use Rattle.cx_tlin.specs.Lins.{IsName, IsPart, IsLin, IsRelation, AreNames, AreLins, AreRelations, EndsName, EndsPart, EndsLin, EndsNames, EndsLins};
ghost use Rattle.cx_tlin.specs.Reading.{name_at, part_at, lin_at, relation_at, names_at, lins_at, relations_at};

use crate::forms::{read_lin, read_relation};
use crate::lists::{read_lins, read_names, read_relations};
use crate::parts::{read_name, read_part};
use cx_base::List;
use cx_reader::{Read, Stop};
use cx_tsyn::{Lin, LinPart, Relation, Word};
use cx_tword::TypeLexeme;
use std::alloc::Global;

/// Reads a name. `Unread` exactly where the first lexeme is none.
#[tactic(auto, using(crate::proofs::Laws::name_reads))]
pub fn name<'a>(
    alloc: Global,
    bytes: &[u8],
    lexemes: &'a [TypeLexeme],
) -> Result<Read<'a, TypeLexeme, Word>, Stop>
    ensures value { Gives word_tree result (name_at bytes.now lexemes.now) }
    ensures reads { ReadsFront (IsName bytes.now) EndsName word_tree lexemes.now result }
{
    read_name(alloc, bytes, lexemes)
}

/// Reads a part of a linear form, without a sign before it: a number, a number times a name, or a
/// name. Behind it no star stands, since a number may be a factor.
#[tactic(auto, using(crate::proofs::Laws::part_reads))]
pub fn part<'a>(
    alloc: Global,
    bytes: &[u8],
    lexemes: &'a [TypeLexeme],
) -> Result<Read<'a, TypeLexeme, LinPart>, Stop>
    ensures value { Gives lin_part_tree result (part_at bytes.now lexemes.now) }
    ensures reads { ReadsFront (IsPart bytes.now) EndsPart lin_part_tree lexemes.now result }
{
    read_part(alloc, bytes, lexemes)
}

/// Reads a linear form: parts with signs between them, of which the first may be behind a minus. Behind
/// it no star and no sign stands.
#[tactic(auto, using(crate::proofs::Laws::lin_reads))]
pub fn lin<'a>(
    alloc: Global,
    bytes: &[u8],
    lexemes: &'a [TypeLexeme],
) -> Result<Read<'a, TypeLexeme, Lin>, Stop>
    ensures value { Gives lin_tree result (lin_at bytes.now lexemes.now) }
    ensures reads { ReadsFront (IsLin bytes.now) EndsLin lin_tree lexemes.now result }
{
    read_lin(alloc, bytes, lexemes)
}

/// Reads a relation of two linear forms. Behind it no star and no sign stands.
#[tactic(auto, using(crate::proofs::Laws::relation_reads))]
pub fn relation<'a>(
    alloc: Global,
    bytes: &[u8],
    lexemes: &'a [TypeLexeme],
) -> Result<Read<'a, TypeLexeme, Relation>, Stop>
    ensures value { Gives relation_tree result (relation_at bytes.now lexemes.now) }
    ensures reads { ReadsFront (IsRelation bytes.now) EndsLin relation_tree lexemes.now result }
{
    read_relation(alloc, bytes, lexemes)
}

/// Reads names with commas between them, at least one. Behind them no comma stands.
#[tactic(auto, using(crate::proofs::Laws::names_reads))]
pub fn names<'a>(
    alloc: Global,
    bytes: &[u8],
    lexemes: &'a [TypeLexeme],
) -> Result<Read<'a, TypeLexeme, List<Word>>, Stop>
    ensures value { Gives (map word_tree) result (names_at bytes.now lexemes.now) }
    ensures reads { ReadsFront (AreNames bytes.now) EndsNames (map word_tree) lexemes.now result }
{
    read_names(alloc, bytes, lexemes)
}

/// Reads linear forms with commas between them, at least one. Behind them no star, no sign and no comma
/// stands.
#[tactic(auto, using(crate::proofs::Laws::lins_reads))]
pub fn lins<'a>(
    alloc: Global,
    bytes: &[u8],
    lexemes: &'a [TypeLexeme],
) -> Result<Read<'a, TypeLexeme, List<Lin>>, Stop>
    ensures value { Gives (map lin_tree) result (lins_at bytes.now lexemes.now) }
    ensures reads { ReadsFront (AreLins bytes.now) EndsLins (map lin_tree) lexemes.now result }
{
    read_lins(alloc, bytes, lexemes)
}

/// Reads relations with commas between them, at least one. Behind them no star, no sign and no comma
/// stands.
#[tactic(auto, using(crate::proofs::Laws::relations_reads))]
pub fn relations<'a>(
    alloc: Global,
    bytes: &[u8],
    lexemes: &'a [TypeLexeme],
) -> Result<Read<'a, TypeLexeme, List<Relation>>, Stop>
    ensures value { Gives (map relation_tree) result (relations_at bytes.now lexemes.now) }
    ensures reads { ReadsFront (AreRelations bytes.now) EndsLins (map relation_tree) lexemes.now result }
{
    read_relations(alloc, bytes, lexemes)
}
