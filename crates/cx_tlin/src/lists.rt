ghost use Rattle.std.specs.Prelude.{◌≡◌, map};
ghost use Rattle.cx_cword.specs.declared.word.Punctuator.TheVariants as p;
ghost use Rattle.cx_reader.specs.Reading.{Gives};
ghost use Rattle.cx_tsyn.specs.Words.{WordTree, word_tree};
ghost use Rattle.cx_tsyn.specs.Lins.{LinTree, RelationTree, lin_tree, relation_tree};
ghost use Rattle.cx_tword.specs.Marks as marks;
ghost use Rattle.cx_tlin.specs.Reading.{name_at, lin_at, relation_at, names_at, lins_at, relations_at};

use crate::forms::{read_lin, read_relation};
use crate::parts::read_name;
use cx_base::List;
use cx_cword::Punctuator;
use cx_reader::{Items, Read, Stop, listed};
use cx_tsyn::{Lin, Relation, Word};
use cx_tword::{TypeLexeme, is_mark};
use std::alloc::Global;

/// Names of the text, with commas between them.
#[derive(Drop)]
pub struct Names<'b> {
    pub alloc: Global,
    pub bytes: &'b [u8],
}

impl<'b> Items<TypeLexeme> for Names<'b> {
    type Item = Word;

    ghost Tree = { WordTree };

    ghost tree = { word_tree };

    ghost between = { marks.is_mark p.Comma };

    ghost item_at = { λ s. name_at s.bytes.now };

    fn is_between(&self, lexeme: TypeLexeme) -> bool {
        is_mark(Punctuator::Comma, lexeme)
    }

    fn item<'a>(&self, lexemes: &'a [TypeLexeme]) -> Result<Read<'a, TypeLexeme, Word>, Stop> {
        read_name(self.alloc, self.bytes, lexemes)
    }
}

/// Linear forms of the text, with commas between them.
#[derive(Drop)]
pub struct Lins<'b> {
    pub alloc: Global,
    pub bytes: &'b [u8],
}

impl<'b> Items<TypeLexeme> for Lins<'b> {
    type Item = Lin;

    ghost Tree = { LinTree };

    ghost tree = { lin_tree };

    ghost between = { marks.is_mark p.Comma };

    ghost item_at = { λ s. lin_at s.bytes.now };

    fn is_between(&self, lexeme: TypeLexeme) -> bool {
        is_mark(Punctuator::Comma, lexeme)
    }

    fn item<'a>(&self, lexemes: &'a [TypeLexeme]) -> Result<Read<'a, TypeLexeme, Lin>, Stop> {
        read_lin(self.alloc, self.bytes, lexemes)
    }
}

// Relations of the text, with commas between them.
#[derive(Drop)]
struct Relations<'b> {
    alloc: Global,
    bytes: &'b [u8],
}

impl<'b> Items<TypeLexeme> for Relations<'b> {
    type Item = Relation;

    ghost Tree = { RelationTree };

    ghost tree = { relation_tree };

    ghost between = { marks.is_mark p.Comma };

    ghost item_at = { λ s. relation_at s.bytes.now };

    fn is_between(&self, lexeme: TypeLexeme) -> bool {
        is_mark(Punctuator::Comma, lexeme)
    }

    fn item<'a>(&self, lexemes: &'a [TypeLexeme]) -> Result<Read<'a, TypeLexeme, Relation>, Stop> {
        read_relation(self.alloc, self.bytes, lexemes)
    }
}

// Names with commas between them, at least one.
pub fn read_names<'a>(
    alloc: Global,
    bytes: &[u8],
    lexemes: &'a [TypeLexeme],
) -> Result<Read<'a, TypeLexeme, List<Word>>, Stop>
    ensures { Gives (map word_tree) result (names_at bytes.now lexemes.now) }
{
    listed(alloc, &Names { alloc, bytes }, lexemes)
}

// Linear forms with commas between them, at least one.
pub fn read_lins<'a>(
    alloc: Global,
    bytes: &[u8],
    lexemes: &'a [TypeLexeme],
) -> Result<Read<'a, TypeLexeme, List<Lin>>, Stop>
    ensures { Gives (map lin_tree) result (lins_at bytes.now lexemes.now) }
{
    listed(alloc, &Lins { alloc, bytes }, lexemes)
}

// Relations with commas between them, at least one.
pub fn read_relations<'a>(
    alloc: Global,
    bytes: &[u8],
    lexemes: &'a [TypeLexeme],
) -> Result<Read<'a, TypeLexeme, List<Relation>>, Stop>
    ensures { Gives (map relation_tree) result (relations_at bytes.now lexemes.now) }
{
    listed(alloc, &Relations { alloc, bytes }, lexemes)
}
