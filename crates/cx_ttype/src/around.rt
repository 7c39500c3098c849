// What may stand around an atom.

ghost use Rattle.std.specs.Prelude.{map, option_map};
ghost use Rattle.cx_reader.specs.Reading.{Gives};
ghost use Rattle.cx_tsyn.specs.Words.{word_tree};
ghost use Rattle.cx_tsyn.specs.Lins.{lin_tree, relation_tree};
ghost use Rattle.cx_ttype.specs.Reading.{binders_at, times_at, conds_at};

use cx_base::List;
use cx_cword::Punctuator;
use cx_reader::{Read, Stop, split};
use cx_tlin::{lin, names, relations};
use cx_tsyn::{Lin, Relation, Word};
use cx_tword::{TypeLexeme, TypeWord, is_mark, is_word};
use std::alloc::Global;

/// Reads the names between `some` and `of`; no names where no `some` stands first.
#[tactic(auto, unfolding(crate::specs::Reading::binders_at))]
pub fn binders<'a>(
    alloc: Global,
    bytes: &[u8],
    lexemes: &'a [TypeLexeme],
) -> Result<Read<'a, TypeLexeme, List<Word>>, Stop>
    ensures { Gives (map word_tree) result (binders_at bytes.now lexemes.now) }
{
    match split(lexemes) {
        Some((o, rest)) if is_word(TypeWord::Some, o) => {
            let x = names(alloc, bytes, rest)?;
            match split(x.rest) {
                Some((c, rest)) if is_word(TypeWord::Of, c) => Ok(Read { tree: x.tree, rest }),
                _ => Err(Stop::Unread(x.rest.len())),
            }
        }
        _ => Ok(Read {
            tree: List::new(alloc),
            rest: lexemes,
        }),
    }
}

// How many stand in a row, if brackets stand first.
#[tactic(auto, unfolding(crate::specs::Reading::times_at))]
pub fn times<'a>(
    alloc: Global,
    bytes: &[u8],
    lexemes: &'a [TypeLexeme],
) -> Result<Read<'a, TypeLexeme, Option<Lin>>, Stop>
    ensures { Gives (option_map lin_tree) result (times_at bytes.now lexemes.now) }
{
    match split(lexemes) {
        Some((o, rest)) if is_mark(Punctuator::OpenBracket, o) => {
            let x = lin(alloc, bytes, rest)?;
            match split(x.rest) {
                Some((c, rest)) if is_mark(Punctuator::CloseBracket, c) => Ok(Read {
                    tree: Some(x.tree),
                    rest,
                }),
                _ => Err(Stop::Unread(x.rest.len())),
            }
        }
        _ => Ok(Read {
            tree: None,
            rest: lexemes,
        }),
    }
}

/// Reads the relations behind `where`; no relations where no `where` stands first.
#[tactic(auto, unfolding(crate::specs::Reading::conds_at))]
pub fn conds<'a>(
    alloc: Global,
    bytes: &[u8],
    lexemes: &'a [TypeLexeme],
) -> Result<Read<'a, TypeLexeme, List<Relation>>, Stop>
    ensures { Gives (map relation_tree) result (conds_at bytes.now lexemes.now) }
{
    match split(lexemes) {
        Some((o, rest)) if is_word(TypeWord::Where, o) => relations(alloc, bytes, rest),
        _ => Ok(Read {
            tree: List::new(alloc),
            rest: lexemes,
        }),
    }
}
