ghost use Rattle.std.specs.Prelude.{map};
ghost use Rattle.cx_reader.specs.Reading.{Gives};
ghost use Rattle.cx_tsyn.specs.Words.{word_tree};
ghost use Rattle.cx_tsyn.specs.Items.{region_tree};
ghost use Rattle.cx_tregion.specs.Reading.{shared_at, region_end, region_from, region_at};
ghost use Rattle.cx_tregion.specs.Parts.{parts_tree};

use cx_base::List;
use cx_cword::Punctuator;
use cx_reader::{Read, Stop, front, split};
use cx_tcell::in_parentheses;
use cx_tlin::{Names, name, span_of};
use cx_tsyn::{RegionItem, SType, Word};
use cx_ttype::stype;
use cx_tword::{TypeLexeme, TypeWord, is_mark, is_word};
use std::alloc::Global;

/// A region without its place.
#[derive(Debug, Drop)]
pub struct RegionParts {
    pub shared: bool,
    pub name: Word,
    pub params: List<Word>,
    pub body: SType,
}

#[tactic(auto, unfolding(crate::specs::Reading::shared_at))]
fn shared<'a>(lexemes: &'a [TypeLexeme]) -> Result<Read<'a, TypeLexeme, bool>, Stop>
    ensures { Gives (λ b. b) result (shared_at lexemes.now) }
{
    match split(lexemes) {
        Some((o, rest)) if is_word(TypeWord::Shared, o) => Ok(Read { tree: true, rest }),
        _ => Ok(Read {
            tree: false,
            rest: lexemes,
        }),
    }
}

// The type and the semicolon behind it.
fn region_end<'a>(
    alloc: Global,
    bytes: &[u8],
    shared: bool,
    name: Word,
    params: List<Word>,
    lexemes: &'a [TypeLexeme],
) -> Result<Read<'a, TypeLexeme, RegionParts>, Stop>
    ensures { Gives parts_tree result (region_end bytes.now shared (word_tree name) (map word_tree params) lexemes.now) }
{
    let t = stype(alloc, bytes, lexemes)?;
    match split(t.rest) {
        Some((s, rest)) if is_mark(Punctuator::Semicolon, s) => Ok(Read {
            tree: RegionParts {
                shared,
                name,
                params,
                body: t.tree,
            },
            rest,
        }),
        _ => Err(Stop::Unread(t.rest.len())),
    }
}

// What stands behind the word `region`.
fn region_from<'a>(
    alloc: Global,
    bytes: &[u8],
    shared: bool,
    lexemes: &'a [TypeLexeme],
) -> Result<Read<'a, TypeLexeme, RegionParts>, Stop>
    ensures { Gives parts_tree result (region_from bytes.now shared lexemes.now) }
{
    let v = name(alloc, bytes, lexemes)?;
    let ps = in_parentheses(alloc, &Names { alloc, bytes }, v.rest)?;
    match split(ps.rest) {
        Some((e, rest)) if is_mark(Punctuator::Assign, e) => {
            region_end(alloc, bytes, shared, v.tree, ps.tree, rest)
        }
        _ => Err(Stop::Unread(ps.rest.len())),
    }
}

// A region.
#[tactic(auto, unfolding(crate::specs::Reading::region_at))]
pub fn read_region<'a>(
    alloc: Global,
    bytes: &[u8],
    lexemes: &'a [TypeLexeme],
) -> Result<Read<'a, TypeLexeme, RegionItem>, Stop>
    ensures { Gives region_tree result (region_at bytes.now lexemes.now) }
{
    let sh = shared(lexemes)?;
    match split(sh.rest) {
        Some((o, rest)) if is_word(TypeWord::Region, o) => {
            let x = region_from(alloc, bytes, sh.tree, rest)?;
            let span = span_of(front(lexemes, x.rest));
            Ok(Read {
                tree: RegionItem {
                    span,
                    shared: x.tree.shared,
                    name: x.tree.name,
                    params: x.tree.params,
                    body: x.tree.body,
                },
                rest: x.rest,
            })
        }
        _ => Err(Stop::Unread(sh.rest.len())),
    }
}
