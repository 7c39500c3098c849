ghost use Rattle.std.specs.Prelude.{ℤ};
ghost use Rattle.cx_reader.specs.Reading.{Gives};
ghost use Rattle.cx_cword.specs.declared.word.Punctuator.TheVariants as p;
ghost use Rattle.cx_tword.specs.Marks as marks;
ghost use Rattle.cx_tsyn.specs.Words.{word_tree};
ghost use Rattle.cx_tsyn.specs.Items.{global_tree};
ghost use Rattle.cx_tcell.specs.Reading.{in_parentheses_at};
ghost use Rattle.cx_tregion.specs.Reading.{number_at, global_end, global_from, global_at};
ghost use Rattle.cx_tregion.specs.Parts.{global_parts};

use cx_base::List;
use cx_cword::Punctuator;
use cx_reader::{Items, Read, Stop, front, split};
use cx_tcell::in_parentheses;
use cx_tlin::{name, span_of};
use cx_tsyn::{GlobalItem, Word};
use cx_tword::{TypeLexeme, TypeLexemeKind, TypeWord, is_mark, is_word};
use std::alloc::Global;

/// A global without its place.
#[derive(Debug, Drop)]
pub struct GlobalParts {
    pub name: Word,
    pub region: Word,
    pub args: List<i128>,
}

#[tactic(auto, unfolding(crate::specs::Reading::number_at))]
fn number<'a>(lexemes: &'a [TypeLexeme]) -> Result<Read<'a, TypeLexeme, i128>, Stop>
    ensures { Gives (λ z. z) result (number_at lexemes.now) }
{
    match split(lexemes) {
        None => Err(Stop::Unread(lexemes.len())),
        Some((o, rest)) => match o.kind {
            TypeLexemeKind::Number(value) => Ok(Read { tree: value, rest }),
            _ => Err(Stop::Unread(lexemes.len())),
        },
    }
}

// Numbers with commas between them.
#[derive(Drop)]
struct Numbers {}

impl Items<TypeLexeme> for Numbers {
    type Item = i128;

    ghost Tree = { ℤ };

    ghost tree = { λ z. z };

    ghost between = { marks.is_mark p.Comma };

    ghost item_at = { λ _. number_at };

    fn is_between(&self, lexeme: TypeLexeme) -> bool {
        is_mark(Punctuator::Comma, lexeme)
    }

    fn item<'a>(&self, lexemes: &'a [TypeLexeme]) -> Result<Read<'a, TypeLexeme, i128>, Stop> {
        number(lexemes)
    }
}

// The arguments of a region, if there are any.
#[tactic(auto, using(crate::proofs::Numbers::as_read))]
fn args<'a>(
    alloc: Global,
    lexemes: &'a [TypeLexeme],
) -> Result<Read<'a, TypeLexeme, List<i128>>, Stop>
    ensures { Gives (λ zs. zs) result (in_parentheses_at number_at lexemes.now) }
{
    in_parentheses(alloc, &Numbers {}, lexemes)
}

// The name of a region, its arguments and the semicolon behind them.
fn global_end<'a>(
    alloc: Global,
    bytes: &[u8],
    object: Word,
    lexemes: &'a [TypeLexeme],
) -> Result<Read<'a, TypeLexeme, GlobalParts>, Stop>
    ensures { Gives global_parts result (global_end bytes.now (word_tree object) lexemes.now) }
{
    let c = name(alloc, bytes, lexemes)?;
    let xs = args(alloc, c.rest)?;
    match split(xs.rest) {
        Some((s, rest)) if is_mark(Punctuator::Semicolon, s) => Ok(Read {
            tree: GlobalParts {
                name: object,
                region: c.tree,
                args: xs.tree,
            },
            rest,
        }),
        _ => Err(Stop::Unread(xs.rest.len())),
    }
}

// What stands behind the word `global`.
fn global_from<'a>(
    alloc: Global,
    bytes: &[u8],
    lexemes: &'a [TypeLexeme],
) -> Result<Read<'a, TypeLexeme, GlobalParts>, Stop>
    ensures { Gives global_parts result (global_from bytes.now lexemes.now) }
{
    let v = name(alloc, bytes, lexemes)?;
    match split(v.rest) {
        Some((e, rest)) if is_mark(Punctuator::Assign, e) => global_end(alloc, bytes, v.tree, rest),
        _ => Err(Stop::Unread(v.rest.len())),
    }
}

// A global.
#[tactic(auto, unfolding(crate::specs::Reading::global_at))]
pub fn read_global<'a>(
    alloc: Global,
    bytes: &[u8],
    lexemes: &'a [TypeLexeme],
) -> Result<Read<'a, TypeLexeme, GlobalItem>, Stop>
    ensures { Gives global_tree result (global_at bytes.now lexemes.now) }
{
    match split(lexemes) {
        Some((o, rest)) if is_word(TypeWord::Global, o) => {
            let x = global_from(alloc, bytes, rest)?;
            let span = span_of(front(lexemes, x.rest));
            Ok(Read {
                tree: GlobalItem {
                    span,
                    name: x.tree.name,
                    region: x.tree.region,
                    args: x.tree.args,
                },
                rest: x.rest,
            })
        }
        _ => Err(Stop::Unread(lexemes.len())),
    }
}
