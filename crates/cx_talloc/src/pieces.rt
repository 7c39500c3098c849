// What an allocator consists of.

ghost use Rattle.std.specs.Prelude.{option_map};
ghost use Rattle.cx_cname.specs.Known.{known_of};
ghost use Rattle.cx_reader.specs.Reading.{Gives};
ghost use Rattle.cx_tsyn.specs.Words.{word_tree};
ghost use Rattle.cx_talloc.specs.Reading.{head_from, head_at, placed_at, block_at, factor_at, zero_at, size_at};
ghost use Rattle.cx_talloc.specs.Parts.{head_tree, placed_tree, block_tree, size_tree};

use crate::args::args;
use cx_base::{List, Span};
use cx_ctree::Unit;
use cx_cword::Punctuator;
use cx_reader::{Read, Stop, front, split};
use cx_tctype::{Pointee, ctype};
use cx_tfunc::function_name;
use cx_tlin::{name, names, span_of};
use cx_tsyn::{SArg, Word};
use cx_tword::{TypeLexeme, TypeWord, is_mark, is_word};
use std::alloc::Global;

/// A function and its parameters.
#[derive(Debug, Drop)]
pub struct Head {
    pub name: Word,
    pub params: List<Word>,
}

/// A type of C with the place where it stands.
#[derive(Debug, Drop)]
pub struct Placed {
    pub pointee: Pointee,
    pub span: Span,
}

/// A region and its arguments.
#[derive(Debug, Drop)]
pub struct Block {
    pub region: Word,
    pub args: List<SArg>,
}

/// How many bytes a block has, and whether they are 0.
#[derive(Debug, Drop)]
pub struct Size {
    pub bytes: Word,
    pub times: Option<Word>,
    pub zero: bool,
}

// The parameters and the parenthesis behind them.
fn head_from<'a>(
    alloc: Global,
    bytes: &[u8],
    name: Word,
    lexemes: &'a [TypeLexeme],
) -> Result<Read<'a, TypeLexeme, Head>, Stop>
    ensures { Gives head_tree result (head_from bytes.now (word_tree name) lexemes.now) }
{
    let xs = names(alloc, bytes, lexemes)?;
    match split(xs.rest) {
        Some((r, rest)) if is_mark(Punctuator::CloseParen, r) => Ok(Read {
            tree: Head {
                name,
                params: xs.tree,
            },
            rest,
        }),
        _ => Err(Stop::Unread(xs.rest.len())),
    }
}

/// Reads a function and its parameters.
#[tactic(auto, unfolding(crate::specs::Reading::head_at))]
pub fn read_head<'a>(
    alloc: Global,
    bytes: &[u8],
    lexemes: &'a [TypeLexeme],
) -> Result<Read<'a, TypeLexeme, Head>, Stop>
    ensures { Gives head_tree result (head_at bytes.now lexemes.now) }
{
    let v = function_name(alloc, bytes, lexemes)?;
    match split(v.rest) {
        Some((e, rest)) if is_mark(Punctuator::OpenParen, e) => {
            head_from(alloc, bytes, v.tree, rest)
        }
        _ => Err(Stop::Unread(v.rest.len())),
    }
}

/// Reads a type of C.
pub fn read_placed<'a>(
    alloc: Global,
    unit: &Unit,
    lexemes: &'a [TypeLexeme],
) -> Result<Read<'a, TypeLexeme, Placed>, Stop>
    ensures { Gives placed_tree result (placed_at (known_of unit.now) lexemes.now) }
{
    let x = ctype(alloc, unit, lexemes)?;
    let span = span_of(front(lexemes, x.rest));
    Ok(Read {
        tree: Placed {
            pointee: x.tree,
            span,
        },
        rest: x.rest,
    })
}

/// Reads a region and its arguments.
#[tactic(auto, unfolding(crate::specs::Reading::block_at))]
pub fn read_block<'a>(
    alloc: Global,
    bytes: &[u8],
    lexemes: &'a [TypeLexeme],
) -> Result<Read<'a, TypeLexeme, Block>, Stop>
    ensures { Gives block_tree result (block_at bytes.now lexemes.now) }
{
    let c = name(alloc, bytes, lexemes)?;
    let xs = args(alloc, bytes, c.rest)?;
    Ok(Read {
        tree: Block {
            region: c.tree,
            args: xs.tree,
        },
        rest: xs.rest,
    })
}

// The factor behind a star, if that stands first.
#[tactic(auto, unfolding(crate::specs::Reading::factor_at))]
fn factor<'a>(
    alloc: Global,
    bytes: &[u8],
    lexemes: &'a [TypeLexeme],
) -> Result<Read<'a, TypeLexeme, Option<Word>>, Stop>
    ensures { Gives (option_map word_tree) result (factor_at bytes.now lexemes.now) }
{
    match split(lexemes) {
        Some((o, rest)) if is_mark(Punctuator::Star, o) => {
            let x = name(alloc, bytes, rest)?;
            Ok(Read {
                tree: Some(x.tree),
                rest: x.rest,
            })
        }
        _ => Ok(Read {
            tree: None,
            rest: lexemes,
        }),
    }
}

#[tactic(auto, unfolding(crate::specs::Reading::zero_at))]
fn zero<'a>(lexemes: &'a [TypeLexeme]) -> Result<Read<'a, TypeLexeme, bool>, Stop>
    ensures { Gives (λ b. b) result (zero_at lexemes.now) }
{
    match split(lexemes) {
        Some((o, rest)) if is_word(TypeWord::Zero, o) => Ok(Read { tree: true, rest }),
        _ => Ok(Read {
            tree: false,
            rest: lexemes,
        }),
    }
}

/// Reads how many bytes there are, and whether they are 0.
#[tactic(auto, unfolding(crate::specs::Reading::size_at))]
pub fn read_size<'a>(
    alloc: Global,
    bytes: &[u8],
    lexemes: &'a [TypeLexeme],
) -> Result<Read<'a, TypeLexeme, Size>, Stop>
    ensures { Gives size_tree result (size_at bytes.now lexemes.now) }
{
    let f = name(alloc, bytes, lexemes)?;
    let g = factor(alloc, bytes, f.rest)?;
    let h = zero(g.rest)?;
    Ok(Read {
        tree: Size {
            bytes: f.tree,
            times: g.tree,
            zero: h.tree,
        },
        rest: h.rest,
    })
}
