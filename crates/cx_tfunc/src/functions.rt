ghost use Rattle.std.specs.Prelude.{◌≡◌, map};
ghost use Rattle.cx_reader.specs.Reading.{Gives};
ghost use Rattle.cx_tsyn.specs.Words.{word_tree};
ghost use Rattle.cx_tsyn.specs.Lins.{relation_tree};
ghost use Rattle.cx_tsyn.specs.Cells.{cell_tree};
ghost use Rattle.cx_tsyn.specs.Items.{func_tree};
ghost use Rattle.cx_tfunc.specs.Reading.{func_end, func_conds, func_from, func_at};
ghost use Rattle.cx_tfunc.specs.Parts.{func_parts};

use crate::args::{args, binders, function_name};
use crate::result::read_result;
use cx_base::{List, Span};
use cx_cword::Punctuator;
use cx_reader::{Read, Stop, front, split};
use cx_tlin::span_of;
use cx_tsyn::{FuncItem, Relation, SCell, SResult, Word};
use cx_ttype::conds;
use cx_tword::{TypeLexeme, TypeWord, is_mark, is_word};
use std::alloc::Global;

/// The type of a function without its place.
#[derive(Debug, Drop)]
pub struct FuncParts {
    pub name: Word,
    pub binders: List<Word>,
    pub args: List<SCell>,
    pub conds: List<Relation>,
    pub result: Option<SResult>,
    pub result_span: Span,
}

// The result and the semicolon behind it.
fn func_end<'a>(
    alloc: Global,
    bytes: &[u8],
    name: Word,
    binders: List<Word>,
    args: List<SCell>,
    conds: List<Relation>,
    lexemes: &'a [TypeLexeme],
) -> Result<Read<'a, TypeLexeme, FuncParts>, Stop>
    ensures { Gives func_parts result (func_end bytes.now (word_tree name) (map word_tree binders) (map cell_tree args) (map relation_tree conds) lexemes.now) }
{
    let y = read_result(alloc, bytes, lexemes)?;
    match split(y.rest) {
        Some((s, rest)) if is_mark(Punctuator::Semicolon, s) => Ok(Read {
            tree: FuncParts {
                name,
                binders,
                args,
                conds,
                result: y.tree.result,
                result_span: y.tree.span,
            },
            rest,
        }),
        _ => Err(Stop::Unread(y.rest.len())),
    }
}

// What stands behind the arguments.
fn func_conds<'a>(
    alloc: Global,
    bytes: &[u8],
    name: Word,
    binders: List<Word>,
    args: List<SCell>,
    lexemes: &'a [TypeLexeme],
) -> Result<Read<'a, TypeLexeme, FuncParts>, Stop>
    ensures { Gives func_parts result (func_conds bytes.now (word_tree name) (map word_tree binders) (map cell_tree args) lexemes.now) }
{
    let cs = conds(alloc, bytes, lexemes)?;
    match split(cs.rest) {
        Some((r, rest)) if is_mark(Punctuator::Arrow, r) => {
            func_end(alloc, bytes, name, binders, args, cs.tree, rest)
        }
        _ => Err(Stop::Unread(cs.rest.len())),
    }
}

// What stands behind the word `fn`.
fn func_from<'a>(
    alloc: Global,
    bytes: &[u8],
    lexemes: &'a [TypeLexeme],
) -> Result<Read<'a, TypeLexeme, FuncParts>, Stop>
    ensures { Gives func_parts result (func_from bytes.now lexemes.now) }
{
    let v = function_name(alloc, bytes, lexemes)?;
    let bs = binders(alloc, bytes, v.rest)?;
    let xs = args(alloc, bytes, bs.rest)?;
    func_conds(alloc, bytes, v.tree, bs.tree, xs.tree, xs.rest)
}

// The type of a function.
#[tactic(auto, unfolding(crate::specs::Reading::func_at))]
pub fn read_func<'a>(
    alloc: Global,
    bytes: &[u8],
    lexemes: &'a [TypeLexeme],
) -> Result<Read<'a, TypeLexeme, FuncItem>, Stop>
    ensures { Gives func_tree result (func_at bytes.now lexemes.now) }
{
    match split(lexemes) {
        Some((o, rest)) if is_word(TypeWord::Fn, o) => {
            let x = func_from(alloc, bytes, rest)?;
            let span = span_of(front(lexemes, x.rest));
            Ok(Read {
                tree: FuncItem {
                    span,
                    name: x.tree.name,
                    binders: x.tree.binders,
                    args: x.tree.args,
                    conds: x.tree.conds,
                    result: x.tree.result,
                    result_span: x.tree.result_span,
                },
                rest: x.rest,
            })
        }
        _ => Err(Stop::Unread(lexemes.len())),
    }
}
