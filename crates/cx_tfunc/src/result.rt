// What stands behind the arrow.

ghost use Rattle.std.specs.Prelude.{◌≡◌, option_map};
ghost use Rattle.cx_reader.specs.Reading.{Gives};
ghost use Rattle.cx_tsyn.specs.Items.{result_tree};
ghost use Rattle.cx_tfunc.specs.Reading.{result_from, result_at, placed_at};
ghost use Rattle.cx_tfunc.specs.Parts.{placed_tree};

use cx_base::Span;
use cx_reader::{Read, Stop, front, split};
use cx_tcell::cell;
use cx_tlin::span_of;
use cx_tsyn::SResult;
use cx_ttype::{binders, conds};
use cx_tword::{TypeLexeme, TypeWord, is_word};
use std::alloc::Global;

/// What a function gives, with the place where it stands; no result for `void`.
#[derive(Debug, Drop)]
pub struct Placed {
    pub result: Option<SResult>,
    pub span: Span,
}

// A result that is not `void`.
fn result_from<'a>(
    alloc: Global,
    bytes: &[u8],
    lexemes: &'a [TypeLexeme],
) -> Result<Read<'a, TypeLexeme, Option<SResult>>, Stop>
    ensures { Gives (option_map result_tree) result (result_from bytes.now lexemes.now) }
{
    let bs = binders(alloc, bytes, lexemes)?;
    let x = cell(alloc, bytes, bs.rest)?;
    let cs = conds(alloc, bytes, x.rest)?;
    Ok(Read {
        tree: Some(SResult {
            binders: bs.tree,
            cell: x.tree,
            conds: cs.tree,
        }),
        rest: cs.rest,
    })
}

#[tactic(auto, unfolding(crate::specs::Reading::result_at))]
fn unplaced<'a>(
    alloc: Global,
    bytes: &[u8],
    lexemes: &'a [TypeLexeme],
) -> Result<Read<'a, TypeLexeme, Option<SResult>>, Stop>
    ensures { Gives (option_map result_tree) result (result_at bytes.now lexemes.now) }
{
    match split(lexemes) {
        Some((o, rest)) if is_word(TypeWord::Void, o) => Ok(Read { tree: None, rest }),
        _ => result_from(alloc, bytes, lexemes),
    }
}

// A result.
pub fn read_result<'a>(
    alloc: Global,
    bytes: &[u8],
    lexemes: &'a [TypeLexeme],
) -> Result<Read<'a, TypeLexeme, Placed>, Stop>
    ensures { Gives placed_tree result (placed_at bytes.now lexemes.now) }
{
    let x = unplaced(alloc, bytes, lexemes)?;
    let span = span_of(front(lexemes, x.rest));
    Ok(Read {
        tree: Placed {
            result: x.tree,
            span,
        },
        rest: x.rest,
    })
}
