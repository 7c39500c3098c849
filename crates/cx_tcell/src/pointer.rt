ghost use Rattle.std.specs.Prelude.{option_map};
ghost use Rattle.cx_reader.specs.Reading.{Gives};
ghost use Rattle.cx_tsyn.specs.Lins.{lin_tree};
ghost use Rattle.cx_tsyn.specs.Cells.{cell_kind_tree};
ghost use Rattle.cx_tlin.specs.Reading.{lin_at};
ghost use Rattle.cx_tcell.specs.Reading.{offset_at, null_at, pointer_at};

use crate::parentheses::in_parentheses;
use cx_cword::Punctuator;
use cx_reader::{Read, Stop, split};
use cx_tlin::{Lins, lin, name};
use cx_tsyn::{Lin, SCellKind};
use cx_tword::{TypeLexeme, TypeWord, is_mark, is_word};
use std::alloc::Global;

#[tactic(auto, unfolding(crate::specs::Reading::offset_at))]
fn offset<'a>(
    alloc: Global,
    bytes: &[u8],
    lexemes: &'a [TypeLexeme],
) -> Result<Read<'a, TypeLexeme, Option<Lin>>, Stop>
    ensures { Gives (option_map lin_tree) result (offset_at bytes.now lexemes.now) }
{
    match split(lexemes) {
        Some((o, rest)) if is_mark(Punctuator::Plus, o) => {
            let x = lin(alloc, bytes, rest)?;
            Ok(Read {
                tree: Some(x.tree),
                rest: x.rest,
            })
        }
        _ => Ok(Read {
            tree: None,
            rest: lexemes,
        }),
    }
}

#[tactic(auto, unfolding(crate::specs::Reading::null_at))]
fn null<'a>(lexemes: &'a [TypeLexeme]) -> Result<Read<'a, TypeLexeme, bool>, Stop>
    ensures { Gives (λ b. b) result (null_at lexemes.now) }
{
    match split(lexemes) {
        Some((o, rest)) if is_word(TypeWord::Null, o) => Ok(Read { tree: true, rest }),
        _ => Ok(Read {
            tree: false,
            rest: lexemes,
        }),
    }
}

// What stands behind the word `ptr`.
#[tactic(auto, unfolding(crate::specs::Reading::pointer_at))]
pub fn pointer<'a>(
    alloc: Global,
    bytes: &[u8],
    lexemes: &'a [TypeLexeme],
) -> Result<Read<'a, TypeLexeme, SCellKind>, Stop>
    ensures { Gives cell_kind_tree result (pointer_at bytes.now lexemes.now) }
{
    let v = name(alloc, bytes, lexemes)?;
    let xs = in_parentheses(alloc, &Lins { alloc, bytes }, v.rest)?;
    let y = offset(alloc, bytes, xs.rest)?;
    let z = null(y.rest)?;
    Ok(Read {
        tree: SCellKind::Ptr {
            name: v.tree,
            args: xs.tree,
            off: y.tree,
            null: z.tree,
        },
        rest: z.rest,
    })
}
