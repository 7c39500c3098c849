ghost use Rattle.std.specs.Prelude.{map};
ghost use Rattle.cx_cword.specs.declared.word.Punctuator.TheVariants as p;
ghost use Rattle.cx_reader.specs.Answers.{enclosed_at};
ghost use Rattle.cx_reader.specs.Reading.{Gives};
ghost use Rattle.cx_tword.specs.Marks as marks;

use cx_base::List;
use cx_cword::Punctuator;
use cx_reader::{Items, Read, Stop, listed, split};
use cx_tword::{TypeLexeme, is_mark};
use std::alloc::Global;

/// Reads items in parentheses, at least one, or nothing where no parenthesis opens.
pub fn in_parentheses<'a, I: Items<TypeLexeme>>(
    alloc: Global,
    items: &I,
    lexemes: &'a [TypeLexeme],
) -> Result<Read<'a, TypeLexeme, List<I::Item>>, Stop>
    ensures { Gives (map I.tree) result (enclosed_at (marks.is_mark p.OpenParen) I.between (marks.is_mark p.CloseParen) (I.item_at items.now) lexemes.now) }
{
    match split(lexemes) {
        Some((o, rest)) if is_mark(Punctuator::OpenParen, o) => {
            let x = listed(alloc, items, rest)?;
            match split(x.rest) {
                Some((c, rest)) if is_mark(Punctuator::CloseParen, c) => {
                    Ok(Read { tree: x.tree, rest })
                }
                _ => Err(Stop::Unread(x.rest.len())),
            }
        }
        _ => Ok(Read {
            tree: List::new(alloc),
            rest: lexemes,
        }),
    }
}
