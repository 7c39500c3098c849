// Tags of structs and unions.

ghost use Rattle.std.specs.Prelude.{◌≡◌, option_map};
ghost use Rattle.cx_reader.specs.Reading.{Gives};
ghost use Rattle.cx_tsyn.specs.Types.{as_tag_tree};
ghost use Rattle.cx_ttype.specs.Reading as spec;
ghost use Rattle.cx_ttype.specs.Reading.{tag_at, as_tag_at};
ghost use Rattle.cx_ttype.specs.Tags.{tag_tree};

use cx_reader::{Read, Stop, front, split};
use cx_tlin::{name, span_of};
use cx_tsyn::{AsTag, Word};
use cx_tword::{TypeLexeme, TypeWord, is_word};
use std::alloc::Global;

/// A tag behind `struct` or `union`, without its place.
#[derive(Debug, Drop)]
pub struct Tag {
    pub union_: bool,
    pub tag: Word,
}

/// Whether the lexeme is `struct` or `union`.
pub fn is_tag_word(lexeme: TypeLexeme) -> bool
    ensures { result ≡ spec.is_tag_word lexeme }
{
    is_word(TypeWord::Struct, lexeme) || is_word(TypeWord::Union, lexeme)
}

// The tag behind `as`, if that stands first.
#[tactic(auto, unfolding(crate::specs::Reading::tag_at))]
fn unplaced_tag<'a>(
    alloc: Global,
    bytes: &[u8],
    lexemes: &'a [TypeLexeme],
) -> Result<Read<'a, TypeLexeme, Option<Tag>>, Stop>
    ensures { Gives (option_map tag_tree) result (tag_at bytes.now lexemes.now) }
{
    match split(lexemes) {
        Some((o, after)) if is_word(TypeWord::As, o) => match split(after) {
            Some((d, rest)) if is_tag_word(d) => {
                let x = name(alloc, bytes, rest)?;
                Ok(Read {
                    tree: Some(Tag {
                        union_: is_word(TypeWord::Union, d),
                        tag: x.tree,
                    }),
                    rest: x.rest,
                })
            }
            _ => Err(Stop::Unread(after.len())),
        },
        _ => Ok(Read {
            tree: None,
            rest: lexemes,
        }),
    }
}

// What stands from `as` on, if that stands first.
#[tactic(auto, unfolding(crate::specs::Reading::as_tag_at))]
pub fn as_tag<'a>(
    alloc: Global,
    bytes: &[u8],
    lexemes: &'a [TypeLexeme],
) -> Result<Read<'a, TypeLexeme, Option<AsTag>>, Stop>
    ensures { Gives (option_map as_tag_tree) result (as_tag_at bytes.now lexemes.now) }
{
    let Read { tree, rest } = unplaced_tag(alloc, bytes, lexemes)?;
    let span = span_of(front(lexemes, rest));
    match tree {
        None => Ok(Read { tree: None, rest }),
        Some(t) => Ok(Read {
            tree: Some(AsTag {
                span,
                union_: t.union_,
                tag: t.tag,
            }),
            rest,
        }),
    }
}
