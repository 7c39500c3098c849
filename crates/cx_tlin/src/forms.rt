ghost use Rattle.std.specs.Prelude.{◌≡◌, map};
ghost use Rattle.cx_reader.specs.Reading.{Gives};
ghost use Rattle.cx_tsyn.specs.Lins.{lin_tree, relation_tree};
ghost use Rattle.cx_tlin.specs.Lexemes as spec;
ghost use Rattle.cx_tlin.specs.Reading.{signed_tree, signed_at, parts_at, body_tree, lin_from, body_at, lin_at, relation_at};

use crate::kinds::{is_sign, relation_of};
use crate::parts::read_part;
use cx_base::{List, Span};
use cx_cword::{Punctuator, span_between};
use cx_reader::{Read, Stop, front, split};
use cx_tsyn::{Lin, LinPart, Relation};
use cx_tword::{TypeLexeme, is_mark};
use std::alloc::Global;

/// A linear form without its place.
#[derive(Debug, Drop)]
pub struct LinParts {
    pub negative: bool,
    pub first: LinPart,
    pub rest: List<(bool, LinPart)>,
}

/// From the first byte of the first of the lexemes to past the last byte of the last; where there is
/// none, the empty place before the first byte of the text.
pub fn span_of(lexemes: &[TypeLexeme]) -> Span
    ensures { result ≡ spec.span_of lexemes.now }
{
    match lexemes {
        [] => span_between(0, 0),
        [o, ..] => span_between(o.span.first, lexemes[lexemes.len() - 1].span.past),
    }
}

// A part behind the sign.
fn signed<'a>(
    alloc: Global,
    bytes: &[u8],
    sign: TypeLexeme,
    lexemes: &'a [TypeLexeme],
) -> Result<Read<'a, TypeLexeme, (bool, LinPart)>, Stop>
    ensures { Gives signed_tree result (signed_at bytes.now sign lexemes.now) }
{
    let x = read_part(alloc, bytes, lexemes)?;
    Ok(Read {
        tree: (is_mark(Punctuator::Minus, sign), x.tree),
        rest: x.rest,
    })
}

// Parts, each behind its sign.
#[tactic(auto, using(cx_reader::proofs::Turns::many_turn, cx_reader::proofs::Turns::many_none, cx_base::proofs::General::map_push))]
fn parts<'a>(
    alloc: Global,
    bytes: &[u8],
    lexemes: &'a [TypeLexeme],
) -> Result<Read<'a, TypeLexeme, List<(bool, LinPart)>>, Stop>
    ensures { Gives (map signed_tree) result (parts_at bytes.now lexemes.now) }
{
    let mut tree = List::new(alloc);
    let mut rest = lexemes;
    // Each turn takes a lexeme, so there are no more turns than lexemes and one.
    let mut n = lexemes.len() + 1;
    'each: while n > 0 {
        match split(rest) {
            None => return Ok(Read { tree, rest }),
            Some((o, after)) => {
                if is_sign(o) {
                    let x = signed(alloc, bytes, o, after)?;
                    tree.push(x.tree)?;
                    rest = x.rest;
                } else {
                    return Ok(Read { tree, rest });
                }
            }
        }
        n -= 1;
    }
    Err(Stop::Unread(rest.len()))
}

// A linear form from its first part on.
#[tactic(auto, unfolding(crate::specs::Reading::lin_from))]
fn lin_from<'a>(
    alloc: Global,
    bytes: &[u8],
    negative: bool,
    lexemes: &'a [TypeLexeme],
) -> Result<Read<'a, TypeLexeme, LinParts>, Stop>
    ensures { Gives body_tree result (lin_from bytes.now negative lexemes.now) }
{
    let x = read_part(alloc, bytes, lexemes)?;
    let y = parts(alloc, bytes, x.rest)?;
    Ok(Read {
        tree: LinParts {
            negative,
            first: x.tree,
            rest: y.tree,
        },
        rest: y.rest,
    })
}

#[tactic(auto, unfolding(crate::specs::Reading::body_at))]
fn body<'a>(
    alloc: Global,
    bytes: &[u8],
    lexemes: &'a [TypeLexeme],
) -> Result<Read<'a, TypeLexeme, LinParts>, Stop>
    ensures { Gives body_tree result (body_at bytes.now lexemes.now) }
{
    match split(lexemes) {
        None => Err(Stop::Unread(lexemes.len())),
        Some((o, rest)) => {
            if is_mark(Punctuator::Minus, o) {
                lin_from(alloc, bytes, true, rest)
            } else {
                lin_from(alloc, bytes, false, lexemes)
            }
        }
    }
}

// A linear form: parts with signs between them, of which the first may be behind a minus.
#[tactic(auto, unfolding(crate::specs::Reading::lin_at))]
pub fn read_lin<'a>(
    alloc: Global,
    bytes: &[u8],
    lexemes: &'a [TypeLexeme],
) -> Result<Read<'a, TypeLexeme, Lin>, Stop>
    ensures { Gives lin_tree result (lin_at bytes.now lexemes.now) }
{
    let x = body(alloc, bytes, lexemes)?;
    let span = span_of(front(lexemes, x.rest));
    Ok(Read {
        tree: Lin {
            span,
            negative: x.tree.negative,
            first: x.tree.first,
            rest: x.tree.rest,
        },
        rest: x.rest,
    })
}

// A relation of two linear forms.
#[tactic(auto, unfolding(crate::specs::Reading::relation_at))]
pub fn read_relation<'a>(
    alloc: Global,
    bytes: &[u8],
    lexemes: &'a [TypeLexeme],
) -> Result<Read<'a, TypeLexeme, Relation>, Stop>
    ensures { Gives relation_tree result (relation_at bytes.now lexemes.now) }
{
    let x = read_lin(alloc, bytes, lexemes)?;
    match split(x.rest) {
        None => Err(Stop::Unread(x.rest.len())),
        Some((o, rest)) => match relation_of(o.kind) {
            None => Err(Stop::Unread(x.rest.len())),
            Some(rel) => {
                let y = read_lin(alloc, bytes, rest)?;
                Ok(Read {
                    tree: Relation {
                        left: x.tree,
                        rel,
                        right: y.tree,
                    },
                    rest: y.rest,
                })
            }
        },
    }
}
