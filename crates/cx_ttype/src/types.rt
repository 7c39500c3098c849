ghost use Rattle.std.specs.Prelude.{◌≡◌, [], map};
ghost use Rattle.cx_reader.specs.Reading.{Gives};
ghost use Rattle.cx_cword.specs.declared.word.Punctuator.TheVariants as p;
ghost use Rattle.cx_tsyn.specs.Words.{word_tree};
ghost use Rattle.cx_tsyn.specs.Types.{paren, tagged, fields_in_order, stype_tree, atom_tree, field_tree, branch_tree};
ghost use Rattle.cx_ttype.specs.Types as spec;
ghost use Rattle.cx_ttype.specs.Reading.{closed_at, product_end, opened_tag_at, cases_by, piece_from, body_by, atom_at, pieces_at, fields_at, branches_at, type_at};

use crate::around::{binders, conds, times};
use crate::make::{
    branch_of, cases_of, cell_of, field_of, paren_of, product_of, tagged_of, type_of,
};
use crate::tag::{as_tag, is_tag_word};
use cx_base::List;
use cx_cword::Punctuator;
use cx_reader::{Read, Stop, front, split};
use cx_tcell::cell;
use cx_tlin::{name, relations, span_of, word};
use cx_tsyn::{Atom, SBranch, SField, SType, Word};
use cx_tword::{TypeLexeme, TypeLexemeKind, TypeWord, is_mark, is_word};
use std::alloc::Global;

fn is_no_keyword(word: TypeWord) -> bool
    ensures { result ≡ spec.is_no_keyword word }
{
    match word {
        TypeWord::Struct | TypeWord::Union | TypeWord::For | TypeWord::Void => false,
        _ => true,
    }
}

fn names_field(lexeme: TypeLexeme) -> bool
    ensures { result ≡ spec.names_field lexeme }
{
    match lexeme.kind {
        TypeLexemeKind::Name => true,
        TypeLexemeKind::Word(word) => is_no_keyword(word),
        TypeLexemeKind::AnyBytes(_) | TypeLexemeKind::Unsigned(_) => true,
        TypeLexemeKind::Signed(_) | TypeLexemeKind::OtherSize => true,
        _ => false,
    }
}

// A parenthesis, behind the type that it closes.
fn paren_end<'a>(
    alloc: Global,
    body: SType,
    lexemes: &'a [TypeLexeme],
) -> Result<Read<'a, TypeLexeme, Atom>, Stop>
    ensures { Gives atom_tree result (closed_at p.CloseParen (paren (stype_tree body)) lexemes.now) }
{
    match split(lexemes) {
        Some((c, rest)) if is_mark(Punctuator::CloseParen, c) => Ok(Read {
            tree: paren_of(alloc, body)?,
            rest,
        }),
        _ => Err(Stop::Unread(lexemes.len())),
    }
}

// A brace, behind the types that it closes, and the tag as which they are seen.
fn product_end<'a>(
    alloc: Global,
    bytes: &[u8],
    parts: List<SType>,
    lexemes: &'a [TypeLexeme],
) -> Result<Read<'a, TypeLexeme, Atom>, Stop>
    ensures { Gives atom_tree result (product_end bytes.now (map stype_tree parts) lexemes.now) }
{
    match split(lexemes) {
        Some((c, rest)) if is_mark(Punctuator::CloseBrace, c) => {
            let t = as_tag(alloc, bytes, rest)?;
            Ok(Read {
                tree: product_of(parts, t.tree),
                rest: t.rest,
            })
        }
        _ => Err(Stop::Unread(lexemes.len())),
    }
}

// A tag and the brace behind it.
fn opened_tag<'a>(
    alloc: Global,
    bytes: &[u8],
    lexemes: &'a [TypeLexeme],
) -> Result<Read<'a, TypeLexeme, Word>, Stop>
    ensures { Gives word_tree result (opened_tag_at bytes.now lexemes.now) }
{
    let v = name(alloc, bytes, lexemes)?;
    match split(v.rest) {
        Some((o, rest)) if is_mark(Punctuator::OpenBrace, o) => Ok(Read { tree: v.tree, rest }),
        _ => Err(Stop::Unread(v.rest.len())),
    }
}

// A brace, behind the fields that it closes.
fn tagged_end<'a>(
    union_: bool,
    tag: Word,
    fields: List<SField>,
    lexemes: &'a [TypeLexeme],
) -> Result<Read<'a, TypeLexeme, Atom>, Stop>
    ensures { Gives atom_tree result (closed_at p.CloseBrace (tagged union_ (word_tree tag) (fields_in_order (map field_tree fields))) lexemes.now) }
{
    match split(lexemes) {
        Some((c, rest)) if is_mark(Punctuator::CloseBrace, c) => Ok(Read {
            tree: tagged_of(union_, tag, fields),
            rest,
        }),
        _ => Err(Stop::Unread(lexemes.len())),
    }
}

// A type.
#[cycle(types)]
pub fn read_type<'a>(
    alloc: Global,
    bytes: &[u8],
    turns: usize,
    lexemes: &'a [TypeLexeme],
) -> Result<Read<'a, TypeLexeme, SType>, Stop>
    ensures { Gives stype_tree result (type_at bytes.now turns lexemes.now) }
{
    let bs = binders(alloc, bytes, lexemes)?;
    let x = read_atom(alloc, bytes, turns, bs.rest)?;
    let t = times(alloc, bytes, x.rest)?;
    let c = conds(alloc, bytes, t.rest)?;
    let span = span_of(front(lexemes, c.rest));
    Ok(Read {
        tree: type_of(span, bs.tree, x.tree, t.tree, c.tree),
        rest: c.rest,
    })
}

// An atom.
#[cycle(types)]
#[tactic(auto, using(crate::proofs::Turns::atom_turn, crate::proofs::Turns::atom_none))]
fn read_atom<'a>(
    alloc: Global,
    bytes: &[u8],
    turns: usize,
    lexemes: &'a [TypeLexeme],
) -> Result<Read<'a, TypeLexeme, Atom>, Stop>
    ensures { Gives atom_tree result (atom_at bytes.now turns lexemes.now) }
{
    if turns == 0 {
        return Err(Stop::Unread(lexemes.len()));
    }
    match split(lexemes) {
        None => Err(Stop::Unread(lexemes.len())),
        Some((o, rest)) => {
            if is_mark(Punctuator::OpenParen, o) {
                let t = read_type(alloc, bytes, turns - 1, rest)?;
                paren_end(alloc, t.tree, t.rest)
            } else if is_mark(Punctuator::OpenBrace, o) {
                let ts = pieces(alloc, bytes, turns - 1, rest)?;
                product_end(alloc, bytes, ts.tree, ts.rest)
            } else if is_tag_word(o) {
                let v = opened_tag(alloc, bytes, rest)?;
                let fs = fields(alloc, bytes, turns - 1, v.rest)?;
                tagged_end(is_word(TypeWord::Union, o), v.tree, fs.tree, fs.rest)
            } else if is_word(TypeWord::Cases, o) {
                cases(alloc, bytes, turns - 1, rest)
            } else {
                let x = cell(alloc, bytes, lexemes)?;
                Ok(Read {
                    tree: cell_of(x.tree),
                    rest: x.rest,
                })
            }
        }
    }
}

// What stands behind the word `cases`.
#[cycle(types)]
fn cases<'a>(
    alloc: Global,
    bytes: &[u8],
    turns: usize,
    lexemes: &'a [TypeLexeme],
) -> Result<Read<'a, TypeLexeme, Atom>, Stop>
    ensures { Gives atom_tree result (cases_by (branches_at bytes.now turns []) lexemes.now) }
{
    match split(lexemes) {
        Some((o, rest)) if is_mark(Punctuator::OpenBrace, o) => match split(rest) {
            Some((d, _)) if is_word(TypeWord::When, d) => {
                let bs = branches(alloc, bytes, turns, rest)?;
                match split(bs.rest) {
                    Some((c, rest)) if is_mark(Punctuator::CloseBrace, c) => Ok(Read {
                        tree: cases_of(bs.tree),
                        rest,
                    }),
                    _ => Err(Stop::Unread(bs.rest.len())),
                }
            }
            _ => Err(Stop::Unread(rest.len())),
        },
        _ => Err(Stop::Unread(lexemes.len())),
    }
}

// A type with the semicolon behind it.
#[cycle(types)]
fn piece<'a>(
    alloc: Global,
    bytes: &[u8],
    turns: usize,
    lexemes: &'a [TypeLexeme],
) -> Result<Read<'a, TypeLexeme, SType>, Stop>
    ensures { Gives stype_tree result (piece_from (type_at bytes.now turns lexemes.now)) }
{
    let t = read_type(alloc, bytes, turns, lexemes)?;
    match split(t.rest) {
        Some((s, rest)) if is_mark(Punctuator::Semicolon, s) => Ok(Read { tree: t.tree, rest }),
        _ => Err(Stop::Unread(t.rest.len())),
    }
}

// Types with semicolons behind them, up to a closing brace.
#[cycle(types)]
#[tactic(auto, using(crate::proofs::Turns::pieces_turn, crate::proofs::Turns::pieces_none, cx_base::proofs::General::map_push))]
fn pieces<'a>(
    alloc: Global,
    bytes: &[u8],
    turns: usize,
    lexemes: &'a [TypeLexeme],
) -> Result<Read<'a, TypeLexeme, List<SType>>, Stop>
    ensures { Gives (map stype_tree) result (pieces_at bytes.now turns [] lexemes.now) }
{
    let mut tree = List::new(alloc);
    let mut rest = lexemes;
    let mut n = turns;
    'each: while n > 0 {
        match split(rest) {
            None => return Ok(Read { tree, rest }),
            Some((o, _)) => {
                if is_mark(Punctuator::CloseBrace, o) {
                    return Ok(Read { tree, rest });
                }
                let x = piece(alloc, bytes, n, rest)?;
                tree.push(x.tree)?;
                rest = x.rest;
            }
        }
        n -= 1;
    }
    Err(Stop::Unread(rest.len()))
}

// A colon and a type with the semicolon behind it.
#[cycle(types)]
fn body<'a>(
    alloc: Global,
    bytes: &[u8],
    turns: usize,
    lexemes: &'a [TypeLexeme],
) -> Result<Read<'a, TypeLexeme, SType>, Stop>
    ensures { Gives stype_tree result (body_by (type_at bytes.now turns) lexemes.now) }
{
    match split(lexemes) {
        Some((o, rest)) if is_mark(Punctuator::Colon, o) => piece(alloc, bytes, turns, rest),
        _ => Err(Stop::Unread(lexemes.len())),
    }
}

// Fields, each behind the name of a member.
#[cycle(types)]
#[tactic(auto, using(crate::proofs::Turns::fields_turn, crate::proofs::Turns::fields_none, cx_base::proofs::General::map_push))]
fn fields<'a>(
    alloc: Global,
    bytes: &[u8],
    turns: usize,
    lexemes: &'a [TypeLexeme],
) -> Result<Read<'a, TypeLexeme, List<SField>>, Stop>
    ensures { Gives (map field_tree) result (fields_at bytes.now turns [] lexemes.now) }
{
    let mut tree = List::new(alloc);
    let mut rest = lexemes;
    let mut n = turns;
    'each: while n > 0 {
        match split(rest) {
            None => return Ok(Read { tree, rest }),
            Some((o, after)) => {
                if names_field(o) {
                    let x = body(alloc, bytes, n - 1, after)?;
                    tree.push(field_of(word(alloc, bytes, o.span)?, x.tree))?;
                    rest = x.rest;
                } else {
                    return Ok(Read { tree, rest });
                }
            }
        }
        n -= 1;
    }
    Err(Stop::Unread(rest.len()))
}

// Branches, each behind the word `when`.
#[cycle(types)]
#[tactic(auto, using(crate::proofs::Turns::branches_turn, crate::proofs::Turns::branches_none, cx_base::proofs::General::map_push))]
fn branches<'a>(
    alloc: Global,
    bytes: &[u8],
    turns: usize,
    lexemes: &'a [TypeLexeme],
) -> Result<Read<'a, TypeLexeme, List<SBranch>>, Stop>
    ensures { Gives (map branch_tree) result (branches_at bytes.now turns [] lexemes.now) }
{
    let mut tree = List::new(alloc);
    let mut rest = lexemes;
    let mut n = turns;
    'each: while n > 0 {
        match split(rest) {
            None => return Ok(Read { tree, rest }),
            Some((o, after)) => {
                if is_word(TypeWord::When, o) {
                    let gs = relations(alloc, bytes, after)?;
                    let x = body(alloc, bytes, n - 1, gs.rest)?;
                    tree.push(branch_of(gs.tree, x.tree))?;
                    rest = x.rest;
                } else {
                    return Ok(Read { tree, rest });
                }
            }
        }
        n -= 1;
    }
    Err(Stop::Unread(rest.len()))
}
