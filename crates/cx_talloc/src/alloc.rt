ghost use Rattle.std.specs.Prelude.{◌≡◌};
ghost use Rattle.cx_cname.specs.Known.{known_of};
ghost use Rattle.cx_reader.specs.Reading.{Gives};
ghost use Rattle.cx_tsyn.specs.Items.{alloc_tree};
ghost use Rattle.cx_talloc.specs.Allocs as spec;
ghost use Rattle.cx_talloc.specs.Reading.{alloc_size, alloc_block, alloc_type, alloc_from, alloc_at};
ghost use Rattle.cx_talloc.specs.Parts.{head_tree, placed_tree, block_tree, alloc_parts};

use crate::pieces::{Block, Head, Placed, Size, read_block, read_head, read_placed, read_size};
use cx_ctree::Unit;
use cx_cword::{LexemeKind, Punctuator};
use cx_reader::{Read, Stop, front, split};
use cx_tctype::Pointee;
use cx_tlin::span_of;
use cx_tsyn::AllocItem;
use cx_tword::{TypeLexeme, TypeWord, is_mark, is_word};
use std::alloc::Global;

/// An allocator without its place.
#[derive(Debug, Drop)]
pub struct AllocParts {
    pub head: Head,
    pub placed: Placed,
    pub block: Block,
    pub size: Size,
}

// How many bytes there are, and the semicolon behind that.
fn alloc_size<'a>(
    alloc: Global,
    bytes: &[u8],
    head: Head,
    placed: Placed,
    block: Block,
    lexemes: &'a [TypeLexeme],
) -> Result<Read<'a, TypeLexeme, AllocParts>, Stop>
    ensures { Gives alloc_parts result (alloc_size bytes.now (head_tree head) (placed_tree placed) (block_tree block) lexemes.now) }
{
    let z = read_size(alloc, bytes, lexemes)?;
    match split(z.rest) {
        Some((s, rest)) if is_mark(Punctuator::Semicolon, s) => Ok(Read {
            tree: AllocParts {
                head,
                placed,
                block,
                size: z.tree,
            },
            rest,
        }),
        _ => Err(Stop::Unread(z.rest.len())),
    }
}

// What stands behind the equals sign.
fn alloc_block<'a>(
    alloc: Global,
    bytes: &[u8],
    head: Head,
    placed: Placed,
    lexemes: &'a [TypeLexeme],
) -> Result<Read<'a, TypeLexeme, AllocParts>, Stop>
    ensures { Gives alloc_parts result (alloc_block bytes.now (head_tree head) (placed_tree placed) lexemes.now) }
{
    let y = read_block(alloc, bytes, lexemes)?;
    match split(y.rest) {
        Some((k, rest)) if is_word(TypeWord::Bytes, k) => {
            alloc_size(alloc, bytes, head, placed, y.tree, rest)
        }
        _ => Err(Stop::Unread(y.rest.len())),
    }
}

fn is_equals(lexeme: TypeLexeme) -> bool
    ensures { result ≡ spec.is_equals lexeme }
{
    match lexeme.c_kind {
        LexemeKind::Punctuator(Punctuator::Assign) => true,
        _ => false,
    }
}

// What stands behind the word `for`.
fn alloc_type<'a>(
    alloc: Global,
    bytes: &[u8],
    unit: &Unit,
    head: Head,
    lexemes: &'a [TypeLexeme],
) -> Result<Read<'a, TypeLexeme, AllocParts>, Stop>
    ensures { Gives alloc_parts result (alloc_type bytes.now (known_of unit.now) (head_tree head) lexemes.now) }
{
    let t = read_placed(alloc, unit, lexemes)?;
    match split(t.rest) {
        Some((i, rest)) if is_equals(i) => { alloc_block(alloc, bytes, head, t.tree, rest) }
        _ => Err(Stop::Unread(t.rest.len())),
    }
}

// What stands behind the word `alloc`.
fn alloc_from<'a>(
    alloc: Global,
    bytes: &[u8],
    unit: &Unit,
    lexemes: &'a [TypeLexeme],
) -> Result<Read<'a, TypeLexeme, AllocParts>, Stop>
    ensures { Gives alloc_parts result (alloc_from bytes.now (known_of unit.now) lexemes.now) }
{
    let x = read_head(alloc, bytes, lexemes)?;
    match split(x.rest) {
        Some((q, rest)) if is_word(TypeWord::For, q) => {
            alloc_type(alloc, bytes, unit, x.tree, rest)
        }
        _ => Err(Stop::Unread(x.rest.len())),
    }
}

// An allocator.
#[tactic(auto, unfolding(crate::specs::Reading::alloc_at))]
pub fn read_alloc<'a>(
    alloc: Global,
    bytes: &[u8],
    unit: &Unit,
    lexemes: &'a [TypeLexeme],
) -> Result<Read<'a, TypeLexeme, AllocItem>, Stop>
    ensures { Gives alloc_tree result (alloc_at bytes.now (known_of unit.now) lexemes.now) }
{
    match split(lexemes) {
        Some((o, rest)) if is_word(TypeWord::Alloc, o) => {
            let Read { tree, rest } = alloc_from(alloc, bytes, unit, rest)?;
            let span = span_of(front(lexemes, rest));
            let AllocParts {
                head,
                placed,
                block,
                size,
            } = tree;
            let Placed {
                pointee,
                span: pointee_span,
            } = placed;
            let Pointee { ctype, unknown_tag } = pointee;
            Ok(Read {
                tree: AllocItem {
                    span,
                    name: head.name,
                    params: head.params,
                    pointee: ctype,
                    pointee_span,
                    unknown_tag,
                    region: block.region,
                    args: block.args,
                    bytes: size.bytes,
                    times: size.times,
                    zero: size.zero,
                },
                rest,
            })
        }
        _ => Err(Stop::Unread(lexemes.len())),
    }
}
