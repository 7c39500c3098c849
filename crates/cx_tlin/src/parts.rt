ghost use Rattle.std.specs.Prelude.{◌≡◌, IfOk};
ghost use Rattle.cx_cword.specs.Lexemes.{text_of};
ghost use Rattle.cx_reader.specs.Reading.{Gives};
ghost use Rattle.cx_tsyn.specs.Words.{word_tree};
ghost use Rattle.cx_tsyn.specs.Lins.{lin_part_tree};
ghost use Rattle.cx_tlin.specs.Reading.{word_at, name_at, number_at, part_at};

use cx_base::{List, NoMemory, Span};
use cx_cword::Punctuator;
use cx_reader::{Read, Stop, split};
use cx_tsyn::{LinPart, Word};
use cx_tword::{TypeLexeme, TypeLexemeKind, is_mark, is_name};
use std::alloc::Global;

// What stands at this place of the text, as much of it as the text has.
#[tactic(auto, using(std::proofs::lemmas::List::take_min, std::proofs::lemmas::List::drop_min))]
fn piece<'a>(bytes: &'a [u8], span: Span) -> &'a [u8]
    ensures { result.now ≡ text_of bytes.now span }
{
    let from = &bytes[(span.first as usize).min(bytes.len())..];
    let count = (span.past - span.first) as usize;
    &from[..count.min(from.len())]
}

/// The word that stands at this place of the text, with a copy of its bytes.
pub fn word(alloc: Global, bytes: &[u8], span: Span) -> Result<Word, NoMemory>
    ensures { IfOk result (λ w. word_tree w ≡ word_at bytes.now span) }
{
    let mut text = List::new(alloc);
    for b in piece(bytes, span) {
        text.push(*b)?;
    }
    Ok(Word { span, text })
}

// A name.
#[tactic(auto, unfolding(crate::specs::Reading::name_at))]
pub fn read_name<'a>(
    alloc: Global,
    bytes: &[u8],
    lexemes: &'a [TypeLexeme],
) -> Result<Read<'a, TypeLexeme, Word>, Stop>
    ensures { Gives word_tree result (name_at bytes.now lexemes.now) }
{
    match split(lexemes) {
        Some((o, rest)) if is_name(o) => Ok(Read {
            tree: word(alloc, bytes, o.span)?,
            rest,
        }),
        _ => Err(Stop::Unread(lexemes.len())),
    }
}

// Goes on after a number.
#[tactic(auto, unfolding(crate::specs::Reading::number_at))]
fn number<'a>(
    alloc: Global,
    bytes: &[u8],
    value: i128,
    lexemes: &'a [TypeLexeme],
) -> Result<Read<'a, TypeLexeme, LinPart>, Stop>
    ensures { Gives lin_part_tree result (number_at bytes.now value lexemes.now) }
{
    match split(lexemes) {
        Some((m, rest)) if is_mark(Punctuator::Star, m) => {
            let x = read_name(alloc, bytes, rest)?;
            Ok(Read {
                tree: LinPart::Times(value, x.tree),
                rest: x.rest,
            })
        }
        _ => Ok(Read {
            tree: LinPart::Number(value),
            rest: lexemes,
        }),
    }
}

// A part of a linear form: a number, a number times a name, or a name.
#[tactic(auto, unfolding(crate::specs::Reading::part_at))]
pub fn read_part<'a>(
    alloc: Global,
    bytes: &[u8],
    lexemes: &'a [TypeLexeme],
) -> Result<Read<'a, TypeLexeme, LinPart>, Stop>
    ensures { Gives lin_part_tree result (part_at bytes.now lexemes.now) }
{
    match split(lexemes) {
        None => Err(Stop::Unread(lexemes.len())),
        Some((o, rest)) => match o.kind {
            TypeLexemeKind::Number(value) => number(alloc, bytes, value, rest),
            TypeLexemeKind::Name => Ok(Read {
                tree: LinPart::Symbol(word(alloc, bytes, o.span)?),
                rest,
            }),
            _ => Err(Stop::Unread(lexemes.len())),
        },
    }
}
