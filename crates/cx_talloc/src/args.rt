// The arguments of the region of a block.

ghost use Rattle.std.specs.Prelude.{◌≡◌, map};
ghost use Rattle.cx_cword.specs.declared.word.Punctuator.TheVariants as p;
ghost use Rattle.cx_reader.specs.Reading.{Gives};
ghost use Rattle.cx_tsyn.specs.Words.{word_tree};
ghost use Rattle.cx_tsyn.specs.Items.{SArgTree, arg_tree};
ghost use Rattle.cx_tword.specs.Marks as marks;
ghost use Rattle.cx_tcell.specs.Reading.{in_parentheses_at};
ghost use Rattle.cx_talloc.specs.Allocs as spec;
ghost use Rattle.cx_talloc.specs.Reading.{divisor_at, param_at, arg_at};

use cx_base::List;
use cx_cword::Punctuator;
use cx_reader::{Items, Read, Stop, split};
use cx_tcell::in_parentheses;
use cx_tlin::word;
use cx_tsyn::{SArg, Word};
use cx_tword::{TypeLexeme, TypeLexemeKind, is_mark};
use std::alloc::Global;

fn divisor_of(value: i128) -> Option<u64>
    ensures { result ≡ spec.divisor_of value }
{
    if 0 <= value && value < 18446744073709551616 {
        Some(value as u64)
    } else {
        None
    }
}

fn divisor_kind(kind: TypeLexemeKind) -> Option<u64>
    ensures { result ≡ spec.divisor_kind kind }
{
    match kind {
        TypeLexemeKind::Number(value) => divisor_of(value),
        _ => None,
    }
}

// The number behind the slash.
fn divisor<'a>(param: Word, lexemes: &'a [TypeLexeme]) -> Result<Read<'a, TypeLexeme, SArg>, Stop>
    ensures { Gives arg_tree result (divisor_at (word_tree param) lexemes.now) }
{
    match split(lexemes) {
        None => Err(Stop::Unread(lexemes.len())),
        Some((o, rest)) => match divisor_kind(o.kind) {
            None => Err(Stop::Unread(lexemes.len())),
            Some(d) => Ok(Read {
                tree: SArg::Over(param, d, o.span),
                rest,
            }),
        },
    }
}

// What stands behind a parameter.
fn param<'a>(param: Word, lexemes: &'a [TypeLexeme]) -> Result<Read<'a, TypeLexeme, SArg>, Stop>
    ensures { Gives arg_tree result (param_at (word_tree param) lexemes.now) }
{
    match split(lexemes) {
        Some((s, rest)) if is_mark(Punctuator::Slash, s) => divisor(param, rest),
        _ => Ok(Read {
            tree: SArg::Param(param),
            rest: lexemes,
        }),
    }
}

#[tactic(auto, unfolding(crate::specs::Reading::arg_at))]
fn arg<'a>(
    alloc: Global,
    bytes: &[u8],
    lexemes: &'a [TypeLexeme],
) -> Result<Read<'a, TypeLexeme, SArg>, Stop>
    ensures { Gives arg_tree result (arg_at bytes.now lexemes.now) }
{
    match split(lexemes) {
        None => Err(Stop::Unread(lexemes.len())),
        Some((o, rest)) => match o.kind {
            TypeLexemeKind::Number(value) => Ok(Read {
                tree: SArg::Number(value),
                rest,
            }),
            TypeLexemeKind::Name => param(word(alloc, bytes, o.span)?, rest),
            _ => Err(Stop::Unread(lexemes.len())),
        },
    }
}

// Arguments of the text, with commas between them.
#[derive(Drop)]
struct BlockArgs<'b> {
    alloc: Global,
    bytes: &'b [u8],
}

impl<'b> Items<TypeLexeme> for BlockArgs<'b> {
    type Item = SArg;

    ghost Tree = { SArgTree };

    ghost tree = { arg_tree };

    ghost between = { marks.is_mark p.Comma };

    ghost item_at = { λ s. arg_at s.bytes.now };

    fn is_between(&self, lexeme: TypeLexeme) -> bool {
        is_mark(Punctuator::Comma, lexeme)
    }

    fn item<'a>(&self, lexemes: &'a [TypeLexeme]) -> Result<Read<'a, TypeLexeme, SArg>, Stop> {
        arg(self.alloc, self.bytes, lexemes)
    }
}

/// Reads the arguments, if there are any.
pub fn args<'a>(
    alloc: Global,
    bytes: &[u8],
    lexemes: &'a [TypeLexeme],
) -> Result<Read<'a, TypeLexeme, List<SArg>>, Stop>
    ensures { Gives (map arg_tree) result (in_parentheses_at (arg_at bytes.now) lexemes.now) }
{
    in_parentheses(alloc, &BlockArgs { alloc, bytes }, lexemes)
}
