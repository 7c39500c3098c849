// What stands before the arrow.

ghost use Rattle.std.specs.Prelude.{◌≡◌, map};
ghost use Rattle.cx_cword.specs.declared.word.Punctuator.TheVariants as p;
ghost use Rattle.cx_reader.specs.Reading.{Gives};
ghost use Rattle.cx_tsyn.specs.Words.{word_tree};
ghost use Rattle.cx_tsyn.specs.Cells.{SCellTree, cell_tree};
ghost use Rattle.cx_tword.specs.Marks as marks;
ghost use Rattle.cx_tcell.specs.Reading.{cell_at};
ghost use Rattle.cx_tfunc.specs.Funcs as spec;
ghost use Rattle.cx_tfunc.specs.Reading.{function_name_at, function_binders_at, some_args_at, args_from, args_at};

use cx_base::List;
use cx_cword::{LexemeKind, Punctuator};
use cx_reader::{Items, Read, Stop, listed, split};
use cx_tcell::cell;
use cx_tlin::{names, word};
use cx_tsyn::{SCell, Word};
use cx_tword::{TypeLexeme, TypeWord, is_mark, is_name, is_word};
use std::alloc::Global;

fn kind_is_c_name(kind: LexemeKind) -> bool
    ensures { result ≡ spec.kind_is_c_name kind }
{
    match kind {
        LexemeKind::Name(_) => true,
        _ => false,
    }
}

fn names_function(lexeme: TypeLexeme) -> bool
    ensures { result ≡ spec.names_function lexeme }
{
    is_name(lexeme) && kind_is_c_name(lexeme.c_kind)
}

/// Reads the name of a function, which is a name in C too.
#[tactic(auto, unfolding(crate::specs::Reading::function_name_at))]
pub fn function_name<'a>(
    alloc: Global,
    bytes: &[u8],
    lexemes: &'a [TypeLexeme],
) -> Result<Read<'a, TypeLexeme, Word>, Stop>
    ensures { Gives word_tree result (function_name_at bytes.now lexemes.now) }
{
    match split(lexemes) {
        Some((o, rest)) if names_function(o) => Ok(Read {
            tree: word(alloc, bytes, o.span)?,
            rest,
        }),
        _ => Err(Stop::Unread(lexemes.len())),
    }
}

// The names behind `some`, if that stands first.
#[tactic(auto, unfolding(crate::specs::Reading::function_binders_at))]
pub fn binders<'a>(
    alloc: Global,
    bytes: &[u8],
    lexemes: &'a [TypeLexeme],
) -> Result<Read<'a, TypeLexeme, List<Word>>, Stop>
    ensures { Gives (map word_tree) result (function_binders_at bytes.now lexemes.now) }
{
    match split(lexemes) {
        Some((o, rest)) if is_word(TypeWord::Some, o) => names(alloc, bytes, rest),
        _ => Ok(Read {
            tree: List::new(alloc),
            rest: lexemes,
        }),
    }
}

// Cells of the text, with commas between them.
#[derive(Drop)]
struct Cells<'b> {
    alloc: Global,
    bytes: &'b [u8],
}

impl<'b> Items<TypeLexeme> for Cells<'b> {
    type Item = SCell;

    ghost Tree = { SCellTree };

    ghost tree = { cell_tree };

    ghost between = { marks.is_mark p.Comma };

    ghost item_at = { λ s. cell_at s.bytes.now };

    fn is_between(&self, lexeme: TypeLexeme) -> bool {
        is_mark(Punctuator::Comma, lexeme)
    }

    fn item<'a>(&self, lexemes: &'a [TypeLexeme]) -> Result<Read<'a, TypeLexeme, SCell>, Stop> {
        cell(self.alloc, self.bytes, lexemes)
    }
}

// Cells, at least one, and the parenthesis behind them.
fn some_args<'a>(
    alloc: Global,
    bytes: &[u8],
    lexemes: &'a [TypeLexeme],
) -> Result<Read<'a, TypeLexeme, List<SCell>>, Stop>
    ensures { Gives (map cell_tree) result (some_args_at bytes.now lexemes.now) }
{
    let x = listed(alloc, &Cells { alloc, bytes }, lexemes)?;
    match split(x.rest) {
        Some((c, rest)) if is_mark(Punctuator::CloseParen, c) => Ok(Read { tree: x.tree, rest }),
        _ => Err(Stop::Unread(x.rest.len())),
    }
}

// What stands behind the opening parenthesis.
fn args_from<'a>(
    alloc: Global,
    bytes: &[u8],
    lexemes: &'a [TypeLexeme],
) -> Result<Read<'a, TypeLexeme, List<SCell>>, Stop>
    ensures { Gives (map cell_tree) result (args_from bytes.now lexemes.now) }
{
    match split(lexemes) {
        Some((c, rest)) if is_mark(Punctuator::CloseParen, c) => Ok(Read {
            tree: List::new(alloc),
            rest,
        }),
        _ => some_args(alloc, bytes, lexemes),
    }
}

// The arguments in their parentheses.
#[tactic(auto, unfolding(crate::specs::Reading::args_at))]
pub fn args<'a>(
    alloc: Global,
    bytes: &[u8],
    lexemes: &'a [TypeLexeme],
) -> Result<Read<'a, TypeLexeme, List<SCell>>, Stop>
    ensures { Gives (map cell_tree) result (args_at bytes.now lexemes.now) }
{
    match split(lexemes) {
        Some((o, rest)) if is_mark(Punctuator::OpenParen, o) => args_from(alloc, bytes, rest),
        _ => Err(Stop::Unread(lexemes.len())),
    }
}
