ghost use Rattle.std.specs.Prelude.{◌≡◌, [], ◌∷◌, reverse, IfOk, OnOk, MatchOption};
ghost use Rattle.cx_tdeep.specs.Brackets as spec;

use cx_base::{List, NoMemory};
use cx_cword::Punctuator;
use cx_reader::split;
use cx_tword::{TypeLexeme, TypeLexemeKind, is_mark};
use std::alloc::Global;

fn closer_of(kind: TypeLexemeKind) -> Option<Punctuator>
    ensures { result ≡ spec.closer_of kind }
{
    match kind {
        TypeLexemeKind::Punctuator(Punctuator::OpenParen) => Some(Punctuator::CloseParen),
        TypeLexemeKind::Punctuator(Punctuator::OpenBracket) => Some(Punctuator::CloseBracket),
        TypeLexemeKind::Punctuator(Punctuator::OpenBrace) => Some(Punctuator::CloseBrace),
        _ => None,
    }
}

// The list has at its end what closes the bracket that was opened last.
fn push(stack: &mut List<Punctuator>, closer: Punctuator) -> Result<(), NoMemory>
    ensures { OnOk result (reverse stack.new ≡ closer ∷ reverse stack.old) }
{
    stack.push(closer)
}

#[tactic(auto, using(crate::proofs::Stack::reversed))]
fn drop_last(stack: &mut List<Punctuator>)
    ensures { reverse stack.new ≡ spec.without_first (reverse stack.old) }
{
    stack.cut(stack.len().saturating_sub(1));
}

fn last(stack: &List<Punctuator>) -> Option<Punctuator>
    ensures { MatchOption result (reverse stack.now ≡ []) (λ c. reverse stack.now ≡ c ∷ spec.without_first (reverse stack.now)) }
{
    stack.as_slice().last().copied()
}

fn closes(stack: &List<Punctuator>, lexeme: TypeLexeme) -> bool
    ensures { result ≡ spec.closes (reverse stack.now) lexeme }
{
    match last(stack) {
        None => false,
        Some(closer) => is_mark(closer, lexeme),
    }
}

// Goes over a lexeme.
fn pass(stack: &mut List<Punctuator>, lexeme: TypeLexeme) -> Result<(), NoMemory>
    ensures { OnOk result (reverse stack.new ≡ spec.open_after (reverse stack.old) lexeme) }
{
    match closer_of(lexeme.kind) {
        Some(closer) => push(stack, closer),
        None => {
            if closes(stack, lexeme) {
                drop_last(stack);
            }
            Ok(())
        }
    }
}

/// The first bracket that opens the 101st level; None where there is none. A closing bracket closes the
/// last one that is open, if it is of its kind, and else none.
pub fn first_deep(alloc: Global, lexemes: &[TypeLexeme]) -> Result<Option<TypeLexeme>, NoMemory>
    ensures { IfOk result (λ d. d ≡ spec.first_deep [] lexemes.now) }
{
    let mut stack = List::new(alloc);
    let mut rest = lexemes;
    while let Some((o, after)) = split(rest) {
        if closer_of(o.kind).is_some() && stack.len() > 99 {
            return Ok(Some(o));
        }
        pass(&mut stack, o)?;
        rest = after;
    }
    Ok(None)
}
