// The pieces that readers of tokens are made of.

ghost use Rattle.std.specs.Prelude.{◌≡◌, Option, Some, None, IfOk, OnOk, option_map, not, length, take};
ghost use Rattle.cx_base.specs.declared.list.NoMemory.{NoMemory as OutOfMemory};
ghost use Rattle.cx_form.specs.declared.read.Stop.TheVariants as stop;
ghost use Rattle.cx_form.specs.Reading as spec;
ghost use Rattle.cx_form.specs.Reading.{Gives, Splits, got};

use crate::names::is_name;
use crate::tree::Word;
use cx_base::{List, NoMemory, Span};
use std::alloc::Global;

/// Why a reader stopped: the allocator refused, or the tokens are not of the form.
#[derive(Debug, Drop)]
pub enum Stop {
    NoMemory,
    Unread,
}

impl From<NoMemory> for Stop {
    ghost from_gives = { λ _ e. e ≡ stop.NoMemory };

    fn from(_e: NoMemory) -> Stop {
        Stop::NoMemory
    }
}

/// A copy of a text.
pub fn copied(alloc: Global, text: &[u8]) -> Result<List<u8>, NoMemory>
    ensures { IfOk result (λ copy. copy ≡ text.now) }
{
    let mut copy = List::new(alloc);
    for b in text {
        copy.push(*b)?;
    }
    Ok(copy)
}

/// A copy of a token.
pub fn copied_word(alloc: Global, word: &Word) -> Result<Word, NoMemory>
    ensures { IfOk result (λ copy. copy ≡ word.now) }
{
    Ok(Word {
        span: word.span,
        text: copied(alloc, word.text.as_slice())?,
    })
}

/// The first token and those after it.
pub fn split<'a>(tokens: &'a [Word]) -> Option<(&'a Word, &'a [Word])>
    ensures { Splits result tokens.now }
{
    match tokens {
        [] => None,
        [t, rest @ ..] => Some((t, rest)),
    }
}

/// There are no tokens.
pub fn is_end(tokens: &[Word]) -> bool
    ensures { result ≡ spec.is_end tokens.now }
{
    match split(tokens) {
        None => true,
        Some(_) => false,
    }
}

/// The first token has this text.
pub fn next_has(text: &[u8], tokens: &[Word]) -> bool
    ensures { result ≡ spec.next_has text.now tokens.now }
{
    match split(tokens) {
        None => false,
        Some((t, _)) => t.text.as_slice() == text,
    }
}

/// The first token is a NAME.
pub fn next_names(tokens: &[Word]) -> bool
    ensures { result ≡ spec.next_names tokens.now }
{
    match split(tokens) {
        None => false,
        Some((t, _)) => is_name(t.text.as_slice()),
    }
}

/// The tokens after a fixed text.
pub fn past<'a>(text: &[u8], tokens: &'a [Word]) -> Result<&'a [Word], Stop>
    ensures { Gives (λ rest. rest.now) result (spec.past text.now tokens.now) }
{
    match split(tokens) {
        None => Err(Stop::Unread),
        Some((t, rest)) => {
            if t.text.as_slice() == text {
                Ok(rest)
            } else {
                Err(Stop::Unread)
            }
        }
    }
}

/// The place of a fixed text, and the tokens after it.
pub fn placed<'a>(text: &[u8], tokens: &'a [Word]) -> Result<(Span, &'a [Word]), Stop>
    ensures { Gives got result (spec.placed_at text.now tokens.now) }
{
    match split(tokens) {
        None => Err(Stop::Unread),
        Some((t, rest)) => {
            if t.text.as_slice() == text {
                Ok((t.span, rest))
            } else {
                Err(Stop::Unread)
            }
        }
    }
}

/// A NAME, and the tokens after it.
pub fn named<'a>(alloc: Global, tokens: &'a [Word]) -> Result<(Word, &'a [Word]), Stop>
    ensures { Gives got result (spec.named_at tokens.now) }
{
    match split(tokens) {
        None => Err(Stop::Unread),
        Some((t, rest)) => {
            if is_name(t.text.as_slice()) {
                Ok((copied_word(alloc, t)?, rest))
            } else {
                Err(Stop::Unread)
            }
        }
    }
}
