// Cutting bytes into tokens.

ghost use Rattle.std.specs.Prelude.{◌≡◌, ◌≤◌, ◌<◌, ◌+◌, ◌^◌, [], ◌∷◌, length, IfOk, Option, Some};
ghost use Rattle.std.specs.List.{prefix_len};
ghost use Rattle.cx_form.specs.Tokens as spec;
ghost use Rattle.cx_form.specs.Reading.{Gives};
ghost use Rattle.cx_form.specs.Lexing.{SplitsBytes, token_at};

use crate::names::{goes_on, is_blank, is_mark, starts_name};
use crate::read::{Stop, copied};
use crate::tree::Word;
use cx_base::{List, NoMemory, Span};
use std::alloc::Global;

/// The first byte and those after it.
fn split_bytes<'a>(bytes: &'a [u8]) -> Option<(u8, &'a [u8])>
    ensures { SplitsBytes result bytes.now }
{
    match bytes {
        [] => None,
        [b, rest @ ..] => Some((*b, rest)),
    }
}

/// How many bytes at the front go on with a Name.
fn name_len(bytes: &[u8]) -> usize
    ensures value { result ≡ prefix_len spec.goes_on bytes.now }
    ensures within { result ≤ length bytes.now }
{
    let mut n = 0;
    let mut rest = bytes;
    while let Some((b, after)) = split_bytes(rest) {
        if !goes_on(b) {
            return n;
        }
        n += 1;
        rest = after;
    }
    n
}

fn next_is(b: u8, bytes: &[u8]) -> bool
    ensures { result ≡ spec.next_is b bytes.now }
{
    match split_bytes(bytes) {
        None => false,
        Some((first, _)) => first == b,
    }
}

/// How many bytes the token has that begins with `b` before `rest`; 0 where none begins.
#[tactic(auto, unfolding(crate::specs::Tokens::token_len))]
fn token_len(b: u8, rest: &[u8]) -> usize
    requires { length rest.now < 2 ^ 24 }
    ensures value { result ≡ spec.token_len b rest.now }
    ensures within { result ≤ 1 + length rest.now }
{
    if starts_name(b) {
        1 + name_len(rest)
    } else if is_mark(b) {
        1
    } else if b == b'-' && next_is(b'>', rest) {
        2
    } else {
        0
    }
}

/// The token with this text whose first byte stands at this place.
#[tactic(auto, using(crate::proofs::Spans::span_same))]
fn word_at(alloc: Global, at: u32, text: &[u8]) -> Result<Word, NoMemory>
    requires { at + length text.now ≤ 2 ^ 24 }
    ensures { IfOk result (λ w. w ≡ spec.word_at at text.now) }
{
    let span = Span {
        first: at,
        past: at + text.len() as u32,
    };
    Ok(Word {
        span,
        text: copied(alloc, text)?,
    })
}

/// The token at the front, which is no white space, and the bytes after it.
#[tactic(auto, unfolding(crate::specs::Lexing::token_at))]
fn token<'a>(alloc: Global, at: u32, bytes: &'a [u8]) -> Result<(Word, &'a [u8]), Stop>
    requires { at + length bytes.now ≤ 2 ^ 24 }
    ensures value { Gives (λ p. (p.0, p.1.now)) result (token_at at bytes.now) }
    ensures within { IfOk result (λ p. (p.0.span.past + length p.1.now ≡ at + length bytes.now) × (length p.1.now < length bytes.now)) }
{
    match split_bytes(bytes) {
        None => Err(Stop::Unread),
        Some((b, rest)) => {
            let n = token_len(b, rest);
            if n == 0 {
                return Err(Stop::Unread);
            }
            let (text, rest) = bytes.split_at(n);
            Ok((word_at(alloc, at, text)?, rest))
        }
    }
}

/// The tokens of the bytes, if they are made of white space and tokens.
#[tactic(auto, using(crate::proofs::Lexing::ends))]
pub fn tokens(alloc: Global, bytes: &[u8]) -> Result<List<Word>, Stop>
    requires { length bytes.now ≤ 2 ^ 24 }
    ensures { Gives (λ ts. ts) result (spec.tokens_of bytes.now) }
{
    let mut all = List::new(alloc);
    let mut at = 0;
    let mut rest = bytes;
    while let Some((b, after)) = split_bytes(rest) {
        if is_blank(b) {
            at += 1;
            rest = after;
        } else {
            let (word, after) = token(alloc, at, rest)?;
            at = word.span.past;
            all.push(word)?;
            rest = after;
        }
    }
    Ok(all)
}
