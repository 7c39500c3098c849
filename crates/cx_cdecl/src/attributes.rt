// Lists of attributes, and the words beside a type.

ghost use Rattle.std.specs.Prelude.{◌≡◌, option_map};
ghost use Rattle.cx_cdecl.specs.Reading.{Got, said_tree, got_said, if_true, balanced_at, attributes_at, beside_at, after_at};

use crate::kinds::{Bracket, Said, also_says, bracket_of, is_after, is_attribute};
use cx_cword::{Lexeme, Mark, next, split};

/// What the words beside a type say, and the lexemes after them.
#[derive(Clone, Copy)]
pub struct ReadSaid<'a> {
    pub said: Said,
    pub rest: &'a [Lexeme],
}

/// The lexemes after all whose brackets pair.
#[tactic(auto, using(crate::proofs::Turns::balanced_turn, crate::proofs::Turns::balanced_none))]
fn balanced<'a>(turns: usize, lexemes: &'a [Lexeme]) -> Option<&'a [Lexeme]>
    ensures { option_map (λ r. r.now) result ≡ balanced_at turns lexemes.now }
{
    let mut n = turns;
    let mut rest = lexemes;
    'each: while n > 0 {
        n -= 1;
        match split(rest) {
            None => return Some(rest),
            Some((o, after)) => match bracket_of(o.kind) {
                Bracket::Plain => rest = after,
                Bracket::Stop => return Some(rest),
                Bracket::Open(close) => match balanced(n, after) {
                    None => return None,
                    Some(inside) => match next(close, inside) {
                        None => return None,
                        Some((_, past)) => rest = past,
                    },
                },
            },
        }
    }
    None
}

/// The lexemes after a list of attributes, of which the word is read.
#[tactic(auto, unfolding(crate::specs::Reading::attributes_at))]
fn attributes<'a>(turns: usize, lexemes: &'a [Lexeme]) -> Option<&'a [Lexeme]>
    ensures { option_map (λ r. r.now) result ≡ attributes_at turns lexemes.now }
{
    match next(Mark::OpenParen, lexemes) {
        None => None,
        Some((_, rest)) => match balanced(turns, rest) {
            None => None,
            Some(inside) => match next(Mark::CloseParen, inside) {
                None => None,
                Some((_, after)) => Some(after),
            },
        },
    }
}

/// Goes on with words beside a type, and with lists of attributes where they may stand.
#[tactic(auto, using(crate::proofs::Turns::beside_turn, crate::proofs::Turns::beside_end, crate::proofs::Turns::beside_none))]
pub fn beside<'a>(turns: usize, lists: bool, said: Said, lexemes: &'a [Lexeme]) -> ReadSaid<'a>
    ensures { got_said result ≡ beside_at turns lists turns (said_tree said) lexemes.now }
{
    let mut n = turns;
    let mut read = ReadSaid {
        said,
        rest: lexemes,
    };
    'each: while n > 0 {
        n -= 1;
        match split(read.rest) {
            None => return read,
            Some((o, after)) => match also_says(o.kind, read.said) {
                Some(said) => {
                    read = ReadSaid { said, rest: after };
                }
                None => match listed(turns, lists && is_attribute(o.kind), after) {
                    None => return read,
                    Some(rest) => {
                        let said = Said {
                            attributed: true,
                            ..read.said
                        };
                        read = ReadSaid { said, rest };
                    }
                },
            },
        }
    }
    read
}

/// The lexemes after a list of attributes, where one may stand.
fn listed<'a>(turns: usize, may: bool, lexemes: &'a [Lexeme]) -> Option<&'a [Lexeme]>
    ensures { option_map (λ r. r.now) result ≡ if_true may (attributes_at turns lexemes.now) }
{
    if may {
        attributes(turns, lexemes)
    } else {
        None
    }
}

/// Goes on with what may stand after the parameters of a function.
#[tactic(auto, using(crate::proofs::Turns::after_turn, crate::proofs::Turns::after_end, crate::proofs::Turns::after_none))]
pub fn after_params<'a>(turns: usize, lexemes: &'a [Lexeme]) -> &'a [Lexeme]
    ensures { result.now ≡ after_at turns turns lexemes.now }
{
    let mut n = turns;
    let mut rest = lexemes;
    'each: while n > 0 {
        n -= 1;
        match split(rest) {
            None => return rest,
            Some((o, after)) => match listed(turns, is_after(o.kind), after) {
                None => return rest,
                Some(past) => rest = past,
            },
        }
    }
    rest
}
