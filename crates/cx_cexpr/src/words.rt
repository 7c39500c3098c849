// Words of integer types, and words that are passed over.

ghost use Rattle.std.specs.Prelude.{◌≡◌, ◌≤◌, ◌<◌, true, option_map, IfSome};
ghost use Rattle.cx_ctree.specs.Conversions.{signed_int};
ghost use Rattle.cx_cexpr.specs.IntWords as words;
ghost use Rattle.cx_cexpr.specs.Reading.{counts_in, with_word, got_words, Skipped, skip_at, words_at};
ghost use Rattle.cx_cexpr.specs.Kinds.{word_of};
ghost use Rattle.cx_cexpr.specs.Reading as spec;

use crate::kinds::{IntWord, is_skipped, word_of};
use cx_base::CInt;
use cx_cword::{Lexeme, LexemeKind, split};

/// How often each word stands.
#[derive(Clone, Copy, Debug, PartialEq, Eq)]
pub struct Words {
    pub chars: u8,
    pub shorts: u8,
    pub ints: u8,
    pub longs: u8,
    pub signeds: u8,
    pub unsigneds: u8,
}

/// The words that were read, the place past the last of them, and the lexemes after them.
#[derive(Clone, Copy)]
pub struct ReadWords<'a> {
    pub words: Words,
    pub past: u32,
    pub rest: &'a [Lexeme],
}

/// The place past the last word that was passed over, and the lexemes after it.
#[derive(Clone, Copy)]
pub struct Passed<'a> {
    pub past: u32,
    pub rest: &'a [Lexeme],
}

#[tactic(auto, using(crate::proofs::IntWords::skip_none, crate::proofs::IntWords::skip_more, crate::proofs::IntWords::skip_stops))]
/// Passes over qualifiers and their like. `past` is the place past the lexeme before them.
pub fn skipped<'a>(past: u32, lexemes: &'a [Lexeme]) -> Passed<'a>
    ensures { Skipped result ≡ skip_at past lexemes.now }
{
    let mut passed = Passed {
        past,
        rest: lexemes,
    };
    while let Some((o, rest)) = split(passed.rest) {
        if !is_skipped(o.kind) {
            return passed;
        }
        passed = Passed {
            past: o.span.past,
            rest,
        };
    }
    passed
}

pub fn no_word() -> Words
    ensures { counts_in result ≡ words.no_word }
{
    Words {
        chars: 0,
        shorts: 0,
        ints: 0,
        longs: 0,
        signeds: 0,
        unsigneds: 0,
    }
}

/// With one word more.
#[tactic(auto, using(crate::proofs::IntWords::listed_small))]
pub fn with_word(word: IntWord, n: Words) -> Words
    requires { words.is_listed (counts_in n) ≡ true }
    ensures value { counts_in result ≡ with_word word (counts_in n) }
    ensures chars { result.chars ≤ 2 }
    ensures shorts { result.shorts ≤ 2 }
    ensures signeds { result.signeds ≤ 2 }
    ensures unsigneds { result.unsigneds ≤ 2 }
{
    match word {
        IntWord::Char => Words {
            chars: n.chars + 1,
            ..n
        },
        IntWord::Short => Words {
            shorts: n.shorts + 1,
            ..n
        },
        IntWord::Int => Words {
            ints: n.ints + 1,
            ..n
        },
        IntWord::Long => Words {
            longs: n.longs + 1,
            ..n
        },
        IntWord::Signed => Words {
            signeds: n.signeds + 1,
            ..n
        },
        IntWord::Unsigned => Words {
            unsigneds: n.unsigneds + 1,
            ..n
        },
    }
}

#[tactic(auto, using(std::proofs::lemmas::Bool::Decides::nat_tests), unfolding(crate::specs::IntWords::is_listed))]
fn is_listed(n: Words) -> bool
    requires chars { n.chars ≤ 2 }
    requires shorts { n.shorts ≤ 2 }
    requires signeds { n.signeds ≤ 2 }
    requires unsigneds { n.unsigneds ≤ 2 }
    ensures { result ≡ words.is_listed (counts_in n) }
{
    n.signeds + n.unsigneds <= 1
        && n.ints <= 1
        && n.chars + n.shorts <= 1
        && n.longs <= 2
        && (n.chars == 0 || n.ints == 0)
        && (n.chars + n.shorts == 0 || n.longs == 0)
}

/// With one word more, where C11 lists such words.
#[tactic(auto, using(crate::proofs::IntWords::listed_small))]
fn next_words(kind: LexemeKind, n: Words) -> Option<Words>
    requires { words.is_listed (counts_in n) ≡ true }
    ensures value { option_map counts_in result ≡ spec.next_words (counts_in n) (word_of kind) }
    ensures listed { IfSome result (λ m. words.is_listed (counts_in m) ≡ true) }
{
    match word_of(kind) {
        None => None,
        Some(word) => {
            let more = with_word(word, n);
            if is_listed(more) { Some(more) } else { None }
        }
    }
}

/// Goes on with words of integer types while C11 lists them.
#[tactic(auto, using(crate::proofs::IntWords::words_none, crate::proofs::IntWords::words_more, crate::proofs::IntWords::words_stop))]
pub fn read_words<'a>(n: Words, past: u32, lexemes: &'a [Lexeme]) -> ReadWords<'a>
    requires { words.is_listed (counts_in n) ≡ true }
    ensures { got_words result ≡ words_at (counts_in n) past lexemes.now }
{
    let mut read = ReadWords {
        words: n,
        past,
        rest: lexemes,
    };
    while let Some((o, rest)) = split(read.rest) {
        match next_words(o.kind, read.words) {
            None => return read,
            Some(words) => {
                read = ReadWords {
                    words,
                    past: o.span.past,
                    rest,
                };
            }
        }
    }
    read
}

/// The integer type of the words.
#[tactic(auto, using(std::proofs::lemmas::Bool::Decides::nat_tests), unfolding(crate::specs::Reading::int_of))]
pub fn int_of(n: Words) -> CInt
    ensures { result ≡ spec.int_of (counts_in n) }
{
    let signed = n.unsigneds == 0;
    if n.chars > 0 {
        CInt { size: 1, signed }
    } else if n.shorts > 0 {
        CInt { size: 2, signed }
    } else if n.longs > 0 {
        CInt { size: 8, signed }
    } else {
        CInt { size: 4, signed }
    }
}

/// `int`, which every enumeration type is.
pub fn signed_int() -> CInt
    ensures { result ≡ signed_int }
{
    CInt {
        size: 4,
        signed: true,
    }
}
