// Words of integer types, and words that are passed over.

ghost use Rattle.std.specs.Prelude.{◌≡◌, ◌≤◌, true, cond, Some, None, option_map, IfSome};
ghost use Rattle.cx_cexpr.specs.Kinds.{int_word, word_of};
ghost use Rattle.cx_cexpr.specs.IntWords as lists;
ghost use Rattle.cx_cexpr.specs.Reading as counting;
ghost use Rattle.cx_tctype.specs.Reading as spec;
ghost use Rattle.cx_tctype.specs.Words.{counts_in, got_words};

use crate::kinds::is_skipped;
use cx_base::CInt;
use cx_cword::{Keyword, LexemeKind};
use cx_reader::split;
use cx_tword::TypeLexeme;

/// How often each word stands.
#[derive(Clone, Copy, Debug, PartialEq, Eq)]
pub struct Words {
    pub chars: u8,
    pub shorts: u8,
    pub ints: u8,
    pub longs: u8,
    pub signeds: u8,
    pub unsigneds: u8,
}

/// The words that were read, and the lexemes after them.
#[derive(Clone, Copy)]
pub struct ReadWords<'a> {
    pub words: Words,
    pub rest: &'a [TypeLexeme],
}

/// The lexemes behind the words that are passed over.
#[tactic(auto, using(crate::proofs::Turns::skips_none, crate::proofs::Turns::skips_more, crate::proofs::Turns::skips_stop))]
pub fn after_skips(lexemes: &[TypeLexeme]) -> &[TypeLexeme]
    ensures { result.now ≡ spec.after_skips lexemes.now }
{
    let mut rest = lexemes;
    while let Some((o, after)) = split(rest) {
        if !is_skipped(o.c_kind) {
            return rest;
        }
        rest = after;
    }
    rest
}

#[tactic(auto, using(std::proofs::lemmas::Bool::Decides::nat_tests), unfolding(cx_cexpr::specs::IntWords::is_listed))]
fn is_listed(n: Words) -> bool
    requires chars { n.chars ≤ 2 }
    requires shorts { n.shorts ≤ 2 }
    requires signeds { n.signeds ≤ 2 }
    requires unsigneds { n.unsigneds ≤ 2 }
    ensures { result ≡ lists.is_listed (counts_in n) }
{
    n.signeds + n.unsigneds <= 1
        && n.ints <= 1
        && n.chars + n.shorts <= 1
        && n.longs <= 2
        && (n.chars == 0 || n.ints == 0)
        && (n.chars + n.shorts == 0 || n.longs == 0)
}

// The words, where C11 lists them.
fn kept(n: Words) -> Option<Words>
    requires chars { n.chars ≤ 2 }
    requires shorts { n.shorts ≤ 2 }
    requires signeds { n.signeds ≤ 2 }
    requires unsigneds { n.unsigneds ≤ 2 }
    ensures value { option_map counts_in result ≡ cond (lists.is_listed (counts_in n)) (Some (counts_in n)) None }
    ensures listed { IfSome result (λ m. lists.is_listed (counts_in m) ≡ true) }
{
    if is_listed(n) { Some(n) } else { None }
}

/// With one word more, where it is one of an integer type and C11 lists such words.
#[tactic(auto, using(crate::proofs::Turns::listed_small))]
pub fn next_word(word: Keyword, n: Words) -> Option<Words>
    requires { lists.is_listed (counts_in n) ≡ true }
    ensures value { option_map counts_in result ≡ counting.next_words (counts_in n) (int_word word) }
    ensures listed { IfSome result (λ m. lists.is_listed (counts_in m) ≡ true) }
{
    match word {
        Keyword::Char => kept(Words {
            chars: n.chars + 1,
            ..n
        }),
        Keyword::Short => kept(Words {
            shorts: n.shorts + 1,
            ..n
        }),
        Keyword::Int => kept(Words {
            ints: n.ints + 1,
            ..n
        }),
        Keyword::Long => kept(Words {
            longs: n.longs + 1,
            ..n
        }),
        Keyword::Signed => kept(Words {
            signeds: n.signeds + 1,
            ..n
        }),
        Keyword::Unsigned => kept(Words {
            unsigneds: n.unsigneds + 1,
            ..n
        }),
        _ => None,
    }
}

fn next_words(kind: LexemeKind, n: Words) -> Option<Words>
    requires { lists.is_listed (counts_in n) ≡ true }
    ensures value { option_map counts_in result ≡ counting.next_words (counts_in n) (word_of kind) }
    ensures listed { IfSome result (λ m. lists.is_listed (counts_in m) ≡ true) }
{
    match kind {
        LexemeKind::Keyword(word) => next_word(word, n),
        _ => None,
    }
}

/// The first word, if it is one of an integer type.
#[tactic(auto, using(crate::proofs::Turns::none_listed))]
pub fn first_word(word: Keyword) -> Option<Words>
    ensures value { option_map counts_in result ≡ counting.next_words lists.no_word (int_word word) }
    ensures listed { IfSome result (λ m. lists.is_listed (counts_in m) ≡ true) }
{
    next_word(
        word,
        Words {
            chars: 0,
            shorts: 0,
            ints: 0,
            longs: 0,
            signeds: 0,
            unsigneds: 0,
        },
    )
}

/// Goes on with words of integer types while C11 lists them.
#[tactic(auto, using(crate::proofs::Turns::words_none, crate::proofs::Turns::words_more, crate::proofs::Turns::words_stop))]
pub fn read_words<'a>(n: Words, lexemes: &'a [TypeLexeme]) -> ReadWords<'a>
    requires { lists.is_listed (counts_in n) ≡ true }
    ensures { got_words result ≡ spec.words_at (counts_in n) lexemes.now }
{
    let mut read = ReadWords {
        words: n,
        rest: lexemes,
    };
    while let Some((o, rest)) = split(read.rest) {
        match next_words(o.c_kind, read.words) {
            None => return read,
            Some(words) => {
                read = ReadWords { words, rest };
            }
        }
    }
    read
}

/// The integer type of the words.
#[tactic(auto, using(std::proofs::lemmas::Bool::Decides::nat_tests), unfolding(cx_cexpr::specs::Reading::int_of))]
pub fn int_of(n: Words) -> CInt
    ensures { result ≡ counting.int_of (counts_in n) }
{
    let signed = n.unsigneds == 0;
    if n.chars > 0 {
        CInt { size: 1, signed }
    } else if n.shorts > 0 {
        CInt { size: 2, signed }
    } else if n.longs > 0 {
        CInt { size: 8, signed }
    } else {
        CInt { size: 4, signed }
    }
}
