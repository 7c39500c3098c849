use cx_base::{List, Names};
use cx_cword::{Keyword, LexemeKind, Punctuator as Mark};
use cx_lex::lex;
use cx_reader::split;
use cx_tword::{
    TypeLexeme, TypeLexemeKind as Kind, TypeWord as Word, is_mark, is_name, is_word, type_lexemes,
    type_word_of,
};
use std::alloc::Global;
use std::process::Abort;
use std::test::Fail;

/// What the tokens of the text are for the grammar.
pub fn lexemes_of(rt: &impl Abort, alloc: Global, text: &str) -> Result<List<TypeLexeme>, Fail> {
    assert!(rt; text.len() <= 1000);
    let tokens = lex(alloc, text.as_bytes())?;
    let names = Names::new(alloc)?;
    Ok(type_lexemes(alloc, &names, text.as_bytes(), tokens.as_slice())?)
}

/// Texts of one token each, and what it is.
const KINDS: [(&str, Kind); 91] = [
    ("shared", Kind::Word(Word::Shared)),
    ("region", Kind::Word(Word::Region)),
    ("some", Kind::Word(Word::Some)),
    ("of", Kind::Word(Word::Of)),
    ("struct", Kind::Word(Word::Struct)),
    ("union", Kind::Word(Word::Union)),
    ("where", Kind::Word(Word::Where)),
    ("cases", Kind::Word(Word::Cases)),
    ("when", Kind::Word(Word::When)),
    ("any", Kind::Word(Word::Any)),
    ("val", Kind::Word(Word::Val)),
    ("ptr", Kind::Word(Word::Ptr)),
    ("null", Kind::Word(Word::Null)),
    ("as", Kind::Word(Word::As)),
    ("fn", Kind::Word(Word::Fn)),
    ("alloc", Kind::Word(Word::Alloc)),
    ("for", Kind::Word(Word::For)),
    ("bytes", Kind::Word(Word::Bytes)),
    ("zero", Kind::Word(Word::Zero)),
    ("global", Kind::Word(Word::Global)),
    ("void", Kind::Word(Word::Void)),
    // sizes at both ends, and leading zeros
    ("any1", Kind::AnyBytes(1)),
    ("any12", Kind::AnyBytes(12)),
    ("any4096", Kind::AnyBytes(4096)),
    ("any00012", Kind::AnyBytes(12)),
    (
        "any000000000000000000000000000000000000000000000000000000004096",
        Kind::AnyBytes(4096),
    ),
    ("u1", Kind::Unsigned(1)),
    ("u2", Kind::Unsigned(2)),
    ("u4", Kind::Unsigned(4)),
    ("u8", Kind::Unsigned(8)),
    ("u08", Kind::Unsigned(8)),
    ("s1", Kind::Signed(1)),
    ("s2", Kind::Signed(2)),
    ("s4", Kind::Signed(4)),
    ("s8", Kind::Signed(8)),
    (
        "s000000000000000000000000000000000000000000000000000000000002",
        Kind::Signed(2),
    ),
    // other sizes
    ("any0", Kind::OtherSize),
    ("any000", Kind::OtherSize),
    ("any4097", Kind::OtherSize),
    ("any65537", Kind::OtherSize),
    ("any4294967297", Kind::OtherSize),
    ("any18446744073709551617", Kind::OtherSize),
    (
        "any100000000000000000000000000000000000000000000000000000000000",
        Kind::OtherSize,
    ),
    ("u0", Kind::OtherSize),
    ("u3", Kind::OtherSize),
    ("u16", Kind::OtherSize),
    ("u80", Kind::OtherSize),
    ("u264", Kind::OtherSize),
    ("u65544", Kind::OtherSize),
    ("u340282366920938463463374607431768211464", Kind::OtherSize),
    ("s5", Kind::OtherSize),
    ("s16", Kind::OtherSize),
    (
        "s999999999999999999999999999999999999999999999999999999999999",
        Kind::OtherSize,
    ),
    // names that nearly are reserved
    ("regions", Kind::Name),
    ("Region", Kind::Name),
    ("_of", Kind::Name),
    ("of2", Kind::Name),
    ("void8", Kind::Name),
    ("u", Kind::Name),
    ("s", Kind::Name),
    ("a", Kind::Name),
    ("any_", Kind::Name),
    ("any8_", Kind::Name),
    ("an8", Kind::Name),
    ("u8x", Kind::Name),
    ("U8", Kind::Name),
    ("u_8", Kind::Name),
    ("s$8", Kind::Name),
    ("us8", Kind::Name),
    // words of C alone
    ("int", Kind::Name),
    ("sizeof", Kind::Name),
    // integers in three bases, with suffixes
    ("0", Kind::Number(0)),
    ("10", Kind::Number(10)),
    ("010", Kind::Number(8)),
    ("0x10", Kind::Number(16)),
    ("0XfFu", Kind::Number(255)),
    ("12uLL", Kind::Number(12)),
    ("9223372036854775807", Kind::Number(9223372036854775807)),
    ("18446744073709551615u", Kind::Number(18446744073709551615)),
    ("0xffffffffffffffff", Kind::Number(18446744073709551615)),
    // other numbers: no type, no octal digit, no integer, no suffix
    ("9223372036854775808", Kind::Other),
    ("18446744073709551616u", Kind::Other),
    ("08", Kind::Other),
    ("1.5", Kind::Other),
    ("1lL", Kind::Other),
    // other constants
    ("'a'", Kind::Other),
    ("\"any\"", Kind::Other),
    // punctuators
    ("->", Kind::Punctuator(Mark::Arrow)),
    ("==", Kind::Punctuator(Mark::Equal)),
    ("[", Kind::Punctuator(Mark::OpenBracket)),
    ("...", Kind::Punctuator(Mark::Ellipsis)),
];

#[test]
fn kinds(rt: HostRuntime) -> Result<(), Fail> {
    for (text, kind) in KINDS {
        let lexemes = lexemes_of(&rt, rt.alloc(), text)?;
        match lexemes.as_slice() {
            [lexeme] => {
                if lexeme.kind != kind {
                    panic!(rt; "another kind: {text}");
                }
            }
            _ => panic!(rt; "not one token: {text}"),
        }
    }
    Ok(())
}

#[test]
fn first_lexemes(rt: HostRuntime) -> Result<(), Fail> {
    let lexemes = lexemes_of(&rt, rt.alloc(), "fn f // of\n(7)")?;
    let Some((word, rest)) = split(lexemes.as_slice()) else {
        panic!(&rt; "no lexeme");
    };
    assert!(&rt; is_word(Word::Fn, word) && !is_word(Word::Of, word) && !is_name(word));
    assert!(&rt; word.span.past == 2 && rest.len() == 4);
    assert!(&rt; is_name(rest[0]) && is_mark(Mark::OpenParen, rest[1]));
    assert!(&rt; !is_mark(Mark::CloseParen, rest[1]) && !is_mark(Mark::OpenParen, rest[2]));
    assert!(&rt; split(&rest[4..]).is_none());
    Ok(())
}

#[test]
fn texts(rt: HostRuntime) {
    assert!(rt; type_word_of(b"void") == Some(Word::Void));
    assert!(rt; type_word_of(b"u8").is_none());
}

#[test]
fn words_of_c(rt: HostRuntime) -> Result<(), Fail> {
    let lexemes = lexemes_of(&rt, rt.alloc(), "int typeof __thread u8 8 =")?;
    let [int, typeof_, thread, name, number, mark] = lexemes.as_slice() else {
        panic!(&rt; "not six tokens");
    };
    assert!(&rt; int.c_kind == LexemeKind::Keyword(Keyword::Int));
    assert!(&rt; typeof_.c_kind == LexemeKind::Keyword(Keyword::Reserved));
    assert!(&rt; thread.c_kind == LexemeKind::Keyword(Keyword::Reserved));
    assert!(&rt; name.c_kind == LexemeKind::Name(None));
    assert!(&rt; number.c_kind == LexemeKind::Other);
    assert!(&rt; mark.c_kind == LexemeKind::Punctuator(Mark::Assign));
    Ok(())
}
