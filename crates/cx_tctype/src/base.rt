// The words of a type.

ghost use Rattle.std.specs.Prelude.{◌≡◌, Some};
ghost use Rattle.cx_ctree.specs.Conversions as conversions;
ghost use Rattle.cx_ctree.specs.Types.{type_tree};
ghost use Rattle.cx_cname.specs.Known.{known_of, value_of};
ghost use Rattle.cx_cexpr.specs.Kinds.{int_word, base_int};
ghost use Rattle.cx_cexpr.specs.Reading as kinds;
ghost use Rattle.cx_reader.specs.Reading.{Gives};
ghost use Rattle.cx_tctype.specs.Pointees as grammar;
ghost use Rattle.cx_tctype.specs.Reading as spec;
ghost use Rattle.cx_tctype.specs.Words.{pointee_tree};

use crate::pointee::Pointee;
use crate::words::{first_word, int_of, read_words};
use cx_base::{CInt, Span};
use cx_cname::{is_union, names_enum, tag_place, typedef_of};
use cx_ctree::{CType, Unit};
use cx_cword::{Keyword, LexemeKind};
use cx_reader::{Read, Stop, split};
use cx_tword::TypeLexeme;

fn known(ctype: CType) -> Pointee
    ensures { pointee_tree result ≡ grammar.known (type_tree ctype) }
{
    Pointee {
        ctype,
        unknown_tag: None,
    }
}

fn signed_int() -> CInt
    ensures { result ≡ conversions.signed_int }
{
    CInt {
        size: 4,
        signed: true,
    }
}

// The type of an integer whose first word this is, if it is such a word.
#[tactic(auto, using(crate::proofs::Turns::first_none, crate::proofs::Turns::first_some))]
fn int_type<'a>(
    unit: &Unit,
    word: Keyword,
    lexemes: &'a [TypeLexeme],
    rest: &'a [TypeLexeme],
) -> Result<Read<'a, TypeLexeme, Pointee>, Stop>
    ensures { Gives pointee_tree result (spec.base_by (known_of unit.now) lexemes.now rest.now (base_int (int_word word))) }
{
    match first_word(word) {
        None => Err(Stop::Unread(lexemes.len())),
        Some(n) => {
            let read = read_words(n, rest);
            Ok(Read {
                tree: known(CType::Int(int_of(read.words))),
                rest: read.rest,
            })
        }
    }
}

#[tactic(auto, using(std::proofs::lemmas::Bool::Decides::nat_tests))]
fn is_low(ctype: &CType) -> bool
    ensures { result ≡ grammar.is_low (type_tree ctype.now) }
{
    !ctype.exceeds(400)
}

// The type that the name is declared as.
fn typedef<'a>(
    unit: &Unit,
    n: u32,
    lexemes: &'a [TypeLexeme],
    rest: &'a [TypeLexeme],
) -> Result<Read<'a, TypeLexeme, Pointee>, Stop>
    ensures { Gives pointee_tree result (spec.typedef_by lexemes.now rest.now (value_of n (known_of unit.now).typedefs)) }
{
    match typedef_of(unit, n) {
        None => Err(Stop::Unread(lexemes.len())),
        Some(ctype) => {
            if is_low(ctype) {
                Ok(Read {
                    tree: known(ctype.copy()?),
                    rest,
                })
            } else {
                Err(Stop::Unread(lexemes.len()))
            }
        }
    }
}

fn same_kind(a: bool, b: bool) -> bool
    ensures { result ≡ kinds.same_kind a (Some b) }
{
    if a { b } else { !b }
}

fn kind_fits(unit: &Unit, union: bool, at: usize) -> bool
    ensures { result ≡ kinds.kind_fits (known_of unit.now) union at }
{
    match is_union(unit, at) {
        None => false,
        Some(other) => same_kind(union, other) && at < 4294967296,
    }
}

// The struct or union of this name.
fn tagged(unit: &Unit, union: bool, span: Span, name: Option<u32>) -> Pointee
    ensures { pointee_tree result ≡ grammar.tagged span (grammar.tag_found (known_of unit.now) union name) }
{
    let unknown = Pointee {
        ctype: CType::Void,
        unknown_tag: Some(span),
    };
    match name {
        None => unknown,
        Some(n) => match tag_place(unit, n) {
            None => unknown,
            Some(at) => {
                if kind_fits(unit, union, at) {
                    known(CType::Tag(at as u32))
                } else {
                    unknown
                }
            }
        },
    }
}

// The name behind `struct` or `union`.
fn tag<'a>(
    unit: &Unit,
    union: bool,
    lexemes: &'a [TypeLexeme],
) -> Result<Read<'a, TypeLexeme, Pointee>, Stop>
    ensures { Gives pointee_tree result (spec.tag_at (known_of unit.now) union lexemes.now) }
{
    match split(lexemes) {
        None => Err(Stop::Unread(lexemes.len())),
        Some((m, rest)) => match m.c_kind {
            LexemeKind::Name(name) => Ok(Read {
                tree: tagged(unit, union, m.span, name),
                rest,
            }),
            _ => Err(Stop::Unread(lexemes.len())),
        },
    }
}

// The name behind `enum`.
fn enumeration<'a>(
    unit: &Unit,
    lexemes: &'a [TypeLexeme],
) -> Result<Read<'a, TypeLexeme, Pointee>, Stop>
    ensures { Gives pointee_tree result (spec.enum_at (known_of unit.now) lexemes.now) }
{
    match split(lexemes) {
        None => Err(Stop::Unread(lexemes.len())),
        Some((m, rest)) => match m.c_kind {
            LexemeKind::Name(Some(n)) => {
                if names_enum(unit, n) {
                    Ok(Read {
                        tree: known(CType::Int(signed_int())),
                        rest,
                    })
                } else {
                    Err(Stop::Unread(lexemes.len()))
                }
            }
            _ => Err(Stop::Unread(lexemes.len())),
        },
    }
}

fn has_some(numbers: &[u32]) -> bool
    ensures { result ≡ spec.has_some numbers.now }
{
    match numbers {
        [] => false,
        [_, ..] => true,
    }
}

/// Reads the words of a type.
#[tactic(auto, unfolding(crate::specs::Reading::base_at))]
pub fn base<'a>(
    unit: &Unit,
    lexemes: &'a [TypeLexeme],
) -> Result<Read<'a, TypeLexeme, Pointee>, Stop>
    ensures { Gives pointee_tree result (spec.base_at (known_of unit.now) lexemes.now) }
{
    match split(lexemes) {
        None => Err(Stop::Unread(lexemes.len())),
        Some((o, rest)) => match o.c_kind {
            LexemeKind::Keyword(Keyword::Void) => Ok(Read {
                tree: known(CType::Void),
                rest,
            }),
            LexemeKind::Keyword(Keyword::Struct) => tag(unit, false, rest),
            LexemeKind::Keyword(Keyword::Union) => tag(unit, true, rest),
            LexemeKind::Keyword(Keyword::Enum) => {
                if has_some(unit.enums.as_slice()) {
                    enumeration(unit, rest)
                } else {
                    Err(Stop::Unread(lexemes.len()))
                }
            }
            LexemeKind::Keyword(word) => int_type(unit, word, lexemes, rest),
            LexemeKind::Name(Some(n)) | LexemeKind::Attributive(Some(n)) => {
                typedef(unit, n, lexemes, rest)
            }
            _ => Err(Stop::Unread(lexemes.len())),
        },
    }
}
