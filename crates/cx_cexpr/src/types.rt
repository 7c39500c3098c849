// Types without a declaration (C11 6.7.7).

ghost use Rattle.std.specs.Prelude.{◌≡◌, ◌≤◌, ◌<◌, ◌-◌, Ok, Some, IfOk, option_and_then};
ghost use Rattle.cx_ctree.specs.Types.{type_tree};
ghost use Rattle.cx_ctree.specs.Types as ctype;
ghost use Rattle.cx_ctree.specs.Path.{type_path};
ghost use Rattle.cx_cword.specs.Reading.{Gives};
ghost use Rattle.cx_cname.specs.Known.{known_of, value_of};
ghost use Rattle.cx_cexpr.specs.IntWords as words;
ghost use Rattle.cx_cexpr.specs.Reading.{got_type, MeasuredType, base_at, tail_at, type_at, enclosed_at, tag_at, enum_at, typedef_by, low_type, int_words, words_at};
ghost use Rattle.cx_cexpr.specs.Reading as spec;

use crate::kinds::{Base, IntWord, Tail, base_of, is_skipped, named, tail_of};
use crate::make::{ReadType, low_type, pointer_to};
use crate::words::{int_of, no_word, read_words, signed_int, skipped, with_word};
use cx_cname::{is_union, names_enum, names_type, tag_place, typedef_of};
use cx_ctree::{CType, Unit};
use cx_cword::{Lexeme, Mark, Stop, fits, next, split};
use std::alloc::Global;

/// How many nodes the longest path of the type has.
fn height_of(ctype: &CType) -> u32
    requires { type_path (type_tree ctype.now) ≤ 400 }
    ensures { result ≡ type_path (type_tree ctype.now) }
{
    match ctype {
        CType::Void | CType::Int(_) | CType::Tag(_) => 1,
        CType::Ptr(inner) | CType::Array(inner, _) => height_of(inner) + 1,
    }
}

fn kind_fits(known: &Unit, union: bool, at: usize) -> bool
    ensures { result ≡ spec.kind_fits (known_of known.now) union at }
{
    match is_union(known, at) {
        None => false,
        Some(other) => same_kind(union, other) && at < 4294967296,
    }
}

fn same_kind(a: bool, b: bool) -> bool
    ensures { result ≡ spec.same_kind a (Some b) }
{
    if a { b } else { !b }
}

/// The struct or union of a name that is declared before.
fn tag<'a>(known: &Unit, union: bool, lexemes: &'a [Lexeme]) -> Result<ReadType<'a>, Stop>
    ensures value { Gives got_type result (tag_at (known_of known.now) union lexemes.now) }
    ensures low { IfOk result (λ r. r.height ≡ type_path (type_tree r.tree)) }
{
    match named(lexemes) {
        None => Err(Stop::Unread),
        Some((o, n, rest)) => match tag_place(known, n) {
            None => Err(Stop::Unread),
            Some(at) => {
                if kind_fits(known, union, at) {
                    Ok(ReadType {
                        tree: CType::Tag(at as u32),
                        height: 1,
                        past: o.span.past,
                        rest,
                    })
                } else {
                    Err(Stop::Unread)
                }
            }
        },
    }
}

/// The enumeration of a name whose list is declared before, which is an `int`.
fn enumeration<'a>(known: &Unit, lexemes: &'a [Lexeme]) -> Result<ReadType<'a>, Stop>
    ensures value { Gives got_type result (enum_at (known_of known.now) lexemes.now) }
    ensures low { IfOk result (λ r. r.height ≡ type_path (type_tree r.tree)) }
{
    match named(lexemes) {
        None => Err(Stop::Unread),
        Some((o, n, rest)) => {
            if names_enum(known, n) {
                Ok(ReadType {
                    tree: CType::Int(signed_int()),
                    height: 1,
                    past: o.span.past,
                    rest,
                })
            } else {
                Err(Stop::Unread)
            }
        }
    }
}

/// The type that the name is declared as.
#[tactic(auto, using(std::proofs::lemmas::Bool::Decides::nat_tests, crate::proofs::Lows::low_type_low, crate::proofs::Lows::low_type_high))]
fn typedef<'a>(
    known: &Unit,
    left: u32,
    n: u32,
    o: Lexeme,
    rest: &'a [Lexeme],
) -> Result<ReadType<'a>, Stop>
    requires shallow { left ≤ 400 }
    ensures value { Gives got_type result (option_and_then (low_type left) (typedef_by o rest.now (value_of n (known_of known.now).typedefs))) }
    ensures measured { MeasuredType left result }
{
    match typedef_of(known, n) {
        None => Err(Stop::Unread),
        Some(ctype) => {
            if ctype.exceeds(left) {
                return Err(Stop::Unread);
            }
            Ok(ReadType {
                tree: ctype.copy()?,
                height: height_of(ctype),
                past: o.span.past,
                rest,
            })
        }
    }
}

fn int_type<'a>(word: IntWord, past: u32, rest: &'a [Lexeme]) -> ReadType<'a>
    ensures value { got_type result ≡ int_words (words_at (spec.with_word word words.no_word) past rest.now) }
    ensures low { result.height ≡ type_path (type_tree result.tree) }
{
    let read = read_words(with_word(word, no_word()), past, rest);
    ReadType {
        tree: CType::Int(int_of(read.words)),
        height: 1,
        past: read.past,
        rest: read.rest,
    }
}

fn void<'a>(past: u32, rest: &'a [Lexeme]) -> ReadType<'a>
    ensures value { got_type result ≡ record { tree = ctype.void; past = past; rest = rest.now } }
    ensures low { result.height ≡ type_path (type_tree result.tree) }
{
    ReadType {
        tree: CType::Void,
        height: 1,
        past,
        rest,
    }
}

/// The words of a type that is declared before: words of C11 6.7.2, the name of a typedef, or
/// `struct`, `union` or `enum` with a name. They have a tree of at most `left` nodes on a path.
#[tactic(auto, unfolding(crate::specs::Reading::base_at))]
pub fn base_type<'a>(known: &Unit, left: u32, lexemes: &'a [Lexeme]) -> Result<ReadType<'a>, Stop>
    requires shallow { left ≤ 400 }
    ensures value { Gives got_type result (base_at (known_of known.now) left lexemes.now) }
    ensures measured { MeasuredType left result }
{
    match split(lexemes) {
        None => Err(Stop::Unread),
        Some((o, rest)) => match base_of(o.kind) {
            Base::Void => low_type(left, void(o.span.past, rest)),
            Base::Word(word) => low_type(left, int_type(word, o.span.past, rest)),
            Base::Tag(union) => {
                let x = tag(known, union, rest)?;
                low_type(left, x)
            }
            Base::Enum => {
                let x = enumeration(known, rest)?;
                low_type(left, x)
            }
            Base::Name(n) => typedef(known, left, n, o, rest),
            Base::Other => Err(Stop::Unread),
        },
    }
}

/// Goes on with stars and words that are passed over, up to a star that would make the type too
/// high.
#[tactic(auto, using(crate::proofs::Lows::tail_none, crate::proofs::Lows::tail_turn))]
fn tail<'a>(alloc: Global, left: u32, mut x: ReadType<'a>) -> Result<ReadType<'a>, Stop>
    requires shallow { left ≤ 400 }
    requires known { MeasuredType left (Ok x) }
    ensures value { Gives got_type result (Some (tail_at left (type_tree x.entry.tree) x.entry.past x.entry.rest.now)) }
    ensures measured { MeasuredType left result }
{
    while let Some((o, rest)) = split(x.rest) {
        match tail_of(o.kind) {
            Tail::Other => return Ok(x),
            Tail::Skipped => {
                x = ReadType {
                    past: o.span.past,
                    rest,
                    ..x
                };
            }
            Tail::Star => {
                if x.height >= left {
                    return Ok(x);
                }
                x = ReadType {
                    tree: pointer_to(alloc, x.tree)?,
                    height: x.height + 1,
                    past: o.span.past,
                    rest,
                };
            }
        }
    }
    Ok(x)
}

/// The longest type at the front whose tree has at most `left` nodes on a path.
#[tactic(auto, unfolding(crate::specs::Reading::type_at))]
pub fn type_name<'a>(
    alloc: Global,
    known: &Unit,
    left: u32,
    lexemes: &'a [Lexeme],
) -> Result<ReadType<'a>, Stop>
    requires shallow { left ≤ 400 }
    ensures value { Gives got_type result (type_at (known_of known.now) left lexemes.now) }
    ensures measured { MeasuredType left result }
{
    let x = base_type(known, left, skipped(0, lexemes).rest)?;
    tail(alloc, left, x)
}

/// A type in parentheses.
#[tactic(auto, unfolding(crate::specs::Reading::enclosed_at))]
pub fn enclosed_type<'a>(
    alloc: Global,
    known: &Unit,
    left: u32,
    lexemes: &'a [Lexeme],
) -> Result<ReadType<'a>, Stop>
    requires shallow { left ≤ 400 }
    ensures value { Gives got_type result (enclosed_at (known_of known.now) left lexemes.now) }
    ensures measured { MeasuredType left result }
{
    match next(Mark::OpenParen, lexemes) {
        None => Err(Stop::Unread),
        Some((_, rest)) => {
            let x = type_name(alloc, known, left, rest)?;
            match next(Mark::CloseParen, x.rest) {
                None => Err(Stop::Unread),
                Some((c, after)) => Ok(ReadType {
                    past: c.span.past,
                    rest: after,
                    ..x
                }),
            }
        }
    }
}

fn begins_base(known: &Unit, base: Base) -> bool
    ensures { result ≡ spec.begins_base (known_of known.now) base }
{
    match base {
        Base::Other => false,
        Base::Name(n) => names_type(known, n),
        _ => true,
    }
}

/// Whether the first lexeme is one that begins a type. No expression begins so.
pub fn begins_type(known: &Unit, lexemes: &[Lexeme]) -> bool
    ensures { result ≡ spec.begins_type (known_of known.now) lexemes.now }
{
    match split(lexemes) {
        None => false,
        Some((o, _)) => is_skipped(o.kind) || begins_base(known, base_of(o.kind)),
    }
}

/// Whether the first lexemes are a parenthesis and one that begins a type.
pub fn opens_type(known: &Unit, lexemes: &[Lexeme]) -> bool
    ensures { result ≡ spec.opens_type (known_of known.now) lexemes.now }
{
    match split(lexemes) {
        None => false,
        Some((o, rest)) => fits(Mark::OpenParen, o.kind) && begins_type(known, rest),
    }
}
