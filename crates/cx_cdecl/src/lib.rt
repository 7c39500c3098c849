//! Declarations of C (C11 6.7): types with the words beside them, declarators and declarations
//! without a body, read from the tokens of a file.
//!
//! What is read is added to the tags, typedefs, constants and enumerations of a `Unit`; where
//! nothing is read, the unit is as it was.
#![tactic(auto)]

ghost use Rattle.std.specs.Prelude.{◌≡◌, ◌≤◌, ◌<◌, ◌-◌, ◌^◌, All, IfOk, IfSome, IfNone, OnErr, MatchOption, length, map, drop};
ghost use Rattle.cx_ctree.specs.Types.{type_tree};
ghost use Rattle.cx_ctree.specs.Decls.{decl_tree};
ghost use Rattle.cx_ctree.specs.Units.{unit_tree};
ghost use Rattle.cx_cname.specs.Known.{known_of, earlier_of};
ghost use Rattle.cx_cname.specs.Changes.{SameFile};
ghost use Rattle.cx_cword.specs.Lexemes as words;
ghost use Rattle.cx_cdecl.specs.Fronts.{LongestType, NoType, LongestSpecs, NoSpecs, LongestDeclarator, NoDeclarator, OnlyDeclaration, NoDeclaration};

mod attributes;
pub mod declaration;
pub mod declarator;
mod enumerator;
pub mod front;
pub mod kinds;
pub mod member;
mod param;
pub mod specifier;

use crate::declaration::without_body;
use crate::front::{front_declarator, front_specs, height_within, next_place, shallow, whole};
use cx_base::{List, NoMemory, Span, Token};
use cx_cexpr::type_name;
use cx_ctree::{CType, Decl, Unit};
use cx_cword::{Stop, lexemes};
use std::alloc::Global;

/// The words of a type (C11 6.7): the type, whether `typedef` stands there, whether `extern` or
/// `static` does, and the place of the token after them.
#[derive(Drop)]
pub struct SpecsRead {
    pub base: CType,
    pub typedef_: bool,
    pub linked: bool,
    pub next: usize,
}

/// A declarator (C11 6.7.6): a `Proto` for a function and an `Object` else, where its name stands,
/// and the place of the token after it.
#[derive(Drop)]
pub struct DeclaratorRead {
    pub decl: Decl,
    pub name_span: Span,
    pub next: usize,
}

/// A type without a declaration (C11 6.7.7), and the place of the token after it.
#[derive(Drop)]
pub struct TypeRead {
    pub ctype: CType,
    pub next: usize,
}

/// A file has fewer tags: it has at most 2^24 bytes. The readers answer `NoMemory` where a unit has
/// more.
const MOST_TAGS: usize = 4000000000;

/// Reads all of `tokens` as a declaration without a body. None exactly where they are none, and
/// then, as after `NoMemory`, `known` is as it was. `NoMemory` also stands for more than 4,000,000,000
/// tags in `known`.
pub fn read_decl(
    alloc: Global,
    bytes: &[u8],
    tokens: &[Token],
    known: &mut Unit,
) -> Result<Option<List<Decl>>, NoMemory>
    requires inside { All (λ t. t.span.past ≤ length bytes.now) tokens.now }
    requires few { length tokens.now ≤ 2 ^ 24 }
    ensures read { IfOk result (λ r. MatchOption r (NoDeclaration (earlier_of known.old) (known_of known.old) (words.lexemes known.old.names bytes.now tokens.now)) (λ ds. OnlyDeclaration (earlier_of known.old) (known_of known.old) (words.lexemes known.old.names bytes.now tokens.now) (map decl_tree ds) (known_of known.new))) }
    ensures none { IfOk result (λ r. IfNone r (unit_tree known.new ≡ unit_tree known.old)) }
    ensures err { OnErr result (unit_tree known.new ≡ unit_tree known.old) }
    ensures file { SameFile known.old known.new }
{
    if known.tags.len() > MOST_TAGS {
        return Err(NoMemory);
    }
    let all = lexemes(alloc, &known.names, bytes, tokens)?;
    let front = shallow(all.as_slice());
    if front.len() < all.len() {
        return Ok(None);
    }
    whole(alloc, known, 16 * front.len() + 64, front)
}

/// Reads the words of a type with the words and attributes beside it, the longest derived front of
/// the tokens from `at` on. None exactly where no front is derived, and then, as after `NoMemory`,
/// `known` is as it was. `NoMemory` also stands for more than 4,000,000,000 tags in `known`.
pub fn read_specs(
    alloc: Global,
    bytes: &[u8],
    tokens: &[Token],
    at: usize,
    known: &mut Unit,
) -> Result<Option<SpecsRead>, NoMemory>
    requires inside { All (λ t. t.span.past ≤ length bytes.now) tokens.now }
    requires few { length tokens.now ≤ 2 ^ 24 }
    requires at { at ≤ length tokens.now }
    ensures read { IfOk result (λ r. MatchOption r (NoSpecs (earlier_of known.old) (known_of known.old) (words.lexemes known.old.names bytes.now (drop at tokens.now))) (λ s. LongestSpecs (earlier_of known.old) (known_of known.old) (words.lexemes known.old.names bytes.now (drop at tokens.now)) (s.next - at) (type_tree s.base) s.typedef_ s.linked (known_of known.new))) }
    ensures next { IfOk result (λ r. IfSome r (λ s. at ≤ s.next)) }
    ensures none { IfOk result (λ r. IfNone r (unit_tree known.new ≡ unit_tree known.old)) }
    ensures err { OnErr result (unit_tree known.new ≡ unit_tree known.old) }
    ensures file { SameFile known.old known.new }
{
    if known.tags.len() > MOST_TAGS {
        return Err(NoMemory);
    }
    let all = lexemes(alloc, &known.names, bytes, &tokens[at..])?;
    let front = shallow(all.as_slice());
    match front_specs(alloc, known, 16 * front.len() + 64, front)? {
        None => Ok(None),
        Some(x) => Ok(Some(SpecsRead {
            base: x.ctype,
            typedef_: x.said.typedef_,
            linked: x.said.linked,
            next: next_place(at, front, x.rest),
        })),
    }
}

/// Reads a declarator of the type `base`, the longest derived front of the tokens from `at` on.
/// None exactly where no front is derived, and then, as after `NoMemory`, `known` is as it was.
/// `NoMemory` also stands for more than 4,000,000,000 tags in `known`.
pub fn read_declarator(
    alloc: Global,
    bytes: &[u8],
    tokens: &[Token],
    at: usize,
    base: &CType,
    known: &mut Unit,
) -> Result<Option<DeclaratorRead>, NoMemory>
    requires inside { All (λ t. t.span.past ≤ length bytes.now) tokens.now }
    requires few { length tokens.now ≤ 2 ^ 24 }
    requires at { at ≤ length tokens.now }
    ensures read { IfOk result (λ r. MatchOption r (NoDeclarator (earlier_of known.old) (known_of known.old) (type_tree base.now) (words.lexemes known.old.names bytes.now (drop at tokens.now))) (λ d. LongestDeclarator (earlier_of known.old) (known_of known.old) (type_tree base.now) (words.lexemes known.old.names bytes.now (drop at tokens.now)) (d.next - at) (decl_tree d.decl) d.name_span (known_of known.new))) }
    ensures next { IfOk result (λ r. IfSome r (λ d. at ≤ d.next)) }
    ensures none { IfOk result (λ r. IfNone r (unit_tree known.new ≡ unit_tree known.old)) }
    ensures err { OnErr result (unit_tree known.new ≡ unit_tree known.old) }
    ensures file { SameFile known.old known.new }
{
    if known.tags.len() > MOST_TAGS {
        return Err(NoMemory);
    }
    let height = match height_within(base, 400) {
        None => return Ok(None),
        Some(height) => height,
    };
    let all = lexemes(alloc, &known.names, bytes, &tokens[at..])?;
    let front = shallow(all.as_slice());
    match front_declarator(alloc, known, 16 * front.len() + 64, base, height, front)? {
        None => Ok(None),
        Some(x) => Ok(Some(DeclaratorRead {
            decl: without_body(x.kind),
            name_span: x.lexeme.span,
            next: next_place(at, front, x.rest),
        })),
    }
}

/// Reads a type without a declaration, the longest derived front of the tokens from `at` on. None
/// exactly where no front is derived. `NoMemory` also stands for more than 4,000,000,000 tags in
/// `known`.
pub fn read_type(
    alloc: Global,
    bytes: &[u8],
    tokens: &[Token],
    at: usize,
    known: &Unit,
) -> Result<Option<TypeRead>, NoMemory>
    requires inside { All (λ t. t.span.past ≤ length bytes.now) tokens.now }
    requires few { length tokens.now ≤ 2 ^ 24 }
    requires at { at ≤ length tokens.now }
    ensures read { IfOk result (λ r. MatchOption r (NoType (known_of known.now) (words.lexemes known.now.names bytes.now (drop at tokens.now))) (λ t. LongestType (known_of known.now) (words.lexemes known.now.names bytes.now (drop at tokens.now)) (t.next - at) (type_tree t.ctype))) }
    ensures next { IfOk result (λ r. IfSome r (λ t. at ≤ t.next)) }
{
    if known.tags.len() > MOST_TAGS {
        return Err(NoMemory);
    }
    let all = lexemes(alloc, &known.names, bytes, &tokens[at..])?;
    let front = shallow(all.as_slice());
    match type_name(alloc, known, 400, front) {
        Err(Stop::NoMemory) => Err(NoMemory),
        Err(Stop::Unread) => Ok(None),
        Ok(x) => Ok(Some(TypeRead {
            ctype: x.tree,
            next: next_place(at, front, x.rest),
        })),
    }
}
