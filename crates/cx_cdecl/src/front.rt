// Whole declarations and longest fronts: what is not derived leaves the unit as it was.

ghost use Rattle.std.specs.Prelude.{◌≡◌, ◌≤◌, ◌<◌, ◌+◌, ◌-◌, ◌^◌, length, [], Some, IfOk, IfSome, IfNone, OnErr, option_map};
ghost use Rattle.cx_ctree.specs.Types.{type_tree};
ghost use Rattle.cx_ctree.specs.Path.{type_path};
ghost use Rattle.cx_ctree.specs.Units.{unit_tree};
ghost use Rattle.cx_cname.specs.Known.{known_of, earlier_of};
ghost use Rattle.cx_cname.specs.Changes.{SameFile};
ghost use Rattle.cx_cdecl.specs.Derived as derived;
ghost use Rattle.cx_cdecl.specs.Reading.{Within, whole_after, whole_at, got_specs, got_declared, object_front, object_at, plain_specs_at, front_specs_at, front_declarator_at, shallow_at};

use crate::declaration::{DeclaratorKind, ReadDeclarator, declaration, declarator};
use crate::declarator::object;
use crate::member::specs;
use crate::specifier::{ReadSpecs, plain_specs};
use cx_base::{List, NoMemory};
use cx_cname::take_back;
use cx_ctree::{CType, Decl, Unit};
use cx_cword::{Lexeme, LexemeKind, Punctuator, Stop, split};
use std::alloc::Global;

/// How many brackets are open after a lexeme.
fn open_after(kind: LexemeKind, n: u32) -> u32
    requires { n ≤ 100 }
    ensures { result ≡ derived.open_after kind n }
{
    match kind {
        LexemeKind::Punctuator(Punctuator::OpenParen) => n + 1,
        LexemeKind::Punctuator(Punctuator::OpenBracket) => n + 1,
        LexemeKind::Punctuator(Punctuator::OpenBrace) => n + 1,
        LexemeKind::Punctuator(Punctuator::CloseParen) => n.saturating_sub(1),
        LexemeKind::Punctuator(Punctuator::CloseBracket) => n.saturating_sub(1),
        LexemeKind::Punctuator(Punctuator::CloseBrace) => n.saturating_sub(1),
        _ => n,
    }
}

/// The lexemes up to the first bracket that opens the 101st level.
#[tactic(auto, using(crate::proofs::Shallow::shallow_step, crate::proofs::Shallow::shallow_stop, crate::proofs::Shallow::shallow_end))]
pub fn shallow(lexemes: &[Lexeme]) -> &[Lexeme]
    ensures { result.now ≡ shallow_at 0 lexemes.now }
{
    let mut n = 0;
    let mut i = 0;
    'each: while i < lexemes.len() {
        match split(&lexemes[i..]) {
            None => return lexemes,
            Some((o, _)) => {
                let open = open_after(o.kind, n);
                if open > 100 {
                    return &lexemes[..i];
                }
                n = open;
                i += 1;
            }
        }
    }
    lexemes
}

/// The declaration that is all of the lexemes.
#[tactic(auto, using(cx_cname::proofs::Whole::back_ranked, cx_cname::proofs::Whole::back_is, cx_cname::proofs::Whole::back_file, cx_cname::proofs::Whole::same_file), unfolding(crate::specs::Reading::whole_at))]
pub fn whole(
    alloc: Global,
    known: &mut Unit,
    turns: usize,
    lexemes: &[Lexeme],
) -> Result<Option<List<Decl>>, NoMemory>
    ensures value { IfOk result (λ r. option_map (λ ds. whole_after ds (known_of known.new)) r ≡ whole_at turns (earlier_of known.old) (known_of known.old) lexemes.now) }
    ensures none { IfOk result (λ r. IfNone r (unit_tree known.new ≡ unit_tree known.old)) }
    ensures err { OnErr result (unit_tree known.new ≡ unit_tree known.old) }
    ensures file { SameFile known.old known.new }
{
    let mut changes = List::new(alloc);
    match declaration(alloc, known, &mut changes, turns, lexemes) {
        Err(Stop::NoMemory) => {
            take_back(known, changes.as_slice());
            Err(NoMemory)
        }
        Err(Stop::Unread) => {
            take_back(known, changes.as_slice());
            Ok(None)
        }
        Ok(x) => match split(x.rest) {
            None => Ok(Some(x.decls)),
            Some((_, _)) => {
                take_back(known, changes.as_slice());
                Ok(None)
            }
        },
    }
}

/// The words of a type with the words beside it, without a list in braces.
#[tactic(auto, using(cx_cname::proofs::Whole::back_ranked, cx_cname::proofs::Whole::back_is, cx_cname::proofs::Whole::back_file, cx_cname::proofs::Whole::same_file))]
fn plain_front<'a>(
    alloc: Global,
    known: &mut Unit,
    turns: usize,
    lexemes: &'a [Lexeme],
) -> Result<Option<ReadSpecs<'a>>, NoMemory>
    ensures value { IfOk result (λ r. option_map (λ r. got_specs r (known_of known.new)) r ≡ plain_specs_at turns (known_of known.old) lexemes.now) }
    ensures measured { IfOk result (λ r. IfSome r (λ r. r.height ≡ type_path (type_tree r.ctype))) }
    ensures none { IfOk result (λ r. IfNone r (unit_tree known.new ≡ unit_tree known.old)) }
    ensures err { OnErr result (unit_tree known.new ≡ unit_tree known.old) }
    ensures file { SameFile known.old known.new }
{
    let mut changes = List::new(alloc);
    match plain_specs(known, &mut changes, turns, lexemes) {
        Err(Stop::NoMemory) => {
            take_back(known, changes.as_slice());
            Err(NoMemory)
        }
        Err(Stop::Unread) => {
            take_back(known, changes.as_slice());
            Ok(None)
        }
        Ok(x) => Ok(Some(x)),
    }
}

/// The words of a type with the words beside it, with a list in braces where one is derived.
#[tactic(auto, using(cx_cname::proofs::Whole::back_ranked, cx_cname::proofs::Whole::back_is, cx_cname::proofs::Whole::back_file, cx_cname::proofs::Whole::same_file, cx_cname::proofs::Whole::same_known, cx_cname::proofs::Whole::same_earlier), unfolding(crate::specs::Reading::front_specs_at))]
pub fn front_specs<'a>(
    alloc: Global,
    known: &mut Unit,
    turns: usize,
    lexemes: &'a [Lexeme],
) -> Result<Option<ReadSpecs<'a>>, NoMemory>
    ensures value { IfOk result (λ r. option_map (λ r. got_specs r (known_of known.new)) r ≡ front_specs_at turns (earlier_of known.old) (known_of known.old) lexemes.now) }
    ensures none { IfOk result (λ r. IfNone r (unit_tree known.new ≡ unit_tree known.old)) }
    ensures err { OnErr result (unit_tree known.new ≡ unit_tree known.old) }
    ensures file { SameFile known.old known.new }
{
    let mut changes = List::new(alloc);
    match specs(alloc, known, &mut changes, turns, turns, lexemes) {
        Err(Stop::NoMemory) => {
            take_back(known, changes.as_slice());
            Err(NoMemory)
        }
        Err(Stop::Unread) => {
            take_back(known, changes.as_slice());
            plain_front(alloc, known, turns, lexemes)
        }
        Ok(x) => Ok(Some(x)),
    }
}

/// A declarator of an object.
fn front_object<'a>(
    alloc: Global,
    known: &Unit,
    turns: usize,
    base: &CType,
    high: u32,
    lexemes: &'a [Lexeme],
) -> Result<Option<ReadDeclarator<'a>>, NoMemory>
    requires { high ≡ type_path (type_tree base.now) }
    ensures { IfOk result (λ r. option_map (λ r. got_declared r (known_of known.now)) r ≡ object_front (known_of known.now) (object_at turns (known_of known.now) (type_tree base.now) lexemes.now)) }
{
    match object(alloc, known, turns, base, high, lexemes) {
        Err(Stop::NoMemory) => Err(NoMemory),
        Err(Stop::Unread) => Ok(None),
        Ok(x) => Ok(Some(ReadDeclarator {
            kind: DeclaratorKind::Object(x.name, x.ctype),
            lexeme: x.lexeme,
            rest: x.rest,
        })),
    }
}

/// A declarator; of an object, where the parameters are not derived.
#[tactic(auto, using(cx_cname::proofs::Whole::back_ranked, cx_cname::proofs::Whole::back_is, cx_cname::proofs::Whole::back_file, cx_cname::proofs::Whole::same_file, cx_cname::proofs::Whole::same_known, cx_cname::proofs::Whole::same_earlier), unfolding(crate::specs::Reading::front_declarator_at))]
pub fn front_declarator<'a>(
    alloc: Global,
    known: &mut Unit,
    turns: usize,
    base: &CType,
    high: u32,
    lexemes: &'a [Lexeme],
) -> Result<Option<ReadDeclarator<'a>>, NoMemory>
    requires { high ≡ type_path (type_tree base.now) }
    ensures value { IfOk result (λ r. option_map (λ r. got_declared r (known_of known.new)) r ≡ front_declarator_at turns (known_of known.old) (type_tree base.now) lexemes.now) }
    ensures none { IfOk result (λ r. IfNone r (unit_tree known.new ≡ unit_tree known.old)) }
    ensures err { OnErr result (unit_tree known.new ≡ unit_tree known.old) }
    ensures file { SameFile known.old known.new }
{
    let mut changes = List::new(alloc);
    match declarator(alloc, known, &mut changes, turns, base, high, lexemes) {
        Err(Stop::NoMemory) => {
            take_back(known, changes.as_slice());
            Err(NoMemory)
        }
        Err(Stop::Unread) => {
            take_back(known, changes.as_slice());
            front_object(alloc, known, turns, base, high, lexemes)
        }
        Ok(x) => Ok(Some(x)),
    }
}

/// The place of the token after a front that was read from `at` on.
pub fn next_place(at: usize, front: &[Lexeme], rest: &[Lexeme]) -> usize
    requires { at + length front.now < 2 ^ 64 }
    ensures { result ≡ at + (length front.now - length rest.now) }
{
    at + front.len().saturating_sub(rest.len())
}

/// How many nodes the longest path of the type has, if not more than these.
pub fn height_within(ctype: &CType, most: u32) -> Option<u32>
    ensures { Within most result (type_path (type_tree ctype.now)) }
{
    if most == 0 {
        return None;
    }
    match ctype {
        CType::Void | CType::Int(_) | CType::Tag(_) => Some(1),
        CType::Ptr(inner) | CType::Array(inner, _) => match height_within(inner, most - 1) {
            None => None,
            Some(height) => Some(height + 1),
        },
    }
}
