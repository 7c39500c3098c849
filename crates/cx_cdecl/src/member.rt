// Members (C11 6.7.2.1), and types with lists in braces.

ghost use Rattle.std.specs.Prelude.{◌≡◌, map, [], ◌∷◌, ◌++◌, pos, Some, IfOk, OnOk, option_map};
ghost use Rattle.cx_ctree.specs.Conversions.{signed_int};
ghost use Rattle.cx_ctree.specs.Types.{type_tree};
ghost use Rattle.cx_ctree.specs.Path.{type_path};
ghost use Rattle.cx_ctree.specs.Decls.{member_tree};
ghost use Rattle.cx_cword.specs.Reading.{Gives};
ghost use Rattle.std.specs.Option.{option_and_then};
ghost use Rattle.cx_cname.specs.Known.{known_of, earlier_of};
ghost use Rattle.cx_cname.specs.Changes.{past};
ghost use Rattle.cx_cdecl.specs.Reading.{got_specifier, got_specs, got_members, members_after, got_listing, member_names_at, listing_at, members_listed, enumerators_in, enum_listed, specs_at, specifier_at, members_at, line_at};
ghost use Rattle.cx_cdecl.specs.Reading as spec;

use crate::attributes::beside;
use crate::declarator::object;
use crate::enumerator::enumerators;
use crate::kinds::{Head, both_said, head_of, name_of, nothing_said};
use crate::specifier::{ReadSpecifier, ReadSpecs, place, plain};
use cx_base::{CInt, List, NoMemory};
use cx_cname::{Change, add_enumeration, is_complete, set_members};
use cx_ctree::{CType, Member, Unit};
use cx_cword::{Lexeme, Mark, Stop, fits, next, split};
use std::alloc::Global;

/// The members so far, and the lexemes after them.
#[derive(Drop)]
pub struct ReadMembers<'a> {
    pub members: List<Member>,
    pub rest: &'a [Lexeme],
}

/// A struct or union, where it is Some, or an enumeration, with its name, whose list follows.
#[derive(Clone, Copy)]
pub struct ReadListing<'a> {
    pub union_: Option<bool>,
    pub name: Option<u32>,
    pub rest: &'a [Lexeme],
}

#[tactic(auto, using(crate::proofs::Turns::member_names_also))]
fn add_member(members: &mut List<Member>, name: u32, ctype: CType) -> Result<(), NoMemory>
    ensures { OnOk result (map member_tree members.new ≡ map member_tree members.old ++ record { name = name; ctype = type_tree ctype } ∷ []) }
{
    members.push(Member { name, ctype })?;
    Ok(())
}

/// The type of each enumeration (C11 6.7.2.2).
fn int_type() -> CInt
    ensures { result ≡ signed_int }
{
    CInt {
        size: 4,
        signed: true,
    }
}

/// The declarators of members, after those before them.
#[tactic(auto, using(crate::proofs::Turns::member_names_turn, crate::proofs::Turns::member_names_none, crate::proofs::Turns::chosen_not))]
fn member_names<'a>(
    alloc: Global,
    known: &Unit,
    turns: usize,
    base: &CType,
    high: u32,
    before: List<Member>,
    lexemes: &'a [Lexeme],
) -> Result<ReadMembers<'a>, Stop>
    requires { high ≡ type_path (type_tree base.now) }
    ensures { Gives got_members result (member_names_at turns (known_of known.now) (type_tree base.now) turns (map member_tree before) lexemes.now) }
{
    let mut n = turns;
    let mut members = before;
    let mut rest = lexemes;
    'each: while n > 0 {
        n -= 1;
        let x = object(alloc, known, turns, base, high, rest)?;
        if !is_complete(known, &x.ctype) {
            return Err(Stop::Unread);
        }
        add_member(&mut members, x.name, x.ctype)?;
        match next(Mark::Comma, x.rest) {
            None => {
                return Ok(ReadMembers {
                    members,
                    rest: x.rest,
                });
            }
            Some((_, after)) => rest = after,
        }
    }
    Err(Stop::Unread)
}

fn names_member(n: u32, members: &[Member]) -> bool
    ensures { result ≡ spec.names_member n (map member_tree members.now) }
{
    let mut rest = members;
    while let [member, after @ ..] = rest {
        if member.name == n {
            return true;
        }
        rest = after;
    }
    false
}

/// Whether no two members have one name.
fn are_distinct(members: &[Member]) -> bool
    ensures { result ≡ spec.are_distinct (map member_tree members.now) }
{
    let mut rest = members;
    while let [member, after @ ..] = rest {
        if names_member(member.name, after) {
            return false;
        }
        rest = after;
    }
    true
}

fn listing_after<'a>(union_: Option<bool>, lexemes: &'a [Lexeme]) -> Option<ReadListing<'a>>
    ensures { option_map got_listing result ≡ spec.listing_after union_ lexemes.now }
{
    match split(lexemes) {
        None => None,
        Some((o, rest)) => {
            if fits(Mark::OpenBrace, o.kind) {
                return Some(ReadListing {
                    union_,
                    name: None,
                    rest,
                });
            }
            match name_of(o.kind) {
                None => None,
                Some(n) => match next(Mark::OpenBrace, rest) {
                    None => None,
                    Some((_, after)) => Some(ReadListing {
                        union_,
                        name: Some(n),
                        rest: after,
                    }),
                },
            }
        }
    }
}

/// What stands before a list in braces, up to and with its first brace.
#[tactic(auto, unfolding(crate::specs::Reading::listing_at))]
fn listing<'a>(lexemes: &'a [Lexeme]) -> Option<ReadListing<'a>>
    ensures { option_map got_listing result ≡ listing_at lexemes.now }
{
    match split(lexemes) {
        None => None,
        Some((o, rest)) => match head_of(o.kind) {
            Head::Record(union_) => listing_after(Some(union_), rest),
            Head::Enum => listing_after(None, rest),
            Head::Other => None,
        },
    }
}

fn name_enum(known: &mut Unit, changes: &mut List<Change>, name: Option<u32>) -> Result<(), Stop>
    ensures value { Gives (λ u. known_of known.new) result (Some (spec.named_enum name (known_of known.old))) }
    ensures kept { past changes.new known.new ≡ past changes.old known.old }
    ensures items { known.new.items ≡ known.old.items }
{
    match name {
        None => Ok(()),
        Some(n) => {
            add_enumeration(known, changes, n)?;
            Ok(())
        }
    }
}

/// Enumerators up to and with the brace after them. Each enumeration is an `int`.
fn enum_list<'a>(
    alloc: Global,
    known: &mut Unit,
    changes: &mut List<Change>,
    turns: usize,
    name: Option<u32>,
    lexemes: &'a [Lexeme],
) -> Result<ReadSpecifier<'a>, Stop>
    ensures value { Gives (λ r. got_specifier r (known_of known.new)) result (option_and_then (λ x. Some (enum_listed name x)) (enumerators_in turns (earlier_of known.old) (known_of known.old) lexemes.now)) }
    ensures measured { IfOk result (λ r. r.height ≡ type_path (type_tree r.ctype)) }
    ensures kept { past changes.new known.new ≡ past changes.old known.old }
    ensures items { known.new.items ≡ known.old.items }
{
    let rest = enumerators(alloc, known, changes, turns, lexemes)?;
    match next(Mark::CloseBrace, rest) {
        None => Err(Stop::Unread),
        Some((_, after)) => {
            name_enum(known, changes, name)?;
            Ok(ReadSpecifier {
                ctype: CType::Int(int_type()),
                height: 1,
                listed: true,
                rest: after,
            })
        }
    }
}

/// A tag with its members, the brace after them wanted.
fn members_in<'a>(
    known: &mut Unit,
    changes: &mut List<Change>,
    union_: bool,
    name: Option<u32>,
    at: u32,
    x: ReadMembers<'a>,
) -> Result<ReadSpecifier<'a>, Stop>
    ensures value { Gives (λ r. got_specifier r (known_of known.new)) result (members_listed union_ name at (members_after x.entry (known_of known.old))) }
    ensures measured { IfOk result (λ r. r.height ≡ type_path (type_tree r.ctype)) }
    ensures kept { past changes.new known.new ≡ past changes.old known.old }
    ensures items { known.new.items ≡ known.old.items }
{
    match next(Mark::CloseBrace, x.rest) {
        None => Err(Stop::Unread),
        Some((_, after)) => {
            if !are_distinct(x.members.as_slice()) {
                return Err(Stop::Unread);
            }
            if !set_members(known, changes, at as usize, name, union_, x.members)? {
                return Err(Stop::Unread);
            }
            Ok(ReadSpecifier {
                ctype: CType::Tag(at),
                height: 1,
                listed: true,
                rest: after,
            })
        }
    }
}

/// The members of one line, after those before them and the words of their type.
fn line_names<'a>(
    alloc: Global,
    known: &Unit,
    turns: usize,
    before: List<Member>,
    s: ReadSpecs<'a>,
) -> Result<ReadMembers<'a>, Stop>
    requires { s.height ≡ type_path (type_tree s.ctype) }
    ensures { Gives (λ r. members_after r (known_of known.now)) result (spec.line_names turns (map member_tree before) (got_specs s.entry (known_of known.now))) }
{
    if s.said.stored || s.said.attributed {
        return Err(Stop::Unread);
    }
    let x = member_names(alloc, known, turns, &s.ctype, s.height, before, s.rest)?;
    match next(Mark::Semicolon, x.rest) {
        None => Err(Stop::Unread),
        Some((_, after)) => Ok(ReadMembers {
            members: x.members,
            rest: after,
        }),
    }
}

/// The words of a type with the words beside it.
#[cycle(specs)]
#[tactic(auto, using(crate::proofs::Turns::specs_turn, crate::proofs::Turns::specs_none))]
pub fn specs<'a>(
    alloc: Global,
    known: &mut Unit,
    changes: &mut List<Change>,
    turns: usize,
    n: usize,
    lexemes: &'a [Lexeme],
) -> Result<ReadSpecs<'a>, Stop>
    ensures value { Gives (λ r. got_specs r (known_of known.new)) result (specs_at turns (earlier_of known.old) n (known_of known.old) lexemes.now) }
    ensures measured { IfOk result (λ r. r.height ≡ type_path (type_tree r.ctype)) }
    ensures kept { past changes.new known.new ≡ past changes.old known.old }
    ensures items { known.new.items ≡ known.old.items }
{
    if n == 0 {
        return Err(Stop::Unread);
    }
    let s = beside(turns, true, nothing_said(), lexemes);
    let x = specifier(alloc, known, changes, turns, n - 1, s.rest)?;
    if x.listed && s.said.attributed {
        return Err(Stop::Unread);
    }
    let r = beside(turns, !x.listed, nothing_said(), x.rest);
    Ok(ReadSpecs {
        ctype: x.ctype,
        height: x.height,
        said: both_said(s.said, r.said),
        listed: x.listed,
        rest: r.rest,
    })
}

/// The words of a type, with the list in braces where one follows.
#[cycle(specs)]
#[tactic(auto, using(crate::proofs::Turns::specifier_turn, crate::proofs::Turns::specifier_none))]
fn specifier<'a>(
    alloc: Global,
    known: &mut Unit,
    changes: &mut List<Change>,
    turns: usize,
    n: usize,
    lexemes: &'a [Lexeme],
) -> Result<ReadSpecifier<'a>, Stop>
    ensures value { Gives (λ r. got_specifier r (known_of known.new)) result (specifier_at turns (earlier_of known.old) n (known_of known.old) lexemes.now) }
    ensures measured { IfOk result (λ r. r.height ≡ type_path (type_tree r.ctype)) }
    ensures kept { past changes.new known.new ≡ past changes.old known.old }
    ensures items { known.new.items ≡ known.old.items }
{
    if n == 0 {
        return Err(Stop::Unread);
    }
    match listing(lexemes) {
        None => plain(known, changes, lexemes),
        Some(x) => match x.union_ {
            None => enum_list(alloc, known, changes, turns, x.name, x.rest),
            Some(union_) => {
                let at = place(known, changes, union_, x.name)?;
                let ms = members(alloc, known, changes, turns, n - 1, x.rest)?;
                members_in(known, changes, union_, x.name, at, ms)
            }
        },
    }
}

/// Members up to the brace.
#[cycle(specs)]
#[tactic(auto, using(crate::proofs::Turns::members_turn, crate::proofs::Turns::members_none))]
fn members<'a>(
    alloc: Global,
    known: &mut Unit,
    changes: &mut List<Change>,
    turns: usize,
    n: usize,
    lexemes: &'a [Lexeme],
) -> Result<ReadMembers<'a>, Stop>
    ensures value { Gives (λ r. members_after r (known_of known.new)) result (members_at turns (earlier_of known.old) n (known_of known.old) [] lexemes.now) }
    ensures kept { past changes.new known.new ≡ past changes.old known.old }
    ensures items { known.new.items ≡ known.old.items }
{
    let mut left = n;
    let mut so_far = List::new(alloc);
    let mut rest = lexemes;
    'each: while left > 0 {
        left -= 1;
        let x = line(alloc, known, changes, turns, left, so_far, rest)?;
        match split(x.rest) {
            None => return Err(Stop::Unread),
            Some((o, _)) => {
                if fits(Mark::CloseBrace, o.kind) {
                    return Ok(x);
                }
            }
        }
        so_far = x.members;
        rest = x.rest;
    }
    Err(Stop::Unread)
}

/// The members of one line, after those before them.
#[cycle(specs)]
#[tactic(auto, using(crate::proofs::Turns::line_turn, crate::proofs::Turns::line_none))]
fn line<'a>(
    alloc: Global,
    known: &mut Unit,
    changes: &mut List<Change>,
    turns: usize,
    n: usize,
    before: List<Member>,
    lexemes: &'a [Lexeme],
) -> Result<ReadMembers<'a>, Stop>
    ensures value { Gives (λ r. members_after r (known_of known.new)) result (line_at turns (earlier_of known.old) n (known_of known.old) (map member_tree before) lexemes.now) }
    ensures kept { past changes.new known.new ≡ past changes.old known.old }
    ensures items { known.new.items ≡ known.old.items }
{
    if n == 0 {
        return Err(Stop::Unread);
    }
    let s = specs(alloc, known, changes, turns, n - 1, lexemes)?;
    line_names(alloc, known, turns, before, s)
}
