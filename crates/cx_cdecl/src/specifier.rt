// The words of types with the tags that they declare (C11 6.7.2.3), without lists in braces.

ghost use Rattle.std.specs.Prelude.{◌≡◌, IfOk, Some};
ghost use Rattle.cx_ctree.specs.Types.{type_tree};
ghost use Rattle.cx_ctree.specs.Path.{type_path};
ghost use Rattle.cx_cword.specs.Reading.{Gives};
ghost use Rattle.cx_cname.specs.Known.{known_of};
ghost use Rattle.cx_cname.specs.Changes.{past};
ghost use Rattle.cx_cexpr.specs.Reading.{base_at};
ghost use Rattle.cx_cdecl.specs.Reading.{Narrow, got_specifier, got_specs, place_at, plain_at, plain_specs_at};
ghost use Rattle.cx_cdecl.specs.Reading as spec;

use crate::attributes::beside;
use crate::kinds::{Head, Said, both_said, head_of, nothing_said};
use cx_base::List;
use cx_cexpr::{base_type, named};
use cx_cname::{Change, add_tag, is_union, tag_place};
use cx_ctree::{CType, Unit};
use cx_cword::{Lexeme, Stop, split};

/// A type, how many nodes its longest path has, whether a list in braces stands in its words, and
/// the lexemes after them.
#[derive(Drop)]
pub struct ReadSpecifier<'a> {
    pub ctype: CType,
    pub height: u32,
    pub listed: bool,
    pub rest: &'a [Lexeme],
}

/// The same with what the words beside the type say.
#[derive(Drop)]
pub struct ReadSpecs<'a> {
    pub ctype: CType,
    pub height: u32,
    pub said: Said,
    pub listed: bool,
    pub rest: &'a [Lexeme],
}

/// A place as a type holds it. No file has more tags than that: `NoMemory` stands for such a place.
fn narrow(at: usize) -> Result<u32, Stop>
    ensures { Narrow at result }
{
    if at <= 4294967295 {
        Ok(at as u32)
    } else {
        Err(Stop::NoMemory)
    }
}

/// Whether the tag at this place is a struct, or a union where it is true.
fn is_kind(known: &Unit, union_: bool, at: usize) -> bool
    ensures { result ≡ spec.is_kind (known_of known.now) union_ at }
{
    match is_union(known, at) {
        None => false,
        Some(other) => { if union_ { other } else { !other } }
    }
}

fn new_tag(
    known: &mut Unit,
    changes: &mut List<Change>,
    name: Option<u32>,
    union_: bool,
) -> Result<u32, Stop>
    ensures value { Gives (λ at. record { place = at; known = known_of known.new }) result (Some (spec.new_tag (known_of known.old) union_ name)) }
    ensures kept { past changes.new known.new ≡ past changes.old known.old }
    ensures items { known.new.items ≡ known.old.items }
{
    let at = narrow(known.tags.len())?;
    add_tag(known, changes, name, union_)?;
    Ok(at)
}

/// The place of a struct, or a union where it is true, which is declared where it is not.
pub fn place(
    known: &mut Unit,
    changes: &mut List<Change>,
    union_: bool,
    name: Option<u32>,
) -> Result<u32, Stop>
    ensures value { Gives (λ at. record { place = at; known = known_of known.new }) result (place_at (known_of known.old) union_ name) }
    ensures kept { past changes.new known.new ≡ past changes.old known.old }
    ensures items { known.new.items ≡ known.old.items }
{
    match name {
        None => new_tag(known, changes, None, union_),
        Some(n) => match tag_place(known, n) {
            None => new_tag(known, changes, Some(n), union_),
            Some(at) => {
                if !is_kind(known, union_, at) {
                    return Err(Stop::Unread);
                }
                narrow(at)
            }
        },
    }
}

fn plain_base<'a>(known: &Unit, lexemes: &'a [Lexeme]) -> Result<ReadSpecifier<'a>, Stop>
    ensures value { Gives (λ r. got_specifier r (known_of known.now)) result (spec.plain_base (known_of known.now) (base_at (known_of known.now) 400 lexemes.now)) }
    ensures measured { IfOk result (λ r. r.height ≡ type_path (type_tree r.ctype)) }
{
    let x = base_type(known, 400, lexemes)?;
    Ok(ReadSpecifier {
        ctype: x.tree,
        height: x.height,
        listed: false,
        rest: x.rest,
    })
}

/// The words of a type without a list in braces.
#[tactic(auto, unfolding(crate::specs::Reading::plain_at))]
pub fn plain<'a>(
    known: &mut Unit,
    changes: &mut List<Change>,
    lexemes: &'a [Lexeme],
) -> Result<ReadSpecifier<'a>, Stop>
    ensures value { Gives (λ r. got_specifier r (known_of known.new)) result (plain_at (known_of known.old) lexemes.now) }
    ensures measured { IfOk result (λ r. r.height ≡ type_path (type_tree r.ctype)) }
    ensures kept { past changes.new known.new ≡ past changes.old known.old }
    ensures items { known.new.items ≡ known.old.items }
{
    match split(lexemes) {
        None => Err(Stop::Unread),
        Some((o, rest)) => match head_of(o.kind) {
            Head::Record(union_) => match named(rest) {
                None => Err(Stop::Unread),
                Some((_, n, after)) => {
                    let at = place(known, changes, union_, Some(n))?;
                    Ok(ReadSpecifier {
                        ctype: CType::Tag(at),
                        height: 1,
                        listed: false,
                        rest: after,
                    })
                }
            },
            Head::Enum | Head::Other => plain_base(known, lexemes),
        },
    }
}

/// The words of a type with the words beside it, without a list in braces.
#[tactic(auto, unfolding(crate::specs::Reading::plain_specs_at))]
pub fn plain_specs<'a>(
    known: &mut Unit,
    changes: &mut List<Change>,
    turns: usize,
    lexemes: &'a [Lexeme],
) -> Result<ReadSpecs<'a>, Stop>
    ensures value { Gives (λ r. got_specs r (known_of known.new)) result (plain_specs_at turns (known_of known.old) lexemes.now) }
    ensures measured { IfOk result (λ r. r.height ≡ type_path (type_tree r.ctype)) }
    ensures kept { past changes.new known.new ≡ past changes.old known.old }
    ensures items { known.new.items ≡ known.old.items }
{
    let s = beside(turns, true, nothing_said(), lexemes);
    let x = plain(known, changes, s.rest)?;
    let r = beside(turns, true, nothing_said(), x.rest);
    Ok(ReadSpecs {
        ctype: x.ctype,
        height: x.height,
        said: both_said(s.said, r.said),
        listed: x.listed,
        rest: r.rest,
    })
}
