ghost use Rattle.std.specs.Prelude.{◌≡◌, ◌++◌, map, option_map, position, slice_get};
ghost use Rattle.std.specs.List.{list_all};
ghost use Rattle.cx_ctree.specs.Decls.{tag_tree, decl_tree, member_tree, signature_tree};
ghost use Rattle.cx_ctree.specs.Tags as tags;
ghost use Rattle.cx_cname.specs.Meanings as test;
ghost use Rattle.cx_ctree.specs.Types.{type_tree};
ghost use Rattle.cx_cname.specs.Known.{known_of, value_of};
ghost use Rattle.cx_cname.specs.Known as spec;

use cx_ctree::{CType, Member, Tag, Unit};

/// The type that the name is declared as by a typedef.
pub fn typedef_of(known: &Unit, n: u32) -> Option<&CType>
    ensures { option_map (λ t. type_tree t.now) result ≡ value_of n (known_of known.now).typedefs }
{
    let mut entries = known.typedefs.as_slice();
    while let [entry, rest @ ..] = entries {
        if entry.0 == n {
            return Some(&entry.1);
        }
        entries = rest;
    }
    None
}

/// Whether the name is declared as a type by a typedef.
#[tactic(auto, using(crate::proofs::Places::is_some_map))]
pub fn names_type(known: &Unit, n: u32) -> bool
    ensures { result ≡ spec.names_type (known_of known.now) n }
{
    typedef_of(known, n).is_some()
}

/// The value of the enumeration constant of this name.
pub fn constant_of(known: &Unit, n: u32) -> Option<i128>
    ensures { result ≡ value_of n (known_of known.now).consts }
{
    let mut entries = known.consts.as_slice();
    while let [entry, rest @ ..] = entries {
        if entry.0 == n {
            return Some(entry.1);
        }
        entries = rest;
    }
    None
}

fn has_name(n: u32, name: Option<u32>) -> bool
    ensures { result ≡ spec.has_name n name }
{
    match name {
        None => false,
        Some(m) => m == n,
    }
}

fn place_of(tags: &[Tag], n: u32) -> Option<usize>
    ensures { result ≡ position (λ t. spec.has_name n t.name) tags.now }
{
    tags.iter().position(|t| has_name(n, t.name))
}

/// The place of the struct or union of this name in the tags of the unit.
#[tactic(auto, using(crate::proofs::Places::tag_place_of))]
pub fn tag_place(known: &Unit, n: u32) -> Option<usize>
    ensures { result ≡ spec.tag_place (known_of known.now) n }
{
    place_of(known.tags.as_slice(), n)
}

/// Whether the tag at this place is a union's; None exactly where no tag has the place.
pub fn is_union(known: &Unit, at: usize) -> Option<bool>
    ensures { result ≡ option_map (λ t. t.union_) (slice_get (known_of known.now).tags at) }
{
    known.tags.get(at).map(|t| t.union_)
}

/// Whether the list of the enumeration of this name is declared.
pub fn names_enum(known: &Unit, n: u32) -> bool
    ensures { result ≡ spec.names_enum (known_of known.now) n }
{
    known.enums.as_slice().iter().any(|m| *m == n)
}

/// Whether the tag at this place has members.
#[tactic(auto, using(crate::proofs::Places::members_at))]
pub fn has_members(known: &Unit, at: usize) -> bool
    ensures { result ≡ test.has_members (known_of known.now) at }
{
    match known.tags.get(at) {
        None => false,
        Some(tag) => tag.members.is_some(),
    }
}

/// Which declaration of members the tag at this place has; 0 where it has none.
#[tactic(auto, using(crate::proofs::Places::rank_at))]
fn rank_of(known: &Unit, at: usize) -> u32
    ensures { result ≡ tags.rank_of (known_of known.now).tags at }
{
    match known.tags.get(at) {
        None => 0,
        Some(tag) => tag.rank,
    }
}

/// Whether the type is complete (C11 6.2.5): not void, and with members in each tag in it, other
/// than behind a pointer.
#[tactic(auto, using(std::proofs::lemmas::Bool::Decides::nat_tests))]
pub fn is_complete(known: &Unit, ctype: &CType) -> bool
    ensures { result ≡ spec.is_complete (known_of known.now) (type_tree ctype.now) }
{
    match ctype {
        CType::Void => false,
        CType::Int(_) | CType::Ptr(_) => true,
        CType::Array(element, _) => is_complete(known, element),
        CType::Tag(at) => rank_of(known, *at as usize) > 0,
    }
}

fn are_complete(known: &Unit, members: &[Member]) -> bool
    ensures { result ≡ list_all (λ m. spec.is_complete (known_of known.now) m.ctype) (map member_tree members.now) }
{
    let mut rest = members;
    while let [member, after @ ..] = rest {
        if !is_complete(known, &member.ctype) {
            return false;
        }
        rest = after;
    }
    true
}

/// Whether the tag at this place may get these members: it has none, and their types are complete.
pub fn may_have(known: &Unit, at: usize, members: &[Member]) -> bool
    ensures { result ≡ test.may_have (known_of known.now) at (map member_tree members.now) }
{
    if has_members(known, at) {
        return false;
    }
    are_complete(known, members)
}
