ghost use Rattle.std.specs.Prelude.{◌≡◌, ◌++◌, ◌∷◌, [], map, Ok, Err, OnOk, OnErr, IfOk, Bool, true, false, if◌then◌else◌};
ghost use Rattle.cx_ctree.specs.Types.{type_tree};
ghost use Rattle.cx_ctree.specs.Decls.{member_tree, tag_tree};
ghost use Rattle.cx_ctree.specs.Path.{greatest};
ghost use Rattle.cx_ctree.specs.Tags.{AreRanked};
ghost use Rattle.cx_ctree.specs.Units.{UnitTree, unit_tree};
ghost use Rattle.cx_cname.specs.Known.{known_of, with_tag, with_typedef, with_constant, with_enum, with_members};
ghost use Rattle.cx_cname.specs.Changes.{past, before, without_last, undone, with_parts, Remains};
ghost use Rattle.cx_cname.specs.Meanings.{may_have};

use crate::look_up;
use cx_abi::{extent_with, nothing};
use cx_base::{List, NoMemory};
use cx_ctree::{CType, Member, Tag, Unit};

/// One change of what a unit declares.
#[derive(Clone, Copy, Debug, PartialEq, Eq)]
pub enum Change {
    /// A tag was added.
    Tag,
    /// The tag at this place, of this name, which is a union where it is true, got its members.
    Members(usize, Option<u32>, bool),
    /// A typedef was added.
    Typedef,
    /// An enumeration constant was added.
    Constant,
    /// The name of an enumeration was added.
    Enumeration,
}

/// Adds a struct, or a union where it is true, without members.
#[tactic(auto, using(crate::proofs::Undoing::past_tag))]
pub fn add_tag(
    known: &mut Unit,
    changes: &mut List<Change>,
    name: Option<u32>,
    union_: bool,
) -> Result<(), NoMemory>
    ensures ok { OnOk result (known_of known.new ≡ with_tag (known_of known.old) name union_) }
    ensures err { OnErr result (unit_tree known.new ≡ unit_tree known.old) }
    ensures kept { past changes.new known.new ≡ past changes.old known.old }
    ensures items { known.new.items ≡ known.old.items }
{
    let upto = changes.len();
    changes.push(Change::Tag)?;
    let tag = Tag {
        name,
        union_,
        rank: 0,
        members: None,
        extent: Ok(nothing()),
    };
    match known.tags.push(tag) {
        Ok(()) => Ok(()),
        Err(e) => {
            changes.cut(upto);
            Err(e)
        }
    }
}

/// Adds a name declared as a type by a typedef.
pub fn add_typedef(
    known: &mut Unit,
    changes: &mut List<Change>,
    name: u32,
    ctype: CType,
) -> Result<(), NoMemory>
    ensures ok { OnOk result (known_of known.new ≡ with_typedef (known_of known.old) name (type_tree ctype)) }
    ensures err { OnErr result (unit_tree known.new ≡ unit_tree known.old) }
    ensures kept { past changes.new known.new ≡ past changes.old known.old }
    ensures items { known.new.items ≡ known.old.items }
{
    let upto = changes.len();
    changes.push(Change::Typedef)?;
    match known.typedefs.push((name, ctype)) {
        Ok(()) => Ok(()),
        Err(e) => {
            changes.cut(upto);
            Err(e)
        }
    }
}

/// Adds an enumeration constant with its value.
pub fn add_constant(
    known: &mut Unit,
    changes: &mut List<Change>,
    name: u32,
    value: i128,
) -> Result<(), NoMemory>
    ensures ok { OnOk result (known_of known.new ≡ with_constant (known_of known.old) name value) }
    ensures err { OnErr result (unit_tree known.new ≡ unit_tree known.old) }
    ensures kept { past changes.new known.new ≡ past changes.old known.old }
    ensures items { known.new.items ≡ known.old.items }
{
    let upto = changes.len();
    changes.push(Change::Constant)?;
    match known.consts.push((name, value)) {
        Ok(()) => Ok(()),
        Err(e) => {
            changes.cut(upto);
            Err(e)
        }
    }
}

/// Adds the name of an enumeration whose list is declared.
pub fn add_enumeration(
    known: &mut Unit,
    changes: &mut List<Change>,
    name: u32,
) -> Result<(), NoMemory>
    ensures ok { OnOk result (known_of known.new ≡ with_enum (known_of known.old) name) }
    ensures err { OnErr result (unit_tree known.new ≡ unit_tree known.old) }
    ensures kept { past changes.new known.new ≡ past changes.old known.old }
    ensures items { known.new.items ≡ known.old.items }
{
    let upto = changes.len();
    changes.push(Change::Enumeration)?;
    match known.enums.push(name) {
        Ok(()) => Ok(()),
        Err(e) => {
            changes.cut(upto);
            Err(e)
        }
    }
}

fn cut_last<T: Drop>(items: &mut List<T>)
    ensures { items.new ≡ without_last items.old }
{
    items.cut(items.len().saturating_sub(1));
}

/// Takes one change back.
fn undo(
    change: Change,
    tags: &mut List<Tag>,
    typedefs: &mut List<(u32, CType)>,
    consts: &mut List<(u32, i128)>,
    enums: &mut List<u32>,
)
    ensures remains { Remains tags.new tags.old }
    ensures undone { (u : UnitTree) → with_parts u tags.new typedefs.new consts.new enums.new ≡ undone change (with_parts u tags.old typedefs.old consts.old enums.old) }
{
    match change {
        Change::Tag => cut_last(tags),
        Change::Members(at, name, union_) => {
            if at < tags.len() {
                let tag = Tag {
                    name,
                    union_,
                    rank: 0,
                    members: None,
                    extent: Ok(nothing()),
                };
                let _ = tags.set(at, tag);
            }
        }
        Change::Typedef => cut_last(typedefs),
        Change::Constant => cut_last(consts),
        Change::Enumeration => cut_last(enums),
    }
}

/// Takes the changes back, from the last to the first.
fn undo_all(
    changes: &[Change],
    tags: &mut List<Tag>,
    typedefs: &mut List<(u32, CType)>,
    consts: &mut List<(u32, i128)>,
    enums: &mut List<u32>,
)
    ensures remains { Remains tags.new tags.old }
    ensures before { (u : UnitTree) → with_parts u tags.new typedefs.new consts.new enums.new ≡ before changes.now (with_parts u tags.old typedefs.old consts.old enums.old) }
{
    let mut n = changes.len();
    while n > 0 {
        n -= 1;
        undo(changes[n], tags, typedefs, consts, enums);
    }
}

/// Takes back all changes that were made since the list of them was empty.
pub fn take_back(known: &mut Unit, changes: &[Change])
    requires { AreRanked (past changes.now known.old).tags }
    ensures known { unit_tree known.new ≡ past changes.now known.old }
    ensures items { known.new.items ≡ known.old.items }
{
    undo_all(
        changes,
        &mut known.tags,
        &mut known.typedefs,
        &mut known.consts,
        &mut known.enums,
    );
}

/// The greatest rank of a tag.
fn greatest_rank(tags: &[Tag]) -> u32
    ensures { result ≡ greatest (λ t. t.rank) (map tag_tree tags.now) }
{
    let mut most = 0;
    let mut rest = tags;
    while let [tag, after @ ..] = rest {
        if most < tag.rank {
            most = tag.rank;
        }
        rest = after;
    }
    most
}

/// Gives the tag at this place its members, with the next rank: true; false and unchanged exactly
/// where it has members, or one of these has an incomplete type.
pub fn set_members(
    known: &mut Unit,
    changes: &mut List<Change>,
    at: usize,
    name: Option<u32>,
    union_: bool,
    members: List<Member>,
) -> Result<bool, NoMemory>
    ensures allowed { IfOk result (λ b. b ≡ may_have (known_of known.old) at (map member_tree members)) }
    ensures ok { IfOk result (λ b. known_of known.new ≡ (if b then with_members (known_of known.old) at name union_ (map member_tree members) else known_of known.old)) }
    ensures err { OnErr result (unit_tree known.new ≡ unit_tree known.old) }
    ensures kept { past changes.new known.new ≡ past changes.old known.old }
    ensures items { known.new.items ≡ known.old.items }
{
    if !look_up::may_have(known, at, members.as_slice()) {
        return Ok(false);
    }
    let Some(rank) = greatest_rank(known.tags.as_slice()).checked_add(1) else {
        return Err(NoMemory);
    };
    let Ok(number) = u32::try_from(at) else {
        return Err(NoMemory);
    };
    let extent = extent_with(known, number, union_, members.as_slice());
    let change = match known.tags.get(at) {
        None => return Ok(true),
        Some(tag) => Change::Members(at, tag.name, tag.union_),
    };
    changes.push(change)?;
    let tag = Tag {
        name,
        union_,
        rank,
        members: Some(members),
        extent,
    };
    let _ = known.tags.set(at, tag);
    Ok(true)
}
