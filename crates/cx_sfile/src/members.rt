ghost use Rattle.std.specs.Prelude.{◌≡◌, [], map, OnOk, IfOk};
ghost use Rattle.cx_ctree.specs.Types.{type_tree};
ghost use Rattle.cx_ctree.specs.Decls.{member_tree, tag_tree};
ghost use Rattle.cx_ctable.specs.Firsts.{with_first, with_firsts};
ghost use Rattle.cx_sfile.specs.Members as spec;

use cx_base::{List, NoMemory};
use cx_ctree::{CType, Member, Tag};
use indexmap::IndexMap;
use std::alloc::Global;

/// Adds the type of a member where its name has none.
fn add_member<'a>(
    types: &mut IndexMap<u32, &'a CType>,
    n: u32,
    t: &'a CType,
) -> Result<(), NoMemory>
    ensures { OnOk result (map (λ e. (e.0, type_tree e.1.now)) types.new.entries ≡ with_first (map (λ e. (e.0, type_tree e.1.now)) types.old.entries) (n, type_tree t.now)) }
{
    if types.contains_key(&n) {
        return Ok(());
    }
    types.insert(n, t)?;
    Ok(())
}

#[tactic(auto, using(cx_ctable::proofs::Adding::firsts_append))]
fn add_members<'a>(
    members: &'a [Member],
    types: &mut IndexMap<u32, &'a CType>,
) -> Result<(), NoMemory>
    ensures { OnOk result (map (λ e. (e.0, type_tree e.1.now)) types.new.entries ≡ with_firsts (map (λ e. (e.0, type_tree e.1.now)) types.old.entries) (spec.types_of (map member_tree members.now))) }
{
    for member in members {
        add_member(types, member.name, &member.ctype)?;
    }
    Ok(())
}

/// The types of the members of a struct or union by their names.
fn members_in(alloc: Global, tag: &Tag) -> Result<IndexMap<u32, &CType>, NoMemory>
    ensures { IfOk result (λ m. map (λ e. (e.0, type_tree e.1.now)) m.entries ≡ with_firsts [] (spec.members_in (tag_tree tag.now))) }
{
    let mut types = IndexMap::new(alloc);
    match &tag.members {
        None => {}
        Some(members) => add_members(members.as_slice(), &mut types)?,
    }
    Ok(types)
}

/// The same of each struct and union.
pub fn all_members(alloc: Global, tags: &[Tag]) -> Result<List<IndexMap<u32, &CType>>, NoMemory>
    ensures { IfOk result (λ ms. map (λ m. map (λ e. (e.0, type_tree e.1.now)) m.entries) ms ≡ map (λ t. with_firsts [] (spec.members_in t)) (map tag_tree tags.now)) }
{
    let mut all = List::new(alloc);
    for tag in tags {
        all.push(members_in(alloc, tag)?)?;
    }
    Ok(all)
}
