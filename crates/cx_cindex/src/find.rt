ghost use Rattle.std.specs.Prelude.{◌≡◌, true, false, map, OnOk, IfOk};
ghost use Rattle.cx_ctree.specs.Decls.{decl_tree, item_tree, member_tree, tag_tree};
ghost use Rattle.cx_ctree.specs.Units.{unit_tree};
ghost use Rattle.cx_cname.specs.Known.{declared_by};
ghost use Rattle.cx_cindex.specs.Sets.{with_number, with_numbers, with_fields};
ghost use Rattle.cx_cindex.specs.UnitNames as spec;

use crate::declared::{Declared, FieldNames, OrdinaryNames, TagNames};
use crate::sets::{FieldName, FieldSet, NumberSet};
use cx_base::{List, NoMemory};
use cx_ctree::{Decl, Item, Member, Tag, Unit};
use std::alloc::Global;

fn add(n: u32, set: &mut NumberSet) -> Result<(), NoMemory>
    ensures { OnOk result (set.new ≡ with_number set.old n) }
{
    let _new = set.add(n)?;
    Ok(())
}

fn add_decl(decl: &Decl, functions: &mut NumberSet, objects: &mut NumberSet) -> Result<(), NoMemory>
    ensures functions { OnOk result (functions.new ≡ with_numbers functions.old (spec.function_of (decl_tree decl.now))) }
    ensures objects { OnOk result (objects.new ≡ with_numbers objects.old (spec.object_of (decl_tree decl.now))) }
{
    match decl {
        Decl::Types => Ok(()),
        Decl::Object(n, _) => add(*n, objects),
        Decl::Proto(s) => add(s.name, functions),
        Decl::Body(f) => add(f.sig.name, functions),
    }
}

#[tactic(auto, using(crate::proofs::Numbers::numbers_append))]
fn add_decls(
    decls: &[Decl],
    functions: &mut NumberSet,
    objects: &mut NumberSet,
) -> Result<(), NoMemory>
    ensures functions { OnOk result (functions.new ≡ with_numbers functions.old (spec.functions_of (map decl_tree decls.now))) }
    ensures objects { OnOk result (objects.new ≡ with_numbers objects.old (spec.objects_of (map decl_tree decls.now))) }
{
    for decl in decls {
        add_decl(decl, functions, objects)?;
    }
    Ok(())
}

fn add_item(item: &Item, functions: &mut NumberSet, objects: &mut NumberSet) -> Result<(), NoMemory>
    ensures functions { OnOk result (functions.new ≡ with_numbers functions.old (spec.functions_of (spec.decls_of (item_tree item.now)))) }
    ensures objects { OnOk result (objects.new ≡ with_numbers objects.old (spec.objects_of (spec.decls_of (item_tree item.now)))) }
{
    match item {
        Item::Known(decls) => add_decls(decls.as_slice(), functions, objects),
        Item::Passed(_) => Ok(()),
    }
}

fn add_items(
    items: &[Item],
    functions: &mut NumberSet,
    objects: &mut NumberSet,
) -> Result<(), NoMemory>
    ensures functions { OnOk result (functions.new ≡ with_numbers functions.old (spec.functions_of (declared_by (map item_tree items.now)))) }
    ensures objects { OnOk result (objects.new ≡ with_numbers objects.old (spec.objects_of (declared_by (map item_tree items.now)))) }
{
    for item in items {
        add_item(item, functions, objects)?;
    }
    Ok(())
}

fn add_all(numbers: &[u32], set: &mut NumberSet) -> Result<(), NoMemory>
    ensures { OnOk result (set.new ≡ with_numbers set.old numbers.now) }
{
    for n in numbers {
        add(*n, set)?;
    }
    Ok(())
}

fn add_tag(tag: &Tag, structs: &mut NumberSet, unions: &mut NumberSet) -> Result<(), NoMemory>
    ensures structs { OnOk result (structs.new ≡ with_numbers structs.old (spec.tag_of false (tag_tree tag.now))) }
    ensures unions { OnOk result (unions.new ≡ with_numbers unions.old (spec.tag_of true (tag_tree tag.now))) }
{
    match tag.name {
        None => Ok(()),
        Some(n) => {
            if tag.union_ {
                add(n, unions)
            } else {
                add(n, structs)
            }
        }
    }
}

fn add_tags(tags: &[Tag], structs: &mut NumberSet, unions: &mut NumberSet) -> Result<(), NoMemory>
    ensures structs { OnOk result (structs.new ≡ with_numbers structs.old (spec.tags_of false (map tag_tree tags.now))) }
    ensures unions { OnOk result (unions.new ≡ with_numbers unions.old (spec.tags_of true (map tag_tree tags.now))) }
{
    for tag in tags {
        add_tag(tag, structs, unions)?;
    }
    Ok(())
}

fn add_members(tag: u32, members: &[Member], fields: &mut FieldSet) -> Result<(), NoMemory>
    ensures { OnOk result (fields.new ≡ with_fields fields.old (spec.fields_named tag (map member_tree members.now))) }
{
    for member in members {
        let name = member.name;
        fields.add(FieldName { tag, name })?;
    }
    Ok(())
}

fn add_fields(
    tag: &Tag,
    struct_fields: &mut FieldSet,
    union_fields: &mut FieldSet,
) -> Result<(), NoMemory>
    ensures structs { OnOk result (struct_fields.new ≡ with_fields struct_fields.old (spec.fields_of false (tag_tree tag.now))) }
    ensures unions { OnOk result (union_fields.new ≡ with_fields union_fields.old (spec.fields_of true (tag_tree tag.now))) }
{
    match &tag.members {
        None => Ok(()),
        Some(members) => match tag.name {
            None => Ok(()),
            Some(n) => {
                if tag.union_ {
                    add_members(n, members.as_slice(), union_fields)
                } else {
                    add_members(n, members.as_slice(), struct_fields)
                }
            }
        },
    }
}

fn add_all_fields(
    tags: &[Tag],
    struct_fields: &mut FieldSet,
    union_fields: &mut FieldSet,
) -> Result<(), NoMemory>
    ensures structs { OnOk result (struct_fields.new ≡ with_fields struct_fields.old (spec.all_fields_of false (map tag_tree tags.now))) }
    ensures unions { OnOk result (union_fields.new ≡ with_fields union_fields.old (spec.all_fields_of true (map tag_tree tags.now))) }
{
    for tag in tags {
        add_fields(tag, struct_fields, union_fields)?;
    }
    Ok(())
}

// Adds the names of the functions and of the objects of a unit.
fn add_ordinary(
    unit: &Unit,
    functions: &mut NumberSet,
    objects: &mut NumberSet,
) -> Result<(), NoMemory>
    ensures functions { OnOk result (functions.new ≡ with_numbers (with_numbers functions.old (spec.functions_of (declared_by (unit_tree unit.now).items))) (unit_tree unit.now).named) }
    ensures objects { OnOk result (objects.new ≡ with_numbers objects.old (spec.objects_of (declared_by (unit_tree unit.now).items))) }
{
    add_items(unit.items.as_slice(), functions, objects)?;
    add_all(unit.named.as_slice(), functions)
}

fn ordinary_names(alloc: Global, unit: &Unit) -> Result<OrdinaryNames, NoMemory>
    ensures { IfOk result (λ d. d ≡ spec.ordinary_in (unit_tree unit.now)) }
{
    let mut functions = NumberSet::new(alloc);
    let mut objects = NumberSet::new(alloc);
    add_ordinary(unit, &mut functions, &mut objects)?;
    Ok(OrdinaryNames { functions, objects })
}

fn tag_names(alloc: Global, unit: &Unit) -> Result<TagNames, NoMemory>
    ensures { IfOk result (λ d. d ≡ spec.tags_in (unit_tree unit.now)) }
{
    let mut structs = NumberSet::new(alloc);
    let mut unions = NumberSet::new(alloc);
    add_tags(unit.tags.as_slice(), &mut structs, &mut unions)?;
    Ok(TagNames { structs, unions })
}

fn field_names(alloc: Global, unit: &Unit) -> Result<FieldNames, NoMemory>
    ensures { IfOk result (λ d. d ≡ spec.fields_in_tags (unit_tree unit.now)) }
{
    let mut structs = FieldSet::new(alloc);
    let mut unions = FieldSet::new(alloc);
    add_all_fields(unit.tags.as_slice(), &mut structs, &mut unions)?;
    Ok(FieldNames { structs, unions })
}

/// The names of what the unit declares. What is behind a name is then found without a search.
pub fn declared_by(alloc: Global, unit: &Unit) -> Result<Declared, NoMemory>
    ensures { IfOk result (λ d. d ≡ spec.declared_in (unit_tree unit.now)) }
{
    let ordinary = ordinary_names(alloc, unit)?;
    let tags = tag_names(alloc, unit)?;
    let fields = field_names(alloc, unit)?;
    Ok(Declared {
        ordinary,
        tags,
        fields,
    })
}
