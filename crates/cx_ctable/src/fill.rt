ghost use Rattle.std.specs.Prelude.{◌≡◌, map, drop, true, false, OnOk, IfOk};
ghost use Rattle.cx_ctree.specs.Types.{type_tree};
ghost use Rattle.cx_ctree.specs.Decls.{signature_tree, decl_tree, item_tree, tag_tree};
ghost use Rattle.cx_ctree.specs.Units.{unit_tree};
ghost use Rattle.cx_cname.specs.Known.{declared_by};
ghost use Rattle.cx_cindex.specs.UnitNames.{decls_of};
ghost use Rattle.cx_ctable.specs.Firsts.{with_firsts};
ghost use Rattle.cx_ctable.specs.Tables as spec;

use crate::firsts::{add_function, add_object, add_place};
use crate::table::Table;
use cx_base::NoMemory;
use cx_ctree::{CType, Decl, Item, Signature, Tag, Unit};
use indexmap::IndexMap;
use std::alloc::Global;

fn add_decl<'a>(
    decl: &'a Decl,
    functions: &mut IndexMap<u32, &'a Signature>,
    objects: &mut IndexMap<u32, &'a CType>,
) -> Result<(), NoMemory>
    ensures functions { OnOk result (map (λ e. (e.0, signature_tree e.1.now)) functions.new.entries ≡ with_firsts (map (λ e. (e.0, signature_tree e.1.now)) functions.old.entries) (spec.function_of (decl_tree decl.now))) }
    ensures objects { OnOk result (map (λ e. (e.0, type_tree e.1.now)) objects.new.entries ≡ with_firsts (map (λ e. (e.0, type_tree e.1.now)) objects.old.entries) (spec.object_of (decl_tree decl.now))) }
{
    match decl {
        Decl::Types => Ok(()),
        Decl::Object(n, t) => add_object(objects, *n, t),
        Decl::Proto(s) => add_function(functions, s),
        Decl::Body(f) => add_function(functions, &f.sig),
    }
}

#[tactic(auto, using(crate::proofs::Adding::firsts_append))]
fn add_decls<'a>(
    decls: &'a [Decl],
    functions: &mut IndexMap<u32, &'a Signature>,
    objects: &mut IndexMap<u32, &'a CType>,
) -> Result<(), NoMemory>
    ensures functions { OnOk result (map (λ e. (e.0, signature_tree e.1.now)) functions.new.entries ≡ with_firsts (map (λ e. (e.0, signature_tree e.1.now)) functions.old.entries) (spec.functions_of (map decl_tree decls.now))) }
    ensures objects { OnOk result (map (λ e. (e.0, type_tree e.1.now)) objects.new.entries ≡ with_firsts (map (λ e. (e.0, type_tree e.1.now)) objects.old.entries) (spec.objects_of (map decl_tree decls.now))) }
{
    for decl in decls {
        add_decl(decl, functions, objects)?;
    }
    Ok(())
}

fn add_item<'a>(
    item: &'a Item,
    functions: &mut IndexMap<u32, &'a Signature>,
    objects: &mut IndexMap<u32, &'a CType>,
) -> Result<(), NoMemory>
    ensures functions { OnOk result (map (λ e. (e.0, signature_tree e.1.now)) functions.new.entries ≡ with_firsts (map (λ e. (e.0, signature_tree e.1.now)) functions.old.entries) (spec.functions_of (decls_of (item_tree item.now)))) }
    ensures objects { OnOk result (map (λ e. (e.0, type_tree e.1.now)) objects.new.entries ≡ with_firsts (map (λ e. (e.0, type_tree e.1.now)) objects.old.entries) (spec.objects_of (decls_of (item_tree item.now)))) }
{
    match item {
        Item::Known(decls) => add_decls(decls.as_slice(), functions, objects),
        Item::Passed(_) => Ok(()),
    }
}

#[tactic(auto, using(crate::proofs::Adding::firsts_append))]
fn add_items<'a>(
    items: &'a [Item],
    functions: &mut IndexMap<u32, &'a Signature>,
    objects: &mut IndexMap<u32, &'a CType>,
) -> Result<(), NoMemory>
    ensures functions { OnOk result (map (λ e. (e.0, signature_tree e.1.now)) functions.new.entries ≡ with_firsts (map (λ e. (e.0, signature_tree e.1.now)) functions.old.entries) (spec.functions_of (declared_by (map item_tree items.now)))) }
    ensures objects { OnOk result (map (λ e. (e.0, type_tree e.1.now)) objects.new.entries ≡ with_firsts (map (λ e. (e.0, type_tree e.1.now)) objects.old.entries) (spec.objects_of (declared_by (map item_tree items.now)))) }
{
    for item in items {
        add_item(item, functions, objects)?;
    }
    Ok(())
}

fn add_tag(
    tag: &Tag,
    at: usize,
    structs: &mut IndexMap<u32, usize>,
    unions: &mut IndexMap<u32, usize>,
) -> Result<(), NoMemory>
    ensures structs { OnOk result (structs.new.entries ≡ with_firsts structs.old.entries (spec.tag_at false at (tag_tree tag.now))) }
    ensures unions { OnOk result (unions.new.entries ≡ with_firsts unions.old.entries (spec.tag_at true at (tag_tree tag.now))) }
{
    match tag.name {
        None => Ok(()),
        Some(n) => {
            if tag.union_ {
                add_place(unions, n, at)
            } else {
                add_place(structs, n, at)
            }
        }
    }
}

#[tactic(auto, using(crate::proofs::Adding::firsts_append))]
fn add_tags(
    tags: &[Tag],
    structs: &mut IndexMap<u32, usize>,
    unions: &mut IndexMap<u32, usize>,
) -> Result<(), NoMemory>
    ensures structs { OnOk result (structs.new.entries ≡ with_firsts structs.old.entries (spec.tags_from false 0 (map tag_tree tags.now))) }
    ensures unions { OnOk result (unions.new.entries ≡ with_firsts unions.old.entries (spec.tags_from true 0 (map tag_tree tags.now))) }
{
    for (at, tag) in tags.iter().enumerate() {
        add_tag(tag, at, structs, unions)?;
    }
    Ok(())
}

/// What the unit declares. What is behind a name is then found without a search.
pub fn table_of(alloc: Global, unit: &Unit) -> Result<Table<'_>, NoMemory>
    ensures { IfOk result (λ t. spec.table_tree t ≡ spec.table_of (unit_tree unit.now)) }
{
    let mut functions = IndexMap::new(alloc);
    let mut objects = IndexMap::new(alloc);
    add_items(unit.items.as_slice(), &mut functions, &mut objects)?;
    let mut structs = IndexMap::new(alloc);
    let mut unions = IndexMap::new(alloc);
    add_tags(unit.tags.as_slice(), &mut structs, &mut unions)?;
    Ok(Table {
        functions,
        objects,
        structs,
        unions,
    })
}
