ghost use Rattle.std.specs.Prelude.{◌≡◌, [], map, OnOk, IfOk};
ghost use Rattle.std.specs.List.{flat_map};
ghost use Rattle.cx_ctree.specs.Types.{type_tree};
ghost use Rattle.cx_ctree.specs.Decls.{decl_tree, item_tree};
ghost use Rattle.cx_cname.specs.Known.{declared_by};
ghost use Rattle.cx_cindex.specs.UnitNames.{decls_of};
ghost use Rattle.cx_sname.specs.File.{declared_of};
ghost use Rattle.cx_sname.specs.Meanings.{meaning_tree};
ghost use Rattle.cx_ctable.specs.Firsts.{with_first, with_firsts};
ghost use Rattle.cx_sfile.specs.Entries as spec;
ghost use Rattle.cx_sfile.specs.Entries.{seen_meanings};
ghost use Rattle.cx_sfile.specs.Views.{declared_in};

use crate::file::File;
use crate::members::all_members;
use cx_base::NoMemory;
use cx_ctree::{CType, Decl, Item, Unit};
use cx_sname::Meaning;
use indexmap::IndexMap;
use std::alloc::Global;

/// Adds a meaning where the name has none.
fn add_first<'a>(
    meanings: &mut IndexMap<u32, Meaning<'a>>,
    n: u32,
    meaning: Meaning<'a>,
) -> Result<(), NoMemory>
    ensures { OnOk result (seen_meanings meanings.new.entries ≡ with_first (seen_meanings meanings.old.entries) (n, meaning_tree meaning.entry)) }
{
    if meanings.contains_key(&n) {
        return Ok(());
    }
    meanings.insert(n, meaning)?;
    Ok(())
}

#[tactic(auto, using(cx_ctable::proofs::Adding::firsts_append))]
fn add_typedefs<'a>(
    typedefs: &'a [(u32, CType)],
    meanings: &mut IndexMap<u32, Meaning<'a>>,
) -> Result<(), NoMemory>
    ensures { OnOk result (seen_meanings meanings.new.entries ≡ with_firsts (seen_meanings meanings.old.entries) (spec.of_typedefs (map (λ t. (t.0, type_tree t.1)) typedefs.now))) }
{
    for t in typedefs {
        add_first(meanings, t.0, Meaning::Typedef(&t.1))?;
    }
    Ok(())
}

#[tactic(auto, using(cx_ctable::proofs::Adding::firsts_append))]
fn add_constants(
    consts: &[(u32, i128)],
    meanings: &mut IndexMap<u32, Meaning<'_>>,
) -> Result<(), NoMemory>
    ensures { OnOk result (seen_meanings meanings.new.entries ≡ with_firsts (seen_meanings meanings.old.entries) (spec.of_constants consts.now)) }
{
    for c in consts {
        add_first(meanings, c.0, Meaning::Constant(c.1))?;
    }
    Ok(())
}

fn add_decl<'a>(decl: &'a Decl, meanings: &mut IndexMap<u32, Meaning<'a>>) -> Result<(), NoMemory>
    ensures { OnOk result (seen_meanings meanings.new.entries ≡ with_firsts (seen_meanings meanings.old.entries) (spec.of_decl (decl_tree decl.now))) }
{
    match decl {
        Decl::Types => Ok(()),
        Decl::Object(n, t) => add_first(meanings, *n, Meaning::Object(t)),
        Decl::Proto(s) => add_first(meanings, s.name, Meaning::Function(s)),
        Decl::Body(f) => add_first(meanings, f.sig.name, Meaning::Function(&f.sig)),
    }
}

#[tactic(auto, using(cx_ctable::proofs::Adding::firsts_append))]
fn add_decls<'a>(
    decls: &'a [Decl],
    meanings: &mut IndexMap<u32, Meaning<'a>>,
) -> Result<(), NoMemory>
    ensures { OnOk result (seen_meanings meanings.new.entries ≡ with_firsts (seen_meanings meanings.old.entries) (spec.of_decls (map decl_tree decls.now))) }
{
    for decl in decls {
        add_decl(decl, meanings)?;
    }
    Ok(())
}

fn add_item<'a>(item: &'a Item, meanings: &mut IndexMap<u32, Meaning<'a>>) -> Result<(), NoMemory>
    ensures { OnOk result (seen_meanings meanings.new.entries ≡ with_firsts (seen_meanings meanings.old.entries) (spec.of_decls (decls_of (item_tree item.now)))) }
{
    match item {
        Item::Known(decls) => add_decls(decls.as_slice(), meanings),
        Item::Passed(_) => Ok(()),
    }
}

#[tactic(auto, using(cx_ctable::proofs::Adding::firsts_append))]
fn add_items<'a>(
    items: &'a [Item],
    meanings: &mut IndexMap<u32, Meaning<'a>>,
) -> Result<(), NoMemory>
    ensures { OnOk result (seen_meanings meanings.new.entries ≡ with_firsts (seen_meanings meanings.old.entries) (spec.of_decls (declared_by (map item_tree items.now)))) }
{
    for item in items {
        add_item(item, meanings)?;
    }
    Ok(())
}

/// What the ordinary names of the unit are declared as.
fn meanings_in(alloc: Global, unit: &Unit) -> Result<IndexMap<u32, Meaning<'_>>, NoMemory>
    ensures { IfOk result (λ m. seen_meanings m.entries ≡ with_firsts [] (spec.entries_of (declared_of unit.now))) }
{
    let mut meanings = IndexMap::new(alloc);
    add_typedefs(unit.typedefs.as_slice(), &mut meanings)?;
    add_constants(unit.consts.as_slice(), &mut meanings)?;
    add_items(unit.items.as_slice(), &mut meanings)?;
    Ok(meanings)
}

/// The file of the unit. Its names are then found without a search, and so are the members of its
/// structs and unions.
#[tactic(auto, using(crate::proofs::Finding::finds_all, crate::proofs::MembersFound::finds_members))]
pub fn file_of(alloc: Global, unit: &Unit) -> Result<File<'_>, NoMemory>
    ensures { IfOk result (λ f. declared_in f ≡ declared_of unit.now) }
{
    let meanings = meanings_in(alloc, unit)?;
    let members = all_members(alloc, unit.tags.as_slice())?;
    Ok(File {
        unit,
        meanings,
        members,
    })
}
