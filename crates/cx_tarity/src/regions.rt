ghost use Rattle.std.specs.Prelude.{◌≡◌, length, map, OnOk};
ghost use Rattle.cx_tsyn.specs.Words.{word_tree};
ghost use Rattle.cx_tsyn.specs.Items.{type_item_tree};
ghost use Rattle.cx_tarity.specs.Known as spec;

use cx_base::{List, NoMemory};
use cx_tscope::Scope;
use cx_tsyn::{TypeItem, Word};
use std::alloc::Global;

/// The regions of a type file by name, with how many parameters each has.
#[derive(Drop)]
pub struct Regions {
    pub names: Scope,
    pub counts: List<usize>,
}

/// No regions.
pub fn no_regions(alloc: Global) -> Regions
    ensures { spec.regions_of result ≡ spec.no_regions }
{
    Regions {
        names: Scope::new(alloc),
        counts: List::new(alloc),
    }
}

/// How many parameters the region of this name has; None where there is none.
pub fn params_in(regions: &Regions, word: &Word) -> Option<usize>
    ensures { result ≡ spec.params_in (spec.regions_of regions.now) (word_tree word.now) }
{
    match regions.names.place(word.text.as_slice()) {
        None => None,
        Some(at) => match regions.counts.get(at) {
            None => None,
            Some(count) => Some(*count),
        },
    }
}

fn add_region(regions: &mut Regions, word: &Word, params: usize) -> Result<(), NoMemory>
    ensures { OnOk result (spec.regions_of regions.new ≡ spec.with_region (spec.regions_of regions.old) (word_tree word.now) params) }
{
    let new = regions.names.add(word.text.as_slice())?;
    if new {
        regions.counts.push(params)?;
    }
    Ok(())
}

fn add_item(regions: &mut Regions, item: &TypeItem) -> Result<(), NoMemory>
    ensures { OnOk result (spec.regions_of regions.new ≡ spec.with_item (spec.regions_of regions.old) (type_item_tree item.now)) }
{
    match item {
        TypeItem::Region(region) => add_region(regions, &region.name, region.params.len()),
        TypeItem::Func(_) | TypeItem::Alloc(_) | TypeItem::Global(_) => Ok(()),
    }
}

/// Adds the regions among the items.
pub fn add_items(regions: &mut Regions, items: &[TypeItem]) -> Result<(), NoMemory>
    ensures { OnOk result (spec.regions_of regions.new ≡ spec.with_items (spec.regions_of regions.old) (map type_item_tree items.now)) }
{
    for item in items {
        add_item(regions, item)?;
    }
    Ok(())
}
