ghost use Rattle.std.specs.Prelude.{◌≡◌, None, map, option_map, IfOk, OnOk};
ghost use Rattle.cx_tsyn.specs.Words.{word_tree};
ghost use Rattle.cx_tsyn.specs.Types.{stype_tree, atom_tree};
ghost use Rattle.cx_tsyn.specs.Items.{region_tree, type_item_tree};
ghost use Rattle.cx_tscope.specs.Faults.{first};
ghost use Rattle.cx_tmeasure.specs.Sizes.{atom_size};
ghost use Rattle.cx_tmeasure.specs.BadTypes.{bad_in_type, bad_in_atom};
ghost use Rattle.cx_tmeasure.specs.Views.{known_of};
ghost use Rattle.cx_tsizes.specs.Regions as spec;
ghost use Rattle.cx_tsizes.specs.Views.{tail_as, size_as, regions_as};

use crate::tails::tail_of;
use cx_base::{List, NoMemory};
use cx_tmeasure::{Judged, Known, judged, judged_atom};
use cx_tscope::Scope;
use cx_tsyn::{Atom, Lin, RegionItem, SType, TypeItem, Word};
use std::alloc::Global;

/// The array of symbolic length of a region.
#[derive(Drop)]
pub struct Tail<'a> {
    pub length: &'a Lin,
    /// The bytes of an element.
    pub each: u64,
}

/// How many bytes a region takes.
#[derive(Drop)]
pub struct RegionSize<'a> {
    pub params: &'a [Word],
    /// The bytes of its type without the tail.
    pub head: u64,
    pub tail: Option<Tail<'a>>,
}

/// The regions of a type file by name, each with its size, or None where its type is at fault.
#[derive(Drop)]
pub struct Regions<'a> {
    pub names: Scope,
    pub sizes: List<Option<RegionSize<'a>>>,
}

fn size_of_element(alloc: Global, known: &Known, element: &Atom) -> Result<u64, NoMemory>
    requires { first (bad_in_atom (known_of known.now) None (atom_tree element.now)) ≡ None }
    ensures { IfOk result (λ n. n ≡ atom_size (known_of known.now) None (atom_tree element.now)) }
{
    match judged_atom(alloc, known, None, element)? {
        Judged::Bad(_) => Ok(0),
        Judged::Right(each) => Ok(each.size),
    }
}

fn region_tail<'a>(alloc: Global, known: &Known, t: &'a SType) -> Result<Option<Tail<'a>>, NoMemory>
    requires { first (bad_in_type (known_of known.now) None (stype_tree t.now)) ≡ None }
    ensures { IfOk result (λ r. option_map tail_as r ≡ option_map (spec.with_bytes (known_of known.now)) (spec.tail_of (stype_tree t.now))) }
{
    match tail_of(alloc, t)? {
        None => Ok(None),
        Some(row) => {
            let each = size_of_element(alloc, known, row.element)?;
            Ok(Some(Tail {
                length: row.length,
                each,
            }))
        }
    }
}

fn region_size<'a>(
    alloc: Global,
    known: &Known,
    region: &'a RegionItem,
) -> Result<Option<RegionSize<'a>>, NoMemory>
    ensures { IfOk result (λ s. option_map size_as s ≡ spec.region_size (known_of known.now) (region_tree region.now)) }
{
    match judged(alloc, known, None, &region.body)? {
        Judged::Bad(_) => Ok(None),
        Judged::Right(all) => {
            let tail = region_tail(alloc, known, &region.body)?;
            Ok(Some(RegionSize {
                params: region.params.as_slice(),
                head: all.size,
                tail,
            }))
        }
    }
}

/// No regions.
pub fn no_regions<'a>(alloc: Global) -> Regions<'a>
    ensures { regions_as result ≡ spec.no_regions }
{
    Regions {
        names: Scope::new(alloc),
        sizes: List::new(alloc),
    }
}

fn add_region<'a>(
    alloc: Global,
    known: &Known,
    regions: &mut Regions<'a>,
    region: &'a RegionItem,
) -> Result<(), NoMemory>
    ensures { OnOk result (regions_as regions.new ≡ spec.with_region (known_of known.now) (regions_as regions.old) (region_tree region.now)) }
{
    let new = regions.names.add(region.name.text.as_slice())?;
    if new {
        let size = region_size(alloc, known, region)?;
        regions.sizes.push(size)?;
    }
    Ok(())
}

fn add_item<'a>(
    alloc: Global,
    known: &Known,
    regions: &mut Regions<'a>,
    item: &'a TypeItem,
) -> Result<(), NoMemory>
    ensures { OnOk result (regions_as regions.new ≡ spec.with_item (known_of known.now) (regions_as regions.old) (type_item_tree item.now)) }
{
    match item {
        TypeItem::Region(region) => add_region(alloc, known, regions, region),
        TypeItem::Func(_) | TypeItem::Alloc(_) | TypeItem::Global(_) => Ok(()),
    }
}

/// Adds the regions among the items.
pub fn add_items<'a>(
    alloc: Global,
    known: &Known,
    regions: &mut Regions<'a>,
    items: &'a [TypeItem],
) -> Result<(), NoMemory>
    ensures { OnOk result (regions_as regions.new ≡ spec.with_items (known_of known.now) (regions_as regions.old) (map type_item_tree items.now)) }
{
    for item in items {
        add_item(alloc, known, regions, item)?;
    }
    Ok(())
}
