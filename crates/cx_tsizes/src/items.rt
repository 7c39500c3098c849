ghost use Rattle.std.specs.Prelude.{◌≡◌, map, IfOk};
ghost use Rattle.cx_ctree.specs.Units.{unit_tree};
ghost use Rattle.cx_tsyn.specs.Types.{stype_tree};
ghost use Rattle.cx_tsyn.specs.Items.{type_item_tree, surface_tree};
ghost use Rattle.cx_tscope.specs.Faults.{first};
ghost use Rattle.cx_tmeasure.specs.Known.{known_in};
ghost use Rattle.cx_tmeasure.specs.Views.{known_of};
ghost use Rattle.cx_tsizes.specs.BadSizes as spec;
ghost use Rattle.cx_tsizes.specs.Views.{regions_as};

use crate::functions::bad_in_function;
use crate::globals::bad_global;
use crate::regions::{Regions, add_items, no_regions};
use cx_base::{NoMemory, Span};
use cx_ctable::table_of;
use cx_ctree::Unit;
use cx_tmeasure::{Judged, Known, few_cells, judged};
use cx_tsyn::{SType, Surface, TypeItem};
use std::alloc::Global;

#[tactic(auto, using(cx_tscope::proofs::Faults::first_after, cx_tscope::proofs::Faults::first_in))]
fn bad_in_region(alloc: Global, known: &Known, t: &SType) -> Result<Option<Span>, NoMemory>
    ensures { IfOk result (λ s. s ≡ first (spec.bad_in_region (known_of known.now) (stype_tree t.now))) }
{
    match judged(alloc, known, None, t)? {
        Judged::Bad(span) => Ok(Some(span)),
        Judged::Right(all) => {
            if few_cells(all.cells) {
                return Ok(None);
            }
            Ok(Some(t.span))
        }
    }
}

fn bad_in_item(
    alloc: Global,
    known: &Known,
    regions: &Regions,
    item: &TypeItem,
) -> Result<Option<Span>, NoMemory>
    ensures { IfOk result (λ s. s ≡ first (spec.bad_in_item (known_of known.now) (regions_as regions.now) (type_item_tree item.now))) }
{
    match item {
        TypeItem::Region(region) => bad_in_region(alloc, known, &region.body),
        TypeItem::Func(function) => Ok(bad_in_function(known, function)),
        TypeItem::Alloc(_) => Ok(None),
        TypeItem::Global(global) => bad_global(alloc, known, regions, global),
    }
}

#[tactic(auto, using(cx_tscope::proofs::Faults::first_after, cx_tscope::proofs::Faults::first_in))]
fn bad_in_items(
    alloc: Global,
    known: &Known,
    regions: &Regions,
    items: &[TypeItem],
) -> Result<Option<Span>, NoMemory>
    ensures { IfOk result (λ s. s ≡ first (spec.bad_in_items (known_of known.now) (regions_as regions.now) (map type_item_tree items.now))) }
{
    for item in items {
        match bad_in_item(alloc, known, regions, item)? {
            Some(span) => return Ok(Some(span)),
            None => {}
        }
    }
    Ok(None)
}

fn known<'a>(alloc: Global, unit: &'a Unit) -> Result<Known<'a>, NoMemory>
    ensures { IfOk result (λ k. known_of k ≡ known_in (unit_tree unit.now)) }
{
    Ok(Known {
        unit,
        table: table_of(alloc, unit)?,
    })
}

/// The first type, cell or name of a type file whose size is wrong beside the C file of this unit,
/// where the conditions before this one hold: items in order, in a type parts before wholes, and then
/// in the order of the text. A cell without a size; a type that is not of the size of its member, of its
/// struct or union (there the words from `as` on), or of the first branch; a struct or union without
/// a layout; an array whose length is below 0 or whose element has no bytes; more than 2^31 bytes, or
/// more than 1024 cells of a region without its tail or of an element of symbolic length; a cell that
/// does not fit its parameter or result in C, or `void` for a result; a global whose region is not of
/// the size of the object, at its name. None exactly where there is none.
pub fn bad_size(alloc: Global, surface: &Surface, unit: &Unit) -> Result<Option<Span>, NoMemory>
    ensures { IfOk result (λ s. s ≡ first (spec.bad_sizes (unit_tree unit.now) (surface_tree surface.now))) }
{
    let items = surface.items.as_slice();
    let known = known(alloc, unit)?;
    let mut regions = no_regions(alloc);
    add_items(alloc, &known, &mut regions, items)?;
    bad_in_items(alloc, &known, &regions, items)
}
