ghost use Rattle.std.specs.Prelude.{◌≡◌, map, option_map, IfOk};
ghost use Rattle.cx_ctree.specs.Units.{unit_tree};
ghost use Rattle.cx_tsyn.specs.Words.{word_tree};
ghost use Rattle.cx_tsyn.specs.Lins.{relation_tree};
ghost use Rattle.cx_tsyn.specs.Items.{region_tree, func_tree, result_tree, alloc_tree, global_tree, type_item_tree, surface_tree};
ghost use Rattle.cx_tscope.specs.Faults.{first};
ghost use Rattle.cx_tarity.specs.Known.{known_of, known_in};
ghost use Rattle.cx_tarity.specs.Arity as spec;

use crate::count::{counted, is_over};
use crate::known::{Known, params_of_function};
use crate::regions::{add_items, no_regions};
use crate::types::{agrees, arity_in_cell, arity_in_cells, arity_in_type, arity_of_region};
use cx_base::{NoMemory, Span};
use cx_ctable::table_of;
use cx_ctree::Unit;
use cx_tsyn::{
    AllocItem, FuncItem, GlobalItem, RegionItem, Relation, SResult, Surface, TypeItem, Word,
};
use std::alloc::Global;

fn are_over(binders: &[Word], conds: &[Relation]) -> bool
    ensures { result ≡ spec.are_over (map word_tree binders.now) (map relation_tree conds.now) }
{
    16 < binders.len() || 16 < conds.len()
}

fn result_is_over(given: &Option<SResult>) -> bool
    ensures { result ≡ spec.result_is_over (option_map result_tree given.now) }
{
    match given {
        None => false,
        Some(given) => are_over(given.binders.as_slice(), given.conds.as_slice()),
    }
}

#[tactic(auto, using(crate::proofs::Capping::over_type))]
fn region_is_right(alloc: Global, region: &RegionItem) -> Result<bool, NoMemory>
    ensures { IfOk result (λ right. right ≡ spec.region_is_right (region_tree region.now)) }
{
    let body = counted(alloc, &region.body)?;
    let over = is_over(body) || body.over;
    Ok(!(8 < region.params.len() || over))
}

fn function_is_right(known: &Known, function: &FuncItem) -> bool
    ensures { result ≡ spec.function_is_right (known_of known.now) (func_tree function.now) }
{
    if !agrees(
        params_of_function(known, &function.name),
        function.args.len(),
    ) {
        return false;
    }
    !(8 < function.args.len()
        || are_over(function.binders.as_slice(), function.conds.as_slice())
        || result_is_over(&function.result))
}

fn allocator_is_right(known: &Known, item: &AllocItem) -> bool
    ensures { result ≡ spec.allocator_is_right (known_of known.now) (alloc_tree item.now) }
{
    agrees(params_of_function(known, &item.name), item.params.len()) && !(8 < item.params.len())
}

#[tactic(auto, using(cx_tscope::proofs::Faults::first_after, cx_tscope::proofs::Faults::first_in))]
fn arity_in_region(
    alloc: Global,
    known: &Known,
    region: &RegionItem,
) -> Result<Option<Span>, NoMemory>
    ensures { IfOk result (λ s. s ≡ first (spec.arity_in_region (known_of known.now) (region_tree region.now))) }
{
    if !region_is_right(alloc, region)? {
        return Ok(Some(region.name.span));
    }
    Ok(arity_in_type(known, &region.body))
}

fn arity_in_result(known: &Known, given: &Option<SResult>) -> Option<Span>
    ensures { result ≡ first (spec.arity_in_result (known_of known.now) (option_map result_tree given.now)) }
{
    match given {
        None => None,
        Some(given) => arity_in_cell(known, &given.cell),
    }
}

#[tactic(auto, using(cx_tscope::proofs::Faults::first_after, cx_tscope::proofs::Faults::first_in))]
fn arity_in_function(known: &Known, function: &FuncItem) -> Option<Span>
    ensures { result ≡ first (spec.arity_in_function (known_of known.now) (func_tree function.now)) }
{
    if !function_is_right(known, function) {
        return Some(function.name.span);
    }
    if let Some(span) = arity_in_cells(known, function.args.as_slice()) {
        return Some(span);
    }
    arity_in_result(known, &function.result)
}

#[tactic(auto, using(cx_tscope::proofs::Faults::first_after, cx_tscope::proofs::Faults::first_in))]
fn arity_in_allocator(known: &Known, item: &AllocItem) -> Option<Span>
    ensures { result ≡ first (spec.arity_in_allocator (known_of known.now) (alloc_tree item.now)) }
{
    if !allocator_is_right(known, item) {
        return Some(item.name.span);
    }
    arity_of_region(known, &item.region, item.args.len())
}

fn arity_in_global(known: &Known, item: &GlobalItem) -> Option<Span>
    ensures { result ≡ first (spec.arity_in_global (known_of known.now) (global_tree item.now)) }
{
    arity_of_region(known, &item.region, item.args.len())
}

fn arity_in_item(alloc: Global, known: &Known, item: &TypeItem) -> Result<Option<Span>, NoMemory>
    ensures { IfOk result (λ s. s ≡ first (spec.arity_in_item (known_of known.now) (type_item_tree item.now))) }
{
    match item {
        TypeItem::Region(region) => arity_in_region(alloc, known, region),
        TypeItem::Func(function) => Ok(arity_in_function(known, function)),
        TypeItem::Alloc(item) => Ok(arity_in_allocator(known, item)),
        TypeItem::Global(item) => Ok(arity_in_global(known, item)),
    }
}

#[tactic(auto, using(cx_tscope::proofs::Faults::first_after, cx_tscope::proofs::Faults::first_in))]
fn arity_in_items(
    alloc: Global,
    known: &Known,
    items: &[TypeItem],
) -> Result<Option<Span>, NoMemory>
    ensures { IfOk result (λ s. s ≡ first (spec.arity_in_items (known_of known.now) (map type_item_tree items.now))) }
{
    for item in items {
        match arity_in_item(alloc, known, item)? {
            Some(span) => return Ok(Some(span)),
            None => {}
        }
    }
    Ok(None)
}

fn known<'a>(alloc: Global, items: &[TypeItem], unit: &'a Unit) -> Result<Known<'a>, NoMemory>
    ensures { IfOk result (λ k. known_of k ≡ known_in (unit_tree unit.now) (map type_item_tree items.now)) }
{
    let mut regions = no_regions(alloc);
    add_items(&mut regions, items)?;
    Ok(Known {
        regions,
        names: &unit.names,
        table: table_of(alloc, unit)?,
        tags: unit.tags.as_slice(),
    })
}

/// The first name or type of a type file, in order of the text, at which numbers do not agree beside
/// the C file of this unit, whose names are known: a region with another number of arguments than it
/// has parameters; a function or allocator with another number than its declaration in C, or an item
/// past the limits of eight parameters and of sixteen binders and conditions of a part, at the item's
/// name; a field that is not the next member of its struct, or a second one of a union, at its type;
/// a struct whose fields end too early, or a union without one, at its tag. None exactly where there
/// is none.
pub fn wrong_arity(alloc: Global, surface: &Surface, unit: &Unit) -> Result<Option<Span>, NoMemory>
    ensures { IfOk result (λ s. s ≡ first (spec.arity_faults (unit_tree unit.now) (surface_tree surface.now))) }
{
    let items = surface.items.as_slice();
    let known = known(alloc, items, unit)?;
    arity_in_items(alloc, &known, items)
}
