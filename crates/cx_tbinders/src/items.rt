ghost use Rattle.std.specs.Prelude.{◌≡◌, map, option_map, IfOk};
ghost use Rattle.cx_tsyn.specs.Words.{word_tree};
ghost use Rattle.cx_tsyn.specs.Cells.{cell_tree};
ghost use Rattle.cx_tsyn.specs.Items.{region_tree, func_tree, result_tree, type_item_tree, surface_tree};
ghost use Rattle.cx_tscope.specs.Faults.{first};
ghost use Rattle.cx_tbinders.specs.Uses as uses;
ghost use Rattle.cx_tbinders.specs.Undetermined as spec;

use crate::occurs::undetermined_by_cells;
use crate::place::Place;
use crate::types::undetermined_in_type;
use crate::use_of::{determines, use_in_kind};
use cx_base::{NoMemory, Span};
use cx_tscope::Scope;
use cx_tsyn::{FuncItem, RegionItem, SCell, SResult, Surface, TypeItem, Word};
use std::alloc::Global;

fn undetermined_in_region(alloc: Global, region: &RegionItem) -> Result<Option<Span>, NoMemory>
    ensures { IfOk result (λ s. s ≡ first (spec.undetermined_in_region (region_tree region.now))) }
{
    let mut names = Scope::new(alloc);
    let place = Place {
        in_array: false,
        in_branch: false,
        is_last: true,
        is_absent: false,
        outer: 0,
    };
    undetermined_in_type(alloc, &mut names, place, false, &region.body)
}

// The first of the binders that the cell does not determine.
#[tactic(auto, using(cx_tscope::proofs::Faults::first_after, cx_tscope::proofs::Faults::first_in))]
fn undetermined_by_cell(
    alloc: Global,
    cell: &SCell,
    binders: &[Word],
) -> Result<Option<Span>, NoMemory>
    ensures { IfOk result (λ s. s ≡ first (uses.undetermined_by_cell (cell_tree cell.now) (map word_tree binders.now))) }
{
    for binder in binders {
        let found = use_in_kind(alloc, binder.text.as_slice(), &cell.kind)?;
        if !determines(found) {
            return Ok(Some(binder.span));
        }
    }
    Ok(None)
}

fn undetermined_in_result(alloc: Global, given: &Option<SResult>) -> Result<Option<Span>, NoMemory>
    ensures { IfOk result (λ s. s ≡ first (spec.undetermined_in_result (option_map result_tree given.now))) }
{
    match given {
        None => Ok(None),
        Some(given) => undetermined_by_cell(alloc, &given.cell, given.binders.as_slice()),
    }
}

#[tactic(auto, using(cx_tscope::proofs::Faults::first_after, cx_tscope::proofs::Faults::first_in))]
fn undetermined_in_function(alloc: Global, function: &FuncItem) -> Result<Option<Span>, NoMemory>
    ensures { IfOk result (λ s. s ≡ first (spec.undetermined_in_function (func_tree function.now))) }
{
    let args = function.args.as_slice();
    match undetermined_by_cells(alloc, args, function.binders.as_slice())? {
        Some(span) => Ok(Some(span)),
        None => undetermined_in_result(alloc, &function.result),
    }
}

fn undetermined_in_item(alloc: Global, item: &TypeItem) -> Result<Option<Span>, NoMemory>
    ensures { IfOk result (λ s. s ≡ first (spec.undetermined_in_item (type_item_tree item.now))) }
{
    match item {
        TypeItem::Region(region) => undetermined_in_region(alloc, region),
        TypeItem::Func(function) => undetermined_in_function(alloc, function),
        TypeItem::Alloc(_) => Ok(None),
        TypeItem::Global(_) => Ok(None),
    }
}

#[tactic(auto, using(cx_tscope::proofs::Faults::first_after, cx_tscope::proofs::Faults::first_in))]
fn undetermined_in_items(alloc: Global, items: &[TypeItem]) -> Result<Option<Span>, NoMemory>
    ensures { IfOk result (λ s. s ≡ first (spec.undetermined_in_items (map type_item_tree items.now))) }
{
    for item in items {
        match undetermined_in_item(alloc, item)? {
            Some(span) => return Ok(Some(span)),
            None => {}
        }
    }
    Ok(None)
}

/// The first word or type of a type file, in order of the text, at which a symbol is not determined:
/// a binder that no cell holds whole where it occurs first, or that occurs in no cell, at its
/// declaration; a symbol in an element of symbolic length that is declared outside it; an array of
/// symbolic length that is not last in its region, stands in a branch or an array, or has a length of
/// more than parameters; cases in an array, or second ones of a region. None exactly where there is
/// none.
pub fn undetermined(alloc: Global, surface: &Surface) -> Result<Option<Span>, NoMemory>
    ensures { IfOk result (λ s. s ≡ first (spec.undetermined (surface_tree surface.now))) }
{
    undetermined_in_items(alloc, surface.items.as_slice())
}
