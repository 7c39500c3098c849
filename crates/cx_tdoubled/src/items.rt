ghost use Rattle.std.specs.Prelude.{◌≡◌, map, option_map, IfOk};
ghost use Rattle.cx_tsyn.specs.Items.{region_tree, func_tree, result_tree, alloc_tree, type_item_tree, surface_tree};
ghost use Rattle.cx_tscope.specs.Faults.{first};
ghost use Rattle.cx_tdoubled.specs.Seen.{seen_by};
ghost use Rattle.cx_tdoubled.specs.Doubled as spec;

use crate::seen::{Seen, doubled_item, none_seen, see};
use crate::types::doubled_in_type;
use cx_base::{NoMemory, Span};
use cx_tscope::Scope;
use cx_tsyn::{AllocItem, FuncItem, RegionItem, SResult, Surface, TypeItem};
use std::alloc::Global;

#[tactic(auto, using(cx_tscope::proofs::Faults::first_after, cx_tscope::proofs::Faults::first_in))]
fn doubled_in_region(alloc: Global, region: &RegionItem) -> Result<Option<Span>, NoMemory>
    ensures { IfOk result (λ s. s ≡ first (spec.doubled_in_region (region_tree region.now))) }
{
    let mut names = Scope::new(alloc);
    match names.declare(region.params.as_slice())? {
        Some(span) => Ok(Some(span)),
        None => doubled_in_type(&mut names, &region.body),
    }
}

fn doubled_in_result(names: &mut Scope, given: &Option<SResult>) -> Result<Option<Span>, NoMemory>
    ensures { IfOk result (λ s. s ≡ first (spec.doubled_in_result names.old (option_map result_tree given.now))) }
{
    match given {
        None => Ok(None),
        Some(given) => names.declare(given.binders.as_slice()),
    }
}

#[tactic(auto, using(cx_tscope::proofs::Faults::first_after, cx_tscope::proofs::Faults::first_in))]
fn doubled_in_function(alloc: Global, function: &FuncItem) -> Result<Option<Span>, NoMemory>
    ensures { IfOk result (λ s. s ≡ first (spec.doubled_in_function (func_tree function.now))) }
{
    let mut names = Scope::new(alloc);
    match names.declare(function.binders.as_slice())? {
        Some(span) => Ok(Some(span)),
        None => doubled_in_result(&mut names, &function.result),
    }
}

fn doubled_in_allocator(alloc: Global, item: &AllocItem) -> Result<Option<Span>, NoMemory>
    ensures { IfOk result (λ s. s ≡ first (spec.doubled_in_allocator (alloc_tree item.now))) }
{
    let mut names = Scope::new(alloc);
    names.declare(item.params.as_slice())
}

fn doubled_symbol(alloc: Global, item: &TypeItem) -> Result<Option<Span>, NoMemory>
    ensures { IfOk result (λ s. s ≡ first (spec.doubled_symbols (type_item_tree item.now))) }
{
    match item {
        TypeItem::Region(region) => doubled_in_region(alloc, region),
        TypeItem::Func(function) => doubled_in_function(alloc, function),
        TypeItem::Alloc(item) => doubled_in_allocator(alloc, item),
        TypeItem::Global(_) => Ok(None),
    }
}

// The first name that is declared twice, where these names are seen before the items.
#[tactic(auto, using(cx_tscope::proofs::Faults::first_after, cx_tscope::proofs::Faults::first_in))]
fn doubled_in_items(
    alloc: Global,
    seen: &mut Seen,
    items: &[TypeItem],
) -> Result<Option<Span>, NoMemory>
    ensures { IfOk result (λ s. s ≡ first (spec.doubled_in_items (seen_by seen.old) (map type_item_tree items.now))) }
{
    for item in items {
        if let Some(span) = doubled_item(seen, item) {
            return Ok(Some(span));
        }
        match doubled_symbol(alloc, item)? {
            Some(span) => return Ok(Some(span)),
            None => {}
        }
        see(seen, item)?;
    }
    Ok(None)
}

/// The first name of a type file, in order of the text, that is declared twice, at its second
/// declaration: of two regions, two functions, two globals, two allocators for one type, a function
/// and an allocator, or a symbol where one of its name is known. None exactly where there is none.
pub fn doubled_name(alloc: Global, surface: &Surface) -> Result<Option<Span>, NoMemory>
    ensures { IfOk result (λ s. s ≡ first (spec.doubled_names (surface_tree surface.now))) }
{
    let mut seen = none_seen(alloc);
    doubled_in_items(alloc, &mut seen, surface.items.as_slice())
}
