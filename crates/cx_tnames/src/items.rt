ghost use Rattle.std.specs.Prelude.{◌≡◌, map, option_map, IfOk};
ghost use Rattle.cx_ctree.specs.Units.{unit_tree};
ghost use Rattle.cx_tsyn.specs.Words.{word_tree};
ghost use Rattle.cx_tsyn.specs.Items.{region_tree, func_tree, result_tree, alloc_tree, arg_tree, global_tree, type_item_tree, surface_tree};
ghost use Rattle.cx_tscope.specs.Faults.{first};
ghost use Rattle.cx_tnames.specs.Known.{known_of, known_in};
ghost use Rattle.cx_tnames.specs.Unknown as spec;

use crate::cells::{unknown_in_cell, unknown_in_cells};
use crate::known::{Known, add_regions, is_function, is_object};
use crate::lins::unknown_in_relations;
use crate::types::unknown_in_type;
use cx_base::{NoMemory, Span};
use cx_cindex::declared_by;
use cx_ctree::Unit;
use cx_tscope::{Scope, unknown_word};
use cx_tsyn::{
    AllocItem, FuncItem, GlobalItem, RegionItem, SArg, SResult, Surface, TypeItem, Word,
};
use std::alloc::Global;

fn unknown_in_region(
    alloc: Global,
    known: &Known,
    region: &RegionItem,
) -> Result<Option<Span>, NoMemory>
    ensures { IfOk result (λ s. s ≡ first (spec.unknown_in_region (known_of known.now) (region_tree region.now))) }
{
    let mut names = Scope::new(alloc);
    let _doubled = names.declare(region.params.as_slice())?;
    unknown_in_type(known, &mut names, &region.body)
}

#[tactic(auto, using(cx_tscope::proofs::Faults::first_after, cx_tscope::proofs::Faults::first_in))]
fn unknown_in_result(
    known: &Known,
    names: &mut Scope,
    result_type: &Option<SResult>,
) -> Result<Option<Span>, NoMemory>
    ensures { IfOk result (λ s. s ≡ first (spec.unknown_in_result (known_of known.now) names.old (option_map result_tree result_type.now))) }
{
    match result_type {
        None => Ok(None),
        Some(given) => {
            let _doubled = names.declare(given.binders.as_slice())?;
            if let Some(span) = unknown_in_cell(&known.regions, names, &given.cell) {
                return Ok(Some(span));
            }
            Ok(unknown_in_relations(names, given.conds.as_slice()))
        }
    }
}

// The same in what a function takes, where its binders are known.
#[tactic(auto, using(cx_tscope::proofs::Faults::first_after, cx_tscope::proofs::Faults::first_in))]
fn unknown_in_arguments_of(known: &Known, names: &Scope, function: &FuncItem) -> Option<Span>
    ensures { result ≡ first (spec.unknown_in_taken (known_of known.now) names.now (func_tree function.now)) }
{
    if let Some(span) = unknown_in_cells(&known.regions, names, function.args.as_slice()) {
        return Some(span);
    }
    unknown_in_relations(names, function.conds.as_slice())
}

#[tactic(auto, using(cx_tscope::proofs::Faults::first_after, cx_tscope::proofs::Faults::first_in))]
fn unknown_in_function(
    alloc: Global,
    known: &Known,
    function: &FuncItem,
) -> Result<Option<Span>, NoMemory>
    ensures { IfOk result (λ s. s ≡ first (spec.unknown_in_function (known_of known.now) (func_tree function.now))) }
{
    if !is_function(known, &function.name) {
        return Ok(Some(function.name.span));
    }
    let mut names = Scope::new(alloc);
    let _doubled = names.declare(function.binders.as_slice())?;
    if let Some(span) = unknown_in_arguments_of(known, &names, function) {
        return Ok(Some(span));
    }
    unknown_in_result(known, &mut names, &function.result)
}

fn unknown_in_argument(names: &Scope, argument: &SArg) -> Option<Span>
    ensures { result ≡ first (spec.unknown_in_argument names.now (arg_tree argument.now)) }
{
    match argument {
        SArg::Number(_) => None,
        SArg::Param(word) => unknown_word(names, word),
        SArg::Over(word, _, _) => unknown_word(names, word),
    }
}

#[tactic(auto, using(cx_tscope::proofs::Faults::first_after, cx_tscope::proofs::Faults::first_in))]
fn unknown_in_arguments(names: &Scope, arguments: &[SArg]) -> Option<Span>
    ensures { result ≡ first (spec.unknown_in_arguments names.now (map arg_tree arguments.now)) }
{
    for argument in arguments {
        if let Some(span) = unknown_in_argument(names, argument) {
            return Some(span);
        }
    }
    None
}

fn unknown_factor(names: &Scope, factor: &Option<Word>) -> Option<Span>
    ensures { result ≡ first (spec.unknown_factor names.now (option_map word_tree factor.now)) }
{
    match factor {
        None => None,
        Some(word) => unknown_word(names, word),
    }
}

#[tactic(auto, using(cx_tscope::proofs::Faults::first_after, cx_tscope::proofs::Faults::first_in))]
fn unknown_in_size(names: &Scope, item: &AllocItem) -> Option<Span>
    ensures { result ≡ first (spec.unknown_in_size names.now (alloc_tree item.now)) }
{
    if let Some(span) = unknown_in_arguments(names, item.args.as_slice()) {
        return Some(span);
    }
    if let Some(span) = unknown_word(names, &item.bytes) {
        return Some(span);
    }
    unknown_factor(names, &item.times)
}

#[tactic(auto, using(cx_tscope::proofs::Faults::first_after, cx_tscope::proofs::Faults::first_in))]
fn unknown_in_block(
    alloc: Global,
    known: &Known,
    item: &AllocItem,
) -> Result<Option<Span>, NoMemory>
    ensures { IfOk result (λ s. s ≡ first (spec.unknown_in_block (known_of known.now) (alloc_tree item.now))) }
{
    if let Some(span) = item.unknown_tag {
        return Ok(Some(span));
    }
    if let Some(span) = unknown_word(&known.regions, &item.region) {
        return Ok(Some(span));
    }
    let mut names = Scope::new(alloc);
    let _doubled = names.declare(item.params.as_slice())?;
    Ok(unknown_in_size(&names, item))
}

#[tactic(auto, using(cx_tscope::proofs::Faults::first_after, cx_tscope::proofs::Faults::first_in))]
fn unknown_in_allocator(
    alloc: Global,
    known: &Known,
    item: &AllocItem,
) -> Result<Option<Span>, NoMemory>
    ensures { IfOk result (λ s. s ≡ first (spec.unknown_in_allocator (known_of known.now) (alloc_tree item.now))) }
{
    if !is_function(known, &item.name) {
        return Ok(Some(item.name.span));
    }
    unknown_in_block(alloc, known, item)
}

#[tactic(auto, using(cx_tscope::proofs::Faults::first_after, cx_tscope::proofs::Faults::first_in))]
fn unknown_in_global(known: &Known, item: &GlobalItem) -> Option<Span>
    ensures { result ≡ first (spec.unknown_in_global (known_of known.now) (global_tree item.now)) }
{
    if !is_object(known, &item.name) {
        return Some(item.name.span);
    }
    unknown_word(&known.regions, &item.region)
}

fn unknown_in_item(alloc: Global, known: &Known, item: &TypeItem) -> Result<Option<Span>, NoMemory>
    ensures { IfOk result (λ s. s ≡ first (spec.unknown_in_item (known_of known.now) (type_item_tree item.now))) }
{
    match item {
        TypeItem::Region(region) => unknown_in_region(alloc, known, region),
        TypeItem::Func(function) => unknown_in_function(alloc, known, function),
        TypeItem::Alloc(item) => unknown_in_allocator(alloc, known, item),
        TypeItem::Global(item) => Ok(unknown_in_global(known, item)),
    }
}

#[tactic(auto, using(cx_tscope::proofs::Faults::first_after, cx_tscope::proofs::Faults::first_in))]
fn unknown_in_items(
    alloc: Global,
    known: &Known,
    items: &[TypeItem],
) -> Result<Option<Span>, NoMemory>
    ensures { IfOk result (λ s. s ≡ first (spec.unknown_in_items (known_of known.now) (map type_item_tree items.now))) }
{
    for item in items {
        match unknown_in_item(alloc, known, item)? {
            Some(span) => return Ok(Some(span)),
            None => {}
        }
    }
    Ok(None)
}

fn known<'a>(alloc: Global, items: &[TypeItem], unit: &'a Unit) -> Result<Known<'a>, NoMemory>
    ensures { IfOk result (λ k. known_of k ≡ known_in (unit_tree unit.now) (map type_item_tree items.now)) }
{
    let mut regions = Scope::new(alloc);
    add_regions(items, &mut regions)?;
    let declared = declared_by(alloc, unit)?;
    Ok(Known {
        regions,
        names: &unit.names,
        declared,
    })
}

/// The first name of a type file, in order of the text, that is not known beside the C file of this
/// unit: a region that no item declares, a symbol where no parameter and no binder has its name, a
/// struct, union, field, function or object that the C file does not declare. None exactly where each
/// name is known.
pub fn unknown_name(alloc: Global, surface: &Surface, unit: &Unit) -> Result<Option<Span>, NoMemory>
    ensures { IfOk result (λ s. s ≡ first (spec.unknown_names (unit_tree unit.now) (surface_tree surface.now))) }
{
    let items = surface.items.as_slice();
    let known = known(alloc, items, unit)?;
    unknown_in_items(alloc, &known, items)
}
