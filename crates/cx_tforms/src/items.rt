ghost use Rattle.std.specs.Prelude.{◌≡◌, map, option_map, IfOk};
ghost use Rattle.cx_tsyn.specs.Items.{func_tree, result_tree, arg_tree, type_item_tree, surface_tree};
ghost use Rattle.cx_tscope.specs.Faults.{first};
ghost use Rattle.cx_tforms.specs.Faulty as spec;

use crate::cells::{faulty_in_cell, faulty_in_cells};
use crate::forms::faulty_relations;
use crate::types::faulty_in_type;
use cx_base::{NoMemory, Span};
use cx_tsyn::{FuncItem, SArg, SResult, Surface, TypeItem};
use std::alloc::Global;

#[tactic(auto, using(cx_tscope::proofs::Faults::first_after, cx_tscope::proofs::Faults::first_in))]
fn faulty_in_result(alloc: Global, given: &Option<SResult>) -> Result<Option<Span>, NoMemory>
    ensures { IfOk result (λ s. s ≡ first (spec.faulty_in_result (option_map result_tree given.now))) }
{
    match given {
        None => Ok(None),
        Some(given) => {
            match faulty_in_cell(alloc, &given.cell)? {
                Some(span) => Ok(Some(span)),
                None => faulty_relations(alloc, given.conds.as_slice()),
            }
        }
    }
}

#[tactic(auto, using(cx_tscope::proofs::Faults::first_after, cx_tscope::proofs::Faults::first_in))]
fn faulty_in_function(alloc: Global, function: &FuncItem) -> Result<Option<Span>, NoMemory>
    ensures { IfOk result (λ s. s ≡ first (spec.faulty_in_function (func_tree function.now))) }
{
    match faulty_in_cells(alloc, function.args.as_slice())? {
        Some(span) => return Ok(Some(span)),
        None => {}
    }
    match faulty_relations(alloc, function.conds.as_slice())? {
        Some(span) => return Ok(Some(span)),
        None => {}
    }
    faulty_in_result(alloc, &function.result)
}

fn faulty_argument(argument: &SArg) -> Option<Span>
    ensures { result ≡ first (spec.faulty_argument (arg_tree argument.now)) }
{
    match argument {
        SArg::Number(_) => None,
        SArg::Param(_) => None,
        SArg::Over(_, divisor, span) => {
            if *divisor == 0 {
                return Some(*span);
            }
            None
        }
    }
}

#[tactic(auto, using(cx_tscope::proofs::Faults::first_after, cx_tscope::proofs::Faults::first_in))]
fn faulty_arguments(arguments: &[SArg]) -> Option<Span>
    ensures { result ≡ first (spec.faulty_arguments (map arg_tree arguments.now)) }
{
    for argument in arguments {
        if let Some(span) = faulty_argument(argument) {
            return Some(span);
        }
    }
    None
}

fn faulty_in_item(alloc: Global, item: &TypeItem) -> Result<Option<Span>, NoMemory>
    ensures { IfOk result (λ s. s ≡ first (spec.faulty_in_item (type_item_tree item.now))) }
{
    match item {
        TypeItem::Region(region) => faulty_in_type(alloc, &region.body),
        TypeItem::Func(function) => faulty_in_function(alloc, function),
        TypeItem::Alloc(allocator) => Ok(faulty_arguments(allocator.args.as_slice())),
        TypeItem::Global(_) => Ok(None),
    }
}

#[tactic(auto, using(cx_tscope::proofs::Faults::first_after, cx_tscope::proofs::Faults::first_in))]
fn faulty_in_items(alloc: Global, items: &[TypeItem]) -> Result<Option<Span>, NoMemory>
    ensures { IfOk result (λ s. s ≡ first (spec.faulty_in_items (map type_item_tree items.now))) }
{
    for item in items {
        match faulty_in_item(alloc, item)? {
            Some(span) => return Ok(Some(span)),
            None => {}
        }
    }
    Ok(None)
}

/// The first linear form, relation or divisor of a type file, in the order of their last tokens, that
/// breaks its rule: a linear form is a term, that is, its number is at most 2^96, the factor of each
/// symbol at most 2^32, both without their signs, and at most four symbols are left in it; for each
/// relation the differences of its sides, either way round, as they are and less 1, are terms; a
/// divisor is not 0. Forms count by their exact values. None exactly where there is none.
pub fn faulty_form(alloc: Global, surface: &Surface) -> Result<Option<Span>, NoMemory>
    ensures { IfOk result (λ s. s ≡ first (spec.faulty_forms (surface_tree surface.now))) }
{
    faulty_in_items(alloc, surface.items.as_slice())
}
