ghost use Rattle.std.specs.Prelude.{◌≡◌, drop, map, option_map};
ghost use Rattle.cx_ctree.specs.Types.{type_tree};
ghost use Rattle.cx_ctree.specs.Decls.{param_tree, signature_tree};
ghost use Rattle.cx_tsyn.specs.Cells.{cell_tree};
ghost use Rattle.cx_tsyn.specs.Items.{func_tree, result_tree};
ghost use Rattle.cx_tscope.specs.Faults.{first};
ghost use Rattle.cx_tsizes.specs.BadSizes as spec;
ghost use Rattle.cx_tmeasure.specs.Views.{known_of};

use crate::cells::cell_is_right;
use cx_base::Span;
use cx_ctree::{CType, Param, Signature};
use cx_tmeasure::{Known, bad_cell, function_of};
use cx_tsyn::{FuncItem, SCell, SResult};

#[tactic(auto, using(cx_tscope::proofs::Faults::first_after, cx_tscope::proofs::Faults::first_in))]
fn bad_cells_alone(known: &Known, cells: &[SCell]) -> Option<Span>
    ensures { result ≡ first (spec.bad_cells_alone (known_of known.now) (map cell_tree cells.now)) }
{
    for cell in cells {
        if let Some(span) = bad_cell(known, None, cell) {
            return Some(span);
        }
    }
    None
}

// A cell beside the parameter that it is for, if there is one.
fn bad_beside(known: &Known, params: &[Param], cell: &SCell) -> Option<Span>
    ensures { result ≡ first (spec.bad_first (known_of known.now) (map param_tree params.now) (cell_tree cell.now)) }
{
    match params {
        [] => bad_cell(known, None, cell),
        [param, ..] => {
            if cell_is_right(known, &param.ctype, cell) {
                return None;
            }
            Some(cell.span)
        }
    }
}

fn behind(params: &[Param]) -> &[Param]
    ensures { map param_tree result.now ≡ drop 1 (map param_tree params.now) }
{
    match params {
        [] => params,
        [_, after @ ..] => after,
    }
}

#[tactic(auto, using(cx_tscope::proofs::Faults::first_after, cx_tscope::proofs::Faults::first_in))]
fn bad_cells(known: &Known, params: &[Param], cells: &[SCell]) -> Option<Span>
    ensures { result ≡ first (spec.bad_cells (known_of known.now) (map param_tree params.now) (map cell_tree cells.now)) }
{
    let mut left = params;
    for cell in cells {
        if let Some(span) = bad_beside(known, left, cell) {
            return Some(span);
        }
        left = behind(left);
    }
    None
}

fn is_void(t: &CType) -> bool
    ensures { result ≡ spec.is_void (type_tree t.now) }
{
    match t {
        CType::Void => true,
        CType::Int(_) => false,
        CType::Ptr(_) => false,
        CType::Array(_, _) => false,
        CType::Tag(_) => false,
    }
}

fn bad_result(known: &Known, t: &CType, span: Span, given: &Option<SResult>) -> Option<Span>
    ensures { result ≡ first (spec.bad_result (known_of known.now) (type_tree t.now) span (option_map result_tree given.now)) }
{
    match given {
        None => {
            if is_void(t) {
                return None;
            }
            Some(span)
        }
        Some(given) => {
            if cell_is_right(known, t, &given.cell) {
                return None;
            }
            Some(given.cell.span)
        }
    }
}

fn bad_result_alone(known: &Known, given: &Option<SResult>) -> Option<Span>
    ensures { result ≡ first (spec.bad_result_alone (known_of known.now) (option_map result_tree given.now)) }
{
    match given {
        None => None,
        Some(given) => bad_cell(known, None, &given.cell),
    }
}

#[tactic(auto, using(cx_tscope::proofs::Faults::first_after, cx_tscope::proofs::Faults::first_in))]
fn bad_alone(known: &Known, function: &FuncItem) -> Option<Span>
    ensures { result ≡ first (spec.bad_alone (known_of known.now) (func_tree function.now)) }
{
    if let Some(span) = bad_cells_alone(known, function.args.as_slice()) {
        return Some(span);
    }
    bad_result_alone(known, &function.result)
}

#[tactic(auto, using(cx_tscope::proofs::Faults::first_after, cx_tscope::proofs::Faults::first_in))]
fn bad_declared(known: &Known, declared: &Signature, function: &FuncItem) -> Option<Span>
    ensures { result ≡ first (spec.bad_declared (known_of known.now) (signature_tree declared.now) (func_tree function.now)) }
{
    if let Some(span) = bad_cells(known, declared.params.as_slice(), function.args.as_slice()) {
        return Some(span);
    }
    bad_result(
        known,
        &declared.result,
        function.result_span,
        &function.result,
    )
}

/// The first cell of a function type, or its `void`, that does not fit the function of C.
pub fn bad_in_function(known: &Known, function: &FuncItem) -> Option<Span>
    ensures { result ≡ first (spec.bad_in_function (known_of known.now) (func_tree function.now)) }
{
    match function_of(known, &function.name) {
        None => bad_alone(known, function),
        Some(declared) => bad_declared(known, declared, function),
    }
}
