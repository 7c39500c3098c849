ghost use Rattle.std.specs.Prelude.{◌≡◌, map, IfOk};
ghost use Rattle.cx_tsyn.specs.Cells.{cell_tree, cell_kind_tree};
ghost use Rattle.cx_tscope.specs.Faults.{first};
ghost use Rattle.cx_tforms.specs.Faulty as spec;

use crate::forms::{faulty_lin, faulty_lins};
use cx_base::{NoMemory, Span};
use cx_tsyn::{SCell, SCellKind};
use std::alloc::Global;

#[tactic(auto, using(cx_tscope::proofs::Faults::first_after, cx_tscope::proofs::Faults::first_in))]
fn faulty_in_kind(alloc: Global, kind: &SCellKind) -> Result<Option<Span>, NoMemory>
    ensures { IfOk result (λ s. s ≡ first (spec.faulty_in_kind (cell_kind_tree kind.now))) }
{
    match kind {
        SCellKind::Any => Ok(None),
        SCellKind::AnyBytes(_) => Ok(None),
        SCellKind::Val(e) => faulty_lin(alloc, e),
        SCellKind::Unsigned(_, e) => faulty_lin(alloc, e),
        SCellKind::Signed(_, e) => faulty_lin(alloc, e),
        SCellKind::Ptr {
            name: _,
            args,
            off,
            null: _,
        } => {
            match faulty_lins(alloc, args.as_slice())? {
                Some(span) => return Ok(Some(span)),
                None => {}
            }
            match off {
                None => Ok(None),
                Some(off) => faulty_lin(alloc, off),
            }
        }
    }
}

/// The first linear form in a cell that is no term.
pub fn faulty_in_cell(alloc: Global, cell: &SCell) -> Result<Option<Span>, NoMemory>
    ensures { IfOk result (λ s. s ≡ first (spec.faulty_in_cell (cell_tree cell.now))) }
{
    faulty_in_kind(alloc, &cell.kind)
}

/// The first linear form in cells that is no term.
#[tactic(auto, using(cx_tscope::proofs::Faults::first_after, cx_tscope::proofs::Faults::first_in))]
pub fn faulty_in_cells(alloc: Global, cells: &[SCell]) -> Result<Option<Span>, NoMemory>
    ensures { IfOk result (λ s. s ≡ first (spec.faulty_in_cells (map cell_tree cells.now))) }
{
    for cell in cells {
        match faulty_in_cell(alloc, cell)? {
            Some(span) => return Ok(Some(span)),
            None => {}
        }
    }
    Ok(None)
}
