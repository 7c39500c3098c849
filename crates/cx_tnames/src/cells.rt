ghost use Rattle.std.specs.Prelude.{◌≡◌, map};
ghost use Rattle.cx_tsyn.specs.Cells.{cell_tree, cell_kind_tree};
ghost use Rattle.cx_tscope.specs.Faults.{first};
ghost use Rattle.cx_tnames.specs.Unknown as spec;

use crate::lins::{unknown_in_lin, unknown_in_lins};
use cx_base::Span;
use cx_tscope::{Scope, unknown_word};
use cx_tsyn::{SCell, SCellKind};

#[tactic(auto, using(cx_tscope::proofs::Faults::first_after, cx_tscope::proofs::Faults::first_in))]
fn unknown_in_kind(regions: &Scope, names: &Scope, kind: &SCellKind) -> Option<Span>
    ensures { result ≡ first (spec.unknown_in_kind regions.now names.now (cell_kind_tree kind.now)) }
{
    match kind {
        SCellKind::Any => None,
        SCellKind::AnyBytes(_) => None,
        SCellKind::Val(e) => unknown_in_lin(names, e),
        SCellKind::Unsigned(_, e) => unknown_in_lin(names, e),
        SCellKind::Signed(_, e) => unknown_in_lin(names, e),
        SCellKind::Ptr {
            name,
            args,
            off,
            null: _,
        } => {
            if let Some(span) = unknown_word(regions, name) {
                return Some(span);
            }
            if let Some(span) = unknown_in_lins(names, args.as_slice()) {
                return Some(span);
            }
            match off {
                None => None,
                Some(off) => unknown_in_lin(names, off),
            }
        }
    }
}

/// The first name in a cell that is not known.
pub fn unknown_in_cell(regions: &Scope, names: &Scope, cell: &SCell) -> Option<Span>
    ensures { result ≡ first (spec.unknown_in_cell regions.now names.now (cell_tree cell.now)) }
{
    unknown_in_kind(regions, names, &cell.kind)
}

/// The first name in cells that is not known.
#[tactic(auto, using(cx_tscope::proofs::Faults::first_after, cx_tscope::proofs::Faults::first_in))]
pub fn unknown_in_cells(regions: &Scope, names: &Scope, cells: &[SCell]) -> Option<Span>
    ensures { result ≡ first (spec.unknown_in_cells regions.now names.now (map cell_tree cells.now)) }
{
    for cell in cells {
        if let Some(span) = unknown_in_cell(regions, names, cell) {
            return Some(span);
        }
    }
    None
}
