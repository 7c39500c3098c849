ghost use Rattle.std.specs.Prelude.{◌↔◌, IsTrue, AllPairs};
ghost use Rattle.cx_cells.specs.Kept.{EndsBefore};

use crate::cell::FlatCell;

fn ends_before(c: &FlatCell, next: &FlatCell) -> bool
    ensures { IsTrue result ↔ EndsBefore c.now next.now }
{
    u64::from(c.at) + u64::from(c.size) <= u64::from(next.at)
}

/// Whether each cell ends before each later one begins. A cell that ends before the next one begins
/// ends before all later ones do where that holds of each, so neighbours alone are tried.
pub(crate) fn are_in_order(cells: &[FlatCell]) -> bool
    ensures { IsTrue result ↔ AllPairs EndsBefore cells.now }
{
    for i in 1..cells.len() {
        if !ends_before(&cells[i - 1], &cells[i]) {
            return false;
        }
    }
    true
}
