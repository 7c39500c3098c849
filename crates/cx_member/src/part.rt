ghost use Rattle.std.specs.Prelude.{◌≤◌, ◌^◌, ◌↔◌, IsTrue, All, Any, length};
ghost use Rattle.cx_cells.specs.Layouts.{layout_of};
ghost use Rattle.cx_cells.specs.Meaning.{PartHolds, BranchHolds, CasesHold};
ghost use Rattle.cx_member.specs.Reading.{AreSmall, bytes_at, HaveCell, PartReads, PartHoldsWith};

use crate::binding::bound_values;
use crate::cell::cells_hold;
use crate::valued::conds_hold;
use cx_base::{List, Memory};
use cx_cells::{CaseBranch, Part};

/// Whether the part holds with these values of the symbols.
fn part_with(memory: &Memory, index: u32, off: u64, values: &[i128], part: &Part) -> bool
    requires small { AreSmall values.now }
    requires room { length (bytes_at memory.now index) ≤ 2 ^ 47 }
    requires cells { All (HaveCell (length (bytes_at memory.now index)) off) part.now.cells }
    ensures { IsTrue result ↔ PartHoldsWith values.now memory.now index off part.now }
{
    conds_hold(values, part.conds.as_slice())
        && cells_hold(memory, index, off, values, part.cells.as_slice())
}

/// Whether the region at place `index` holds the part from the offset on, where the numbers are the
/// values of the symbols before its own.
pub(crate) fn part_holds(memory: &Memory, index: u32, off: u64, known: &[i128], part: &Part) -> bool
    requires small { AreSmall known.now }
    requires room { length (bytes_at memory.now index) ≤ 2 ^ 47 }
    requires part { PartReads (length (bytes_at memory.now index)) off (length known.now) part.now }
    ensures { IsTrue result ↔ PartHolds known.now (layout_of memory.now) (bytes_at memory.now index) off part.now }
{
    let cells = part.cells.as_slice();
    match bound_values(memory, index, off, known, part.binders, cells) {
        Some(values) => part_with(memory, index, off, values.as_slice(), part),
        None => false,
    }
}

/// Whether the guard is true, and the region holds the branch's part.
fn branch_holds(memory: &Memory, index: u32, off: u64, known: &[i128], branch: &CaseBranch) -> bool
    requires small { AreSmall known.now }
    requires room { length (bytes_at memory.now index) ≤ 2 ^ 47 }
    requires part { PartReads (length (bytes_at memory.now index)) off (length known.now) branch.now.part }
    ensures { IsTrue result ↔ BranchHolds known.now (layout_of memory.now) (bytes_at memory.now index) off branch.now }
{
    conds_hold(known, branch.guard.as_slice())
        && part_holds(memory, index, off, known, &branch.part)
}

fn any_branch_holds(
    memory: &Memory,
    index: u32,
    off: u64,
    known: &[i128],
    cases: &[CaseBranch],
) -> bool
    requires small { AreSmall known.now }
    requires room { length (bytes_at memory.now index) ≤ 2 ^ 47 }
    requires cases { All (λ b. PartReads (length (bytes_at memory.now index)) off (length known.now) b.part) cases.now }
    ensures { IsTrue result ↔ Any (BranchHolds known.now (layout_of memory.now) (bytes_at memory.now index) off) cases.now }
{
    cases
        .iter()
        .any(|b| branch_holds(memory, index, off, known, b))
}

/// Whether the region holds some branch, where there are branches.
pub(crate) fn cases_hold(
    memory: &Memory,
    index: u32,
    off: u64,
    known: &[i128],
    cases: &List<CaseBranch>,
) -> bool
    requires small { AreSmall known.now }
    requires room { length (bytes_at memory.now index) ≤ 2 ^ 47 }
    requires cases { All (λ b. PartReads (length (bytes_at memory.now index)) off (length known.now) b.part) cases.now }
    ensures { IsTrue result ↔ CasesHold known.now (layout_of memory.now) (bytes_at memory.now index) off cases.now }
{
    cases.len() == 0 || any_branch_holds(memory, index, off, known, cases.as_slice())
}
