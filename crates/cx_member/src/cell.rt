ghost use Rattle.std.specs.Prelude.{◌≡◌, ◌≤◌, ◌+◌, ◌^◌, ◌↔◌, IsTrue, All, length, unsigned_abs};
ghost use Rattle.std.specs.List.{AllByRecursion};
ghost use Rattle.cx_base.specs.Number.{HasSize};
ghost use Rattle.cx_cells.specs.Values.{values_of};
ghost use Rattle.cx_cells.specs.Layouts.{layout_of};
ghost use Rattle.cx_cells.specs.Meaning.{number_at, CellHolds};
ghost use Rattle.cx_member.specs.Reading.{AreSmall, bytes_at, HaveCell};

use crate::pointing::points;
use crate::valued::value_of;
use cx_base::{CInt, Memory};
use cx_cells::{CellKind, FlatCell};

fn number_by(memory: &Memory, index: u32, off: u64, size: u32, signed: bool) -> i128
    requires size { HasSize size }
    requires inside { off + size ≤ length (bytes_at memory.now index) }
    ensures { result ≡ number_at (bytes_at memory.now index) off size signed }
{
    let size = size as u8;
    memory.read(index, off, CInt { size, signed })
}

/// The number of this sign that `size` bytes of the region at place `index` write, from the offset on.
pub(crate) fn number_at(memory: &Memory, index: u32, off: u64, size: u32, signed: bool) -> i128
    requires size { HasSize size }
    requires inside { off + size ≤ length (bytes_at memory.now index) }
    ensures value { result ≡ number_at (bytes_at memory.now index) off size signed }
    ensures small { unsigned_abs result ≤ 2 ^ 64 }
{
    number_by(memory, index, off, size, signed)
}

/// Whether the region at place `index` holds the cell, in a head, branch or element that begins at
/// the offset, where the numbers are the values of the symbols.
fn cell_holds(memory: &Memory, index: u32, off: u64, values: &[i128], c: &FlatCell) -> bool
    requires values { AreSmall values.now }
    requires room { length (bytes_at memory.now index) ≤ 2 ^ 47 }
    requires cell { HaveCell (length (bytes_at memory.now index)) off c.now }
    ensures { IsTrue result ↔ CellHolds (values_of values.now) (layout_of memory.now) (bytes_at memory.now index) off c.now }
{
    let from = off + u64::from(c.at);
    match &c.kind {
        CellKind::Any => true,
        CellKind::Val { signed, value } => {
            number_at(memory, index, from, c.size, *signed) == value_of(values, value)
        }
        CellKind::Ptr {
            name,
            args,
            off,
            null,
        } => {
            let z = number_at(memory, index, from, c.size, false);
            points(memory, values, *name, args, off, *null, z)
        }
    }
}

/// Whether it holds each of the cells.
pub(crate) fn cells_hold(
    memory: &Memory,
    index: u32,
    off: u64,
    values: &[i128],
    cells: &[FlatCell],
) -> bool
    requires values { AreSmall values.now }
    requires room { length (bytes_at memory.now index) ≤ 2 ^ 47 }
    requires cells { All (HaveCell (length (bytes_at memory.now index)) off) cells.now }
    ensures { IsTrue result ↔ AllByRecursion (CellHolds (values_of values.now) (layout_of memory.now) (bytes_at memory.now index) off) cells.now }
{
    cells
        .iter()
        .all(|c| cell_holds(memory, index, off, values, c))
}
