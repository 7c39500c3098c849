ghost use Rattle.std.specs.Prelude.{◌≡◌, ◌++◌, ◌≤◌, ◌^◌, length, OnOk, codes, decimal};
ghost use Rattle.cx_base.specs.Place.{line_of, column_of};
ghost use Rattle.cx_run.specs.Positions.{IsIn};
ghost use Rattle.cx_run.specs.Report.{place};

use cx_base::{List, NoMemory, Span, place_after, place_of};
use std::alloc::Global;

/// Adds the bytes at the end.
pub(crate) fn push_all(out: &mut List<u8>, bytes: &[u8]) -> Result<(), NoMemory>
    ensures { OnOk result (out.new ≡ out.old ++ bytes.now) }
{
    for b in bytes {
        out.push(*b)?;
    }
    Ok(())
}

/// Adds the text at the end.
pub(crate) fn push_text(out: &mut List<u8>, text: &str) -> Result<(), NoMemory>
    ensures { OnOk result (out.new ≡ out.old ++ text.now) }
{
    push_all(out, text.as_bytes())
}

/// Adds the number at the end, in decimal digits.
pub(crate) fn push_number(out: &mut List<u8>, n: u64) -> Result<(), NoMemory>
    ensures { OnOk result (out.new ≡ out.old ++ decimal n) }
{
    let digits = n.to_string(out.alloc())?;
    push_all(out, digits.as_bytes())
}

/// An offset in the source with its line and its column, both counted from 1.
#[derive(Clone, Copy)]
pub(crate) struct Position {
    pub at: u32,
    pub line: u32,
    pub column: u32,
}

/// The position of the source's first byte.
pub(crate) fn first_position(source: &[u8]) -> Position
    requires { length source.now ≤ 2 ^ 24 }
    ensures { IsIn source.now result }
{
    let (line, column) = place_of(source, 0);
    Position {
        at: 0,
        line,
        column,
    }
}

/// The position of a later byte is counted on from the known one, that of an earlier byte anew.
fn position_of(source: &[u8], known: Position, at: u32) -> Position
    requires small { length source.now ≤ 2 ^ 24 }
    requires known { IsIn source.now known }
    requires inside { at ≤ length source.now }
    ensures known { IsIn source.now result }
    ensures at { result.at ≡ at }
{
    let (line, column) = if known.at <= at {
        place_after(source, known.at, (known.line, known.column), at)
    } else {
        place_of(source, at)
    };
    Position { at, line, column }
}

/// The position of the byte at an offset, or of the text's end where that comes first.
fn position_within(source: &[u8], known: Position, at: u32) -> Position
    requires small { length source.now ≤ 2 ^ 24 }
    requires known { IsIn source.now known }
    ensures known { IsIn source.now result }
    ensures line { result.line ≡ line_of source.now at }
    ensures column { result.column ≡ column_of source.now at }
{
    let within = (at as usize).min(source.len());
    position_of(source, known, within as u32)
}

/// Adds a place at the end: line, column and number of bytes, as `3:7+7`. It is counted on from the
/// known position, which becomes that of the span.
pub(crate) fn push_place(
    out: &mut List<u8>,
    source: &[u8],
    known: &mut Position,
    span: Span,
) -> Result<(), NoMemory>
    requires small { length source.now ≤ 2 ^ 24 }
    requires known { IsIn source.now known.old }
    ensures known { IsIn source.now known.new }
    ensures pushed { OnOk result (out.new ≡ out.old ++ place source.now span) }
{
    *known = position_within(source, *known, span.first);
    push_number(out, u64::from(known.line))?;
    push_text(out, ":")?;
    push_number(out, u64::from(known.column))?;
    push_text(out, "+")?;
    push_number(out, u64::from(span.past - span.first))
}
