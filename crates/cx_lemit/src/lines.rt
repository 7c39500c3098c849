//! Lines that are common to all code.

ghost use Rattle.std.specs.Prelude.{◌≡◌, ◌<◌, OnOk};
ghost use Rattle.cx_ctree.specs.Types.{type_tree};
ghost use Rattle.cx_lcode.specs.Items as items;
ghost use Rattle.cx_lcode.specs.Values as codes;
ghost use Rattle.cx_lemit.specs.Made.{Emits, truth_code};

use crate::builder::{Builder, line, start};
use cx_base::{CInt, NoMemory, Span};
use cx_cmean::is_same;
use cx_ctree::CType;
use cx_ctype::unsigned_long;
use cx_goto::{End, Instr, Op};

/// Converts a local, where the types differ.
pub fn convert(code: &mut Builder, span: Span, from: CInt, to: CInt, t: u32) -> Result<(), NoMemory>
    ensures { OnOk result (Emits code.old code.new (items.converts span from to t)) }
{
    if is_same(from, to) {
        Ok(())
    } else {
        line(code, span, Instr::Conv(t, to))
    }
}

/// The local times a size, by the next local.
pub fn scale(code: &mut Builder, span: Span, size: u64, t: u32) -> Result<(), NoMemory>
    requires { t < 128 }
    ensures { OnOk result (Emits code.old code.new (codes.scaled span size t)) }
{
    line(code, span, Instr::Const(t + 1, size as i128))?;
    line(
        code,
        span,
        Instr::Bin(t, Op::Mul, unsigned_long(), t, t + 1),
    )
}

/// What stands at the address in the local, which takes its place.
pub fn object(code: &mut Builder, span: Span, ctype: &CType, t: u32) -> Result<(), NoMemory>
    ensures { OnOk result (Emits code.old code.new (codes.object_code span (type_tree ctype.now) t)) }
{
    match ctype {
        CType::Int(number) => line(code, span, Instr::Load(t, *number, t)),
        CType::Ptr(_) => line(code, span, Instr::Load(t, unsigned_long(), t)),
        CType::Void | CType::Array(_, _) | CType::Tag(_) => Ok(()),
    }
}

/// The address in the local, so many bytes further on.
pub fn further(code: &mut Builder, span: Span, off: u64, t: u32) -> Result<(), NoMemory>
    requires { t < 128 }
    ensures { OnOk result (Emits code.old code.new (codes.further_code span off t)) }
{
    if off == 0 {
        return Ok(());
    }
    line(code, span, Instr::Const(t + 1, off as i128))?;
    line(
        code,
        span,
        Instr::Bin(t, Op::Add, unsigned_long(), t, t + 1),
    )
}

/// The two blocks that leave 1 or 0 in the local, and go on with block `end`; jumps have the place
/// `jump`.
pub fn truth(code: &mut Builder, jump: Span, span: Span, t: u32, end: u32) -> Result<(), NoMemory>
    requires { t < 128 }
    ensures { OnOk result (Emits code.old code.new (truth_code jump span t end)) }
{
    line(code, span, Instr::Const(t, 1))?;
    start(code, End::Jump(end), jump, t)?;
    line(code, span, Instr::Const(t, 0))?;
    start(code, End::Jump(end), jump, t + 1)
}
