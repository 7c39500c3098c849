ghost use Rattle.std.specs.Prelude.{◌≡◌, map, option_map, IfOk};
ghost use Rattle.cx_tsyn.specs.Lins.{lin_tree};
ghost use Rattle.cx_tsyn.specs.Cells.{cell_tree, cell_kind_tree};
ghost use Rattle.cx_tbinders.specs.Uses as spec;

use cx_base::NoMemory;
use cx_tnumber::{has_symbol, is_whole, number_of};
use cx_tsyn::{Lin, SCell, SCellKind};
use std::alloc::Global;

/// The first occurrence of a symbol in cells.
#[derive(Clone, Copy, Debug, PartialEq, Eq)]
pub enum Use {
    /// There is none.
    Absent,
    /// It is the whole of what a cell holds, or of an argument of an address.
    Whole,
    /// It is less.
    Partial,
}

/// Whether the occurrence determines the symbol.
pub fn determines(found: Use) -> bool
    ensures { result ≡ spec.determines found }
{
    match found {
        Use::Absent => false,
        Use::Whole => true,
        Use::Partial => false,
    }
}

/// The same where a whole occurrence does not do, unless it is firm.
pub fn if_firm(firm: bool, found: Use) -> Use
    ensures { result ≡ spec.if_firm firm found }
{
    match found {
        Use::Absent => Use::Absent,
        Use::Whole => { if firm { Use::Whole } else { Use::Partial } }
        Use::Partial => Use::Partial,
    }
}

fn use_in(alloc: Global, text: &[u8], lin: &Lin) -> Result<Use, NoMemory>
    ensures { IfOk result (λ u. u ≡ spec.use_in text.now (lin_tree lin.now)) }
{
    if !has_symbol(text, lin)? {
        return Ok(Use::Absent);
    }
    if is_whole(alloc, text, lin)? {
        return Ok(Use::Whole);
    }
    Ok(Use::Partial)
}

fn use_in_args(alloc: Global, firm: bool, text: &[u8], args: &[Lin]) -> Result<Use, NoMemory>
    ensures { IfOk result (λ u. u ≡ spec.use_in_args firm text.now (map lin_tree args.now)) }
{
    for arg in args {
        match if_firm(firm, use_in(alloc, text, arg)?) {
            Use::Absent => {}
            Use::Whole => return Ok(Use::Whole),
            Use::Partial => return Ok(Use::Partial),
        }
    }
    Ok(Use::Absent)
}

fn use_in_offset(alloc: Global, text: &[u8], off: &Option<Lin>) -> Result<Use, NoMemory>
    ensures { IfOk result (λ u. u ≡ spec.use_in_offset text.now (option_map lin_tree off.now)) }
{
    match off {
        None => Ok(Use::Absent),
        Some(lin) => {
            let found = use_in(alloc, text, lin)?;
            Ok(if_firm(false, found))
        }
    }
}

/// Whether there is no offset, or it is a number.
fn is_fixed(alloc: Global, off: &Option<Lin>) -> Result<bool, NoMemory>
    ensures { IfOk result (λ fixed. fixed ≡ spec.is_fixed (option_map lin_tree off.now)) }
{
    match off {
        None => Ok(true),
        Some(lin) => {
            let number = number_of(alloc, lin)?;
            Ok(number.is_some())
        }
    }
}

fn use_in_address(
    alloc: Global,
    text: &[u8],
    args: &[Lin],
    off: &Option<Lin>,
    null: bool,
) -> Result<Use, NoMemory>
    ensures { IfOk result (λ u. u ≡ spec.use_in_address text.now (map lin_tree args.now) (option_map lin_tree off.now) null) }
{
    let fixed = is_fixed(alloc, off)?;
    match use_in_args(alloc, !null && fixed, text, args)? {
        Use::Absent => use_in_offset(alloc, text, off),
        Use::Whole => Ok(Use::Whole),
        Use::Partial => Ok(Use::Partial),
    }
}

/// The first occurrence in a cell of this kind.
pub fn use_in_kind(alloc: Global, text: &[u8], kind: &SCellKind) -> Result<Use, NoMemory>
    ensures { IfOk result (λ u. u ≡ spec.use_in_kind text.now (cell_kind_tree kind.now)) }
{
    match kind {
        SCellKind::Any => Ok(Use::Absent),
        SCellKind::AnyBytes(_) => Ok(Use::Absent),
        SCellKind::Val(e) => use_in(alloc, text, e),
        SCellKind::Unsigned(_, e) => use_in(alloc, text, e),
        SCellKind::Signed(_, e) => use_in(alloc, text, e),
        SCellKind::Ptr {
            name: _,
            args,
            off,
            null,
        } => use_in_address(alloc, text, args.as_slice(), off, *null),
    }
}

/// The first occurrence in cells.
pub fn use_in_cells(alloc: Global, text: &[u8], cells: &[SCell]) -> Result<Use, NoMemory>
    ensures { IfOk result (λ u. u ≡ spec.use_in_cells text.now (map cell_tree cells.now)) }
{
    for cell in cells {
        match use_in_kind(alloc, text, &cell.kind)? {
            Use::Absent => {}
            Use::Whole => return Ok(Use::Whole),
            Use::Partial => return Ok(Use::Partial),
        }
    }
    Ok(Use::Absent)
}

fn no_turn(number: Option<i128>) -> bool
    ensures { result ≡ spec.no_turn number }
{
    match number {
        None => false,
        Some(z) => !z.is_positive(),
    }
}

/// Whether an array of this length has no element.
pub fn is_none(alloc: Global, times: &Option<Lin>) -> Result<bool, NoMemory>
    ensures { IfOk result (λ none. none ≡ spec.is_none (option_map lin_tree times.now)) }
{
    match times {
        None => Ok(false),
        Some(lin) => {
            let number = number_of(alloc, lin)?;
            Ok(no_turn(number))
        }
    }
}
