ghost use Rattle.std.specs.Prelude.{◌≡◌, ◌+◌, ◌*◌, ◌<◌, true, Some, option_map, IfOk};
ghost use Rattle.cx_tsyn.specs.Lins.{lin_tree};
ghost use Rattle.cx_tmeasure.specs.Sizes as sizes;
ghost use Rattle.cx_tmeasure.specs.BadTypes as bad;
ghost use Rattle.cx_tmeasure.specs.Judged as spec;

use cx_base::{NoMemory, Span};
use cx_tnumber::number_of;
use cx_tsyn::Lin;
use std::alloc::Global;

/// How many bytes and cells a type has, without its tail, and whether it has one.
#[derive(Clone, Copy, Debug, PartialEq, Eq)]
pub struct Amount {
    pub size: u64,
    pub cells: u64,
    /// Whether an array of symbolic length stands in it.
    pub tail: bool,
}

/// What is found of a type.
#[derive(Clone, Copy, Debug, PartialEq, Eq)]
pub enum Judged {
    /// The first part of it whose size is wrong.
    Bad(Span),
    /// No size in it is wrong, and it has so much.
    Right(Amount),
}

fn sum(a: u64, b: u64) -> Result<u64, NoMemory>
    ensures { IfOk result (λ s. s ≡ a + b) }
{
    match a.checked_add(b) {
        Some(s) => Ok(s),
        None => Err(NoMemory),
    }
}

fn product(a: u64, b: u64) -> Result<u64, NoMemory>
    ensures { IfOk result (λ p. p ≡ a * b) }
{
    match a.checked_mul(b) {
        Some(p) => Ok(p),
        None => Err(NoMemory),
    }
}

/// Nothing at all.
pub fn nothing() -> Amount
    ensures { result ≡ spec.nothing }
{
    Amount {
        size: 0,
        cells: 0,
        tail: false,
    }
}

/// Both together. More than 2^64 bytes or cells count as such for which memory does not suffice: it
/// takes more parts than any type file has.
pub fn plus(a: Amount, b: Amount) -> Result<Amount, NoMemory>
    ensures { IfOk result (λ all. all ≡ spec.plus a b) }
{
    let size = sum(a.size, b.size)?;
    let cells = sum(a.cells, b.cells)?;
    Ok(Amount {
        size,
        cells,
        tail: a.tail || b.tail,
    })
}

fn fits(n: u64) -> bool
    ensures { result ≡ bad.fits n }
{
    n <= 2147483648
}

/// Whether there are no more cells than a region may have.
pub fn few_cells(cells: u64) -> bool
    ensures { result ≡ bad.few_cells cells }
{
    cells <= 1024
}

// Whether so many elements of at least one byte fit.
fn row_fits(z: i128, each: u64) -> bool
    requires some { 0 < each }
    requires small { bad.fits each ≡ true }
    ensures { result ≡ bad.length_fits (Some z) each 0 }
{
    if z < 0 || 2147483648 < z {
        return false;
    }
    fits(z as u64 * each)
}

fn length_fits(number: Option<i128>, each: Amount) -> bool
    requires some { 0 < each.size }
    requires small { bad.fits each.size ≡ true }
    ensures { result ≡ bad.length_fits number each.size each.cells }
{
    match number {
        None => few_cells(each.cells),
        Some(z) => row_fits(z, each.size),
    }
}

/// Whether an array of this length has the sizes that it may have, where an element has so much; or a
/// type that is no array.
pub fn array_is_right(alloc: Global, times: &Option<Lin>, each: Amount) -> Result<bool, NoMemory>
    ensures { IfOk result (λ right. right ≡ bad.array_is_right (option_map lin_tree times.now) each.size each.cells) }
{
    match times {
        None => Ok(fits(each.size)),
        Some(lin) => {
            if each.size == 0 {
                return Ok(false);
            }
            if !fits(each.size) {
                return Ok(false);
            }
            let number = number_of(alloc, lin)?;
            Ok(length_fits(number, each))
        }
    }
}

fn times_of(number: Option<i128>, each: u64) -> Result<u64, NoMemory>
    ensures { IfOk result (λ all. all ≡ sizes.in_length number each) }
{
    match number {
        None => Ok(0),
        Some(z) => {
            if z < 0 {
                return Ok(0);
            }
            match u64::try_from(z) {
                Ok(turns) => product(turns, each),
                Err(_) => Err(NoMemory),
            }
        }
    }
}

/// What an array of this length has, where an element has so much; or a type that is no array.
pub fn in_row(alloc: Global, times: &Option<Lin>, each: Amount) -> Result<Amount, NoMemory>
    ensures { IfOk result (λ all. all ≡ spec.in_row (option_map lin_tree times.now) each) }
{
    match times {
        None => Ok(each),
        Some(lin) => {
            let number = number_of(alloc, lin)?;
            let size = times_of(number, each.size)?;
            let cells = times_of(number, each.cells)?;
            Ok(Amount {
                size,
                cells,
                tail: number.is_none() || each.tail,
            })
        }
    }
}
