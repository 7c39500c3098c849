ghost use Rattle.std.specs.Prelude.{◌≡◌, ◌==◌, ◌*◌, ◌+ℤ◌, ◌*ℤ◌, Some, map, IfOk};
ghost use Rattle.cx_tsyn.specs.Words.{word_tree};
ghost use Rattle.cx_tsyn.specs.Lins.{lin_tree};
ghost use Rattle.cx_tnumber.specs.Sums.{summed};
ghost use Rattle.cx_tsizes.specs.Regions as spec;
ghost use Rattle.cx_tsizes.specs.BadSizes.{both_same};

use cx_base::NoMemory;
use cx_tnumber::{Sums, sums_of};
use cx_tsyn::{Lin, Word};
use std::alloc::Global;

fn sum(a: i128, b: i128) -> Result<i128, NoMemory>
    ensures { IfOk result (λ s. s ≡ a +ℤ b) }
{
    match a.checked_add(b) {
        Some(s) => Ok(s),
        None => Err(NoMemory),
    }
}

fn product(a: i128, b: i128) -> Result<i128, NoMemory>
    ensures { IfOk result (λ p. p ≡ a *ℤ b) }
{
    match a.checked_mul(b) {
        Some(p) => Ok(p),
        None => Err(NoMemory),
    }
}

// What the symbols come to, each parameter at its argument.
fn value_at(sums: &Sums, params: &[Word], args: &[i128]) -> Result<i128, NoMemory>
    ensures { IfOk result (λ z. z ≡ spec.value_at (summed sums.now) (map word_tree params.now) args.now) }
{
    match params {
        [] => Ok(0),
        [param, others @ ..] => match args {
            [] => Ok(0),
            [arg, left @ ..] => {
                let first = product(sums.of(param.text.as_slice()), *arg)?;
                let rest = value_at(sums, others, left)?;
                sum(first, rest)
            }
        },
    }
}

/// What a linear form comes to, with these arguments for these parameters. A value that is no `i128`
/// counts as one for which memory does not suffice: no linear form of a type file has one.
pub fn form_value(
    alloc: Global,
    lin: &Lin,
    params: &[Word],
    args: &[i128],
) -> Result<i128, NoMemory>
    ensures { IfOk result (λ z. z ≡ spec.form_value (lin_tree lin.now) (map word_tree params.now) args.now) }
{
    let sums = sums_of(alloc, lin)?;
    let symbols = value_at(&sums, params, args)?;
    sum(sums.number(), symbols)
}

// Whether so many elements take so many bytes.
fn row_takes(turns: u128, each: u64, bytes: u64) -> bool
    ensures { result ≡ (bytes == turns * each) }
{
    if each == 0 {
        return bytes == 0;
    }
    bytes % each == 0 && u128::from(bytes / each) == turns
}

/// Whether a head and an array of this length take so many bytes; no array has a length below 0. No
/// number is cut: the length is compared with the quotient.
pub fn tail_takes(head: u64, turns: i128, each: u64, bytes: u64) -> bool
    ensures { result ≡ both_same (Some bytes) (spec.with_tail head turns each) }
{
    if turns < 0 || bytes < head {
        return false;
    }
    row_takes(turns.unsigned_abs(), each, bytes - head)
}
