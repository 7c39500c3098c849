ghost use Rattle.std.specs.Prelude.{◌≡◌, ◌+ℤ◌, pos, Some, map, IfOk, OnErr};
ghost use Rattle.cx_tsyn.specs.Lins.{lin_part_tree, lin_tree};
ghost use Rattle.cx_tnumber.specs.Numbers as spec;
ghost use Rattle.cx_tnumber.specs.Limits.{IsNoI128, Overflows};
ghost use Rattle.cx_tnumber.specs.Sums.{summed};

use crate::sums::{Sums, sums_of};
use crate::whole::{added, is_one, is_zero};
use cx_base::NoMemory;
use cx_tsyn::{Lin, LinPart};
use std::alloc::Global;

fn is_gone(sums: &Sums, part: &LinPart) -> bool
    ensures { result ≡ spec.is_gone (summed sums.now) (spec.symbol_of (lin_part_tree part.now)) }
{
    match part {
        LinPart::Number(_) => true,
        LinPart::Times(_, word) => sums.is_gone(word.text.as_slice()),
        LinPart::Symbol(word) => sums.is_gone(word.text.as_slice()),
    }
}

fn are_gone(sums: &Sums, rest: &[(bool, LinPart)]) -> bool
    ensures { result ≡ spec.all_gone (summed sums.now) (spec.rest_of (map (λ p. (p.0, lin_part_tree p.1)) rest.now)) }
{
    for signed in rest {
        if !is_gone(sums, &signed.1) {
            return false;
        }
    }
    true
}

/// The number that a linear form is; None exactly where a symbol is left in it. `NoMemory` also where a
/// sum is no `i128` on the way.
#[tactic(auto, using(crate::proofs::Symbols::number_is))]
pub fn number_of(alloc: Global, lin: &Lin) -> Result<Option<i128>, NoMemory>
    ensures { IfOk result (λ n. n ≡ spec.number_of (lin_tree lin.now)) }
{
    let sums = sums_of(alloc, lin)?;
    if is_gone(&sums, &lin.first) && are_gone(&sums, lin.rest.as_slice()) {
        Ok(Some(sums.number()))
    } else {
        Ok(None)
    }
}

fn is_it_or_gone(text: &[u8], sums: &Sums, part: &LinPart) -> bool
    ensures { result ≡ spec.is_it_or_gone text.now (summed sums.now) (spec.symbol_of (lin_part_tree part.now)) }
{
    match part {
        LinPart::Number(_) => true,
        LinPart::Times(_, word) => { word.is(text) || sums.is_gone(word.text.as_slice()) }
        LinPart::Symbol(word) => word.is(text) || sums.is_gone(word.text.as_slice()),
    }
}

fn no_other(text: &[u8], sums: &Sums, rest: &[(bool, LinPart)]) -> bool
    ensures { result ≡ spec.no_other text.now (summed sums.now) (spec.rest_of (map (λ p. (p.0, lin_part_tree p.1)) rest.now)) }
{
    for signed in rest {
        if !is_it_or_gone(text, sums, &signed.1) {
            return false;
        }
    }
    true
}

fn whole_by(text: &[u8], sums: &Sums, lin: &Lin) -> bool
    ensures { result ≡ spec.whole_by text.now (summed sums.now) (spec.parts_of (lin_tree lin.now)) }
{
    if !is_one(sums.of(text)) {
        return false;
    }
    if !is_zero(sums.number()) {
        return false;
    }
    if !is_it_or_gone(text, sums, &lin.first) {
        return false;
    }
    no_other(text, sums, lin.rest.as_slice())
}

/// Whether a linear form is the symbol of this name and nothing else. `NoMemory` also where a sum is no
/// `i128` on the way.
#[tactic(auto, using(crate::proofs::Symbols::whole_is))]
pub fn is_whole(alloc: Global, text: &[u8], lin: &Lin) -> Result<bool, NoMemory>
    ensures { IfOk result (λ whole. whole ≡ spec.is_whole text.now (lin_tree lin.now)) }
{
    let sums = sums_of(alloc, lin)?;
    Ok(whole_by(text, &sums, lin))
}

// The sum of the factors of the symbol, once the part is added too.
fn with_share(total: i128, text: &[u8], minus: bool, part: &LinPart) -> Result<i128, NoMemory>
    ensures value { IfOk result (λ z. z ≡ total +ℤ spec.share (spec.part_of minus (lin_part_tree part.now)) (Some text.now)) }
    ensures err { OnErr result (IsNoI128 (total +ℤ spec.share (spec.part_of minus (lin_part_tree part.now)) (Some text.now))) }
{
    match part {
        LinPart::Number(_) => Ok(total),
        LinPart::Times(z, word) => {
            if word.is(text) {
                added(total, minus, *z)
            } else {
                Ok(total)
            }
        }
        LinPart::Symbol(word) => {
            if word.is(text) {
                added(total, minus, 1)
            } else {
                Ok(total)
            }
        }
    }
}

fn with_rest(first: i128, text: &[u8], rest: &[(bool, LinPart)]) -> Result<i128, NoMemory>
    ensures value { IfOk result (λ z. z ≡ first +ℤ spec.total (spec.rest_of (map (λ p. (p.0, lin_part_tree p.1)) rest.now)) (Some text.now)) }
    ensures err { OnErr result (Overflows first (spec.rest_of (map (λ p. (p.0, lin_part_tree p.1)) rest.now)) (Some text.now)) }
{
    let mut total = first;
    for signed in rest {
        total = with_share(total, text, signed.0, &signed.1)?;
    }
    Ok(total)
}

/// Whether the symbol of this name is left in a linear form. `NoMemory` only where the sum of the
/// factors of the symbol in the first so many of the parts is no `i128`.
pub fn has_symbol(text: &[u8], lin: &Lin) -> Result<bool, NoMemory>
    ensures value { IfOk result (λ left. left ≡ spec.has_symbol text.now (lin_tree lin.now)) }
    ensures err { OnErr result (Overflows (pos 0) (spec.parts_of (lin_tree lin.now)) (Some text.now)) }
{
    let first = with_share(0, text, lin.negative, &lin.first)?;
    let total = with_rest(first, text, lin.rest.as_slice())?;
    Ok(!is_zero(total))
}
