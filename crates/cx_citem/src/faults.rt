ghost use Rattle.std.specs.Prelude.{◌≡◌, IfOk};
ghost use Rattle.cx_citem.specs.Items.{unit_fault};
ghost use Rattle.cx_citem.specs.Scanning as scanning;
ghost use Rattle.cx_citem.specs.Scanning.{place_of};

use crate::nesting::Nesting;
use cx_base::{NoMemory, Span};
use cx_cword::{Lexeme, split};
use std::alloc::Global;

/// Why a file has no items.
#[derive(Clone, Copy, Debug, PartialEq, Eq)]
pub enum ItemFault {
    /// The bracket opens the 101st level.
    TooDeep(Span),
    /// The lexeme is a bracket without a partner or a brace that begins an item, or begins an item
    /// without an end.
    Unclosed(Span),
}

fn or_span(span: Option<Span>, other: Option<Span>) -> Option<Span>
    ensures { result ≡ scanning.or_span span other }
{
    match span {
        None => other,
        Some(s) => Some(s),
    }
}

fn found_after(nesting: &Nesting, found: Option<Span>, o: Lexeme) -> Option<Span>
    ensures { result ≡ scanning.found_after (place_of nesting.now) found o }
{
    let here = if nesting.is_misplaced(o.kind) {
        Some(o.span)
    } else {
        None
    };
    or_span(found, here)
}

fn first_after(nesting: &Nesting, first: Option<Span>, o: Lexeme) -> Option<Span>
    ensures { result ≡ scanning.first_after (place_of nesting.now) first o }
{
    if nesting.ends_item(o.kind) {
        None
    } else {
        or_span(first, Some(o.span))
    }
}

fn bottom_after(
    nesting: &Nesting,
    bottom: Option<Span>,
    found: Option<Span>,
    span: Span,
) -> Option<Span>
    ensures { result ≡ scanning.bottom_after (place_of nesting.now).open_ bottom found span }
{
    if nesting.open.len() == 0 {
        return None;
    }
    let here = match found {
        None => Some(span),
        Some(_) => None,
    };
    or_span(bottom, here)
}

fn unclosed_at(span: Option<Span>) -> Option<ItemFault>
    ensures { result ≡ scanning.unclosed_at span }
{
    match span {
        None => None,
        Some(s) => Some(ItemFault::Unclosed(s)),
    }
}

/// Why the lexemes of a file are not the lexemes of items, if they are not.
#[tactic(auto, using(crate::proofs::Unpaired::fault_from_is), unfolding(crate::specs::Scanning::fault_from))]
pub fn fault(alloc: Global, lexemes: &[Lexeme]) -> Result<Option<ItemFault>, NoMemory>
    ensures { IfOk result (λ f. f ≡ unit_fault lexemes.now) }
{
    let mut nesting = Nesting::new(alloc);
    let mut bottom = None;
    let mut found = None;
    let mut first = None;
    let mut rest = lexemes;
    while let Some((o, after)) = split(rest) {
        if nesting.is_deep(o.kind) {
            return Ok(Some(ItemFault::TooDeep(o.span)));
        }
        found = found_after(&nesting, found, o);
        first = first_after(&nesting, first, o);
        nesting.pass(o.kind)?;
        bottom = bottom_after(&nesting, bottom, found, o.span);
        rest = after;
    }
    Ok(unclosed_at(or_span(or_span(bottom, found), first)))
}
