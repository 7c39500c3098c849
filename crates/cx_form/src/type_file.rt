// Readers of the parts of a type file.

ghost use Rattle.std.specs.Prelude.{◌≡◌};
ghost use Rattle.cx_form.specs.Reading as spec;
ghost use Rattle.cx_form.specs.Reading.{Gives, got};

use crate::read::{Stop, is_end, named, next_has, next_names, past};
use crate::tree::{Argument, Cell, FunctionType, RegionType, TypeFile, Word};
use cx_base::List;
use std::alloc::Global;

/// `any` or `ptr NAME`
#[tactic(auto, unfolding(crate::specs::Reading::argument_at))]
fn argument<'a>(alloc: Global, tokens: &'a [Word]) -> Result<(Argument, &'a [Word]), Stop>
    ensures { Gives got result (spec.argument_at tokens.now) }
{
    if next_has(b"any", tokens) {
        let rest = past(b"any", tokens)?;
        Ok((Argument::Any, rest))
    } else {
        let rest = past(b"ptr", tokens)?;
        let (name, rest) = named(alloc, rest)?;
        Ok((Argument::Pointer(name), rest))
    }
}

/// `any8` or `ptr NAME`
#[tactic(auto, unfolding(crate::specs::Reading::held_at))]
fn held<'a>(alloc: Global, tokens: &'a [Word]) -> Result<(Argument, &'a [Word]), Stop>
    ensures { Gives got result (spec.held_at tokens.now) }
{
    if next_has(b"any8", tokens) {
        let rest = past(b"any8", tokens)?;
        Ok((Argument::Any, rest))
    } else {
        let rest = past(b"ptr", tokens)?;
        let (name, rest) = named(alloc, rest)?;
        Ok((Argument::Pointer(name), rest))
    }
}

/// `NAME : held ;`
#[tactic(auto, unfolding(crate::specs::Reading::cell_at))]
fn cell<'a>(alloc: Global, tokens: &'a [Word]) -> Result<(Cell, &'a [Word]), Stop>
    ensures { Gives got result (spec.cell_at tokens.now) }
{
    let (member, rest) = named(alloc, tokens)?;
    let rest = past(b":", rest)?;
    let (holds, rest) = held(alloc, rest)?;
    let rest = past(b";", rest)?;
    Ok((Cell { member, holds }, rest))
}

/// Cells, as long as a NAME follows.
#[tactic(auto, using(crate::proofs::Many::many_turn, crate::proofs::Many::many_fails, crate::proofs::Many::many_stops, crate::proofs::Many::many_ends), unfolding(crate::specs::Reading::cells_at))]
fn cells<'a>(alloc: Global, tokens: &'a [Word]) -> Result<(List<Cell>, &'a [Word]), Stop>
    ensures { Gives got result (spec.cells_at tokens.now) }
{
    let mut all = List::new(alloc);
    let mut rest = tokens;
    let mut turns = tokens.len();
    while turns > 0 && next_names(rest) {
        let (x, after) = cell(alloc, rest)?;
        all.push(x)?;
        rest = after;
        turns -= 1;
    }
    Ok((all, rest))
}

/// `region NAME = struct NAME { cells } ;`
#[tactic(auto, unfolding(crate::specs::Reading::region_at))]
fn region<'a>(alloc: Global, tokens: &'a [Word]) -> Result<(RegionType, &'a [Word]), Stop>
    ensures { Gives got result (spec.region_at tokens.now) }
{
    let rest = past(b"region", tokens)?;
    let (name, rest) = named(alloc, rest)?;
    let rest = past(b"=", rest)?;
    let rest = past(b"struct", rest)?;
    let (tag, rest) = named(alloc, rest)?;
    let rest = past(b"{", rest)?;
    let (cells, rest) = cells(alloc, rest)?;
    let rest = past(b"}", rest)?;
    let rest = past(b";", rest)?;
    Ok((RegionType { name, tag, cells }, rest))
}

/// Regions, as long as one begins.
#[tactic(auto, using(crate::proofs::Many::many_turn, crate::proofs::Many::many_fails, crate::proofs::Many::many_stops, crate::proofs::Many::many_ends), unfolding(crate::specs::Reading::regions_at))]
fn regions<'a>(alloc: Global, tokens: &'a [Word]) -> Result<(List<RegionType>, &'a [Word]), Stop>
    ensures { Gives got result (spec.regions_at tokens.now) }
{
    let mut all = List::new(alloc);
    let mut rest = tokens;
    let mut turns = tokens.len();
    while turns > 0 && next_has(b"region", rest) {
        let (x, after) = region(alloc, rest)?;
        all.push(x)?;
        rest = after;
        turns -= 1;
    }
    Ok((all, rest))
}

/// `, argument`
fn next_argument<'a>(alloc: Global, tokens: &'a [Word]) -> Result<(Argument, &'a [Word]), Stop>
    ensures { Gives got result (spec.next_argument_at tokens.now) }
{
    let rest = past(b",", tokens)?;
    argument(alloc, rest)
}

/// Arguments behind the first, each after a comma.
#[tactic(auto, using(crate::proofs::Many::many_turn, crate::proofs::Many::many_fails, crate::proofs::Many::many_stops, crate::proofs::Many::many_ends), unfolding(crate::specs::Reading::more_arguments_at))]
fn more_arguments<'a>(
    alloc: Global,
    first: Argument,
    tokens: &'a [Word],
) -> Result<(List<Argument>, &'a [Word]), Stop>
    ensures { Gives got result (spec.more_arguments_at first tokens.now) }
{
    let mut all = List::new(alloc);
    all.push(first)?;
    let mut rest = tokens;
    let mut turns = tokens.len();
    while turns > 0 && next_has(b",", rest) {
        let (x, after) = next_argument(alloc, rest)?;
        all.push(x)?;
        rest = after;
        turns -= 1;
    }
    Ok((all, rest))
}

/// Arguments with commas between them, none before a `)`.
#[tactic(auto, unfolding(crate::specs::Reading::arguments_at))]
fn arguments<'a>(alloc: Global, tokens: &'a [Word]) -> Result<(List<Argument>, &'a [Word]), Stop>
    ensures { Gives got result (spec.arguments_at tokens.now) }
{
    if next_has(b")", tokens) {
        Ok((List::new(alloc), tokens))
    } else {
        let (first, rest) = argument(alloc, tokens)?;
        more_arguments(alloc, first, rest)
    }
}

/// `void` or an argument
#[tactic(auto, unfolding(crate::specs::Reading::answer_at))]
fn answer<'a>(alloc: Global, tokens: &'a [Word]) -> Result<(Option<Argument>, &'a [Word]), Stop>
    ensures { Gives got result (spec.answer_at tokens.now) }
{
    if next_has(b"void", tokens) {
        let rest = past(b"void", tokens)?;
        Ok((None, rest))
    } else {
        let (held, rest) = argument(alloc, tokens)?;
        Ok((Some(held), rest))
    }
}

/// `fn NAME ( arguments ) -> answer ;`
#[tactic(auto, unfolding(crate::specs::Reading::function_type_at))]
fn function_type<'a>(alloc: Global, tokens: &'a [Word]) -> Result<(FunctionType, &'a [Word]), Stop>
    ensures { Gives got result (spec.function_type_at tokens.now) }
{
    let rest = past(b"fn", tokens)?;
    let (name, rest) = named(alloc, rest)?;
    let rest = past(b"(", rest)?;
    let (arguments, rest) = arguments(alloc, rest)?;
    let rest = past(b")", rest)?;
    let rest = past(b"->", rest)?;
    let (result, rest) = answer(alloc, rest)?;
    let rest = past(b";", rest)?;
    Ok((
        FunctionType {
            name,
            arguments,
            result,
        },
        rest,
    ))
}

/// The line of the function, if there are more tokens.
fn optional_function_type<'a>(
    alloc: Global,
    tokens: &'a [Word],
) -> Result<(Option<FunctionType>, &'a [Word]), Stop>
    ensures { Gives got result (spec.optional_at spec.function_type_at tokens.now) }
{
    if is_end(tokens) {
        Ok((None, tokens))
    } else {
        let (function, rest) = function_type(alloc, tokens)?;
        Ok((Some(function), rest))
    }
}

/// The type file that the tokens spell, all of them.
#[tactic(auto, unfolding(crate::specs::Reading::type_file_at))]
pub fn type_file(alloc: Global, tokens: &[Word]) -> Result<TypeFile, Stop>
    ensures { Gives (λ t. t) result (spec.whole spec.type_file_at tokens.now) }
{
    let (regions, rest) = regions(alloc, tokens)?;
    let (function, rest) = optional_function_type(alloc, rest)?;
    if is_end(rest) {
        Ok(TypeFile { regions, function })
    } else {
        Err(Stop::Unread)
    }
}
