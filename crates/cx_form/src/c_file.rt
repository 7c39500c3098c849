// Readers of the parts of a C file.

ghost use Rattle.std.specs.Prelude.{◌≡◌};
ghost use Rattle.cx_form.specs.Reading as spec;
ghost use Rattle.cx_form.specs.Reading.{Gives, got};

use crate::read::{Stop, is_end, named, next_has, next_names, past, placed, split};
use crate::tree::{CFile, Ending, Function, Member, Parameter, Statement, Struct, ValueType, Word};
use cx_base::{List, Span};
use std::alloc::Global;

/// `unsigned long` or `struct NAME *`
#[tactic(auto, unfolding(crate::specs::Reading::type_at))]
fn value_type<'a>(alloc: Global, tokens: &'a [Word]) -> Result<(ValueType, &'a [Word]), Stop>
    ensures { Gives got result (spec.type_at tokens.now) }
{
    if next_has(b"struct", tokens) {
        let rest = past(b"struct", tokens)?;
        let (tag, rest) = named(alloc, rest)?;
        let rest = past(b"*", rest)?;
        Ok((ValueType::Pointer(tag), rest))
    } else {
        let rest = past(b"unsigned", tokens)?;
        let rest = past(b"long", rest)?;
        Ok((ValueType::UnsignedLong, rest))
    }
}

/// `type NAME ;`
#[tactic(auto, unfolding(crate::specs::Reading::member_at))]
fn member<'a>(alloc: Global, tokens: &'a [Word]) -> Result<(Member, &'a [Word]), Stop>
    ensures { Gives got result (spec.member_at tokens.now) }
{
    let (ctype, rest) = value_type(alloc, tokens)?;
    let (name, rest) = named(alloc, rest)?;
    let rest = past(b";", rest)?;
    Ok((Member { ctype, name }, rest))
}

/// Members, up to a `}`.
#[tactic(auto, using(crate::proofs::Many::many_turn, crate::proofs::Many::many_fails, crate::proofs::Many::many_stops, crate::proofs::Many::many_ends), unfolding(crate::specs::Reading::members_at))]
fn members<'a>(alloc: Global, tokens: &'a [Word]) -> Result<(List<Member>, &'a [Word]), Stop>
    ensures { Gives got result (spec.members_at tokens.now) }
{
    let mut all = List::new(alloc);
    let mut rest = tokens;
    let mut turns = tokens.len();
    while turns > 0 && !next_has(b"}", rest) {
        let (x, after) = member(alloc, rest)?;
        all.push(x)?;
        rest = after;
        turns -= 1;
    }
    Ok((all, rest))
}

/// `struct NAME { members } ;`
#[tactic(auto, unfolding(crate::specs::Reading::struct_at))]
fn structure<'a>(alloc: Global, tokens: &'a [Word]) -> Result<(Struct, &'a [Word]), Stop>
    ensures { Gives got result (spec.struct_at tokens.now) }
{
    let rest = past(b"struct", tokens)?;
    let (name, rest) = named(alloc, rest)?;
    let rest = past(b"{", rest)?;
    let (members, rest) = members(alloc, rest)?;
    let rest = past(b"}", rest)?;
    let rest = past(b";", rest)?;
    Ok((Struct { name, members }, rest))
}

/// The tokens begin with `struct`, some token, and `{`.
fn begins_struct(tokens: &[Word]) -> bool
    ensures { result ≡ spec.begins_struct tokens.now }
{
    match split(tokens) {
        None => false,
        Some((_, rest)) => match split(rest) {
            None => false,
            Some((_, rest)) => next_has(b"struct", tokens) && next_has(b"{", rest),
        },
    }
}

/// Structs, as long as one begins.
#[tactic(auto, using(crate::proofs::Many::many_turn, crate::proofs::Many::many_fails, crate::proofs::Many::many_stops, crate::proofs::Many::many_ends), unfolding(crate::specs::Reading::structs_at))]
fn structs<'a>(alloc: Global, tokens: &'a [Word]) -> Result<(List<Struct>, &'a [Word]), Stop>
    ensures { Gives got result (spec.structs_at tokens.now) }
{
    let mut all = List::new(alloc);
    let mut rest = tokens;
    let mut turns = tokens.len();
    while turns > 0 && begins_struct(rest) {
        let (x, after) = structure(alloc, rest)?;
        all.push(x)?;
        rest = after;
        turns -= 1;
    }
    Ok((all, rest))
}

/// `void` or a type
#[tactic(auto, unfolding(crate::specs::Reading::result_at))]
fn result_type<'a>(
    alloc: Global,
    tokens: &'a [Word],
) -> Result<(Option<ValueType>, &'a [Word]), Stop>
    ensures { Gives got result (spec.result_at tokens.now) }
{
    if next_has(b"void", tokens) {
        let rest = past(b"void", tokens)?;
        Ok((None, rest))
    } else {
        let (ctype, rest) = value_type(alloc, tokens)?;
        Ok((Some(ctype), rest))
    }
}

/// `type NAME`
#[tactic(auto, unfolding(crate::specs::Reading::parameter_at))]
fn parameter<'a>(alloc: Global, tokens: &'a [Word]) -> Result<(Parameter, &'a [Word]), Stop>
    ensures { Gives got result (spec.parameter_at tokens.now) }
{
    let (ctype, rest) = value_type(alloc, tokens)?;
    let (name, rest) = named(alloc, rest)?;
    Ok((Parameter { ctype, name }, rest))
}

/// `, parameter`
fn next_parameter<'a>(alloc: Global, tokens: &'a [Word]) -> Result<(Parameter, &'a [Word]), Stop>
    ensures { Gives got result (spec.next_parameter_at tokens.now) }
{
    let rest = past(b",", tokens)?;
    parameter(alloc, rest)
}

/// Parameters behind those that are read, each after a comma.
#[tactic(auto, using(crate::proofs::Many::many_turn, crate::proofs::Many::many_fails, crate::proofs::Many::many_stops, crate::proofs::Many::many_ends), unfolding(crate::specs::Reading::more_parameters_at))]
fn more_parameters<'a>(
    alloc: Global,
    first: Parameter,
    tokens: &'a [Word],
) -> Result<(List<Parameter>, &'a [Word]), Stop>
    ensures { Gives got result (spec.more_parameters_at first tokens.now) }
{
    let mut all = List::new(alloc);
    all.push(first)?;
    let mut rest = tokens;
    let mut turns = tokens.len();
    while turns > 0 && next_has(b",", rest) {
        let (x, after) = next_parameter(alloc, rest)?;
        all.push(x)?;
        rest = after;
        turns -= 1;
    }
    Ok((all, rest))
}

/// `void`, or parameters with commas between them
#[tactic(auto, unfolding(crate::specs::Reading::parameters_at))]
fn parameters<'a>(alloc: Global, tokens: &'a [Word]) -> Result<(List<Parameter>, &'a [Word]), Stop>
    ensures { Gives got result (spec.parameters_at tokens.now) }
{
    if next_has(b"void", tokens) {
        let rest = past(b"void", tokens)?;
        Ok((List::new(alloc), rest))
    } else {
        let (first, rest) = parameter(alloc, tokens)?;
        more_parameters(alloc, first, rest)
    }
}

/// `= NAME -> NAME ;` after a variable: the pointer and the member
#[tactic(auto, unfolding(crate::specs::Reading::load_at))]
fn load<'a>(alloc: Global, tokens: &'a [Word]) -> Result<((Word, Word), &'a [Word]), Stop>
    ensures { Gives got result (spec.load_at tokens.now) }
{
    let rest = past(b"=", tokens)?;
    let (pointer, rest) = named(alloc, rest)?;
    let rest = past(b"->", rest)?;
    let (member, rest) = named(alloc, rest)?;
    let rest = past(b";", rest)?;
    Ok(((pointer, member), rest))
}

/// `-> NAME = NAME ;` after a pointer: the member and the value
#[tactic(auto, unfolding(crate::specs::Reading::store_at))]
fn store<'a>(alloc: Global, tokens: &'a [Word]) -> Result<((Word, Word), &'a [Word]), Stop>
    ensures { Gives got result (spec.store_at tokens.now) }
{
    let rest = past(b"->", tokens)?;
    let (member, rest) = named(alloc, rest)?;
    let rest = past(b"=", rest)?;
    let (value, rest) = named(alloc, rest)?;
    let rest = past(b";", rest)?;
    Ok(((member, value), rest))
}

/// A load or a store.
#[tactic(auto, unfolding(crate::specs::Reading::statement_at, crate::specs::Reading::tail_at))]
fn statement<'a>(alloc: Global, tokens: &'a [Word]) -> Result<(Statement, &'a [Word]), Stop>
    ensures { Gives got result (spec.statement_at tokens.now) }
{
    let (first, rest) = named(alloc, tokens)?;
    if next_has(b"=", rest) {
        let ((pointer, member), rest) = load(alloc, rest)?;
        Ok((
            Statement::Load {
                target: first,
                pointer,
                member,
            },
            rest,
        ))
    } else {
        let ((member, value), rest) = store(alloc, rest)?;
        Ok((
            Statement::Store {
                pointer: first,
                member,
                value,
            },
            rest,
        ))
    }
}

/// Statements, as long as a NAME follows.
#[tactic(auto, using(crate::proofs::Many::many_turn, crate::proofs::Many::many_fails, crate::proofs::Many::many_stops, crate::proofs::Many::many_ends), unfolding(crate::specs::Reading::statements_at))]
fn statements<'a>(alloc: Global, tokens: &'a [Word]) -> Result<(List<Statement>, &'a [Word]), Stop>
    ensures { Gives got result (spec.statements_at tokens.now) }
{
    let mut all = List::new(alloc);
    let mut rest = tokens;
    let mut turns = tokens.len();
    while turns > 0 && next_names(rest) {
        let (x, after) = statement(alloc, rest)?;
        all.push(x)?;
        rest = after;
        turns -= 1;
    }
    Ok((all, rest))
}

/// The span from one place up to another, if that is not before it.
#[tactic(auto, using(std::proofs::lemmas::Bool::Decides::nat_tests))]
fn span_between(first: u32, past: u32) -> Result<Span, Stop>
    ensures { Gives (λ s. s) result (spec.span_between first past) }
{
    if first <= past {
        Ok(Span { first, past })
    } else {
        Err(Stop::Unread)
    }
}

/// The NAME before a `;`, if there is one.
#[tactic(auto, unfolding(crate::specs::Reading::returned_at))]
fn returned<'a>(alloc: Global, tokens: &'a [Word]) -> Result<(Option<Word>, &'a [Word]), Stop>
    ensures { Gives got result (spec.returned_at tokens.now) }
{
    if next_has(b";", tokens) {
        Ok((None, tokens))
    } else {
        let (name, rest) = named(alloc, tokens)?;
        Ok((Some(name), rest))
    }
}

/// `return ;` or `return NAME ;`
#[tactic(auto, unfolding(crate::specs::Reading::return_at))]
fn return_statement<'a>(
    alloc: Global,
    tokens: &'a [Word],
) -> Result<(Option<Ending>, &'a [Word]), Stop>
    ensures { Gives got result (spec.return_at tokens.now) }
{
    let (begun, rest) = placed(b"return", tokens)?;
    let (value, rest) = returned(alloc, rest)?;
    let (end, rest) = placed(b";", rest)?;
    let span = span_between(begun.first, end.past)?;
    Ok((Some(Ending { span, value }), rest))
}

/// The `return`, if there is one.
#[tactic(auto, unfolding(crate::specs::Reading::ending_at))]
fn ending<'a>(alloc: Global, tokens: &'a [Word]) -> Result<(Option<Ending>, &'a [Word]), Stop>
    ensures { Gives got result (spec.ending_at tokens.now) }
{
    if next_has(b"return", tokens) {
        return_statement(alloc, tokens)
    } else {
        Ok((None, tokens))
    }
}

struct Body {
    body: List<Statement>,
    ending: Option<Ending>,
}

/// `{ statements return }`
#[tactic(auto, unfolding(crate::specs::Reading::block_at))]
fn block<'a>(alloc: Global, tokens: &'a [Word]) -> Result<(Body, &'a [Word]), Stop>
    ensures { Gives got result (spec.block_at tokens.now) }
{
    let rest = past(b"{", tokens)?;
    let (body, rest) = statements(alloc, rest)?;
    let (ending, rest) = ending(alloc, rest)?;
    let rest = past(b"}", rest)?;
    Ok((Body { body, ending }, rest))
}

/// `result NAME ( parameters ) block`
#[tactic(auto, unfolding(crate::specs::Reading::function_at))]
fn function<'a>(alloc: Global, tokens: &'a [Word]) -> Result<(Function, &'a [Word]), Stop>
    ensures { Gives got result (spec.function_at tokens.now) }
{
    let (result, rest) = result_type(alloc, tokens)?;
    let (name, rest) = named(alloc, rest)?;
    let rest = past(b"(", rest)?;
    let (parameters, rest) = parameters(alloc, rest)?;
    let rest = past(b")", rest)?;
    let (block, rest) = block(alloc, rest)?;
    let Body { body, ending } = block;
    Ok((
        Function {
            result,
            name,
            parameters,
            body,
            ending,
        },
        rest,
    ))
}

/// The function, if there are more tokens.
fn optional_function<'a>(
    alloc: Global,
    tokens: &'a [Word],
) -> Result<(Option<Function>, &'a [Word]), Stop>
    ensures { Gives got result (spec.optional_at spec.function_at tokens.now) }
{
    if is_end(tokens) {
        Ok((None, tokens))
    } else {
        let (function, rest) = function(alloc, tokens)?;
        Ok((Some(function), rest))
    }
}

/// The C file that the tokens spell, all of them.
#[tactic(auto, unfolding(crate::specs::Reading::c_file_at))]
pub fn c_file(alloc: Global, tokens: &[Word]) -> Result<CFile, Stop>
    ensures { Gives (λ c. c) result (spec.whole spec.c_file_at tokens.now) }
{
    let (structs, rest) = structs(alloc, tokens)?;
    let (function, rest) = optional_function(alloc, rest)?;
    if is_end(rest) {
        Ok(CFile { structs, function })
    } else {
        Err(Stop::Unread)
    }
}
