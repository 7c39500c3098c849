ghost use Rattle.std.specs.Prelude.{◌≡◌, ◌≤◌, ◌+◌, ◌^◌, length, All, IfOk, IfErr, OnOk, Ok};
ghost use Rattle.cx_lex.specs.Lexed.{lexed};
ghost use Rattle.cx_ctree.specs.Units.{unit_tree};
ghost use Rattle.cx_cword.specs.Reading as reading;
ghost use Rattle.cx_cword.specs.Lexemes.{lexemes as lexemes_of};
ghost use Rattle.cx_citem.specs.Items.{unit_fault, items_of};
ghost use Rattle.cx_citem.specs.Numbering.{numbering};
ghost use Rattle.cx_cread.specs.Reads.{ReadsOnly, IsUnitOf};
ghost use Rattle.cx_cread.specs.Faults.{Tells};
ghost use Rattle.cx_cread.specs.Reading.{InText, Takes, TakesAll, empty_unit};

use crate::fault::UnitFault;
use crate::item::item;
use crate::named::name_functions;
use cx_base::{List, Names, NoMemory, Span, Token};
use cx_citem::{fault, next_item, number_names};
use cx_ctree::{Item, Unit};
use cx_cword::{Lexeme, lexemes, span_between};
use std::alloc::Global;

fn first_of(lexemes: &[Lexeme]) -> u32
    ensures { result ≡ reading.first_of lexemes.now }
{
    match lexemes.first() {
        None => 0,
        Some(o) => o.span.first,
    }
}

#[tactic(auto, using(crate::proofs::Spans::past_parts))]
fn past_of(lexemes: &[Lexeme]) -> u32
    ensures { result ≡ reading.past_of lexemes.now }
{
    match lexemes.last() {
        None => 0,
        Some(o) => o.span.past,
    }
}

fn span_of(lexemes: &[Lexeme]) -> Span
    ensures { result ≡ reading.span_of lexemes.now }
{
    span_between(first_of(lexemes), past_of(lexemes))
}

fn read_item(
    alloc: Global,
    bytes: &[u8],
    lexemes: &[Lexeme],
    unit: &mut Unit,
) -> Result<(), NoMemory>
    requires few { length unit.old.tags + length lexemes.now ≤ 2 ^ 24 }
    requires text { All (InText unit.old.names bytes.now) lexemes.now }
    ensures takes { OnOk result (Takes bytes.now lexemes.now (unit_tree unit.old) (unit_tree unit.new)) }
    ensures few { length unit.new.tags ≤ length unit.old.tags + length lexemes.now }
{
    match item(alloc, lexemes, unit)? {
        Some(declared) => unit.items.push(Item::Known(declared)),
        None => {
            name_functions(alloc, bytes, &unit.names, lexemes, &mut unit.named)?;
            unit.items.push(Item::Passed(span_of(lexemes)))
        }
    }
}

fn read_items(
    alloc: Global,
    bytes: &[u8],
    lexemes: &[Lexeme],
    unit: &mut Unit,
) -> Result<(), NoMemory>
    requires few { length unit.old.tags + length lexemes.now ≤ 2 ^ 24 }
    requires text { All (InText unit.old.names bytes.now) lexemes.now }
    ensures { OnOk result (TakesAll bytes.now (items_of lexemes.now) (unit_tree unit.old) (unit_tree unit.new)) }
{
    let mut rest = lexemes;
    loop {
        match next_item(alloc, rest)? {
            None => return Ok(()),
            Some((first, after)) => {
                read_item(alloc, bytes, first, unit)?;
                rest = after;
            }
        }
    }
}

fn new_unit(alloc: Global, names: Names, tokens: &[Token]) -> Result<Unit, NoMemory>
    ensures { IfOk result (λ u. unit_tree u ≡ empty_unit names tokens.now) }
{
    let mut copied = List::new(alloc);
    for token in tokens {
        copied.push(*token)?;
    }
    Ok(Unit {
        names,
        tags: List::new(alloc),
        typedefs: List::new(alloc),
        consts: List::new(alloc),
        enums: List::new(alloc),
        items: List::new(alloc),
        tokens: copied,
        named: List::new(alloc),
    })
}

/// The items of a C file, each with what it declares, or passed over where it is not derived.
///
/// Where `tokens` are the tokens of the text, the unit is the one unit of the text. `NoMemory` may
/// come in place of any answer.
pub fn read_unit(alloc: Global, bytes: &[u8], tokens: &[Token]) -> Result<Unit, UnitFault>
    requires inside { All (λ t. t.span.past ≤ length bytes.now) tokens.now }
    requires few { length tokens.now ≤ 2 ^ 24 }
    ensures unit { IfOk result (λ u. ReadsOnly bytes.now tokens.now (unit_tree u)) }
    ensures of_text { IfOk result (λ u. lexed bytes.now ≡ Ok tokens.now → IsUnitOf bytes.now (unit_tree u)) }
    ensures fault { IfErr result (λ e. Tells e (unit_fault (lexemes_of (numbering bytes.now tokens.now) bytes.now tokens.now))) }
{
    let names = number_names(alloc, bytes, tokens)?;
    let lexemes = lexemes(alloc, &names, bytes, tokens)?;
    match fault(alloc, lexemes.as_slice())? {
        Some(cause) => return Err(UnitFault::from(cause)),
        None => {}
    }
    let mut unit = new_unit(alloc, names, tokens)?;
    read_items(alloc, bytes, lexemes.as_slice(), &mut unit)?;
    Ok(unit)
}
