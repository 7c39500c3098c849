ghost use Rattle.std.specs.Prelude.{◌↔◌, ◌≤◌, IsTrue, All};

use cx_base::{List, Names, Span, Token};
use cx_cdecl::read_decl;
use cx_citem::{next_item, number_names};
use cx_ctree::{Item, Unit};
use cx_cword::{Lexeme, lexemes};
use cx_lex::lex;
use cx_tests_shown::items_text;
use std::alloc::{AllocError, Global};
use std::process::Abort;
use std::test::Fail;

/// The two sides of a line: a text, and what is expected of it.
pub fn sides<'a>(rt: &impl Abort, line: &'a str) -> (&'a str, &'a str) {
    let Some((text, expected)) = line.split_once(" => ") else {
        panic!(rt; "no case: {line}");
    };
    (text, expected)
}

/// Whether all tokens lie in a text of so many bytes.
pub fn are_inside(length: usize, tokens: &[Token]) -> bool
    ensures { IsTrue result ↔ All (λ t. t.span.past ≤ length) tokens.now }
{
    tokens.iter().all(|t| t.span.past as usize <= length)
}

/// A unit of these names in which nothing is declared.
fn no_declarations(alloc: Global, names: Names) -> Unit {
    Unit {
        names,
        tags: List::new(alloc),
        typedefs: List::new(alloc),
        consts: List::new(alloc),
        enums: List::new(alloc),
        items: List::new(alloc),
        tokens: List::new(alloc),
        named: List::new(alloc),
    }
}

/// What a text declares: the unit after all items that end in it, its tokens and lexemes, and how many
/// of them stand in these items.
#[derive(Drop)]
pub struct Declared {
    pub unit: Unit,
    pub tokens: List<Token>,
    pub lexemes: List<Lexeme>,
    pub read: usize,
}

/// Reads an item as a declaration without a body.
fn read_item(
    rt: &impl Abort,
    alloc: Global,
    bytes: &[u8],
    item: &[Token],
    unit: &mut Unit,
) -> Result<(), Fail> {
    assert!(rt; item.len() <= 16777216);
    assert!(rt; are_inside(bytes.len(), item));
    let read = match read_decl(alloc, bytes, item, unit)? {
        Some(decls) => Item::Known(decls),
        None => Item::Passed(Span { first: 0, past: 0 }),
    };
    unit.items.push(read)?;
    Ok(())
}

/// Reads the items one after another: how many lexemes they have.
fn read_items(
    rt: &impl Abort,
    alloc: Global,
    bytes: &[u8],
    tokens: &[Token],
    lexemes: &[Lexeme],
    unit: &mut Unit,
) -> Result<usize, Fail> {
    let mut rest = lexemes;
    let mut left = tokens;
    for _ in 0..100000 {
        let Some((item, after)) = next_item(alloc, rest)? else {
            break;
        };
        assert!(rt; item.len() <= left.len());
        let (piece, others) = left.split_at(item.len());
        read_item(rt, alloc, bytes, piece, unit)?;
        rest = after;
        left = others;
    }
    Ok(lexemes.len().saturating_sub(rest.len()))
}

/// Reads the items of the text one after another, as declarations without a body.
pub fn declare(rt: &impl Abort, alloc: Global, text: &str) -> Result<Declared, Fail> {
    let bytes = text.as_bytes();
    assert!(rt; bytes.len() <= 16777216);
    let tokens = lex(alloc, bytes)?;
    assert!(rt; tokens.len() <= 16777216);
    let names = number_names(alloc, bytes, tokens.as_slice())?;
    let found = lexemes(alloc, &names, bytes, tokens.as_slice())?;
    let mut unit = no_declarations(alloc, names);
    let read = read_items(
        rt,
        alloc,
        bytes,
        tokens.as_slice(),
        found.as_slice(),
        &mut unit,
    )?;
    Ok(Declared {
        unit,
        tokens,
        lexemes: found,
        read,
    })
}

/// The text, where there was memory for it.
pub fn made(text: Result<String, AllocError>) -> Result<String, Fail> {
    Ok(text?)
}

/// What the text declares, item by item.
pub fn items_of(rt: &impl Abort, alloc: Global, text: &str) -> Result<String, Fail> {
    let found = declare(rt, alloc, text)?;
    made(items_text(alloc, &found.unit))
}
