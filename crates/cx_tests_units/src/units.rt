use cx_cread::{UnitFault, read_unit};
use cx_ctree::Unit;
use cx_lex::lex;
use cx_tests_shown::items_text;
use std::alloc::{AllocError, Global};
use std::process::Abort;
use std::test::Fail;

/// The two sides of a line: a text, and what is expected of it.
pub fn sides<'a>(rt: &impl Abort, line: &'a str) -> (&'a str, &'a str) {
    let Some((text, expected)) = line.split_once(" => ") else {
        panic!(rt; "no case: {line}");
    };
    (text, expected)
}

/// What the text is read as, or why it is refused.
pub fn read(rt: &impl Abort, alloc: Global, text: &str) -> Result<Result<Unit, UnitFault>, Fail> {
    let bytes = text.as_bytes();
    assert!(rt; bytes.len() <= 16777216);
    let tokens = lex(alloc, bytes)?;
    assert!(rt; tokens.len() <= 16777216);
    Ok(read_unit(alloc, bytes, tokens.as_slice()))
}

/// The unit that the text is read as.
pub fn unit_of(rt: &impl Abort, alloc: Global, text: &str) -> Result<Unit, Fail> {
    let unit = read(rt, alloc, text)??;
    Ok(unit)
}

/// The text, where there was memory for it.
pub fn made(text: Result<String, AllocError>) -> Result<String, Fail> {
    Ok(text?)
}

/// What the items of the text declare.
pub fn items_of(rt: &impl Abort, alloc: Global, text: &str) -> Result<String, Fail> {
    let unit = unit_of(rt, alloc, text)?;
    made(items_text(alloc, &unit))
}
