use crate::units::{items_of, made, sides};
use std::alloc::{AllocError, Global};
use std::process::Abort;
use std::test::Fail;

/// What stands before a part, the part, which is repeated, what stands after it, and what the whole
/// declares.
const OPERATORS: &str = "int a[ ... - ... 1]; => passed
int a[ ... sizeof ... 1]; => passed
int a[ ... * ... 1]; => passed
int ... * ... x; => passed";

const PARTS: &str = "int a[ ... ! ... 1]; => passed
int a[ ... (int) ... 1]; => passed
int a[ ... 1 + ... 1]; => passed
int a[ ... 1 ? 1 : ... 1]; => passed
int a[ ... 1 ? ... 1]; => passed
int ... * const ... x; => passed
int f(int ... * ... x); => passed
struct s { int ... * ... x; }; => passed
int x ... [1] ... ; => passed
int ... const ... x; => x: i32
int ... long ... x; => passed";

/// What stands before and after the first dots.
fn around<'a>(rt: &impl Abort, line: &'a str) -> (&'a str, &'a str) {
    let Some((before, after)) = line.split_once(" ... ") else {
        panic!(rt; "no part: {line}");
    };
    (before, after)
}

/// So many times the part.
fn repeated(alloc: Global, n: usize, part: &str) -> Result<String, AllocError> {
    let spaced = format!(in alloc; "{part} ")?;
    spaced.repeat(alloc, n)
}

/// So many times the part between two texts.
fn between(
    alloc: Global,
    n: usize,
    first: &str,
    part: &str,
    last: &str,
) -> Result<String, AllocError> {
    let parts = repeated(alloc, n, part)?;
    format!(in alloc; "{first} {parts}{last}")
}

/// What the text declares with so many times the part.
fn deep(
    rt: &impl Abort,
    alloc: Global,
    n: usize,
    first: &str,
    part: &str,
    last: &str,
) -> Result<String, Fail> {
    let text = made(between(alloc, n, first, part, last))?;
    items_of(rt, alloc, &text)
}

/// Compares what the declaration of a line declares, its part repeated so often, with what is expected.
fn check_line(rt: &impl Abort, alloc: Global, n: usize, line: &str) -> Result<(), Fail> {
    let (before, expected) = sides(rt, line);
    let (first, others) = around(rt, before);
    let (part, last) = around(rt, others);
    let found = deep(rt, alloc, n, first, part, last)?;
    assert_eq!(rt; found.as_str(), expected);
    Ok(())
}

fn check(rt: &impl Abort, alloc: Global, n: usize, table: &str) -> Result<(), Fail> {
    for line in table.lines() {
        check_line(rt, alloc, n, line)?;
    }
    Ok(())
}

#[test]
fn repeated_operators(rt: HostRuntime) -> Result<(), Fail> {
    check(&rt, rt.alloc(), 100000, OPERATORS)
}

#[test]
fn repeated_parts(rt: HostRuntime) -> Result<(), Fail> {
    check(&rt, rt.alloc(), 10000, PARTS)
}
