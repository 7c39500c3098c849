use crate::typed::typed_text;
use std::alloc::{AllocError, Global};
use std::process::Abort;
use std::test::Fail;

/// What stands before a part, the part, and what stands after it.
const DEEP: &str = "int f(int a) { return ... - ... a; }
int f(int a) { a = ... ! ... a; return a; }
int f(int *a) { return ... sizeof ... *a; }
int f(int a) { ... while (a) ... ; return a; }
int f(int a) { ... if (a) ; else ... ; return a; }
int f(int a) { ... for (;;) ... ; return a; }";

/// As before, of what may stand in a row.
const LONG: &str = "int f(int a) { ... a = a + 1; ... return a; }
int f(int a) { ... { long a; } ... return a; }
int f(int a) { switch (a) { case 0: ... switch (a) { default: ; } ... } return a; }";

/// So many times the part between two texts.
fn between(
    alloc: Global,
    n: usize,
    first: &str,
    part: &str,
    last: &str,
) -> Result<String, AllocError> {
    let spaced = format!(in alloc; "{part} ")?;
    let parts = spaced.repeat(alloc, n)?;
    format!(in alloc; "{first} {parts}{last}")
}

/// What stands before and after the first dots.
fn around<'a>(rt: &impl Abort, line: &'a str) -> (&'a str, &'a str) {
    let Some((before, after)) = line.split_once(" ... ") else {
        panic!(rt; "no part: {line}");
    };
    (before, after)
}

/// Whether the function keeps the rules on types, where its part stands in it so often.
fn check(rt: &impl Abort, alloc: Global, n: usize, line: &str) -> Result<(), Fail> {
    let (first, others) = around(rt, line);
    let (part, last) = around(rt, others);
    let text = between(alloc, n, first, part, last)?;
    let found = typed_text(rt, alloc, &text)?;
    assert!(rt; found.starts_with("ok"), "{line}: {found}");
    Ok(())
}

#[test]
fn deep_functions(rt: HostRuntime) -> Result<(), Fail> {
    for line in DEEP.lines() {
        check(&rt, rt.alloc(), 390, line)?;
    }
    Ok(())
}

#[test]
fn long_functions(rt: HostRuntime) -> Result<(), Fail> {
    for line in LONG.lines() {
        check(&rt, rt.alloc(), 5000, line)?;
    }
    Ok(())
}
