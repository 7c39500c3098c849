use crate::lowered::lowered_text;
use std::alloc::{AllocError, Global};
use std::process::Abort;
use std::test::Fail;

/// How often a part may stand in a function, the limit that is passed where it stands there once more,
/// and what stands before the part, the part, and what stands after it.
const LAST: &str = "128 | locals 128 | void f(void) { ... { int a; } ... }
126 | locals 128 | void f(int x) { ... { int a; } ... x = x; }
126 | locals 128 | void f(int x) { x = ... - ... x; }
511 | blocks 512 | void f(void) { ... return; ... }
170 | blocks 512 | void f(void) { ... while (0) ; ... return; }
170 | blocks 512 | void f(int x) { return; ... if (x) ; else ; ... }
4096 | instructions 4096 | void f(int x) { ... x; ... }
2048 | instructions 4096 | void f(int x) { ... x = x; ... }
4095 | instructions 4096 | void f(int x) { ... x; ... int y; }";

/// As before, of functions that pass the limit where the part stands there so often.
const FIRST: &str =
    "129 | locals 128 | void f(void) { ... { int a; return; return; return; return; } ... }
128 | blocks 512 | void f(void) { ... { int a; return; return; return; return; } ... }
512 | blocks 512 | void f(int x) { ... x = x; x = x; x = x; x = x; x; return; ... }
511 | instructions 4096 | void f(int x) { ... x = x; x = x; x = x; x = x; x; return; ... }
171 | blocks 512 | void f(void) { ... while (0) ; ... }";

/// So many times the part between two texts.
fn between(
    alloc: Global,
    n: usize,
    first: &str,
    part: &str,
    last: &str,
) -> Result<String, AllocError> {
    let spaced = format!(in alloc; "{part} ")?;
    let parts = spaced.repeat(alloc, n)?;
    format!(in alloc; "{first} {parts}{last}")
}

/// What stands before and after the first of these marks.
fn around<'a>(rt: &impl Abort, line: &'a str, mark: &str) -> (&'a str, &'a str) {
    let Some((before, after)) = line.split_once(mark) else {
        panic!(rt; "no part: {line}");
    };
    (before, after)
}

/// What the function is lowered to, where its part stands in it so often.
fn with_parts(rt: &impl Abort, alloc: Global, n: usize, text: &str) -> Result<String, Fail> {
    let (first, others) = around(rt, text, " ... ");
    let (part, last) = around(rt, others, " ... ");
    let whole = between(alloc, n, first, part, last)?;
    lowered_text(rt, alloc, &whole)
}

#[test]
fn last_within(rt: HostRuntime) -> Result<(), Fail> {
    for line in LAST.lines() {
        let (number, others) = around(&rt, line, " | ");
        let (limit, text) = around(&rt, others, " | ");
        let n = number.parse::<usize>()?;
        let within = with_parts(&rt, rt.alloc(), n, text)?;
        assert!(rt;
            !within.starts_with(char::is_alphabetic),
            "{line}: {within}"
        );
        let past = with_parts(&rt, rt.alloc(), n.saturating_add(1), text)?;
        assert_eq!(rt; past.as_str(), limit, "{line}");
    }
    Ok(())
}

#[test]
fn first_limit(rt: HostRuntime) -> Result<(), Fail> {
    for line in FIRST.lines() {
        let (number, others) = around(&rt, line, " | ");
        let (limit, text) = around(&rt, others, " | ");
        let past = with_parts(&rt, rt.alloc(), number.parse::<usize>()?, text)?;
        assert_eq!(rt; past.as_str(), limit, "{line}");
    }
    Ok(())
}
