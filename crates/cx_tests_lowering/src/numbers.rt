use crate::lowered::lowered_text;
use std::alloc::Global;
use std::process::Abort;
use std::test::Fail;

/// A text, and how many locals are named, locals, blocks and lines the code of the function has that it ends with;
/// then the blocks of its stores, and its jumps back.
const FUNCTIONS: &str =
    "void fill(long *a, unsigned long n) { unsigned long i; for (i = 0; i < n; i++) a[i] = 0; } => 3 7 5 19 store 2 back 3 1
void f(void) { } => 0 0 1 0
void f(void) { while (0) ; } => 0 2 4 2 back 2 1
int f(int x) { return x; } => 1 2 2 1";

fn check(rt: &impl Abort, alloc: Global, line: &str) -> Result<(), Fail> {
    let Some((text, expected)) = line.split_once(" => ") else {
        panic!(rt; "no case: {line}");
    };
    let found = lowered_text(rt, alloc, text)?;
    assert_eq!(rt; found.as_str(), expected, "{text}");
    Ok(())
}

#[test]
fn functions(rt: HostRuntime) -> Result<(), Fail> {
    for line in FUNCTIONS.lines() {
        check(&rt, rt.alloc(), line)?;
    }
    Ok(())
}
