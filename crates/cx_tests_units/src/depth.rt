use crate::units::{read, unit_of};
use cx_base::Span;
use cx_cread::UnitFault;
use cx_ctree::{Item, Unit};
use std::alloc::{AllocError, Global};
use std::process::Abort;
use std::test::Fail;

/// What stands before a part, the part, and what stands after it. The body of the function and the
/// statement are two nodes, and what follows the part is one more.
const EXPRESSIONS: &str = "int f(int a) { ... - ... a; }
int f(int a) { ... ! ... a; }
int f(int a) { ... * ... a; }
int f(int a) { ... sizeof ... a; }
int f(int a) { ... (int) ... a; }
int f(int a) { ... a + ... a; }
int f(int a) { ... a ? a : ... a; }
int f(int a) { a ... .m ... ; }
int f(int a) { a ... [0] ... ; }
int f(int a) { a = ... - ... a; }
int f(int a) { return ... - ... a; }
int f(int a) { int b = ... - ... a; }
int f(int a) { int ... * ... p; }";

/// The body of the function and the last statement are two nodes.
const STATEMENTS: &str = "int f(int a) { ... if (a) ... ; }
int f(int a) { ... if (a) ; else ... ; }
int f(int a) { ... while (a) ... ; }
int f(int a) { ... for (;;) ... ; }";

/// The last type is one node.
const TYPES: &str = "int ... * ... p;
int f(int ... * ... p);
int a ... [1] ... ;";

/// What stands before and after the first dots.
fn around<'a>(rt: &impl Abort, line: &'a str) -> (&'a str, &'a str) {
    let Some((before, after)) = line.split_once(" ... ") else {
        panic!(rt; "no part: {line}");
    };
    (before, after)
}

/// So many times the part.
fn repeated(alloc: Global, n: usize, part: &str) -> Result<String, AllocError> {
    let spaced = format!(in alloc; "{part} ")?;
    spaced.repeat(alloc, n)
}

/// So many times the part between two texts.
fn between(
    alloc: Global,
    n: usize,
    first: &str,
    part: &str,
    last: &str,
) -> Result<String, AllocError> {
    let parts = repeated(alloc, n, part)?;
    format!(in alloc; "{first} {parts}{last}")
}

/// Whether the unit has one item, which is known.
fn has_known(unit: &Unit) -> bool {
    match unit.items.as_slice() {
        [Item::Known(_)] => true,
        _ => false,
    }
}

fn is_known(rt: &impl Abort, alloc: Global, text: &str) -> Result<bool, Fail> {
    let unit = unit_of(rt, alloc, text)?;
    Ok(has_known(&unit))
}

/// Whether the one item of the text is known, where the line's part stands in it so often.
fn is_known_with(rt: &impl Abort, alloc: Global, n: usize, line: &str) -> Result<bool, Fail> {
    let (first, others) = around(rt, line);
    let (part, last) = around(rt, others);
    let text = between(alloc, n, first, part, last)?;
    is_known(rt, alloc, &text)
}

/// Compares whether the items are known where the parts of the lines stand in them so often.
fn check(rt: &impl Abort, alloc: Global, n: usize, table: &str, known: bool) -> Result<(), Fail> {
    for line in table.lines() {
        let found = is_known_with(rt, alloc, n, line)?;
        assert_eq!(rt; found, known, "{line}");
    }
    Ok(())
}

#[test]
fn trees_of_400_nodes(rt: HostRuntime) -> Result<(), Fail> {
    check(&rt, rt.alloc(), 397, EXPRESSIONS, true)?;
    check(&rt, rt.alloc(), 398, EXPRESSIONS, false)?;
    check(&rt, rt.alloc(), 398, STATEMENTS, true)?;
    check(&rt, rt.alloc(), 399, STATEMENTS, false)?;
    check(&rt, rt.alloc(), 399, TYPES, true)?;
    check(&rt, rt.alloc(), 400, TYPES, false)
}

/// What is repeated so often that a call for each would not fit on the stack.
const REPEATED: &str = "int f(int a) { ... do ... ; }
int f(int a) { ... if (a) ; else ... ; }";

const ALSO_REPEATED: &str = "int f(int a) { ... while (a) ... ; }
int f(int a) { ... - ... a; }
int f(int a) { ... sizeof ... a; }
int ... * ... p;";

#[test]
fn repeated_parts(rt: HostRuntime) -> Result<(), Fail> {
    check(&rt, rt.alloc(), 100000, REPEATED, false)?;
    check(&rt, rt.alloc(), 10000, ALSO_REPEATED, false)
}

/// So many brackets that open, and so many that close.
fn brackets(alloc: Global, opened: usize, closed: usize) -> Result<String, AllocError> {
    let mut text = "(".repeat(alloc, opened)?;
    for _ in 0..closed {
        text.push_str(")")?;
    }
    text.push_str(";")?;
    Ok(text)
}

fn deep_bracket(read: &Result<Unit, UnitFault>) -> Option<Span> {
    match read {
        Err(UnitFault::TooDeep(span)) => Some(*span),
        Err(UnitFault::Unclosed(_)) | Err(UnitFault::NoMemory) | Ok(_) => None,
    }
}

fn deep_in(rt: &impl Abort, alloc: Global, text: &str) -> Result<Option<Span>, Fail> {
    let unit = read(rt, alloc, text)?;
    Ok(deep_bracket(&unit))
}

/// Where the bracket stands that opens too many levels, of so many that open and so many that close.
fn too_deep(
    rt: &impl Abort,
    alloc: Global,
    opened: usize,
    closed: usize,
) -> Result<Option<Span>, Fail> {
    let text = brackets(alloc, opened, closed)?;
    deep_in(rt, alloc, &text)
}

#[test]
fn levels_of_brackets(rt: HostRuntime) -> Result<(), Fail> {
    let deepest = Some(Span {
        first: 100,
        past: 101,
    });
    assert!(rt; too_deep(&rt, rt.alloc(), 100, 100)? == None);
    assert!(rt; too_deep(&rt, rt.alloc(), 100, 101)? == None);
    assert!(rt; too_deep(&rt, rt.alloc(), 101, 101)? == deepest);
    assert!(rt; too_deep(&rt, rt.alloc(), 101, 0)? == deepest);
    Ok(())
}
