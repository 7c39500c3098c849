use crate::files::{fault_at, fault_of, unit_of};
use cx_base::Span;
use cx_tread::TypeFault;
use std::alloc::{AllocError, Global};
use std::process::Abort;
use std::test::Fail;

/// What stands before a part, the part, what follows it, a second part, and what stands at the end. Each
/// first part opens a level of brackets with its first byte, and each second one closes it.
const LEVELS: [[&str; 5]; 3] = [
    ["region a = ", "(", "any8", ")", ";"],
    ["region a = ", "{ any1; ", "", "};", ""],
    [
        "region b = ((any8)); region a = { any1; any2; } where 0 < 1; region c = ",
        "(",
        "u1 3",
        ")",
        "[1];",
    ],
];

/// Texts without a tree, also where the parts stand in them less often.
const ALSO_DEEP: [[&str; 5]; 2] = [
    ["region region; ", "[", "", "", ""],
    ["region a = any; fn fn; ", "{ ) ", "", "", "region"],
];

/// Parts that stand in a text so often that a call for each would not fit on the stack: the fault, and
/// from where and up to where it stands, if the part stands there 20000 times.
const LONG: [([&str; 5], &str, u32, u32); 6] = [
    (
        ["region a(n) = u8 0", " + n - n", "", "", ";"],
        "tree",
        0,
        0,
    ),
    (["region a = any8;", ";", "", "", ""], "Syntax", 16, 17),
    (["fn one(any", ", any", "", "", ") -> any;"], "Arity", 3, 6),
    (
        ["region a = any8 where 0 < 1", ", 0 < 1", "", "", ";"],
        "Arity",
        7,
        8,
    ),
    (
        ["region a = {", "any1;", "", "", "};"],
        "BadSize",
        11,
        100013,
    ),
    (
        ["region a = u8 0;", "region a = u8 0;", "", "", ""],
        "Doubled",
        23,
        24,
    ),
];

fn text_of(alloc: Global, n: usize, parts: &[&str; 5]) -> Result<String, AllocError> {
    let [first, opening, middle, closing, last] = parts;
    let opened = opening.repeat(alloc, n)?;
    let closed = closing.repeat(alloc, n)?;
    format!(in alloc; "{first}{opened}{middle}{closed}{last}")
}

fn fault_with(
    rt: &impl Abort,
    alloc: Global,
    n: usize,
    parts: &[&str; 5],
) -> Result<Option<TypeFault>, Fail> {
    let unit = unit_of(rt, alloc, "int one(int x);")?;
    let text = text_of(alloc, n, parts)?;
    fault_of(rt, alloc, &text, &unit)
}

/// Where the bracket stands that opens the 101st level.
fn deep_place(rt: &impl Abort, parts: &[&str; 5]) -> Span {
    assert!(rt; parts[0].len() <= 1000 && parts[1].len() <= 1000);
    let first = (parts[0].len() + 100 * parts[1].len()) as u32;
    Span {
        first,
        past: first + 1,
    }
}

fn check_deep(rt: &impl Abort, alloc: Global, parts: &[&str; 5]) -> Result<(), Fail> {
    let deep = Some(TypeFault::TooDeep(deep_place(rt, parts)));
    assert!(rt; fault_with(rt, alloc, 101, parts)? == deep);
    assert!(rt; fault_with(rt, alloc, 20000, parts)? == deep);
    Ok(())
}

#[test]
fn levels_of_brackets(rt: HostRuntime) -> Result<(), Fail> {
    for parts in &LEVELS {
        assert!(&rt; fault_with(&rt, rt.alloc(), 100, parts)?.is_none());
        check_deep(&rt, rt.alloc(), parts)?;
    }
    for parts in &ALSO_DEEP {
        check_deep(&rt, rt.alloc(), parts)?;
    }
    Ok(())
}

#[test]
fn bytes_come_before_levels(rt: HostRuntime) -> Result<(), Fail> {
    let found = fault_with(&rt, rt.alloc(), 101, &["", "(", "@", ")", ""])?;
    assert!(&rt; found == Some(TypeFault::BadByte(101)));
    Ok(())
}

#[test]
fn long_files(rt: HostRuntime) -> Result<(), Fail> {
    for (parts, name, first, past) in &LONG {
        let place = Span {
            first: *first,
            past: *past,
        };
        let found = fault_with(&rt, rt.alloc(), 20000, parts)?;
        assert!(&rt; found == fault_at(&rt, name, place), "{name} {first}");
    }
    Ok(())
}
