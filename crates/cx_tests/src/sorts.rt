use cx_base::{List, NoMemory};
use cx_form::{read_c_file, read_type_file};
use cx_sorts::{Verdict, check_function};
use std::alloc::Global;
use std::test::Fail;

const HEAD: &str = "struct vec { unsigned long len; struct vec *next; };
unsigned long step(struct vec *p, struct vec *q, unsigned long x) {
";

const TYPES: &str = "region vec = struct vec { len: any8; next: ptr vec; };
fn step(ptr vec, any, any) -> any;
";

const TYPES_WITH_POINTER: &str = "region vec = struct vec { len: any8; next: ptr vec; };
fn step(ptr vec, any, any) -> ptr vec;
";

const TWO_HEAD: &str = "struct one { unsigned long a; };
struct two { unsigned long a; unsigned long b; };
void set(struct two *p, unsigned long x) {
";

const TWO_TYPES: &str = "region two = struct two { a: any8; b: any8; };
region one = struct one { a: any8; };
fn set(ptr one, any) -> void;
";

fn joined(alloc: Global, head: &str, body: &str) -> Result<List<u8>, NoMemory> {
    let mut text = List::new(alloc);
    for b in head.as_bytes() {
        text.push(*b)?;
    }
    for b in body.as_bytes() {
        text.push(*b)?;
    }
    Ok(text)
}

/// The verdict on the function of the two texts; None where they are not of the form.
fn verdict_of(
    alloc: Global,
    head: &str,
    body: &str,
    types: &str,
) -> Result<Option<Verdict>, NoMemory> {
    let text = joined(alloc, head, body)?;
    if text.len() > 1000 || types.len() > 1000 {
        return Ok(None);
    }
    let Some(c) = read_c_file(alloc, text.as_slice())? else {
        return Ok(None);
    };
    let Some(t) = read_type_file(alloc, types.as_bytes(), &c)? else {
        return Ok(None);
    };
    match (&c.function, &t.function) {
        (Some(function), Some(declared)) => {
            let verdict = check_function(alloc, &c, &t, function, declared)?;
            Ok(Some(verdict))
        }
        _ => Ok(None),
    }
}

/// Whether the verdict has these accesses, each with its first byte, the first past it and the
/// place of its region type.
fn has_accesses(found: &Option<Verdict>, accesses: &[(u32, u32, u32)]) -> bool {
    let Some(verdict) = found else {
        return false;
    };
    if verdict.accesses.len() != accesses.len() {
        return false;
    }
    for (a, b) in verdict.accesses.as_slice().iter().zip(accesses) {
        if (a.span.first, a.span.past, a.name) != *b {
            return false;
        }
    }
    true
}

/// Whether the verdict has this alarm, with its number, its first byte and the first past it.
fn has_alarm(found: &Option<Verdict>, number: u8, first: u32, past: u32) -> bool {
    match found {
        Some(verdict) => match verdict.alarm {
            Some(c) => c.number == number && c.span.first == first && c.span.past == past,
            None => false,
        },
        None => false,
    }
}

fn is_accepted(found: &Option<Verdict>) -> bool {
    match found {
        Some(verdict) => verdict.alarm.is_none(),
        None => false,
    }
}

#[test]
fn accepted(rt: HostRuntime) -> Result<(), Fail> {
    let body = "  q = p->next;\n  p->len = x;\n  x = q->len;\n  return x;\n}\n";
    let found = verdict_of(rt.alloc(), HEAD, body, TYPES)?;
    assert!(rt; is_accepted(&found));
    assert!(rt; has_accesses(&found, &[(127, 134, 0), (138, 144, 0), (156, 162, 0)]));
    Ok(())
}

#[test]
fn unknown_pointer(rt: HostRuntime) -> Result<(), Fail> {
    let body = "\n  p->len = x;\n  x = q->len;\n  return x;\n}\n";
    let found = verdict_of(rt.alloc(), HEAD, body, TYPES)?;
    assert!(rt; has_accesses(&found, &[(124, 130, 0)]));
    assert!(rt; has_alarm(&found, 2, 142, 148));
    Ok(())
}

#[test]
fn other_alarms(rt: HostRuntime) -> Result<(), Fail> {
    let store = "  p->next = q;\n  return x;\n}\n";
    let found = verdict_of(rt.alloc(), HEAD, store, TYPES)?;
    assert!(rt; has_accesses(&found, &[]));
    assert!(rt; has_alarm(&found, 5, 123, 130));
    let result = "  return x;\n}\n";
    let found = verdict_of(rt.alloc(), HEAD, result, TYPES_WITH_POINTER)?;
    assert!(rt; has_alarm(&found, 14, 123, 132));
    let outside = "  p->a = x;\n  p->b = x;\n}\n";
    let found = verdict_of(rt.alloc(), TWO_HEAD, outside, TWO_TYPES)?;
    assert!(rt; has_accesses(&found, &[(128, 132, 1)]));
    assert!(rt; has_alarm(&found, 4, 140, 144));
    Ok(())
}
