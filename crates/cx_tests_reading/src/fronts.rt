use crate::units::{are_inside, declare, sides};
use cx_base::{CInt, Token};
use cx_cdecl::{DeclaratorRead, SpecsRead, TypeRead, read_declarator, read_specs, read_type};
use cx_ctree::{CType, Unit};
use cx_tests_shown::{decl_text, type_text};
use std::alloc::{AllocError, Global};
use std::process::Abort;
use std::test::Fail;

/// The words of a type, how many tokens they are, and what they say beside the type.
const SPECIFIERS: &str = "unsigned long x => u64 2
const t x => i32 2
t const volatile * => i32 3
typedef unsigned y => u32 2 typedef
extern const int y => i32 3 linked
int static y => i32 2 linked
int int x => i32 1
long long long => i64 2
void => void 1
struct u { int b; } y => #1 7
struct u { int b : 3; } y => #1 2
struct s { int b; } y => #0 2
union s { int b; } y => none
struct u { int b; } __attribute__((packed)) y => #1 7
struct { int b; } const y => #1 7
enum { A, B } y => i32 6
enum { A, A } y => none
int __attribute__((unused)) f => i32 7
int __attribute__((mode(DI))) f => i32 1
__attribute__((unused)) struct u { int b; } f => #1 8
x => none
const => none
+ 1 => none
 => none";

/// Declarators of an int, and how many tokens they are.
const DECLARATORS: &str = "x => x: i32 1
x = 1 => x: i32 1
*p[3], q => p: [3]*i32 5
* const *p => p: **i32 4
x[2][0] => x: [2]i32 4
x[n] => x: i32 1
f(void), g => f() i32 4
f(int a, char *b) __attribute__((cold)) , => f(i32, *i8) i32 15
f(float) , => f: i32 1
f(struct n *p) { => f(*#1) i32 7
* const => none
(x) => none
 => none";

/// Types without a declaration, and how many tokens they are.
const TYPES: &str = "unsigned char *const * ) => **u8 5
t x => i32 1
struct s * => *#0 3
const struct s => #0 3
struct n * => none
union s => none
int x => i32 1
int [3] => i32 1
typedef int => none
enum e => none
struct { int a; } => none
 => none";

/// The nonterminal that a text is read as.
#[derive(Clone, Copy)]
enum Part {
    Specifiers,
    Declarator,
    Type,
}

const BEFORE: &str = "typedef int t; struct s { int m; }; ";

fn specs_text(alloc: Global, at: usize, read: &Option<SpecsRead>) -> Result<String, AllocError> {
    let Some(read) = read else {
        return format!(in alloc; "none");
    };
    let ctype = type_text(alloc, &read.base)?;
    let typedef_ = if read.typedef_ { " typedef" } else { "" };
    let linked = if read.linked { " linked" } else { "" };
    let count = read.next.saturating_sub(at);
    format!(in alloc; "{ctype} {count}{typedef_}{linked}")
}

fn specs_at(
    rt: &impl Abort,
    alloc: Global,
    bytes: &[u8],
    tokens: &[Token],
    at: usize,
    unit: &mut Unit,
) -> Result<String, Fail> {
    assert!(rt; at <= tokens.len());
    assert!(rt; tokens.len() <= 16777216);
    assert!(rt; are_inside(bytes.len(), tokens));
    let read = read_specs(alloc, bytes, tokens, at, unit)?;
    Ok(specs_text(alloc, at, &read)?)
}

fn declarator_text(
    alloc: Global,
    unit: &Unit,
    at: usize,
    read: &Option<DeclaratorRead>,
) -> Result<String, AllocError> {
    let Some(read) = read else {
        return format!(in alloc; "none");
    };
    let decl = decl_text(alloc, unit, &read.decl)?;
    let count = read.next.saturating_sub(at);
    format!(in alloc; "{decl} {count}")
}

/// The declarator of an int.
fn declarator_at(
    rt: &impl Abort,
    alloc: Global,
    bytes: &[u8],
    tokens: &[Token],
    at: usize,
    unit: &mut Unit,
) -> Result<String, Fail> {
    assert!(rt; at <= tokens.len());
    assert!(rt; tokens.len() <= 16777216);
    assert!(rt; are_inside(bytes.len(), tokens));
    let base = CType::Int(CInt {
        size: 4,
        signed: true,
    });
    let read = read_declarator(alloc, bytes, tokens, at, &base, unit)?;
    Ok(declarator_text(alloc, unit, at, &read)?)
}

fn type_text_of(alloc: Global, at: usize, read: &Option<TypeRead>) -> Result<String, AllocError> {
    let Some(read) = read else {
        return format!(in alloc; "none");
    };
    let ctype = type_text(alloc, &read.ctype)?;
    let count = read.next.saturating_sub(at);
    format!(in alloc; "{ctype} {count}")
}

fn type_at(
    rt: &impl Abort,
    alloc: Global,
    bytes: &[u8],
    tokens: &[Token],
    at: usize,
    unit: &Unit,
) -> Result<String, Fail> {
    assert!(rt; at <= tokens.len());
    assert!(rt; tokens.len() <= 16777216);
    assert!(rt; are_inside(bytes.len(), tokens));
    let read = read_type(alloc, bytes, tokens, at, unit)?;
    Ok(type_text_of(alloc, at, &read)?)
}

fn front_at(
    rt: &impl Abort,
    alloc: Global,
    part: Part,
    bytes: &[u8],
    tokens: &[Token],
    at: usize,
    unit: &mut Unit,
) -> Result<String, Fail> {
    match part {
        Part::Specifiers => specs_at(rt, alloc, bytes, tokens, at, unit),
        Part::Declarator => declarator_at(rt, alloc, bytes, tokens, at, unit),
        Part::Type => type_at(rt, alloc, bytes, tokens, at, unit),
    }
}

fn front_in(rt: &impl Abort, alloc: Global, part: Part, whole: &str) -> Result<String, Fail> {
    let mut d = declare(rt, alloc, whole)?;
    front_at(
        rt,
        alloc,
        part,
        whole.as_bytes(),
        d.tokens.as_slice(),
        d.read,
        &mut d.unit,
    )
}

/// What the text after the declarations is read as.
fn front(rt: &impl Abort, alloc: Global, part: Part, text: &str) -> Result<String, Fail> {
    let whole = format!(in alloc; "{BEFORE}{text}")?;
    front_in(rt, alloc, part, &whole)
}

/// Compares what each line's text is read as with what is expected.
fn check(rt: &impl Abort, alloc: Global, part: Part, table: &str) -> Result<(), Fail> {
    for line in table.lines() {
        let (text, expected) = sides(rt, line);
        let found = front(rt, alloc, part, text)?;
        assert_eq!(rt; found.as_str(), expected);
    }
    Ok(())
}

#[test]
fn words_of_a_type(rt: HostRuntime) -> Result<(), Fail> {
    check(&rt, rt.alloc(), Part::Specifiers, SPECIFIERS)
}

#[test]
fn declarators(rt: HostRuntime) -> Result<(), Fail> {
    check(&rt, rt.alloc(), Part::Declarator, DECLARATORS)
}

#[test]
fn types(rt: HostRuntime) -> Result<(), Fail> {
    check(&rt, rt.alloc(), Part::Type, TYPES)
}
