use cx_base::NoMemory;
use cx_form::{Statement, read_c_file, read_type_file};
use std::alloc::Global;
use std::process::Abort;
use std::test::Fail;

const STEP: &str = "struct vec { unsigned long len; struct vec *next; };
unsigned long step(struct vec *p, struct vec *q, unsigned long x) {
  q = p->next;
  p->len = x;
  x = q->len;
  return x;
}
";

const STEP_TYPES: &str = "region vec = struct vec { len: any8; next: ptr vec; };
fn step(ptr vec, any, any) -> any;
";

/// Whether the text is a C file of the form.
fn is_c_file(rt: &impl Abort, alloc: Global, text: &str) -> Result<bool, NoMemory> {
    assert!(rt; text.len() <= 1000);
    Ok(read_c_file(alloc, text.as_bytes())?.is_some())
}

/// Whether the second text is a type file of the form beside the C file that the first one is.
fn is_type_file(rt: &impl Abort, alloc: Global, c: &str, types: &str) -> Result<bool, NoMemory> {
    assert!(rt; c.len() <= 1000);
    assert!(rt; types.len() <= 1000);
    match read_c_file(alloc, c.as_bytes())? {
        None => Ok(false),
        Some(c) => Ok(read_type_file(alloc, types.as_bytes(), &c)?.is_some()),
    }
}

#[test]
fn c_files(rt: HostRuntime) -> Result<(), Fail> {
    let table = [
        ("", true),
        (" \t\n\x0b\x0c\r", true),
        (STEP, true),
        ("int x;", false),
        ("/* a */", false),
        ("# 1", false),
        ("struct a { unsigned long x; };", true),
        ("struct a { };", false),
        ("struct a { unsigned long x; }", false),
        ("struct a { unsigned long 1x; };", false),
        ("struct a { unsigned long x1; };", true),
        ("struct a { unsigned long $_; };", true),
        ("struct a { unsigned long x; unsigned long x; };", false),
        (
            "struct a { unsigned long x; }; struct a { unsigned long x; };",
            false,
        ),
        // names used before their declarations, or without any
        (
            "struct a { struct b *x; }; struct b { struct a *x; };",
            true,
        ),
        ("struct a { struct b *x; };", false),
        // keywords and reserved words
        ("struct int { unsigned long x; };", false),
        ("struct a { unsigned long _Bool; };", false),
        ("struct a { unsigned long region; };", false),
        ("struct a { unsigned long u8; };", false),
        ("struct a { unsigned long s01; };", false),
        ("struct a { unsigned long any3; };", false),
        ("struct a { unsigned long u; };", true),
        ("struct a { unsigned long u8x; };", true),
        ("struct a { unsigned long anyone; };", true),
        // words of GNU C
        ("struct a { unsigned long __const; };", false),
        ("struct __typeof__ { unsigned long x; };", false),
        ("void asm(void) { }", false),
        ("void f(unsigned long __seg_gs) { }", false),
        ("struct a { unsigned long __const_; };", true),
        ("struct a { unsigned long attribute; };", true),
        // parameters
        ("void f(void) { }", true),
        ("void f() { }", false),
        ("void f(unsigned long f) { }", true),
        ("void f(unsigned long a, unsigned long a) { }", false),
        ("void f(unsigned long a, ) { }", false),
        (
            "void f(unsigned long a, unsigned long b, unsigned long c, unsigned long d, unsigned long e, unsigned long g, unsigned long h, unsigned long i) { }",
            true,
        ),
        (
            "void f(unsigned long a, unsigned long b, unsigned long c, unsigned long d, unsigned long e, unsigned long g, unsigned long h, unsigned long i, unsigned long j) { }",
            false,
        ),
        ("void f(struct a *p) { }", false),
        ("void f(void) { } void g(void) { }", false),
        // results
        ("void f(void) { return; }", true),
        ("void f(unsigned long a) { return a; }", false),
        ("unsigned long f(unsigned long a) { return a; }", true),
        ("unsigned long f(unsigned long a) { return; }", false),
        ("unsigned long f(unsigned long a) { }", false),
        ("unsigned long f(unsigned long a) { return b; }", false),
        (
            "struct a { unsigned long x; }; struct a *f(struct a *p) { return p; }",
            true,
        ),
        (
            "struct a { unsigned long x; }; struct a *f(unsigned long p) { return p; }",
            false,
        ),
        // statements
        (
            "struct a { unsigned long x; }; void f(struct a *p, unsigned long y) { y = p->x; p -> x = y; }",
            true,
        ),
        (
            "struct a { unsigned long x; }; void f(struct a *p, unsigned long y) { y = p - >x; }",
            false,
        ),
        (
            "struct a { unsigned long x; }; void f(struct a *p, unsigned long y) { y = p->y; }",
            false,
        ),
        (
            "struct a { unsigned long x; }; void f(struct a *p, unsigned long y) { y = q->x; }",
            false,
        ),
        (
            "struct a { unsigned long x; }; void f(struct a *p, unsigned long y) { y = y->x; }",
            false,
        ),
        (
            "struct a { unsigned long x; }; void f(struct a *p, unsigned long y) { p = p->x; }",
            false,
        ),
        (
            "struct a { unsigned long x; }; void f(struct a *p, unsigned long y) { p->x = p; }",
            false,
        ),
        (
            "struct a { unsigned long x; }; void f(struct a *p, unsigned long y) { y = y; }",
            false,
        ),
        (
            "struct a { unsigned long x; }; void f(struct a *p) { return; p->x = p; }",
            false,
        ),
    ];
    for (text, wanted) in table {
        assert_eq!(rt; is_c_file(&rt, rt.alloc(), text)?, wanted, "{text}");
    }
    Ok(())
}

#[test]
fn type_files(rt: HostRuntime) -> Result<(), Fail> {
    let pair = "struct a { unsigned long x; struct a *y; };";
    let function = "void f(unsigned long x) { }";
    let table = [
        (STEP, STEP_TYPES, true),
        ("", "", true),
        ("", "# 1", false),
        (pair, "", true),
        (pair, "region r = struct a { x: any8; y: ptr r; };", true),
        (
            pair,
            "region r = struct a { x: ptr s; y: any8; }; region s = struct a { x: any8; y: any8; };",
            true,
        ),
        (pair, "region r = struct a { x: any8; };", false),
        (pair, "region r = struct a { y: any8; x: any8; };", false),
        (
            pair,
            "region r = struct a { x: any8; y: any8; z: any8; };",
            false,
        ),
        (pair, "region r = struct b { x: any8; y: any8; };", false),
        (pair, "region r = struct a { x: any; y: any8; };", false),
        (pair, "region r = struct a { x: any8; y: ptr a; };", false),
        (
            pair,
            "region r = struct a { x: any8; y: any8; }; region r = struct a { x: any8; y: any8; };",
            false,
        ),
        (
            pair,
            "region __inline = struct a { x: any8; y: any8; };",
            false,
        ),
        // the function and its line
        (function, "fn f(any) -> void;", true),
        (function, "", false),
        ("", "fn f(any) -> void;", false),
        (function, "fn g(any) -> void;", false),
        (function, "fn f() -> void;", false),
        (function, "fn f(any, any) -> void;", false),
        (function, "fn f(any) -> any;", false),
        (function, "fn f(ptr r) -> void;", false),
        (function, "fn f(any) -> void; fn f(any) -> void;", false),
        ("void f(void) { }", "fn f() -> void;", true),
        ("void f(void) { }", "fn f(void) -> void;", false),
        (
            "unsigned long f(unsigned long x) { return x; }",
            "fn f(any) -> void;",
            false,
        ),
    ];
    for (c, types, wanted) in table {
        assert_eq!(rt;
            is_type_file(&rt, rt.alloc(), c, types)?,
            wanted,
            "{c} {types}"
        );
    }
    Ok(())
}

#[test]
fn places(rt: HostRuntime) -> Result<(), Fail> {
    assert!(rt; STEP.len() <= 1000);
    let c = read_c_file(rt.alloc(), STEP.as_bytes())?.ok_or("no C file")?;
    let function = c.function.ok_or("no function")?;
    let ending = function.ending.ok_or("no return")?;
    assert_eq!(rt; function.name.text.as_slice(), b"step".as_slice());
    assert_eq!(rt; (ending.span.first, ending.span.past), (166, 175));
    assert_eq!(rt; function.body.len(), 3);
    match function.body.get(0) {
        Some(Statement::Load { member, .. }) => assert_eq!(rt;
            (member.span.first, member.span.past),
            (130, 134)
        ),
        _ => assert!(rt; false),
    }
    Ok(())
}
