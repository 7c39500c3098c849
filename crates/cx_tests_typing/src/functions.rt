use crate::typed::typed_text;
use std::alloc::Global;
use std::process::Abort;
use std::test::Fail;

/// A text, and what the function that it ends with is typed as: the types of its locals, or the rule that it breaks
/// with the bytes of the place.
const FUNCTIONS: &str = "int f(int x) { return y; } => 1 22 23
int f(int x) { { int x; x = 1; { int *x = &*x; } } return x; } => ok i32 i32 *i32
int f(int x) { for (int x = 1; x < 2; x++) { long x; x = 3; } return x; } => ok i32 i32 i64
int f(int x) { for (;;) { int i; } return i; } => 1 42 43
int f(int x) { for (int i = 0; ; ) for (long i = i; ; ) return i; } => ok i32 i32 i64
int f(int x) { for (int i = 0, *i; ; ) ; } => 12 32 33
int f(int x) { switch (x) { case 1: { int y; y = 1; } case 2: y = 2; } return x; } => 1 62 63
int f(int x) { switch (x) { case 1: { int y; } case 2: { char y; } } return x; } => ok i32 i32 i8
int f(int x) { do { int y = 1; } while (y); return x; } => 1 40 41
int f(int x) { if (x) { int y; } else y = 1; return x; } => 1 38 39
int f(int f) { return f; } => ok i32
int f(int x) { long f = x; return f; } => ok i32 i64
enum { A }; int f(int A) { switch (A) { case A: ; } return A; } => ok i32
int f(unsigned char c) { switch (c) { case 0: case 256: ; } return c; } => ok u8
int f(unsigned long x) { switch (x) { case -1: case 18446744073709551615u: ; } return 0; } => 10 52 73
int f(int x) { switch (x) { case 4294967295: case -1: ; } return 0; } => 10 50 52
int f(long x) { switch (x) { case 4294967295: case -1: ; } return 0; } => ok i64
int f(int x) { switch (x) { case 1: switch (x) { case 1: ; default: ; } default: ; } return x; } => ok i32
int f(int x) { switch (x) { case 1: default: case 2: default: ; } return x; } => 10 15 65
int f(int x) { switch (x) { case 1: ; default: ; case 1: ; } return x; } => 10 54 55
int f(int x) { while (x) { switch (x) { case 1: continue; case 2: break; } break; } return x; } => ok i32
int f(int x) { for (;;) switch (x) { default: ; } break; } => 11 50 56
int *p; void f(void) { p = 0; p = (void *) 0; p = 0UL; p = '\\0'; p = (void *) (int *) 0; } => ok
int *p; void f(void) { p = (long) 0; } => 7 27 35
int *p; void f(void) { p = +0; } => 7 27 29
int *p; int f(void) { return p == (void *) 0 ? p == 0 : 0 != p; } => ok
int *p; int f(int x) { return (x ? p : 0) == (x ? 0 : p); } => ok i32
int a[3]; unsigned long f(void) { return sizeof a / sizeof a[0] + sizeof *a + sizeof (a + 0); } => ok
struct s; struct s *p; unsigned long f(void) { return sizeof p + sizeof *p; } => 3 72 74";

fn check(rt: &impl Abort, alloc: Global, line: &str) -> Result<(), Fail> {
    let Some((text, expected)) = line.split_once(" => ") else {
        panic!(rt; "no case: {line}");
    };
    let found = typed_text(rt, alloc, text)?;
    assert_eq!(rt; found.as_str(), expected, "{text}");
    Ok(())
}

#[test]
fn functions(rt: HostRuntime) -> Result<(), Fail> {
    for line in FUNCTIONS.lines() {
        check(&rt, rt.alloc(), line)?;
    }
    Ok(())
}
