use crate::units::{items_of, sides};
use std::alloc::Global;
use std::process::Abort;
use std::test::Fail;

const BEFORE: &str = "typedef int t; struct s { int m; }; int g();
int f(int a, int b, int c, int *p, struct s x) { ";

const SHOWN: &str = "types; types; g() i32; f(i32, i32, i32, *i32, #0) i32 {";

/// Blocks.
const BLOCKS: &str = "; => ;
{ } { ; } => {}{;}";

/// An else belongs to the nearest if.
const CHOICES: &str = "if (a) if (b) c = 1; else c = 2; => if (a) {if (b) {c := 1;} else {c := 2;}}
if (a) { if (b) c = 1; } else c = 2; => if (a) {{if (b) {c := 1;}}} else {c := 2;}
if (a) if (b) ; else ; else c = 2; => if (a) {if (b) {;} else {;}} else {c := 2;}
if (a) while (b) if (c) a = 1; else b = 1; else c = 1; => if (a) {while (b) {if (c) {a := 1;} else {b := 1;}}} else {c := 1;}
if (a) for (;;) if (b) ; else c = 2; => if (a) {for ({} -; ) {if (b) {;} else {c := 2;}}}
if (a) do if (b) ; while (c); else c = 2; => if (a) {do {if (b) {;}} while (c)} else {c := 2;}
if (a) switch (b) { case 1: if (c) ; } else c = 2; => if (a) {switch (b) {case 1: {if (c) {;}}}} else {c := 2;}
if (a) ; else if (b) ; else ; => if (a) {;} else {if (b) {;} else {;}}";

/// Loops.
const LOOPS: &str = "while (a) a--; => while (a) {a -= 1;}
do a--; while (a); => do {a -= 1;} while (a)
for (;;) break; => for ({} -; ) {break;}
for (a = 0, b = 1; a < c; a++, --b) continue; => for ({a := 0;b := 1;} (a < c); a += 1, b -= 1) {continue;}
for (int i = 0, *j = p; i < a; ) ; => for ({i: i32 = 0;j: *i32 = p;} (i < a); ) {;}
for (g(); ; g(a)) { } => for ({g();} -; g(a)) {{}}";

/// Switches.
const SWITCHES: &str = "switch (a) { } => switch (a) {}
switch (a) { case 1: case 'b': b = 1; break; default: c = 1; } => switch (a) {case 1: case 98: {b := 1;break;}default: {c := 1;}}
switch (a) { case 1: case 2: } => switch (a) {case 1: case 2: {}}
switch (a) { case 1 ? 2 : 3: ; case sizeof(t): ; } => switch (a) {case (1 ? 2 : 3): {;}case (sizeof <i32>): {;}}";

/// Effects.
const EFFECTS: &str = "a = b; => a := b;
*p = a ? b : c; => (*p) := (a ? b : c);
(a) = 1; => a := 1;
p[a] = b; x.m = c; => (p[a]) := b;(x.m) := c;
a += b; a -= b; a *= b; a /= b; a %= b; => a += b;a -= b;a *= b;a /= b;a %= b;
a <<= b; a >>= b; a &= b; a ^= b; a |= b; => a <<= b;a >>= b;a &= b;a ^= b;a |= b;
a++; a--; ++a; --a; => a += 1;a -= 1;a += 1;a -= 1;
(*p)++; p[a]--; ++*p; --x.m; => (*p) += 1;(p[a]) -= 1;(*p) += 1;(x.m) -= 1;
a; (void) a; a + b; => a;(<void> a);(a + b);";

/// Calls.
const CALLS: &str = "g(); g(a); g(a, b + c); => g();g(a);g(a, (b + c));
a = g(b); => a := g(b);
p = (int *) g(b); => p := <*i32> g(b);
a = (t) (b); => a := (<i32> b);
t(a); => t(a);
return; return a; return g(a); return (t) g(); => return;return a;return g(a);return <i32> g();";

/// Declarations of a block.
const LOCALS: &str = "int y; int z = a, *w = p; => y: i32;z: i32 = a;w: *i32 = p;
const t y = g(a); register long z; => y: i32 = g(a);z: i64;
struct s *y = (struct s *) p; struct n *z; => y: *#0 = (<*#0> p);z: *#1;
int y[3]; { int y; y = 1; } => y: [3]i32;{y: i32;y := 1;}
t *y; a * b; => y: *i32;(a * b);";

/// What stands outside the subset, as the body of a function.
const LEFT_OUT: &str = "goto l; l: ;
l: a = 1;
a, b;
a = (b, c);
if (a = b) ;
a = b = c;
a = b += c;
g(a = 1);
a = g(1) + 1;
g(g(a));
p[g(a)] = 1;
if (g(a)) ;
a++ + b;
b = a++;
*p++;
*p++ = 1;
(a++);
({ a; });
x = (struct s){1};
int y[2] = {1, 2};
struct s z = {.m = 1};
asm(\"nop\");
__asm__ volatile (\"nop\");
g(\"x\");
static int y;
extern int y;
typedef int u;
int h(void);
struct n { int a; } y;
enum { A } y;
int t;
int (y);
float y;
int y : 3;
int y __attribute__((unused));
__attribute__((unused)) int y;
struct n;
if (a) int y;
while (a) int y;
switch (a) a = 1;
switch (a) { b = 1; case 1: ; }
switch (a) { case 1: int y; }
switch (a) { case a: ; }
switch (a) { case 1 / 0: ; }
switch (a) { case 1 ... 2: ; }
case 1: ;
default: ;
return a, b;
a ?: b;
p = &&l;
a = 1.5;
a = 018;
a = 'ab';
sizeof(int[2]);
(*g)(a);
a = _Generic(a, int: 1);
a ? b : c = 1;
-a = 1 = 2;
else ;
do ; while (a)
for (;) ;
for (int y; ; int z) ;";

/// What a file declares of which the last function has this body.
fn with_body(rt: &impl Abort, alloc: Global, body: &str) -> Result<String, Fail> {
    let whole = format!(in alloc; "{BEFORE}{body} }}")?;
    items_of(rt, alloc, &whole)
}

/// Compares the body with its shape.
fn check_body(rt: &impl Abort, alloc: Global, body: &str, shape: &str) -> Result<(), Fail> {
    let expected = format!(in alloc; "{SHOWN}{shape}}}")?;
    let found = with_body(rt, alloc, body)?;
    assert_eq!(rt; found.as_str(), expected.as_str());
    Ok(())
}

fn check(rt: &impl Abort, alloc: Global, table: &str) -> Result<(), Fail> {
    for line in table.lines() {
        let (body, shape) = sides(rt, line);
        check_body(rt, alloc, body, shape)?;
    }
    Ok(())
}

fn check_passed(rt: &impl Abort, alloc: Global, table: &str) -> Result<(), Fail> {
    for body in table.lines() {
        let found = with_body(rt, alloc, body)?;
        assert_eq!(rt; found.as_str(), "types; types; g() i32; passed", "{body}");
    }
    Ok(())
}

#[test]
fn shapes(rt: HostRuntime) -> Result<(), Fail> {
    check_body(&rt, rt.alloc(), "", "")?;
    check(&rt, rt.alloc(), BLOCKS)?;
    check(&rt, rt.alloc(), CHOICES)?;
    check(&rt, rt.alloc(), LOOPS)?;
    check(&rt, rt.alloc(), SWITCHES)?;
    check(&rt, rt.alloc(), EFFECTS)?;
    check(&rt, rt.alloc(), CALLS)?;
    check(&rt, rt.alloc(), LOCALS)
}

#[test]
fn constructs_left_out(rt: HostRuntime) -> Result<(), Fail> {
    check_passed(&rt, rt.alloc(), LEFT_OUT)
}
