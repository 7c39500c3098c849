use crate::units::{made, read, sides, unit_of};
use cx_base::Span;
use cx_cread::UnitFault;
use cx_ctree::{Item, Unit};
use cx_tests_shown::{items_text, name};
use std::alloc::{AllocError, Global};
use std::process::Abort;
use std::test::Fail;

const PREPROCESSED: &str = "# 1 \"a.c\"
# 1 \"stddef.h\" 1 3 4
typedef struct {
  long long __max_align_ll __attribute__((__aligned__(__alignof__(long long))));
  long double __max_align_ld __attribute__((__aligned__(__alignof__(long double))));
} max_align_t;
# 2 \"a.c\" 2
int one(void) {
  return 1;
}
";

const GET: &str = "struct vec { unsigned long len; long *data; };
long get(struct vec *v, unsigned long i) {
  if (i <= v->len) return v->data[i];
  return -1;
}
";

const GET_ITEMS: &str =
    "types; get(*#0, u64) i64 {if ((i <= (v->len))) {return ((v->data)[i]);}return (-1);}";

// A page as a preprocessor leaves it.
const PAGE: &str = "# 0 \"queue.c\"
# 1 \"/usr/include/stdlib.h\" 1 3 4
typedef unsigned long size_t;
extern void *malloc (size_t __size) __attribute__ ((__nothrow__ , __leaf__)) __attribute__ ((__malloc__))
     __attribute__ ((__alloc_size__ (1)));
extern void free (void *__ptr) __attribute__ ((__nothrow__ , __leaf__));
__extension__ extern long long int atoll (const char *__nptr)
     __attribute__ ((__nothrow__ , __leaf__)) __attribute__ ((__pure__));
extern double atof (const char *__nptr);
extern int memcmp (const void *restrict __s1, const void *__restrict __s2, size_t __n);
typedef int (*__compar_fn_t) (const void *, const void *);
static __inline__ unsigned __bswap (unsigned __bsx) { return __bsx >> 24 | __bsx << 24; }
# 12 \"queue.c\" 2
enum kind { EMPTY, NUMBER = 4, TEXT };
union value { long number; const char *text; };
struct entry { enum kind kind; union value value; struct entry *next; };
static struct entry *last;
struct entry *push(struct entry *top, long n) {
  struct entry *e = (struct entry *) malloc(sizeof(struct entry));
  if (!e) return top;
  e->kind = NUMBER;
  e->value.number = n;
  e->next = top;
  last = e;
  return e;
}
";

const PAGE_ITEMS: &str = "types; malloc(u64) *void; free(*void) void; atoll(*i8) i64; passed; \
memcmp(*void, *void, u64) i32; passed; __bswap(u32) u32 {return ((__bsx >> 24) | (__bsx << 24));}; \
types; types; types; last: *#1; push(*#1, i64) *#1 {e: *#1 = <*#1> malloc((sizeof <#1>));\
if ((!e)) {return top;}(e->kind) := NUMBER;((e->value).number) := n;(e->next) := top;last := e;\
return e;}";

/// Items, and what ends one.
const FILES: &str = "; => passed
;;int x;; => passed; passed; x: i32; passed
int /* ; */ x /* { */; => x: i32
int f(void) { /* } */ ; } // int y; => f() i32 {;}
typedef int t; t x; int f(t t) { return 0; } => types; x: i32; passed
typedef __signed__ char s8; int f(__const__ s8 *__restrict__ p) { __volatile __signed x = *p; return x; } => \
types; f(*i8) i32 {x: i32 = (*p);return x;}";

/// A body ends an item, and another list in braces does not.
const ENDS: &str = "int f(void) { ; } int x; => f() i32 {;}; x: i32
struct s { int a; } x; int y; => x: #0; y: i32
int a[] = { 1 }; int y; => passed; y: i32
int f(void) { { } } int y; => f() i32 {{}}; y: i32
int f(void) __attribute__((x)) { } int y; => f() i32 {}; y: i32
int f(void) asm { } int y; ; => passed; passed";

/// Functions.
const FUNCTIONS: &str = "int f(void); int f(void) { } => f() i32; f() i32 {}
int f(void) { } int f(void); => f() i32 {}; f() i32
int f(void) { } int f(void) { } => f() i32 {}; passed
int f(void); int f(int a) { } => f() i32; passed
int f; int f(void) { } => f: i32; passed
typedef int f(void) { } => passed
struct s { int a; } f(void) { } => f() #0 {}
__attribute__((noinline)) static int f(void) { } => f() i32 {}
enum { A } f(int B) { return A; } => f(i32) i32 {return A;}
int f(a) int a; { return a; } => unclosed 16 17";

/// Names that an item declares stand for later ones.
const LATER: &str = "int f(void) { t x; } typedef int t; => passed; types
struct s *f(struct s *p) { return p; } struct s { int a; }; => f(*#0) *#0 {return p;}; types
float f(struct s *p); struct t *q; => passed; q: *#0";

/// Brackets.
const BRACKETS: &str = "int => unclosed 0 3
int x; int y => unclosed 7 10
int x; ) => unclosed 7 8
int f(void) {  => unclosed 12 13
int a[3; => unclosed 5 6
int a[3); => unclosed 5 6
int x; } => unclosed 7 8
int x; { } => unclosed 7 8
( { ) } => unclosed 0 1
( ) ] { => unclosed 4 5
{ (  => unclosed 0 1
int x }; ( => unclosed 6 7";

/// The names by which items that are passed over name functions.
const NAMED: &str = "int f(void); => none
void foo(void) { float x; } => foo
int (g)(int x) { return 1; } => int g
int ((g))(int x); => int g
int f(a, b) int a; => f
float f(float), g(int (*h)(int)); => f g int h
int f __attribute__((x)) (void); => __attribute__ x
int (*(*t)[3])(void); => int t
int (*t[3])(void); => int t
float x = sizeof(int); => sizeof
float a[f(1)]; => none
float f(void) { g(1); } => f
float f(x(y)); => f x
float f; ; float f(int); => f";

fn read_text(alloc: Global, read: &Result<Unit, UnitFault>) -> Result<String, AllocError> {
    match read {
        Ok(unit) => items_text(alloc, unit),
        Err(UnitFault::TooDeep(s)) => format!(in alloc; "deep {} {}", s.first, s.past),
        Err(UnitFault::Unclosed(s)) => format!(in alloc; "unclosed {} {}", s.first, s.past),
        Err(UnitFault::NoMemory) => format!(in alloc; "no memory"),
    }
}

/// What the text declares, item by item, or why it is refused.
fn declared(rt: &impl Abort, alloc: Global, text: &str) -> Result<String, Fail> {
    let unit = read(rt, alloc, text)?;
    made(read_text(alloc, &unit))
}

/// Compares what the text declares with what is expected.
fn check_text(rt: &impl Abort, alloc: Global, text: &str, expected: &str) -> Result<(), Fail> {
    let found = declared(rt, alloc, text)?;
    assert_eq!(rt; found.as_str(), expected);
    Ok(())
}

fn check(rt: &impl Abort, alloc: Global, table: &str) -> Result<(), Fail> {
    for line in table.lines() {
        let (text, expected) = sides(rt, line);
        check_text(rt, alloc, text, expected)?;
    }
    Ok(())
}

#[test]
fn files(rt: HostRuntime) -> Result<(), Fail> {
    check(&rt, rt.alloc(), FILES)?;
    check(&rt, rt.alloc(), ENDS)?;
    check(&rt, rt.alloc(), FUNCTIONS)?;
    check(&rt, rt.alloc(), LATER)?;
    check(&rt, rt.alloc(), BRACKETS)
}

#[test]
fn whole_files(rt: HostRuntime) -> Result<(), Fail> {
    check_text(&rt, rt.alloc(), "", "")?;
    check_text(&rt, rt.alloc(), " /* nothing */ ", "")?;
    check_text(
        &rt,
        rt.alloc(),
        PREPROCESSED,
        "passed; one() i32 {return 1;}",
    )?;
    check_text(&rt, rt.alloc(), GET, GET_ITEMS)?;
    check_text(&rt, rt.alloc(), PAGE, PAGE_ITEMS)
}

/// The names by which items that are passed over name functions.
fn named_text(alloc: Global, unit: &Unit) -> Result<String, AllocError> {
    let mut text = String::new(alloc);
    for (i, n) in unit.named.as_slice().iter().enumerate() {
        if i > 0 {
            text.push_str(" ")?;
        }
        text.push_str(name(unit, *n))?;
    }
    if text.is_empty() {
        text.push_str("none")?;
    }
    Ok(text)
}

fn named(rt: &impl Abort, alloc: Global, text: &str) -> Result<String, Fail> {
    let unit = unit_of(rt, alloc, text)?;
    made(named_text(alloc, &unit))
}

fn check_names(rt: &impl Abort, alloc: Global, table: &str) -> Result<(), Fail> {
    for line in table.lines() {
        let (text, expected) = sides(rt, line);
        let found = named(rt, alloc, text)?;
        assert_eq!(rt; found.as_str(), expected);
    }
    Ok(())
}

#[test]
fn names_of_functions(rt: HostRuntime) -> Result<(), Fail> {
    check_names(&rt, rt.alloc(), NAMED)
}

fn passed_at(unit: &Unit, at: usize) -> Option<Span> {
    match unit.items.as_slice().get(at)? {
        Item::Passed(span) => Some(*span),
        Item::Known(_) => None,
    }
}

/// The place of an item that is passed over, in a text.
fn passed(rt: &impl Abort, alloc: Global, text: &str, at: usize) -> Result<Option<Span>, Fail> {
    let unit = unit_of(rt, alloc, text)?;
    Ok(passed_at(&unit, at))
}

#[test]
fn passed_spans(rt: HostRuntime) -> Result<(), Fail> {
    let text = "typedef int t; t x; int f(t t) { return 0; }";
    let found = passed(&rt, rt.alloc(), text, 2)?;
    assert!(rt;
        found
            == Some(Span {
                first: 20,
                past: 44
            })
    );
    let text = "void foo(void) {\n  float x;\n}";
    let found = passed(&rt, rt.alloc(), text, 0)?;
    assert!(rt; found == Some(Span { first: 0, past: 29 }));
    Ok(())
}
