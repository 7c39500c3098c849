use crate::units::{items_of, sides};
use std::alloc::Global;
use std::process::Abort;
use std::test::Fail;

/// The words of an integer type, in any order.
const INTEGERS: &str = "char x; => x: i8
signed char x; => x: i8
char unsigned x; => x: u8
short x; => x: i16
int signed short x; => x: i16
unsigned short x; => x: u16
signed x; => x: i32
unsigned x; => x: u32
int unsigned x; => x: u32
long x; => x: i64
long long x; => x: i64
long signed int long x; => x: i64
unsigned long long int x; => x: u64
int long unsigned long x; => x: u64
long int unsigned x; => x: u64
long unsigned int long x; => x: u64
long long long x; => passed
short long x; => passed
char int x; => passed
signed unsigned x; => passed
int int x; => passed
unsigned void x; => passed
unsigned long int long x; => x: u64
unsigned int long long x; => x: u64
long unsigned long int x; => x: u64
long long unsigned int x; => x: u64
long long int unsigned x; => x: u64
long int unsigned long x; => x: u64
long int long unsigned x; => x: u64
int unsigned long long x; => x: u64
int long long unsigned x; => x: u64
__signed char x; => x: i8
long __signed__ int x; => x: i64
signed __signed__ x; => passed";

/// Words beside a type, and declarators.
const DECLARATORS: &str = "const int volatile x; => x: i32
int typedef t; t x; => types; x: i32
extern const char *const *volatile x; => x: **i8
int *p, **q, r; => p: *i32, q: **i32, r: i32
int a[3][4]; => a: [3][4]i32
char *a[2]; => a: [2]*i8
typedef int row[4]; row *p; => types; p: *[4]i32
void *p; => p: *void
struct s { int a; }; typedef struct s row[4]; row *p, *q[2]; => types; types; p: *[4]#0, q: [2]*[4]#0
struct s { int a; }; void f(struct s a[][3]); => types; f(*[3]#0) void
__const__ char *__restrict__ x, *__volatile *__const y; => x: *i8, y: **i8
typedef __signed__ int __s32; struct s { __s32 a; __signed long b; }; char x[sizeof(struct s)]; => types; types; x: [16]i8";

/// Structs and unions.
const STRUCTS: &str = "struct s { int a; long *b, c[2]; }; struct s x; => types; x: #0
struct s *p; => p: *#0
struct s { struct s *next; } x; => x: #0
struct s { struct t { int a; } in; struct t *p; } x; struct t y; => x: #0; y: #1
struct { int a; } x, *p; struct { int a; } y; => x: #0, p: *#0; y: #1
union u { int a; char b[4]; } x; => x: #0
struct s; struct s { int a; }; struct s a[2]; => types; types; a: [2]#0
typedef struct node { struct node *next; } node, *list; list l; node n; => types, types; l: *#0; n: #0
typedef int a; struct s { int a; a b; } x; => types; x: #0
union u { struct { int a; } b; union u *c; } x, *y; => x: #0, y: *#0";

/// Enumerations.
const ENUMERATIONS: &str = "enum e { A, B = 5, C, }; int a[C]; => types; a: [6]i32
enum { N = sizeof(long) * 2 }; char a[N]; => types; a: [16]i8
enum e { A } x; enum e y; => x: i32; y: i32
enum { A = -1, B, C }; int a[C]; => types; a: [1]i32
enum { A = 3, B = A * A }; int a[B]; => types; a: [9]i32
enum { A = 2147483647 } x; => x: i32
enum { A = -2147483647 - 1 } x; => x: i32";

/// Names of types.
const TYPEDEFS: &str =
    "typedef unsigned long size_t; typedef size_t word; word *w; => types; types; w: *u64
typedef int a; typedef a *b; typedef b c[2]; typedef c *d; d e; => types; types; types; types; e: *[2]*i32";

/// Functions.
const FUNCTIONS: &str = "int f(void); => f() i32
int f(); => f() i32
extern void *malloc(unsigned long n) __attribute__((__malloc__)); => malloc(u64) *void
extern int g(int, char *s, long a[3], struct s *p) __asm__(\"g2\"); => g(i32, *i8, *i64, *#0) i32
static inline int h(register int x); => h(i32) i32
__attribute__((noreturn)) void die(void); => die() void
void die(void) __attribute__((noreturn, cold)) __attribute__((used)); => die() void
__extension__ int f(const void); => f(void) i32
int f(void x); => f(void) i32
void f(int a[]); => f(*i32) void
void f(int a[][4]); => f(*[4]i32) void
void f(int a[2][4], char []); => f(*[4]i32, *i8) void
int f(int), g, *h(void); => f(i32) i32, g: i32, h() *i32
extern int *g(unsigned char c) __attribute__((__nothrow__, __leaf__)) __attribute__((__alloc_size__(1))); => g(u8) *i32";

/// What may be declared again.
const AGAIN: &str = "int x; extern int x; => x: i32; x: i32
typedef int t; typedef int t; => types; types
int f(int a); int f(int b); => f(i32) i32; f(i32) i32
int f(int a[3]); int f(int *); => f(*i32) i32; f(*i32) i32
enum e { A }; enum e { B } x; => types; x: i32";

/// Sizes of arrays.
const SIZES: &str = "int a[2147483648]; => a: [2147483648]i32
int a['a']; => a: [97]i32
int a[(long)3]; => a: [3]i32
int a[(void *)0 == 0]; => a: [1]i32
int a[1 ? 2 : 1 / 0]; => a: [2]i32
int a[0 && 1 / 0 || 3]; => a: [1]i32
int a[-1 < 1u ? 1 : 2]; => a: [2]i32
int a[~0u >> 30]; => a: [3]i32
int a[(char)300]; => a: [44]i32
int a[(unsigned char)-1]; => a: [255]i32
int a[!5 + 2]; => a: [2]i32
int a[7 / 2 * 2 - 7 % 4]; => a: [3]i32
int a[1 << 4 | 3]; => a: [19]i32
int a[0x10 + 010 + 10]; => a: [34]i32
int a[-7 / 2 + 5]; => a: [2]i32
int a[-7 % 2 + 5]; => a: [4]i32
int a[-8 >> 1 == -4 ? 3 : 4]; => a: [3]i32
int a[(char *)12 - (char *)9]; => a: [3]i32
int a[(long *)24 - (long *)8]; => a: [2]i32
struct s { char a; long b; }; int a[sizeof(struct s)]; => types; a: [16]i32
int a[sizeof(void *) + sizeof(short)]; => a: [10]i32";

/// Initialisers of a file.
const INITIALISERS: &str = "int x = 3, y = -1; => x: i32, y: i32
int *p = 0; char *q = (char *)4096; => p: *i32; q: *i8
long p = (long)(char *)8; => p: i64";

/// Names of parameters in sizes.
const PARAMETERS: &str = "enum { N = 3 }; int f(int M, int a[N]); => types; f(i32, *i32) i32
struct s { int a; }; int f(int s, int a[sizeof(struct s)]); => types; f(i32, *i32) i32
enum { N = 3 }; int f(int N, int a[N]); => types; passed
enum { N = 3 }; int f(int a[N], int N); => types; passed";

/// What is passed over.
const PASSED_OVER: &str = "struct s { int a : 3; }; => passed
struct s { int n; int a[]; }; => passed
struct s { int; }; => passed
struct s { struct { int a; }; }; => passed
struct s { }; => passed
int (*f)(void); => passed
int printf(const char *, ...); => passed
float x; => passed
_Bool b; => passed
int *__signed; => passed
int x, __restrict__; => passed
__int128 x; => passed
struct s { int a; }; struct s { int a; }; => types; passed
struct s; union s; => types; passed
struct s { int a; long a; }; => passed
int x; long x; => x: i32; passed
int x; int x(void); => x: i32; passed
typedef int t; typedef long t; => types; passed
typedef int t; int t; => types; passed
typedef int t; int f(t t); => types; passed
enum { A }; int A; => types; passed
enum { A, A }; => passed
enum { A = 2147483647, B }; => passed
enum { A = 2147483648 }; => passed
enum e x; => passed
void f(struct s { int a; } *p); => passed
void f(enum { A } e); => passed
struct s { int a __attribute__((packed)); }; => passed
struct s { int a; } __attribute__((packed)); => passed
struct __attribute__((packed)) s { int a; }; => passed
int x __attribute__((aligned(8))); => passed
__attribute__((unused)) int x; => passed
int f(void) __attribute__((mode(DI))); => passed
struct s { struct t a; }; => passed
struct s { struct s a; }; => passed
void a[3]; => passed
int a[0]; => passed
int a[2147483649]; => passed
struct s { int : 3; }; => passed
union u { int a : 3; }; => passed
struct s { int a[]; }; => passed
struct s { union { int a; }; int b; }; => passed
struct s { int (*f)(void); }; => passed
int f(int (*g)(void)); => passed
typedef int (*f)(void); => passed
int f(int g(void)); => passed
double x; => passed
long double x; => passed
float f(int); => passed
int f(double); => passed
typedef double t; => passed
struct s { float a; }; => passed
union u { int a; }; union u { int a; }; => types; passed
int f(void); long f(void); => f() i32; passed
int f(int); int f(long); => f(i32) i32; passed
int x; extern unsigned x; => x: i32; passed
int f(void); int f; => f() i32; passed
int f(union { int a; } u); => passed
enum { A = -2147483649 }; => passed";

/// Further texts that are passed over.
const ALSO_PASSED_OVER: &str = "int a[-1];
int a[1 << 31];
int a[sizeof 1];
int a[sizeof(struct s)];
int a[1 / 0];
int a[x];
int x = y;
char *s = \"a\";
int a[2] = {1, 2};
int x = 1 / 0;
typedef int t = 3;
int f(void) = 3;
long const int x;
int f(int x, int a[x]);
struct s { void v; };";

/// Compares what each line declares with what is expected.
fn check(rt: &impl Abort, alloc: Global, table: &str) -> Result<(), Fail> {
    for line in table.lines() {
        let (text, expected) = sides(rt, line);
        let found = items_of(rt, alloc, text)?;
        assert_eq!(rt; found.as_str(), expected);
    }
    Ok(())
}

#[test]
fn declarations(rt: HostRuntime) -> Result<(), Fail> {
    check(&rt, rt.alloc(), INTEGERS)?;
    check(&rt, rt.alloc(), DECLARATORS)?;
    check(&rt, rt.alloc(), STRUCTS)?;
    check(&rt, rt.alloc(), ENUMERATIONS)?;
    check(&rt, rt.alloc(), TYPEDEFS)?;
    check(&rt, rt.alloc(), FUNCTIONS)?;
    check(&rt, rt.alloc(), AGAIN)?;
    check(&rt, rt.alloc(), SIZES)?;
    check(&rt, rt.alloc(), INITIALISERS)?;
    check(&rt, rt.alloc(), PARAMETERS)?;
    Ok(())
}

fn check_passed(rt: &impl Abort, alloc: Global, table: &str) -> Result<(), Fail> {
    for text in table.lines() {
        let found = items_of(rt, alloc, text)?;
        assert_eq!(rt; found.as_str(), "passed");
    }
    Ok(())
}

#[test]
fn items_that_are_passed_over(rt: HostRuntime) -> Result<(), Fail> {
    check(&rt, rt.alloc(), PASSED_OVER)?;
    check_passed(&rt, rt.alloc(), ALSO_PASSED_OVER)
}
