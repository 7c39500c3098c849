use cx_base::Span;
use cx_cread::read_unit;
use cx_ctree::Unit;
use cx_lex::lex;
use cx_tread::{TypeFault, read_types};
use std::alloc::Global;
use std::process::Abort;
use std::test::Fail;

/// The C file beside which the type files of the tables are read.
const BESIDE: &str = "struct vec { unsigned long len; long *data; };
struct s { char c; int i; };
struct arr { int n; short v[3]; };
union pay { long num; struct vec *vec; };
struct msg { int tag; union pay u; };
struct value { int val; };
struct open;
typedef int word;
long number;
void *malloc(unsigned long k);
void none(void);
int one(int x);
unsigned long two(unsigned long x, struct vec *p);
struct vec whole(void);
float passed(float x) { return x; }
";

/// What the functions of worked programs take and give.
const WORKED: &str = "struct vec { unsigned long len; long *data; };
struct node { int key; struct node *next; };
union pay { long num; struct vec *vec; };
struct msg { int tag; union pay u; };
struct s { char c; int i; };
extern void *malloc (unsigned long __size) __attribute__ ((__malloc__));
long get(struct vec *v, unsigned long i);
int sum(struct node *p);
void set(struct vec *v, unsigned long n, long *d);
void ping(void);
long first(struct vec *a, struct vec *b, unsigned long n, long *d);
unsigned long take(struct msg *m);
void fill(long *a, unsigned long n);
struct node *push(struct node *top, int k);
int one(void);
unsigned long quot(unsigned long x, unsigned long y);
int sh(int s);
";

/// The type files of worked programs.
const WORKED_FILES: &str =
    "region larr(n) = any8[n]; region vec = some n of struct vec { len: val n; data: ptr larr(n); }; fn get(ptr vec, any) -> any; => tree
region node = struct node { key: any4; next: ptr node null; }; fn sum(ptr node null) -> any; => tree
region larr(n) = any8[n]; region vec = some n of struct vec { len: val n; data: ptr larr(n); }; fn set some n (ptr vec, val n, ptr larr(n)) -> void; fn ping() -> void; => tree
region larr(n) = any8[n]; region vec = some n of struct vec { len: val n; data: ptr larr(n); }; region wec = some n of struct vec { len: val n; data: ptr larr(n); }; fn first some n (ptr vec, ptr wec, val n, ptr larr(n)) -> any; => tree
region larr(n) = any8[n]; region vec = some n of struct vec { len: val n; data: ptr larr(n); }; region msg = some t of struct msg { tag: val t; u: cases { when t == 0: any8; when t == 1: ptr vec; }; }; fn take(ptr msg) -> any; => tree
region larr(n) = any8[n]; fn fill some n (ptr larr(n), val n) -> void; => tree
region node = struct node { key: any4; next: ptr node null; }; alloc malloc(k) for struct node = node bytes k; fn push(ptr node null, any) -> ptr node null; => tree
fn one() -> val 1; => tree
fn quot(any, any) -> any; fn sh(any) -> any; => tree
region s = { any1; any3; any4; } as struct s; => tree
region s = { any1; any4; } `as struct s`; => BadSize
region a(n) = any8[n + 1]; region `a`(n) = any8; => Doubled
region b = some `x` of any8; => Undetermined
region c = ptr `d`; => UnknownName
fn `foo`() -> void; => UnknownName";

/// Files that are read.
const FILES: &str = " => tree
/* nothing */ => tree
region u = any1; region s = any1; region any8x = any1; region U8 = any1; => tree
region a = ptr b; region b = any8; => tree
region a = union pay { num: any; }; region b = union pay { vec: ptr a null; }; => tree
region a = struct arr { n: any; v: any2[3]; }; => tree
region a = struct value { val: val 3; }; => tree
fn none() -> void; fn one(s4 0) -> any; fn two(u8 7, ptr a) -> u8 0; region a = any8[2]; => tree
fn passed(any4) -> u8 1; => tree
alloc malloc(k) for word = a(k / 4) bytes k zero; region a(n) = any4[n]; => tree
alloc malloc(k) for int = a bytes k; region a = any8; alloc malloc(k) for long = a bytes k; => tree
global number = a(2); region a(n) = any4[n]; => tree
region a = { some x of u8 x; some x of u8 x; }; => tree
region a(n) = some n2 of ptr a(n2) + 8 where n2 <= n; => tree";

/// Where no token begins.
const NO_TOKENS: &str = "`/`* region a = any8; => OpenComment
region a = any8; `/`* => OpenComment
`\"`region a = any8; => OpenText
region a = any8; `'`x => OpenText
`@` region a = any8; => BadByte
region a = any8`<`:8; => BadByte
`@` /* => BadByte
`'` @ => OpenText";

/// What a type file does not have at a place.
const UNREAD: &str = "`any8` => Syntax
region a = `any8` => Syntax
region a = any8; `fn` => Syntax
region `union` = any8; => Syntax
region a = any8; region b = `u3` 1; => Syntax
region a = `any0`; => Syntax
region a = any8 where 0 < 1 `<` 2; => Syntax
region a = any8; alloc malloc(k) for `number` = a bytes k; => Syntax
region a = any8 `any8`; region region; => Syntax";

/// Linear forms, relations and divisors that break their rule, and those at the limits, which do not.
const FORMS: &str = "region a(n) = any8[4294967296*n]; => tree
region a(n) = any8[`4294967297*n`]; => Syntax
region a(n) = any8; region b(n) = any8[`4294967296*n + n`]; => Syntax
region a(b, c, d, e, f) = any8[b + c + d + e + f - f]; => tree
region a(b, c, d, e, f) = any8[`b + c + d + e + f`]; => Syntax
region a(b, c, d, e, f) = any8 where 0 < 1, `b + c < d + e + f`; => Syntax
region a(b) = any8 where 4294967296*b > `4294967297*b`; => Syntax
region a(b) = any8 where `4294967296*b > - b`; => Syntax
region a(n) = any8[n]; alloc malloc(k) for int = a(k / `0`) bytes k; => Syntax";

/// Names that are not known.
const UNKNOWN: &str = "region a = ptr `b`; => UnknownName
region a = ptr a; region c = { ptr a; ptr `d`; }; => UnknownName
region a = any8[`n`]; => UnknownName
region a(n) = any8[n] where n < `m`; => UnknownName
region a = struct `pay` { num: any; }; => UnknownName
region a = struct vec { len: any; `size`: any; }; => UnknownName
region a = struct open { `x`: any; }; => UnknownName
region a = { any8; } as struct `nothing`; => UnknownName
fn none() -> void; fn `nothing`() -> void; => UnknownName
fn one(val `x`) -> any; => UnknownName
fn one some x (val x) -> some y of val y where y < `z`; => UnknownName
alloc `nothing`(k) for int = a bytes k; region a = any8; => UnknownName
alloc malloc(k) for struct `nothing` = a bytes k; region a = any8; => UnknownName
alloc malloc(k) for int = `b` bytes k; => UnknownName
alloc malloc(k) for int = a bytes `n`; region a = any8; => UnknownName
global `one` = a; region a = any4; => UnknownName
global number = `b`; => UnknownName";

/// Names that are declared twice.
const TWICE: &str = "region a = any8; region `a` = any8; => Doubled
region a = any8; region b = any8; region c = any8; region `b` = any8; region c = any8; => Doubled
fn none() -> void; fn `none`() -> void; => Doubled
global number = a; region a = any8; global `number` = a; => Doubled
alloc malloc(k) for int = a bytes k; region a = any8; alloc `malloc`(k) for word = a bytes k; => Doubled
alloc malloc(k) for int = a bytes k; region a = any8; fn `malloc`(any) -> any; => Doubled
fn malloc(any) -> any; region a = any8; alloc `malloc`(k) for int = a bytes k; => Doubled
alloc malloc(k, `k`) for int = a bytes k; region a = any8; => Doubled
region a(n, `n`) = any8; => Doubled
region a(n) = some `n` of u8 n; => Doubled
region a = some x of { u8 x; some `x` of u8 x; }; => Doubled
fn one some x, `x` (val x) -> any; => Doubled
fn one some x (val x) -> some `x` of val x; => Doubled";

/// Numbers that do not agree, and the limits of counts.
const COUNTS: &str = "region l(n) = any8[n]; region a = ptr `l`; => Arity
region l(n) = any8[n]; fn one(ptr `l`(1, 2)) -> any; => Arity
region l(n) = any8[n]; alloc malloc(k) for int = `l` bytes k; => Arity
region l(n) = any8[n]; global number = `l`; => Arity
alloc `malloc`(k, j) for int = a bytes k; region a = any8; => Arity
fn none() -> void; fn `one`() -> any; => Arity
fn `two`(any) -> any; => Arity
region a = struct vec { data: `any`; len: any; }; => Arity
region a = struct `vec` { len: any; }; => Arity
region a = struct vec { len: any; data: any; len: `any`; }; => Arity
region a = union `pay` { }; => Arity
region a = union pay { num: any; vec: `any`; }; => Arity
region a(b, c, d, e, f, g, h, i) = any8; => tree
region `a`(b, c, d, e, f, g, h, i, j) = any8; => Arity
region a = (some x of u1 x)[16]; => tree
region `a` = (some x of u1 x)[17]; => Arity
region a = (any1 where 0 < 1)[16]; => tree
region b = any8; region `a` = (any1 where 0 < 1)[17]; => Arity";

/// Symbols that nothing determines, and places that determine nothing.
const OPEN: &str = "region b = some `x` of any8; => Undetermined
region a = any8; region b = some x, `y` of u8 x; => Undetermined
fn one some `x` (any) -> any; => Undetermined
fn one(any) -> some `x` of any; => Undetermined
region a = some `x` of u8 2*x; => Undetermined
region a = some `x` of u8 x - x; => Undetermined
region l(n) = any8[n]; region a = some n of ptr l(n); => tree
region l(n) = any8[n]; region a = some `n` of ptr l(n) null; => Undetermined
region l(n) = any8[n]; region a = some `n` of ptr l(n) + n; => Undetermined
region a = cases { when 0 < 1: some x of u8 x; }; => tree
region a = some `x` of { cases { when 0 < 1: u8 x; }; u8 x; }; => Undetermined
region a(n) = some x of { u8 x; any8[n]; }; => tree
region a(n) = { `any8[n]`; any8; }; => Undetermined
region a = some x of { u8 x; `any8[x]`; }; => Undetermined
region a(n) = (`any8[n]`)[2]; => Undetermined
region a(n) = cases { when 0 < 1: `any8[n]`; }; => Undetermined
region a(n) = some x of { u8 x; (u8 `x`)[n]; }; => Undetermined
region a = `cases { when 0 < 1: any8; }[2]`; => Undetermined
region a = { cases { when 0 < 1: any8; }; `cases { when 0 < 1: any8; }`; }; => Undetermined";

/// Sizes that are wrong, and those at the limits, which are not.
const SIZES: &str = "region a = `any`; => BadSize
region a = any8; region b = { any8; `val 3`; }; => BadSize
region a = struct vec { len: `any4`; data: any; }; => BadSize
region a = struct vec { len: any; data: `u4 0`; }; => BadSize
region a = struct arr { n: any; v: `any`[3]; }; => BadSize
region a = struct msg { tag: any; u: `val 1`; }; => BadSize
region a = `struct open { }`; => BadSize
region a = cases { when 0 < 1: any8; when 0 < 2: `any4`; }; => BadSize
region a = { any8[0]; any8; }; => tree
region a = `any8[-1]`; => BadSize
region a = `{ }[1]`; => BadSize
region a = `{}[18446744073709551615u]`; => BadSize
region a(n) = `{ }[n]`; => BadSize
region a(n) = (any1[1024])[n]; => tree
region a(n) = `(any1[1025])[n]`; => BadSize
region a(n) = (`any1[2147483649]`)[n]; => BadSize
region a(n) = `(any1[2147483648])[n]`; => BadSize
region a = any1[1024]; => tree
region a = `{ any1[1024]; any1; }`; => BadSize
fn none() -> `any`; => BadSize
fn one(any) -> `void`; => BadSize
fn one(`u4 0`) -> any; => BadSize
fn one(`any8`) -> any; => BadSize
fn one(any) -> `ptr a`; region a = any8; => BadSize
fn two(any, `s8 0`) -> any; => BadSize
fn whole() -> `any16`; => BadSize
fn passed(`any`) -> any4; => BadSize
fn passed(any4) -> `val 1`; => BadSize
global `number` = a; region a = any4; => BadSize
global number = a(2); region a(n) = any4[n]; global `number` = a(1); => Doubled";

/// Files with several faults.
const SEVERAL: &str =
    "region a = any; region b = some x of any8; fn one() -> any; region a = any8; region c = ptr d; region e(n) = any8[4294967297*n]; region region; `@` => BadByte
region a = any; region b = some x of any8; fn one() -> any; region a = any8; region c = ptr d; region e(n) = any8[4294967297*n]; region `region`; => Syntax
region a = any; region b = some x of any8; fn one() -> any; region a = any8; region c = ptr d; region e(n) = any8[`4294967297*n`]; => Syntax
region a = any; region b = some x of any8; fn one() -> any; region a = any8; region c = ptr `d`; => UnknownName
region a = any; region b = some x of any8; fn one() -> any; region `a` = any8; => Doubled
region a = any; region b = some x of any8; fn `one`() -> any; => Arity
region a = any; region b = some `x` of any8; => Undetermined
region a = `any`; => BadSize
region a = { ptr `b`; ptr c; }; fn nothing() -> void; => UnknownName
fn `one`() -> any; region a = struct vec { len: any; }; => Arity
region a = some `x`, y of any8; region b = some x of any8; => Undetermined
region a = { (`any`)[0]; any; }; region b = any; => BadSize";

/// The two sides of a line: a text, and what is expected of it.
fn sides<'a>(rt: &impl Abort, line: &'a str) -> (&'a str, &'a str) {
    let Some((text, expected)) = line.split_once(" => ") else {
        panic!(rt; "no case: {line}");
    };
    (text, expected)
}

/// A text with marks before and behind what is at fault, without them; and where that stands.
fn unmarked(rt: &impl Abort, alloc: Global, marked: &str) -> Result<(String, Span), Fail> {
    let (before, others) = marked.split_once("`").unwrap_or((marked, ""));
    let (fault, after) = others.split_once("`").unwrap_or((others, ""));
    assert!(rt; before.len() <= 100000 && fault.len() <= 100000);
    let first = before.len() as u32;
    let place = Span {
        first,
        past: first + fault.len() as u32,
    };
    let text = format!(in alloc; "{before}{fault}{after}")?;
    Ok((text, place))
}

/// The fault of this name at this place; none of a tree.
pub fn fault_at(rt: &impl Abort, name: &str, place: Span) -> Option<TypeFault> {
    match name {
        "tree" => None,
        "OpenComment" => Some(TypeFault::OpenComment(place.first)),
        "OpenText" => Some(TypeFault::OpenText(place.first)),
        "BadByte" => Some(TypeFault::BadByte(place.first)),
        "TooDeep" => Some(TypeFault::TooDeep(place)),
        "Syntax" => Some(TypeFault::Syntax(place)),
        "UnknownName" => Some(TypeFault::UnknownName(place)),
        "Doubled" => Some(TypeFault::Doubled(place)),
        "Arity" => Some(TypeFault::Arity(place)),
        "Undetermined" => Some(TypeFault::Undetermined(place)),
        "BadSize" => Some(TypeFault::BadSize(place)),
        _ => panic!(rt; "no fault: {name}"),
    }
}

/// What the C file declares.
pub fn unit_of(rt: &impl Abort, alloc: Global, c: &str) -> Result<Unit, Fail> {
    assert!(rt; c.len() <= 10000);
    let tokens = lex(alloc, c.as_bytes())?;
    assert!(rt; tokens.len() <= 10000);
    Ok(read_unit(alloc, c.as_bytes(), tokens.as_slice())?)
}

/// Why the text is refused beside this unit, if it is.
pub fn fault_of(
    rt: &impl Abort,
    alloc: Global,
    text: &str,
    unit: &Unit,
) -> Result<Option<TypeFault>, Fail> {
    assert!(rt; text.len() <= 1000000);
    match read_types(alloc, text.as_bytes(), unit) {
        Ok(_) => Ok(None),
        Err(e) => Ok(Some(e)),
    }
}

fn check(rt: &impl Abort, alloc: Global, c: &str, table: &str) -> Result<(), Fail> {
    let unit = unit_of(rt, alloc, c)?;
    for line in table.lines() {
        let (marked, expected) = sides(rt, line);
        let (text, place) = unmarked(rt, alloc, marked)?;
        let found = fault_of(rt, alloc, &text, &unit)?;
        assert!(rt; found == fault_at(rt, expected, place), "{line}");
    }
    Ok(())
}

#[test]
fn worked_files(rt: HostRuntime) -> Result<(), Fail> {
    check(&rt, rt.alloc(), WORKED, WORKED_FILES)
}

#[test]
fn files(rt: HostRuntime) -> Result<(), Fail> {
    for table in [
        FILES, NO_TOKENS, UNREAD, FORMS, UNKNOWN, TWICE, COUNTS, OPEN, SIZES, SEVERAL,
    ] {
        check(&rt, rt.alloc(), BESIDE, table)?;
    }
    Ok(())
}
