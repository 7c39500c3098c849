use crate::cases::{CASTS, LEAVES, LEVELS, PREFIXES, SPANS, SUFFIXES};
use crate::units::{Declared, declare, made, sides};
use cx_base::Span;
use cx_cexpr::cond;
use cx_ctree::{Expr, Unit};
use cx_cword::Lexeme;
use cx_tests_shown::expr_text;
use std::alloc::{AllocError, Global};
use std::process::Abort;
use std::test::Fail;

/// What is no expression of the subset.
const LEFT_OUT: &str = "a, b
a = b
a += b
a++
--a
*p++
f(a)
a + f(b)
(struct s){1}
a ?: b
&&l
1.5
018
'ab'
\"a\"
t
t + 1
sizeof(int[2])
(struct u *) a
(long const int) a
a b
(a
a ? b
a +
{ a }
p[
p.
_Generic(a, int: 1)";

const BEFORE: &str = "typedef int t; struct s { int m; struct s *n; }; ";

/// The expression that all of the lexemes are.
fn whole(alloc: Global, known: &Unit, turns: usize, lexemes: &[Lexeme]) -> Option<Expr> {
    match cond(alloc, known, turns, 400, lexemes) {
        Ok(read) => {
            if read.rest.is_empty() {
                Some(read.tree)
            } else {
                None
            }
        }
        Err(_) => None,
    }
}

/// The expression that all lexemes after the declarations are.
fn expression(rt: &impl Abort, alloc: Global, found: &Declared) -> Option<Expr> {
    assert!(rt; found.lexemes.len() <= 16777216);
    assert!(rt; found.read <= found.lexemes.len());
    let rest = &found.lexemes.as_slice()[found.read..];
    whole(alloc, &found.unit, 16 * rest.len() + 5, rest)
}

fn shape_after(rt: &impl Abort, alloc: Global, found: &Declared) -> Result<String, AllocError> {
    match expression(rt, alloc, found) {
        Some(e) => expr_text(alloc, &found.unit, &e),
        None => format!(in alloc; "no expression"),
    }
}

fn shape_in(rt: &impl Abort, alloc: Global, whole: &str) -> Result<String, Fail> {
    let found = declare(rt, alloc, whole)?;
    made(shape_after(rt, alloc, &found))
}

/// The shape of the expression that the text is.
fn shape(rt: &impl Abort, alloc: Global, text: &str) -> Result<String, Fail> {
    let whole = format!(in alloc; "{BEFORE}{text}")?;
    shape_in(rt, alloc, &whole)
}

fn span_after(rt: &impl Abort, alloc: Global, found: &Declared) -> Option<Span> {
    match expression(rt, alloc, found) {
        Some(e) => Some(e.span),
        None => None,
    }
}

fn span_in(rt: &impl Abort, alloc: Global, whole: &str) -> Result<Option<Span>, Fail> {
    let found = declare(rt, alloc, whole)?;
    Ok(span_after(rt, alloc, &found))
}

fn cut(text: &str, span: Option<Span>) -> &str {
    match span {
        Some(span) => match text.get(span.first as usize..span.past as usize) {
            Some(piece) => piece,
            None => "no piece",
        },
        None => "no expression",
    }
}

/// Compares the piece of the text at the place of its expression with what is expected.
fn check_span(rt: &impl Abort, alloc: Global, text: &str, expected: &str) -> Result<(), Fail> {
    let whole = format!(in alloc; "{BEFORE}{text}")?;
    let span = span_in(rt, alloc, &whole)?;
    assert_eq!(rt; cut(&whole, span), expected);
    Ok(())
}

fn check_shape(rt: &impl Abort, alloc: Global, text: &str, expected: &str) -> Result<(), Fail> {
    let found = shape(rt, alloc, text)?;
    assert_eq!(rt; found.as_str(), expected);
    Ok(())
}

/// Compares each line's expression with its shape.
fn check(rt: &impl Abort, alloc: Global, table: &str) -> Result<(), Fail> {
    for line in table.lines() {
        let (text, expected) = sides(rt, line);
        check_shape(rt, alloc, text, expected)?;
    }
    Ok(())
}

fn check_spans(rt: &impl Abort, alloc: Global, table: &str) -> Result<(), Fail> {
    for line in table.lines() {
        let (text, expected) = sides(rt, line);
        check_span(rt, alloc, text, expected)?;
    }
    Ok(())
}

fn check_left_out(rt: &impl Abort, alloc: Global, table: &str) -> Result<(), Fail> {
    for text in table.lines() {
        check_shape(rt, alloc, text, "no expression")?;
    }
    Ok(())
}

#[test]
fn shapes(rt: HostRuntime) -> Result<(), Fail> {
    check(&rt, rt.alloc(), LEAVES)?;
    check(&rt, rt.alloc(), LEVELS)?;
    check(&rt, rt.alloc(), PREFIXES)?;
    check(&rt, rt.alloc(), SUFFIXES)?;
    check(&rt, rt.alloc(), CASTS)
}

#[test]
fn spans(rt: HostRuntime) -> Result<(), Fail> {
    check_spans(&rt, rt.alloc(), SPANS)
}

#[test]
fn constructs_left_out(rt: HostRuntime) -> Result<(), Fail> {
    check_left_out(&rt, rt.alloc(), LEFT_OUT)
}
