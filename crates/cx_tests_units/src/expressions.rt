use crate::units::{items_of, sides, unit_of};
use cx_base::Span;
use cx_ctree::{Decl, Effect, Function, Item, StmtKind, Unit};
use cx_tests_reading::{CASTS, LEAVES, LEVELS, PREFIXES, SPANS, SUFFIXES};
use std::alloc::Global;
use std::process::Abort;
use std::test::Fail;

const BEFORE: &str = "typedef int t; struct s { int m; struct s *n; };
int f(int a, int b, int c, int *p, struct s x, struct s *q) { ";

const SHOWN: &str = "types; types; f(i32, i32, i32, *i32, #0, *#0) i32 {";

/// What a file declares of which the last function has this expression as its body.
fn with_body(rt: &impl Abort, alloc: Global, text: &str) -> Result<String, Fail> {
    let whole = format!(in alloc; "{BEFORE}{text}; }}")?;
    items_of(rt, alloc, &whole)
}

/// Compares the expression, as the body of a function, with its shape.
fn check_shape(rt: &impl Abort, alloc: Global, text: &str, shape: &str) -> Result<(), Fail> {
    let expected = format!(in alloc; "{SHOWN}{shape};}}")?;
    let found = with_body(rt, alloc, text)?;
    assert_eq!(rt; found.as_str(), expected.as_str());
    Ok(())
}

fn check(rt: &impl Abort, alloc: Global, table: &str) -> Result<(), Fail> {
    for line in table.lines() {
        let (text, shape) = sides(rt, line);
        check_shape(rt, alloc, text, shape)?;
    }
    Ok(())
}

#[test]
fn shapes(rt: HostRuntime) -> Result<(), Fail> {
    check(&rt, rt.alloc(), LEAVES)?;
    check(&rt, rt.alloc(), LEVELS)?;
    check(&rt, rt.alloc(), PREFIXES)?;
    check(&rt, rt.alloc(), SUFFIXES)?;
    check(&rt, rt.alloc(), CASTS)
}

/// The function that the last item defines.
fn last_function(unit: &Unit) -> Option<&Function> {
    match unit.items.as_slice().last()? {
        Item::Passed(_) => None,
        Item::Known(decls) => match decls.as_slice().last()? {
            Decl::Body(function) => Some(function),
            Decl::Types | Decl::Object(_, _) | Decl::Proto(_) => None,
        },
    }
}

/// The place of the expression that is the first statement of the last function.
fn first_span(unit: &Unit) -> Option<Span> {
    let StmtKind::Block(all) = &last_function(unit)?.body.kind else {
        return None;
    };
    match &all.as_slice().first()?.kind {
        StmtKind::Effect(Effect::Value(e)) => Some(e.span),
        _ => None,
    }
}

fn span_in(rt: &impl Abort, alloc: Global, whole: &str) -> Result<Option<Span>, Fail> {
    let unit = unit_of(rt, alloc, whole)?;
    Ok(first_span(&unit))
}

fn cut(text: &str, span: Option<Span>) -> &str {
    match span {
        Some(span) => match text.get(span.first as usize..span.past as usize) {
            Some(piece) => piece,
            None => "no piece",
        },
        None => "no expression",
    }
}

/// Compares the piece of the text at the place of its expression with what is expected.
fn check_span(rt: &impl Abort, alloc: Global, text: &str, expected: &str) -> Result<(), Fail> {
    let whole = format!(in alloc; "{BEFORE}{text}; }}")?;
    let span = span_in(rt, alloc, &whole)?;
    assert_eq!(rt; cut(&whole, span), expected);
    Ok(())
}

fn check_spans(rt: &impl Abort, alloc: Global, table: &str) -> Result<(), Fail> {
    for line in table.lines() {
        let (text, expected) = sides(rt, line);
        check_span(rt, alloc, text, expected)?;
    }
    Ok(())
}

#[test]
fn spans(rt: HostRuntime) -> Result<(), Fail> {
    check_spans(&rt, rt.alloc(), SPANS)
}
