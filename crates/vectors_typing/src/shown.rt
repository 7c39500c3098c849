use cx_ctree::{CType, Call, Effect, Expr, ExprKind, Group, Rhs, Stmt, StmtKind, Unit};
use std::alloc::{AllocError, Global};

fn tag_text(alloc: Global, unit: &Unit, k: u32) -> Result<String, AllocError> {
    let Some(tag) = unit.tags.get(k as usize) else {
        return format!(in alloc; "tag #{k}");
    };
    let word = if tag.union_ { "union" } else { "struct" };
    match tag.name {
        None => format!(in alloc; "{word} #{k}"),
        Some(n) => match unit.names.text(n) {
            None => format!(in alloc; "{word} ?"),
            Some(text) => match std::str::from_utf8(text) {
                Ok(name) => format!(in alloc; "{word} {name}"),
                Err(_) => format!(in alloc; "{word} ?"),
            },
        },
    }
}

/// A type in words.
pub fn type_text(alloc: Global, unit: &Unit, ctype: &CType) -> Result<String, AllocError> {
    match ctype {
        CType::Void => format!(in alloc; "void"),
        CType::Int(t) => {
            if t.signed {
                format!(in alloc; "s{}", t.size)
            } else {
                format!(in alloc; "u{}", t.size)
            }
        }
        CType::Ptr(inner) => {
            let inner = type_text(alloc, unit, inner)?;
            format!(in alloc; "ptr {inner}")
        }
        CType::Array(element, n) => {
            let element = type_text(alloc, unit, element)?;
            format!(in alloc; "array {n} {element}")
        }
        CType::Tag(k) => tag_text(alloc, unit, *k),
    }
}

fn pushed_expr(alloc: Global, unit: &Unit, e: &Expr, out: &mut String) -> Result<(), AllocError> {
    match &e.kind {
        ExprKind::Num(_, _) | ExprKind::Name(_) | ExprKind::Local(_) => {}
        ExprKind::Global(_) | ExprKind::SizeOf(_) => {}
        ExprKind::Unary(_, a) | ExprKind::Cast(_, a) | ExprKind::SizeOfExpr(a) => {
            pushed_expr(alloc, unit, a, out)?;
        }
        ExprKind::Member(a, _) | ExprKind::Arrow(a, _) => pushed_expr(alloc, unit, a, out)?,
        ExprKind::Deref(a) | ExprKind::Address(a) => pushed_expr(alloc, unit, a, out)?,
        ExprKind::Binary(_, a, b) | ExprKind::Index(a, b) => {
            pushed_expr(alloc, unit, a, out)?;
            pushed_expr(alloc, unit, b, out)?;
        }
        ExprKind::Cond(a, b, c) => {
            pushed_expr(alloc, unit, a, out)?;
            pushed_expr(alloc, unit, b, out)?;
            pushed_expr(alloc, unit, c, out)?;
        }
    }
    let shown = type_text(alloc, unit, &e.ctype)?;
    let line = format!(in alloc; "expr {} {} {shown}\n", e.span.first, e.span.past)?;
    out.push_str(&line)?;
    Ok(())
}

fn pushed_call(
    alloc: Global,
    unit: &Unit,
    call: &Call,
    out: &mut String,
) -> Result<(), AllocError> {
    for arg in call.args.as_slice() {
        pushed_expr(alloc, unit, arg, out)?;
    }
    Ok(())
}

fn pushed_rhs(alloc: Global, unit: &Unit, r: &Rhs, out: &mut String) -> Result<(), AllocError> {
    match r {
        Rhs::Value(x) => pushed_expr(alloc, unit, x, out),
        Rhs::Call(call, _) => pushed_call(alloc, unit, call, out),
    }
}

fn pushed_effect(
    alloc: Global,
    unit: &Unit,
    e: &Effect,
    out: &mut String,
) -> Result<(), AllocError> {
    match e {
        Effect::Set(l, r, _) => {
            pushed_expr(alloc, unit, l, out)?;
            pushed_rhs(alloc, unit, r, out)
        }
        Effect::Update(_, l, x, _) => {
            pushed_expr(alloc, unit, l, out)?;
            pushed_expr(alloc, unit, x, out)
        }
        Effect::Call(call) => pushed_call(alloc, unit, call, out),
        Effect::Value(x) => pushed_expr(alloc, unit, x, out),
    }
}

fn pushed_effects(
    alloc: Global,
    unit: &Unit,
    es: &[Effect],
    out: &mut String,
) -> Result<(), AllocError> {
    for e in es {
        pushed_effect(alloc, unit, e, out)?;
    }
    Ok(())
}

fn pushed_some(
    alloc: Global,
    unit: &Unit,
    x: Option<&Expr>,
    out: &mut String,
) -> Result<(), AllocError> {
    match x {
        None => Ok(()),
        Some(x) => pushed_expr(alloc, unit, x, out),
    }
}

fn pushed_result(
    alloc: Global,
    unit: &Unit,
    r: Option<&Rhs>,
    out: &mut String,
) -> Result<(), AllocError> {
    match r {
        None => Ok(()),
        Some(r) => pushed_rhs(alloc, unit, r, out),
    }
}

/// The expressions of a statement, each with its type.
#[cycle(shown)]
pub fn pushed_typed(
    alloc: Global,
    unit: &Unit,
    s: &Stmt,
    out: &mut String,
) -> Result<(), AllocError> {
    match &s.kind {
        StmtKind::Block(ss) => pushed_all(alloc, unit, ss.as_slice(), out),
        StmtKind::Empty | StmtKind::Break | StmtKind::Continue => Ok(()),
        StmtKind::Effect(e) => pushed_effect(alloc, unit, e, out),
        StmtKind::Declare(_, _, r) => pushed_result(alloc, unit, r.as_ref(), out),
        StmtKind::If(c, a, None) => {
            pushed_expr(alloc, unit, c, out)?;
            pushed_typed(alloc, unit, a, out)
        }
        StmtKind::If(c, a, Some(b)) => {
            pushed_expr(alloc, unit, c, out)?;
            pushed_typed(alloc, unit, a, out)?;
            pushed_typed(alloc, unit, b, out)
        }
        StmtKind::While(c, a) => {
            pushed_expr(alloc, unit, c, out)?;
            pushed_typed(alloc, unit, a, out)
        }
        StmtKind::DoWhile(a, c) => {
            pushed_typed(alloc, unit, a, out)?;
            pushed_expr(alloc, unit, c, out)
        }
        StmtKind::For(init, c, steps, a) => {
            pushed_all(alloc, unit, init.as_slice(), out)?;
            pushed_some(alloc, unit, c.as_ref(), out)?;
            pushed_effects(alloc, unit, steps.as_slice(), out)?;
            pushed_typed(alloc, unit, a, out)
        }
        StmtKind::Switch(v, gs) => {
            pushed_expr(alloc, unit, v, out)?;
            pushed_groups(alloc, unit, gs.as_slice(), out)
        }
        StmtKind::Return(r) => pushed_result(alloc, unit, r.as_ref(), out),
    }
}

#[cycle(shown)]
fn pushed_all(alloc: Global, unit: &Unit, ss: &[Stmt], out: &mut String) -> Result<(), AllocError> {
    for s in ss {
        pushed_typed(alloc, unit, s, out)?;
    }
    Ok(())
}

#[cycle(shown)]
fn pushed_groups(
    alloc: Global,
    unit: &Unit,
    gs: &[Group],
    out: &mut String,
) -> Result<(), AllocError> {
    for g in gs {
        for label in g.labels.as_slice() {
            pushed_some(alloc, unit, label.as_ref(), out)?;
        }
        pushed_all(alloc, unit, g.body.as_slice(), out)?;
    }
    Ok(())
}
