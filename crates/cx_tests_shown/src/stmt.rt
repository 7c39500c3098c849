use crate::expr::{binary_text, expr_text, joined, name, type_text};
use cx_ctree::{CType, Call, Effect, Expr, Group, Rhs, Stmt, StmtKind, Unit};
use std::alloc::{AllocError, Global};

fn args_text(alloc: Global, unit: &Unit, args: &[Expr]) -> Result<String, AllocError> {
    let mut text = String::new(alloc);
    for (i, arg) in args.iter().enumerate() {
        if i > 0 {
            text.push_str(", ")?;
        }
        let one = expr_text(alloc, unit, arg)?;
        text.push_str(&one)?;
    }
    Ok(text)
}

/// A call with its arguments.
fn call_text(alloc: Global, unit: &Unit, call: &Call) -> Result<String, AllocError> {
    let args = args_text(alloc, unit, call.args.as_slice())?;
    joined(alloc, &[name(unit, call.name), "(", &args, ")"])
}

fn rhs_text(alloc: Global, unit: &Unit, rhs: &Rhs) -> Result<String, AllocError> {
    match rhs {
        Rhs::Value(e) => expr_text(alloc, unit, e),
        Rhs::Call(call, None) => call_text(alloc, unit, call),
        Rhs::Call(call, Some(t)) => {
            let t = type_text(alloc, t)?;
            let call = call_text(alloc, unit, call)?;
            joined(alloc, &["<", &t, "> ", &call])
        }
    }
}

/// An effect: `l := r`, `l op= e`, a call, or an expression.
fn effect_text(alloc: Global, unit: &Unit, effect: &Effect) -> Result<String, AllocError> {
    match effect {
        Effect::Set(l, r, _) => {
            let l = expr_text(alloc, unit, l)?;
            let r = rhs_text(alloc, unit, r)?;
            joined(alloc, &[&l, " := ", &r])
        }
        Effect::Update(op, l, e, _) => {
            let l = expr_text(alloc, unit, l)?;
            let e = expr_text(alloc, unit, e)?;
            joined(alloc, &[&l, " ", binary_text(*op), "= ", &e])
        }
        Effect::Call(call) => call_text(alloc, unit, call),
        Effect::Value(e) => expr_text(alloc, unit, e),
    }
}

fn effects_text(alloc: Global, unit: &Unit, effects: &[Effect]) -> Result<String, AllocError> {
    let mut text = String::new(alloc);
    for (i, effect) in effects.iter().enumerate() {
        if i > 0 {
            text.push_str(", ")?;
        }
        let one = effect_text(alloc, unit, effect)?;
        text.push_str(&one)?;
    }
    Ok(text)
}

fn declare_text(
    alloc: Global,
    unit: &Unit,
    n: u32,
    ctype: &CType,
    rhs: &Option<Rhs>,
) -> Result<String, AllocError> {
    let ctype = type_text(alloc, ctype)?;
    match rhs {
        None => joined(alloc, &[name(unit, n), ": ", &ctype, ";"]),
        Some(rhs) => {
            let rhs = rhs_text(alloc, unit, rhs)?;
            joined(alloc, &[name(unit, n), ": ", &ctype, " = ", &rhs, ";"])
        }
    }
}

fn return_text(alloc: Global, unit: &Unit, rhs: &Option<Rhs>) -> Result<String, AllocError> {
    match rhs {
        None => joined(alloc, &["return;"]),
        Some(rhs) => {
            let rhs = rhs_text(alloc, unit, rhs)?;
            joined(alloc, &["return ", &rhs, ";"])
        }
    }
}

fn option_text(alloc: Global, unit: &Unit, e: &Option<Expr>) -> Result<String, AllocError> {
    match e {
        None => joined(alloc, &["-"]),
        Some(e) => expr_text(alloc, unit, e),
    }
}

/// A word with what stands in parentheses, then a body in braces.
fn with_body(
    alloc: Global,
    unit: &Unit,
    word: &str,
    c: &Expr,
    body: String,
) -> Result<String, AllocError> {
    let c = expr_text(alloc, unit, c)?;
    joined(alloc, &[word, " (", &c, ") {", &body, "}"])
}

fn do_text(alloc: Global, unit: &Unit, body: String, c: &Expr) -> Result<String, AllocError> {
    let c = expr_text(alloc, unit, c)?;
    joined(alloc, &["do {", &body, "} while (", &c, ")"])
}

fn if_text(
    alloc: Global,
    unit: &Unit,
    c: &Expr,
    a: String,
    b: Option<String>,
) -> Result<String, AllocError> {
    let first = with_body(alloc, unit, "if", c, a)?;
    match b {
        None => Ok(first),
        Some(b) => joined(alloc, &[&first, " else {", &b, "}"]),
    }
}

fn for_text(
    alloc: Global,
    unit: &Unit,
    init: String,
    c: &Option<Expr>,
    steps: &[Effect],
    body: String,
) -> Result<String, AllocError> {
    let c = option_text(alloc, unit, c)?;
    let steps = effects_text(alloc, unit, steps)?;
    joined(
        alloc,
        &["for (", &init, " ", &c, "; ", &steps, ") {", &body, "}"],
    )
}

fn label_text(alloc: Global, unit: &Unit, label: &Option<Expr>) -> Result<String, AllocError> {
    match label {
        None => joined(alloc, &["default: "]),
        Some(e) => {
            let e = expr_text(alloc, unit, e)?;
            joined(alloc, &["case ", &e, ": "])
        }
    }
}

fn labels_text(alloc: Global, unit: &Unit, labels: &[Option<Expr>]) -> Result<String, AllocError> {
    let mut text = String::new(alloc);
    for label in labels {
        let one = label_text(alloc, unit, label)?;
        text.push_str(&one)?;
    }
    Ok(text)
}

/// A statement; each part of one stands in braces.
#[cycle(stmt)]
pub fn stmt_text(alloc: Global, unit: &Unit, s: &Stmt) -> Result<String, AllocError> {
    match &s.kind {
        StmtKind::Empty => joined(alloc, &[";"]),
        StmtKind::Break => joined(alloc, &["break;"]),
        StmtKind::Continue => joined(alloc, &["continue;"]),
        StmtKind::Return(rhs) => return_text(alloc, unit, rhs),
        StmtKind::Declare(n, ctype, rhs) => declare_text(alloc, unit, *n, ctype, rhs),
        StmtKind::Effect(effect) => {
            let text = effect_text(alloc, unit, effect)?;
            joined(alloc, &[&text, ";"])
        }
        StmtKind::Block(all) => block_text(alloc, unit, all.as_slice()),
        StmtKind::If(c, a, None) => {
            let a = stmt_text(alloc, unit, a)?;
            if_text(alloc, unit, c, a, None)
        }
        StmtKind::If(c, a, Some(b)) => {
            let a = stmt_text(alloc, unit, a)?;
            let b = stmt_text(alloc, unit, b)?;
            if_text(alloc, unit, c, a, Some(b))
        }
        StmtKind::While(c, a) => {
            let a = stmt_text(alloc, unit, a)?;
            with_body(alloc, unit, "while", c, a)
        }
        StmtKind::DoWhile(a, c) => {
            let a = stmt_text(alloc, unit, a)?;
            do_text(alloc, unit, a, c)
        }
        StmtKind::For(init, c, steps, a) => {
            let init = block_text(alloc, unit, init.as_slice())?;
            let a = stmt_text(alloc, unit, a)?;
            for_text(alloc, unit, init, c, steps.as_slice(), a)
        }
        StmtKind::Switch(c, groups) => {
            let groups = groups_text(alloc, unit, groups.as_slice())?;
            with_body(alloc, unit, "switch", c, groups)
        }
    }
}

#[cycle(stmt)]
fn block_text(alloc: Global, unit: &Unit, all: &[Stmt]) -> Result<String, AllocError> {
    let mut text = String::new(alloc);
    text.push_str("{")?;
    for s in all {
        let one = stmt_text(alloc, unit, s)?;
        text.push_str(&one)?;
    }
    text.push_str("}")?;
    Ok(text)
}

#[cycle(stmt)]
fn groups_text(alloc: Global, unit: &Unit, groups: &[Group]) -> Result<String, AllocError> {
    let mut text = String::new(alloc);
    for g in groups {
        let labels = labels_text(alloc, unit, g.labels.as_slice())?;
        let body = block_text(alloc, unit, g.body.as_slice())?;
        text.push_str(&labels)?;
        text.push_str(&body)?;
    }
    Ok(text)
}
