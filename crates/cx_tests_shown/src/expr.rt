use cx_ctree::{Binary, CType, Expr, ExprKind, Unary, Unit};
use std::alloc::{AllocError, Global};

/// The texts one after another.
pub fn joined(alloc: Global, parts: &[&str]) -> Result<String, AllocError> {
    let mut text = String::new(alloc);
    for part in parts {
        text.push_str(part)?;
    }
    Ok(text)
}

/// The name of this number.
pub fn name<'a>(unit: &'a Unit, n: u32) -> &'a str {
    match unit.names.text(n) {
        Some(text) => match std::str::from_utf8(text) {
            Ok(text) => text,
            Err(_) => "?",
        },
        None => "?",
    }
}

fn array_text(alloc: Global, count: u32, element: String) -> Result<String, AllocError> {
    format!(in alloc; "[{count}]{element}")
}

fn int_text(alloc: Global, size: u8, signed: bool) -> Result<String, AllocError> {
    let bits = u32::from(size) * 8;
    if signed {
        format!(in alloc; "i{bits}")
    } else {
        format!(in alloc; "u{bits}")
    }
}

/// A type: `i` or `u` with its bits, `*` before what a pointer points to, `[n]` before an element,
/// `#` and the place of a struct or union.
pub fn type_text(alloc: Global, ctype: &CType) -> Result<String, AllocError> {
    match ctype {
        CType::Void => joined(alloc, &["void"]),
        CType::Int(t) => int_text(alloc, t.size, t.signed),
        CType::Ptr(inner) => {
            let text = type_text(alloc, inner)?;
            joined(alloc, &["*", &text])
        }
        CType::Array(element, n) => {
            let text = type_text(alloc, element)?;
            array_text(alloc, *n, text)
        }
        CType::Tag(k) => format!(in alloc; "#{k}"),
    }
}

fn unary_text(op: Unary) -> &'static str {
    match op {
        Unary::Plus => "+",
        Unary::Neg => "-",
        Unary::Compl => "~",
        Unary::Not => "!",
    }
}

/// A binary operator as it is spelled.
pub fn binary_text(op: Binary) -> &'static str {
    match op {
        Binary::Mul => "*",
        Binary::Div => "/",
        Binary::Rem => "%",
        Binary::Add => "+",
        Binary::Sub => "-",
        Binary::Shl => "<<",
        Binary::Shr => ">>",
        Binary::Lt => "<",
        Binary::Gt => ">",
        Binary::Le => "<=",
        Binary::Ge => ">=",
        Binary::Eq => "==",
        Binary::Ne => "!=",
        Binary::BitAnd => "&",
        Binary::BitXor => "^",
        Binary::BitOr => "|",
        Binary::And => "&&",
        Binary::Or => "||",
    }
}

fn prefixed(alloc: Global, op: &str, a: String) -> Result<String, AllocError> {
    joined(alloc, &["(", op, &a, ")"])
}

fn infixed(alloc: Global, a: String, op: Binary, b: String) -> Result<String, AllocError> {
    joined(alloc, &["(", &a, " ", binary_text(op), " ", &b, ")"])
}

fn chosen(alloc: Global, a: String, b: String, c: String) -> Result<String, AllocError> {
    joined(alloc, &["(", &a, " ? ", &b, " : ", &c, ")"])
}

fn cast_text(alloc: Global, t: String, a: String) -> Result<String, AllocError> {
    joined(alloc, &["(<", &t, "> ", &a, ")"])
}

fn indexed(alloc: Global, a: String, b: String) -> Result<String, AllocError> {
    joined(alloc, &["(", &a, "[", &b, "])"])
}

fn suffixed(alloc: Global, a: String, op: &str, member: &str) -> Result<String, AllocError> {
    joined(alloc, &["(", &a, op, member, ")"])
}

/// An expression with parentheses round each node that has parts.
pub fn expr_text(alloc: Global, unit: &Unit, e: &Expr) -> Result<String, AllocError> {
    match &e.kind {
        ExprKind::Num(v, _) => format!(in alloc; "{v}"),
        ExprKind::Local(n) => format!(in alloc; "local {n}"),
        ExprKind::Name(n) | ExprKind::Global(n) => joined(alloc, &[name(unit, *n)]),
        ExprKind::Unary(op, a) => prefixed(alloc, unary_text(*op), expr_text(alloc, unit, a)?),
        ExprKind::SizeOfExpr(a) => prefixed(alloc, "sizeof ", expr_text(alloc, unit, a)?),
        ExprKind::Deref(a) => prefixed(alloc, "*", expr_text(alloc, unit, a)?),
        ExprKind::Address(a) => prefixed(alloc, "&", expr_text(alloc, unit, a)?),
        ExprKind::Member(a, m) => suffixed(alloc, expr_text(alloc, unit, a)?, ".", name(unit, *m)),
        ExprKind::Arrow(a, m) => suffixed(alloc, expr_text(alloc, unit, a)?, "->", name(unit, *m)),
        ExprKind::SizeOf(t) => {
            let t = type_text(alloc, t)?;
            joined(alloc, &["(sizeof <", &t, ">)"])
        }
        ExprKind::Cast(t, a) => {
            let t = type_text(alloc, t)?;
            let a = expr_text(alloc, unit, a)?;
            cast_text(alloc, t, a)
        }
        ExprKind::Binary(op, a, b) => {
            let a = expr_text(alloc, unit, a)?;
            let b = expr_text(alloc, unit, b)?;
            infixed(alloc, a, *op, b)
        }
        ExprKind::Index(a, b) => {
            let a = expr_text(alloc, unit, a)?;
            let b = expr_text(alloc, unit, b)?;
            indexed(alloc, a, b)
        }
        ExprKind::Cond(a, b, c) => {
            let a = expr_text(alloc, unit, a)?;
            let b = expr_text(alloc, unit, b)?;
            let c = expr_text(alloc, unit, c)?;
            chosen(alloc, a, b, c)
        }
    }
}
