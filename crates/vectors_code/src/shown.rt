use cx_base::{CInt, Span};
use cx_ctree::{CType, Unit};
use cx_goto::{Block, Code, End, Instr, Op, Rel};
use std::alloc::{AllocError, Global};

fn tag_text(alloc: Global, unit: &Unit, k: u32) -> Result<String, AllocError> {
    let Some(tag) = unit.tags.get(k as usize) else {
        return format!(in alloc; "tag #{k}");
    };
    let word = if tag.union_ { "union" } else { "struct" };
    match tag.name {
        None => format!(in alloc; "{word} #{k}"),
        Some(n) => match unit.names.text(n) {
            None => format!(in alloc; "{word} ?"),
            Some(text) => match std::str::from_utf8(text) {
                Ok(name) => format!(in alloc; "{word} {name}"),
                Err(_) => format!(in alloc; "{word} ?"),
            },
        },
    }
}

/// A type in words.
pub fn type_text(alloc: Global, unit: &Unit, ctype: &CType) -> Result<String, AllocError> {
    match ctype {
        CType::Void => format!(in alloc; "void"),
        CType::Int(t) => {
            if t.signed {
                format!(in alloc; "s{}", t.size)
            } else {
                format!(in alloc; "u{}", t.size)
            }
        }
        CType::Ptr(inner) => {
            let inner = type_text(alloc, unit, inner)?;
            format!(in alloc; "ptr {inner}")
        }
        CType::Array(element, n) => {
            let element = type_text(alloc, unit, element)?;
            format!(in alloc; "array {n} {element}")
        }
        CType::Tag(k) => tag_text(alloc, unit, *k),
    }
}

fn number_text(alloc: Global, t: CInt) -> Result<String, AllocError> {
    if t.signed {
        format!(in alloc; "s{}", t.size)
    } else {
        format!(in alloc; "u{}", t.size)
    }
}

fn name_text(alloc: Global, unit: &Unit, n: u32) -> Result<String, AllocError> {
    match unit.names.text(n) {
        None => format!(in alloc; "?"),
        Some(text) => match std::str::from_utf8(text) {
            Ok(name) => format!(in alloc; "{name}"),
            Err(_) => format!(in alloc; "?"),
        },
    }
}

fn op_text(op: Op) -> &'static str {
    match op {
        Op::Add => "Add",
        Op::Sub => "Sub",
        Op::Mul => "Mul",
        Op::Div => "Div",
        Op::Rem => "Rem",
        Op::And => "And",
        Op::Or => "Or",
        Op::Xor => "Xor",
        Op::Shl => "Shl",
        Op::Shr => "Shr",
    }
}

fn rel_text(rel: Rel) -> &'static str {
    match rel {
        Rel::Eq => "Eq",
        Rel::Ne => "Ne",
        Rel::Lt => "Lt",
        Rel::Le => "Le",
        Rel::Gt => "Gt",
        Rel::Ge => "Ge",
    }
}

fn args_text(alloc: Global, args: &[u32]) -> Result<String, AllocError> {
    let mut text = String::new(alloc);
    let mut first = true;
    for x in args {
        if !first {
            text.push_str(", ")?;
        }
        first = false;
        text.push_str(&format!(in alloc; "{x}")?)?;
    }
    Ok(text)
}

fn pointee_text(alloc: Global, unit: &Unit, t: Option<&CType>) -> Result<String, AllocError> {
    match t {
        None => format!(in alloc; "none"),
        Some(t) => type_text(alloc, unit, t),
    }
}

fn instr_text(alloc: Global, unit: &Unit, i: &Instr) -> Result<String, AllocError> {
    match i {
        Instr::Const(d, v) => format!(in alloc; "Const({d}, {v})"),
        Instr::Copy(d, x) => format!(in alloc; "Copy({d}, {x})"),
        Instr::Unset(d) => format!(in alloc; "Unset({d})"),
        Instr::Global(d, n) => {
            let name = name_text(alloc, unit, *n)?;
            format!(in alloc; "Global({d}, {name})")
        }
        Instr::Bin(d, op, t, x, y) => {
            let t = number_text(alloc, *t)?;
            format!(in alloc; "Bin({d}, {}, {t}, {x}, {y})", op_text(*op))
        }
        Instr::Conv(d, t) => {
            let t = number_text(alloc, *t)?;
            format!(in alloc; "Conv({d}, {t})")
        }
        Instr::Load(d, t, x) => {
            let t = number_text(alloc, *t)?;
            format!(in alloc; "Load({d}, {t}, {x})")
        }
        Instr::Store(t, x, y) => {
            let t = number_text(alloc, *t)?;
            format!(in alloc; "Store({t}, {x}, {y})")
        }
        Instr::Call {
            dest,
            name,
            args,
            pointee,
        } => {
            let name = name_text(alloc, unit, *name)?;
            let args = args_text(alloc, args.as_slice())?;
            let pointee = pointee_text(alloc, unit, pointee.as_ref())?;
            format!(in alloc; "Call({dest}, {name}, [{args}], {pointee})")
        }
    }
}

fn end_text(alloc: Global, end: End) -> Result<String, AllocError> {
    match end {
        End::Jump(k) => format!(in alloc; "Jump({k})"),
        End::Branch(rel, x, y, j, m) => format!(in alloc;
            "Branch({}, {x}, {y}, {j}, {m})",
            rel_text(rel)
        ),
        End::Return(None) => format!(in alloc; "Return(none)"),
        End::Return(Some(x)) => format!(in alloc; "Return({x})"),
        End::Missing => format!(in alloc; "Missing"),
    }
}

fn pushed_place(alloc: Global, text: &str, span: Span, out: &mut String) -> Result<(), AllocError> {
    out.push_str(&format!(in alloc; "  {text} {} {}\n", span.first, span.past)?)?;
    Ok(())
}

fn pushed_block(
    alloc: Global,
    unit: &Unit,
    k: usize,
    block: &Block,
    out: &mut String,
) -> Result<(), AllocError> {
    out.push_str(&format!(in alloc; "block {k} keep {}\n", block.keep)?)?;
    for line in block.lines.as_slice() {
        let text = instr_text(alloc, unit, &line.instr)?;
        pushed_place(alloc, &text, line.span, out)?;
    }
    let text = end_text(alloc, block.end)?;
    pushed_place(alloc, &text, block.span, out)
}

/// The code of a function of this name, in words.
pub fn pushed_code(
    alloc: Global,
    unit: &Unit,
    name: u32,
    code: &Code,
    out: &mut String,
) -> Result<(), AllocError> {
    let name = name_text(alloc, unit, name)?;
    let result = match code.result {
        None => format!(in alloc; "none")?,
        Some(t) => number_text(alloc, t)?,
    };
    out.push_str(&format!(in alloc;
        "code {name} params {} named {} locals {} result {result} name {} {}\n",
        code.params, code.named, code.locals, code.name_span.first, code.name_span.past
    )?)?;
    let mut k: usize = 0;
    for block in code.blocks.as_slice() {
        pushed_block(alloc, unit, k, block, out)?;
        k = k.saturating_add(1);
    }
    Ok(())
}
