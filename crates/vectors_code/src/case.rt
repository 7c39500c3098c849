use crate::shown::pushed_code;
use cx_cread::read_unit;
use cx_ctree::{Decl, Function, Item};
use cx_lex::lex;
use cx_lower::{LimitKind, LowerFault, lower};
use cx_sema::{File, SemaFault, file_of, resolve_in};
use std::alloc::{AllocError, Global};

fn text_of(alloc: Global, text: &str) -> Result<String, AllocError> {
    let mut copy = String::new(alloc);
    copy.push_str(text)?;
    Ok(copy)
}

fn kind_text(kind: LimitKind) -> &'static str {
    match kind {
        LimitKind::Locals => "locals",
        LimitKind::Blocks => "blocks",
        LimitKind::Instructions => "instructions",
    }
}

fn pushed_function(
    alloc: Global,
    file: &File<'_>,
    function: &Function,
    out: &mut String,
) -> Result<(), AllocError> {
    let typed = match resolve_in(alloc, file, function) {
        Ok(typed) => typed,
        Err(SemaFault::NotWellTyped { .. }) => return out.push_str("not well typed\n"),
        Err(SemaFault::NoMemory) => return out.push_str("no memory\n"),
    };
    match lower(alloc, file.unit, &typed) {
        Ok(code) => pushed_code(alloc, file.unit, function.sig.name, &code, out),
        Err(LowerFault::TooLarge { kind, limit }) => {
            out.push_str(&format!(in alloc; "limit {} {limit}\n", kind_text(kind))?)
        }
        Err(LowerFault::NoMemory) => out.push_str("no memory\n"),
    }
}

fn pushed_item(
    alloc: Global,
    file: &File<'_>,
    item: &Item,
    out: &mut String,
) -> Result<(), AllocError> {
    if let Item::Known(decls) = item {
        for decl in decls.as_slice() {
            if let Decl::Body(function) = decl {
                pushed_function(alloc, file, function, out)?;
            }
        }
    }
    Ok(())
}

/// The code of the functions of the text.
pub fn answer(alloc: Global, text: &str) -> Result<String, AllocError> {
    let bytes = text.as_bytes();
    if bytes.len() > 16777216 {
        return text_of(alloc, "too long\n");
    }
    let Ok(tokens) = lex(alloc, bytes) else {
        return text_of(alloc, "no tokens\n");
    };
    let Ok(unit) = read_unit(alloc, bytes, tokens.as_slice()) else {
        return text_of(alloc, "no unit\n");
    };
    let Ok(file) = file_of(alloc, &unit) else {
        return text_of(alloc, "no memory\n");
    };
    let mut out = String::new(alloc);
    for item in unit.items.as_slice() {
        pushed_item(alloc, &file, item, &mut out)?;
    }
    Ok(out)
}
