use crate::shown::{pushed_typed, type_text};
use cx_cread::read_unit;
use cx_ctree::{Decl, Function, Item, Unit};
use cx_lex::lex;
use cx_sema::{SemaFault, resolve};
use std::alloc::{AllocError, Global};

fn is_f(unit: &Unit, function: &Function) -> bool {
    match unit.names.text(function.sig.name) {
        Some(text) => match text {
            b"f" => true,
            _ => false,
        },
        None => false,
    }
}

/// The function `f` of the file.
fn function_f(unit: &Unit) -> Option<&Function> {
    for item in unit.items.as_slice() {
        if let Item::Known(decls) = item {
            for decl in decls.as_slice() {
                if let Decl::Body(function) = decl {
                    if is_f(unit, function) {
                        return Some(function);
                    }
                }
            }
        }
    }
    None
}

fn text_of(alloc: Global, text: &str) -> Result<String, AllocError> {
    let mut copy = String::new(alloc);
    copy.push_str(text)?;
    Ok(copy)
}

fn fault_text(alloc: Global, e: SemaFault) -> Result<String, AllocError> {
    match e {
        SemaFault::NotWellTyped { span, rule } => {
            format!(in alloc; "NotWellTyped {rule} {} {}\n", span.first, span.past)
        }
        SemaFault::NoMemory => text_of(alloc, "no memory\n"),
    }
}

/// What the function `f` of the text is typed as.
pub fn answer(alloc: Global, text: &str) -> Result<String, AllocError> {
    let bytes = text.as_bytes();
    if bytes.len() > 16777216 {
        return text_of(alloc, "too long\n");
    }
    let Ok(tokens) = lex(alloc, bytes) else {
        return text_of(alloc, "no tokens\n");
    };
    let Ok(unit) = read_unit(alloc, bytes, tokens.as_slice()) else {
        return text_of(alloc, "no unit\n");
    };
    let Some(function) = function_f(&unit) else {
        return text_of(alloc, "no function f\n");
    };
    match resolve(alloc, &unit, function) {
        Ok(typed) => {
            let mut out = format!(in alloc; "ok {}\n", typed.locals.len())?;
            let mut number: u32 = 0;
            for t in typed.locals.as_slice() {
                let shown = type_text(alloc, &unit, t)?;
                out.push_str(&format!(in alloc; "local {number} {shown}\n")?)?;
                number = number.saturating_add(1);
            }
            pushed_typed(alloc, &unit, &typed.body, &mut out)?;
            Ok(out)
        }
        Err(e) => fault_text(alloc, e),
    }
}
