use crate::expr::{joined, name, type_text};
use crate::stmt::stmt_text;
use cx_ctree::{Decl, Item, Param, Signature, Unit};
use std::alloc::{AllocError, Global};

fn params_text(alloc: Global, params: &[Param]) -> Result<String, AllocError> {
    let mut text = String::new(alloc);
    for (i, param) in params.iter().enumerate() {
        if i > 0 {
            text.push_str(", ")?;
        }
        let ctype = type_text(alloc, &param.ctype)?;
        text.push_str(&ctype)?;
    }
    Ok(text)
}

/// A function: its name, the types of its parameters and of its result.
fn signature_text(alloc: Global, unit: &Unit, sig: &Signature) -> Result<String, AllocError> {
    let params = params_text(alloc, sig.params.as_slice())?;
    let result = type_text(alloc, &sig.result)?;
    joined(alloc, &[name(unit, sig.name), "(", &params, ") ", &result])
}

/// What a declarator declares: types alone, an object with its type, or a function, with its body
/// where it has one.
pub fn decl_text(alloc: Global, unit: &Unit, decl: &Decl) -> Result<String, AllocError> {
    match decl {
        Decl::Types => joined(alloc, &["types"]),
        Decl::Object(n, ctype) => {
            let ctype = type_text(alloc, ctype)?;
            joined(alloc, &[name(unit, *n), ": ", &ctype])
        }
        Decl::Proto(sig) => signature_text(alloc, unit, sig),
        Decl::Body(function) => {
            let sig = signature_text(alloc, unit, &function.sig)?;
            let body = stmt_text(alloc, unit, &function.body)?;
            joined(alloc, &[&sig, " ", &body])
        }
    }
}

/// What the declarators of an item declare.
fn decls_text(alloc: Global, unit: &Unit, decls: &[Decl]) -> Result<String, AllocError> {
    let mut text = String::new(alloc);
    for (i, decl) in decls.iter().enumerate() {
        if i > 0 {
            text.push_str(", ")?;
        }
        let one = decl_text(alloc, unit, decl)?;
        text.push_str(&one)?;
    }
    Ok(text)
}

fn item_text(alloc: Global, unit: &Unit, item: &Item) -> Result<String, AllocError> {
    match item {
        Item::Passed(_) => joined(alloc, &["passed"]),
        Item::Known(decls) => decls_text(alloc, unit, decls.as_slice()),
    }
}

/// The items of a unit, with `; ` between two: what each declares, or `passed`.
pub fn items_text(alloc: Global, unit: &Unit) -> Result<String, AllocError> {
    let mut text = String::new(alloc);
    for (i, item) in unit.items.as_slice().iter().enumerate() {
        if i > 0 {
            text.push_str("; ")?;
        }
        let one = item_text(alloc, unit, item)?;
        text.push_str(&one)?;
    }
    Ok(text)
}
