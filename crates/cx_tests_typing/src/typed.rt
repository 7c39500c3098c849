use cx_base::List;
use cx_cread::read_unit;
use cx_ctree::{CType, Decl, Function, Item, Unit};
use cx_lex::lex;
use cx_sema::{SemaFault, resolve};
use cx_tests_shown::type_text;
use std::alloc::Global;
use std::process::Abort;
use std::test::Fail;

/// The last function with a body among the declarations.
fn last_body(decls: &[Decl]) -> Option<&Function> {
    match decls {
        [.., Decl::Body(function)] => Some(function),
        _ => None,
    }
}

/// The function that the unit ends with.
fn last_function<'a>(rt: &impl Abort, unit: &'a Unit) -> &'a Function {
    if let [.., Item::Known(decls)] = unit.items.as_slice() {
        if let Some(function) = last_body(decls.as_slice()) {
            return function;
        }
    }
    panic!(rt; "no function")
}

/// The unit that the text is read as.
fn unit_of(rt: &impl Abort, alloc: Global, text: &str) -> Result<Unit, Fail> {
    let bytes = text.as_bytes();
    assert!(rt; bytes.len() <= 16777216);
    let tokens = lex(alloc, bytes)?;
    assert!(rt; tokens.len() <= 16777216);
    Ok(read_unit(alloc, bytes, tokens.as_slice())?)
}

/// The types of the locals.
fn locals_text(alloc: Global, locals: &List<CType>) -> Result<String, Fail> {
    let mut text = String::new(alloc);
    text.push_str("ok")?;
    for t in locals.as_slice() {
        text.push_str(" ")?;
        let shown = type_text(alloc, t)?;
        text.push_str(&shown)?;
    }
    Ok(text)
}

/// What the last function of the text is typed as: the types of its locals, or the rule that it breaks with
/// the place.
pub fn typed_text(rt: &impl Abort, alloc: Global, text: &str) -> Result<String, Fail> {
    let unit = unit_of(rt, alloc, text)?;
    match resolve(alloc, &unit, last_function(rt, &unit)) {
        Ok(typed) => locals_text(alloc, &typed.locals),
        Err(SemaFault::NotWellTyped { span, rule }) => {
            Ok(format!(in alloc; "{rule} {} {}", span.first, span.past)?)
        }
        Err(SemaFault::NoMemory) => panic!(rt; "no memory"),
    }
}
