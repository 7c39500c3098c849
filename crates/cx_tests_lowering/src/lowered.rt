use cx_cread::read_unit;
use cx_ctree::{Decl, Function, Item, Unit};
use cx_goto::{Block, Code, End, Instr};
use cx_lex::lex;
use cx_lower::{LimitKind, LowerFault, lower};
use cx_sema::resolve;
use std::alloc::{AllocError, Global};
use std::process::Abort;
use std::test::Fail;

/// The last function with a body among the declarations.
fn last_body(decls: &[Decl]) -> Option<&Function> {
    match decls {
        [.., Decl::Body(function)] => Some(function),
        _ => None,
    }
}

/// The function that the unit ends with.
fn last_function<'a>(rt: &impl Abort, unit: &'a Unit) -> &'a Function {
    if let [.., Item::Known(decls)] = unit.items.as_slice() {
        if let Some(function) = last_body(decls.as_slice()) {
            return function;
        }
    }
    panic!(rt; "no function")
}

/// The unit that the text is read as.
fn unit_of(rt: &impl Abort, alloc: Global, text: &str) -> Result<Unit, Fail> {
    let bytes = text.as_bytes();
    assert!(rt; bytes.len() <= 16777216);
    let tokens = lex(alloc, bytes)?;
    assert!(rt; tokens.len() <= 16777216);
    Ok(read_unit(alloc, bytes, tokens.as_slice())?)
}

fn kind_text(kind: LimitKind) -> &'static str {
    match kind {
        LimitKind::Locals => "locals",
        LimitKind::Blocks => "blocks",
        LimitKind::Instructions => "instructions",
    }
}

/// The stores of a block, and its jumps to blocks that do not come after it.
fn push_block(
    alloc: Global,
    place: usize,
    block: &Block,
    out: &mut String,
) -> Result<(), AllocError> {
    for line in block.lines.as_slice() {
        if let Instr::Store(_, _, _) = &line.instr {
            out.push_str(&format!(in alloc; " store {place}")?)?;
        }
    }
    if let End::Jump(to) = block.end {
        if to as usize <= place {
            out.push_str(&format!(in alloc; " back {place} {to}")?)?;
        }
    }
    Ok(())
}

/// How many locals are named, locals, blocks and lines the code has; and its stores and jumps back.
fn code_text(alloc: Global, code: &Code) -> Result<String, AllocError> {
    let mut lines = 0usize;
    let mut others = String::new(alloc);
    for (place, block) in code.blocks.as_slice().iter().enumerate() {
        lines = lines.saturating_add(block.lines.len());
        push_block(alloc, place, block, &mut others)?;
    }
    let blocks = code.blocks.len();
    format!(in alloc; "{} {} {blocks} {lines}{others}", code.named, code.locals)
}

/// What the last function of the text is lowered to: the numbers of its code, or the limit that it passes.
pub fn lowered_text(rt: &impl Abort, alloc: Global, text: &str) -> Result<String, Fail> {
    let unit = unit_of(rt, alloc, text)?;
    let typed = resolve(alloc, &unit, last_function(rt, &unit))?;
    match lower(alloc, &unit, &typed) {
        Ok(code) => Ok(code_text(alloc, &code)?),
        Err(LowerFault::TooLarge { kind, limit }) => {
            Ok(format!(in alloc; "{} {limit}", kind_text(kind))?)
        }
        Err(LowerFault::NoMemory) => panic!(rt; "no memory"),
    }
}
