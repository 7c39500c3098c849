//! Code that is being made.

ghost use Rattle.std.specs.Prelude.{◌∷◌, OnOk};
ghost use Rattle.cx_goto.specs.Trees.{instr_tree};
ghost use Rattle.cx_lcode.specs.Items as items;
ghost use Rattle.cx_lemit.specs.Made.{Emits};

use cx_base::{List, NoMemory, Span};
use cx_goto::{Block, End, Instr, Line};
use std::mem;

/// Blocks that are finished, and the open one. Lines past the limit of a function are counted, and
/// not kept.
#[derive(Drop)]
pub struct Builder {
    pub blocks: List<Block>,
    pub keep: u32,
    pub lines: List<Line>,
    /// How many lines all blocks have, or one more than the limit.
    pub count: u32,
}

/// One more line in the open block.
pub fn line(code: &mut Builder, span: Span, instr: Instr) -> Result<(), NoMemory>
    ensures { OnOk result (Emits code.old code.new (λ rest. items.does span (instr_tree instr) ∷ rest)) }
{
    if code.count >= 4096 {
        code.count = 4097;
        return Ok(());
    }
    code.lines.push(Line { instr, span })?;
    code.count += 1;
    Ok(())
}

/// Ends the open block, and starts the next.
pub fn start(code: &mut Builder, end: End, span: Span, keep: u32) -> Result<(), NoMemory>
    ensures { OnOk result (Emits code.old code.new (λ rest. items.start end span keep ∷ rest)) }
{
    let lines = mem::replace(&mut code.lines, List::new(code.blocks.alloc()));
    let block = Block {
        keep: code.keep,
        lines,
        end,
        span,
    };
    code.blocks.push(block)?;
    code.keep = keep;
    Ok(())
}
