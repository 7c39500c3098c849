ghost use Rattle.std.specs.Prelude.{◌≡◌, ◌+◌, ◌≤◌, ◌<◌, None, IfOk, IfErr, ◌++◌, ◌∷◌, [], map, length};
ghost use Rattle.cx_ctree.specs.Types.{type_tree};
ghost use Rattle.cx_ctree.specs.Stmts.{stmt_tree};
ghost use Rattle.cx_ctree.specs.Decls.{typed_tree};
ghost use Rattle.cx_cmean.specs.Program.{Program};
ghost use Rattle.cx_cmean.specs.Statements as means;
ghost use Rattle.cx_gline.specs.Law.{NumbersSmall, ReturnsAgree};
ghost use Rattle.cx_gline.specs.Lines.{ConstantsSmall, CallsAgree};
ghost use Rattle.cx_goto.specs.Trees.{block_tree, code_tree};
ghost use Rattle.cx_goto.specs.Whole.{IsWhole};
ghost use Rattle.cx_lcode.specs.Lowered as spec;
ghost use Rattle.cx_lcode.specs.Needs as needs;
ghost use Rattle.cx_lcode.specs.Starts as starts;
ghost use Rattle.cx_lower.specs.Limits.{lines_of, first_passed, Tells, TellsOfNumbers, TellsOfLines};
ghost use Rattle.cx_lright.specs.Fine.{FunctionFine};
ghost use Rattle.cx_lright.specs.Right.{GivesNumbers, DoesAs};
ghost use Rattle.cx_sname.specs.File.{declared_of};

use crate::fault::{LimitKind, LowerFault};
use cx_abi::tags_are_by_members;
use cx_base::{CInt, List, NoMemory, Span};
use cx_cmean::number_in;
use cx_ctree::{CType, Typed, Unit};
use cx_goto::{Block, Code, End};
use cx_lemit::Builder;
use cx_lneed::stmt_need;
use cx_lsize::stmt_starts;
use cx_lstmt::emit_stmt;
use std::alloc::Global;

// The type of the number that a function gives.
fn result_type(ctype: &CType) -> Option<CInt>
    ensures { result ≡ spec.result_of (type_tree ctype.now) }
{
    match ctype {
        CType::Void => None,
        CType::Int(_) | CType::Ptr(_) | CType::Array(_, _) | CType::Tag(_) => Some(number_in(
            ctype,
        )),
    }
}

// How a body ends that is left without a return.
fn last_end(ctype: &CType) -> End
    ensures { result ≡ spec.last_end (type_tree ctype.now) }
{
    match ctype {
        CType::Void => End::Return(None),
        CType::Int(_) | CType::Ptr(_) | CType::Array(_, _) | CType::Tag(_) => End::Missing,
    }
}

fn closing_brace(span: Span) -> Span
    ensures { result ≡ means.closing_brace span }
{
    let first = if span.past == 0 { 0 } else { span.past - 1 };
    Span {
        first,
        past: span.past,
    }
}

// The blocks with the open one, which ends so.
fn closed(code: Builder, end: End, span: Span) -> Result<List<Block>, NoMemory>
    ensures { IfOk result (λ blocks. blocks ≡ code.blocks ++ record { keep = code.keep; lines = code.lines; end = end; span = span } ∷ []) }
{
    let mut blocks = code.blocks;
    blocks.push(Block {
        keep: code.keep,
        lines: code.lines,
        end,
        span,
    })?;
    Ok(blocks)
}

// Parameters are the first of the locals.
fn params_among(typed: &Typed, named: u32) -> u32
    ensures { length typed.now.sig.params ≤ named → result ≡ length typed.now.sig.params }
{
    let params = typed.sig.params.len();
    if params <= named as usize {
        params as u32
    } else {
        named
    }
}

// How many locals the code has, where it passes no limit of locals and of blocks.
fn locals_within(unit: &Unit, typed: &Typed) -> Result<u32, LowerFault>
    ensures exact { IfOk result (λ n. n ≡ length typed.now.locals + needs.stmt_need (declared_of unit.now) (stmt_tree typed.now.body)) }
    ensures few_locals { IfOk result (λ n. n ≤ 128) }
    ensures few_blocks { IfOk result (λ n. starts.stmt_starts (stmt_tree typed.now.body) < 512) }
    ensures limit { IfErr result (TellsOfNumbers (length typed.now.locals + needs.stmt_need (declared_of unit.now) (stmt_tree typed.now.body)) (starts.stmt_starts (stmt_tree typed.now.body) + 1)) }
{
    let kind = LimitKind::Locals;
    let named = typed.locals.len();
    if named > 128 {
        return Err(LowerFault::TooLarge { kind, limit: 128 });
    }
    let locals = named as u32 + stmt_need(unit, &typed.body);
    if locals > 128 {
        return Err(LowerFault::TooLarge { kind, limit: 128 });
    }
    if stmt_starts(&typed.body) >= 512 {
        let kind = LimitKind::Blocks;
        return Err(LowerFault::TooLarge { kind, limit: 512 });
    }
    Ok(locals)
}

// The blocks of the code, where its lines pass no limit.
fn blocks_within(
    alloc: Global,
    unit: &Unit,
    typed: &Typed,
    named: u32,
) -> Result<List<Block>, LowerFault>
    requires named { named ≡ length typed.now.locals }
    requires few_locals { named + needs.stmt_need (declared_of unit.now) (stmt_tree typed.now.body) ≤ 128 }
    requires few_blocks { starts.stmt_starts (stmt_tree typed.now.body) < 512 }
    ensures exact { IfOk result (λ bs. map block_tree bs ≡ (spec.lowered (declared_of unit.now) unit.now.tokens (typed_tree typed.now)).blocks) }
    ensures few_lines { IfOk result (λ bs. lines_of (spec.lowered (declared_of unit.now) unit.now.tokens (typed_tree typed.now)).blocks ≤ 4096) }
    ensures limit { IfErr result (TellsOfLines (lines_of (spec.lowered (declared_of unit.now) unit.now.tokens (typed_tree typed.now)).blocks)) }
{
    let mut code = Builder {
        blocks: List::new(alloc),
        keep: named,
        lines: List::new(alloc),
        count: 0,
    };
    let given = &typed.sig.result;
    emit_stmt(unit, named, &mut code, 0, 0, 0, &typed.body, given)?;
    if code.count > 4096 {
        let kind = LimitKind::Instructions;
        return Err(LowerFault::TooLarge { kind, limit: 4096 });
    }
    let span = closing_brace(typed.body.span);
    let blocks = closed(code, last_end(given), span)?;
    Ok(blocks)
}

/// The code of the function, for a tree that is fine: locals exist, no name is left, operators take
/// their operands, and calls have as many arguments as their functions have parameters. It is that of
/// the tables, and a run of it does what the function does, where callees that are declared with a
/// result give one.
///
/// Each call in it has as many arguments as the function of its name has parameters. Where the returns
/// of the tree give a value exactly in a function with a result, the blocks and locals that the code
/// names are there, and its returns have a local exactly in such a function. Where the numbers in the
/// tree and of the enumeration constants have absolute values of at most 2^96, those of the code's
/// constants have too.
///
/// `TooLarge` comes exactly where that code passes a limit, and tells the first of: 128 locals with
/// temporaries, 512 blocks, 4096 lines of all blocks.
pub fn lower(alloc: Global, unit: &Unit, typed: &Typed) -> Result<Code, LowerFault>
    ensures code { FunctionFine (declared_of unit.now) (typed_tree typed.now) → IfOk result (λ code. code_tree code ≡ spec.lowered (declared_of unit.now) unit.now.tokens (typed_tree typed.now)) }
    ensures within { FunctionFine (declared_of unit.now) (typed_tree typed.now) → IfOk result (λ code. first_passed (code_tree code) ≡ None) }
    ensures limit { FunctionFine (declared_of unit.now) (typed_tree typed.now) → IfErr result (Tells (spec.lowered (declared_of unit.now) unit.now.tokens (typed_tree typed.now))) }
    ensures right { FunctionFine (declared_of unit.now) (typed_tree typed.now) → IfOk result (λ code. (p : Program) → p.unit ≡ (declared_of unit.now) → GivesNumbers p → DoesAs p (code_tree code) (typed_tree typed.now)) }
    ensures whole { FunctionFine (declared_of unit.now) (typed_tree typed.now) → ReturnsAgree (typed_tree typed.now) → IfOk result (λ code. IsWhole code) }
    ensures constants { FunctionFine (declared_of unit.now) (typed_tree typed.now) → NumbersSmall (declared_of unit.now) (typed_tree typed.now) → IfOk result (λ code. ConstantsSmall (code_tree code)) }
    ensures calls { FunctionFine (declared_of unit.now) (typed_tree typed.now) → IfOk result (λ code. CallsAgree (declared_of unit.now) (code_tree code)) }
{
    tags_are_by_members(unit);
    let locals = locals_within(unit, typed)?;
    let named = typed.locals.len() as u32;
    let blocks = blocks_within(alloc, unit, typed, named)?;
    Ok(Code {
        name_span: typed.name_span,
        params: params_among(typed, named),
        named,
        locals,
        result: result_type(&typed.sig.result),
        blocks,
    })
}
