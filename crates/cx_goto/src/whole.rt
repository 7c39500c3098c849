ghost use Rattle.std.specs.Prelude.{◌↔◌, ℕ, ◌<◌, IsTrue, length, All};
ghost use Rattle.cx_goto.specs.Whole.{LocalsIn, ReturnIn, EndIn, BlockIn, IsWhole};

use crate::code::{Block, Code, End, Instr};
use cx_base::CInt;

/// Whether the locals that the line names are below n.
fn has_locals(n: u32, instr: &Instr) -> bool
    ensures { IsTrue result ↔ LocalsIn n instr.now }
{
    match instr {
        Instr::Const(d, _) => *d < n,
        Instr::Copy(d, x) => *d < n && *x < n,
        Instr::Unset(d) => *d < n,
        Instr::Global(d, _) => *d < n,
        Instr::Bin(d, _, _, x, y) => *d < n && *x < n && *y < n,
        Instr::Conv(d, _) => *d < n,
        Instr::Load(d, _, a) => *d < n && *a < n,
        Instr::Store(_, a, x) => *a < n && *x < n,
        Instr::Call { dest, args, .. } => *dest < n && args.as_slice().iter().all(|x| *x < n),
    }
}

/// Whether a return of this local agrees with the type of the function's result.
fn returns(n: u32, of: Option<CInt>, local: Option<u32>) -> bool
    ensures { IsTrue result ↔ ReturnIn n of local }
{
    match of {
        None => local.is_none(),
        Some(_) => match local {
            None => false,
            Some(x) => x < n,
        },
    }
}

/// Whether the blocks that the end names are below m, and its locals below n.
fn ends(m: usize, n: u32, of: Option<CInt>, end: &End) -> bool
    ensures { IsTrue result ↔ EndIn m n of end.now }
{
    match end {
        End::Jump(to) => (*to as usize) < m,
        End::Branch(_, x, y, yes, no) => {
            *x < n && *y < n && (*yes as usize) < m && (*no as usize) < m
        }
        End::Return(x) => returns(n, of, *x),
        End::Missing => of.is_some(),
    }
}

/// Whether the blocks and locals that the block names are there.
fn is_block_whole(m: usize, n: u32, of: Option<CInt>, block: &Block) -> bool
    ensures { IsTrue result ↔ BlockIn m n of block.now }
{
    block
        .lines
        .as_slice()
        .iter()
        .all(|l| has_locals(n, &l.instr))
        && ends(m, n, of, &block.end)
}

/// Whether the blocks and locals that the code names are there: it has a first block, its parameters are
/// among its named locals and these among its locals, and its returns have a local exactly where the
/// function has a result.
pub fn is_whole(code: &Code) -> bool
    ensures whole { IsTrue result ↔ IsWhole code.now }
{
    let blocks = code.blocks.as_slice();
    !blocks.is_empty()
        && code.params <= code.named
        && code.named <= code.locals
        && blocks.iter().all(|b| is_block_whole(blocks.len(), code.locals, code.result, b))
}
