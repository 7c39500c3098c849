ghost use Rattle.std.specs.Prelude.{◌≡◌};
ghost use Rattle.cx_state.specs.declared.state.EnvFault.TheVariants.{NoMemory as OutOfMemory};

use cx_base::{List, NoMemory, Span};
use cx_entail::Range;
use cx_term::{Ineq, Term};
use thiserror::Error;

/// What is known of a symbol that is an address: it is `off` bytes past the base of a region that has
/// the type at place `name`, with these arguments. With `null` it is such an address or 0.
#[derive(Drop)]
pub struct Fact {
    pub name: u32,
    pub args: List<Term>,
    pub off: Term,
    pub null: bool,
}

/// Known bytes: the `size` bytes from the symbol plus `at` on write `value`, as a number of this sign.
#[derive(Drop)]
pub struct Cell {
    pub sym: u32,
    pub at: Term,
    pub size: u8,
    pub signed: bool,
    pub value: Term,
}

/// An abstract state: what is known where a function has come to a place of its code.
///
/// Symbols 0 to 23 are the values of the binders of the function's type, 24 to 39 the bases of the first
/// globals of the type file; further symbols are made on the way.
#[derive(Drop)]
pub struct Env {
    /// The value of each local, None where nothing is known of it.
    pub locals: List<Option<Term>>,
    /// The numbers that each symbol may be.
    pub ranges: List<Range>,
    /// What is known of the symbols together.
    pub conds: List<Ineq>,
    /// What is known of each symbol as an address.
    pub facts: List<Option<Fact>>,
    pub cells: List<Cell>,
    /// The symbols of the regions whose heads need not hold their types now.
    pub staged: List<u32>,
    /// The symbols of new blocks, which need not hold their types yet.
    pub fresh: List<u32>,
}

/// What an address is known to be: `off` bytes past the base of the region that the fact of `sym` is
/// about. With `null` it is this or 0.
#[derive(Drop)]
pub struct Pointed {
    pub sym: u32,
    pub off: Term,
    pub null: bool,
}

/// The states of a function's blocks, None where the block is not reached. `name` is the place of the
/// function's type.
#[derive(Drop)]
pub struct Inv {
    pub name: u32,
    pub blocks: List<Option<Env>>,
}

/// The state of a loop head, None where the block is not reached.
#[derive(Drop)]
pub struct Head {
    pub block: u32,
    pub env: Option<Env>,
}

/// A condition that fails, by its number, and the text that it is about.
#[derive(Clone, Copy, Debug, PartialEq, Eq)]
pub struct Cond {
    pub number: u8,
    pub span: Span,
}

/// An access to memory, and the region type at the place `name` that it lies in.
#[derive(Clone, Copy, Debug, PartialEq, Eq)]
pub struct Access {
    pub span: Span,
    pub name: u32,
}

/// What the checker says of a function: the conditions that fail, and its accesses, in order of place.
#[derive(Drop)]
pub struct Verdict {
    pub fails: List<Cond>,
    pub accesses: List<Access>,
}

/// What a state may have too many of.
#[derive(Clone, Copy, Debug, PartialEq, Eq)]
pub enum EnvLimit {
    /// More than 512 symbols.
    Symbols,
    /// More than 64 conditions.
    Conds,
    /// More than 256 cells.
    Cells,
    /// More than 8 staged symbols.
    Staged,
}

/// Why a state was not made.
#[derive(Clone, Copy, Debug, PartialEq, Eq, Error)]
pub enum EnvFault {
    /// The state would pass this limit.
    #[error("the state passes a limit")]
    Limit(EnvLimit),
    /// The allocator refused.
    #[error("out of memory")]
    NoMemory,
}

impl From<NoMemory> for EnvFault {
    ghost from_gives = { λ _ e. e ≡ OutOfMemory };

    fn from(_e: NoMemory) -> EnvFault {
        EnvFault::NoMemory
    }
}
