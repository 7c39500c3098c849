//! Putting a cell into a state, with what is true of it.

ghost use Rattle.std.specs.Prelude.{◌≡◌, IfOk, Ok, length};
ghost use Rattle.cx_state.specs.Valid.{CellBelow};
ghost use Rattle.cx_learn.specs.Answers.{Agrees};
ghost use Rattle.cx_learn.specs.Keeping.{KeepsValid};
ghost use Rattle.cx_apart.specs.Putting.{put, PutStands};
ghost use Rattle.cx_head.specs.Staged.{answer_of, fault_of, Gives};

use cx_apart::put_cell as put;
use cx_base::NoMemory;
use cx_head::FocusFault;
use cx_state::{Cell, Env, EnvFault};

fn fault_of(fault: EnvFault) -> FocusFault
    ensures { result ≡ fault_of fault }
{
    match fault {
        EnvFault::Limit(kind) => FocusFault::Limit(kind),
        EnvFault::NoMemory => FocusFault::NoMemory,
    }
}

fn copied(env: &Env) -> Result<Env, FocusFault>
    ensures { Gives result (answer_of (Ok env.now)) }
{
    match env.copy() {
        Ok(copy) => Ok(copy),
        Err(NoMemory) => Err(FocusFault::NoMemory),
    }
}

fn put_into(env: Env, cell: Cell) -> Result<Env, FocusFault>
    ensures { Gives result (answer_of (put env cell)) }
{
    match put(env, cell) {
        Ok(env) => Ok(env),
        Err(fault) => Err(fault_of(fault)),
    }
}

fn put_copy(env: &Env, cell: Cell) -> Result<Env, FocusFault>
    ensures { Gives result (answer_of (put env.now cell)) }
{
    let copy = copied(env)?;
    put_into(copy, cell)
}

/// The state in which the cell is known, and no other cell that is not shown to lie apart from it. After a
/// store of bytes that read as the cell's value, into a region whose type is not shared, it stands where the
/// state stood before, by whichever symbols the other cells are known. It is valid, if the cell names symbols
/// of the state. `Limit` exactly where the cells would be more than 256; never `AliasStaged`.
pub fn put_cell(env: &Env, cell: Cell) -> Result<Env, FocusFault>
    ensures exact { Gives result (answer_of (put env.now cell)) }
    ensures sound { IfOk result (λ next. PutStands env.now cell next) }
    ensures valid { IfOk result (λ next. KeepsValid env.now next (CellBelow (length env.now.ranges) cell)) }
{
    put_copy(env, cell)
}
