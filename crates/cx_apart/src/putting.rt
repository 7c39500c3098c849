//! Putting a cell into a state.

ghost use Rattle.std.specs.Prelude.{◌≡◌, filter, IfOk};
ghost use Rattle.cx_learn.specs.Answers.{Agrees};
ghost use Rattle.cx_apart.specs.Apart.{are_apart};
ghost use Rattle.cx_apart.specs.Putting.{spot_of, apart_from, dropped, with_cell, put, DropStands, PutStands};

use crate::showing::are_apart;
use crate::spots::Spot;
use cx_base::{List, NoMemory};
use cx_state::{Cell, Env, EnvFault, EnvLimit};

/// How many cells a state may have.
const CELLS: usize = 256;

fn spot_of(c: &Cell) -> Spot
    ensures { result ≡ spot_of c.now }
{
    Spot {
        sym: c.sym,
        at: c.at.copy(),
        size: c.size,
    }
}

fn is_kept(env: &Env, a: &Spot, c: &Cell) -> bool
    ensures { result ≡ are_apart env.now (spot_of c.now) a.now }
{
    are_apart(env, &spot_of(c), a)
}

fn apart_from(env: &Env, a: &Spot) -> Result<List<Cell>, NoMemory>
    ensures { IfOk result (λ cells. cells ≡ apart_from env.now a.now env.now.cells) }
{
    let mut kept = List::new(env.cells.alloc());
    for c in env.cells.as_slice() {
        if is_kept(env, a, c) {
            kept.push(c.copy())?;
        }
    }
    Ok(kept)
}

/// The state without the cells that are not shown to lie apart from the spot. What stood before a
/// store into the spot stands after it so.
pub fn drop_spot(env: Env, a: &Spot) -> Result<Env, NoMemory>
    ensures exact { IfOk result (λ next. next ≡ dropped env a.now) }
    ensures sound { IfOk result (λ next. DropStands env a.now next) }
{
    dropped(env, a)
}

fn dropped(env: Env, a: &Spot) -> Result<Env, NoMemory>
    ensures { IfOk result (λ next. next ≡ dropped env a.now) }
{
    let mut env = env;
    env.cells = apart_from(&env, a)?;
    Ok(env)
}

/// The state in which the cell is known as well, and stands last. `Limit` exactly where the cells would be
/// more than 256.
pub fn with_cell(env: Env, c: Cell) -> Result<Env, EnvFault>
    ensures { Agrees result (with_cell env c) }
{
    if env.cells.len() >= CELLS {
        return Err(EnvFault::Limit(EnvLimit::Cells));
    }
    let mut env = env;
    env.cells.push(c)?;
    Ok(env)
}

/// The state in which the cell is known, and no other that is not shown to lie apart from it. `Limit`
/// exactly where the cells would be more than 256. What stood before a store of bytes that read as the
/// cell's value, into a region whose type is not shared, stands after it so.
pub fn put_cell(env: Env, c: Cell) -> Result<Env, EnvFault>
    ensures exact { Agrees result (put env c) }
    ensures sound { IfOk result (λ next. PutStands env c next) }
{
    put_by(env, c)
}

fn put_by(env: Env, c: Cell) -> Result<Env, EnvFault>
    ensures { Agrees result (put env c) }
{
    let env = dropped(env, &spot_of(&c))?;
    with_cell(env, c)
}
