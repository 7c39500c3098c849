//! What a state becomes when a part of a region is opened.

ghost use Rattle.std.specs.Prelude.{◌≡◌, ◌≤◌, ◌+◌, Some, None, IfOk, length};
ghost use Rattle.cx_learn.specs.Answers.{Agrees};
ghost use Rattle.cx_close.specs.Knowing.{window};
ghost use Rattle.cx_open.specs.Steps.{AgreesOn};
ghost use Rattle.cx_open.specs.Parts as spec;

use crate::cells::{learn_all, open_cells};
use crate::naming::{Opening, bind_all};
use cx_cells::{FlatCell, Rules};
use cx_state::{Env, EnvFault, Fact};
use cx_term::{Ineq, Term};

fn fill(
    rules: &Rules,
    s: u32,
    f: &Fact,
    start: &Option<Term>,
    cells: &[FlatCell],
    conds: &[Ineq],
    values: &[Term],
    env: Env,
) -> Result<Env, EnvFault>
    ensures { Agrees result (spec.filled rules.now.forms (window None s f.now start.now cells.now) conds.now (record { env = env; terms = values.now })) }
{
    let env = learn_all(values, env, conds)?;
    open_cells(rules, s, f, start, values, env, cells)
}

/// The part of a region that `cells`, `conds` and `binders` describe, opened: what they say of its bytes is
/// added to the state. The symbol `s` with the fact `f` points into the region, and the part begins `start`
/// bytes past the region's base. The values of `o` are those of the type's symbols below the part's own
/// binders, and the values of these come after them: each is what is known of the cell that tells it, or
/// else a new symbol in that cell's range. Then the conditions are learnt, and the cells are taken in order.
/// `Limit` exactly where a step passes a limit of states, with the limit that is passed first.
pub fn open_part(
    rules: &Rules,
    s: u32,
    f: &Fact,
    start: &Option<Term>,
    cells: &[FlatCell],
    conds: &[Ineq],
    binders: u32,
    o: Opening,
) -> Result<Opening, EnvFault>
    requires few { length o.terms + binders ≤ 40 }
    ensures longer { IfOk result (λ next. length next.terms ≡ length o.terms + binders) }
    ensures exact { AgreesOn result (spec.part_opened rules.now.forms (window None s f.now start.now cells.now) binders conds.now o) }
{
    let o = bind_all(s, f, start, cells, binders, o)?;
    let terms = o.terms;
    let env = fill(rules, s, f, start, cells, conds, terms.as_slice(), o.env)?;
    Ok(Opening { env, terms })
}
