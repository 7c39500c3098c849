//! States once more.

ghost use Rattle.std.specs.Prelude.{◌≡◌, IfOk};

use crate::state::{Cell, Env, Fact};
use cx_base::{List, NoMemory};
use cx_term::{Ineq, Term};

fn copy_local(local: &Option<Term>) -> Option<Term>
    ensures { result ≡ local.now }
{
    match local {
        Some(t) => Some(t.copy()),
        None => None,
    }
}

fn copy_locals(locals: &List<Option<Term>>) -> Result<List<Option<Term>>, NoMemory>
    ensures { IfOk result (λ copy. copy ≡ locals.now) }
{
    let mut copy = List::new(locals.alloc());
    for local in locals.as_slice() {
        copy.push(copy_local(local))?;
    }
    Ok(copy)
}

fn copy_terms(terms: &List<Term>) -> Result<List<Term>, NoMemory>
    ensures { IfOk result (λ copy. copy ≡ terms.now) }
{
    let mut copy = List::new(terms.alloc());
    for t in terms.as_slice() {
        copy.push(t.copy())?;
    }
    Ok(copy)
}

fn copy_conds(conds: &List<Ineq>) -> Result<List<Ineq>, NoMemory>
    ensures { IfOk result (λ copy. copy ≡ conds.now) }
{
    let mut copy = List::new(conds.alloc());
    for c in conds.as_slice() {
        copy.push(c.copy())?;
    }
    Ok(copy)
}

fn copy_fact(fact: &Option<Fact>) -> Result<Option<Fact>, NoMemory>
    ensures { IfOk result (λ copy. copy ≡ fact.now) }
{
    match fact {
        Some(f) => {
            let copy = f.copy()?;
            Ok(Some(copy))
        }
        None => Ok(None),
    }
}

fn copy_facts(facts: &List<Option<Fact>>) -> Result<List<Option<Fact>>, NoMemory>
    ensures { IfOk result (λ copy. copy ≡ facts.now) }
{
    let mut copy = List::new(facts.alloc());
    for f in facts.as_slice() {
        copy.push(copy_fact(f)?)?;
    }
    Ok(copy)
}

fn copy_cells(cells: &List<Cell>) -> Result<List<Cell>, NoMemory>
    ensures { IfOk result (λ copy. copy ≡ cells.now) }
{
    let mut copy = List::new(cells.alloc());
    for c in cells.as_slice() {
        copy.push(c.copy())?;
    }
    Ok(copy)
}

impl Fact {
    /// The same fact once more.
    pub fn copy(&self) -> Result<Fact, NoMemory>
        ensures { IfOk result (λ copy. copy ≡ self.now) }
    {
        let args = copy_terms(&self.args)?;
        Ok(Fact {
            name: self.name,
            args,
            off: self.off.copy(),
            null: self.null,
        })
    }
}

impl Cell {
    /// The same cell. A `Cell` is not `Copy`.
    pub fn copy(&self) -> Cell
        ensures { result ≡ self.now }
    {
        Cell {
            sym: self.sym,
            at: self.at.copy(),
            size: self.size,
            signed: self.signed,
            value: self.value.copy(),
        }
    }
}

impl Env {
    /// The same state once more.
    pub fn copy(&self) -> Result<Env, NoMemory>
        ensures { IfOk result (λ copy. copy ≡ self.now) }
    {
        let locals = copy_locals(&self.locals)?;
        let ranges = self.ranges.copy()?;
        let conds = copy_conds(&self.conds)?;
        let facts = copy_facts(&self.facts)?;
        let cells = copy_cells(&self.cells)?;
        let staged = self.staged.copy()?;
        let fresh = self.fresh.copy()?;
        Ok(Env {
            locals,
            ranges,
            conds,
            facts,
            cells,
            staged,
            fresh,
        })
    }
}
