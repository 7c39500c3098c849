ghost use Rattle.std.specs.Prelude.{◌≡◌, IfOk};

use crate::cell::FlatCell;
use cx_base::{List, NoMemory};
use cx_term::{Ineq, Term};

/// What the bytes of a branch or of an element hold: the cells, for some values of its own binders
/// at which the conditions are true.
#[derive(Drop)]
pub struct Part {
    pub binders: u32,
    pub conds: List<Ineq>,
    pub cells: List<FlatCell>,
    /// How many bytes it has.
    pub size: u32,
}

/// One of several parts that the same bytes may hold: where the guard is true they may hold this one.
#[derive(Drop)]
pub struct CaseBranch {
    pub guard: List<Ineq>,
    pub part: Part,
}

/// An array at the end of a region: `count` elements, each of which holds the part.
#[derive(Drop)]
pub struct Tail {
    pub count: Term,
    pub part: Part,
}

/// What the bytes of a region hold: a head of `head_size` bytes, then the tail's elements.
///
/// Its terms use the symbols from 0 on for the parameters and the next ones for the binders. The own
/// binders of a branch and of an element begin after these.
#[derive(Drop)]
pub struct Form {
    pub params: u32,
    pub binders: u32,
    pub conds: List<Ineq>,
    pub head: List<FlatCell>,
    pub head_size: u32,
    /// The offset in the head at which the branches stand.
    pub cases_at: u32,
    /// The branches, one of which holds; none where the head is the cells alone.
    pub cases: List<CaseBranch>,
    pub tail: Option<Tail>,
    /// Whether the type is marked shared: others may rewrite its regions between two accesses.
    pub shared: bool,
}

/// The same conditions once more.
fn copy_conds(conds: &List<Ineq>) -> Result<List<Ineq>, NoMemory>
    ensures { IfOk result (λ copy. copy ≡ conds.now) }
{
    let mut copy = List::new(conds.alloc());
    for c in conds.as_slice() {
        copy.push(c.copy())?;
    }
    Ok(copy)
}

/// The same cells once more.
fn copy_cells(cells: &List<FlatCell>) -> Result<List<FlatCell>, NoMemory>
    ensures { IfOk result (λ copy. copy ≡ cells.now) }
{
    let mut copy = List::new(cells.alloc());
    for c in cells.as_slice() {
        copy.push(c.copy()?)?;
    }
    Ok(copy)
}

/// The same branches once more.
fn copy_cases(cases: &List<CaseBranch>) -> Result<List<CaseBranch>, NoMemory>
    ensures { IfOk result (λ copy. copy ≡ cases.now) }
{
    let mut copy = List::new(cases.alloc());
    for b in cases.as_slice() {
        copy.push(b.copy()?)?;
    }
    Ok(copy)
}

/// The same tail once more, where there is one.
fn copy_tail(tail: &Option<Tail>) -> Result<Option<Tail>, NoMemory>
    ensures { IfOk result (λ copy. copy ≡ tail.now) }
{
    match tail {
        Some(t) => {
            let copy = t.copy()?;
            Ok(Some(copy))
        }
        None => Ok(None),
    }
}

impl Part {
    /// The same part once more.
    pub fn copy(&self) -> Result<Part, NoMemory>
        ensures { IfOk result (λ copy. copy ≡ self.now) }
    {
        let conds = copy_conds(&self.conds)?;
        let cells = copy_cells(&self.cells)?;
        Ok(Part {
            binders: self.binders,
            conds,
            cells,
            size: self.size,
        })
    }
}

impl CaseBranch {
    /// The same branch once more.
    pub fn copy(&self) -> Result<CaseBranch, NoMemory>
        ensures { IfOk result (λ copy. copy ≡ self.now) }
    {
        let guard = copy_conds(&self.guard)?;
        let part = self.part.copy()?;
        Ok(CaseBranch { guard, part })
    }
}

impl Tail {
    /// The same tail once more.
    pub fn copy(&self) -> Result<Tail, NoMemory>
        ensures { IfOk result (λ copy. copy ≡ self.now) }
    {
        let part = self.part.copy()?;
        Ok(Tail {
            count: self.count.copy(),
            part,
        })
    }
}

impl Form {
    /// The same form once more.
    pub fn copy(&self) -> Result<Form, NoMemory>
        ensures { IfOk result (λ copy. copy ≡ self.now) }
    {
        let conds = copy_conds(&self.conds)?;
        let head = copy_cells(&self.head)?;
        let cases = copy_cases(&self.cases)?;
        let tail = copy_tail(&self.tail)?;
        Ok(Form {
            params: self.params,
            binders: self.binders,
            conds,
            head,
            head_size: self.head_size,
            cases_at: self.cases_at,
            cases,
            tail,
            shared: self.shared,
        })
    }
}
