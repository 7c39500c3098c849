ghost use Rattle.std.specs.Prelude.{◌↔◌, ◌≡◌, ◌^◌, ◌<◌, ◌≤◌, IsTrue, IfSome, IsSomeAnd, All, AllPairs, length, slice_get};
ghost use Rattle.std.specs.List.{list_any};
ghost use Rattle.cx_cells.specs.Symbols.{kind_names, telling_cell};
ghost use Rattle.cx_cells.specs.Kept.{CondIn, CellKept, EndsBefore, AllTold, PartKept, symbols_of, IsBeside, BranchKept, TailKept, cases_name, ToldBeforeCases, HaveOneSize, cell_count, FormKept};

use crate::cell::FlatCell;
use crate::form::{CaseBranch, Form, Part, Tail};
use crate::kept::cells::{all_told, cells_kept, conds_in, term_in};
use crate::kept::order::are_in_order;
use crate::telling::{kind_names, telling_cell};

/// Whether the part keeps its facts, where symbols below `known` are known and its own begin at `first`.
fn part_kept(forms: &[Form], part: &Part, known: u32, first: u32) -> bool
    requires { first ≤ 24 }
    ensures { IsTrue result ↔ PartKept forms.now known first part.now }
{
    if part.binders > 16 {
        return false;
    }
    let past = first + part.binders;
    part.conds.len() < 4294967296
        && part.cells.len() <= 1024
        && conds_in(part.conds.as_slice(), known, first, past)
        && cells_kept(forms, part.cells.as_slice(), known, first, past, part.size)
        && are_in_order(part.cells.as_slice())
        && all_told(part.cells.as_slice(), first, past)
}

fn is_beside(from: u32, size: u32, c: &FlatCell) -> bool
    ensures { IsTrue result ↔ IsBeside from size c.now }
{
    u64::from(c.at) + u64::from(c.size) <= u64::from(from)
        || u64::from(from) + u64::from(size) <= u64::from(c.at)
}

fn all_beside(from: u32, size: u32, head: &[FlatCell]) -> bool
    ensures { IsTrue result ↔ All (IsBeside from size) head.now }
{
    head.iter().all(|c| is_beside(from, size, c))
}

fn branch_kept(forms: &[Form], form: &Form, b: &CaseBranch) -> bool
    requires { symbols_of form.now ≤ 24 }
    ensures { IsTrue result ↔ BranchKept forms.now form.now b.now }
{
    let past = form.params + form.binders;
    b.guard.len() < 4294967296
        && conds_in(b.guard.as_slice(), past, 0, 0)
        && part_kept(forms, &b.part, past, past)
        && u64::from(form.cases_at) + u64::from(b.part.size) <= u64::from(form.head_size)
        && all_beside(form.cases_at, b.part.size, form.head.as_slice())
}

fn cases_kept(forms: &[Form], form: &Form) -> bool
    requires { symbols_of form.now ≤ 24 }
    ensures { IsTrue result ↔ All (BranchKept forms.now form.now) form.now.cases }
{
    form.cases
        .as_slice()
        .iter()
        .all(|b| branch_kept(forms, form, b))
}

fn tail_kept(forms: &[Form], form: &Form, tail: &Tail) -> bool
    requires { symbols_of form.now ≤ 24 }
    ensures { IsTrue result ↔ TailKept forms.now form.now tail.now }
{
    term_in(&tail.count, form.params, 0, 0)
        && 1 <= tail.part.size
        && tail.part.size <= 2147483648
        && part_kept(forms, &tail.part, form.params, form.params + form.binders)
}

fn some_tail_kept(forms: &[Form], form: &Form) -> bool
    requires { symbols_of form.now ≤ 24 }
    ensures { IsTrue result ↔ IfSome form.now.tail (TailKept forms.now form.now) }
{
    match &form.tail {
        Some(tail) => tail_kept(forms, form, tail),
        None => true,
    }
}

fn cells_name(cells: &[FlatCell], s: u32) -> bool
    ensures { result ≡ list_any (λ c. kind_names s c.kind) cells.now }
{
    cells.iter().any(|c| kind_names(&c.kind, s))
}

/// Whether a cell of some branch names the symbol.
fn cases_name(cases: &[CaseBranch], s: u32) -> bool
    ensures { result ≡ cases_name s cases.now }
{
    cases.iter().any(|b| cells_name(b.part.cells.as_slice(), s))
}

/// Whether the cell of the head that tells the symbol, if there is one, stands before the offset.
fn told_before(head: &[FlatCell], s: u32, at: u32) -> bool
    ensures { IsTrue result ↔ IfSome (telling_cell s head.now) (λ w. IsSomeAnd (slice_get head.now w.0) (λ c. c.at < at)) }
{
    match telling_cell(head, s) {
        Some((i, _)) => match head.get(i) {
            Some(c) => c.at < at,
            None => false,
        },
        None => true,
    }
}

/// Whether the cell that tells a binder which a branch names stands before the branches.
fn told_before_cases(form: &Form) -> bool
    requires { symbols_of form.now ≤ 24 }
    ensures { IsTrue result ↔ ToldBeforeCases form.now }
{
    for s in form.params..form.params + form.binders {
        if cases_name(form.cases.as_slice(), s)
            && !told_before(form.head.as_slice(), s, form.cases_at)
        {
            return false;
        }
    }
    true
}

fn have_size(cases: &[CaseBranch], size: u32) -> bool
    ensures { IsTrue result ↔ All (λ b. b.part.size ≡ size) cases.now }
{
    cases.iter().all(|b| b.part.size == size)
}

fn have_one_size(cases: &[CaseBranch]) -> bool
    ensures { IsTrue result ↔ HaveOneSize cases.now }
{
    match cases.first() {
        Some(a) => have_size(cases, a.part.size),
        None => true,
    }
}

/// Whether the head and the branches have at most 1024 cells together.
fn has_few_cells(form: &Form) -> bool
    ensures { IsTrue result ↔ (cell_count form.now ≤ 1024) }
{
    let mut count = form.head.len();
    if count > 1024 {
        return false;
    }
    for b in form.cases.as_slice() {
        if b.part.cells.len() > 1024 - count {
            return false;
        }
        count += b.part.cells.len();
    }
    true
}

fn head_kept(forms: &[Form], form: &Form) -> bool
    requires { symbols_of form.now ≤ 24 }
    ensures { IsTrue result ↔ (All (CondIn (symbols_of form.now) 0 0) form.now.conds × All (CellKept forms.now (symbols_of form.now) 0 0 form.now.head_size) form.now.head × AllPairs EndsBefore form.now.head × AllTold form.now.params (symbols_of form.now) form.now.head) }
{
    let past = form.params + form.binders;
    let head = form.head.as_slice();
    conds_in(form.conds.as_slice(), past, 0, 0)
        && cells_kept(forms, head, past, 0, 0, form.head_size)
        && are_in_order(head)
        && all_told(head, form.params, past)
}

/// Whether the head is no greater than 2^31 bytes, and the lists are no longer than they may be.
fn is_small(form: &Form) -> bool
    ensures { IsTrue result ↔ ((form.now.head_size ≤ 2 ^ 31) × (length form.now.conds < 2 ^ 32) × (length form.now.cases < 2 ^ 32) × (cell_count form.now ≤ 1024)) }
{
    form.head_size <= 2147483648
        && form.conds.len() < 4294967296
        && form.cases.len() < 4294967296
        && has_few_cells(form)
}

/// Whether the branches and the tail keep their facts.
fn rest_kept(forms: &[Form], form: &Form) -> bool
    requires { symbols_of form.now ≤ 24 }
    ensures { IsTrue result ↔ (All (BranchKept forms.now form.now) form.now.cases × HaveOneSize form.now.cases × ToldBeforeCases form.now × IfSome form.now.tail (TailKept forms.now form.now)) }
{
    cases_kept(forms, form)
        && have_one_size(form.cases.as_slice())
        && told_before_cases(form)
        && some_tail_kept(forms, form)
}

/// Whether the form keeps its facts.
fn form_kept(forms: &[Form], form: &Form) -> bool
    ensures { IsTrue result ↔ FormKept forms.now form.now }
{
    if form.params > 8 || form.binders > 16 {
        return false;
    }
    is_small(form) && head_kept(forms, form) && rest_kept(forms, form)
}

/// Whether each form keeps its facts.
pub(crate) fn forms_kept(forms: &[Form]) -> bool
    ensures { IsTrue result ↔ All (FormKept forms.now) forms.now }
{
    forms.iter().all(|f| form_kept(forms, f))
}
