//! Equality of kinds, cells, forms and function types.

ghost use Rattle.std.specs.Prelude.{◌≡◌, ◌↔◌, IsTrue};

use crate::calls::{FnType, ResultType};
use crate::cell::{CellKind, FlatCell};
use crate::form::{CaseBranch, Form, Part, Tail};
use cx_base::List;
use cx_term::{Ineq, Term};

/// What is compared in lists.
trait Compared {
    /// Whether the two are the same.
    fn is_same(&self, o: &Self) -> bool
        ensures { IsTrue result ↔ (self.now ≡ o.now) };
}

impl Compared for Term {
    fn is_same(&self, o: &Term) -> bool {
        self.same(o)
    }
}

impl Compared for Ineq {
    fn is_same(&self, o: &Ineq) -> bool {
        self.same(o)
    }
}

impl Compared for CellKind {
    fn is_same(&self, o: &CellKind) -> bool {
        self.same(o)
    }
}

impl Compared for FlatCell {
    fn is_same(&self, o: &FlatCell) -> bool {
        self.same(o)
    }
}

impl Compared for CaseBranch {
    fn is_same(&self, o: &CaseBranch) -> bool {
        self.same(o)
    }
}

/// Whether the lists are the same.
fn all_same<T: Compared>(a: &[T], b: &[T]) -> bool
    ensures { IsTrue result ↔ (a.now ≡ b.now) }
{
    if a.len() != b.len() {
        return false;
    }
    for i in 0..a.len() {
        if !a[i].is_same(&b[i]) {
            return false;
        }
    }
    true
}

fn same_lists<T: Compared>(a: &List<T>, b: &List<T>) -> bool
    ensures { IsTrue result ↔ (a.now ≡ b.now) }
{
    all_same(a.as_slice(), b.as_slice())
}

fn same_results(a: &Option<ResultType>, b: &Option<ResultType>) -> bool
    ensures { IsTrue result ↔ (a.now ≡ b.now) }
{
    match a {
        Some(r) => match b {
            Some(s) => r.same(s),
            None => false,
        },
        None => b.is_none(),
    }
}

fn same_tails(a: &Option<Tail>, b: &Option<Tail>) -> bool
    ensures { IsTrue result ↔ (a.now ≡ b.now) }
{
    match a {
        Some(t) => match b {
            Some(u) => t.same(u),
            None => false,
        },
        None => b.is_none(),
    }
}

impl CellKind {
    /// Whether the two kinds are the same.
    pub fn same(&self, o: &CellKind) -> bool
        ensures { IsTrue result ↔ (self.now ≡ o.now) }
    {
        match self {
            CellKind::Any => match o {
                CellKind::Any => true,
                CellKind::Val {
                    signed: _,
                    value: _,
                } => false,
                CellKind::Ptr {
                    name: _,
                    args: _,
                    off: _,
                    null: _,
                } => false,
            },
            CellKind::Val { signed, value } => match o {
                CellKind::Any => false,
                CellKind::Val {
                    signed: sign,
                    value: other,
                } => *signed == *sign && value.same(other),
                CellKind::Ptr {
                    name: _,
                    args: _,
                    off: _,
                    null: _,
                } => false,
            },
            CellKind::Ptr {
                name,
                args,
                off,
                null,
            } => match o {
                CellKind::Any => false,
                CellKind::Val {
                    signed: _,
                    value: _,
                } => false,
                CellKind::Ptr {
                    name: to,
                    args: given,
                    off: past,
                    null: or_null,
                } => {
                    *name == *to && same_lists(args, given) && off.same(past) && *null == *or_null
                }
            },
        }
    }
}

impl FlatCell {
    /// Whether the two cells are the same.
    pub fn same(&self, o: &FlatCell) -> bool
        ensures { IsTrue result ↔ (self.now ≡ o.now) }
    {
        self.at == o.at && self.size == o.size && self.kind.same(&o.kind)
    }
}

impl Part {
    /// Whether the two parts are the same.
    pub fn same(&self, o: &Part) -> bool
        ensures { IsTrue result ↔ (self.now ≡ o.now) }
    {
        self.binders == o.binders
            && same_lists(&self.conds, &o.conds)
            && same_lists(&self.cells, &o.cells)
            && self.size == o.size
    }
}

impl CaseBranch {
    /// Whether the two branches are the same.
    pub fn same(&self, o: &CaseBranch) -> bool
        ensures { IsTrue result ↔ (self.now ≡ o.now) }
    {
        same_lists(&self.guard, &o.guard) && self.part.same(&o.part)
    }
}

impl Tail {
    /// Whether the two tails are the same.
    pub fn same(&self, o: &Tail) -> bool
        ensures { IsTrue result ↔ (self.now ≡ o.now) }
    {
        self.count.same(&o.count) && self.part.same(&o.part)
    }
}

impl Form {
    /// Whether the two forms are the same.
    pub fn same(&self, o: &Form) -> bool
        ensures { IsTrue result ↔ (self.now ≡ o.now) }
    {
        self.params == o.params
            && self.binders == o.binders
            && self.head_size == o.head_size
            && self.cases_at == o.cases_at
            && self.shared == o.shared
            && same_lists(&self.conds, &o.conds)
            && same_lists(&self.head, &o.head)
            && same_lists(&self.cases, &o.cases)
            && same_tails(&self.tail, &o.tail)
    }
}

impl ResultType {
    /// Whether the two types are the same.
    pub fn same(&self, o: &ResultType) -> bool
        ensures { IsTrue result ↔ (self.now ≡ o.now) }
    {
        self.binders == o.binders && self.cell.same(&o.cell) && same_lists(&self.conds, &o.conds)
    }
}

impl FnType {
    /// Whether the two types are the same, the names of their functions included.
    pub fn same(&self, o: &FnType) -> bool
        ensures { IsTrue result ↔ (self.now ≡ o.now) }
    {
        self.name == o.name
            && self.binders == o.binders
            && same_lists(&self.args, &o.args)
            && same_lists(&self.conds, &o.conds)
            && same_results(&self.result, &o.result)
    }
}
