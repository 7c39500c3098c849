//! Equality of states.

ghost use Rattle.std.specs.Prelude.{◌≡◌, ◌↔◌, IsTrue};

use crate::state::{Cell, Env, Fact};
use cx_base::List;
use cx_entail::Range;
use cx_term::{Ineq, Term};

/// What is compared in lists.
trait Compared {
    /// Whether the two are the same.
    fn is_same(&self, o: &Self) -> bool
        ensures { IsTrue result ↔ (self.now ≡ o.now) };
}

impl Compared for u32 {
    fn is_same(&self, o: &u32) -> bool {
        *self == *o
    }
}

impl Compared for Range {
    fn is_same(&self, o: &Range) -> bool {
        *self == *o
    }
}

impl Compared for Term {
    fn is_same(&self, o: &Term) -> bool {
        self.same(o)
    }
}

impl Compared for Ineq {
    fn is_same(&self, o: &Ineq) -> bool {
        self.same(o)
    }
}

impl Compared for Option<Term> {
    fn is_same(&self, o: &Option<Term>) -> bool {
        match self {
            Some(t) => match o {
                Some(u) => t.same(u),
                None => false,
            },
            None => o.is_none(),
        }
    }
}

impl Compared for Option<Fact> {
    fn is_same(&self, o: &Option<Fact>) -> bool {
        match self {
            Some(f) => match o {
                Some(g) => f.same(g),
                None => false,
            },
            None => o.is_none(),
        }
    }
}

impl Compared for Cell {
    fn is_same(&self, o: &Cell) -> bool {
        self.same(o)
    }
}

/// Whether the lists are the same.
fn all_same<T: Compared>(a: &[T], b: &[T]) -> bool
    ensures { IsTrue result ↔ (a.now ≡ b.now) }
{
    if a.len() != b.len() {
        return false;
    }
    for i in 0..a.len() {
        if !a[i].is_same(&b[i]) {
            return false;
        }
    }
    true
}

fn same_lists<T: Compared>(a: &List<T>, b: &List<T>) -> bool
    ensures { IsTrue result ↔ (a.now ≡ b.now) }
{
    all_same(a.as_slice(), b.as_slice())
}

impl Fact {
    /// Whether the two facts are the same.
    pub fn same(&self, o: &Fact) -> bool
        ensures { IsTrue result ↔ (self.now ≡ o.now) }
    {
        self.name == o.name
            && same_lists(&self.args, &o.args)
            && self.off.same(&o.off)
            && self.null == o.null
    }
}

impl Cell {
    /// Whether the two cells are the same.
    pub fn same(&self, o: &Cell) -> bool
        ensures { IsTrue result ↔ (self.now ≡ o.now) }
    {
        self.sym == o.sym
            && self.at.same(&o.at)
            && self.size == o.size
            && self.signed == o.signed
            && self.value.same(&o.value)
    }
}

impl Env {
    /// Whether the two states are the same, list by list.
    pub fn same(&self, o: &Env) -> bool
        ensures { IsTrue result ↔ (self.now ≡ o.now) }
    {
        same_lists(&self.locals, &o.locals)
            && same_lists(&self.ranges, &o.ranges)
            && same_lists(&self.conds, &o.conds)
            && same_lists(&self.facts, &o.facts)
            && same_lists(&self.cells, &o.cells)
            && same_lists(&self.staged, &o.staged)
            && same_lists(&self.fresh, &o.fresh)
    }
}
