ghost use Rattle.std.specs.Prelude.{◌≢◌, ◌↔◌, ◌<◌, IsTrue, All, AllPairs, length};
ghost use Rattle.cx_cells.specs.Kept.{SameCall};
ghost use Rattle.cx_cells.specs.Pairs.{PairsAt};

use crate::calls::{AllocType, FnType, GlobalType};
use cx_base::List;

/// What a list keeps apart, each item from each later one.
pub(crate) trait Apart {
    ghost apart: { Self → Self → Type 0 };

    /// Whether it is kept apart from the later one.
    fn is_apart(&self, later: &Self) -> bool
        ensures { IsTrue result ↔ apart self.now later.now };
}

/// No two names are equal.
impl Apart for List<u8> {
    ghost apart = { λ a b. a ≢ b };

    fn is_apart(&self, later: &List<u8>) -> bool {
        self.as_slice() != later.as_slice()
    }
}

/// No two functions have one name.
impl Apart for FnType {
    ghost apart = { λ f g. f.name ≢ g.name };

    fn is_apart(&self, later: &FnType) -> bool {
        self.name != later.name
    }
}

/// No two globals have one name.
impl Apart for GlobalType {
    ghost apart = { λ g h. g.name ≢ h.name };

    fn is_apart(&self, later: &GlobalType) -> bool {
        self.name != later.name
    }
}

/// No two allocators are for one call.
impl Apart for AllocType {
    ghost apart = { λ a b. SameCall a b → ⊥ };

    fn is_apart(&self, later: &AllocType) -> bool {
        self.name != later.name || !self.pointee.same(&later.pointee)
    }
}

fn apart_from_all<T: Apart>(x: &T, later: &[T]) -> bool
    ensures { IsTrue result ↔ All (T.apart x.now) later.now }
{
    later.iter().all(|y| x.is_apart(y))
}

/// Whether the item at the place is kept apart from each later one.
fn apart_from_later<T: Apart>(items: &[T], i: usize) -> bool
    requires { i < length items.now }
    ensures { IsTrue result ↔ PairsAt T.apart items.now i }
{
    apart_from_all(&items[i], &items[i + 1..])
}

/// Whether each item is kept apart from each later one.
pub(crate) fn all_apart<T: Apart>(items: &[T]) -> bool
    ensures { IsTrue result ↔ AllPairs T.apart items.now }
{
    for i in 0..items.len() {
        if !apart_from_later(items, i) {
            return false;
        }
    }
    true
}
