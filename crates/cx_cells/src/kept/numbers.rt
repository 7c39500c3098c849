//! Names as numbers, compared by a set of them.

ghost use Rattle.std.specs.Prelude.{◌≡◌, ◌≢◌, ◌↔◌, ℕ, map, All, AllPairs, Contains, IfOk, IsTrue, nat_eq};
ghost use Rattle.std.specs.HashSet.{contains};

use crate::calls::{AllocType, FnType, GlobalType};
use cx_base::{List, NoMemory};
use std::alloc::Global;
use std::collections::HashSet;

/// What has a number as its name.
pub(crate) trait Named {
    ghost named: { Self → ℕ };

    fn name(&self) -> u32
        ensures { result ≡ named self.now };
}

impl Named for FnType {
    ghost named = { λ f. f.name };

    fn name(&self) -> u32 {
        self.name
    }
}

impl Named for GlobalType {
    ghost named = { λ g. g.name };

    fn name(&self) -> u32 {
        self.name
    }
}

impl Named for AllocType {
    ghost named = { λ a. a.name };

    fn name(&self) -> u32 {
        self.name
    }
}

/// The names of the items, in their order.
fn names_of<T: Named>(alloc: Global, items: &[T]) -> Result<List<u32>, NoMemory>
    ensures { IfOk result (λ names. names ≡ map T.named items.now) }
{
    let mut names = List::new(alloc);
    for x in items {
        names.push(x.name())?;
    }
    Ok(names)
}

/// Whether no two of the numbers are equal.
fn numbers_differ(alloc: Global, numbers: &[u32]) -> Result<bool, NoMemory>
    ensures { IfOk result (λ b. IsTrue b ↔ AllPairs (λ x y. x ≢ y) numbers.now) }
{
    let set: HashSet<u32> = numbers.iter().copied().collect(alloc)?;
    Ok(set.len() == numbers.len())
}

/// Whether no two of the items have one name.
pub(crate) fn names_differ<T: Named>(alloc: Global, items: &[T]) -> Result<bool, NoMemory>
    ensures { IfOk result (λ b. IsTrue b ↔ AllPairs (λ x y. T.named x ≢ T.named y) items.now) }
{
    let names = names_of(alloc, items)?;
    let differ = numbers_differ(alloc, names.as_slice())?;
    Ok(differ)
}

/// The numbers as a set.
fn set_of(alloc: Global, numbers: &[u32]) -> Result<HashSet<u32>, NoMemory>
    ensures { IfOk result (λ s. (q : ℕ) → IsTrue (contains nat_eq s q) ↔ Contains numbers.now q) }
{
    let set = numbers.iter().copied().collect(alloc)?;
    Ok(set)
}

/// Whether none of the numbers is in the set.
fn are_outside(set: &HashSet<u32>, numbers: &[u32]) -> bool
    ensures { IsTrue result ↔ All (λ x. IsTrue (contains nat_eq set.now x) → ⊥) numbers.now }
{
    numbers.iter().all(|x| !set.contains(x))
}

/// Whether none of the numbers is among the others.
fn are_none_of(alloc: Global, numbers: &[u32], others: &[u32]) -> Result<bool, NoMemory>
    ensures { IfOk result (λ b. IsTrue b ↔ All (λ x. All (λ y. x ≢ y) others.now) numbers.now) }
{
    let set = set_of(alloc, others)?;
    Ok(are_outside(&set, numbers))
}

/// Whether no item has the name of one of the others.
pub(crate) fn names_apart<T: Named, U: Named>(
    alloc: Global,
    items: &[T],
    others: &[U],
) -> Result<bool, NoMemory>
    ensures { IfOk result (λ b. IsTrue b ↔ All (λ x. All (λ y. T.named x ≢ U.named y) others.now) items.now) }
{
    let names = names_of(alloc, items)?;
    let taken = names_of(alloc, others)?;
    let apart = are_none_of(alloc, names.as_slice(), taken.as_slice())?;
    Ok(apart)
}
