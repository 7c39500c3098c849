ghost use Rattle.std.specs.Prelude.{◌≡◌, ◌<◌, ◌≤◌, [], ◌∷◌, ◌++◌, length, take, remove, IfOk, OnOk, OnErr, Some, slice_get, slice_set, option_copied};

use std::alloc::{AllocError, AllocFailed, Global};
use std::marker::Model;
use std::mem;

/// The allocator refused. It is the one answer that any call which allocates may give at any time.
#[derive(Clone, Copy, Debug, PartialEq, Eq)]
pub struct NoMemory;

impl From<AllocError> for NoMemory {
    fn from(_e: AllocError) -> NoMemory {
        NoMemory
    }
}

impl<T: Drop> From<AllocFailed<T>> for NoMemory {
    fn from(_e: AllocFailed<T>) -> NoMemory {
        NoMemory
    }
}

/// A list that grows at its end. Contracts see it as the list of its items.
///
/// It may be a field of the type of its own items, as in the trees of C statements.
#[derive(Debug, Drop)]
pub struct List<T> {
    items: Vec<T>,
}

impl<T> Model for List<T> {
    ghost use Rattle.std.specs.Prelude.{List as ListOf};
    ghost use Rattle.std.specs.Coded.{coded_list};

    ghost Value = { ListOf T };

    ghost coded = { coded_list T.code };

    ghost view = { λ l. l.items.items };
}

impl<T> List<T> {
    /// No items. It takes no memory until the first `push`.
    pub fn new(alloc: Global) -> List<T>
        ensures { result ≡ [] }
    {
        List {
            items: Vec::new(alloc),
        }
    }

    /// The allocator that the list keeps.
    pub fn alloc(&self) -> Global {
        *self.items.allocator()
    }

    /// How many items there are.
    pub fn len(&self) -> usize
        ensures { result ≡ length self.now }
    {
        self.items.len()
    }

    /// The item at place `i`, counted from 0; None exactly where `i` is not below the length.
    pub fn get(&self, i: usize) -> Option<&T>
        ensures { option_copied result ≡ slice_get self.now i }
    {
        self.items.get(i)
    }

    /// The items as a slice.
    pub fn as_slice(&self) -> &[T]
        ensures { result.now ≡ self.now }
    {
        self.items.as_slice()
    }

    /// Adds an item at the end. After `NoMemory` the list is as it was, and the item is dropped.
    pub fn push(&mut self, v: T) -> Result<(), NoMemory>
    where
        T: Drop,
        ensures ok { OnOk result (self.new ≡ self.old ++ v ∷ []) }
        ensures err { OnErr result (self.new ≡ self.old) }
    {
        self.items.push(v)?;
        Ok(())
    }

    /// Puts an item at place `i`, and gives the one that stood there.
    pub fn set(&mut self, i: usize, v: T) -> T
        requires { i < length self.old }
        ensures value { slice_get self.old i ≡ Some result }
        ensures new { self.new ≡ slice_set self.old i v }
    {
        mem::replace(&mut self.items[i], v)
    }

    /// Takes the item at place `i` out; those after it move down by one.
    pub fn remove(&mut self, i: usize) -> T
        requires { i < length self.old }
        ensures value { slice_get self.old i ≡ Some result }
        ensures new { self.new ≡ remove self.old i }
    {
        self.items.remove(i)
    }

    /// Keeps the first `n` items and drops the others.
    pub fn cut(&mut self, n: usize)
    where
        T: Drop,
        requires { n ≤ length self.old }
        ensures { self.new ≡ take n self.old }
    {
        self.items.truncate(n)
    }
}

impl<T: Copy> List<T> {
    /// The same list once more, by the allocator that this one keeps.
    pub fn copy(&self) -> Result<List<T>, NoMemory>
        ensures { IfOk result (λ copy. copy ≡ self.now) }
    {
        let mut copy = List::new(self.alloc());
        for x in self.as_slice() {
            copy.push(*x)?;
        }
        Ok(copy)
    }
}
