ghost use Rattle.std.specs.Prelude.{◌≡◌, [], ◌==◌, not, position, IfOk, OnOk, OnErr};
ghost use Rattle.std.specs.List.{list_any};
ghost use Rattle.cx_cindex.specs.Sets.{same_field, with_number, with_field};

use cx_base::NoMemory;
use indexmap::IndexSet;
use std::alloc::Global;
use std::marker::Model;

/// Numbers of names. Contracts see it as their list, each once, in the order in which they were added.
#[derive(Drop)]
pub struct NumberSet {
    numbers: IndexSet<u32>,
}

impl Model for NumberSet {
    ghost use Rattle.std.specs.Prelude.{List, ℕ};

    ghost Value = { List ℕ };

    ghost view = { λ s. s.numbers.keys };
}

impl NumberSet {
    /// No numbers.
    pub fn new(alloc: Global) -> NumberSet
        ensures { result ≡ [] }
    {
        NumberSet {
            numbers: IndexSet::new(alloc),
        }
    }

    /// Whether the number is among them.
    pub fn has(&self, n: u32) -> bool
        ensures { result ≡ list_any (λ m. n == m) self.now }
    {
        self.numbers.contains(&n)
    }

    /// Its place in their order, counted from 0; None exactly where it is not among them.
    pub fn place(&self, n: u32) -> Option<usize>
        ensures { result ≡ position (λ m. n == m) self.now }
    {
        self.numbers.get_index_of(&n)
    }

    /// Adds a number: true; false and unchanged exactly where it is among them. After `NoMemory` nothing
    /// has changed.
    pub fn add(&mut self, n: u32) -> Result<bool, NoMemory>
        ensures value { IfOk result (λ new. new ≡ not (list_any (λ m. n == m) self.old)) }
        ensures new { OnOk result (self.new ≡ with_number self.old n) }
        ensures err { OnErr result (self.new ≡ self.old) }
    {
        let new = self.numbers.insert(n)?;
        Ok(new)
    }
}

/// A member of a struct or union: the numbers of the names of both.
#[derive(Clone, Copy, Debug, PartialEq, Eq, Hash)]
pub struct FieldName {
    pub tag: u32,
    pub name: u32,
}

/// Members of structs or of unions. Contracts see it as their list, each once, in the order in which
/// they were added.
#[derive(Drop)]
pub struct FieldSet {
    fields: IndexSet<FieldName>,
}

impl Model for FieldSet {
    ghost use Rattle.std.specs.Prelude.{List};
    ghost use Rattle.cx_cindex.specs.declared.sets.FieldName.{FieldName};

    ghost Value = { List FieldName };

    ghost view = { λ s. s.fields.keys };
}

impl FieldSet {
    /// No members.
    pub fn new(alloc: Global) -> FieldSet
        ensures { result ≡ [] }
    {
        FieldSet {
            fields: IndexSet::new(alloc),
        }
    }

    /// Whether the member is among them.
    pub fn has(&self, field: FieldName) -> bool
        ensures { result ≡ list_any (same_field field) self.now }
    {
        self.fields.contains(&field)
    }

    /// Adds a member where it is not among them. After `NoMemory` nothing has changed.
    pub fn add(&mut self, field: FieldName) -> Result<(), NoMemory>
        ensures new { OnOk result (self.new ≡ with_field self.old field) }
        ensures err { OnErr result (self.new ≡ self.old) }
    {
        let _new = self.fields.insert(field)?;
        Ok(())
    }
}
