use crate::find::{add_name, found_in, number_in};
use cx_base::{List, NoMemory};
use cx_ctree::CType;
use indexmap::IndexMap;
use std::alloc::Global;
use std::mem;

/// The locals of a function, numbered in the order of their declarations, and the names in scope.
#[derive(Drop)]
pub struct Locals {
    types: List<CType>,
    block: IndexMap<u32, u32>,
    outer: List<IndexMap<u32, u32>>,
}

impl Locals {
    ghost use Rattle.std.specs.Prelude.{◌≡◌, length, map, slice_get, option_map, IfOk, OnOk};
    ghost use Rattle.cx_ctree.specs.Types.{type_tree};
    ghost use Rattle.cx_scope.specs.Locals as spec;
    ghost use Rattle.cx_scope.specs.Views.{locals_of};

    /// No locals, in a block without a block around it.
    pub fn new(alloc: Global) -> Locals
        ensures { locals_of result ≡ spec.no_locals }
    {
        Locals {
            types: List::new(alloc),
            block: IndexMap::new(alloc),
            outer: List::new(alloc),
        }
    }

    /// Begins a block.
    #[tactic(auto, using(crate::proofs::Blocks::one_more_block))]
    pub fn open(&mut self) -> Result<(), NoMemory>
        ensures { OnOk result (locals_of self.new ≡ spec.opened (locals_of self.old)) }
    {
        let inner = IndexMap::new(self.outer.alloc());
        let block = mem::replace(&mut self.block, inner);
        self.outer.push(block)
    }

    /// Ends the innermost block, with its names.
    #[tactic(auto, using(crate::proofs::Blocks::innermost_taken, crate::proofs::Blocks::no_block))]
    pub fn close(&mut self)
        ensures { locals_of self.new ≡ spec.closed (locals_of self.old) }
    {
        let around = self.outer.len();
        self.block = if around == 0 {
            IndexMap::new(self.outer.alloc())
        } else {
            self.outer.remove(around - 1)
        };
    }

    /// A further local, declared by the innermost block: its number. A function with 2^32 locals
    /// counts as one for which memory does not suffice.
    #[tactic(auto, using(cx_base::proofs::General::map_push))]
    pub fn declare(&mut self, name: u32, ctype: CType) -> Result<u32, NoMemory>
        ensures number { IfOk result (λ x. x ≡ length (locals_of self.old).types) }
        ensures new { OnOk result (locals_of self.new ≡ spec.declared name (type_tree ctype) (locals_of self.old)) }
    {
        let Ok(number) = u32::try_from(self.types.len()) else {
            return Err(NoMemory);
        };
        add_name(&mut self.block, name, number)?;
        self.types.push(ctype)?;
        Ok(number)
    }

    /// The number of the local that the name stands for; None where it stands for none.
    pub fn local_of(&self, name: u32) -> Option<u32>
        ensures { result ≡ spec.local_of (locals_of self.now) name }
    {
        match number_in(&self.block, name) {
            Some(number) => Some(number),
            None => found_in(self.outer.as_slice(), name),
        }
    }

    /// Whether the innermost block does not declare the name.
    pub fn is_new(&self, name: u32) -> bool
        ensures { result ≡ spec.is_new (locals_of self.now) name }
    {
        number_in(&self.block, name).is_none()
    }

    /// The type of the local of this number.
    pub fn type_of(&self, number: u32) -> Option<&CType>
        ensures { option_map (λ t. type_tree t.now) result ≡ slice_get (locals_of self.now).types number }
    {
        self.types.get(number as usize)
    }

    /// The types of all locals.
    pub fn into_types(self) -> List<CType>
        ensures { map type_tree result ≡ (locals_of self).types }
    {
        let Locals {
            types,
            block: _,
            outer: _,
        } = self;
        types
    }
}
