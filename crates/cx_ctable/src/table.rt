ghost use Rattle.std.specs.Prelude.{◌≡◌, option_map};
ghost use Rattle.cx_ctree.specs.Types.{type_tree};
ghost use Rattle.cx_ctree.specs.Decls.{signature_tree};
ghost use Rattle.cx_ctable.specs.Tables as spec;

use cx_ctree::{CType, Signature};
use indexmap::IndexMap;

/// What a C file declares, by the numbers of the names of its unit. Of several declarations of one
/// name it has the first.
#[derive(Drop)]
pub struct Table<'a> {
    pub functions: IndexMap<u32, &'a Signature>,
    pub objects: IndexMap<u32, &'a CType>,
    /// Of each struct its place in the tags of the unit.
    pub structs: IndexMap<u32, usize>,
    /// Of each union its place in the tags of the unit.
    pub unions: IndexMap<u32, usize>,
}

impl<'a> Table<'a> {
    /// The signature of the function of this name; None where the file declares none.
    pub fn function(&self, n: u32) -> Option<&'a Signature>
        ensures { option_map (λ s. signature_tree s.now) result ≡ spec.function_in (spec.table_tree self.now) n }
    {
        match self.functions.get(&n) {
            Some(s) => Some(*s),
            None => None,
        }
    }

    /// The type of the object of this name; None where the file declares none.
    pub fn object(&self, n: u32) -> Option<&'a CType>
        ensures { option_map (λ t. type_tree t.now) result ≡ spec.object_in (spec.table_tree self.now) n }
    {
        match self.objects.get(&n) {
            Some(t) => Some(*t),
            None => None,
        }
    }

    /// The place in the tags of the unit of the struct, or union where it is true, of this name; None
    /// where the file names none so.
    pub fn tag(&self, union_: bool, n: u32) -> Option<usize>
        ensures { result ≡ spec.tag_in (spec.table_tree self.now) union_ n }
    {
        let places = if union_ { &self.unions } else { &self.structs };
        match places.get(&n) {
            Some(at) => Some(*at),
            None => None,
        }
    }
}
