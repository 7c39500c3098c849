ghost use Rattle.std.specs.Prelude.{◌≡◌};
ghost use Rattle.cx_cindex.specs.UnitNames as spec;

use crate::sets::{FieldName, FieldSet, NumberSet};

/// The names of functions and objects, by their numbers in the names of a unit.
#[derive(Drop)]
pub struct OrdinaryNames {
    /// The functions that are declared, and those that a piece that was passed over names.
    pub functions: NumberSet,
    pub objects: NumberSet,
}

/// The names of structs and unions.
#[derive(Drop)]
pub struct TagNames {
    pub structs: NumberSet,
    pub unions: NumberSet,
}

/// The members of structs and unions.
#[derive(Drop)]
pub struct FieldNames {
    pub structs: FieldSet,
    pub unions: FieldSet,
}

/// The names of what a C file declares, by their numbers in the names of its unit.
#[derive(Drop)]
pub struct Declared {
    pub ordinary: OrdinaryNames,
    pub tags: TagNames,
    pub fields: FieldNames,
}

impl Declared {
    /// Whether a function of this name is declared, or named by a piece that was passed over.
    pub fn has_function(&self, n: u32) -> bool
        ensures { result ≡ spec.has_function self.now n }
    {
        self.ordinary.functions.has(n)
    }

    /// Whether an object of this name is declared.
    pub fn has_object(&self, n: u32) -> bool
        ensures { result ≡ spec.has_object self.now n }
    {
        self.ordinary.objects.has(n)
    }

    /// Whether a struct, or a union where it is true, of this name is declared.
    pub fn has_tag(&self, union_: bool, n: u32) -> bool
        ensures { result ≡ spec.has_tag self.now union_ n }
    {
        if union_ {
            self.tags.unions.has(n)
        } else {
            self.tags.structs.has(n)
        }
    }

    /// Whether a struct, or a union where it is true, has this member.
    pub fn has_field(&self, union_: bool, field: FieldName) -> bool
        ensures { result ≡ spec.has_field self.now union_ field }
    {
        if union_ {
            self.fields.unions.has(field)
        } else {
            self.fields.structs.has(field)
        }
    }
}
