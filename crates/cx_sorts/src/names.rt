ghost use Rattle.std.specs.Prelude.{◌≡◌, option_copied};
ghost use Rattle.cx_sorts.specs.Names.{same_name, struct_of, variable, place_of};

use cx_form::{CFile, Function, Struct, TypeFile, Word};

/// Whether two words have the same bytes.
pub fn same_name(a: &Word, b: &Word) -> bool
    ensures { result ≡ same_name a.now b.now }
{
    a.text.as_slice() == b.text.as_slice()
}

/// The struct of a tag.
pub fn struct_of<'a>(c: &'a CFile, tag: &Word) -> Option<&'a Struct>
    ensures { option_copied result ≡ struct_of c.now tag.now }
{
    c.structs
        .as_slice()
        .iter()
        .find(|s| same_name(&s.name, tag))
}

/// The place of a parameter, counted from 0.
pub fn variable(f: &Function, name: &Word) -> Option<usize>
    ensures { result ≡ variable f.now name.now }
{
    f.parameters
        .as_slice()
        .iter()
        .position(|p| same_name(&p.name, name))
}

/// The place of a region type, counted from 0.
pub fn place_of(types: &TypeFile, name: &Word) -> Option<usize>
    ensures { result ≡ place_of types.now name.now }
{
    types
        .regions
        .as_slice()
        .iter()
        .position(|r| same_name(&r.name, name))
}
