ghost use Rattle.std.specs.Prelude.{map};
ghost use Rattle.cx_ctree.specs.Decls.{tag_tree};
ghost use Rattle.cx_ctree.specs.Tags.{AreRanked};
ghost use Rattle.cx_ctree.specs.Extents.{AreMeasured};
ghost use Rattle.cx_ctree.specs.ExtentProps.{AreMeasured-prop};

use crate::ctype::CType;
use crate::decl::{Item, Tag};
use cx_base::{List, Names, Token};

/// What a C file declares, and its items in order. A name stands as its number in the names of the
/// file.
///
/// The members of a tag have complete types, and a tag contains, other than behind pointers, only
/// tags of lower rank. Each tag has the size and alignment of what it consists of.
#[derive(Drop)]
pub struct Unit {
    /// All names of the file, by first sight.
    pub names: Names,
    pub tags: List<Tag>,
    /// The names declared as types.
    pub typedefs: List<(u32, CType)>,
    /// The enumeration constants with their values.
    pub consts: List<(u32, i128)>,
    /// The names of the enumerations whose list is declared.
    pub enums: List<u32>,
    pub items: List<Item>,
    pub tokens: List<Token>,
    /// The name of each place where an item that is passed over names a function.
    pub named: List<u32>,
    pub ghost ranked: { AreRanked (map tag_tree tags) },
    pub ghost measured: { AreMeasured tags } by { AreMeasured-prop tags },
}
