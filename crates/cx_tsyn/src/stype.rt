ghost use Rattle.std.specs.Prelude.{◌↔◌, ◌<◌, IsTrue};
ghost use Rattle.cx_tsyn.specs.Levels as spec;
ghost use Rattle.cx_tsyn.specs.Types.{stype_tree, stype_trees, field_trees, branch_trees};

use crate::cell::SCell;
use crate::lin::{Lin, Relation};
use crate::word::Word;
use cx_base::{List, Span};

/// A type of bytes: `some binders of atom [times] where conds`.
#[cycle(stype)]
#[derive(Debug, Drop)]
pub struct SType {
    /// From its first to its last token.
    pub span: Span,
    /// The names that it declares, in order; none where no `some` stands.
    pub binders: List<Word>,
    /// What is between the binders and the brackets.
    pub atom: Atom,
    /// How many of the atom stand in a row, as the number in brackets says; None where no brackets
    /// stand.
    pub times: Option<Lin>,
    /// The conditions in order, none where no `where` stands.
    pub conds: List<Relation>,
}

/// What a type is made of.
#[cycle(stype)]
#[derive(Debug, Drop)]
pub enum Atom {
    /// One cell.
    Cell(SCell),
    /// A type in parentheses.
    Paren(Box<SType>),
    /// `struct t { f: type; .. }` or `union t { f: type; .. }`
    Tagged {
        /// Whether the word is `union`.
        union_: bool,
        /// The name of the struct or union.
        tag: Word,
        /// The fields in order.
        fields: List<SField>,
    },
    /// `{ type; .. } as struct t`
    Product {
        /// The types in order, which lie one behind the other.
        parts: List<SType>,
        /// What stands from `as` on; None where it does not stand.
        as_tag: Option<AsTag>,
    },
    /// `cases { when guards: type; .. }`
    Cases(List<SBranch>),
}

/// A field of a struct or union with the type of its bytes.
#[cycle(stype)]
#[derive(Debug, Drop)]
pub struct SField {
    /// The name of the field.
    pub name: Word,
    /// The type of its bytes.
    pub body: SType,
}

/// `as struct t` or `as union t`
#[derive(Debug, Drop)]
pub struct AsTag {
    /// From `as` to the tag.
    pub span: Span,
    /// Whether the word is `union`.
    pub union_: bool,
    /// The name of the struct or union.
    pub tag: Word,
}

/// `when guards: type`
#[cycle(stype)]
#[derive(Debug, Drop)]
pub struct SBranch {
    /// The relations under which the bytes may have this type, in order.
    pub guard: List<Relation>,
    /// The type of the bytes.
    pub body: SType,
}

impl SType {
    /// Whether it is nested deeper than so many levels. A type has one level more than the deepest
    /// type in it; a cell alone has one.
    #[cycle(exceeds)]
    pub fn exceeds(&self, levels: u32) -> bool
        ensures { IsTrue result ↔ (levels < spec.levels (stype_tree self.now)) }
    {
        if levels == 0 {
            return true;
        }
        let below = levels - 1;
        match &self.atom {
            Atom::Cell(_) => false,
            Atom::Paren(inner) => inner.exceeds(below),
            Atom::Tagged { fields, .. } => some_field_exceeds(fields.as_slice(), below),
            Atom::Product { parts, .. } => some_part_exceeds(parts.as_slice(), below),
            Atom::Cases(branches) => some_branch_exceeds(branches.as_slice(), below),
        }
    }
}

#[cycle(exceeds)]
fn some_part_exceeds(parts: &[SType], levels: u32) -> bool
    ensures { IsTrue result ↔ (levels < spec.most_of_types (stype_trees parts.now)) }
{
    for part in parts {
        if part.exceeds(levels) {
            return true;
        }
    }
    false
}

#[cycle(exceeds)]
fn some_field_exceeds(fields: &[SField], levels: u32) -> bool
    ensures { IsTrue result ↔ (levels < spec.most_of_fields (field_trees fields.now)) }
{
    for field in fields {
        if field.body.exceeds(levels) {
            return true;
        }
    }
    false
}

#[cycle(exceeds)]
fn some_branch_exceeds(branches: &[SBranch], levels: u32) -> bool
    ensures { IsTrue result ↔ (levels < spec.most_of_branches (branch_trees branches.now)) }
{
    for branch in branches {
        if branch.body.exceeds(levels) {
            return true;
        }
    }
    false
}
