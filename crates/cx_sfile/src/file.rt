ghost use Rattle.std.specs.Prelude.{map};
ghost use Rattle.cx_ctree.specs.Types.{type_tree};
ghost use Rattle.cx_sfile.specs.Entries.{FindsAll};
ghost use Rattle.cx_sfile.specs.Members.{FindsMembers};

use cx_base::List;
use cx_ctree::{CType, Unit};
use cx_sname::Meaning;
use indexmap::IndexMap;

/// A C file with what its ordinary names are declared as (C11 6.2.3), by their numbers in the names
/// of its unit, and of each of its structs and unions, in the order of its tags, the types of the
/// members by theirs.
#[derive(Drop)]
pub struct File<'a> {
    pub unit: &'a Unit,
    pub meanings: IndexMap<u32, Meaning<'a>>,
    pub members: List<IndexMap<u32, &'a CType>>,
    ghost found: { FindsAll unit.now meanings.entries },
    ghost placed: { FindsMembers unit.now (map (λ m. map (λ e. (e.0, type_tree e.1.now)) m.entries) members) },
}

impl<'a> File<'a> {
    ghost use Rattle.std.specs.Prelude.{◌≡◌, option_map};
    ghost use Rattle.cx_ctree.specs.Types.{type_tree, tag as tagged};
    ghost use Rattle.cx_ctype.specs.Accesses as access;
    ghost use Rattle.cx_sname.specs.File.{meaning_of};
    ghost use Rattle.cx_sname.specs.Meanings.{meaning_tree};
    ghost use Rattle.cx_sfile.specs.Views.{declared_in};

    /// What the name is declared as in the file; None where nothing declares it.
    pub fn meaning_of(&self, n: u32) -> Option<Meaning<'a>>
        ensures { option_map meaning_tree result ≡ meaning_of (declared_in self.now) n }
    {
        match self.meanings.get(&n) {
            Some(m) => Some(*m),
            None => None,
        }
    }

    /// The type of the member of this name of the struct or union at this place of the tags.
    fn member_of(&self, tag: u32, n: u32) -> Option<&'a CType>
        ensures { option_map (λ t. type_tree t.now) result ≡ access.member_type (declared_in self.now).known (tagged tag) n }
    {
        match self.members.get(tag as usize) {
            Some(types) => match types.get(&n) {
                Some(t) => Some(*t),
                None => None,
            },
            None => None,
        }
    }

    /// The type of the member of this name; None where the type is no struct or union with such a
    /// member (C11 6.5.2.3).
    pub fn member_type(&self, ctype: &CType, n: u32) -> Option<&'a CType>
        ensures { option_map (λ t. type_tree t.now) result ≡ access.member_type (declared_in self.now).known (type_tree ctype.now) n }
    {
        match ctype {
            CType::Tag(tag) => self.member_of(*tag, n),
            CType::Void | CType::Int(_) | CType::Ptr(_) | CType::Array(_, _) => None,
        }
    }
}
