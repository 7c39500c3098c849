ghost use Rattle.std.specs.Prelude.{◌≡◌, ◌==◌, find, map, option_map, IfOk};
ghost use Rattle.cx_ctree.specs.Types.{type_tree};
ghost use Rattle.cx_ctree.specs.Decls.{member_tree, signature_tree};
ghost use Rattle.cx_tsyn.specs.Words.{word_tree};
ghost use Rattle.cx_tmeasure.specs.Known as spec;
ghost use Rattle.cx_tmeasure.specs.Views.{known_of};

use cx_abi::size_of;
use cx_base::NoMemory;
use cx_ctable::Table;
use cx_ctree::{CType, Member, Signature, Unit};
use cx_tsyn::Word;

/// What the sizes of a type file are judged beside.
#[derive(Drop)]
pub struct Known<'a> {
    /// The C file.
    pub unit: &'a Unit,
    /// What it declares, by name.
    pub table: Table<'a>,
}

fn number_in(known: &Known, word: &Word) -> Option<u32>
    ensures { result ≡ spec.number_in (known_of known.now) (word_tree word.now) }
{
    known.unit.names.number_of(word.text.as_slice())
}

/// The function of this name; None where the C file does not declare it.
pub fn function_of<'a>(known: &Known<'a>, word: &Word) -> Option<&'a Signature>
    ensures { option_map (λ s. signature_tree s.now) result ≡ spec.function_of (known_of known.now) (word_tree word.now) }
{
    match number_in(known, word) {
        None => None,
        Some(n) => known.table.function(n),
    }
}

/// The type of the object of this name; None where the C file declares none.
pub fn object_of<'a>(known: &Known<'a>, word: &Word) -> Option<&'a CType>
    ensures { option_map (λ t. type_tree t.now) result ≡ spec.object_of (known_of known.now) (word_tree word.now) }
{
    match number_in(known, word) {
        None => None,
        Some(n) => known.table.object(n),
    }
}

fn tag_place(known: &Known, union_: bool, word: &Word) -> Option<usize>
    ensures { result ≡ spec.tag_place (known_of known.now) union_ (word_tree word.now) }
{
    match number_in(known, word) {
        None => None,
        Some(n) => known.table.tag(union_, n),
    }
}

/// The members of this struct, or union where it is true, in order; none where it is incomplete.
pub fn members_of<'a>(known: &Known<'a>, union_: bool, word: &Word) -> &'a [Member]
    ensures { map member_tree result.now ≡ spec.members_of (known_of known.now) union_ (word_tree word.now) }
{
    let tags = known.unit.tags.as_slice();
    match tag_place(known, union_, word) {
        None => &[],
        Some(at) => match tags.get(at) {
            None => &[],
            Some(tag) => match &tag.members {
                None => &[],
                Some(members) => members.as_slice(),
            },
        },
    }
}

/// The size of a type of C that has a layout.
pub fn size_in(known: &Known, t: Option<&CType>) -> Option<u64>
    ensures { result ≡ spec.size_in (known_of known.now) (option_map (λ t. type_tree t.now) t.entry) }
{
    match t {
        None => None,
        Some(t) => size_of(known.unit, t),
    }
}

/// The size of this struct, or union where it is true; None where it has no layout. A C file of 2^32
/// tags counts as one for which memory does not suffice.
pub fn tag_size(known: &Known, union_: bool, word: &Word) -> Result<Option<u64>, NoMemory>
    ensures { IfOk result (λ n. n ≡ spec.tag_size (known_of known.now) union_ (word_tree word.now)) }
{
    match tag_place(known, union_, word) {
        None => Ok(None),
        Some(at) => match u32::try_from(at) {
            Ok(at) => Ok(size_of(known.unit, &CType::Tag(at))),
            Err(_) => Err(NoMemory),
        },
    }
}

// The first of these members that has the name.
fn member_named<'a>(number: Option<u32>, members: &'a [Member]) -> Option<&'a Member>
    ensures { option_map (λ m. member_tree m.now) result ≡ spec.member_named number (map member_tree members.now) }
{
    match number {
        None => None,
        Some(n) => found_in(n, members),
    }
}

fn found_in<'a>(n: u32, members: &'a [Member]) -> Option<&'a Member>
    ensures { option_map (λ m. member_tree m.now) result ≡ find (λ m. m.name == n) (map member_tree members.now) }
{
    let mut rest = members;
    while let [member, after @ ..] = rest {
        if member.name == n {
            return Some(member);
        }
        rest = after;
    }
    None
}

fn first_member<'a>(members: &'a [Member]) -> Option<&'a Member>
    ensures { option_map (λ m. member_tree m.now) result ≡ spec.first_member (map member_tree members.now) }
{
    match members {
        [] => None,
        [member, ..] => Some(member),
    }
}

/// The member that a field of this name is for, where these are left.
pub fn member_for<'a>(
    known: &Known,
    union_: bool,
    members: &'a [Member],
    field: &Word,
) -> Option<&'a Member>
    ensures { option_map (λ m. member_tree m.now) result ≡ spec.member_for (known_of known.now) union_ (map member_tree members.now) (word_tree field.now) }
{
    if union_ {
        return member_named(number_in(known, field), members);
    }
    first_member(members)
}

/// The members that are left behind a field.
pub fn behind(union_: bool, members: &[Member]) -> &[Member]
    ensures { map member_tree result.now ≡ spec.behind union_ (map member_tree members.now) }
{
    if union_ {
        return members;
    }
    match members {
        [] => members,
        [_, after @ ..] => after,
    }
}
