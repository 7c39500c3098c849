ghost use Rattle.std.specs.Prelude.{◌≡◌, option_map};
ghost use Rattle.cx_ctree.specs.Decls.{tag_tree};
ghost use Rattle.cx_tsyn.specs.Words.{word_tree};
ghost use Rattle.cx_tarity.specs.Known as spec;

use crate::regions::{Regions, params_in};
use cx_base::Names;
use cx_ctable::Table;
use cx_ctree::{Member, Tag};
use cx_tsyn::Word;

/// What the names of a type file take.
#[derive(Drop)]
pub struct Known<'a> {
    pub regions: Regions,
    /// The names of the C file.
    pub names: &'a Names,
    /// What the C file declares, by their numbers.
    pub table: Table<'a>,
    /// The structs and unions of the C file.
    pub tags: &'a [Tag],
}

/// How many parameters the region of this name has; None where there is none.
pub fn params_of_region(known: &Known, word: &Word) -> Option<usize>
    ensures { result ≡ spec.params_of_region (spec.known_of known.now) (word_tree word.now) }
{
    params_in(&known.regions, word)
}

/// The number of the name in the C file.
pub fn number_in(known: &Known, word: &Word) -> Option<u32>
    ensures { result ≡ spec.number_in (spec.known_of known.now) (word_tree word.now) }
{
    known.names.number_of(word.text.as_slice())
}

/// How many parameters the function of this name has; None where the C file does not declare it.
pub fn params_of_function(known: &Known, word: &Word) -> Option<usize>
    ensures { result ≡ spec.params_of_function (spec.known_of known.now) (word_tree word.now) }
{
    match number_in(known, word) {
        None => None,
        Some(n) => match known.table.function(n) {
            None => None,
            Some(s) => Some(s.params.len()),
        },
    }
}

fn tag_of<'a>(known: &Known<'a>, union_: bool, word: &Word) -> Option<&'a Tag>
    ensures { option_map (λ t. tag_tree t.now) result ≡ spec.tag_of (spec.known_of known.now) union_ (word_tree word.now) }
{
    match number_in(known, word) {
        None => None,
        Some(n) => match known.table.tag(union_, n) {
            None => None,
            Some(at) => known.tags.get(at),
        },
    }
}

/// The members of this struct, or union where it is true, in order; none where it is incomplete.
pub fn members_of<'a>(known: &Known<'a>, union_: bool, word: &Word) -> &'a [Member]
    ensures { spec.names_of result.now ≡ spec.members_of (spec.known_of known.now) union_ (word_tree word.now) }
{
    match tag_of(known, union_, word) {
        None => &[],
        Some(tag) => match &tag.members {
            None => &[],
            Some(members) => members.as_slice(),
        },
    }
}
