ghost use Rattle.std.specs.Prelude.{◌≡◌, map, OnOk};
ghost use Rattle.cx_tsyn.specs.Words.{word_tree};
ghost use Rattle.cx_tsyn.specs.Items.{type_item_tree};
ghost use Rattle.cx_tscope.specs.Scopes.{with_words};
ghost use Rattle.cx_tnames.specs.Known as spec;

use cx_base::{Names, NoMemory};
use cx_cindex::{Declared, FieldName};
use cx_tscope::Scope;
use cx_tsyn::{TypeItem, Word};

/// What the names of a type file may stand for.
#[derive(Drop)]
pub struct Known<'a> {
    /// The names of the regions.
    pub regions: Scope,
    /// The names of the C file.
    pub names: &'a Names,
    /// What the C file declares.
    pub declared: Declared,
}

/// Whether the C file declares a function of this name, or a piece that was passed over names one.
pub fn is_function(known: &Known, word: &Word) -> bool
    ensures { result ≡ spec.is_function (spec.known_of known.now) (word_tree word.now) }
{
    match known.names.number_of(word.text.as_slice()) {
        None => false,
        Some(n) => known.declared.has_function(n),
    }
}

/// Whether the C file declares an object of this name.
pub fn is_object(known: &Known, word: &Word) -> bool
    ensures { result ≡ spec.is_object (spec.known_of known.now) (word_tree word.now) }
{
    match known.names.number_of(word.text.as_slice()) {
        None => false,
        Some(n) => known.declared.has_object(n),
    }
}

/// Whether the C file names a struct so, or a union where it is true.
pub fn is_tag(known: &Known, union_: bool, word: &Word) -> bool
    ensures { result ≡ spec.is_tag (spec.known_of known.now) union_ (word_tree word.now) }
{
    match known.names.number_of(word.text.as_slice()) {
        None => false,
        Some(n) => known.declared.has_tag(union_, n),
    }
}

/// Whether this struct, or union where it is true, has a member of that name.
pub fn is_field(known: &Known, union_: bool, tag: &Word, name: &Word) -> bool
    ensures { result ≡ spec.is_field (spec.known_of known.now) union_ (word_tree tag.now) (word_tree name.now) }
{
    match known.names.number_of(tag.text.as_slice()) {
        None => false,
        Some(tag) => match known.names.number_of(name.text.as_slice()) {
            None => false,
            Some(name) => known.declared.has_field(union_, FieldName { tag, name }),
        },
    }
}

fn add_region(item: &TypeItem, regions: &mut Scope) -> Result<(), NoMemory>
    ensures { OnOk result (regions.new ≡ with_words regions.old (spec.region_word (type_item_tree item.now))) }
{
    match item {
        TypeItem::Region(region) => {
            let _new = regions.add(region.name.text.as_slice())?;
            Ok(())
        }
        TypeItem::Func(_) | TypeItem::Alloc(_) | TypeItem::Global(_) => Ok(()),
    }
}

/// Adds the names of the regions among the items.
#[tactic(auto, using(crate::proofs::Regions::words_append))]
pub fn add_regions(items: &[TypeItem], regions: &mut Scope) -> Result<(), NoMemory>
    ensures { OnOk result (regions.new ≡ with_words regions.old (spec.region_words (map type_item_tree items.now))) }
{
    for item in items {
        add_region(item, regions)?;
    }
    Ok(())
}
