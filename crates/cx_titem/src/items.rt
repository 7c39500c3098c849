ghost use Rattle.std.specs.Prelude.{◌≡◌, [], map};
ghost use Rattle.cx_cname.specs.Known.{known_of};
ghost use Rattle.cx_reader.specs.Reading.{Gives};
ghost use Rattle.cx_tsyn.specs.Items.{type_item_tree};
ghost use Rattle.cx_tregion.specs.Reading.{region_at, global_at};
ghost use Rattle.cx_tfunc.specs.Reading.{func_at};
ghost use Rattle.cx_talloc.specs.Reading.{alloc_at};
ghost use Rattle.cx_titem.specs.Reading as spec;
ghost use Rattle.cx_titem.specs.Reading.{item_at, file_at};

use cx_base::List;
use cx_ctree::Unit;
use cx_reader::{Read, Stop, split};
use cx_talloc::allocator;
use cx_tfunc::func;
use cx_tregion::{global, region};
use cx_tsyn::TypeItem;
use cx_tword::{TypeLexeme, TypeWord, is_word};
use std::alloc::Global;

fn begins_region(lexeme: TypeLexeme) -> bool
    ensures { result ≡ spec.begins_region lexeme }
{
    is_word(TypeWord::Shared, lexeme) || is_word(TypeWord::Region, lexeme)
}

fn region_item<'a>(
    alloc: Global,
    bytes: &[u8],
    lexemes: &'a [TypeLexeme],
) -> Result<Read<'a, TypeLexeme, TypeItem>, Stop>
    ensures { Gives type_item_tree result (spec.region_from (region_at bytes.now lexemes.now)) }
{
    let x = region(alloc, bytes, lexemes)?;
    Ok(Read {
        tree: TypeItem::Region(x.tree),
        rest: x.rest,
    })
}

fn func_item<'a>(
    alloc: Global,
    bytes: &[u8],
    lexemes: &'a [TypeLexeme],
) -> Result<Read<'a, TypeLexeme, TypeItem>, Stop>
    ensures { Gives type_item_tree result (spec.func_from (func_at bytes.now lexemes.now)) }
{
    let x = func(alloc, bytes, lexemes)?;
    Ok(Read {
        tree: TypeItem::Func(x.tree),
        rest: x.rest,
    })
}

fn alloc_item<'a>(
    alloc: Global,
    bytes: &[u8],
    unit: &Unit,
    lexemes: &'a [TypeLexeme],
) -> Result<Read<'a, TypeLexeme, TypeItem>, Stop>
    ensures { Gives type_item_tree result (spec.alloc_from (alloc_at bytes.now (known_of unit.now) lexemes.now)) }
{
    let x = allocator(alloc, bytes, unit, lexemes)?;
    Ok(Read {
        tree: TypeItem::Alloc(x.tree),
        rest: x.rest,
    })
}

fn global_item<'a>(
    alloc: Global,
    bytes: &[u8],
    lexemes: &'a [TypeLexeme],
) -> Result<Read<'a, TypeLexeme, TypeItem>, Stop>
    ensures { Gives type_item_tree result (spec.global_from (global_at bytes.now lexemes.now)) }
{
    let x = global(alloc, bytes, lexemes)?;
    Ok(Read {
        tree: TypeItem::Global(x.tree),
        rest: x.rest,
    })
}

#[tactic(auto, unfolding(crate::specs::Reading::item_at))]
fn item<'a>(
    alloc: Global,
    bytes: &[u8],
    unit: &Unit,
    lexemes: &'a [TypeLexeme],
) -> Result<Read<'a, TypeLexeme, TypeItem>, Stop>
    ensures { Gives type_item_tree result (item_at bytes.now (known_of unit.now) lexemes.now) }
{
    match split(lexemes) {
        None => Err(Stop::Unread(lexemes.len())),
        Some((o, _)) => {
            if begins_region(o) {
                region_item(alloc, bytes, lexemes)
            } else if is_word(TypeWord::Fn, o) {
                func_item(alloc, bytes, lexemes)
            } else if is_word(TypeWord::Alloc, o) {
                alloc_item(alloc, bytes, unit, lexemes)
            } else if is_word(TypeWord::Global, o) {
                global_item(alloc, bytes, lexemes)
            } else {
                Err(Stop::Unread(lexemes.len()))
            }
        }
    }
}

/// The items of a whole file.
#[tactic(auto, using(crate::proofs::Turns::items_more, crate::proofs::Turns::items_end, crate::proofs::Turns::items_none, cx_base::proofs::General::map_push))]
pub fn items<'a>(
    alloc: Global,
    bytes: &[u8],
    unit: &Unit,
    lexemes: &'a [TypeLexeme],
) -> Result<Read<'a, TypeLexeme, List<TypeItem>>, Stop>
    ensures { Gives (map type_item_tree) result (file_at bytes.now (known_of unit.now) lexemes.now) }
{
    let mut tree = List::new(alloc);
    let mut rest = lexemes;
    // Each turn takes a lexeme, so there are no more turns than lexemes and one.
    let mut n = lexemes.len() + 1;
    'each: while n > 0 {
        if rest.len() == 0 {
            return Ok(Read { tree, rest });
        }
        let x = item(alloc, bytes, unit, rest)?;
        tree.push(x.tree)?;
        rest = x.rest;
        n -= 1;
    }
    Err(Stop::Unread(rest.len()))
}
