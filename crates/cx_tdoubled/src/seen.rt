ghost use Rattle.std.specs.Prelude.{◌≡◌, map, IfOk, OnOk};
ghost use Rattle.cx_ctree.specs.Types.{type_tree};
ghost use Rattle.cx_cname.specs.Meanings as types;
ghost use Rattle.cx_tscope.specs.Faults.{first};
ghost use Rattle.cx_tsyn.specs.Words.{word_tree};
ghost use Rattle.cx_tsyn.specs.Items.{alloc_tree, type_item_tree};
ghost use Rattle.cx_tdoubled.specs.Seen as spec;

use cx_base::{List, NoMemory, Span};
use cx_ctree::CType;
use cx_tscope::Scope;
use cx_tsyn::{AllocItem, TypeItem, Word};
use std::alloc::Global;

/// An allocator, with the type that its result points to.
#[derive(Drop)]
pub struct Block {
    pub name: Word,
    pub pointee: CType,
}

/// The names of the items so far.
#[derive(Drop)]
pub struct Seen {
    pub regions: Scope,
    pub functions: Scope,
    pub allocators: Scope,
    pub globals: Scope,
    pub blocks: List<Block>,
}

/// No names.
pub fn none_seen(alloc: Global) -> Seen
    ensures { spec.seen_by result ≡ spec.none_seen }
{
    Seen {
        regions: Scope::new(alloc),
        functions: Scope::new(alloc),
        allocators: Scope::new(alloc),
        globals: Scope::new(alloc),
        blocks: List::new(alloc),
    }
}

fn same_type(a: &CType, b: &CType) -> bool
    ensures { result ≡ types.same_type (type_tree a.now) (type_tree b.now) }
{
    a.same(b)
}

fn has_block(blocks: &[Block], name: &Word, pointee: &CType) -> bool
    ensures { result ≡ spec.has_block (map spec.block_tree blocks.now) (word_tree name.now) (type_tree pointee.now) }
{
    for block in blocks {
        if name.same(&block.name) && same_type(&block.pointee, pointee) {
            return true;
        }
    }
    false
}

fn is_block(seen: &Seen, item: &AllocItem) -> bool
    ensures { result ≡ spec.is_block (spec.seen_by seen.now) (alloc_tree item.now) }
{
    let name = item.name.text.as_slice();
    if seen.functions.has(name) {
        return true;
    }
    has_block(seen.blocks.as_slice(), &item.name, &item.pointee)
}

fn is_doubled(seen: &Seen, item: &TypeItem) -> bool
    ensures { result ≡ spec.is_doubled (spec.seen_by seen.now) (type_item_tree item.now) }
{
    match item {
        TypeItem::Region(region) => seen.regions.has(region.name.text.as_slice()),
        TypeItem::Func(function) => {
            let name = function.name.text.as_slice();
            seen.functions.has(name) || seen.allocators.has(name)
        }
        TypeItem::Alloc(item) => is_block(seen, item),
        TypeItem::Global(global) => seen.globals.has(global.name.text.as_slice()),
    }
}

fn span_of(item: &TypeItem) -> Span
    ensures { result ≡ (spec.name_of (type_item_tree item.now)).span }
{
    match item {
        TypeItem::Region(region) => region.name.span,
        TypeItem::Func(function) => function.name.span,
        TypeItem::Alloc(item) => item.name.span,
        TypeItem::Global(global) => global.name.span,
    }
}

/// The name of the item, where an earlier item stands in its way.
pub fn doubled_item(seen: &Seen, item: &TypeItem) -> Option<Span>
    ensures { result ≡ first (spec.doubled_item (spec.seen_by seen.now) (type_item_tree item.now)) }
{
    if is_doubled(seen, item) {
        return Some(span_of(item));
    }
    None
}

fn see_allocator(seen: &mut Seen, item: &AllocItem) -> Result<(), NoMemory>
    ensures { OnOk result (spec.seen_by seen.new ≡ spec.seen_with_block (spec.seen_by seen.old) (alloc_tree item.now)) }
{
    let name = item.name.copy()?;
    let pointee = item.pointee.copy()?;
    seen.blocks.push(Block { name, pointee })?;
    let _new = seen.allocators.add(item.name.text.as_slice())?;
    Ok(())
}

/// Adds the name of an item.
pub fn see(seen: &mut Seen, item: &TypeItem) -> Result<(), NoMemory>
    ensures { OnOk result (spec.seen_by seen.new ≡ spec.seen_with (spec.seen_by seen.old) (type_item_tree item.now)) }
{
    match item {
        TypeItem::Region(region) => {
            let _new = seen.regions.add(region.name.text.as_slice())?;
            Ok(())
        }
        TypeItem::Func(function) => {
            let _new = seen.functions.add(function.name.text.as_slice())?;
            Ok(())
        }
        TypeItem::Alloc(item) => see_allocator(seen, item),
        TypeItem::Global(global) => {
            let _new = seen.globals.add(global.name.text.as_slice())?;
            Ok(())
        }
    }
}
