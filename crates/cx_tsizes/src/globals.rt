ghost use Rattle.std.specs.Prelude.{◌≡◌, Some, map, option_map, IfOk};
ghost use Rattle.cx_tsyn.specs.Words.{word_tree};
ghost use Rattle.cx_tsyn.specs.Items.{global_tree};
ghost use Rattle.cx_tscope.specs.Faults.{first};
ghost use Rattle.cx_tmeasure.specs.Views.{known_of};
ghost use Rattle.cx_tsizes.specs.Regions as sizes;
ghost use Rattle.cx_tsizes.specs.BadSizes as spec;
ghost use Rattle.cx_tsizes.specs.Views.{size_as, regions_as};

use crate::regions::{RegionSize, Regions};
use crate::values::{form_value, tail_takes};
use cx_base::{NoMemory, Span};
use cx_tmeasure::{Known, object_of, size_in};
use cx_tsyn::{GlobalItem, Word};
use std::alloc::Global;

// Whether a region of this size takes so many bytes with these arguments.
fn takes(alloc: Global, size: &RegionSize, args: &[i128], bytes: u64) -> Result<bool, NoMemory>
    ensures { IfOk result (λ right. right ≡ spec.both_same (Some bytes) (sizes.size_at (Some (size_as size.now)) args.now)) }
{
    match &size.tail {
        None => Ok(bytes == size.head),
        Some(tail) => {
            let turns = form_value(alloc, tail.length, size.params, args)?;
            Ok(tail_takes(size.head, turns, tail.each, bytes))
        }
    }
}

// The size of the region of this name; None also where its type is at fault.
fn region_in<'b, 'a>(regions: &'b Regions<'a>, word: &Word) -> Option<&'b RegionSize<'a>>
    ensures { option_map (λ r. size_as r.now) result ≡ sizes.region_in (regions_as regions.now) (word_tree word.now) }
{
    match regions.names.place(word.text.as_slice()) {
        None => None,
        Some(at) => match regions.sizes.get(at) {
            None => None,
            Some(size) => size.as_ref(),
        },
    }
}

fn global_is_right(
    alloc: Global,
    known: &Known,
    regions: &Regions,
    global: &GlobalItem,
) -> Result<bool, NoMemory>
    ensures { IfOk result (λ right. right ≡ spec.global_is_right (known_of known.now) (regions_as regions.now) (global_tree global.now)) }
{
    match size_in(known, object_of(known, &global.name)) {
        None => Ok(false),
        Some(bytes) => match region_in(regions, &global.region) {
            None => Ok(false),
            Some(size) => takes(alloc, size, global.args.as_slice(), bytes),
        },
    }
}

/// The name of a global whose region is not of the size of the object.
pub fn bad_global(
    alloc: Global,
    known: &Known,
    regions: &Regions,
    global: &GlobalItem,
) -> Result<Option<Span>, NoMemory>
    ensures { IfOk result (λ s. s ≡ first (spec.bad_global (known_of known.now) (regions_as regions.now) (global_tree global.now))) }
{
    let right = global_is_right(alloc, known, regions, global)?;
    if right {
        return Ok(None);
    }
    Ok(Some(global.name.span))
}
