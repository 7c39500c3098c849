ghost use Rattle.std.specs.Prelude.{◌≡◌, [], ◌≤◌, ◌<◌, ◌+◌, ◌*◌, ◌^◌, max, map, Some, None, IfSome, IfNone, IfOk, IfErr, option_map};
ghost use Rattle.cx_base.specs.Number.{HasSize};
ghost use Rattle.cx_ctree.specs.Types.{type_tree, tag as tagged};
ghost use Rattle.cx_ctree.specs.Decls.{member_tree};
ghost use Rattle.cx_ctree.specs.Layouts.{shape_of, shapes_of, declared, undeclared, first_incomplete, first_incomplete_in, round_up, place, past, fields_of, fields_from, if_too_big};
ghost use Rattle.cx_ctree.specs.Units.{tags_of};
ghost use Rattle.cx_ctree.specs.Extents.{extent, IsExtent};

use cx_ctree::{CType, Extent, MOST_BYTES, Member, Unit};

/// What stands for a type without a size.
pub fn nothing() -> Extent
    ensures size { result.size ≡ 0 }
    ensures align { result.align ≡ 1 }
{
    Extent { size: 0, align: 1 }
}

/// A type whose alignment is its size.
fn scalar(size: u8) -> Extent
    requires { HasSize size }
    ensures size { result.size ≡ size }
    ensures align { result.align ≡ size }
{
    Extent {
        size: u64::from(size),
        align: u32::from(size),
    }
}

/// The least multiple of `align` from `n` on.
#[tactic(auto, using(crate::proofs::Rounding::rounds_down))]
fn rounded(align: u32, n: u128) -> u128
    requires positive { 1 ≤ align }
    requires scalar { align ≤ 8 }
    requires room { n < 2 ^ 127 }
    ensures value { result ≡ round_up align n }
    ensures bound { result ≤ n + 7 }
{
    let step = u128::from(align);
    (n + (step - 1)) / step * step
}

/// Where the next member of a struct or union stands, if those before it end at `from`.
pub fn place(union_: bool, from: u128, part: Extent) -> u128
    requires room { from < 2 ^ 126 }
    ensures value { result ≡ place union_ from (extent part) }
    ensures bound { result ≤ from + 7 }
{
    if union_ { 0 } else { rounded(part.align, from) }
}

/// Where the members of a struct or union end once the next one stands.
pub fn past(union_: bool, from: u128, part: Extent) -> u128
    requires room { from < 2 ^ 126 }
    ensures value { result ≡ past union_ from (extent part) }
    ensures bound { result ≤ from + (2 ^ 31 + 7) }
{
    let end = place(union_, from, part) + u128::from(part.size);
    if from < end { end } else { from }
}

/// A struct or union whose members end at `end`; its tag where it is too big.
fn whole(tag: u32, end: u128, align: u32) -> Result<Extent, u32>
    requires positive { 1 ≤ align }
    requires scalar { align ≤ 8 }
    requires room { end < 2 ^ 126 }
    ensures size { IfOk result (λ e. e.size ≡ round_up align end) }
    ensures align { IfOk result (λ e. e.align ≡ align) }
    ensures fits { IfOk result (λ _. if_too_big (round_up align end) tag ≡ None) }
    ensures too_big { IfErr result (λ k. if_too_big (round_up align end) tag ≡ Some k) }
{
    let size = rounded(align, end);
    if size > u128::from(MOST_BYTES) {
        return Err(tag);
    }
    Ok(Extent {
        size: size as u64,
        align,
    })
}

/// An array of so many elements; 0 where it is too big.
fn repeated(element: Extent, count: u32) -> Result<Extent, u32>
    ensures size { IfOk result (λ e. e.size ≡ count * element.size) }
    ensures align { IfOk result (λ e. e.align ≡ element.align) }
    ensures fits { IfOk result (λ _. if_too_big (count * element.size) 0 ≡ None) }
    ensures too_big { IfErr result (λ k. if_too_big (count * element.size) 0 ≡ Some k) }
{
    let size = u64::from(count) * element.size;
    if size > MOST_BYTES {
        return Err(0);
    }
    Ok(Extent {
        size,
        align: element.align,
    })
}

/// Whether the tag is a union's, and its members; None where it has none.
#[tactic(auto, using(crate::proofs::Declared::declared_at, crate::proofs::Declared::complete_at, crate::proofs::Declared::fields_at, crate::proofs::Shapes::by_members))]
pub fn declaration(unit: &Unit, tag: u32) -> Option<(bool, &[Member])>
    ensures none { IfNone result (shape_of (tags_of unit.now) (tagged tag) ≡ undeclared tag) }
    ensures empty { IfNone result (fields_of (tags_of unit.now) (tagged tag) ≡ []) }
    ensures some { IfSome result (λ d. shape_of (tags_of unit.now) (tagged tag)
        ≡ declared tag d.0 (shapes_of (tags_of unit.now) (map member_tree d.1.now))) }
    ensures complete { IfSome result (λ d. first_incomplete_in (shapes_of (tags_of unit.now) (map member_tree d.1.now)) ≡ None) }
    ensures fields { IfSome result (λ d. fields_of (tags_of unit.now) (tagged tag)
        ≡ fields_from (tags_of unit.now) d.0 0 (map member_tree d.1.now)) }
{
    let found = unit.tags.get(tag as usize)?;
    let members = found.members.as_ref()?;
    Some((found.union_, members.as_slice()))
}

/// The first tag without members that the type contains other than behind a pointer, or 0 for void.
pub fn incomplete_part(unit: &Unit, ctype: &CType) -> Option<u32>
    ensures { result ≡ first_incomplete (shape_of (tags_of unit.now) (type_tree ctype.now)) }
{
    match ctype {
        CType::Void => Some(0),
        CType::Int(_) | CType::Ptr(_) => None,
        CType::Array(element, _) => incomplete_part(unit, element),
        CType::Tag(tag) => match declaration(unit, *tag) {
            Some(_) => None,
            None => Some(*tag),
        },
    }
}

/// The size and alignment of the tag at this place; nothing where no tag has it.
#[tactic(auto, using(crate::proofs::Measured::tag_measured, crate::proofs::Measured::no_tag_measured))]
fn tag_extent(unit: &Unit, tag: u32) -> Result<Extent, u32>
    ensures { IsExtent (shape_of (tags_of unit.now) (tagged tag)) result }
{
    match unit.tags.get(tag as usize) {
        Some(found) => found.extent,
        None => Ok(nothing()),
    }
}

/// The size and alignment of the type, or the first type in it that is too big: its tag, or 0 for an
/// array. What is incomplete counts as nothing.
pub fn type_extent(unit: &Unit, ctype: &CType) -> Result<Extent, u32>
    ensures { IsExtent (shape_of (tags_of unit.now) (type_tree ctype.now)) result }
{
    match ctype {
        CType::Void => Ok(nothing()),
        CType::Int(number) => Ok(scalar(number.size)),
        CType::Ptr(_) => Ok(scalar(8)),
        CType::Array(element, count) => repeated(type_extent(unit, element)?, *count),
        CType::Tag(tag) => tag_extent(unit, *tag),
    }
}

/// The size and alignment that a struct, or a union where it is true, has with these members, or the
/// first type in it that is too big, parts before wholes: its tag, `tag` for the whole, or 0 for an array.
pub fn extent_with(unit: &Unit, tag: u32, union_: bool, members: &[Member]) -> Result<Extent, u32>
    ensures { IsExtent (declared tag union_ (shapes_of (tags_of unit.now) (map member_tree members.now))) result }
{
    let mut end = 0;
    let mut align = 1;
    for m in members {
        let part = type_extent(unit, &m.ctype)?;
        end = past(union_, end, part);
        if align < part.align {
            align = part.align;
        }
    }
    whole(tag, end, align)
}
