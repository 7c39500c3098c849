ghost use Rattle.std.specs.Prelude.{◌≡◌, ◌==◌, ℕ, map, find, option_map, Some, None, IfOk, IfErr};
ghost use Rattle.cx_ctree.specs.Types.{type_tree, tag as tagged};
ghost use Rattle.cx_ctree.specs.Layouts.{shape_of, extent_in, first_too_big, fields_of, size_of, offset_of, HasLayout, IsIncomplete, IsTooBig};
ghost use Rattle.cx_ctree.specs.Units.{tags_of};
ghost use Rattle.cx_abi.specs.Fields.{field_tree};
ghost use Rattle.cx_abi.specs.declared.fault.LayoutFault.TheVariants as fault;

use crate::fault::LayoutFault;
use crate::field::{Field, Layout};
use crate::measure::{declaration, incomplete_part, past, place, type_extent};
use cx_base::List;
use cx_ctree::{CType, Unit};
use std::alloc::Global;

/// The layout of a type (System V AMD64 ABI, 3.1.2).
pub fn layout(alloc: Global, unit: &Unit, ctype: &CType) -> Result<Layout, LayoutFault>
    ensures ok { IfOk result (λ _. HasLayout (tags_of unit.now) (type_tree ctype.now)) }
    ensures size { IfOk result (λ l. l.size ≡ (extent_in (tags_of unit.now) (type_tree ctype.now)).size) }
    ensures align { IfOk result (λ l. l.align ≡ (extent_in (tags_of unit.now) (type_tree ctype.now)).align) }
    ensures fields { IfOk result (λ l. map field_tree l.fields ≡ fields_of (tags_of unit.now) (type_tree ctype.now)) }
    ensures incomplete { IfErr result (λ e. (k : ℕ) → e ≡ fault.Incomplete k
        → IsIncomplete (tags_of unit.now) (type_tree ctype.now) k) }
    ensures too_big { IfErr result (λ e. (k : ℕ) → e ≡ fault.TooBig k
        → IsTooBig (tags_of unit.now) (type_tree ctype.now) k) }
{
    if let Some(tag) = incomplete_part(unit, ctype) {
        return Err(LayoutFault::Incomplete(tag));
    }
    match type_extent(unit, ctype) {
        Ok(whole) => Ok(Layout {
            size: whole.size,
            align: whole.align,
            fields: fields(alloc, unit, ctype)?,
        }),
        Err(tag) => Err(LayoutFault::TooBig(tag)),
    }
}

/// The members of a struct or union with their places; none for another type.
fn fields(alloc: Global, unit: &Unit, ctype: &CType) -> Result<List<Field>, LayoutFault>
    requires { first_too_big (shape_of (tags_of unit.now) (type_tree ctype.now)) ≡ None }
    ensures ok { IfOk result (λ fs. map field_tree fs ≡ fields_of (tags_of unit.now) (type_tree ctype.now)) }
    ensures err { IfErr result (λ e. e ≡ fault.NoMemory) }
{
    match ctype {
        CType::Tag(tag) => tag_fields(alloc, unit, *tag),
        CType::Void | CType::Int(_) | CType::Ptr(_) | CType::Array(_, _) => Ok(List::new(alloc)),
    }
}

/// The same for a struct or union.
fn tag_fields(alloc: Global, unit: &Unit, tag: u32) -> Result<List<Field>, LayoutFault>
    requires { first_too_big (shape_of (tags_of unit.now) (tagged tag)) ≡ None }
    ensures ok { IfOk result (λ fs. map field_tree fs ≡ fields_of (tags_of unit.now) (tagged tag)) }
    ensures err { IfErr result (λ e. e ≡ fault.NoMemory) }
{
    let mut fields = List::new(alloc);
    let Some((union_, members)) = declaration(unit, tag) else {
        return Ok(fields);
    };
    let mut end = 0;
    for m in members {
        let part = match type_extent(unit, &m.ctype) {
            Ok(part) => part,
            Err(part) => return Err(LayoutFault::TooBig(part)),
        };
        let offset = place(union_, end, part) as u64;
        end = past(union_, end, part);
        let ctype = m.ctype.copy()?;
        fields.push(Field {
            name: m.name,
            offset,
            ctype,
        })?;
    }
    Ok(fields)
}

/// The size of a type in bytes; None exactly where `layout` answers `Incomplete` or `TooBig`.
pub fn size_of(unit: &Unit, ctype: &CType) -> Option<u64>
    ensures { result ≡ size_of (tags_of unit.now) (type_tree ctype.now) }
{
    if incomplete_part(unit, ctype).is_some() {
        return None;
    }
    match type_extent(unit, ctype) {
        Ok(whole) => Some(whole.size),
        Err(_) => None,
    }
}

/// The place of the tag's member of this name, in bytes from the first byte of the struct or union;
/// None exactly where `layout` answers `Incomplete` or `TooBig`, or there is no such member.
pub fn offset_of(unit: &Unit, tag: u32, name: u32) -> Option<u64>
    ensures { result ≡ offset_of (tags_of unit.now) tag name }
{
    let ctype = CType::Tag(tag);
    if size_of(unit, &ctype).is_none() {
        return None;
    }
    member_place(unit, tag, name)
}

/// The same where the tag has a layout.
fn member_place(unit: &Unit, tag: u32, name: u32) -> Option<u64>
    requires { first_too_big (shape_of (tags_of unit.now) (tagged tag)) ≡ None }
    ensures { result ≡ option_map (λ f. f.offset)
        (find (λ f. f.name == name) (fields_of (tags_of unit.now) (tagged tag))) }
{
    let (union_, members) = declaration(unit, tag)?;
    let mut end = 0;
    for m in members {
        let part = match type_extent(unit, &m.ctype) {
            Ok(part) => part,
            Err(_) => return None,
        };
        if m.name == name {
            return Some(place(union_, end, part) as u64);
        }
        end = past(union_, end, part);
    }
    None
}
