ghost use Rattle.std.specs.Prelude.{◌≡◌, ◌+◌, ◌*◌, ◌^◌, ◌<◌, ◌≤◌, length, option_copied};
ghost use Rattle.cx_sorts.specs.Layout.{size_of, alignment_of, begins, ends, offset_of, member_from, end_from, greatest_alignment, struct_size};

use crate::names::same_name;
use cx_form::{Member, Struct, ValueType, Word};

// Offsets and sizes are u128, so that no number of members, which is below 2^64, makes a sum that
// passes the type.

fn size_of(t: &ValueType) -> u128
    ensures size { result ≡ size_of t.now }
    ensures small { result ≤ 8 }
{
    match t {
        ValueType::UnsignedLong => 8,
        ValueType::Pointer(_) => 8,
    }
}

fn alignment_of(t: &ValueType) -> u128
    ensures alignment { result ≡ alignment_of t.now }
    ensures some { 1 ≤ result }
    ensures small { result ≤ 8 }
{
    match t {
        ValueType::UnsignedLong => 8,
        ValueType::Pointer(_) => 8,
    }
}

fn begins(past: u128, m: &Member) -> u128
    requires { past < 2 ^ 100 }
    ensures begins { result ≡ begins past m.now }
    ensures near { result < past + 8 }
{
    past.next_multiple_of(alignment_of(&m.ctype))
}

fn ends(past: u128, m: &Member) -> u128
    requires { past < 2 ^ 100 }
    ensures ends { result ≡ ends past m.now }
    ensures near { result < past + 16 }
{
    begins(past, m) + size_of(&m.ctype)
}

/// The offset of a member in bytes from the struct's first.
pub fn offset_of(s: &Struct, name: &Word) -> Option<u128>
    ensures { result ≡ offset_of s.now name.now }
{
    let mut past = 0u128;
    for m in s.members.as_slice() {
        if same_name(&m.name, name) {
            return Some(begins(past, m));
        }
        past = ends(past, m);
    }
    None
}

/// The member that begins at this offset, in bytes from the struct's first.
pub fn member_at(s: &Struct, offset: u128) -> Option<&Member>
    ensures { option_copied result ≡ member_from 0 s.now.members offset }
{
    let mut past = 0u128;
    for m in s.members.as_slice() {
        if begins(past, m) == offset {
            return Some(m);
        }
        past = ends(past, m);
    }
    None
}

fn end_of(members: &[Member]) -> u128
    ensures end { result ≡ end_from 0 members.now }
    ensures near { result ≤ 16 * length members.now }
{
    let mut past = 0u128;
    for m in members {
        past = ends(past, m);
    }
    past
}

fn greatest_alignment(members: &[Member]) -> u128
    ensures greatest { result ≡ greatest_alignment members.now }
    ensures some { 1 ≤ result }
    ensures small { result ≤ 8 }
{
    let mut greatest = 1u128;
    for m in members {
        greatest = greatest.max(alignment_of(&m.ctype));
    }
    greatest
}

/// How many bytes a struct has.
pub fn struct_size(s: &Struct) -> u128
    ensures { result ≡ struct_size s.now }
{
    let members = s.members.as_slice();
    end_of(members).next_multiple_of(greatest_alignment(members))
}
