ghost use Rattle.std.specs.Prelude.{◌≡◌, ◌<◌, ◌↔◌, All, IsTrue, IfSome, IsSomeAnd, None, Some, MatchOption, ℕ, length, slice_get};
ghost use Rattle.cx_base.specs.Bytes.{AreBytes};
ghost use Rattle.cx_base.specs.Memory.{Valid};
ghost use Rattle.cx_cells.specs.Layouts.{layout_of};
ghost use Rattle.cx_cells.specs.Typing.{IsMemory, RegionHolds, Typed};
ghost use Rattle.cx_member.specs.First.{IsFirstUntyped};

use crate::form::form_holds;
use cx_base::{Memory, Region};
use cx_cells::Rules;

/// Tells a caller's proof that the memory is valid.
fn known(memory: &Memory)
    ensures { Valid memory.now }
{
    let _count = memory.len();
}

/// Tells a caller's proof that bytes are numbers below 256.
fn bytes_known(bytes: &[u8])
    ensures { AreBytes bytes.now }
{
    for i in 0..bytes.len() {
        let _byte = bytes[i];
    }
}

/// Tells a caller's proof that the bytes of the region at place `i` are numbers below 256.
fn region_known(memory: &Memory, i: u32)
    ensures { IfSome (slice_get memory.now i) (λ r. AreBytes r.bytes) }
{
    if let Some(r) = memory.region(i) {
        bytes_known(r.bytes.as_slice());
    }
}

/// Tells a caller's proof that the regions of the memory are one.
fn memory_known(memory: &Memory)
    ensures { IsMemory memory.now }
{
    known(memory);
    let count = memory.len();
    for i in 0..count {
        region_known(memory, i);
    }
}

fn region_holds(rules: &Rules, memory: &Memory, index: u32, region: &Region) -> bool
    requires { slice_get memory.now index ≡ Some region.now }
    ensures { IsTrue result ↔ RegionHolds rules.now.forms (layout_of memory.now) region.now }
{
    known(memory);
    match rules.forms.get(region.name as usize) {
        Some(form) => {
            let bytes = region.bytes.len() as u64;
            form_holds(memory, index, region.args.as_slice(), form, bytes)
        }
        None => false,
    }
}

/// Whether the bytes of the region at place `index` hold the region's type, for its arguments, in the
/// layout of the memory.
pub fn holds(rules: &Rules, memory: &Memory, index: u32) -> bool
    requires { index < length memory.now }
    ensures { IsTrue result ↔ IsSomeAnd (slice_get memory.now index) (RegionHolds rules.now.forms (layout_of memory.now)) }
{
    match memory.region(index) {
        Some(region) => region_holds(rules, memory, index, region),
        None => false,
    }
}

fn first_untyped(rules: &Rules, memory: &Memory) -> Option<u32>
    ensures { MatchOption result (All (RegionHolds rules.now.forms (layout_of memory.now)) memory.now) (IsFirstUntyped rules.now.forms memory.now) }
{
    for i in 0..memory.len() {
        if !holds(rules, memory, i) {
            return Some(i);
        }
    }
    None
}

/// The place of the first region that does not hold its type; None exactly where the memory is typed.
pub fn typed(rules: &Rules, memory: &Memory) -> Option<u32>
    ensures none { (result ≡ None) ↔ Typed rules.now.forms memory.now }
    ensures some { (i : ℕ) → (result ≡ Some i) ↔ IsFirstUntyped rules.now.forms memory.now i }
{
    memory_known(memory);
    first_untyped(rules, memory)
}
