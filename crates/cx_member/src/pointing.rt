ghost use Rattle.std.specs.Prelude.{◌≡◌, ◌≤◌, ◌^◌, ◌↔◌, ◌-ℤ◌, FitsSigned, ℤ, List as ListOf, IsTrue, Any, IfSome, IsSomeAnd, option_copied, slice_get, unsigned_abs};
ghost use Rattle.std.specs.Int.{w128};
ghost use Rattle.cx_term.specs.Forms.{value};
ghost use Rattle.cx_cells.specs.Values.{values_of, all_values};
ghost use Rattle.cx_cells.specs.Layouts.{IsAt, Points, layout_of};
ghost use Rattle.cx_member.specs.Reading.{AreSmall, Stands};

use crate::valued::{are_values, value_of};
use cx_base::{List, Memory, Region};
use cx_term::Term;

pub(crate) fn minus(a: i128, b: i128) -> i128
    requires { FitsSigned w128 (a -ℤ b) }
    ensures { result ≡ a -ℤ b }
{
    a - b
}

fn stands(r: &Region, name: u32, base: i128) -> bool
    ensures { IsTrue result ↔ Stands name base r.now }
{
    r.name == name && i128::from(r.base) == base
}

/// Whether the region at place `i` has this type and this base.
fn stands_at(memory: &Memory, i: u32, name: u32, base: i128) -> bool
    ensures { IsTrue result ↔ IsSomeAnd (slice_get memory.now i) (Stands name base) }
{
    match memory.region(i) {
        Some(r) => stands(r, name, base),
        None => false,
    }
}

/// The region of this type and this base.
pub(crate) fn region_at(memory: &Memory, name: u32, base: i128) -> Option<&Region>
    ensures found { (args : ListOf ℤ) → Any (IsAt name args base) (layout_of memory.now) ↔ IsSomeAnd (option_copied result) (λ r. r.args ≡ args) }
    ensures small { IfSome (option_copied result) (λ r. AreSmall r.args) }
{
    for i in 0..memory.len() {
        if stands_at(memory, i, name, base) {
            return memory.region(i);
        }
    }
    None
}

/// Whether there is a region of this type and this base whose arguments are what the forms come to.
fn has_region(memory: &Memory, values: &[i128], name: u32, args: &List<Term>, base: i128) -> bool
    requires { AreSmall values.now }
    ensures { IsTrue result ↔ Any (IsAt name (all_values (values_of values.now) args.now) base) (layout_of memory.now) }
{
    match region_at(memory, name, base) {
        Some(r) => are_values(values, args.as_slice(), r.args.as_slice()),
        None => false,
    }
}

/// Whether the number is the offset past the base of such a region.
fn points_past(
    memory: &Memory,
    values: &[i128],
    name: u32,
    args: &List<Term>,
    off: &Term,
    z: i128,
) -> bool
    requires values { AreSmall values.now }
    requires number { unsigned_abs z ≤ 2 ^ 64 }
    ensures { IsTrue result ↔ Any (IsAt name (all_values (values_of values.now) args.now) (z -ℤ value (values_of values.now) off.now)) (layout_of memory.now) }
{
    let base = minus(z, value_of(values, off));
    has_region(memory, values, name, args, base)
}

/// Whether a pointer to a region of a type may be this number, where the numbers are the values of
/// the symbols.
pub(crate) fn points(
    memory: &Memory,
    values: &[i128],
    name: u32,
    args: &List<Term>,
    off: &Term,
    null: bool,
    z: i128,
) -> bool
    requires values { AreSmall values.now }
    requires number { unsigned_abs z ≤ 2 ^ 64 }
    ensures { IsTrue result ↔ Points (layout_of memory.now) name (all_values (values_of values.now) args.now) (value (values_of values.now) off.now) null z }
{
    (null && z == 0) || points_past(memory, values, name, args, off, z)
}
