ghost use Rattle.std.specs.Prelude.{All, ℕ, ℤ, Bool, ◌≡◌, ◌≢◌, ◌<◌, ◌≤◌, ◌+◌, ◌-◌, ◌*◌, ◌^◌, ◌↔◌, ◌⊎◌, pos, [], ◌∷◌, ◌++◌, length, None, Some, IfSome, IfNone, IsSomeAnd, IfOk, OnOk, OnErr, IfErr, slice_get, slice_set, option_copied, nat_abs, IsTrue};
ghost use Rattle.cx_base.specs.declared.memory.AddFault.TheVariants.{NoMemory as OutOfMemory};
ghost use Rattle.cx_base.specs.Bytes.{number_of};
ghost use Rattle.cx_base.specs.Memory.{Holds, InRange, past_of, size_of, meets, first_met, loaded, stored, low_bytes};
ghost use Rattle.cx_base.specs.Number.{wrapped};

use crate::bytes::{number_of, put_number};
use crate::list::{List, NoMemory};
use crate::number::{CInt, low_part, wrap};
use std::alloc::{AllocFailed, Global};
use std::marker::Model;
use thiserror::Error;

/// A run of bytes of a program's memory, with the region type that it is said to hold.
#[derive(Debug, Drop)]
pub struct Region {
    /// The address of its first byte.
    pub base: u64,
    /// The place of its region type in the type file, counted from 0.
    pub name: u32,
    /// The arguments of its region type.
    pub args: List<i128>,
    /// Its bytes, from the base on.
    pub bytes: List<u8>,
}

/// Why a region was not added to a memory.
#[derive(Debug, Drop, Error)]
pub enum AddFault {
    /// The region of this base does not lie among the addresses 1 to 2^47 - 1, or an argument of it
    /// does not lie between -2^64 and 2^64.
    #[error("the region at {0} is out of range")]
    OutOfRange(u64),
    /// The region has an address in common with the region at this place, and with none before it.
    #[error("the region overlaps region {0}")]
    Overlaps(u32),
    /// The allocator refused.
    #[error("out of memory")]
    NoMemory,
}

impl<T: Drop> From<AllocFailed<T>> for AddFault {
    ghost from_gives = { λ _ e. e ≡ OutOfMemory };

    fn from(_e: AllocFailed<T>) -> AddFault {
        AddFault::NoMemory
    }
}

/// The memory of a program: regions that lie in the range of addresses and meet one another
/// nowhere. Contracts see it as the list of its regions.
#[derive(Debug, Drop)]
pub struct Memory {
    regions: Vec<Region>,
}

impl Model for Memory {
    ghost use Rattle.std.specs.Prelude.{List};
    ghost use Rattle.cx_base.specs.declared.memory.Region.{Region};

    ghost Value = { List Region };

    ghost use Rattle.cx_base.specs.Memory.{Valid};

    ghost view = { λ m. m.regions.items };

    ghost invariant = { λ m. Valid m.regions.items };
}

/// Whether the `k` bytes from the address `a` on lie inside the region.
fn holds(r: &Region, a: u64, k: u8) -> bool
    ensures { IsTrue result ↔ Holds r.now a k }
{
    let size = r.bytes.len() as u64;
    r.base <= a && a - r.base <= size && u64::from(k) <= size - (a - r.base)
}

/// The place of the first region that holds the `k` bytes from the address `a` on.
fn first_holder(regions: &[Region], a: u64, k: u8) -> Option<usize>
    ensures some { IfSome result (λ i. IsSomeAnd (slice_get regions.now i) (λ r. Holds r a k)) }
    ensures none { IfNone result (All (λ r. Holds r a k → ⊥) regions.now) }
{
    regions.iter().position(|r| holds(r, a, k))
}

/// Whether the region and its arguments are in range.
fn is_in_range(r: &Region) -> bool
    ensures { IsTrue result ↔ InRange r.now }
{
    let size = (r.bytes.len() as u64).max(1);
    1 <= r.base
        && r.base < 1 << 47
        && size <= (1 << 47) - r.base
        && r.args
            .as_slice()
            .iter()
            .all(|a| -(1i128 << 64) <= *a && *a <= 1i128 << 64)
}

/// The first address past the region.
fn past(r: &Region) -> u128
    ensures { result ≡ past_of r.now }
{
    u128::from(r.base) + (r.bytes.len() as u128).max(1)
}

/// Whether the regions have an address in common.
fn meets(r: &Region, s: &Region) -> bool
    ensures { result ≡ meets r.now s.now }
{
    u128::from(r.base) < past(s) && u128::from(s.base) < past(r)
}

/// The place of the first region that this one meets.
fn first_met(regions: &[Region], r: &Region) -> Option<usize>
    ensures { result ≡ first_met r.now regions.now }
{
    regions.iter().position(|s| meets(r, s))
}

/// The number of the type that the region has at the offset.
fn load(r: &Region, off: u64, t: CInt) -> i128
    requires range { InRange r.now }
    requires inside { off + t.size ≤ size_of r.now }
    ensures { result ≡ loaded r.now off t.size t.signed }
{
    let from = off as usize;
    let to = from + usize::from(t.size);
    wrap(t, i128::from(number_of(&r.bytes.as_slice()[from..to])))
}

/// Puts the low bytes of the number into the region at the offset.
fn store(r: &mut Region, off: u64, t: CInt, v: i128)
    requires range { InRange r.old }
    requires inside { off + t.size ≤ size_of r.old }
    ensures { r.new ≡ stored r.old off t.size v }
{
    let from = off as usize;
    let to = from + usize::from(t.size);
    put_number(&mut r.bytes, from, to, low_part(t, v));
}

/// The same region once more.
fn copy_region(r: &Region) -> Result<Region, NoMemory>
    ensures { IfOk result (λ copy. copy ≡ r.now) }
{
    let args = r.args.copy()?;
    let bytes = r.bytes.copy()?;
    Ok(Region {
        base: r.base,
        name: r.name,
        args,
        bytes,
    })
}

impl Memory {
    ghost use Rattle.std.specs.Prelude.{ℕ, ℤ, Bool, ◌≡◌, ◌≢◌, ◌<◌, ◌≤◌, ◌+◌, ◌-◌, ◌^◌, ◌⊎◌, [], ◌∷◌, ◌++◌, length, None, Some, IfSome, IfNone, IsSomeAnd, IfOk, OnOk, OnErr, IfErr, slice_get, slice_set, option_copied, All};
    ghost use Rattle.cx_base.specs.Memory.{Valid, Holds, InRange, first_met, size_of, loaded, stored};
    ghost use Rattle.cx_base.specs.Number.{HasSize, wrapped};

    /// No regions.
    pub fn new(alloc: Global) -> Memory
        ensures { result ≡ [] }
    {
        Memory {
            regions: Vec::new(alloc),
        }
    }

    /// How many regions there are.
    pub fn len(&self) -> u32
        ensures len { result ≡ length self.now }
        ensures valid { Valid self.now }
    {
        self.regions.len() as u32
    }

    /// The region at place `i`, counted from 0; None exactly where `i` is not below the length.
    pub fn region(&self, i: u32) -> Option<&Region>
        ensures { option_copied result ≡ slice_get self.now i }
    {
        self.regions.get(i as usize)
    }

    /// The place of the region that holds the `k` bytes from the address `a` on, an access of 1, 2,
    /// 4 or 8 bytes; None exactly where no region holds them.
    pub fn find(&self, a: u64, k: u8) -> Option<u32>
        requires { HasSize k }
        ensures some { IfSome result (λ i. IsSomeAnd (slice_get self.now i) (λ r. Holds r a k)) }
        ensures only { IfSome result (λ i. (j : ℕ) → IsSomeAnd (slice_get self.now j) (λ r. Holds r a k) → j ≡ i) }
        ensures none { IfNone result (All (λ r. Holds r a k → ⊥) self.now) }
    {
        let i = first_holder(self.regions.as_slice(), a, k)?;
        Some(i as u32)
    }

    /// The number of the type `t` that region `r` has at the offset `off`, in bytes from its base: the
    /// number that its bytes write, the least significant first (System V AMD64 ABI, 3.1.1), with the
    /// type's sign.
    pub fn read(&self, r: u32, off: u64, t: CInt) -> i128
        requires { IsSomeAnd (slice_get self.now r) (λ region. off + t.size ≤ size_of region) }
        ensures { IfSome (slice_get self.now r) (λ region. result ≡ loaded region off t.size t.signed) }
    {
        load(&self.regions[r as usize], off, t)
    }

    /// Stores the low bytes of `v`, as many as the type `t` has, in region `r` at the offset `off`, in
    /// bytes from its base. A read there gives `v` wrapped to its type, and a read of other bytes, of
    /// this region or of another, what it gave before.
    pub fn write(&mut self, r: u32, off: u64, t: CInt, v: i128)
        requires { IsSomeAnd (slice_get self.old r) (λ region. off + t.size ≤ size_of region) }
        ensures new { IfSome (slice_get self.old r) (λ region. self.new ≡ slice_set self.old r (stored region off t.size v)) }
        ensures read_back { IsSomeAnd (slice_get self.new r) (λ region. (signed : Bool) → loaded region off t.size signed ≡ wrapped t.size signed v) }
        ensures read_apart { IfSome (slice_get self.old r) (λ before. IsSomeAnd (slice_get self.new r) (λ after. (at size : ℕ) (signed : Bool) → (at + size ≤ off) ⊎ (off + t.size ≤ at) → loaded after at size signed ≡ loaded before at size signed)) }
        ensures others { (i : ℕ) → i ≢ r → slice_get self.new i ≡ slice_get self.old i }
    {
        store(&mut self.regions[r as usize], off, t, v);
    }

    /// Adds the region at the end. A region that is out of range, or else meets another, or else
    /// finds no memory, is dropped, and the memory is as it was.
    #[tactic(auto, using(crate::proofs::Adding::valid_push))]
    pub fn add_region(&mut self, r: Region) -> Result<(), AddFault>
        requires { length self.old < 2 ^ 32 - 1 }
        ensures ok { OnOk result (InRange r × (first_met r self.old ≡ None) × (self.new ≡ self.old ++ r ∷ [])) }
        ensures out_of_range { IfErr result (λ e. (b : ℕ) → e ≡ AddFault.OutOfRange b → (b ≡ r.base) × (InRange r → ⊥)) }
        ensures overlaps { IfErr result (λ e. (i : ℕ) → e ≡ AddFault.Overlaps i → InRange r × (first_met r self.old ≡ Some i)) }
        ensures no_memory { IfErr result (λ e. e ≡ AddFault.NoMemory → InRange r × (first_met r self.old ≡ None)) }
        ensures err { OnErr result (self.new ≡ self.old) }
    {
        if !is_in_range(&r) {
            return Err(AddFault::OutOfRange(r.base));
        }
        if let Some(i) = first_met(self.regions.as_slice(), &r) {
            return Err(AddFault::Overlaps(i as u32));
        }
        self.regions.push(r)?;
        Ok(())
    }

    /// The same memory once more.
    pub fn copy(&self) -> Result<Memory, NoMemory>
        ensures { IfOk result (λ m. m ≡ self.now) }
    {
        let mut regions = Vec::new(*self.regions.allocator());
        for r in &self.regions {
            regions.push(copy_region(r)?)?;
        }
        Ok(Memory { regions })
    }
}
