ghost use Rattle.std.specs.Prelude.{◌≤◌, ◌^◌, ◌+◌};

/// The most bytes that an object may have.
pub const MOST_BYTES: u64 = 1 << 31;

/// How many bytes a type takes, and of what its addresses are multiples.
#[derive(Clone, Copy, Debug)]
pub struct Extent {
    pub size: u64,
    pub align: u32,
    ghost small: { size ≤ 2 ^ 31 },
    ghost positive: { 1 ≤ align },
    ghost scalar: { align ≤ 8 },
}
