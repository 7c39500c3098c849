ghost use Rattle.std.specs.Prelude.{◌≡◌, ℤ, pos, ◌↔◌, ◌≤ℤ◌, ◌<ℤ◌};
ghost use Rattle.cx_base.specs.Number.{HasSize, InRange, half_of};

/// Half of the number of values that `size` bytes have.
fn half(size: u32) -> i128
    requires { HasSize size }
    ensures value { result ≡ pos (half_of size) }
    ensures positive { pos 0 <ℤ result }
    ensures small { result ≤ℤ pos 9223372036854775808 }
{
    match size {
        1 => 128,
        2 => 32768,
        4 => 2147483648,
        _ => 9223372036854775808,
    }
}

/// The least and the greatest number that a cell of `size` bytes with this sign holds.
pub fn cell_range(size: u32, signed: bool) -> (i128, i128)
    requires { HasSize size }
    ensures { (v : ℤ) → InRange size signed v ↔ ((result.0 ≤ℤ v) × (v ≤ℤ result.1)) }
{
    let half = half(size);
    if signed {
        (-half, half - 1)
    } else {
        (0, 2 * half - 1)
    }
}
