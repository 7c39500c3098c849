ghost use Rattle.std.specs.Prelude.{◌≡◌, ◌+ℤ◌, IfOk, OnErr};
ghost use Rattle.cx_tnumber.specs.Numbers as spec;
ghost use Rattle.cx_tnumber.specs.Limits.{IsNoI128};

use cx_base::NoMemory;

/// The sum. One that is no `i128` counts as one for which memory does not suffice: it takes more
/// numbers than any type file has. There is no other `NoMemory`.
pub fn sum(a: i128, b: i128) -> Result<i128, NoMemory>
    ensures value { IfOk result (λ s. s ≡ a +ℤ b) }
    ensures err { OnErr result (IsNoI128 (a +ℤ b)) }
{
    match a.checked_add(b) {
        Some(s) => Ok(s),
        None => Err(NoMemory),
    }
}

/// The number, or what is 0 less it. `NoMemory` only where that is no `i128`.
pub fn signed(minus: bool, z: i128) -> Result<i128, NoMemory>
    ensures value { IfOk result (λ s. s ≡ spec.signed minus z) }
    ensures err { OnErr result (IsNoI128 (spec.signed minus z)) }
{
    if !minus {
        return Ok(z);
    }
    match 0i128.checked_sub(z) {
        Some(s) => Ok(s),
        None => Err(NoMemory),
    }
}

/// The sum with one more number, or less it. `NoMemory` only where that is no `i128`.
pub fn added(total: i128, minus: bool, z: i128) -> Result<i128, NoMemory>
    ensures value { IfOk result (λ s. s ≡ total +ℤ spec.signed minus z) }
    ensures err { OnErr result (IsNoI128 (total +ℤ spec.signed minus z)) }
{
    if !minus {
        return sum(total, z);
    }
    match total.checked_sub(z) {
        Some(s) => Ok(s),
        None => Err(NoMemory),
    }
}

pub fn is_zero(z: i128) -> bool
    ensures { result ≡ spec.is_zero z }
{
    z == 0
}

pub fn is_one(z: i128) -> bool
    ensures { result ≡ spec.is_one z }
{
    z == 1
}
