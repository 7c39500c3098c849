//! Numbers of locals, of which those past 200 are given as 200.

ghost use Rattle.std.specs.Prelude.{ℕ, ◌≡◌, ◌+◌, min, max};

/// The sum, or 200 where it is more.
pub fn more(a: u32, n: u32) -> u32
    ensures exact { result ≡ min (a + n) 200 }
    ensures capped { (p : ℕ) → a ≡ min p 200 → result ≡ min (p + n) 200 }
{
    let sum = a.saturating_add(n);
    if sum < 200 { sum } else { 200 }
}

/// The greater of the two.
pub fn greater(a: u32, b: u32) -> u32
    ensures exact { result ≡ max a b }
    ensures capped { (p q : ℕ) → a ≡ min p 200 → b ≡ min q 200 → result ≡ min (max p q) 200 }
{
    if a < b { b } else { a }
}

/// The number, or 200 where it is more.
pub fn capped(n: usize) -> u32
    ensures { result ≡ min n 200 }
{
    if n < 200 { n as u32 } else { 200 }
}
