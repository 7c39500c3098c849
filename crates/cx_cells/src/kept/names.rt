ghost use Rattle.std.specs.Prelude.{◌≡◌, ◌^◌, ◌<◌, ◌↔◌, IsTrue, All, length, slice_get, IsSomeAnd};
ghost use Rattle.cx_cells.specs.Kept.{is_letter, is_name_byte, IsName};

use cx_base::List;

fn is_letter(b: u8) -> bool
    ensures { result ≡ is_letter b }
{
    (97 <= b && b <= 122) || (65 <= b && b <= 90) || b == 95 || b == 36
}

fn is_name_byte(b: u8) -> bool
    ensures { result ≡ is_name_byte b }
{
    is_letter(b) || (48 <= b && b <= 57)
}

fn begins_with_letter(text: &[u8]) -> bool
    ensures { IsTrue result ↔ IsSomeAnd (slice_get text.now 0) (λ b. IsTrue (is_letter b)) }
{
    match text.first() {
        Some(b) => is_letter(*b),
        None => false,
    }
}

fn is_name(text: &[u8]) -> bool
    ensures { IsTrue result ↔ IsName text.now }
{
    begins_with_letter(text) && text.iter().all(|b| is_name_byte(*b))
}

/// Whether each is a name.
pub(crate) fn are_names(names: &[List<u8>]) -> bool
    ensures { IsTrue result ↔ All IsName names.now }
{
    names.iter().all(|n| is_name(n.as_slice()))
}

/// Whether each has fewer than 2^32 bytes.
pub(crate) fn are_short(names: &[List<u8>]) -> bool
    ensures { IsTrue result ↔ All (λ n. length n < 2 ^ 32) names.now }
{
    names.iter().all(|n| n.len() < 4294967296)
}
