ghost use Rattle.std.specs.Prelude.{◌<◌, length, IfSome};

use std::alloc::{AllocError, Global};

fn digit_value(b: u8) -> u8 {
    match b {
        b'0'..=b'9' => b - b'0',
        b'a'..=b'f' => b - b'a' + 10,
        b'A'..=b'F' => b - b'A' + 10,
        _ => 0,
    }
}

// The byte of these two digits.
fn byte_of(high: u8, low: u8) -> u8 {
    (digit_value(high) & 15) * 16 + (digit_value(low) & 15)
}

// The first byte that is meant, and what follows it.
fn first_byte(text: &[u8], escaped: bool) -> Option<(u8, &[u8])>
    ensures { IfSome result (λ p. length p.1.now < length text.now) }
{
    match text {
        [] => None,
        [b'\\', b'x', high, low, after @ ..] if escaped => Some((byte_of(*high, *low), after)),
        [b'\\', b'\\', after @ ..] if escaped => Some((b'\\', after)),
        [b, after @ ..] => Some((*b, after)),
    }
}

/// The bytes of a text and, where there is any, of a newline after it. In a text that is escaped `\xNN`
/// stands for the one byte of these digits, and `\\` for a backslash.
pub fn unescaped(alloc: Global, text: &str, escaped: bool) -> Result<Vec<u8>, AllocError> {
    let mut bytes = Vec::new(alloc);
    let mut rest = text.as_bytes();
    'each: while let Some((b, after)) = first_byte(rest, escaped) {
        bytes.push(b)?;
        rest = after;
    }
    if bytes.len() > 0 {
        bytes.push(b'\n')?;
    }
    Ok(bytes)
}
