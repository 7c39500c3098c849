ghost use Rattle.std.specs.Prelude.{◌≡◌, ◌<◌, ◌≤◌, map};
ghost use Rattle.cx_cword.specs.Words.{look_up};
ghost use Rattle.cx_cword.specs.Characters as spec;

use crate::integer::{digits, is_digit_of};
use crate::word::look_up;
use cx_base::{CInt, wrap};

const ESCAPES: [(&[u8], u8); 10] = [
    (b"n", 10),
    (b"t", 9),
    (b"r", 13),
    (b"a", 7),
    (b"b", 8),
    (b"f", 12),
    (b"v", 11),
    (b"\\", 92),
    (b"'", 39),
    (b"\"", 34),
];

fn escape_of(text: &[u8]) -> Option<u8>
    ensures { result ≡ look_up spec.escapes text.now }
{
    look_up(&ESCAPES, text)
}

#[tactic(auto, using(std::proofs::lemmas::Bool::Decides::nat_tests), unfolding(crate::specs::Characters::byte_in))]
fn byte_in(base: u8, most: usize, text: &[u8]) -> Option<u8>
    requires { (8 ≤ base) × (base ≤ 16) }
    ensures { result ≡ spec.byte_in base most text.now }
{
    let (value, rest) = digits(base, text);
    if 0 < text.len() && text.len() <= most && rest.len() == 0 && value < 256 {
        Some(value as u8)
    } else {
        None
    }
}

fn escaped(text: &[u8]) -> Option<u8>
    ensures { result ≡ spec.escaped text.now }
{
    match text {
        [e, rest @ ..] => {
            if is_digit_of(8, *e) {
                byte_in(8, 3, text)
            } else if *e == b'x' {
                byte_in(16, 2, rest)
            } else {
                escape_of(text)
            }
        }
        [] => None,
    }
}

fn marked(text: &[u8]) -> Option<u8>
    ensures { result ≡ spec.marked text.now }
{
    match text {
        [b, rest @ ..] => {
            if *b == b'\\' {
                escaped(rest)
            } else if rest.len() == 0 && 32 <= *b && *b <= 126 && *b != b'\'' {
                Some(*b)
            } else {
                None
            }
        }
        [] => None,
    }
}

/// The value of the character constant that the text is, if it is one of one byte (C11 6.4.4.4).
pub fn char_of(text: &[u8]) -> Option<i128>
    ensures { result ≡ spec.char_of text.now }
{
    if text.len() < 2 {
        return None;
    }
    let b = marked(&text[1..text.len() - 1])?;
    Some(wrap(
        CInt {
            size: 1,
            signed: true,
        },
        b as i128,
    ))
}
