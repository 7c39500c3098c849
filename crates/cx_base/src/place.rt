ghost use Rattle.std.specs.Prelude.{◌≡◌, ◌≤◌, ◌^◌, length, count_by, not, reverse, take_while};
ghost use Rattle.cx_base.specs.Place.{line_of, column_of, is_newline};

/// How many bytes of the text are newlines.
fn newlines(text: &[u8]) -> usize
    ensures { result ≡ count_by is_newline text.now }
{
    text.iter().filter(|b| **b == b'\n').count()
}

/// How many bytes stand after the last newline of the text, all where there is none.
fn since_newline(text: &[u8]) -> usize
    ensures { result ≡ length (take_while (λ b. not (is_newline b)) (reverse text.now)) }
{
    text.iter().rev().take_while(|b| **b != b'\n').count()
}

/// The line and the column of the byte at the offset `at`, both counted from 1: the line is one
/// more than the number of newlines (bytes 10) before `at`, and the column one more than the number
/// of bytes since the last of these. `at` may be the length of the text, its end.
#[tactic(auto, using(crate::proofs::Places::last_line))]
pub fn place_of(text: &[u8], at: u32) -> (u32, u32)
    requires inside { at ≤ length text.now }
    requires small { length text.now ≤ 2 ^ 24 }
    ensures line { result.0 ≡ line_of text.now at }
    ensures column { result.1 ≡ column_of text.now at }
{
    let before = &text[..at as usize];
    (
        newlines(before) as u32 + 1,
        since_newline(before) as u32 + 1,
    )
}

/// From the place of the byte at the offset `from`, as `place_of` counts it, to the place of the
/// byte at the later offset `at`: only the bytes between the two are read. Both lines and columns
/// are counted from 1, and `at` may be the length of the text, its end.
pub fn place_after(text: &[u8], from: u32, place: (u32, u32), at: u32) -> (u32, u32)
    requires later { from ≤ at }
    requires inside { at ≤ length text.now }
    requires small { length text.now ≤ 2 ^ 24 }
    requires line { place.0 ≡ line_of text.now from }
    requires column { place.1 ≡ column_of text.now from }
    ensures line { result.0 ≡ line_of text.now at }
    ensures column { result.1 ≡ column_of text.now at }
{
    let between = &text[from as usize..at as usize];
    let lines = newlines(between) as u32;
    let since = since_newline(between);
    let before = if since == between.len() { place.1 } else { 1 };
    (place.0 + lines, before + since as u32)
}
