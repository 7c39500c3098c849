ghost use Rattle.std.specs.Prelude.{◌≡◌, ◌≤◌, false, length, map, take};
ghost use Rattle.std.specs.List.{list_any};
ghost use Rattle.std.specs.Str.{bytes_eq};
ghost use Rattle.cx_lex.specs.Directives as spec;
ghost use Rattle.cx_lex.specs.Lexed.{line_len as len_of_line};

use crate::bytes::is_blank;

/// Whether the bytes begin with this one.
fn begins(c: u8, bytes: &[u8]) -> bool
    ensures { result ≡ spec.begins c bytes.now }
{
    match bytes {
        [b, ..] => *b == c,
        [] => false,
    }
}

/// What stands after the white space and the comments at the front of the line.
fn after_blanks(line: &[u8]) -> &[u8]
    ensures { result.now ≡ spec.after_blanks false false line.now }
{
    let mut rest = line;
    let mut inside = false;
    let mut mark = false;
    while let [b, after @ ..] = rest {
        if mark {
            mark = false;
        } else if inside {
            mark = *b == b'*' && begins(b'/', after);
            inside = !mark;
        } else if is_blank(*b) {
            mark = false;
        } else if *b == b'/' && begins(b'*', after) {
            inside = true;
            mark = true;
        } else if *b == b'/' && begins(b'/', after) {
            return &[];
        } else {
            return rest;
        }
        rest = after;
    }
    &[]
}

/// How many bytes stand before the next white space or comment.
fn word_len(line: &[u8]) -> usize
    ensures value { result ≡ spec.word_len line.now }
    ensures within { result ≤ length line.now }
{
    let mut rest = line;
    let mut n = 0;
    while let [b, after @ ..] = rest {
        let next = after.first().copied();
        if is_blank(*b) || *b == b'/' && (next == Some(b'*') || next == Some(b'/')) {
            return n;
        }
        n += 1;
        rest = after;
    }
    n
}

/// The next word of the line, and what stands after it.
fn split_word(line: &[u8]) -> (&[u8], &[u8])
    ensures word { result.0.now ≡ spec.next_word line.now }
    ensures after { result.1.now ≡ spec.after_word line.now }
{
    let line = after_blanks(line);
    let n = word_len(line);
    (&line[..n], &line[n..])
}

/// Whether two texts have the same bytes.
pub fn is_same(a: &[u8], b: &[u8]) -> bool
    ensures { result ≡ bytes_eq a.now b.now }
{
    a == b
}

/// Whether the word after `pragma` changes no layout, whatever stands after it.
fn is_harmless_word(word: &[u8]) -> bool
    ensures { result ≡ list_any (bytes_eq word.now) spec.harmless_words }
{
    is_same(word, b"once") || is_same(word, b"STDC") || is_same(word, b"message")
}

/// Whether the word after `GCC` changes no layout.
fn is_harmless_gcc_word(word: &[u8]) -> bool
    ensures { result ≡ list_any (bytes_eq word.now) spec.harmless_gcc_words }
{
    is_same(word, b"diagnostic")
        || is_same(word, b"visibility")
        || is_same(word, b"system_header")
        || is_same(word, b"poison")
        || is_same(word, b"warning")
        || is_same(word, b"error")
        || is_same(word, b"dependency")
        || is_same(word, b"unroll")
        || is_same(word, b"ivdep")
}

/// Whether the word after `clang` changes no layout.
fn is_harmless_clang_word(word: &[u8]) -> bool
    ensures { result ≡ list_any (bytes_eq word.now) spec.harmless_clang_words }
{
    is_same(word, b"diagnostic") || is_same(word, b"system_header")
}

/// Whether the words after `pragma` change no layout.
fn is_harmless(line: &[u8]) -> bool
    ensures { result ≡ spec.is_harmless line.now }
{
    let (first, rest) = split_word(line);
    let (second, _) = split_word(rest);
    is_harmless_word(first)
        || is_same(first, b"GCC") && is_harmless_gcc_word(second)
        || is_same(first, b"clang") && is_harmless_clang_word(second)
}

/// Whether the line is a pragma that may change layouts.
fn is_other_pragma(line: &[u8]) -> bool
    ensures { result ≡ spec.is_other_pragma line.now }
{
    let (word, rest) = split_word(line);
    is_same(word, b"pragma") && !is_harmless(rest)
}

/// Whether there is no `*/` after the last `/*` of the line.
fn leaves_comment(line: &[u8]) -> bool
    ensures { result ≡ spec.leaves_comment false false line.now }
{
    let mut rest = line;
    let mut inside = false;
    let mut star = false;
    while let [b, after @ ..] = rest {
        if star {
            star = false;
        } else if *b == b'/' && begins(b'*', after) {
            inside = true;
            star = true;
        } else {
            inside = inside && !(*b == b'*' && begins(b'/', after));
        }
        rest = after;
    }
    inside
}

/// Whether the last byte of the line other than white space is a backslash.
fn goes_on(line: &[u8]) -> bool
    ensures { result ≡ spec.goes_on false line.now }
{
    let mut rest = line;
    let mut found = false;
    while let [b, after @ ..] = rest {
        if !is_blank(*b) {
            found = *b == b'\\';
        }
        rest = after;
    }
    found
}

/// How many bytes stand before the end of the line.
fn line_len(text: &[u8]) -> usize
    ensures value { result ≡ len_of_line text.now }
    ensures within { result ≤ length text.now }
{
    let mut rest = text;
    let mut n = 0;
    while let [b, after @ ..] = rest {
        if *b == b'\n' {
            return n;
        }
        n += 1;
        rest = after;
    }
    n
}

/// Whether a line that goes on with this text after its `#` is not passed over.
pub fn is_refused(text: &[u8]) -> bool
    ensures { result ≡ spec.is_refused (take (len_of_line text.now) text.now) }
{
    let line = &text[..line_len(text)];
    is_other_pragma(line) || leaves_comment(line) || goes_on(line)
}
