// Which texts are NAMEs, and what bytes tokens begin with.

ghost use Rattle.std.specs.Prelude.{◌≡◌};
ghost use Rattle.std.specs.Str.{bytes_eq};
ghost use Rattle.std.specs.List.{list_any, list_all};
ghost use Rattle.cx_form.specs.Tokens as spec;
ghost use Rattle.cx_form.specs.Grammar as grammar;

#[tactic(auto, using(std::proofs::lemmas::Bool::Decides::nat_tests), unfolding(crate::specs::Tokens::is_blank))]
pub fn is_blank(b: u8) -> bool
    ensures { result ≡ spec.is_blank b }
{
    9 <= b && b <= 13 || b == b' '
}

#[tactic(auto, using(std::proofs::lemmas::Bool::Decides::nat_tests), unfolding(crate::specs::Tokens::starts_name))]
pub fn starts_name(b: u8) -> bool
    ensures { result ≡ spec.starts_name b }
{
    b'A' <= b && b <= b'Z' || b'a' <= b && b <= b'z' || b == b'_' || b == b'$'
}

#[tactic(auto, using(std::proofs::lemmas::Bool::Decides::nat_tests), unfolding(crate::specs::Tokens::is_digit))]
pub fn is_digit(b: u8) -> bool
    ensures { result ≡ spec.is_digit b }
{
    b'0' <= b && b <= b'9'
}

#[tactic(auto, unfolding(crate::specs::Tokens::goes_on))]
pub fn goes_on(b: u8) -> bool
    ensures { result ≡ spec.goes_on b }
{
    starts_name(b) || is_digit(b)
}

#[tactic(auto, using(std::proofs::lemmas::Bool::Decides::nat_tests), unfolding(crate::specs::Tokens::is_mark))]
pub fn is_mark(b: u8) -> bool
    ensures { result ≡ spec.is_mark b }
{
    b == b'{'
        || b == b'}'
        || b == b'('
        || b == b')'
        || b == b';'
        || b == b':'
        || b == b','
        || b == b'*'
        || b == b'='
}

const RESERVED: [&str; 60] = [
    "auto",
    "break",
    "case",
    "char",
    "const",
    "continue",
    "default",
    "do",
    "double",
    "else",
    "enum",
    "extern",
    "float",
    "for",
    "goto",
    "if",
    "inline",
    "int",
    "long",
    "register",
    "restrict",
    "return",
    "short",
    "signed",
    "sizeof",
    "static",
    "struct",
    "switch",
    "typedef",
    "union",
    "unsigned",
    "void",
    "volatile",
    "while",
    "_Alignas",
    "_Alignof",
    "_Atomic",
    "_Bool",
    "_Complex",
    "_Generic",
    "_Imaginary",
    "_Noreturn",
    "_Static_assert",
    "_Thread_local",
    "region",
    "some",
    "of",
    "where",
    "cases",
    "when",
    "any",
    "val",
    "ptr",
    "null",
    "as",
    "fn",
    "alloc",
    "bytes",
    "zero",
    "global",
];

const GNU_WORDS: [&str; 39] = [
    "asm",
    "typeof",
    "__RTL",
    "__seg_fs",
    "__seg_gs",
    "__alignof",
    "__alignof__",
    "__asm",
    "__asm__",
    "__attribute",
    "__attribute__",
    "__auto_type",
    "__auto_type__",
    "__complex",
    "__complex__",
    "__const",
    "__const__",
    "__extension",
    "__extension__",
    "__imag",
    "__imag__",
    "__inline",
    "__inline__",
    "__int128",
    "__int128__",
    "__label",
    "__label__",
    "__real",
    "__real__",
    "__restrict",
    "__restrict__",
    "__signed",
    "__signed__",
    "__thread",
    "__thread__",
    "__typeof",
    "__typeof__",
    "__volatile",
    "__volatile__",
];

fn is_among(words: &[&str], text: &[u8]) -> bool
    ensures { result ≡ list_any (λ word. bytes_eq text.now word.now) words.now }
{
    words.iter().any(|word| text == word.as_bytes())
}

#[tactic(auto, unfolding(crate::specs::Grammar::reserved))]
fn is_reserved(text: &[u8]) -> bool
    ensures { result ≡ list_any (bytes_eq text.now) grammar.reserved }
{
    is_among(&RESERVED, text)
}

#[tactic(auto, unfolding(crate::specs::Grammar::gnu_words))]
fn is_gnu_word(text: &[u8]) -> bool
    ensures { result ≡ list_any (bytes_eq text.now) grammar.gnu_words }
{
    is_among(&GNU_WORDS, text)
}

fn are_all_digits(text: &[u8]) -> bool
    ensures { result ≡ list_all spec.is_digit text.now }
{
    text.iter().all(|b| is_digit(*b))
}

#[tactic(auto, using(std::proofs::lemmas::Bool::Decides::nat_tests))]
fn are_digits(text: &[u8]) -> bool
    ensures { result ≡ grammar.are_digits text.now }
{
    0 < text.len() && are_all_digits(text)
}

fn is_stem_with_digits(stem: &[u8], text: &[u8]) -> bool
    ensures { result ≡ grammar.is_stem_with_digits stem.now text.now }
{
    if text.len() < stem.len() {
        return false;
    }
    let (front, digits) = text.split_at(stem.len());
    front == stem && are_digits(digits)
}

fn is_sized(text: &[u8]) -> bool
    ensures { result ≡ grammar.is_sized text.now }
{
    is_stem_with_digits(b"any", text)
        || is_stem_with_digits(b"u", text)
        || is_stem_with_digits(b"s", text)
}

pub fn is_name(text: &[u8]) -> bool
    ensures { result ≡ grammar.is_name text.now }
{
    match text {
        [] => false,
        [b, ..] => {
            starts_name(*b) && !is_reserved(text) && !is_gnu_word(text) && !is_sized(text)
        }
    }
}
