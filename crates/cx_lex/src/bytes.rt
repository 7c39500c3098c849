ghost use Rattle.std.specs.Prelude.{◌≡◌};
ghost use Rattle.cx_lex.specs.Bytes as spec;

/// White space (C11 6.4): tab, newline, vertical tab, form feed, carriage return and space.
#[tactic(auto, using(std::proofs::lemmas::Bool::Decides::nat_tests), unfolding(crate::specs::Bytes::is_blank))]
pub fn is_blank(b: u8) -> bool
    ensures { result ≡ spec.is_blank b }
{
    9 <= b && b <= 13 || b == b' '
}

/// A space or a tab, which may stand before the `#` of a line.
#[tactic(auto, using(std::proofs::lemmas::Bool::Decides::nat_tests), unfolding(crate::specs::Bytes::is_indent))]
pub fn is_indent(b: u8) -> bool
    ensures { result ≡ spec.is_indent b }
{
    b == b'\t' || b == b' '
}

/// A letter, `_` or `$`.
#[tactic(auto, using(std::proofs::lemmas::Bool::Decides::nat_tests), unfolding(crate::specs::Bytes::starts_name))]
pub fn starts_name(b: u8) -> bool
    ensures { result ≡ spec.starts_name b }
{
    b'A' <= b && b <= b'Z' || b'a' <= b && b <= b'z' || b == b'_' || b == b'$'
}

/// A digit.
#[tactic(auto, using(std::proofs::lemmas::Bool::Decides::nat_tests), unfolding(crate::specs::Bytes::is_digit))]
pub fn is_digit(b: u8) -> bool
    ensures { result ≡ spec.is_digit b }
{
    b'0' <= b && b <= b'9'
}

/// A byte that goes on with a name (C11 6.4.2.1).
#[tactic(auto, using(std::proofs::lemmas::Bool::Decides::nat_tests), unfolding(crate::specs::Bytes::in_name))]
pub fn in_name(b: u8) -> bool
    ensures { result ≡ spec.in_name b }
{
    starts_name(b) || is_digit(b)
}

/// A letter that a sign may follow in a number.
#[tactic(auto, using(std::proofs::lemmas::Bool::Decides::nat_tests), unfolding(crate::specs::Bytes::is_exponent))]
pub fn is_exponent(b: u8) -> bool
    ensures { result ≡ spec.is_exponent b }
{
    b == b'e' || b == b'E' || b == b'p' || b == b'P'
}

/// A byte that goes on with a number (C11 6.4.8), directly after an exponent's letter or not.
#[tactic(auto, using(std::proofs::lemmas::Bool::Decides::nat_tests), unfolding(crate::specs::Bytes::in_number))]
pub fn in_number(exponent: bool, b: u8) -> bool
    ensures { result ≡ spec.in_number exponent b }
{
    in_name(b) && b != b'$' || b == b'.' || exponent && (b == b'+' || b == b'-')
}

/// The mark of a string literal or of a character constant.
#[tactic(auto, using(std::proofs::lemmas::Bool::Decides::nat_tests), unfolding(crate::specs::Bytes::is_mark))]
pub fn is_mark(b: u8) -> bool
    ensures { result ≡ spec.is_mark b }
{
    b == b'"' || b == b'\''
}

/// A punctuator of one byte (C11 6.4.6), but for `#`.
#[tactic(auto, using(std::proofs::lemmas::Bool::Decides::nat_tests), unfolding(crate::specs::Bytes::is_single))]
pub fn is_single(a: u8) -> bool
    ensures { result ≡ spec.is_single a }
{
    a == b'!'
        || b'%' <= a && a <= b'&'
        || b'(' <= a && a <= b'/'
        || b':' <= a && a <= b'?'
        || a == b'['
        || b']' <= a && a <= b'^'
        || b'{' <= a && a <= b'~'
}

/// A punctuator of two bytes.
#[tactic(auto, using(std::proofs::lemmas::Bool::Decides::nat_tests), unfolding(crate::specs::Bytes::is_double))]
pub fn is_double(a: u8, b: u8) -> bool
    ensures { result ≡ spec.is_double a b }
{
    a == b'-' && b == b'>'
        || a == b && (a == b'+' || a == b'-' || a == b'<' || a == b'>' || a == b'&' || a == b'|')
        || b == b'='
            && (a == b'<'
                || a == b'>'
                || a == b'='
                || a == b'!'
                || a == b'+'
                || a == b'-'
                || a == b'*'
                || a == b'/'
                || a == b'%'
                || a == b'&'
                || a == b'|'
                || a == b'^')
}

/// A punctuator of three bytes.
#[tactic(auto, using(std::proofs::lemmas::Bool::Decides::nat_tests), unfolding(crate::specs::Bytes::is_triple))]
pub fn is_triple(a: u8, b: u8, c: u8) -> bool
    ensures { result ≡ spec.is_triple a b c }
{
    a == b && (a == b'.' && c == b'.' || (a == b'<' || a == b'>') && c == b'=')
}

/// A digraph (C11 6.4.6): another spelling of a bracket, a brace or `#`.
#[tactic(auto, using(std::proofs::lemmas::Bool::Decides::nat_tests), unfolding(crate::specs::Bytes::is_digraph))]
pub fn is_digraph(a: u8, b: u8) -> bool
    ensures { result ≡ spec.is_digraph a b }
{
    a == b'<' && (b == b':' || b == b'%')
        || b == b'>' && (a == b':' || a == b'%')
        || a == b'%' && b == b':'
}
