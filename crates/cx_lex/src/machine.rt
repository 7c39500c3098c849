ghost use Rattle.std.specs.Prelude.{◌≡◌, ◌<◌, ◌≤◌, ◌^◌, ◌+◌, ◌++◌, ◌==◌, ◌&&◌, take, length, codes, Ok, Some, None, IfOk, OnOk};
ghost use Rattle.cx_base.specs.declared.token.TokenKind.TheVariants as kind;
ghost use Rattle.cx_lex.specs.Machine as spec;
ghost use Rattle.cx_lex.specs.Lexed.{Answers, name_len as len_of_name, mark_kind as kind_of, token as token_of};
ghost use Rattle.std.specs.Str.{bytes_eq};

use crate::bytes::{
    in_name, in_number, is_blank, is_digit, is_digraph, is_double, is_exponent, is_indent, is_mark,
    is_single, is_triple, starts_name,
};
use crate::directive::{is_refused, is_same};
use crate::fault::LexFault;
use crate::mode::{Mode, State, Turn};
use cx_base::{List, NoMemory, Span, Token, TokenKind};

/// The token between two places.
fn token(kind: TokenKind, first: u32, past: u32) -> Token
    requires { first ≤ past }
    ensures { result ≡ token_of kind first past }
{
    Token {
        span: Span { first, past },
        kind,
    }
}

/// How many bytes at the front go on with a name.
fn name_len(text: &[u8]) -> usize
    ensures value { result ≡ len_of_name text.now }
    ensures within { result ≤ length text.now }
{
    let mut rest = text;
    let mut n = 0;
    while let [b, after @ ..] = rest {
        if !in_name(*b) {
            return n;
        }
        n += 1;
        rest = after;
    }
    n
}

/// Whether a byte that begins a name begins `_Pragma`.
fn begins_operator(b: u8, rest: &[u8]) -> bool
    ensures { result ≡ ((b == 95) && bytes_eq (take (len_of_name rest.now) rest.now) (codes "Pragma")) }
{
    b == b'_' && is_same(&rest[..name_len(rest)], b"Pragma")
}

/// The mode that a byte at a place begins which is in no piece before it, and has these bytes
/// after it.
#[tactic(auto, unfolding(crate::specs::Machine::begin))]
fn begin(fresh: bool, at: u32, b: u8, rest: &[u8]) -> Result<State, LexFault>
    ensures value { result ≡ spec.begin fresh at b rest.now }
    ensures within { IfOk result (λ s. s.start + spec.least s.mode ≤ at + 1) }
{
    let mode = if b == b'\n' {
        Mode::Blank(true)
    } else if is_blank(b) {
        Mode::Blank(fresh && is_indent(b))
    } else if fresh && b == b'#' {
        if is_refused(rest) {
            return Err(LexFault::BadByte(at));
        }
        Mode::Line
    } else if starts_name(b) {
        if begins_operator(b, rest) {
            return Err(LexFault::BadByte(at));
        }
        Mode::Name
    } else if is_digit(b) {
        Mode::Number(false)
    } else if is_mark(b) {
        Mode::Quoted(b, false)
    } else if is_single(b) {
        Mode::One(b)
    } else {
        return Err(LexFault::BadByte(at));
    };
    Ok(State { mode, start: at })
}

/// The same after the tokens that the byte ends.
fn begun(
    one: Option<Token>,
    two: Option<Token>,
    fresh: bool,
    at: u32,
    b: u8,
    rest: &[u8],
) -> Result<Turn, LexFault>
    ensures value { result ≡ spec.begun one two (spec.begin fresh at b rest.now) }
    ensures within { IfOk result (λ t. t.next.start + spec.least t.next.mode ≤ at + 1) }
{
    let next = begin(fresh, at, b, rest)?;
    Ok(Turn { one, two, next })
}

/// A byte that ends at most this token, and the state after it.
fn goes(one: Option<Token>, mode: Mode, start: u32) -> Result<Turn, LexFault>
    ensures { result ≡ Ok (record { one = one; two = None; next = spec.at_mode mode start }) }
{
    Ok(Turn {
        one,
        two: None,
        next: State { mode, start },
    })
}

/// A byte after one that begins a punctuator or a comment.
#[tactic(auto, unfolding(crate::specs::Machine::after_one))]
fn after_one(
    before: Option<Token>,
    a: u8,
    start: u32,
    at: u32,
    b: u8,
    rest: &[u8],
) -> Result<Turn, LexFault>
    requires { start + 1 ≤ at }
    ensures value { result ≡ spec.after_one before a start at b rest.now }
    ensures within { IfOk result (λ t. t.next.start + spec.least t.next.mode ≤ at + 1) }
{
    if a == b'.' && is_digit(b) {
        goes(before, Mode::Number(false), start)
    } else if a == b'/' && b == b'/' {
        goes(before, Mode::Line, start)
    } else if a == b'/' && b == b'*' {
        goes(before, Mode::Comment(false), start)
    } else if is_digraph(a, b) {
        Err(LexFault::BadByte(start))
    } else if is_double(a, b) || a == b'.' && b == b'.' {
        goes(before, Mode::Two(a, b), start)
    } else {
        let punct = token(TokenKind::Punct, start, at);
        begun(before, Some(punct), false, at, b, rest)
    }
}

/// A byte after two that are a punctuator or two points.
#[tactic(auto, unfolding(crate::specs::Machine::after_two))]
fn after_two(a: u8, c: u8, start: u32, at: u32, b: u8, rest: &[u8]) -> Result<Turn, LexFault>
    requires order { start + 2 ≤ at }
    requires room { at < 2 ^ 24 }
    ensures value { result ≡ spec.after_two a c start at b rest.now }
    ensures within { IfOk result (λ t. t.next.start + spec.least t.next.mode ≤ at + 1) }
{
    if is_triple(a, c, b) {
        let punct = token(TokenKind::Punct, start, at + 1);
        goes(Some(punct), Mode::Blank(false), at)
    } else if is_double(a, c) {
        let punct = token(TokenKind::Punct, start, at);
        begun(Some(punct), None, false, at, b, rest)
    } else {
        let point = token(TokenKind::Punct, start, start + 1);
        after_one(Some(point), c, start + 1, at, b, rest)
    }
}

/// What begins with this mark.
fn mark_kind(mark: u8) -> TokenKind
    ensures { result ≡ kind_of mark }
{
    if mark == b'"' {
        TokenKind::Text
    } else {
        TokenKind::Char
    }
}

/// A byte between quotation marks.
#[tactic(auto, unfolding(crate::specs::Machine::in_quotes))]
fn in_quotes(mark: u8, escaped: bool, start: u32, at: u32, b: u8) -> Result<Turn, LexFault>
    requires order { start ≤ at }
    requires room { at < 2 ^ 24 }
    ensures value { result ≡ spec.in_quotes mark escaped start at b }
    ensures within { IfOk result (λ t. t.next.start + spec.least t.next.mode ≤ at + 1) }
{
    if escaped {
        goes(None, Mode::Quoted(mark, false), start)
    } else if b == mark {
        let quoted = token(mark_kind(mark), start, at + 1);
        goes(Some(quoted), Mode::Blank(false), at)
    } else if b == b'\n' {
        Err(LexFault::OpenText(start))
    } else {
        goes(None, Mode::Quoted(mark, b == b'\\'), start)
    }
}

/// One byte that has these after it: the tokens that it ends, and the state after it.
#[tactic(auto, unfolding(crate::specs::Machine::turn))]
pub fn step(state: State, at: u32, b: u8, rest: &[u8]) -> Result<Turn, LexFault>
    requires order { state.start + spec.least state.mode ≤ at }
    requires room { at < 2 ^ 24 }
    ensures value { result ≡ spec.turn state.mode state.start at b rest.now }
    ensures within { IfOk result (λ t. t.next.start + spec.least t.next.mode ≤ at + 1) }
{
    let start = state.start;
    match state.mode {
        Mode::Blank(fresh) => begun(None, None, fresh, at, b, rest),
        Mode::Name if in_name(b) => goes(None, Mode::Name, start),
        Mode::Name => {
            let name = token(TokenKind::Name, start, at);
            begun(Some(name), None, false, at, b, rest)
        }
        Mode::Number(exponent) if in_number(exponent, b) => {
            goes(None, Mode::Number(is_exponent(b)), start)
        }
        Mode::Number(_) => {
            let number = token(TokenKind::Number, start, at);
            begun(Some(number), None, false, at, b, rest)
        }
        Mode::Quoted(mark, escaped) => in_quotes(mark, escaped, start, at, b),
        Mode::One(a) => after_one(None, a, start, at, b, rest),
        Mode::Two(a, c) => after_two(a, c, start, at, b, rest),
        Mode::Comment(star) if star && b == b'/' => goes(None, Mode::Blank(false), at),
        Mode::Comment(_) => goes(None, Mode::Comment(b == b'*'), start),
        Mode::Line if b == b'\n' => goes(None, Mode::Blank(true), at),
        Mode::Line => goes(None, Mode::Line, start),
    }
}

/// Adds a token, if there is one.
pub fn add(tokens: &mut List<Token>, token: Option<Token>) -> Result<(), NoMemory>
    ensures { OnOk result (tokens.new ≡ tokens.old ++ spec.listed token) }
{
    if let Some(token) = token {
        tokens.push(token)?;
    }
    Ok(())
}

/// The end of the text.
#[tactic(auto, unfolding(crate::specs::Machine::end))]
pub fn finish(tokens: List<Token>, state: State, at: u32) -> Result<List<Token>, LexFault>
    requires order { state.start + spec.least state.mode ≤ at }
    requires room { at ≤ 2 ^ 24 }
    ensures { Answers result (spec.with_front tokens (spec.end state.mode state.start at)) }
{
    let mut tokens = tokens;
    let start = state.start;
    match state.mode {
        Mode::Blank(_) | Mode::Line => {}
        Mode::Name => tokens.push(token(TokenKind::Name, start, at))?,
        Mode::Number(_) => tokens.push(token(TokenKind::Number, start, at))?,
        Mode::One(_) => tokens.push(token(TokenKind::Punct, start, at))?,
        Mode::Two(a, c) if is_double(a, c) => tokens.push(token(TokenKind::Punct, start, at))?,
        Mode::Two(_, _) => {
            tokens.push(token(TokenKind::Punct, start, start + 1))?;
            tokens.push(token(TokenKind::Punct, start + 1, at))?;
        }
        Mode::Quoted(_, _) => return Err(LexFault::OpenText(start)),
        Mode::Comment(_) => return Err(LexFault::OpenComment(start)),
    }
    Ok(tokens)
}
