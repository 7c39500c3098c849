use cx_base::Span;
use cx_cread::read_unit;
use cx_lex::lex;
use cx_tread::{TypeFault, read_types};
use std::alloc::{AllocError, Global};

/// A case: a C file, a type file, and what is expected of it.
#[derive(Clone, Copy)]
pub struct Case<'a> {
    pub title: &'a str,
    pub c: &'a str,
    pub types: &'a str,
    pub escaped: bool,
    pub expected: &'a str,
}

fn text_of(alloc: Global, text: &str) -> Result<String, AllocError> {
    let mut copy = String::new(alloc);
    copy.push_str(text)?;
    Ok(copy)
}

fn spanned(alloc: Global, word: &str, span: Span) -> Result<String, AllocError> {
    format!(in alloc; "{word} {} {}", span.first, span.past)
}

fn fault_text(alloc: Global, e: TypeFault) -> Result<String, AllocError> {
    match e {
        TypeFault::OpenComment(at) => format!(in alloc; "OpenComment {at}"),
        TypeFault::OpenText(at) => format!(in alloc; "OpenText {at}"),
        TypeFault::BadByte(at) => format!(in alloc; "BadByte {at}"),
        TypeFault::TooDeep(span) => spanned(alloc, "TooDeep", span),
        TypeFault::Syntax(span) => spanned(alloc, "Syntax", span),
        TypeFault::UnknownName(span) => spanned(alloc, "UnknownName", span),
        TypeFault::Doubled(span) => spanned(alloc, "Doubled", span),
        TypeFault::Arity(span) => spanned(alloc, "Arity", span),
        TypeFault::Undetermined(span) => spanned(alloc, "Undetermined", span),
        TypeFault::BadSize(span) => spanned(alloc, "BadSize", span),
        TypeFault::NoMemory => text_of(alloc, "no memory"),
    }
}

/// What the type file is read as, among what the C file declares.
pub fn answer(alloc: Global, c: &str, types: &[u8]) -> Result<String, AllocError> {
    let c = c.as_bytes();
    if c.len() > 16777216 || types.len() > 16777216 {
        return text_of(alloc, "too long");
    }
    let Ok(tokens) = lex(alloc, c) else {
        return text_of(alloc, "no tokens of the C file");
    };
    let Ok(unit) = read_unit(alloc, c, tokens.as_slice()) else {
        return text_of(alloc, "no unit");
    };
    match read_types(alloc, types, &unit) {
        Ok(_) => text_of(alloc, "tree"),
        Err(e) => fault_text(alloc, e),
    }
}

/// Whether the answer is the one that is expected.
pub fn is_expected(found: &str, expected: &str) -> bool {
    found == expected.trim_end()
}
