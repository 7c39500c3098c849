use crate::words::lexemes_of;
use cx_base::List;
use cx_reader::{Read, Stop};
use cx_tlin::{lin, lins, name, names, part, relation, relations};
use cx_tsyn::{Lin, LinPart, Relation, SRel, Word};
use cx_tword::TypeLexeme;
use std::alloc::{AllocError, Global};
use std::process::Abort;
use std::test::Fail;

fn joined(alloc: Global, parts: &[&str]) -> Result<String, AllocError> {
    let mut text = String::new(alloc);
    for part in parts {
        text.push_str(part)?;
    }
    Ok(text)
}

fn word_text(word: &Word) -> &str {
    match std::str::from_utf8(word.text.as_slice()) {
        Ok(text) => text,
        Err(_) => "?",
    }
}

fn part_text(alloc: Global, part: &LinPart) -> Result<String, AllocError> {
    match part {
        LinPart::Number(z) => format!(in alloc; "{z}"),
        LinPart::Times(z, word) => {
            let word = word_text(word);
            format!(in alloc; "{z}*{word}")
        }
        LinPart::Symbol(word) => joined(alloc, &[word_text(word)]),
    }
}

fn sign_text(minus: bool) -> &'static str {
    if minus { "-" } else { "+" }
}

/// The parts with their signs, behind the place from which and up to which it stands.
fn lin_text(alloc: Global, lin: &Lin) -> Result<String, AllocError> {
    let first = lin.span.first;
    let past = lin.span.past;
    let mut text = format!(in alloc; "[{first} {past}]")?;
    text.push_str(sign_text(lin.negative))?;
    let begin = part_text(alloc, &lin.first)?;
    text.push_str(&begin)?;
    for (minus, part) in lin.rest.as_slice() {
        let part = part_text(alloc, part)?;
        text.push_str(sign_text(*minus))?;
        text.push_str(&part)?;
    }
    Ok(text)
}

fn rel_text(rel: SRel) -> &'static str {
    match rel {
        SRel::Eq => "==",
        SRel::Ne => "!=",
        SRel::Lt => "<",
        SRel::Le => "<=",
        SRel::Gt => ">",
        SRel::Ge => ">=",
    }
}

fn relation_text(alloc: Global, r: &Relation) -> Result<String, AllocError> {
    let left = lin_text(alloc, &r.left)?;
    let right = lin_text(alloc, &r.right)?;
    joined(alloc, &[&left, " ", rel_text(r.rel), " ", &right])
}

fn shown_relations(
    alloc: Global,
    read: &Read<TypeLexeme, List<Relation>>,
) -> Result<String, AllocError> {
    let mut shown = String::new(alloc);
    for r in read.tree.as_slice() {
        let one = relation_text(alloc, r)?;
        shown.push_str(&one)?;
        shown.push_str(", ")?;
    }
    let left = read.rest.len();
    let left = format!(in alloc; "{left}")?;
    shown.push_str(&left)?;
    Ok(shown)
}

/// Relations with commas between them, and how many lexemes are left; or how many are left from the
/// first on that cannot go on.
fn relations_text(rt: &impl Abort, alloc: Global, text: &str) -> Result<String, Fail> {
    let lexemes = lexemes_of(rt, alloc, text)?;
    match relations(alloc, text.as_bytes(), lexemes.as_slice()) {
        Err(Stop::Unread(left)) => Ok(format!(in alloc; "unread {left}")?),
        Err(Stop::NoMemory) => panic!(rt; "no memory"),
        Ok(read) => Ok(shown_relations(alloc, &read)?),
    }
}

/// Texts, and what is read of them as relations with how many lexemes after them.
const RELATIONS: [(&str, &str); 17] = [
    ("n == 1", "[0 1]+n == [5 6]+1, 0"),
    ("- 3*n + m - 2 <= 0x10", "[0 13]-3*n+m-2 <= [17 21]+16, 0"),
    ("a<b, c>d;", "[0 1]+a < [2 3]+b, [5 6]+c > [7 8]+d, 1"),
    ("a >= - b where", "[0 1]+a >= [5 8]-b, 1"),
    ("int != 0", "[0 3]+int != [7 8]+0, 0"),
    ("n - n == m + -1", "unread 2"),
    ("2 * 3 == n", "unread 3"),
    ("n * 2 == 1", "unread 4"),
    ("n == 3 * 4", "unread 1"),
    ("n", "unread 0"),
    ("n = 1", "unread 2"),
    ("n == 1,", "unread 0"),
    ("n == 1, 2", "unread 0"),
    ("n == 1, 2;", "unread 1"),
    ("- - n == 1", "unread 4"),
    ("region == 1", "unread 3"),
    ("", "unread 0"),
];

#[test]
fn relations_are_read(rt: HostRuntime) -> Result<(), Fail> {
    for case in &RELATIONS {
        let shown = relations_text(&rt, rt.alloc(), case.0)?;
        assert!(&rt; shown.as_str() == case.1, "{}: {shown}", case.0);
    }
    Ok(())
}

#[test]
fn a_name_is_read(rt: HostRuntime) -> Result<(), Fail> {
    let lexemes = lexemes_of(&rt, rt.alloc(), "n, m of")?;
    let Ok(one) = name(rt.alloc(), b"n, m of", lexemes.as_slice()) else {
        panic!(&rt; "no name");
    };
    assert!(&rt; word_text(&one.tree) == "n" && one.rest.len() == 3);
    Ok(())
}

#[test]
fn a_part_is_read(rt: HostRuntime) -> Result<(), Fail> {
    let lexemes = lexemes_of(&rt, rt.alloc(), "4*k < 2")?;
    let Ok(first) = part(rt.alloc(), b"4*k < 2", lexemes.as_slice()) else {
        panic!(&rt; "no part");
    };
    assert!(&rt; first.rest.len() == 2);
    Ok(())
}

#[test]
fn a_form_is_read(rt: HostRuntime) -> Result<(), Fail> {
    let lexemes = lexemes_of(&rt, rt.alloc(), "4*k - 1 < 2")?;
    let Ok(form) = lin(rt.alloc(), b"4*k - 1 < 2", lexemes.as_slice()) else {
        panic!(&rt; "no linear form");
    };
    assert!(&rt; form.tree.span.past == 7 && form.rest.len() == 2);
    Ok(())
}

#[test]
fn a_relation_is_read(rt: HostRuntime) -> Result<(), Fail> {
    let lexemes = lexemes_of(&rt, rt.alloc(), "4*k < 2, 1")?;
    let Ok(one) = relation(rt.alloc(), b"4*k < 2, 1", lexemes.as_slice()) else {
        panic!(&rt; "no relation");
    };
    assert!(&rt; one.rest.len() == 2);
    Ok(())
}

#[test]
fn forms_are_read(rt: HostRuntime) -> Result<(), Fail> {
    let lexemes = lexemes_of(&rt, rt.alloc(), "n, m, 4*k < 2")?;
    let Ok(three) = lins(rt.alloc(), b"n, m, 4*k < 2", lexemes.as_slice()) else {
        panic!(&rt; "no linear forms");
    };
    assert!(&rt; three.tree.len() == 3 && three.rest.len() == 2);
    Ok(())
}

#[test]
fn names_are_read(rt: HostRuntime) -> Result<(), Fail> {
    let lexemes = lexemes_of(&rt, rt.alloc(), "n, m of")?;
    let Ok(two) = names(rt.alloc(), b"n, m of", lexemes.as_slice()) else {
        panic!(&rt; "no names");
    };
    assert!(&rt; two.tree.len() == 2 && two.rest.len() == 1);
    Ok(())
}
