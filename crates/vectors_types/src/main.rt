//! Tries the reader of type files on stored cases, which an independent implementation answered: it prints
//! each case that differs, and the counts.
#![tactic(auto)]

mod case;
mod text;

use crate::case::{Case, answer, is_expected};
use crate::text::unescaped;
use cx_io::{DiskFiles, Files, StdSink, put_all, read_whole};
use std::alloc::{AllocError, Global};
use std::process::ExitCode;

/// The counts of cases, and the text on those that differ.
#[derive(Drop)]
struct Tally {
    cases: u32,
    differ: u32,
    text: String,
}

/// The sections of a case: its C file, if it has one of its own, its type file, and what is expected.
fn sections<'a>(standard: &'a str, case: &'a str) -> Option<Case<'a>> {
    let (title, rest) = case.split_once("\n--- ")?;
    let (head, expected) = match rest.split_once("\n--- expect\n") {
        Some((head, expected)) => (head, expected),
        None => (rest.split_once("\n--- rules")?.0, "tree"),
    };
    let (c, types) = match head.strip_prefix("c\n") {
        Some(own) => own.split_once("--- t")?,
        None => (standard, head.strip_prefix("t")?),
    };
    let (escaped, types) = match types.strip_prefix(" escaped") {
        Some(types) => (true, types),
        None => (false, types),
    };
    Some(Case {
        title,
        c,
        types: types.strip_prefix("\n").unwrap_or(""),
        escaped,
        expected,
    })
}

fn judge<'a>(
    alloc: Global,
    standard: &'a str,
    file: &str,
    case: &'a str,
    tally: &mut Tally,
) -> Result<(), AllocError> {
    let Some(case) = sections(standard, case) else {
        return Ok(());
    };
    tally.cases = tally.cases.saturating_add(1);
    let types = unescaped(alloc, case.types, case.escaped)?;
    let found = answer(alloc, case.c, types.as_slice())?;
    if is_expected(found.as_str(), case.expected) {
        return Ok(());
    }
    tally.differ = tally.differ.saturating_add(1);
    for part in [file, " ", case.title, "\n", found.as_str(), "\n"] {
        tally.text.push_str(part)?;
    }
    Ok(())
}

const FILES: [&str; 15] = [
    "accepted-functions.txt",
    "accepted-others.txt",
    "accepted-regions.txt",
    "accepted-shared.txt",
    "refused-Arity.txt",
    "refused-BadByte.txt",
    "refused-BadSize.txt",
    "refused-Doubled.txt",
    "refused-OpenComment.txt",
    "refused-OpenText.txt",
    "refused-Syntax.txt",
    "refused-TooDeep.txt",
    "refused-Undetermined.txt",
    "refused-UnknownName.txt",
    "refused-shared.txt",
];

fn text_of<F: Files>(alloc: Global, files: &mut F, file: &str) -> Result<String, AllocError> {
    match read_whole(alloc, files, file, 1048576) {
        Ok(bytes) => match std::str::from_utf8(bytes.as_slice()) {
            Ok(text) => {
                let mut copy = String::new(alloc);
                copy.push_str(text)?;
                Ok(copy)
            }
            Err(_) => Ok(String::new(alloc)),
        },
        Err(_) => Ok(String::new(alloc)),
    }
}

fn tried<F: Files>(alloc: Global, files: &mut F, tally: &mut Tally) -> Result<(), AllocError> {
    let standard = text_of(alloc, files, "std.c")?;
    for file in FILES {
        let text = text_of(alloc, files, file)?;
        for case in text.as_str().split("\n=== ") {
            judge(alloc, standard.as_str(), file, case, tally)?;
        }
    }
    Ok(())
}

fn main(rt: HostRuntime) -> ExitCode {
    let alloc = rt.alloc();
    let mut files = DiskFiles::new(&rt);
    let mut out = StdSink::new(&rt);
    let mut tally = Tally {
        cases: 0,
        differ: 0,
        text: String::new(alloc),
    };
    if tried(alloc, &mut files, &mut tally).is_err() {
        return ExitCode::from(7);
    }
    let Ok(counts) = format!(in alloc; "cases {} differ {}\n", tally.cases, tally.differ) else {
        return ExitCode::from(7);
    };
    let _ = put_all(&mut out, tally.text.as_bytes());
    let _ = put_all(&mut out, counts.as_bytes());
    ExitCode::from(0)
}
