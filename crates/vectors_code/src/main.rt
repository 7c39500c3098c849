//! Tries the lowering of functions on stored cases, which an independent implementation answered: it
//! prints each case that differs, and the counts.
#![tactic(auto)]

mod case;
mod shown;

use crate::case::answer;
use cx_io::{DiskFiles, Files, StdSink, put_all, read_whole};
use std::alloc::{AllocError, Global};
use std::process::ExitCode;

/// The counts of cases, and the text on those that differ.
#[derive(Drop)]
struct Tally {
    cases: u32,
    differ: u32,
    text: String,
}

fn judge(alloc: Global, file: &str, case: &str, tally: &mut Tally) -> Result<(), AllocError> {
    let Some((title, rest)) = case.split_once("\n--- c\n") else {
        return Ok(());
    };
    let Some((text, expected)) = rest.split_once("\n--- code\n") else {
        return Ok(());
    };
    tally.cases = tally.cases.saturating_add(1);
    let found = answer(alloc, text)?;
    if found.as_str().trim_end() == expected.trim_end() {
        return Ok(());
    }
    tally.differ = tally.differ.saturating_add(1);
    for part in [file, " ", title, "\n", &found] {
        tally.text.push_str(part)?;
    }
    Ok(())
}

fn judge_all(alloc: Global, file: &str, text: &str, tally: &mut Tally) -> Result<(), AllocError> {
    for case in text.split("\n=== ") {
        judge(alloc, file, case, tally)?;
    }
    Ok(())
}

fn tried<F: Files>(alloc: Global, files: &mut F, tally: &mut Tally) -> Result<(), AllocError> {
    for file in [
        "addresses.txt",
        "calls.txt",
        "expressions.txt",
        "limits.txt",
        "loops.txt",
        "mixed.txt",
        "statements.txt",
        "switch.txt",
        "tests.txt",
        "updates.txt",
    ] {
        match read_whole(alloc, files, file, 1048576) {
            Ok(bytes) => match std::str::from_utf8(bytes.as_slice()) {
                Ok(text) => judge_all(alloc, file, text, tally)?,
                Err(_) => tally.text.push_str("no text\n")?,
            },
            Err(_) => tally.text.push_str("not read\n")?,
        }
    }
    Ok(())
}

fn main(rt: HostRuntime) -> ExitCode {
    let alloc = rt.alloc();
    let mut files = DiskFiles::new(&rt);
    let mut out = StdSink::new(&rt);
    let mut tally = Tally {
        cases: 0,
        differ: 0,
        text: String::new(alloc),
    };
    if tried(alloc, &mut files, &mut tally).is_err() {
        return ExitCode::from(7);
    }
    let Ok(counts) = format!(in alloc; "cases {} differ {}\n", tally.cases, tally.differ) else {
        return ExitCode::from(7);
    };
    let _ = put_all(&mut out, tally.text.as_bytes());
    let _ = put_all(&mut out, counts.as_bytes());
    ExitCode::from(0)
}
