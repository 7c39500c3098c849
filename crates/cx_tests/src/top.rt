use cx_base::{List, NoMemory};
use cx_io::{MemFiles, MemSink, SureFiles, SureSink};
use cx_run::{Status, run};
use std::alloc::Global;
use std::test::Fail;

const STEP: &str = "struct vec { unsigned long len; struct vec *next; };
unsigned long step(struct vec *p, struct vec *q, unsigned long x) {
  q = p->next;
  p->len = x;
  x = q->len;
  return x;
}
";

const STEP_WITHOUT_LOAD: &str = "struct vec { unsigned long len; struct vec *next; };
unsigned long step(struct vec *p, struct vec *q, unsigned long x) {

  p->len = x;
  x = q->len;
  return x;
}
";

const TYPES: &str = "region vec = struct vec { len: any8; next: ptr vec; };
fn step(ptr vec, any, any) -> any;
";

const EMPTY_REPORT: &str = "codex report 1
functions 0 accepted 0 alarms 0 passed 0
";

const STEP_REPORT: &str = "codex report 1
function step accepted
  access 3:7+7 vec
  access 4:3+6 vec
  access 5:7+6 vec
functions 1 accepted 1 alarms 0 passed 0
";

const ALARM_REPORT: &str = "codex report 1
function step alarms 1
  access 4:3+6 vec
  alarm C2 5:7+6 address not shown to lie in a region
functions 1 accepted 0 alarms 1 passed 0
";

const USAGE: &str = "usage: codex check C T\n";

fn list_of(alloc: Global, bytes: &[u8]) -> Result<List<u8>, NoMemory> {
    let mut list = List::new(alloc);
    for b in bytes {
        list.push(*b)?;
    }
    Ok(list)
}

fn blanks(alloc: Global, size: usize) -> Result<List<u8>, NoMemory> {
    let mut list = List::new(alloc);
    for _ in 0..size {
        list.push(b' ')?;
    }
    Ok(list)
}

fn one_number(alloc: Global, n: u32) -> Result<List<u32>, NoMemory> {
    let mut list = List::new(alloc);
    list.push(n)?;
    Ok(list)
}

fn words_of(alloc: Global, words: &[&str]) -> Result<Vec<String>, NoMemory> {
    let mut list = Vec::new(alloc);
    for w in words {
        list.push(String::from_str(alloc, w)?)?;
    }
    Ok(list)
}

fn files_of(alloc: Global, c: &str, types: &str) -> Result<SureFiles, NoMemory> {
    let mut files = SureFiles::new(alloc, 4096);
    files.add("C", list_of(alloc, c.as_bytes())?)?;
    files.add("T", list_of(alloc, types.as_bytes())?)?;
    Ok(files)
}

#[test]
fn reports(rt: HostRuntime) -> Result<(), Fail> {
    let alloc = rt.alloc();
    let words = words_of(alloc, &["check", "C", "T"])?;
    for (c, types, status, text) in [
        ("", "", Status::Done, EMPTY_REPORT),
        (STEP, TYPES, Status::Done, STEP_REPORT),
        (STEP_WITHOUT_LOAD, TYPES, Status::Alarms, ALARM_REPORT),
        ("int x;", "", Status::Refused, "refused 1 NotBuilt\n"),
        (STEP, "", Status::Refused, "refused 2 NotBuilt\n"),
        ("", TYPES, Status::Refused, "refused 2 NotBuilt\n"),
    ] {
        let mut files = files_of(alloc, c, types)?;
        let mut out = SureSink::new(alloc, 67108864)?;
        assert_eq!(rt;
            run(alloc, words.as_slice(), &mut files, &mut out),
            status,
            "at {text}"
        );
        assert_eq!(rt; out.written(), text.as_bytes());
        assert_eq!(rt;
            Some(out.room_left()),
            67108864usize.checked_sub(text.len())
        );
    }
    Ok(())
}

#[test]
fn other_words(rt: HostRuntime) -> Result<(), Fail> {
    let alloc = rt.alloc();
    let mut files = files_of(alloc, "", "")?;
    for words in [
        [].as_slice(),
        &["check", "C"],
        &["check", "C", "T", "T"],
        &["Check", "C", "T"],
        &["verify", "C", "T"],
    ] {
        let words = words_of(alloc, words)?;
        let mut out = SureSink::new(alloc, 100)?;
        assert_eq!(rt;
            run(alloc, words.as_slice(), &mut files, &mut out),
            Status::Usage
        );
        assert_eq!(rt; out.written(), USAGE.as_bytes());
    }
    Ok(())
}

#[test]
fn absent_files(rt: HostRuntime) -> Result<(), Fail> {
    let alloc = rt.alloc();
    let mut files = files_of(alloc, STEP, TYPES)?;
    for (c, types, text) in [
        ("c", "T", "refused 1 Absent\n"),
        ("c", "t", "refused 1 Absent\n"),
        ("C", "t", "refused 2 Absent\n"),
    ] {
        let words = words_of(alloc, &["check", c, types])?;
        let mut out = SureSink::new(alloc, 100)?;
        assert_eq!(rt;
            run(alloc, words.as_slice(), &mut files, &mut out),
            Status::Refused
        );
        assert_eq!(rt; out.written(), text.as_bytes());
    }
    Ok(())
}

#[test]
fn limits(rt: HostRuntime) -> Result<(), Fail> {
    let alloc = rt.alloc();
    let words = words_of(alloc, &["check", "C", "T"])?;
    for (c, types, status, text) in [
        (1048576, 262144, Status::Done, EMPTY_REPORT),
        (1048577, 262144, Status::Limit, "limit c-file 1048576\n"),
        (1048577, 262145, Status::Limit, "limit c-file 1048576\n"),
        (1048576, 262145, Status::Limit, "limit type-file 262144\n"),
    ] {
        let mut files = SureFiles::new(alloc, 4096);
        files.add("C", blanks(alloc, c)?)?;
        files.add("T", blanks(alloc, types)?)?;
        let mut out = SureSink::new(alloc, 100)?;
        assert_eq!(rt;
            run(alloc, words.as_slice(), &mut files, &mut out),
            status,
            "at {text}"
        );
        assert_eq!(rt; out.written(), text.as_bytes());
    }
    Ok(())
}

#[test]
fn failing_fetches(rt: HostRuntime) -> Result<(), Fail> {
    let alloc = rt.alloc();
    let words = words_of(alloc, &["check", "C", "T"])?;
    for (call, status, text) in [
        (1, Status::ReadFailed, "read failed 1\n"),
        (2, Status::ReadFailed, "read failed 1\n"),
        (3, Status::ReadFailed, "read failed 2\n"),
        (4, Status::ReadFailed, "read failed 2\n"),
        (5, Status::Done, STEP_REPORT),
    ] {
        let mut files = MemFiles::new(alloc, 4096, one_number(alloc, call)?);
        files.add("C", list_of(alloc, STEP.as_bytes())?)?;
        files.add("T", list_of(alloc, TYPES.as_bytes())?)?;
        let mut out = SureSink::new(alloc, 1000)?;
        assert_eq!(rt;
            run(alloc, words.as_slice(), &mut files, &mut out),
            status,
            "at {call}"
        );
        assert_eq!(rt; out.written(), text.as_bytes());
    }
    Ok(())
}

#[test]
fn failing_puts(rt: HostRuntime) -> Result<(), Fail> {
    let alloc = rt.alloc();
    let words = words_of(alloc, &["check", "C", "T"])?;
    for (call, status, written) in [
        (1, Status::WriteFailed, ""),
        (2, Status::WriteFailed, "codex repo"),
        (3, Status::WriteFailed, "codex report 1\nfunct"),
        (7, Status::Done, EMPTY_REPORT),
    ] {
        let mut files = files_of(alloc, "", "")?;
        let mut out = MemSink::new(alloc, 10, one_number(alloc, call)?, 100)?;
        assert_eq!(rt;
            run(alloc, words.as_slice(), &mut files, &mut out),
            status,
            "at {call}"
        );
        assert_eq!(rt; out.written(), written.as_bytes());
    }
    Ok(())
}
