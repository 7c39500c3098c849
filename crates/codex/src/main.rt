//! Codex proves that low-level C functions keep declared byte layouts. This program hands its words,
//! the real files and standard output to the top call, and ends with the number of its status.
#![tactic(auto)]

ghost use Rattle.std.specs.Prelude.{◌≡◌, IfSome};
ghost use Rattle.cx_run.specs.Words.{texts};
ghost use Rattle.cx_run.specs.Answers.{counted};
ghost use Rattle.cx_run.specs.Headline.{Promise, Call, IsNumberOf};

use cx_io::{DiskFiles, Files, Sink, StdSink};
use cx_run::run;
use std::alloc::Global;
use std::process::ExitCode;
use std::{env, io};

/// The words after the program's name. One that is not UTF-8 stands in no form of the command, so
/// then there are none.
fn words(rt: &HostRuntime) -> io::Result<Vec<String>> {
    match env::args(rt) {
        Ok(all) => Ok(all.skip(1).collect(rt.alloc())?),
        Err(e) => {
            if e.kind() == io::ErrorKind::OutOfMemory {
                return Err(e);
            }
            Ok(Vec::new(rt.alloc()))
        }
    }
}

/// The number with which the program ends: that of a status with which the top call ended, so 0 only
/// where its promise holds.
fn exit_number<F: Files, K: Sink>(alloc: Global, words: &[String], files: &mut F, out: &mut K) -> u8
    ensures number { let call : Call = record {
      files = F.map files.old;
      words = texts words.now;
      before = counted (F.faults files.old) (F.absents files.old) (F.given files.old);
      now = counted (F.faults files.new) (F.absents files.new) (F.given files.new);
      room = K.room out.old;
      faults_before = K.faults out.old;
      faults_now = K.faults out.new;
      was = K.written out.old;
      written = K.written out.new;
    } in
        IsNumberOf call result }
    ensures headline { result ≡ 0 → IfSome (F.map files.old) (λ m. Promise m (texts words.now) (K.written out.old) (K.written out.new)) }
{
    run(alloc, words, files, out).number()
}

fn main(rt: HostRuntime) -> ExitCode {
    let Ok(words) = words(&rt) else {
        return ExitCode::from(7);
    };
    let mut files = DiskFiles::new(&rt);
    let mut out = StdSink::new(&rt);
    ExitCode::from(exit_number(rt.alloc(), words.as_slice(), &mut files, &mut out))
}
