ghost use Rattle.std.specs.Prelude.{◌≡◌, ℕ, ◌<◌, ◌≤◌, None, Some, List, length, OnOk, OnErr, IfSome, drop};
ghost use Rattle.std.specs.BTreeMap.{get_by_text};
ghost use Rattle.cx_io.specs.Fetch.{bytes_given, Tells, InBounds, WithFile};

use crate::files::{Failed, Fetched, Files};
use cx_base::{List, NoMemory};
use std::alloc::Global;
use std::collections::BTreeMap;

/// Files in memory, of which chosen fetches fail.
#[derive(Drop)]
pub struct MemFiles {
    files: BTreeMap<String, List<u8>>,
    alloc: Global,
    step: usize,
    fails: List<u32>,
    calls: u64,
    faults: u64,
    absents: u64,
    given: u64,
    ghost takes_some: { 1 ≤ step },
}

/// Gives the bytes from `at` on, at most `step` of them.
pub(crate) fn give(bytes: &[u8], at: u64, step: usize, into: &mut [u8]) -> Fetched
    requires some { 1 ≤ step }
    requires room { 0 < length into.old }
    ensures told { Tells (Some bytes.now) at (Ok result) into.new }
    ensures bounds { InBounds (Ok result) (length into.old) }
    ensures rest { drop (bytes_given (Ok result)) into.new ≡ drop (bytes_given (Ok result)) into.old }
{
    if at >= bytes.len() as u64 {
        return Fetched::End;
    }
    let rest = &bytes[at as usize..];
    let n = rest.len().min(step).min(into.len());
    into[..n].copy_from_slice(&rest[..n]);
    Fetched::Bytes(n)
}

impl MemFiles {
    /// No files. A fetch gives at most `step` bytes. The fetches whose numbers `fails` lists,
    /// counted from 1, fail. It takes no memory.
    pub fn new(alloc: Global, step: usize, fails: List<u32>) -> MemFiles
        requires { 1 ≤ step }
        ensures empty { IfSome (⟦<MemFiles as Files>⟧.map result) (λ m. (name : List ℕ) → m name ≡ None) }
        ensures faults { ⟦<MemFiles as Files>⟧.faults result ≡ 0 }
        ensures absents { ⟦<MemFiles as Files>⟧.absents result ≡ 0 }
        ensures given { ⟦<MemFiles as Files>⟧.given result ≡ 0 }
    {
        MemFiles {
            files: BTreeMap::new(alloc),
            alloc,
            step,
            fails,
            calls: 0,
            faults: 0,
            absents: 0,
            given: 0,
        }
    }

    /// Adds a file; it takes the place of one of the same name. After `NoMemory` the files are as
    /// they were.
    pub fn add(&mut self, name: &str, bytes: List<u8>) -> Result<(), NoMemory>
        ensures ok { OnOk result (WithFile (⟦<MemFiles as Files>⟧.map self.old) (⟦<MemFiles as Files>⟧.map self.new) name.now bytes) }
        ensures err { OnErr result (⟦<MemFiles as Files>⟧.map self.new ≡ ⟦<MemFiles as Files>⟧.map self.old) }
        ensures faults { ⟦<MemFiles as Files>⟧.faults self.new ≡ ⟦<MemFiles as Files>⟧.faults self.old }
        ensures absents { ⟦<MemFiles as Files>⟧.absents self.new ≡ ⟦<MemFiles as Files>⟧.absents self.old }
        ensures given { ⟦<MemFiles as Files>⟧.given self.new ≡ ⟦<MemFiles as Files>⟧.given self.old }
    {
        self.files
            .insert(String::from_str(self.alloc, name)?, bytes)?;
        Ok(())
    }

    fn is_to_fail(&self) -> bool {
        let call = self.calls;
        self.fails.as_slice().iter().any(|n| u64::from(*n) == call)
    }
}

impl Files for MemFiles {
    ghost map = { λ s. Some (λ name. get_by_text s.files name) };

    ghost faults = { λ s. s.faults };

    ghost absents = { λ s. s.absents };

    ghost given = { λ s. s.given };

    fn fetch(&mut self, name: &str, at: u64, into: &mut [u8]) -> Result<Fetched, Failed> {
        self.calls = self.calls.saturating_add(1);
        if self.is_to_fail() {
            self.faults = self.faults.saturating_add(1);
            return Err(Failed);
        }
        match self.files.get(name) {
            None => {
                self.absents = self.absents.saturating_add(1);
                Ok(Fetched::Absent)
            }
            Some(bytes) => {
                let fetched = give(bytes.as_slice(), at, self.step, into);
                if let Fetched::Bytes(n) = fetched {
                    self.given = self.given.saturating_add(n as u64);
                }
                Ok(fetched)
            }
        }
    }
}
