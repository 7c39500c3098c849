ghost use Rattle.std.specs.Prelude.{◌≡◌, ℕ, ◌≤◌, None, Some, List, OnOk, OnErr, IfSome};
ghost use Rattle.std.specs.BTreeMap.{get_by_text};
ghost use Rattle.cx_io.specs.Fetch.{WithFile};

use crate::files::{Failed, Fetched, Files};
use crate::mem_files::give;
use cx_base::{List, NoMemory};
use std::alloc::Global;
use std::collections::BTreeMap;

/// Files in memory, of which no fetch fails.
#[derive(Drop)]
pub struct SureFiles {
    files: BTreeMap<String, List<u8>>,
    alloc: Global,
    step: usize,
    absents: u64,
    given: u64,
    ghost takes_some: { 1 ≤ step },
}

impl SureFiles {
    /// No files. A fetch gives at most `step` bytes. It takes no memory.
    pub fn new(alloc: Global, step: usize) -> SureFiles
        requires { 1 ≤ step }
        ensures empty { IfSome (⟦<SureFiles as Files>⟧.map result) (λ m. (name : List ℕ) → m name ≡ None) }
        ensures absents { ⟦<SureFiles as Files>⟧.absents result ≡ 0 }
        ensures given { ⟦<SureFiles as Files>⟧.given result ≡ 0 }
    {
        SureFiles {
            files: BTreeMap::new(alloc),
            alloc,
            step,
            absents: 0,
            given: 0,
        }
    }

    /// Adds a file; it takes the place of one of the same name. After `NoMemory` the files are as
    /// they were.
    pub fn add(&mut self, name: &str, bytes: List<u8>) -> Result<(), NoMemory>
        ensures ok { OnOk result (WithFile (⟦<SureFiles as Files>⟧.map self.old) (⟦<SureFiles as Files>⟧.map self.new) name.now bytes) }
        ensures err { OnErr result (⟦<SureFiles as Files>⟧.map self.new ≡ ⟦<SureFiles as Files>⟧.map self.old) }
        ensures absents { ⟦<SureFiles as Files>⟧.absents self.new ≡ ⟦<SureFiles as Files>⟧.absents self.old }
        ensures given { ⟦<SureFiles as Files>⟧.given self.new ≡ ⟦<SureFiles as Files>⟧.given self.old }
    {
        self.files
            .insert(String::from_str(self.alloc, name)?, bytes)?;
        Ok(())
    }
}

impl Files for SureFiles {
    ghost map = { λ s. Some (λ name. get_by_text s.files name) };

    ghost faults = { λ s. 0 };

    ghost absents = { λ s. s.absents };

    ghost given = { λ s. s.given };

    fn fetch(&mut self, name: &str, at: u64, into: &mut [u8]) -> Result<Fetched, Failed> {
        match self.files.get(name) {
            None => {
                self.absents = self.absents.saturating_add(1);
                Ok(Fetched::Absent)
            }
            Some(bytes) => {
                let fetched = give(bytes.as_slice(), at, self.step, into);
                if let Fetched::Bytes(n) = fetched {
                    self.given = self.given.saturating_add(n as u64);
                }
                Ok(fetched)
            }
        }
    }
}
