ghost use Rattle.std.specs.Prelude.{◌≡◌, ◌≤◌, None, IfOk, length, drop};

use crate::files::{Failed, Fetched, Files};
use std::io::{ErrorKind, Read, Seek, SeekFrom};
use std::{fs, io, rt};

/// The files of the real file system, by their paths from the folder that the program runs in. It
/// tells no content.
#[derive(Drop)]
pub struct DiskFiles<R: rt::Files + Drop> {
    rt: R,
    faults: u64,
    absents: u64,
    given: u64,
}

impl<R: rt::Files + Drop> DiskFiles<R> {
    /// The files that the runtime reaches.
    pub fn new(rt: R) -> DiskFiles<R>
        ensures faults { ⟦<DiskFiles<R> as Files>⟧.faults result ≡ 0 }
        ensures absents { ⟦<DiskFiles<R> as Files>⟧.absents result ≡ 0 }
        ensures given { ⟦<DiskFiles<R> as Files>⟧.given result ≡ 0 }
    {
        DiskFiles {
            rt,
            faults: 0,
            absents: 0,
            given: 0,
        }
    }
}

/// Opens the file and reads from it once, from offset `at` on.
fn read_at<R: rt::Files>(rt: &R, name: &str, at: u64, into: &mut [u8]) -> io::Result<usize> {
    let mut file = fs::open(rt, name)?;
    file.seek(SeekFrom::Start(at))?;
    file.read(into)
}

impl<R: rt::Files + Drop> Files for DiskFiles<R> {
    ghost map = { λ s. None };

    ghost faults = { λ s. s.faults };

    ghost absents = { λ s. s.absents };

    ghost given = { λ s. s.given };

    fn fetch(&mut self, name: &str, at: u64, into: &mut [u8]) -> Result<Fetched, Failed> {
        let mut piece = [0u8; 4096];
        let most = into.len().min(piece.len());
        match read_at(&self.rt, name, at, &mut piece[..most]) {
            Ok(0) => Ok(Fetched::End),
            Ok(n) => {
                if n > most {
                    self.faults = self.faults.saturating_add(1);
                    return Err(Failed);
                }
                into[..n].copy_from_slice(&piece[..n]);
                self.given = self.given.saturating_add(n as u64);
                Ok(Fetched::Bytes(n))
            }
            Err(e) => {
                if e.kind() == ErrorKind::NotFound {
                    self.absents = self.absents.saturating_add(1);
                    return Ok(Fetched::Absent);
                }
                self.faults = self.faults.saturating_add(1);
                Err(Failed)
            }
        }
    }
}
