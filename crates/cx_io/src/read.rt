ghost use Rattle.std.specs.Prelude.{◌≡◌, ◌≤◌, IfOk, IfSome, ◌++◌};
ghost use Rattle.cx_io.specs.Read.{Reads, Causes};
ghost use Rattle.cx_io.specs.declared.read.ReadFault.TheVariants.{NoMemory as OutOfMemory};

use crate::files::{Failed, Fetched, Files};
use cx_base::{List, NoMemory};
use std::alloc::Global;
use thiserror::Error;

/// Why a file was not read.
#[derive(Debug, Drop, Error)]
pub enum ReadFault {
    /// A fetch answered that there is no such file.
    #[error("there is no such file")]
    Absent,
    /// A fetch failed.
    #[error("reading failed")]
    ReadFailed,
    /// The file gave more bytes than this limit.
    #[error("the file has more than {0} bytes")]
    TooLarge(u64),
    /// The allocator refused.
    #[error("out of memory")]
    NoMemory,
}

impl From<NoMemory> for ReadFault {
    ghost from_gives = { λ _ e. e ≡ OutOfMemory };

    fn from(_e: NoMemory) -> ReadFault {
        ReadFault::NoMemory
    }
}

fn push_all(list: &mut List<u8>, bytes: &[u8]) -> Result<(), NoMemory>
    ensures { IfOk result (λ _. list.new ≡ list.old ++ bytes.now) }
{
    for b in bytes {
        list.push(*b)?;
    }
    Ok(())
}

/// Reads a file to its end, in fetches of at most 4096 bytes, and stops once it gave more than
/// `limit` bytes.
///
/// Where the map is told, Ok has all its bytes. `Absent` comes only where a fetch of this call
/// answered it, `ReadFailed` only where the count of faults rose in this call, and `TooLarge(limit)`
/// exactly where more than `limit` bytes were given.
pub fn read_whole<F: Files>(
    alloc: Global,
    files: &mut F,
    name: &str,
    limit: u64,
) -> Result<List<u8>, ReadFault>
    ensures same_map { F.map files.new ≡ F.map files.old }
    ensures faults { F.faults files.old ≤ F.faults files.new }
    ensures absents { F.absents files.old ≤ F.absents files.new }
    ensures given { F.given files.old ≤ F.given files.new }
    ensures told { IfSome (F.map files.old) (λ m. Reads (m name.now) limit result) }
    ensures causes { Causes result limit (F.faults files.old) (F.faults files.new) (F.absents files.old) (F.absents files.new) (F.given files.old) (F.given files.new) }
{
    let mut whole = List::new(alloc);
    let mut piece = [0u8; 4096];
    while whole.len() as u64 <= limit {
        match files.fetch(name, whole.len() as u64, &mut piece) {
            Err(Failed) => return Err(ReadFault::ReadFailed),
            Ok(Fetched::Absent) => return Err(ReadFault::Absent),
            Ok(Fetched::End) => return Ok(whole),
            Ok(Fetched::Bytes(n)) => push_all(&mut whole, &piece[..n])?,
        }
    }
    Err(ReadFault::TooLarge(limit))
}
