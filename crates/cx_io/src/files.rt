ghost use Rattle.std.specs.Prelude.{◌≡◌, ℕ, ◌<◌, ◌≤◌, List, Option, length, drop, OnErr, IfSome};
ghost use Rattle.cx_io.specs.Counts.{Rose, CountsUp};
ghost use Rattle.cx_io.specs.Fetch.{FileMap, IsAbsent, InBounds, bytes_given, Tells};

/// A fetch or a put that failed.
#[derive(Clone, Copy, Debug, PartialEq, Eq)]
pub struct Failed;

/// What a fetch answers.
#[derive(Clone, Copy, Debug, PartialEq, Eq)]
pub enum Fetched {
    /// So many bytes were put at the front of the buffer, at least one.
    Bytes(usize),
    /// The file has no byte there.
    End,
    /// There is no such file.
    Absent,
}

/// Files by name, with three counts that never fall and stop at 2^64 - 1.
pub trait Files {
    // the bytes of each file, where this is told
    ghost map: { Self → Option FileMap };

    // how many fetches failed
    ghost faults: { Self → ℕ };

    // how many fetches answered that a file is absent
    ghost absents: { Self → ℕ };

    // how many bytes were given
    ghost given: { Self → ℕ };

    /// Puts bytes of the file, from the one at offset `at` on, at the front of `into`, and leaves
    /// the rest of it as it is.
    ///
    /// `Failed` comes only where the count of faults rose, `Absent` only where the count of absent
    /// answers rose. Where the map is told, `Absent` comes exactly where it has no such file, and
    /// `End` exactly where `at` is not below the file's length.
    fn fetch(&mut self, name: &str, at: u64, into: &mut [u8]) -> Result<Fetched, Failed>
        requires { 0 < length into.old }
        ensures same_map { map self.new ≡ map self.old }
        ensures faults { faults self.old ≤ faults self.new }
        ensures absents { absents self.old ≤ absents self.new }
        ensures given { given self.old ≤ given self.new }
        ensures given_by { CountsUp (bytes_given result) (given self.old) (given self.new) }
        ensures failed { OnErr result (Rose (faults self.old) (faults self.new)) }
        ensures absent { IsAbsent result → Rose (absents self.old) (absents self.new) }
        ensures bounds { InBounds result (length into.old) }
        ensures rest { drop (bytes_given result) into.new ≡ drop (bytes_given result) into.old }
        ensures told { IfSome (map self.old) (λ m. Tells (m name.now) at result into.new) };
}
