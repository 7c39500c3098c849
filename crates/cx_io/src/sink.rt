ghost use Rattle.std.specs.Prelude.{◌≡◌, ℕ, ◌<◌, ◌≤◌, ◌-◌, List, Option, length, take, ◌++◌, IfOk, OnErr, IsOk, option_map, IfSome};
ghost use Rattle.cx_io.specs.Counts.{Rose};
ghost use Rattle.cx_io.specs.Put.{bytes_taken};

use crate::files::Failed;

/// What takes bytes, with a count of faults that never falls and stops at 2^64 - 1.
pub trait Sink {
    // the bytes written, where they are told
    ghost written: { Self → Option (List ℕ) };

    // how many more bytes fit, where this is told
    ghost room: { Self → Option ℕ };

    // how many puts failed
    ghost faults: { Self → ℕ };

    /// Takes some of the bytes, from the first on, at least one, and answers how many.
    ///
    /// `Failed` comes only where the count of faults rose, and then nothing was taken. Where the
    /// room is told and is at least the number of bytes, it does not come.
    fn put(&mut self, bytes: &[u8]) -> Result<usize, Failed>
        requires { 0 < length bytes.now }
        ensures bounds { IfOk result (λ n. (1 ≤ n) × (n ≤ length bytes.now)) }
        ensures written { written self.new ≡ option_map (λ w. w ++ take (bytes_taken result) bytes.now) (written self.old) }
        ensures room { room self.new ≡ option_map (λ r. r - bytes_taken result) (room self.old) }
        ensures faults { faults self.old ≤ faults self.new }
        ensures failed { OnErr result (Rose (faults self.old) (faults self.new)) }
        ensures sure { IfSome (room self.old) (λ r. length bytes.now ≤ r → IsOk result × (faults self.new ≡ faults self.old)) };
}
