ghost use Rattle.std.specs.Prelude.{◌≡◌, None};

use crate::files::Failed;
use crate::sink::Sink;
use std::io;
use std::io::Write;

/// Standard output. It tells neither what was written nor its room.
#[derive(Drop)]
pub struct StdSink<R: Print + Drop> {
    rt: R,
    faults: u64,
}

impl<R: Print + Drop> StdSink<R> {
    /// The standard output of the runtime.
    pub fn new(rt: R) -> StdSink<R>
        ensures { ⟦<StdSink<R> as Sink>⟧.faults result ≡ 0 }
    {
        StdSink { rt, faults: 0 }
    }
}

impl<R: Print + Drop> Sink for StdSink<R> {
    ghost written = { λ s. None };

    ghost room = { λ s. None };

    ghost faults = { λ s. s.faults };

    fn put(&mut self, bytes: &[u8]) -> Result<usize, Failed> {
        // an output that takes no byte, or more than it was handed, is at fault
        let n = io::writer(&self.rt).write(bytes).unwrap_or(0);
        if n == 0 || n > bytes.len() {
            self.faults = self.faults.saturating_add(1);
            return Err(Failed);
        }
        Ok(n)
    }
}
