ghost use Rattle.std.specs.Prelude.{◌≡◌, ◌≤◌, ◌+◌, Some, [], IfOk, vec_len, vec_capacity};

use crate::files::Failed;
use crate::sink::Sink;
use cx_base::NoMemory;
use std::alloc::Global;

/// A sink in memory whose put fails exactly where the piece is longer than its room, and takes the
/// whole piece else.
#[derive(Drop)]
pub struct SureSink {
    kept: Vec<u8>,
    room: usize,
    faults: u64,
    ghost reserved: { vec_len kept + room ≤ vec_capacity kept },
}

impl SureSink {
    /// Nothing written, and room for so many bytes, which is reserved here: `put` takes no memory.
    pub fn new(alloc: Global, room: usize) -> Result<SureSink, NoMemory>
        ensures empty { IfOk result (λ s. ⟦<SureSink as Sink>⟧.written s ≡ Some []) }
        ensures room { IfOk result (λ s. ⟦<SureSink as Sink>⟧.room s ≡ Some room) }
        ensures faults { IfOk result (λ s. ⟦<SureSink as Sink>⟧.faults s ≡ 0) }
    {
        Ok(SureSink {
            kept: Vec::with_capacity(alloc, room)?,
            room,
            faults: 0,
        })
    }

    /// How many more bytes fit.
    pub fn room_left(&self) -> usize
        ensures { ⟦<SureSink as Sink>⟧.room self.now ≡ Some result }
    {
        self.room
    }

    /// The bytes written.
    pub fn written(&self) -> &[u8]
        ensures { ⟦<SureSink as Sink>⟧.written self.now ≡ Some result.now }
    {
        self.kept.as_slice()
    }
}

impl Sink for SureSink {
    ghost written = { λ s. Some s.kept.items };

    ghost room = { λ s. Some s.room };

    ghost faults = { λ s. s.faults };

    fn put(&mut self, bytes: &[u8]) -> Result<usize, Failed> {
        if bytes.len() > self.room || self.kept.extend_from_slice(bytes).is_err() {
            self.faults = self.faults.saturating_add(1);
            return Err(Failed);
        }
        self.room -= bytes.len();
        Ok(bytes.len())
    }
}
