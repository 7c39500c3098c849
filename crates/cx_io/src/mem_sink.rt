ghost use Rattle.std.specs.Prelude.{◌≡◌, ◌≤◌, ◌+◌, Some, None, [], IfOk, vec_len, vec_capacity};

use crate::files::Failed;
use crate::sink::Sink;
use cx_base::{List, NoMemory};
use std::alloc::Global;

/// A sink in memory that takes at most `step` bytes a put, and of which chosen puts fail. A put
/// without room left is a fault too. It tells no room.
#[derive(Drop)]
pub struct MemSink {
    kept: Vec<u8>,
    room: usize,
    step: usize,
    fails: List<u32>,
    calls: u64,
    faults: u64,
    ghost reserved: { vec_len kept + room ≤ vec_capacity kept },
    ghost takes_some: { 1 ≤ step },
}

impl MemSink {
    /// Nothing written, and room for so many bytes, which is reserved here: `put` takes no memory.
    /// The puts whose numbers `fails` lists, counted from 1, fail.
    pub fn new(
        alloc: Global,
        step: usize,
        fails: List<u32>,
        room: usize,
    ) -> Result<MemSink, NoMemory>
        requires { 1 ≤ step }
        ensures empty { IfOk result (λ s. ⟦<MemSink as Sink>⟧.written s ≡ Some []) }
        ensures faults { IfOk result (λ s. ⟦<MemSink as Sink>⟧.faults s ≡ 0) }
    {
        Ok(MemSink {
            kept: Vec::with_capacity(alloc, room)?,
            room,
            step,
            fails,
            calls: 0,
            faults: 0,
        })
    }

    /// The bytes written.
    pub fn written(&self) -> &[u8]
        ensures { ⟦<MemSink as Sink>⟧.written self.now ≡ Some result.now }
    {
        self.kept.as_slice()
    }

    fn is_to_fail(&self) -> bool {
        let call = self.calls;
        self.fails.as_slice().iter().any(|n| u64::from(*n) == call)
    }
}

impl Sink for MemSink {
    ghost written = { λ s. Some s.kept.items };

    ghost room = { λ s. None };

    ghost faults = { λ s. s.faults };

    fn put(&mut self, bytes: &[u8]) -> Result<usize, Failed> {
        self.calls = self.calls.saturating_add(1);
        let n = bytes.len().min(self.step).min(self.room);
        if n == 0 || self.is_to_fail() || self.kept.extend_from_slice(&bytes[..n]).is_err() {
            self.faults = self.faults.saturating_add(1);
            return Err(Failed);
        }
        self.room -= n;
        Ok(n)
    }
}
