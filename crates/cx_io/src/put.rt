ghost use Rattle.std.specs.Prelude.{◌≡◌, ℕ, ◌≤◌, length, take, ◌++◌, OnOk, OnErr, IsOk, option_map, IfSome};
ghost use Rattle.cx_io.specs.Counts.{Rose};

use crate::sink::Sink;

/// A put failed, and a front of the bytes was taken.
#[derive(Clone, Copy, Debug, PartialEq, Eq)]
pub struct WriteFailed;

/// Hands all the bytes to the sink. It takes no memory.
///
/// `WriteFailed` comes only where the sink's count of faults rose in this call, and then a front of
/// the bytes was appended. Where the room is told and is at least the number of bytes, it does not
/// come.
pub fn put_all<K: Sink>(sink: &mut K, bytes: &[u8]) -> Result<(), WriteFailed>
    ensures ok { OnOk result (K.written sink.new ≡ option_map (λ w. w ++ bytes.now) (K.written sink.old)) }
    ensures err { OnErr result ((n : ℕ) × (K.written sink.new ≡ option_map (λ w. w ++ take n bytes.now) (K.written sink.old))) }
    ensures faults { K.faults sink.old ≤ K.faults sink.new }
    ensures failed { OnErr result (Rose (K.faults sink.old) (K.faults sink.new)) }
    ensures sure { IfSome (K.room sink.old) (λ r. length bytes.now ≤ r → IsOk result × (K.faults sink.new ≡ K.faults sink.old)) }
{
    let mut at = 0;
    while at < bytes.len() {
        let (_, rest) = bytes.split_at(at);
        match sink.put(rest) {
            Ok(n) => at += n,
            Err(_) => return Err(WriteFailed),
        }
    }
    Ok(())
}
