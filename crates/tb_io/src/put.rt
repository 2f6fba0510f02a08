//! Whole outputs.
ghost use Rattle.std.specs.Prelude.{◌≡◌, ◌+◌, ◌-◌, ◌^◌, ◌<◌, ◌≤◌, ℕ, length, take, OnOk, OnErr};
ghost use Rattle.std.specs.Io.KnownBytes.{Appends};

use crate::Sink;

/// Why bytes were not written.
#[derive(Debug, Clone, Copy, PartialEq, Eq)]
pub enum Put {
    /// The sink failed.
    WriteFault,
}

/// Writes all bytes after those that were written. No memory is taken.
///
/// `WriteFault` comes only where the sink's count of faults rose, and then some first bytes were
/// written.
pub fn put_all<K: Sink>(sink: &mut K, bytes: &[u8]) -> Result<(), Put>
    requires { K.faults sink.old < 2 ^ 64 - 1 }
    ensures written { OnOk result (Appends (K.written sink.old) (K.written sink.new) bytes.now) }
    ensures prefix { OnErr result ((n : ℕ) × (n ≤ length bytes.now)
        × Appends (K.written sink.old) (K.written sink.new) (take n bytes.now)) }
    ensures fault { OnErr result (K.faults sink.old < K.faults sink.new) }
    ensures kept { OnOk result (K.faults sink.new ≡ K.faults sink.old) }
{
    let mut at = 0;
    while at < bytes.len() {
        match sink.write(&bytes[at..]) {
            Ok(count) => at += count,
            Err(_) => return Err(Put::WriteFault),
        }
    }
    Ok(())
}
