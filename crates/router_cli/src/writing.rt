//! What becomes of a text: the one place where the program writes.
ghost use Rattle.std.specs.Prelude.{◌≡◌, ◌⊎◌, ◌<◌, ◌-◌, ◌^◌, IfErr, MatchResult};
ghost use Rattle.router_cli.specs.Outcome.{IsUnwritten, WritesText};

use crate::status::Status;
use tb_io::{Sink, put_all};

/// Writes a text whole, and nothing where there is none. Gives how the program ends.
pub(crate) fn write<K: Sink>(out: &mut K, text: Result<Vec<u8>, Status>) -> Status
    requires out { K.faults out.old < 2 ^ 64 - 1 }
    requires text { IfErr text IsUnwritten }
    ensures writes { MatchResult text
        (λ text. WritesText text.items result (K.written out.old) (K.written out.new))
        (λ status. result ≡ status) }
    ensures quiet { (result ≡ Status.Done) ⊎ (result ≡ Status.WriteFault)
        ⊎ (K.written out.new ≡ K.written out.old) }
    ensures write { result ≡ Status.WriteFault → K.faults out.old < K.faults out.new }
    ensures out_kept { (result ≡ Status.WriteFault) ⊎ (K.faults out.new ≡ K.faults out.old) }
{
    match text {
        Ok(text) => match put_all(out, text.as_slice()) {
            Ok(()) => Status::Done,
            Err(_) => Status::WriteFault,
        },
        Err(status) => status,
    }
}
