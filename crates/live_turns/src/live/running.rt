//! The loop of turns.
ghost use Rattle.std.specs.Prelude.{◌≡◌, ◌⊎◌, ◌<◌, ◌-◌, ◌^◌, [], ℕ, List, Err, IfErr, IfOk, OnOk};
ghost use Rattle.std.specs.Io.KnownBytes.{Consumes};
ghost use Rattle.history.specs.Lists.{Extends};
ghost use Rattle.live_turns.specs.Turns.{IsTurnOf, IsWholeRun};
ghost use Rattle.live_turns.specs.LiveTurns.{FailsToGoOn, FailsToTell, IsCutBy, IsLiveTurn, IsToldTurn};
ghost use Rattle.live_turns.specs.declared.live.running.LinesFault.TheVariants as fault;

use crate::intake::{Intake, IntakeFault};
use crate::live::turn::{LineSide, take_turn};
use edition_store::Naming;
use std::alloc::Global;
use std::sync::Wait;
use std::thread::Threads;
use tb_base::{Gate, Memory, Name};
use tb_io::{Put, Sink, Source, put_all};

// No more bytes of a line are kept: a line that is longer than 1,024 bytes is bad.
const MOST_KEPT: usize = 1_026;

// The bytes of one reading at most.
const PIECE: usize = 65_536;

/// Why a run of turns is cut off.
#[derive(Debug, Clone, Copy, PartialEq, Eq)]
pub(crate) enum LinesFault {
    /// The source failed.
    ReadFault,
    /// The sink failed.
    WriteFault,
    /// Want of memory.
    Memory,
}

// Has the lines of a turn answered, and writes the text.
fn answer_lines<J: Naming, K: Naming, L: Naming, G: Gate, O: Sink, R: Threads + Wait + Sync>(
    rt: &R,
    gate: &G,
    side: &mut LineSide<J, K, L>,
    lines: &[Name],
    sink: &mut O,
) -> Result<(), LinesFault>
    requires lanes { 0 < side.old.lanes }
    requires sink { O.faults sink.old < 2 ^ 64 - 1 }
    ensures told { OnOk result (IsToldTurn side.old.mode (O.written sink.old)
        (O.written sink.new) side.old side.new lines.now) }
    ensures failed { IfErr result (λ cause. FailsToTell cause side.old.mode
        (O.written sink.old) (O.written sink.new) side.old side.new lines.now) }
    ensures mode { side.new.mode ≡ side.old.mode }
    ensures lanes { OnOk result (side.new.lanes ≡ side.old.lanes) }
    ensures later { Extends side.new.live.kept side.old.live.kept }
    ensures write { result ≡ Err fault.WriteFault → O.faults sink.old < O.faults sink.new }
    ensures sink { (result ≡ Err fault.WriteFault)
        ⊎ (O.faults sink.new ≡ O.faults sink.old) }
{
    let text = match take_turn(rt, gate, side, lines) {
        Ok(text) => text,
        Err(Memory) => return Err(LinesFault::Memory),
    };
    match put_all(sink, text.as_slice()) {
        Ok(()) => Ok(()),
        Err(Put::WriteFault) => Err(LinesFault::WriteFault),
    }
}

// The next turn: whether more may come.
fn next_turn<
    J: Naming,
    K: Naming,
    L: Naming,
    G: Gate,
    S: Source,
    O: Sink,
    R: Threads + Wait + Sync,
>(
    rt: &R,
    gate: &G,
    intake: &mut Intake,
    side: &mut LineSide<J, K, L>,
    source: &mut S,
    sink: &mut O,
) -> Result<bool, LinesFault>
    requires lanes { 0 < side.old.lanes }
    requires source { S.faults source.old < 2 ^ 64 - 1 }
    requires sink { O.faults sink.old < 2 ^ 64 - 1 }
    ensures turn { IfOk result (IsTurnOf (IsLiveTurn side.old.mode) (S.left source.old)
        (S.left source.new) intake.old intake.new (O.written sink.old) (O.written sink.new)
        side.old side.new) }
    ensures failed { IfErr result (λ cause. FailsToGoOn cause side.old.mode (S.left source.old)
        (S.left source.new) intake.old intake.new (O.written sink.old) (O.written sink.new)
        side.old side.new) }
    ensures taken { (bytes : List ℕ) × Consumes (S.left source.old) (S.left source.new) bytes }
    ensures mode { side.new.mode ≡ side.old.mode }
    ensures lanes { OnOk result (side.new.lanes ≡ side.old.lanes) }
    ensures later { Extends side.new.live.kept side.old.live.kept }
    ensures read { result ≡ Err fault.ReadFault → S.faults source.old < S.faults source.new }
    ensures source { (result ≡ Err fault.ReadFault)
        ⊎ (S.faults source.new ≡ S.faults source.old) }
    ensures write { result ≡ Err fault.WriteFault → O.faults sink.old < O.faults sink.new }
    ensures sink { (result ≡ Err fault.WriteFault)
        ⊎ (O.faults sink.new ≡ O.faults sink.old) }
{
    match intake.next_lines(source) {
        Ok((lines, more)) => match answer_lines(rt, gate, side, lines.as_slice(), sink) {
            Ok(()) => Ok(more),
            Err(cause) => Err(cause),
        },
        Err(IntakeFault::ReadFault) => Err(LinesFault::ReadFault),
        Err(IntakeFault::Memory) => Err(LinesFault::Memory),
    }
}

// Turns, up to the end of the source.
fn run_on<J: Naming, K: Naming, L: Naming, G: Gate, S: Source, O: Sink, R: Threads + Wait + Sync>(
    rt: &R,
    gate: &G,
    intake: &mut Intake,
    side: &mut LineSide<J, K, L>,
    source: &mut S,
    sink: &mut O,
) -> Result<(), LinesFault>
    requires begins { intake.old.begun ≡ [] }
    requires lanes { 0 < side.old.lanes }
    requires source { S.faults source.old < 2 ^ 64 - 1 }
    requires sink { O.faults sink.old < 2 ^ 64 - 1 }
    ensures whole { OnOk result (IsWholeRun (IsLiveTurn side.old.mode) intake.old.most
        (S.left source.old) (O.written sink.old) (O.written sink.new) side.old side.new) }
    ensures cut { IfErr result (λ cause. IsCutBy cause side.old.mode intake.old.most
        (S.left source.old) (S.left source.new) (O.written sink.old) (O.written sink.new)
        side.old side.new) }
    ensures taken { (bytes : List ℕ) × Consumes (S.left source.old) (S.left source.new) bytes }
    ensures mode { side.new.mode ≡ side.old.mode }
    ensures later { Extends side.new.live.kept side.old.live.kept }
    ensures read { result ≡ Err fault.ReadFault → S.faults source.old < S.faults source.new }
    ensures source { (result ≡ Err fault.ReadFault)
        ⊎ (S.faults source.new ≡ S.faults source.old) }
    ensures write { result ≡ Err fault.WriteFault → O.faults sink.old < O.faults sink.new }
    ensures sink { (result ≡ Err fault.WriteFault)
        ⊎ (O.faults sink.new ≡ O.faults sink.old) }
{
    for _turn in rt.forever() {
        match next_turn(rt, gate, intake, side, source, sink) {
            Ok(true) => {}
            Ok(false) => return Ok(()),
            Err(cause) => return Err(cause),
        }
    }
    unreachable!()
}

/// Answers the lines of a source to its end, turn by turn: those that end in a piece of it are
/// answered, and the text is written, before the next piece is read. It may wait for the source
/// without end. `ReadFault` comes only where the source's count of faults rose, `WriteFault` only
/// where the sink's did. At most 64 KiB are read at once, and of a line no more than 1,026 bytes
/// are kept.
pub(crate) fn run_turns<
    J: Naming,
    K: Naming,
    L: Naming,
    G: Gate,
    S: Source,
    O: Sink,
    R: Threads + Wait + Sync,
>(
    rt: &R,
    alloc: Global,
    gate: &G,
    side: &mut LineSide<J, K, L>,
    source: &mut S,
    sink: &mut O,
) -> Result<(), LinesFault>
    requires lanes { 0 < side.old.lanes }
    requires source { S.faults source.old < 2 ^ 64 - 1 }
    requires sink { O.faults sink.old < 2 ^ 64 - 1 }
    ensures whole { OnOk result (IsWholeRun (IsLiveTurn side.old.mode) 1026
        (S.left source.old) (O.written sink.old) (O.written sink.new) side.old side.new) }
    ensures cut { IfErr result (λ cause. IsCutBy cause side.old.mode 1026
        (S.left source.old) (S.left source.new) (O.written sink.old) (O.written sink.new)
        side.old side.new) }
    ensures taken { (bytes : List ℕ) × Consumes (S.left source.old) (S.left source.new) bytes }
    ensures mode { side.new.mode ≡ side.old.mode }
    ensures later { Extends side.new.live.kept side.old.live.kept }
    ensures read { result ≡ Err fault.ReadFault → S.faults source.old < S.faults source.new }
    ensures source { (result ≡ Err fault.ReadFault)
        ⊎ (S.faults source.new ≡ S.faults source.old) }
    ensures write { result ≡ Err fault.WriteFault → O.faults sink.old < O.faults sink.new }
    ensures sink { (result ≡ Err fault.WriteFault)
        ⊎ (O.faults sink.new ≡ O.faults sink.old) }
{
    match Intake::new(alloc, MOST_KEPT, PIECE) {
        Ok(intake) => {
            let mut intake = intake;
            run_on(rt, gate, &mut intake, side, source, sink)
        }
        Err(Memory) => Err(LinesFault::Memory),
    }
}
