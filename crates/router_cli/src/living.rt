//! What the program does as a process that lives.
ghost use Rattle.std.specs.Prelude.{◌≡◌, ◌⊎◌, ◌<◌, ◌-◌, ◌^◌, [], List, length, ℕ};
ghost use Rattle.std.specs.Io.KnownBytes.{Consumes};
ghost use Rattle.footpaths.specs.Limits.{AreWithinADay};
ghost use Rattle.gtfs_rows.specs.declared.fault.FeedFault.{FeedFault};
ghost use Rattle.tb_base.specs.Workers.{AreWorkers};
ghost use Rattle.live_turns.specs.Live.{HasLivedUntil, HasToldFirst};
ghost use Rattle.edition_build.specs.Plans.{BeginsWithDay};
ghost use Rattle.router_cli.specs.Living.{IsLiveOutcome, first_items, mode_of};

use crate::serving::items_of;
use crate::status::Status;
use command_line::LiveRequest;
use edition_build::PlanItem;
use footpaths::Options;
use live_turns::{LiveFault, LiveMode, run_live};
use std::alloc::Global;
use std::sync::Wait;
use std::thread::Threads;
use tb_base::Gate;
use tb_io::{Folder, Sink, Source};

// A process that lives, by the items with which its plan begins, until its source ends.
fn lived<R: Threads + Wait + Sync, F: Folder + Send, S: Source, K: Sink, G: Gate>(
    rt: &R,
    alloc: Global,
    plan: &[PlanItem],
    options: &Options,
    workers: u32,
    lanes: u32,
    mode: LiveMode,
    folder: &mut F,
    source: &mut S,
    out: &mut K,
    gate: &G,
) -> Status
    requires plan { BeginsWithDay plan.now }
    requires options { AreWithinADay options.now }
    requires workers { AreWorkers workers }
    requires some { 0 < lanes }
    requires folder { F.faults folder.old < 2 ^ 64 - 1 }
    requires source { S.faults source.old < 2 ^ 64 - 1 }
    requires out { K.faults out.old < 2 ^ 64 - 1 }
    ensures outcome { IsLiveOutcome (F.files folder.old) options.now mode plan.now
        (F.faults folder.old) (F.faults folder.new) (S.left source.old) (S.left source.new) result
        (K.written out.old) (K.written out.new) }
    ensures later { result ≡ Status.ReadFault → F.faults folder.new ≡ F.faults folder.old →
        HasLivedUntil LiveFault.ReadFault (F.files folder.old) options.now mode plan.now []
        (S.left source.old) (S.left source.new) (K.written out.old) (K.written out.new) }
    ensures alone { (F.faults folder.new ≡ F.faults folder.old)
        ⊎ (S.faults source.new ≡ S.faults source.old)
        ⊎ HasToldFirst mode.json plan.now (K.written out.old) (K.written out.new) }
    ensures refused { (f : FeedFault) → result ≡ Status.FeedRefused f →
        F.faults folder.new ≡ F.faults folder.old }
    ensures folder_kept { (result ≡ Status.ReadFault)
        ⊎ (F.faults folder.new ≡ F.faults folder.old)
        ⊎ HasToldFirst mode.json plan.now (K.written out.old) (K.written out.new) }
    ensures read { result ≡ Status.ReadFault → (F.faults folder.old < F.faults folder.new)
        ⊎ (S.faults source.old < S.faults source.new) }
    ensures write { result ≡ Status.WriteFault → K.faults out.old < K.faults out.new }
    ensures source_kept { (result ≡ Status.ReadFault)
        ⊎ (S.faults source.new ≡ S.faults source.old) }
    ensures out_kept { (result ≡ Status.WriteFault) ⊎ (K.faults out.new ≡ K.faults out.old) }
    ensures files { F.files folder.new ≡ F.files folder.old }
    ensures taken { (bs : List ℕ) × Consumes (S.left source.old) (S.left source.new) bs }
{
    match run_live(
        rt, alloc, plan, options, workers, lanes, mode, folder, source, out, gate,
    ) {
        Ok(()) => Status::Done,
        Err(LiveFault::Feed(fault)) => Status::FeedRefused(fault),
        Err(LiveFault::ReadFault) => Status::ReadFault,
        Err(LiveFault::WriteFault) => Status::WriteFault,
        Err(LiveFault::Memory) => Status::Memory,
    }
}

/// Answers the lines of a source as they come, until it ends, while the items of a request and
/// those that lines name are published. Writes as it goes, and waits for lines.
pub(crate) fn live_status<R: Threads + Wait + Sync, F: Folder + Send, S: Source, K: Sink, G: Gate>(
    rt: &R,
    alloc: Global,
    request: LiveRequest,
    folder: &mut F,
    source: &mut S,
    out: &mut K,
    gate: &G,
) -> Status
    requires folder { F.faults folder.old < 2 ^ 64 - 1 }
    requires source { S.faults source.old < 2 ^ 64 - 1 }
    requires out { K.faults out.old < 2 ^ 64 - 1 }
    ensures outcome { IsLiveOutcome (F.files folder.old) request.entry.options
        (mode_of request.entry) (first_items request.entry) (F.faults folder.old)
        (F.faults folder.new) (S.left source.old) (S.left source.new) result
        (K.written out.old) (K.written out.new) }
    ensures later { result ≡ Status.ReadFault → F.faults folder.new ≡ F.faults folder.old →
        HasLivedUntil LiveFault.ReadFault (F.files folder.old) request.entry.options
        (mode_of request.entry) (first_items request.entry) [] (S.left source.old)
        (S.left source.new) (K.written out.old) (K.written out.new) }
    ensures alone { (F.faults folder.new ≡ F.faults folder.old)
        ⊎ (S.faults source.new ≡ S.faults source.old)
        ⊎ HasToldFirst request.entry.json (first_items request.entry) (K.written out.old)
        (K.written out.new) }
    ensures refused { (f : FeedFault) → result ≡ Status.FeedRefused f →
        F.faults folder.new ≡ F.faults folder.old }
    ensures folder_kept { (result ≡ Status.ReadFault)
        ⊎ (F.faults folder.new ≡ F.faults folder.old)
        ⊎ HasToldFirst request.entry.json (first_items request.entry) (K.written out.old)
        (K.written out.new) }
    ensures read { result ≡ Status.ReadFault → (F.faults folder.old < F.faults folder.new)
        ⊎ (S.faults source.old < S.faults source.new) }
    ensures write { result ≡ Status.WriteFault → K.faults out.old < K.faults out.new }
    ensures source_kept { (result ≡ Status.ReadFault)
        ⊎ (S.faults source.new ≡ S.faults source.old) }
    ensures out_kept { (result ≡ Status.WriteFault) ⊎ (K.faults out.new ≡ K.faults out.old) }
    ensures files { F.files folder.new ≡ F.files folder.old }
    ensures taken { (bs : List ℕ) × Consumes (S.left source.old) (S.left source.new) bs }
{
    let LiveRequest {
        options,
        workers,
        lanes,
        mirror,
        json,
        plan,
    } = request;
    let Ok(items) = items_of(alloc, plan) else {
        return Status::Memory;
    };
    let mode = LiveMode {
        json,
        mirrored: mirror,
    };
    let plan = items.as_slice();
    let status = lived(
        rt, alloc, plan, &options, workers, lanes, mode, folder, source, out, gate,
    );
    drop(items);
    status
}
