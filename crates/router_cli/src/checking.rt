//! What the program writes of a check of a feed.
ghost use Rattle.std.specs.Prelude.{◌≡◌, ◌⊎◌, ◌<◌, ◌-◌, ◌^◌, IfErr, IfOk, length};
ghost use Rattle.gtfs_rows.specs.Told.{none_told, tell_all};
ghost use Rattle.answer_json.specs.Checks.{shown_check};
ghost use Rattle.router_cli.specs.Checks.{IsCheckOutcome, check_shown, whole_status};

use crate::status::Status;
use crate::warned::warnings_shown;
use crate::writing::write;
use answer_json::shown_check;
use command_line::CheckRequest;
use gtfs_rows::{FeedFault, ToldFaults};
use std::alloc::Global;
use tb_base::Memory;
use tb_io::{Folder, Sink};
use trip_table::{DayFault, Warning, check_feed, feed_warnings};

// Faults, told one after another.
fn told_of(alloc: Global, faults: Vec<FeedFault>) -> Result<ToldFaults, Memory>
    ensures { IfOk result (λ told. told ≡ tell_all none_told faults.items) }
{
    let mut told = ToldFaults::new(alloc);
    for fault in faults {
        told.tell(fault)?;
    }
    Ok(told)
}

// What is written of all faults of a feed.
fn faults_text(alloc: Global, json: bool, faults: Vec<FeedFault>) -> Result<Vec<u8>, Memory>
    ensures { IfOk result (λ text.
        text.items ≡ shown_check json (tell_all none_told faults.items) (length faults.items)) }
{
    let count = faults.len() as u64;
    let told = told_of(alloc, faults)?;
    let text = shown_check(alloc, json, &told, count);
    drop(told);
    text
}

// What is written of all faults of a feed, and of what is read, but likely not meant.
fn check_text(
    alloc: Global,
    json: bool,
    faults: Vec<FeedFault>,
    warnings: &[Warning],
) -> Result<Vec<u8>, Status>
    ensures text { IfOk result (λ text.
        text.items ≡ check_shown json faults.items warnings.now) }
    ensures refused { IfErr result (λ status. status ≡ Status.Memory) }
{
    let mut text = faults_text(alloc, json, faults)?;
    let more = warnings_shown(alloc, json, warnings)?;
    match text.extend_from_slice(more.as_slice()) {
        Ok(()) => Ok(text),
        Err(_) => Err(Status::Memory),
    }
}

// How a check ends that is written whole.
fn whole_status(faults: &[FeedFault]) -> Status
    ensures { result ≡ whole_status faults.now }
{
    match faults {
        [] => Status::Done,
        _ => Status::FaultsFound,
    }
}

// How a check ends by how its writing did: where it was written whole, as said.
fn ended(written: Status, whole: Status) -> Status
    ensures { (written ≡ Status.Done × (result ≡ whole))
        ⊎ ((written ≡ Status.Done → ⊥) × (result ≡ written)) }
{
    match written {
        Status::Done => whole,
        status => {
            drop(whole);
            status
        }
    }
}

/// Writes all faults of a feed on a day, and what is read of it, but likely not meant. It has no
/// handle that waits, so it returns.
pub(crate) fn check_status<F: Folder, K: Sink>(
    alloc: Global,
    request: &CheckRequest,
    folder: &mut F,
    out: &mut K,
) -> Status
    requires folder { F.faults folder.old < 2 ^ 64 - 1 }
    requires out { K.faults out.old < 2 ^ 64 - 1 }
    ensures outcome { IsCheckOutcome (F.files folder.old) request.now result (K.written out.old)
        (K.written out.new) }
    ensures quiet { (result ≡ Status.Done) ⊎ (result ≡ Status.FaultsFound)
        ⊎ (result ≡ Status.WriteFault) ⊎ (K.written out.new ≡ K.written out.old) }
    ensures read { result ≡ Status.ReadFault → F.faults folder.old < F.faults folder.new }
    ensures folder_kept { (result ≡ Status.ReadFault)
        ⊎ (F.faults folder.new ≡ F.faults folder.old) }
    ensures write { result ≡ Status.WriteFault → K.faults out.old < K.faults out.new }
    ensures out_kept { (result ≡ Status.WriteFault) ⊎ (K.faults out.new ≡ K.faults out.old) }
    ensures files { F.files folder.new ≡ F.files folder.old }
{
    let found = feed_warnings(alloc, folder, request.dir, &request.day, &request.options);
    let warnings = match found {
        Ok(warnings) => warnings,
        Err(DayFault::ReadFault) => return Status::ReadFault,
        Err(DayFault::Memory) => return Status::Memory,
        Err(DayFault::Feed(_)) => unreachable!(),
    };
    let faults = match check_feed(alloc, folder, request.dir, &request.day, &request.options) {
        Ok(faults) => faults,
        Err(DayFault::ReadFault) => return Status::ReadFault,
        Err(DayFault::Memory) => return Status::Memory,
        Err(DayFault::Feed(_)) => unreachable!(),
    };
    let whole = whole_status(faults.as_slice());
    let text = check_text(alloc, request.json, faults, warnings.as_slice());
    ended(write(out, text), whole)
}
