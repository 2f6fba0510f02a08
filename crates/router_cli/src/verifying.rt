//! What the program writes about a claimed journey.
ghost use Rattle.std.specs.Prelude.{◌≡◌, ◌<◌, ◌-◌, ◌^◌, [], Err, IfErr, IfOk, List, Ok, length, ℕ};
ghost use Rattle.std.specs.Io.KnownBytes.{Consumes};
ghost use Rattle.tb_base.specs.BestValues.{ChoiceData};
ghost use Rattle.tb_base.specs.Refusals.{Yields};
ghost use Rattle.router_cli.specs.Outcome.{LeavesOut, LeavesOutside, status_of_text};
ghost use Rattle.router_cli.specs.Verifying.{ClaimGives, HasDay, IsNoClaim, IsNoVerifyAnswer, IsVerifyAnswer, IsVerifiedText, LeavesClaim, claim_as};

use crate::day::table_of;
use crate::over_table::{Asked, query_of};
use crate::status::Status;
use crate::verdicts::verdict_shown;
use answer_json::shown_unknown;
use command_line::{Inquiry, VerifyRequest};
use gtfs_rows::FeedFault;
use journey_read::{Claimed, JourneyFault, judge, read_journey, read_json_journey};
use std::alloc::Global;
use tb_base::{Memory, Refused, Timetable};
use tb_io::{Folder, Source, Taken, take_source};

// No claim has more bytes.
const MOST_BYTES: u64 = 1_048_576;

// What bytes claim over a timetable, as JSON or as lines.
fn read_claim(
    alloc: Global,
    json: bool,
    table: &Timetable,
    bytes: &[u8],
) -> Result<Claimed, Refused<JourneyFault>>
    ensures claim { Yields result (λ c. c) (claim_as json table.now bytes.now) }
    ensures count { IfOk result (λ c. length c.legs < 2 ^ 32) }
{
    if json {
        read_json_journey(alloc, table, bytes)
    } else {
        read_journey(alloc, table, bytes)
    }
}

// The claim that a source makes over a timetable.
fn claim_from<S: Source>(
    alloc: Global,
    json: bool,
    table: &Timetable,
    source: &mut S,
) -> Result<Claimed, Status>
    requires { S.faults source.old < 2 ^ 64 - 1 }
    ensures claim { IfOk result (λ c. ClaimGives json table.now (S.left source.old) (Ok c)) }
    ensures count { IfOk result (λ c. length c.legs < 2 ^ 32) }
    ensures kept { IfOk result (λ _. S.faults source.new ≡ S.faults source.old) }
    ensures refused { IfErr result (IsNoClaim json table.now (S.left source.old)
        (S.faults source.old) (S.faults source.new)) }
    ensures read { (bs : List ℕ) × Consumes (S.left source.old) (S.left source.new) bs }
{
    match take_source(alloc, source, MOST_BYTES) {
        Ok(bytes) => match read_claim(alloc, json, table, bytes.as_slice()) {
            Ok(claimed) => Ok(claimed),
            Err(Refused::Fault(fault)) => Err(Status::JourneyRefused(fault)),
            Err(Refused::Memory) => Err(Status::Memory),
        },
        Err(Taken::TooLarge) => Err(Status::JourneyRefused(JourneyFault::TooLong)),
        Err(Taken::ReadFault) => Err(Status::ReadFault),
        Err(Taken::Memory) => Err(Status::Memory),
    }
}

// What is written of a claim between the two places of an inquiry.
fn verified_text(
    alloc: Global,
    json: bool,
    table: &Timetable,
    inquiry: &Inquiry,
    claimed: &Claimed,
) -> Result<Vec<u8>, Memory>
    requires { length claimed.now.legs < 2 ^ 32 }
    ensures { IfOk result (λ text.
        IsVerifiedText json table.now inquiry.now claimed.now text.items) }
{
    match query_of(alloc, table, inquiry.from, inquiry.to, inquiry.time)? {
        Asked::Unknown(name) => shown_unknown(alloc, json, name),
        Asked::Query(query) => verdict_shown(alloc, json, judge(table, &query, claimed)),
    }
}

// What is written of the claim that a source makes over a timetable.
fn claimed_text<S: Source>(
    alloc: Global,
    json: bool,
    table: &Timetable,
    source: &mut S,
    inquiry: &Inquiry,
) -> Result<Vec<u8>, Status>
    requires { S.faults source.old < 2 ^ 64 - 1 }
    ensures text { IfOk result (λ text. (claimed : ChoiceData)
        × ClaimGives json table.now (S.left source.old) (Ok claimed)
        × IsVerifiedText json table.now inquiry.now claimed text.items) }
    ensures kept { IfOk result (λ _. S.faults source.new ≡ S.faults source.old) }
    ensures refused { IfErr result (IsNoClaim json table.now (S.left source.old)
        (S.faults source.old) (S.faults source.new)) }
    ensures read { (bs : List ℕ) × Consumes (S.left source.old) (S.left source.new) bs }
{
    let claimed = match claim_from(alloc, json, table, source) {
        Ok(claimed) => claimed,
        Err(status) => return Err(status),
    };
    let text = verified_text(alloc, json, table, inquiry, &claimed);
    drop(claimed);
    Ok(text?)
}

/// The verdict on the journey that a source claims over one day of a feed. The source is read once
/// the timetable of the day is there. It has no handle that waits, so it returns.
pub(crate) fn verify_text<F: Folder, S: Source>(
    alloc: Global,
    request: &VerifyRequest,
    folder: &mut F,
    source: &mut S,
    left_out: &mut Vec<FeedFault>,
) -> Result<Vec<u8>, Status>
    requires folder { F.faults folder.old < 2 ^ 64 - 1 }
    requires none { left_out.old.items ≡ [] }
    requires source { S.faults source.old < 2 ^ 64 - 1 }
    ensures text { IfOk result (λ text.
        IsVerifyAnswer (F.files folder.old) (S.left source.old) request.now text.items) }
    ensures refused { IfErr result
        (IsNoVerifyAnswer (F.files folder.old) (S.left source.old) request.now) }
    ensures later { result ≡ Err Status.ReadFault → F.faults folder.new ≡ F.faults folder.old →
        HasDay (F.files folder.old) request.now }
    ensures left_out { IfOk result (λ _. LeavesOut (F.files folder.old) request.now.dir
        request.now.date request.now.options left_out.new.items) }
    ensures leaves { LeavesOutside (result ≡ Err Status.ReadFault) (F.files folder.old)
        (F.files folder.new) (F.faults folder.old) (F.faults folder.new) (S.faults source.old)
        (S.faults source.new) }
    ensures left { LeavesClaim (status_of_text result) (S.left source.old) (S.left source.new)
        (S.faults source.old) (S.faults source.new) }
{
    let table = match table_of(
        alloc,
        folder,
        request.dir,
        &request.day,
        &request.options,
        left_out,
    ) {
        Ok(table) => table,
        Err(status) => return Err(status),
    };
    let text = claimed_text(alloc, request.json, &table, source, &request.inquiry);
    drop(table);
    text
}
