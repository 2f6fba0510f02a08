//! What the program writes about a day amended by late trips.
ghost use Rattle.std.specs.Prelude.{◌≡◌, ◌<◌, ◌-◌, ◌^◌, ◌∷◌, [], ◌++◌, Err, false, IfErr, IfOk, MatchResult, Ok, OnOk, Some, length, slice_get, true, vec_len};
ghost use Rattle.answer_text.specs.Questions.{HasTimes};
ghost use Rattle.tb_base.specs.Refusals.{IsRefused};
ghost use Rattle.edition_store.specs.Editions.{EditionData};
ghost use Rattle.late_edit.specs.Amended.{amended};
ghost use Rattle.late_edit.specs.Touched.{touched_count};
ghost use Rattle.late_edit.specs.Amending.{edition_lines};
ghost use Rattle.late_edit.specs.LateFiles.{UpdatesGive};
ghost use Rattle.query_gate.specs.Callers.{CallerData};
ghost use Rattle.tb_base.specs.Workers.{AreWorkers};
ghost use Rattle.router_cli.specs.Answers.{ShowsReply};
ghost use Rattle.router_cli.specs.Outcome.{LeavesFolder, LeavesOut};
ghost use Rattle.router_cli.specs.LateTrips.{HasNoUpdates, IsAmendedText, IsLateAnswer, IsLateText, IsNoLateAnswer, IsNotAmended, amended_json, amended_shown, amended_text, ask_of};

use crate::day::table_of;
use crate::status::{Status, at_number};
use answer_json::{Frame, add_count, add_total};
use answer_text::{Question, Text};
use command_line::{Inquiry, LateRequest};
use edition_build::build_edition;
use edition_store::{Edition, Last, Naming, Opened, Publisher, Seat, Shared, Store};
use gtfs_rows::FeedFault;
use late_edit::{Amended, LateFault, LateTaken, Update, amend, take_late};
use query_gate::{Caller, shown_reply};
use std::alloc::Global;
use std::marker::Brand;
use std::sync::Wait;
use std::thread::Threads;
use tb_base::{Gate, Memory, Name, Refused, Timetable};
use tb_io::Folder;

// What a file of the folder says of trips.
fn updates_from<F: Folder>(alloc: Global, folder: &mut F, path: &str) -> Result<Vec<Update>, Status>
    requires { F.faults folder.old < 2 ^ 64 - 1 }
    ensures updates { IfOk result (λ updates.
        UpdatesGive (F.files folder.old) path.now (Ok updates.items)) }
    ensures kept { IfOk result (λ _. F.faults folder.new ≡ F.faults folder.old) }
    ensures refused { IfErr result (HasNoUpdates (F.files folder.old) path.now
        (F.faults folder.old) (F.faults folder.new)) }
    ensures files { F.files folder.new ≡ F.files folder.old }
{
    match take_late(alloc, folder, path) {
        Ok(updates) => Ok(updates),
        Err(LateTaken::Fault(fault)) => Err(Status::LateRefused(fault)),
        Err(LateTaken::ReadFault) => Err(Status::ReadFault),
        Err(LateTaken::Memory) => Err(Status::Memory),
    }
}

// Adds `{"edition":2,"redone":N,"kept":N}`.
fn add_amended(text: &mut Text, redone: u32, kept: u64) -> Result<(), Memory>
    ensures { OnOk result (text.new ≡ text.old ++ amended_json redone kept) }
{
    text.add(b"{\"edition\":2")?;
    add_count(text, b"redone", redone)?;
    add_total(text, b"kept", kept)?;
    text.add(b"}\n")
}

// `{"edition":2,"redone":N,"kept":N}`.
fn amended_json(alloc: Global, redone: u32, kept: u64) -> Result<Vec<u8>, Memory>
    ensures { IfOk result (λ text. text.items ≡ amended_json redone kept) }
{
    let mut text = Text::new(alloc);
    add_amended(&mut text, redone, kept)?;
    Ok(text.into_bytes())
}

// `edition 2 redone N kept N`.
fn amended_text(alloc: Global, redone: u32, kept: u64) -> Result<Vec<u8>, Memory>
    ensures { IfOk result (λ text. text.items ≡ amended_text redone kept) }
{
    let mut line = at_number(alloc, b"edition 2 redone ", redone)?;
    let Ok(rest) = format!(in alloc; " kept {kept}\n") else {
        return Err(Memory);
    };
    line.extend_from_slice(rest.as_bytes())?;
    Ok(line)
}

// The one or the other.
fn amended_shown(alloc: Global, json: bool, redone: u32, kept: u64) -> Result<Vec<u8>, Memory>
    ensures { IfOk result (λ text. text.items ≡ amended_shown json redone kept) }
{
    if json {
        amended_json(alloc, redone, kept)
    } else {
        amended_text(alloc, redone, kept)
    }
}

// The whole list, which one more edition ends.
fn whole_with<J: Naming, R: Wait>(
    rt: &R,
    publisher: Publisher<J>,
    last: Shared,
) -> Result<Last<J>, Memory>
    requires { length publisher < 100 }
    ensures { IfOk result (λ l. l ≡ publisher ++ last ∷ []) }
{
    match publisher.publish(rt, last) {
        Ok((publisher, receipt)) => {
            drop(receipt);
            Ok(publisher.finish(rt))
        }
        Err(refused) => {
            drop(refused.end(rt));
            Err(Memory)
        }
    }
}

// One who asks from one of these seats, and has learned the whole list.
fn learned<J: Naming>(
    alloc: Global,
    seats: Vec<Seat<J>>,
    whole: &Last<J>,
) -> Result<Caller<J>, Memory>
    requires { 0 < vec_len seats }
    ensures { IfOk result
        (λ c. CallerData.kept c ≡ record { list = whole.now; closed = true }) }
{
    let mut seats = seats;
    let Some(seat) = seats.pop() else {
        unreachable!()
    };
    drop(seats);
    let mut caller = Caller::new(alloc, seat);
    match caller.learn_last(whole) {
        Ok(()) => Ok(caller),
        Err(Memory) => {
            drop(caller);
            Err(Memory)
        }
    }
}

// The question that an inquiry asks.
fn ask_question(alloc: Global, inquiry: &Inquiry) -> Result<Question, Memory>
    ensures question { IfOk result (λ q. q ≡ ask_of inquiry.now) }
    ensures times { IfOk result HasTimes }
{
    Ok(Question::Ask {
        from: Name::new(alloc, inquiry.from)?,
        to: Name::new(alloc, inquiry.to)?,
        leave: inquiry.time,
    })
}

// The best values, asked by a caller who keeps a whole list.
fn ask_by<J: Naming>(
    alloc: Global,
    json: bool,
    caller: &mut Caller<J>,
    inquiry: &Inquiry,
) -> Result<Vec<u8>, Memory>
    requires { caller.old.kept.closed ≡ true }
    ensures { (e : EditionData) →
        slice_get caller.old.kept.list (length caller.old.kept.list - 1) ≡ Some e →
        IfOk result (λ text. ShowsReply json e.table false (ask_of inquiry.now) text.items) }
{
    let question = ask_question(alloc, inquiry)?;
    let answer = caller.answer(alloc, 0, &question)?;
    let edition = answer.pinned.edition();
    edition.soundness();
    let text = shown_reply(alloc, json, Frame::Lines, edition.table(), &answer.reply);
    drop(answer);
    text
}

// The best values by the last edition of the whole list.
fn ask_whole<J: Naming>(
    alloc: Global,
    json: bool,
    seats: Vec<Seat<J>>,
    whole: &Last<J>,
    inquiry: &Inquiry,
) -> Result<Vec<u8>, Memory>
    requires { 0 < vec_len seats }
    ensures { (e : EditionData) → slice_get whole.now (length whole.now - 1) ≡ Some e →
        IfOk result (λ text. ShowsReply json e.table false (ask_of inquiry.now) text.items) }
{
    let mut caller = learned(alloc, seats, whole)?;
    let text = ask_by(alloc, json, &mut caller, inquiry);
    drop(caller);
    text
}

// The best values by the last of two editions that are published one after the other.
fn ask_last<J: Naming, R: Wait>(
    rt: &R,
    alloc: Global,
    json: bool,
    opened: Opened<Edition>,
    first: Shared,
    last: Shared,
    inquiry: &Inquiry,
) -> Result<Vec<u8>, Memory>
    requires { opened.seen.book ≡ J.book }
    ensures { IfOk result (λ text.
        ShowsReply json (EditionData.table last) false (ask_of inquiry.now) text.items) }
{
    match Store::new::<J>(alloc, opened, first, 1) {
        Ok((publisher, seats)) => match whole_with(rt, publisher, last) {
            Ok(whole) => {
                let text = ask_whole(alloc, json, seats, &whole, inquiry);
                drop(whole);
                text
            }
            Err(Memory) => {
                drop(seats);
                Err(Memory)
            }
        },
        Err(Memory) => {
            drop(last);
            Err(Memory)
        }
    }
}

// What is written of an edition, and of the one that late trips make of it, which touches so many
// trips.
fn editions_text<R: Wait>(
    rt: &R,
    alloc: Global,
    json: bool,
    old: Shared,
    edition: Shared,
    redone: u32,
    inquiry: &Inquiry,
) -> Result<Vec<u8>, Memory>
    requires { redone ≡ touched_count (edition_lines old) (edition_lines edition) }
    ensures { IfOk result (λ text. IsAmendedText json (EditionData.table old)
        (EditionData.table edition) inquiry.now text.items) }
{
    old.edition().soundness();
    edition.edition().soundness();
    let kept = edition.edition().kept();
    let answer = ask_last::<Brand, R>(rt, alloc, json, Opened::new(), old, edition, inquiry)?;
    let mut text = amended_shown(alloc, json, redone, kept)?;
    text.extend_from_slice(answer.as_slice())?;
    Ok(text)
}

// What is written of a timetable and what late trips make of it, or the first fault of a late.
fn amended_answer<R: Threads + Wait + Sync, G: Gate>(
    rt: &R,
    alloc: Global,
    table: Timetable,
    updates: &[Update],
    inquiry: &Inquiry,
    json: bool,
    workers: u32,
    gate: &G,
) -> Result<Vec<u8>, Refused<LateFault>>
    requires { AreWorkers workers }
    ensures { MatchResult result (λ text. IsLateText json table updates.now inquiry.now text.items)
        (IsRefused (amended table updates.now)) }
{
    let old = build_edition(rt, alloc, table, workers, gate)?;
    match amend(alloc, old.edition(), updates) {
        Ok(Amended { edition, redone }) => {
            let edition = Shared::new(alloc, edition)?;
            edition.edition().soundness();
            Ok(editions_text(rt, alloc, json, old, edition, redone, inquiry)?)
        }
        Err(refused) => {
            drop(old);
            Err(refused)
        }
    }
}

// The same, or why there is no text.
fn late_answer<R: Threads + Wait + Sync, G: Gate>(
    rt: &R,
    alloc: Global,
    table: Timetable,
    updates: &[Update],
    request: &LateRequest,
    gate: &G,
) -> Result<Vec<u8>, Status>
    ensures text { IfOk result (λ text.
        IsLateText request.now.json table updates.now request.now.inquiry text.items) }
    ensures refused { IfErr result (IsNotAmended table updates.now) }
{
    match amended_answer(
        rt,
        alloc,
        table,
        updates,
        &request.inquiry,
        request.json,
        request.workers,
        gate,
    ) {
        Ok(text) => Ok(text),
        Err(Refused::Fault(fault)) => Err(Status::LateRefused(fault)),
        Err(Refused::Memory) => Err(Status::Memory),
    }
}

/// What is written by the timetable of a day that the late trips of a file amend, once both
/// editions are published. The file is read once the timetable of the day is there. It may wait.
pub(crate) fn late_text<R: Threads + Wait + Sync, F: Folder, G: Gate>(
    rt: &R,
    alloc: Global,
    request: &LateRequest,
    folder: &mut F,
    left_out: &mut Vec<FeedFault>,
    gate: &G,
) -> Result<Vec<u8>, Status>
    requires count { F.faults folder.old < 2 ^ 64 - 1 }
    requires none { left_out.old.items ≡ [] }
    ensures text { IfOk result (λ text.
        IsLateAnswer (F.files folder.old) request.now text.items) }
    ensures refused { IfErr result (IsNoLateAnswer (F.files folder.old) request.now) }
    ensures left_out { IfOk result (λ _. LeavesOut (F.files folder.old) request.now.dir
        request.now.date request.now.options left_out.new.items) }
    ensures leaves { LeavesFolder (result ≡ Err Status.ReadFault) (F.files folder.old)
        (F.files folder.new) (F.faults folder.old) (F.faults folder.new) }
{
    let table = match table_of(
        alloc,
        folder,
        request.dir,
        &request.day,
        &request.options,
        left_out,
    ) {
        Ok(table) => table,
        Err(status) => return Err(status),
    };
    match updates_from(alloc, folder, request.file) {
        Ok(updates) => late_answer(rt, alloc, table, updates.as_slice(), request, gate),
        Err(status) => {
            drop(table);
            Err(status)
        }
    }
}
