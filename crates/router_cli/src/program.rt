//! All that the program does.
ghost use Rattle.std.specs.Prelude.{◌≡◌, ◌⊎◌, ◌<◌, ◌-◌, ◌^◌, [], Err, IfErr, IfOk, IfSome, IsSome, None, Some, map, string_bytes};
ghost use Rattle.command_line.specs.Requests.{request_of};
ghost use Rattle.router_cli.specs.Outcome.{LeavesOutside, status_of_text};
ghost use Rattle.router_cli.specs.Promise.{HasLivedOn, HasReadBehind, IsGathered, IsNoRequestAnswer, IsRequestAnswer, IsRequestEnding, IsRequestOutcome, LeavesScript, ReadsBehind, TellsFirst, TellsLeftOut, WriteAsTheyGo};

use crate::checking::check_status;
use crate::day::day_text;
use crate::late_trips::late_text;
use crate::living::live_status;
use crate::made_city::city_text;
use crate::matrix::matrix_status;
use crate::serving::run_text;
use crate::status::Status;
use crate::verifying::verify_text;
use crate::writing::write;
use command_line::{Request, request_of};
use gtfs_rows::FeedFault;
use std::alloc::Global;
use std::sync::Wait;
use std::thread::Threads;
use tb_base::{Gate, Memory};
use tb_io::{Folder, Sink, Source};
use trip_table::laws::{asked_determined, lenient_determined};

// What is written for a request whose text is gathered first, or why nothing is.
fn request_text<R: Threads + Wait + Sync, F: Folder + Send, S: Source, G: Gate>(
    rt: &R,
    alloc: Global,
    request: Request,
    folder: &mut F,
    source: &mut S,
    left_out: &mut Vec<FeedFault>,
    gate: &G,
) -> Result<Vec<u8>, Status>
    requires gathered { IsGathered request }
    requires none { left_out.old.items ≡ [] }
    requires folder { F.faults folder.old < 2 ^ 64 - 1 }
    requires source { S.faults source.old < 2 ^ 64 - 1 }
    ensures text { IfOk result (λ text.
        IsRequestAnswer (F.files folder.old) (S.left source.old) request.entry text.items) }
    ensures refused { IfErr result
        (IsNoRequestAnswer (F.files folder.old) (S.left source.old) request.entry) }
    ensures script { S.faults source.new ≡ S.faults source.old →
        TellsFirst (S.left source.old) request.entry (status_of_text result) }
    ensures later { result ≡ Err Status.ReadFault → F.faults folder.new ≡ F.faults folder.old →
        ReadsBehind (F.files folder.old) request.entry }
    ensures left_out { IfOk result (λ _.
        TellsLeftOut (F.files folder.old) request.entry left_out.new.items) }
    ensures leaves { LeavesOutside (result ≡ Err Status.ReadFault) (F.files folder.old)
        (F.files folder.new) (F.faults folder.old) (F.faults folder.new) (S.faults source.old)
        (S.faults source.new) }
    ensures left { LeavesScript (Some request.entry) (status_of_text result) (S.left source.old)
        (S.left source.new) (S.faults source.old) (S.faults source.new) }
{
    match request {
        Request::Day(request) => {
            let text = day_text(rt, alloc, &request, folder, left_out, gate);
            drop(request);
            text
        }
        Request::Serve(request) => run_text(rt, alloc, request, folder, source, gate),
        Request::Live(_) | Request::Matrix(_) | Request::Check(_) => unreachable!(),
        Request::City(request) => {
            let workers = request.workers;
            Ok(city_text(rt, alloc, request.json, request.side, workers, gate)?)
        }
        Request::Verify(request) => {
            let text = verify_text(alloc, &request, folder, source, left_out);
            drop(request);
            text
        }
        Request::Late(request) => {
            let text = late_text(rt, alloc, &request, folder, left_out, gate);
            drop(request);
            text
        }
    }
}

/// Does all that the program does: from the words, the files of the folder and the bytes of the
/// script to the bytes written to `out`. The order is: words, script, feeds, work, output.
///
/// `Usage` comes only where the words have no meaning, and there nothing comes but it and `Memory`.
/// With any status but `Done`, `FaultsFound` and `WriteFault` nothing is written, since the whole
/// text is gathered before its first byte is written; with `WriteFault` a first part of it. Only
/// `live` and `matrix` write as they go: `live` as the lines of the script come, `matrix` as rows
/// are found, so that with `Memory` those of some first origins may be written. It is JSON where
/// the words ask for that. `FaultsFound` comes for a check alone: it was written whole, and tells
/// faults. Whatever the folder is, what is written is the answer over sound timetables; where it
/// tells its contents, over those of the days. A script is read by a run of several days alone; its
/// first fault comes before what the feeds give. A claim is read from the same source, and so are
/// origins that no file names, and nothing of them where the feed is refused. The faults of both,
/// and those of late trips, come only where the day has a timetable. Where a read fails, it is of
/// the folder or of the source, and never of both. `Memory` may come at any time, and no fault in
/// another status tells of it. Where contents are told and no count of faults rises, the end is the
/// first fault, or `Done` where there is none; or `Memory`; a check ends with `Done` exactly where
/// there is no fault.
///
/// With `Done` the faults for which rows of the request's day are left out are in `left_out`. There
/// are none but with `--lenient`; of the days of a run, which are read likewise, none are told.
///
/// For `live`, where the script tells its bytes, what is written with `Done` is for each of its
/// lines in order the text of the right reply by the edition of which it is, and these never go
/// back; the list of editions is that of the lawful days in order, those of the words first, then
/// those that lines name; and of each day it is told what became of it, that it can't be read only
/// where the folder's count of faults rose, which rises only where this is told. With
/// `FeedRefused`, which tells of the first day, nothing is written, and nothing read of the script.
/// With `ReadFault` neither, where the folder failed before the first day was published; else what
/// is written is that of the lines before the fault. With `Memory` neither, or what is written is
/// that of some first lines; with `WriteFault` a first part of such. The editions of a run that
/// ends so are those of the lawful ones among some first days, of the words and of the lines that
/// it read, in that order, and it told what became of first ones of these. A day behind the first
/// one that can't be read, or for which there is no memory, ends nothing: so the folder's count of
/// faults may rise there, once the news of the first day are written, with any status but
/// `FeedRefused`.
///
/// That the gate is told of the pieces that workers reduce, and of the publications and requests of
/// a run, is tested and in no clause. Its own work ends; it joins the workers that it starts. A
/// run, and a day with late trips, which publish, may wait.
pub fn route<R: Threads + Wait + Sync, F: Folder + Send, S: Source, K: Sink, G: Gate>(
    rt: &R,
    alloc: Global,
    words: &[String],
    folder: &mut F,
    script: &mut S,
    out: &mut K,
    left_out: &mut Vec<FeedFault>,
    gate: &G,
) -> Status
    requires none { left_out.old.items ≡ [] }
    requires folder { F.faults folder.old < 2 ^ 64 - 1 }
    requires script { S.faults script.old < 2 ^ 64 - 1 }
    requires out { K.faults out.old < 2 ^ 64 - 1 }
    ensures usage { result ≡ Status.Usage → request_of (map string_bytes words.now) ≡ None }
    ensures wrong_words { request_of (map string_bytes words.now) ≡ None →
        (result ≡ Status.Usage) ⊎ (result ≡ Status.Memory) }
    ensures promise { IfSome (request_of (map string_bytes words.now)) (λ r.
        IsRequestOutcome (F.files folder.old) (F.faults folder.old) (F.faults folder.new)
        (S.left script.old) (S.left script.new) r result (K.written out.old)
        (K.written out.new)) }
    ensures script { IfSome (request_of (map string_bytes words.now)) (λ r.
        S.faults script.new ≡ S.faults script.old → TellsFirst (S.left script.old) r result) }
    ensures later { IfSome (request_of (map string_bytes words.now)) (λ r.
        result ≡ Status.ReadFault → F.faults folder.new ≡ F.faults folder.old →
        HasReadBehind (F.files folder.old) (S.left script.old) (S.left script.new) r
        (K.written out.old) (K.written out.new)) }
    ensures left_out { IfSome (request_of (map string_bytes words.now)) (λ r.
        result ≡ Status.Done → TellsLeftOut (F.files folder.old) r left_out.new.items) }
    ensures quiet { (result ≡ Status.Done) ⊎ (result ≡ Status.FaultsFound)
        ⊎ (result ≡ Status.WriteFault) ⊎ (K.written out.new ≡ K.written out.old)
        ⊎ WriteAsTheyGo (request_of (map string_bytes words.now)) }
    ensures read { result ≡ Status.ReadFault → (F.faults folder.old < F.faults folder.new)
        ⊎ (S.faults script.old < S.faults script.new) }
    ensures alone { (F.faults folder.new ≡ F.faults folder.old)
        ⊎ (S.faults script.new ≡ S.faults script.old)
        ⊎ HasLivedOn (request_of (map string_bytes words.now)) (K.written out.old)
        (K.written out.new) }
    ensures write { result ≡ Status.WriteFault → K.faults out.old < K.faults out.new }
    ensures refused { (f : FeedFault) → result ≡ Status.FeedRefused f →
        F.faults folder.new ≡ F.faults folder.old }
    ensures folder_kept { (result ≡ Status.ReadFault)
        ⊎ (F.faults folder.new ≡ F.faults folder.old)
        ⊎ HasLivedOn (request_of (map string_bytes words.now)) (K.written out.old)
        (K.written out.new) }
    ensures script_kept { (result ≡ Status.ReadFault)
        ⊎ (S.faults script.new ≡ S.faults script.old) }
    ensures out_kept { (result ≡ Status.WriteFault) ⊎ (K.faults out.new ≡ K.faults out.old) }
    ensures files { F.files folder.new ≡ F.files folder.old }
    ensures left { LeavesScript (request_of (map string_bytes words.now)) result
        (S.left script.old) (S.left script.new) (S.faults script.old) (S.faults script.new) }
    ensures complete { IfSome (request_of (map string_bytes words.now)) (λ r.
        IsSome (F.files folder.old) → F.faults folder.new ≡ F.faults folder.old →
        S.faults script.new ≡ S.faults script.old → K.faults out.new ≡ K.faults out.old →
        IsRequestEnding (F.files folder.old) (S.left script.old) r result) }
{
    asked_determined();
    lenient_determined();
    match request_of(alloc, words) {
        Ok(Some(Request::Live(request))) => {
            live_status(rt, alloc, request, folder, script, out, gate)
        }
        Ok(Some(Request::Matrix(request))) => {
            let status = matrix_status(rt, alloc, &request, folder, script, out, left_out, gate);
            drop(request);
            status
        }
        Ok(Some(Request::Check(request))) => {
            let status = check_status(alloc, &request, folder, out);
            drop(request);
            status
        }
        Ok(Some(request)) => {
            let text = request_text(rt, alloc, request, folder, script, left_out, gate);
            write(out, text)
        }
        Ok(None) => Status::Usage,
        Err(Memory) => Status::Memory,
    }
}
