//! What the program writes of the travel times from many origins.
ghost use Rattle.std.specs.Prelude.{◌≡◌, ◌⊎◌, ◌<◌, ◌≤◌, ◌-◌, ◌^◌, [], Err, IfErr, IfOk, IfSome, Ok, option_map, vec_len};
ghost use Rattle.command_line.specs.Matrices.{HasDepartures};
ghost use Rattle.router_cli.specs.Matrices.{HasMatrixDay, IsMatrixOutcome, IsMatrixOver, IsTooLong, LeavesNaming, LeavesOrigins, NameNone, NameOrigins, WritesRows, asked_of, form_of, naming_bytes};
ghost use Rattle.router_cli.specs.Outcome.{LeavesOut, LeavesOutside};

use crate::day::table_of;
use crate::status::Status;
use command_line::{Departing, MatrixRequest, OriginsNamed};
use edition_build::build;
use edition_store::Edition;
use gtfs_rows::FeedFault;
use lane_serve::{MatrixFault, RowForm, ScriptFault, TimesAsked, read_origins, write_matrix};
use std::alloc::Global;
use std::thread::Threads;
use tb_base::{Gate, Memory, Name, Refused, Timetable};
use tb_io::{Folder, Sink, Source, Taken, take_file, take_source};

// No origins have more bytes.
const MOST_BYTES: u64 = 33_554_432;

// The bytes that name origins: those of the source, or those of a file of the folder, if it is
// there.
fn naming_bytes<F: Folder, S: Source>(
    alloc: Global,
    origins: &OriginsNamed,
    folder: &mut F,
    source: &mut S,
) -> Result<Option<Vec<u8>>, Taken>
    requires folder { F.faults folder.old < 2 ^ 64 - 1 }
    requires source { S.faults source.old < 2 ^ 64 - 1 }
    ensures whole { IfOk result (λ taken. IfSome
        (naming_bytes (F.files folder.old) (S.left source.old) origins.now)
        (λ found. option_map (λ v. v.items) taken ≡ found)) }
    ensures within { IfOk result (λ taken. IfSome taken (λ v. vec_len v ≤ 33_554_432)) }
    ensures too_large { result ≡ Err Taken.TooLarge → IfSome
        (naming_bytes (F.files folder.old) (S.left source.old) origins.now) IsTooLong }
    ensures leaves { LeavesOutside (result ≡ Err Taken.ReadFault) (F.files folder.old)
        (F.files folder.new) (F.faults folder.old) (F.faults folder.new) (S.faults source.old)
        (S.faults source.new) }
    ensures left { LeavesNaming origins.now (result ≡ Err Taken.ReadFault) (S.left source.old)
        (S.left source.new) (S.faults source.old) (S.faults source.new) }
{
    match origins {
        OriginsNamed::Source => match take_source(alloc, source, MOST_BYTES) {
            Ok(bytes) => Ok(Some(bytes)),
            Err(taken) => Err(taken),
        },
        OriginsNamed::File(file) => take_file(alloc, folder, file.path, MOST_BYTES),
    }
}

// The origins that the source names, or a file of the folder.
fn origins_from<F: Folder, S: Source>(
    alloc: Global,
    origins: &OriginsNamed,
    folder: &mut F,
    source: &mut S,
) -> Result<Vec<Name>, Status>
    requires folder { F.faults folder.old < 2 ^ 64 - 1 }
    requires source { S.faults source.old < 2 ^ 64 - 1 }
    ensures origins { IfOk result (λ v. NameOrigins
        (naming_bytes (F.files folder.old) (S.left source.old) origins.now) (Ok v.items)) }
    ensures refused { IfErr result (NameNone
        (naming_bytes (F.files folder.old) (S.left source.old) origins.now)) }
    ensures leaves { LeavesOutside (result ≡ Err Status.ReadFault) (F.files folder.old)
        (F.files folder.new) (F.faults folder.old) (F.faults folder.new) (S.faults source.old)
        (S.faults source.new) }
    ensures left { LeavesNaming origins.now (result ≡ Err Status.ReadFault) (S.left source.old)
        (S.left source.new) (S.faults source.old) (S.faults source.new) }
{
    match naming_bytes(alloc, origins, folder, source) {
        Ok(Some(bytes)) => match read_origins(alloc, bytes.as_slice()) {
            Ok(names) => Ok(names),
            Err(Refused::Fault(fault)) => Err(Status::ScriptRefused(fault)),
            Err(Refused::Memory) => Err(Status::Memory),
        },
        Ok(None) => Err(Status::ScriptRefused(ScriptFault::MissingFile)),
        Err(Taken::TooLarge) => Err(Status::ScriptRefused(ScriptFault::TooLong)),
        Err(Taken::ReadFault) => Err(Status::ReadFault),
        Err(Taken::Memory) => Err(Status::Memory),
    }
}

// In which form the rows are written.
fn form_of(request: &MatrixRequest) -> RowForm
    ensures { result ≡ form_of request.now }
{
    if request.csv {
        RowForm::Csv
    } else if request.json {
        RowForm::Json
    } else {
        RowForm::Lines
    }
}

// What each origin is asked.
fn asked_of(departing: &Departing) -> TimesAsked
    ensures { result ≡ asked_of departing.now }
{
    TimesAsked {
        first: departing.first,
        last: departing.last,
        step: departing.step,
        rides: departing.rides,
    }
}

// Writes the rows of origins by the network of a day.
fn write_rows<R: Threads + Sync, K: Sink>(
    rt: &R,
    alloc: Global,
    request: &MatrixRequest,
    edition: &Edition,
    origins: &[Name],
    out: &mut K,
) -> Status
    requires { K.faults out.old < 2 ^ 64 - 1 }
    ensures written { WritesRows request.now edition.now.table origins.now result
        (K.written out.old) (K.written out.new) }
    ensures write { result ≡ Status.WriteFault → K.faults out.old < K.faults out.new }
    ensures out_kept { (result ≡ Status.WriteFault) ⊎ (K.faults out.new ≡ K.faults out.old) }
{
    let asked = asked_of(&request.departing);
    match write_matrix(
        rt,
        alloc,
        request.workers,
        form_of(request),
        edition,
        &asked,
        origins,
        out,
    ) {
        Ok(()) => Status::Done,
        Err(MatrixFault::WriteFault) => Status::WriteFault,
        Err(MatrixFault::Memory) => Status::Memory,
    }
}

// Makes the network of a day, and writes the rows of origins by it.
fn build_rows<R: Threads + Sync, K: Sink, G: Gate>(
    rt: &R,
    alloc: Global,
    request: &MatrixRequest,
    table: Timetable,
    origins: &[Name],
    out: &mut K,
    gate: &G,
) -> Status
    requires { K.faults out.old < 2 ^ 64 - 1 }
    ensures written { (result ≡ Status.Memory × (K.written out.new ≡ K.written out.old))
        ⊎ WritesRows request.now table origins.now result (K.written out.old)
        (K.written out.new) }
    ensures write { result ≡ Status.WriteFault → K.faults out.old < K.faults out.new }
    ensures out_kept { (result ≡ Status.WriteFault) ⊎ (K.faults out.new ≡ K.faults out.old) }
{
    match build(rt, alloc, table, request.workers, gate) {
        Ok(edition) => {
            let status = write_rows(rt, alloc, request, &edition, origins, out);
            drop(edition);
            status
        }
        Err(Memory) => Status::Memory,
    }
}

// Writes the rows of the origins that are named, over the timetable of a day.
fn rows_over<R: Threads + Sync, F: Folder, S: Source, K: Sink, G: Gate>(
    rt: &R,
    alloc: Global,
    request: &MatrixRequest,
    table: Timetable,
    folder: &mut F,
    source: &mut S,
    out: &mut K,
    gate: &G,
) -> Status
    requires folder { F.faults folder.old < 2 ^ 64 - 1 }
    requires source { S.faults source.old < 2 ^ 64 - 1 }
    requires out { K.faults out.old < 2 ^ 64 - 1 }
    ensures outcome { IsMatrixOver request.now table
        (naming_bytes (F.files folder.old) (S.left source.old) request.now.origins) result
        (K.written out.old) (K.written out.new) }
    ensures leaves { LeavesOutside (result ≡ Status.ReadFault) (F.files folder.old)
        (F.files folder.new) (F.faults folder.old) (F.faults folder.new) (S.faults source.old)
        (S.faults source.new) }
    ensures left { LeavesNaming request.now.origins (result ≡ Status.ReadFault)
        (S.left source.old) (S.left source.new) (S.faults source.old) (S.faults source.new) }
    ensures write { result ≡ Status.WriteFault → K.faults out.old < K.faults out.new }
    ensures out_kept { (result ≡ Status.WriteFault) ⊎ (K.faults out.new ≡ K.faults out.old) }
{
    match origins_from(alloc, &request.origins, folder, source) {
        Ok(origins) => {
            let named = origins.as_slice();
            let status = build_rows(rt, alloc, request, table, named, out, gate);
            drop(origins);
            status
        }
        Err(status) => {
            drop(table);
            status
        }
    }
}

/// Writes travel times from the origins that are named, by the source or by a file of the folder,
/// to every stop, over one day of a feed: the rows of a run of origins after those of the one
/// before. The origins are read once the timetable of the day is there. It has no handle that
/// waits, so it returns.
pub(crate) fn matrix_status<R: Threads + Sync, F: Folder, S: Source, K: Sink, G: Gate>(
    rt: &R,
    alloc: Global,
    request: &MatrixRequest,
    folder: &mut F,
    source: &mut S,
    out: &mut K,
    left_out: &mut Vec<FeedFault>,
    gate: &G,
) -> Status
    requires folder { F.faults folder.old < 2 ^ 64 - 1 }
    requires none { left_out.old.items ≡ [] }
    requires source { S.faults source.old < 2 ^ 64 - 1 }
    requires out { K.faults out.old < 2 ^ 64 - 1 }
    ensures outcome { IsMatrixOutcome (F.files folder.old) (S.left source.old) request.now result
        (K.written out.old) (K.written out.new) }
    ensures left_out { result ≡ Status.Done → LeavesOut (F.files folder.old) request.now.dir
        request.now.date request.now.options left_out.new.items }
    ensures later { result ≡ Status.ReadFault → F.faults folder.new ≡ F.faults folder.old →
        HasMatrixDay (F.files folder.old) request.now }
    ensures read { result ≡ Status.ReadFault → (F.faults folder.old < F.faults folder.new)
        ⊎ (S.faults source.old < S.faults source.new) }
    ensures alone { (F.faults folder.new ≡ F.faults folder.old)
        ⊎ (S.faults source.new ≡ S.faults source.old) }
    ensures folder_kept { (result ≡ Status.ReadFault)
        ⊎ (F.faults folder.new ≡ F.faults folder.old) }
    ensures source_kept { (result ≡ Status.ReadFault)
        ⊎ (S.faults source.new ≡ S.faults source.old) }
    ensures write { result ≡ Status.WriteFault → K.faults out.old < K.faults out.new }
    ensures out_kept { (result ≡ Status.WriteFault) ⊎ (K.faults out.new ≡ K.faults out.old) }
    ensures files { F.files folder.new ≡ F.files folder.old }
    ensures left { LeavesOrigins request.now.origins result (S.left source.old)
        (S.left source.new) (S.faults source.old) (S.faults source.new) }
{
    match table_of(
        alloc,
        folder,
        request.dir,
        &request.day,
        &request.options,
        left_out,
    ) {
        Ok(table) => rows_over(rt, alloc, request, table, folder, source, out, gate),
        Err(status) => status,
    }
}
