//! What the program writes about one day of a feed.
ghost use Rattle.std.specs.Prelude.{◌≡◌, ◌<◌, ◌-◌, ◌^◌, [], Err, IfErr, IfOk, Ok};
ghost use Rattle.footpaths.specs.Limits.{AreWithinADay};
ghost use Rattle.router_cli.specs.Outcome.{GivesDay, IsDayAnswer, IsNoDayAnswer, IsNoTable, LeavesFolder, LeavesOut};

use crate::answers::answer;
use crate::status::Status;
use command_line::DayRequest;
use gtfs_rows::FeedFault;
use std::alloc::Global;
use std::thread::Threads;
use tb_base::{Gate, Timetable};
use tb_io::Folder;
use trip_table::{Day, DayFault, Options, read_asked_day};

/// The timetable of a day, from the files of a folder, as the options ask for it, and the faults
/// for which rows are left out.
pub(crate) fn table_of<F: Folder>(
    alloc: Global,
    folder: &mut F,
    dir: &str,
    day: &Day,
    options: &Options,
    left_out: &mut Vec<FeedFault>,
) -> Result<Timetable, Status>
    requires count { F.faults folder.old < 2 ^ 64 - 1 }
    requires options { AreWithinADay options.now }
    requires none { left_out.old.items ≡ [] }
    ensures day { IfOk result (λ T.
        GivesDay (F.files folder.old) dir.now day.now options.now (Ok T)) }
    ensures left_out { IfOk result (λ _. LeavesOut (F.files folder.old) dir.now day.now options.now
        left_out.new.items) }
    ensures kept { IfOk result (λ _. F.faults folder.new ≡ F.faults folder.old) }
    ensures refused { IfErr result (IsNoTable (F.files folder.old) dir.now day.now options.now
        (F.faults folder.old) (F.faults folder.new)) }
    ensures files { F.files folder.new ≡ F.files folder.old }
{
    match read_asked_day(alloc, folder, dir, day, options, left_out) {
        Ok(table) => {
            table.soundness();
            Ok(table)
        }
        Err(DayFault::Feed(fault)) => Err(Status::FeedRefused(fault)),
        Err(DayFault::ReadFault) => Err(Status::ReadFault),
        Err(DayFault::Memory) => Err(Status::Memory),
    }
}

/// What is written for a request about one day of a feed. Its own work ends; it joins the workers
/// that it starts.
pub(crate) fn day_text<R: Threads + Sync, F: Folder, G: Gate>(
    rt: &R,
    alloc: Global,
    request: &DayRequest,
    folder: &mut F,
    left_out: &mut Vec<FeedFault>,
    gate: &G,
) -> Result<Vec<u8>, Status>
    requires count { F.faults folder.old < 2 ^ 64 - 1 }
    requires none { left_out.old.items ≡ [] }
    ensures text { IfOk result (λ text. IsDayAnswer (F.files folder.old) request.now text.items) }
    ensures refused { IfErr result (IsNoDayAnswer (F.files folder.old) request.now) }
    ensures left_out { IfOk result (λ _. LeavesOut (F.files folder.old) request.now.dir
        request.now.date request.now.options left_out.new.items) }
    ensures leaves { LeavesFolder (result ≡ Err Status.ReadFault) (F.files folder.old)
        (F.files folder.new) (F.faults folder.old) (F.faults folder.new) }
{
    let table = match table_of(
        alloc,
        folder,
        request.dir,
        &request.day,
        &request.options,
        left_out,
    ) {
        Ok(table) => table,
        Err(status) => return Err(status),
    };
    Ok(answer(rt, alloc, table, request, gate)?)
}
