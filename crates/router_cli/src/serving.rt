//! What the program writes about a run of several items.
ghost use Rattle.std.specs.Prelude.{◌≡◌, ◌<◌, ◌≤◌, ◌-◌, ◌^◌, Err, IfErr, IfOk, List, Ok, length, map, ℕ};
ghost use Rattle.std.specs.Io.KnownBytes.{Consumes};
ghost use Rattle.footpaths.specs.Limits.{AreWithinADay};
ghost use Rattle.tb_base.specs.Workers.{AreWorkers};
ghost use Rattle.edition_build.specs.Plans.{BeginsWithDay};
ghost use Rattle.lane_serve.specs.Script.{IsScript};
ghost use Rattle.router_cli.specs.Outcome.{LeavesOutside, status_of_text};
ghost use Rattle.router_cli.specs.Serving.{IsNoRun, IsNoRunAnswer, IsNoScript, IsRunAnswer, IsRunText, ScriptGives, TellsScript, item_of, plan_of, source_of, status_for};

use crate::status::Status;
use command_line::{PlannedDay, PlannedFile, PlannedItem, PlannedSource, ServeRequest};
use edition_build::{FeedDay, ItemSource, LateFile, PlanItem};
use footpaths::Options;
use lane_serve::{Script, ScriptFault, ServeFault, read_script, serve, served_shown};
use std::alloc::Global;
use std::sync::Wait;
use std::thread::Threads;
use tb_base::{Gate, Memory, Refused};
use tb_io::{Folder, Source, Taken, take_source};

// No script has more bytes.
const MOST_BYTES: u64 = 33_554_432;

// The script that a source has.
fn script_from<S: Source>(alloc: Global, json: bool, source: &mut S) -> Result<Script, Status>
    requires { S.faults source.old < 2 ^ 64 - 1 }
    ensures script { IfOk result (λ s. ScriptGives json (S.left source.old) (Ok s) × IsScript s) }
    ensures kept { IfOk result (λ _. S.faults source.new ≡ S.faults source.old) }
    ensures refused { IfErr result
        (IsNoScript json (S.left source.old) (S.faults source.old) (S.faults source.new)) }
    ensures read { (bs : List ℕ) × Consumes (S.left source.old) (S.left source.new) bs }
{
    match take_source(alloc, source, MOST_BYTES) {
        Ok(bytes) => match read_script(alloc, json, bytes.as_slice()) {
            Ok(script) => Ok(script),
            Err(Refused::Fault(fault)) => Err(Status::ScriptRefused(fault)),
            Err(Refused::Memory) => Err(Status::Memory),
        },
        Err(Taken::TooLarge) => Err(Status::ScriptRefused(ScriptFault::TooLong)),
        Err(Taken::ReadFault) => Err(Status::ReadFault),
        Err(Taken::Memory) => Err(Status::Memory),
    }
}

// What an item of the words is made of.
fn source_of(alloc: Global, planned: PlannedSource) -> Result<ItemSource, Memory>
    ensures { IfOk result (λ source. source ≡ source_of planned.entry) }
{
    match planned {
        PlannedSource::Day(PlannedDay { dir, day }) => Ok(ItemSource::Day(FeedDay {
            dir: String::from_str(alloc, dir)?,
            day,
        })),
        PlannedSource::Late(PlannedFile { path }) => Ok(ItemSource::Late(LateFile {
            path: String::from_str(alloc, path)?,
        })),
    }
}

// The item of a plan that one of the words is.
fn item_of(alloc: Global, planned: PlannedItem) -> Result<PlanItem, Memory>
    ensures { IfOk result (λ item. item ≡ item_of planned.entry) }
{
    let PlannedItem { word, source } = planned;
    Ok(PlanItem {
        word: String::from_str(alloc, word)?,
        source: source_of(alloc, source)?,
    })
}

/// The items of a plan.
pub(crate) fn items_of(alloc: Global, plan: Vec<PlannedItem>) -> Result<Vec<PlanItem>, Memory>
    ensures { IfOk result (λ items. items.items ≡ map item_of plan.entry.items) }
{
    let mut items = Vec::new(alloc);
    for planned in plan {
        let item = item_of(alloc, planned)?;
        items.push(item)?;
    }
    Ok(items)
}

fn status_of(fault: ServeFault) -> Status
    ensures status { result ≡ status_for fault }
{
    match fault {
        ServeFault::Feed(fault) => Status::FeedRefused(fault),
        ServeFault::ReadFault => Status::ReadFault,
        ServeFault::Memory => Status::Memory,
    }
}

// The text of a run of the lanes of a script beside a plan.
fn served_run<R: Threads + Wait + Sync, F: Folder + Send, G: Gate>(
    rt: &R,
    alloc: Global,
    json: bool,
    plan: &[PlanItem],
    options: &Options,
    workers: u32,
    script: &Script,
    folder: &mut F,
    gate: &G,
) -> Result<Vec<u8>, Status>
    requires plan { BeginsWithDay plan.now }
    requires items { length plan.now ≤ 100 }
    requires options { AreWithinADay options.now }
    requires workers { AreWorkers workers }
    requires script { IsScript script.now }
    requires folder { F.faults folder.old < 2 ^ 64 - 1 }
    ensures text { IfOk result (λ text.
        IsRunText json (F.files folder.old) options.now plan.now script.now text.items) }
    ensures kept { IfOk result (λ _. F.faults folder.new ≡ F.faults folder.old) }
    ensures stop { IfErr result (IsNoRun (F.files folder.old) options.now plan.now
        (F.faults folder.old) (F.faults folder.new)) }
    ensures files { F.files folder.new ≡ F.files folder.old }
{
    match serve(rt, alloc, plan, options, workers, script, folder, gate) {
        Ok(served) => {
            let text = served_shown(alloc, json, plan, &served);
            drop(served);
            Ok(text?)
        }
        Err(fault) => Err(status_of(fault)),
    }
}

// The text of a run of the lanes of a script beside the items of a request.
fn plan_text<R: Threads + Wait + Sync, F: Folder + Send, G: Gate>(
    rt: &R,
    alloc: Global,
    request: ServeRequest,
    script: &Script,
    folder: &mut F,
    gate: &G,
) -> Result<Vec<u8>, Status>
    requires script { IsScript script.now }
    requires folder { F.faults folder.old < 2 ^ 64 - 1 }
    ensures text { IfOk result (λ text. IsRunText request.entry.json (F.files folder.old)
        request.entry.options (plan_of request.entry) script.now text.items) }
    ensures kept { IfOk result (λ _. F.faults folder.new ≡ F.faults folder.old) }
    ensures stop { IfErr result (IsNoRun (F.files folder.old) request.entry.options
        (plan_of request.entry) (F.faults folder.old) (F.faults folder.new)) }
    ensures files { F.files folder.new ≡ F.files folder.old }
{
    let ServeRequest {
        options,
        workers,
        json,
        plan,
    } = request;
    let items = items_of(alloc, plan)?;
    let plan = items.as_slice();
    let text = served_run(
        rt, alloc, json, plan, &options, workers, script, folder, gate,
    );
    drop(items);
    text
}

// Whether a request is to be answered as JSON.
fn asks_json(request: &ServeRequest) -> bool
    ensures { result ≡ request.now.json }
{
    request.json
}

/// The replies to the script of a source, by a run of the items of a plan. It may wait.
pub(crate) fn run_text<R: Threads + Wait + Sync, F: Folder + Send, S: Source, G: Gate>(
    rt: &R,
    alloc: Global,
    request: ServeRequest,
    folder: &mut F,
    source: &mut S,
    gate: &G,
) -> Result<Vec<u8>, Status>
    requires folder { F.faults folder.old < 2 ^ 64 - 1 }
    requires source { S.faults source.old < 2 ^ 64 - 1 }
    ensures text { IfOk result (λ text.
        IsRunAnswer (F.files folder.old) (S.left source.old) request.entry text.items) }
    ensures refused { IfErr result
        (IsNoRunAnswer (F.files folder.old) (S.left source.old) request.entry) }
    ensures script { S.faults source.new ≡ S.faults source.old →
        TellsScript request.entry.json (S.left source.old) (status_of_text result) }
    ensures leaves { LeavesOutside (result ≡ Err Status.ReadFault) (F.files folder.old)
        (F.files folder.new) (F.faults folder.old) (F.faults folder.new) (S.faults source.old)
        (S.faults source.new) }
    ensures taken { (bs : List ℕ) × Consumes (S.left source.old) (S.left source.new) bs }
{
    let json = asks_json(&request);
    let script = match script_from(alloc, json, source) {
        Ok(script) => script,
        Err(status) => {
            drop(request);
            return Err(status);
        }
    };
    let text = plan_text(rt, alloc, request, &script, folder, gate);
    drop(script);
    text
}
