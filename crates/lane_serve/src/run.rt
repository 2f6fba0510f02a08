//! The whole run: a publisher beside the lanes, and the closing part.
ghost use Rattle.std.specs.Prelude.{◌≡◌, ◌<◌, ◌≤◌, ◌+◌, ◌-◌, ◌^◌, ◌∷◌, [], ◌++◌, All, Err, IfErr, IfOk, IfSome, IsNone, IsSome, OnOk, length, slice_index_or, take, vec_len};
ghost use Rattle.std.specs.Thread.{IsSync};
ghost use Rattle.gtfs_rows.specs.declared.fault.FeedFault.{FeedFault};
ghost use Rattle.footpaths.specs.Limits.{AreWithinADay};
ghost use Rattle.tb_base.specs.Workers.{AreWorkers};
ghost use Rattle.edition_build.specs.Plans.{BeginsWithDay, HasStopped, IsGoodBuilding, outcome_of};
ghost use Rattle.query_gate.specs.Said.{IsAskable};
ghost use Rattle.lane_serve.specs.Script.{IsScript, LaneData, needs_mirrors};
ghost use Rattle.lane_serve.specs.Seats.{HaveRun};
ghost use Rattle.lane_serve.specs.Sides.{HasTaken, HasTakenSoFar, PublisherSideData};
ghost use Rattle.lane_serve.specs.Lanes.{IsLaneRun};
ghost use Rattle.lane_serve.specs.Served.{AreServed, HasRun, IsServeFault, IsServed, IsServedLane, ServedData, TellsFault, fault_for};
ghost use Rattle.edition_build.specs.Plans.{FirstGives};

use crate::lane::{LaneReport, ReplyText, close_lane, run_lane};
use crate::plan::{first_outcome, publish_rest};
use crate::publishing::Publishes;
use crate::script::{Lane, Script};
use edition_build::{Building, Outcome, PlanEnd, PlanItem, build_day, first_day};
use edition_store::{Edition, Last, Naming, Opened, Publisher, Seat, Shared, Store};
use footpaths::Options;
use gtfs_rows::FeedFault;
use query_gate::Caller;
use std::alloc::Global;
use std::marker::{Brand, Model};
use std::sync::Wait;
use std::thread;
use std::thread::{Threads, join_mut};
use tb_base::{Gate, Memory, Name};
use tb_io::Folder;
use trip_table::DayFault;
use trip_table::laws::asked_determined;

/// What a run gives: the outcome of each item of the plan, what each lane was answered, the number
/// of the last edition, and what each lane was answered by it in the end.
#[derive(Drop)]
pub struct Served {
    pub outcomes: Vec<Outcome>,
    pub lanes: Vec<LaneReport>,
    pub last: u32,
    pub closing: Vec<LaneReport>,
}

impl Model for Served {
    ghost use Rattle.lane_serve.specs.Served.{ServedData};

    ghost Value = { ServedData };

    ghost view = { λ s. record {
      outcomes = s.outcomes.items;
      lanes = s.lanes.items;
      last = s.last;
      closing = s.closing.items;
    } };
}

/// Why there is no answer.
#[derive(Drop)]
pub enum ServeFault {
    /// The first thing that is wrong with the feed of the plan's first item.
    Feed(FeedFault),
    /// The folder failed.
    ReadFault,
    /// Want of memory.
    Memory,
}

// A lane's caller, and its replies once it has run. `None`: not yet, or there was no memory.
#[derive(Drop)]
struct Seated<J: Naming> {
    caller: Caller<J>,
    replies: Option<Vec<ReplyText>>,
}

// Runs lane i.
fn run_seated<J: Naming, G: Gate>(
    alloc: Global,
    gate: &G,
    lanes: &[Lane],
    i: usize,
    seated: &mut Seated<J>,
)
    requires lanes { IsScript lanes.now }
    requires lane { i < length lanes.now }
    ensures { (d : LaneData) → HasRun (LaneData.lines (slice_index_or lanes.now i d))
        seated.new.caller.kept seated.new.replies }
{
    let lane = &lanes[i];
    let requests = lane.lines.as_slice();
    match run_lane(alloc, gate, i as u32, &mut seated.caller, requests) {
        Ok(replies) => seated.replies = Some(replies),
        Err(Memory) => seated.replies = None,
    }
}

// Each lane, in threads where these can be started.
fn run_lanes<J: Naming + Send + Sync, G: Gate, R: Threads + Sync>(
    rt: &R,
    alloc: Global,
    gate: &G,
    lanes: &[Lane],
    seats: &mut [Seated<J>],
)
    requires lanes { IsScript lanes.now }
    requires seats { length seats.old ≡ length lanes.now }
    ensures run { HaveRun lanes.now seats.new }
{
    thread::for_each_mut(
        rt,
        seats,
        lanes.len(),
        &|i: usize, seated: &mut Seated<J>|
            requires { (i < length lanes.now) × IsScript lanes.now }
            ensures { (d : LaneData) → HasRun (LaneData.lines (slice_index_or lanes.entry.now i d))
                seated.exit.now.caller.kept seated.exit.now.replies }
        { run_seated(alloc, gate, lanes, i, seated) },
    );
}

// The publisher's side of a run: a plan, how its items are read and built, what became of them so
// far, and the edition of the last day among these.
#[derive(Drop)]
struct PublisherSide<'p> {
    alloc: Global,
    building: Building,
    plan: &'p [PlanItem],
    outcomes: Vec<Outcome>,
    day: Shared,
}

impl<'p> Model for PublisherSide<'p> {
    ghost use Rattle.std.specs.Prelude.{◌≤◌, length};
    ghost use Rattle.edition_build.specs.Plans.{IsGoodBuilding};
    ghost use Rattle.lane_serve.specs.Sides.{PublisherSideData};

    ghost Value = { PublisherSideData };

    ghost view = { λ s. record {
      building = s.building;
      plan = s.plan.now;
      outcomes = s.outcomes.items;
      day = s.day;
    } };

    ghost invariant = { λ s. IsGoodBuilding s.building × (length s.plan.now ≤ 100) };
}

// Takes the publisher out of its place, which is empty afterwards, and publishes.
fn publish_side<P: Publishes, F: Folder, G: Gate, R: Threads + Wait + Sync>(
    rt: &R,
    gate: &G,
    folder: &mut F,
    side: &mut PublisherSide<'_>,
    slot: &mut Option<P>,
) -> Result<P, PlanEnd>
    requires count { F.faults folder.old < 2 ^ 64 - 1 }
    requires slot { IsSome slot.old }
    requires first { IfSome slot.old (λ p. HasTakenSoFar (F.files folder.old)
        side.old.building (take 1 side.old.plan) side.old.outcomes (P.list p) side.old.day) }
    ensures files { F.files folder.new ≡ F.files folder.old }
    ensures faults { IfOk result (λ _. F.faults folder.new ≡ F.faults folder.old) }
    ensures ended { IfErr result (HasStopped (F.faults folder.old) (F.faults folder.new)) }
    ensures all { IfOk result (λ p. HasTaken (F.files folder.old) side.old.building
        side.old.plan side.new.outcomes (P.list p)) }
    ensures taken { IsNone slot.new }
{
    let Some(publisher) = slot.take() else {
        unreachable!()
    };
    publish_rest(
        rt,
        side.alloc,
        gate,
        side.building,
        folder,
        side.plan,
        &mut side.outcomes,
        &mut side.day,
        publisher,
    )
}

// Runs the lanes and does something beside them: at once, where a thread can be started.
fn run_beside<J: Naming + Send + Sync, G: Gate, R: Threads + Sync, T, B: FnMut() -> T>(
    rt: &R,
    alloc: Global,
    gate: &G,
    lanes: &[Lane],
    seats: &mut [Seated<J>],
    beside: &mut B,
) -> T
    requires lanes { IsScript lanes.now }
    requires seats { length seats.old ≡ length lanes.now }
    requires beside { B.pre beside.old }
    ensures beside { B.step beside.old result beside.new }
    ensures run { HaveRun lanes.now seats.new }
{
    let ((), done) = join_mut(
        rt,
        &mut ||
            requires { IsScript lanes.now × (length seats.now ≡ length lanes.now) × IsSync R.row }
            ensures { HaveRun lanes.entry.now seats.exit.now }
        { run_lanes(rt, alloc, gate, lanes, seats) },
        beside,
    );
    done
}

// A publisher's place, from which it was taken.
fn let_go<P: Publishes, R: Wait>(rt: &R, slot: Option<P>)
    requires { IsNone slot }
{
    if let Some(publisher) = slot {
        publisher.end(rt);
    }
}

// The two sides.
fn sides<P: Publishes, J: Naming + Send + Sync, F: Folder, G: Gate, R: Threads + Wait + Sync>(
    rt: &R,
    gate: &G,
    folder: &mut F,
    side: &mut PublisherSide<'_>,
    publisher: P,
    lanes: &[Lane],
    seats: &mut [Seated<J>],
) -> Result<P, PlanEnd>
    requires count { F.faults folder.old < 2 ^ 64 - 1 }
    requires first { HasTakenSoFar (F.files folder.old) side.old.building
        (take 1 side.old.plan) side.old.outcomes (P.list publisher) side.old.day }
    requires lanes { IsScript lanes.now }
    requires seats { length seats.old ≡ length lanes.now }
    ensures files { F.files folder.new ≡ F.files folder.old }
    ensures faults { IfOk result (λ _. F.faults folder.new ≡ F.faults folder.old) }
    ensures ended { IfErr result (HasStopped (F.faults folder.old) (F.faults folder.new)) }
    ensures all { IfOk result (λ p. HasTaken (F.files folder.old) side.old.building
        side.old.plan side.new.outcomes (P.list p)) }
    ensures run { HaveRun lanes.now seats.new }
{
    let alloc = side.alloc;
    let mut slot = Some(publisher);
    let published = run_beside(
        rt,
        alloc,
        gate,
        lanes,
        seats,
        &mut || -> Result<P, PlanEnd>
            requires { (F.faults folder.now < 2 ^ 64 - 1) × IsSome slot
                × IfSome slot (λ p. HasTakenSoFar (F.files folder.now) side.now.building
                (take 1 side.now.plan) side.now.outcomes (P.list p) side.now.day) }
            ensures { (F.files folder.exit.now ≡ F.files folder.entry.now)
                × IfOk result (λ _. F.faults folder.exit.now ≡ F.faults folder.entry.now)
                × IfErr result (HasStopped (F.faults folder.entry.now) (F.faults folder.exit.now))
                × IfOk result (λ p. HasTaken (F.files folder.entry.now)
                side.entry.now.building side.entry.now.plan side.exit.now.outcomes
                (P.list p)) × IsNone slot.exit }
        { publish_side(rt, gate, folder, side, &mut slot) },
    );
    let_go(rt, slot);
    published
}

// A lane's report of these replies.
fn report_of(alloc: Global, lane: &Lane, replies: Vec<ReplyText>) -> Result<LaneReport, Memory>
    ensures { IfOk result (λ r. r ≡ record { name = lane.now.name; replies = replies.items }) }
{
    match Name::new(alloc, lane.name.bytes()) {
        Ok(name) => Ok(LaneReport { name, replies }),
        Err(Memory) => {
            drop(replies);
            Err(Memory)
        }
    }
}

// A lane's closing report.
fn closing_of<J: Naming>(
    alloc: Global,
    last: &Last<J>,
    lane: &Lane,
    caller: &mut Caller<J>,
    replies: &[ReplyText],
) -> Result<LaneReport, Memory>
    requires few { length lane.now.lines ≤ 20000 }
    requires times { All IsAskable lane.now.lines }
    requires run { IsLaneRun caller.old.kept.list lane.now.lines replies.now }
    ensures { IfOk result (λ closing. IsServedLane last.now lane.now
        (record { name = lane.now.name; replies = replies.now }) closing) }
{
    match close_lane(alloc, caller, last, lane.lines.as_slice(), replies) {
        Ok(closing) => report_of(alloc, lane, closing),
        Err(Memory) => Err(Memory),
    }
}

// A lane's report and its closing report.
fn reports_of<J: Naming>(
    alloc: Global,
    last: &Last<J>,
    lane: &Lane,
    caller: &mut Caller<J>,
    replies: Vec<ReplyText>,
) -> Result<(LaneReport, LaneReport), Memory>
    requires few { length lane.now.lines ≤ 20000 }
    requires times { All IsAskable lane.now.lines }
    requires run { IsLaneRun caller.old.kept.list lane.now.lines replies.items }
    ensures { IfOk result (λ t. IsServedLane last.now lane.now t.0 t.1) }
{
    match closing_of(alloc, last, lane, caller, replies.as_slice()) {
        Ok(closing) => match report_of(alloc, lane, replies) {
            Ok(report) => Ok((report, closing)),
            Err(Memory) => {
                drop(closing);
                Err(Memory)
            }
        },
        Err(Memory) => {
            drop(replies);
            Err(Memory)
        }
    }
}

// The same, by a lane's seat.
fn close_seated<J: Naming>(
    alloc: Global,
    last: &Last<J>,
    lane: &Lane,
    seated: Seated<J>,
) -> Result<(LaneReport, LaneReport), Memory>
    requires few { length lane.now.lines ≤ 20000 }
    requires times { All IsAskable lane.now.lines }
    requires run { HasRun lane.now.lines seated.caller.kept seated.replies }
    ensures { IfOk result (λ t. IsServedLane last.now lane.now t.0 t.1) }
{
    let Seated {
        mut caller,
        replies,
    } = seated;
    let reports = match replies {
        Some(replies) => reports_of(alloc, last, lane, &mut caller, replies),
        None => Err(Memory),
    };
    drop(caller);
    reports
}

// Adds a report behind others.
fn add_report(reports: &mut Vec<LaneReport>, report: LaneReport) -> Result<(), Memory>
    ensures { OnOk result (reports.new.items ≡ reports.old.items ++ report ∷ []) }
{
    reports.push(report)?;
    Ok(())
}

// The reports of all lanes, and their closing reports, in order.
fn close_all<J: Naming>(
    alloc: Global,
    last: &Last<J>,
    lanes: &[Lane],
    seats: Vec<Seated<J>>,
) -> Result<(Vec<LaneReport>, Vec<LaneReport>), Memory>
    requires lanes { IsScript lanes.now }
    requires run { HaveRun lanes.now seats.items }
    ensures { IfOk result (λ t. AreServed last.now lanes.now t.0.items t.1.items) }
{
    let mut reports = Vec::new(alloc);
    let mut closings = Vec::new(alloc);
    let mut i = 0usize;
    for seated in seats {
        let Ok((report, closing)) = close_seated(alloc, last, &lanes[i], seated) else {
            drop(reports);
            drop(closings);
            return Err(Memory);
        };
        let Ok(()) = add_report(&mut reports, report) else {
            drop(closing);
            drop(reports);
            drop(closings);
            return Err(Memory);
        };
        let Ok(()) = add_report(&mut closings, closing) else {
            drop(reports);
            drop(closings);
            return Err(Memory);
        };
        i += 1;
    }
    Ok((reports, closings))
}

// A caller at one more seat.
fn add_seat<J: Naming>(
    alloc: Global,
    seat: Seat<J>,
    seated: &mut Vec<Seated<J>>,
) -> Result<(), Memory>
    ensures { OnOk result (vec_len seated.new ≡ vec_len seated.old + 1) }
{
    let caller = Caller::new(alloc, seat);
    seated.push(Seated {
        caller,
        replies: None,
    })?;
    Ok(())
}

// A caller at each seat.
fn seat_all<J: Naming>(alloc: Global, seats: Vec<Seat<J>>) -> Result<Vec<Seated<J>>, Memory>
    ensures { IfOk result (λ v. vec_len v ≡ vec_len seats) }
{
    let mut seated = Vec::new(alloc);
    for seat in seats {
        let Ok(()) = add_seat(alloc, seat, &mut seated) else {
            drop(seated);
            return Err(Memory);
        };
    }
    Ok(seated)
}

// A publisher whose list is the first item's edition, and so many callers. `opened` has the name of
// the store, `J`.
fn open<J: Naming, R: Wait>(
    rt: &R,
    alloc: Global,
    opened: Opened<Edition>,
    first: Shared,
    lanes: usize,
) -> Result<(Publisher<J>, Vec<Seated<J>>), Memory>
    requires book { opened.seen.book ≡ J.book }
    requires some { 0 < lanes }
    requires most { lanes ≤ 64 }
    ensures list { IfOk result (λ t. t.0 ≡ first ∷ []) }
    ensures seats { IfOk result (λ t. vec_len t.1 ≡ lanes) }
{
    match Store::new::<J>(alloc, opened, first, lanes as u32) {
        Ok((publisher, seats)) => match seat_all(alloc, seats) {
            Ok(seated) => Ok((publisher, seated)),
            Err(Memory) => {
                publisher.end(rt);
                Err(Memory)
            }
        },
        Err(Memory) => Err(Memory),
    }
}

// What a run gives, once its sides are at their ends.
fn served_by<J: Naming>(
    alloc: Global,
    last: &Last<J>,
    lanes: &[Lane],
    outcomes: Vec<Outcome>,
    seats: Vec<Seated<J>>,
) -> Result<Served, Memory>
    requires lanes { IsScript lanes.now }
    requires run { HaveRun lanes.now seats.items }
    ensures outcomes { IfOk result (λ s. ServedData.outcomes s ≡ outcomes.items) }
    ensures last { IfOk result (λ s. ServedData.last s ≡ length last.now) }
    ensures lanes { IfOk result (λ s.
        AreServed last.now lanes.now (ServedData.lanes s) (ServedData.closing s)) }
{
    match close_all(alloc, last, lanes, seats) {
        Ok((lanes, closing)) => Ok(Served {
            outcomes,
            lanes,
            last: last.number(),
            closing,
        }),
        Err(Memory) => {
            drop(outcomes);
            Err(Memory)
        }
    }
}

// What a run gives, once its sides are at their ends and the list is closed.
fn served_of<J: Naming, R: Wait>(
    rt: &R,
    alloc: Global,
    publisher: Publisher<J>,
    lanes: &[Lane],
    outcomes: Vec<Outcome>,
    seats: Vec<Seated<J>>,
) -> Result<Served, Memory>
    requires lanes { IsScript lanes.now }
    requires run { HaveRun lanes.now seats.items }
    ensures outcomes { IfOk result (λ s. ServedData.outcomes s ≡ outcomes.items) }
    ensures last { IfOk result (λ s. ServedData.last s ≡ length publisher) }
    ensures lanes { IfOk result (λ s.
        AreServed publisher lanes.now (ServedData.lanes s) (ServedData.closing s)) }
{
    let last = publisher.finish(rt);
    let served = served_by(alloc, &last, lanes, outcomes, seats);
    drop(last);
    served
}

// The run, where the first item is published.
fn serve_open<J: Naming + Send + Sync, F: Folder, G: Gate, R: Threads + Wait + Sync>(
    rt: &R,
    gate: &G,
    folder: &mut F,
    side: PublisherSide<'_>,
    publisher: Publisher<J>,
    lanes: &[Lane],
    seats: Vec<Seated<J>>,
) -> Result<Served, PlanEnd>
    requires count { F.faults folder.old < 2 ^ 64 - 1 }
    requires first { HasTakenSoFar (F.files folder.old) side.building (take 1 side.plan)
        side.outcomes publisher side.day }
    requires lanes { IsScript lanes.now }
    requires seats { vec_len seats ≡ length lanes.now }
    requires mirrored { side.building.mirrored ≡ needs_mirrors lanes.now }
    ensures files { F.files folder.new ≡ F.files folder.old }
    ensures faults { IfOk result (λ _. F.faults folder.new ≡ F.faults folder.old) }
    ensures ended { IfErr result (HasStopped (F.faults folder.old) (F.faults folder.new)) }
    ensures served { IfOk result (IsServed (F.files folder.old) side.entry.building.options
        side.entry.plan lanes.now) }
{
    let mut side = side;
    let mut seats = seats;
    let published = sides(
        rt,
        gate,
        folder,
        &mut side,
        publisher,
        lanes,
        seats.as_mut_slice(),
    );
    let PublisherSide {
        alloc,
        outcomes,
        day,
        ..
    } = side;
    drop(day);
    match published {
        Ok(publisher) => match served_of(rt, alloc, publisher, lanes, outcomes, seats) {
            Ok(served) => Ok(served),
            Err(Memory) => Err(PlanEnd::Memory),
        },
        Err(ended) => {
            drop(outcomes);
            drop(seats);
            Err(ended)
        }
    }
}

// The run, where the first item's edition is built. `opened` has the name of the store, `J`.
fn serve_from<J: Naming + Send + Sync, F: Folder, G: Gate, R: Threads + Wait + Sync>(
    rt: &R,
    alloc: Global,
    gate: &G,
    building: Building,
    folder: &mut F,
    plan: &[PlanItem],
    opened: Opened<Edition>,
    first: Shared,
    script: &Script,
) -> Result<Served, PlanEnd>
    requires book { opened.seen.book ≡ J.book }
    requires building { IsGoodBuilding building }
    requires count { F.faults folder.old < 2 ^ 64 - 1 }
    requires items { length plan.now ≤ 100 }
    requires first { HasTakenSoFar (F.files folder.old) building (take 1 plan.now)
        (outcome_of 1 first ∷ []) (first ∷ []) first }
    requires script { IsScript script.now }
    requires mirrored { building.mirrored ≡ needs_mirrors script.now }
    ensures files { F.files folder.new ≡ F.files folder.old }
    ensures faults { IfOk result (λ _. F.faults folder.new ≡ F.faults folder.old) }
    ensures ended { IfErr result (HasStopped (F.faults folder.old) (F.faults folder.new)) }
    ensures served { IfOk result (IsServed (F.files folder.old) building.options plan.now
        script.now) }
{
    let lanes = script.lanes.as_slice();
    let Ok(day) = first.share() else {
        drop(opened);
        drop(first);
        return Err(PlanEnd::Memory);
    };
    match first_outcome(alloc, first.edition()) {
        Ok(outcomes) => match open::<J, R>(rt, alloc, opened, first, lanes.len()) {
            Ok((publisher, seats)) => {
                let side = PublisherSide {
                    alloc,
                    building,
                    plan,
                    outcomes,
                    day,
                };
                serve_open(rt, gate, folder, side, publisher, lanes, seats)
            }
            Err(Memory) => {
                drop(outcomes);
                drop(day);
                Err(PlanEnd::Memory)
            }
        },
        Err(Memory) => {
            drop(opened);
            drop(first);
            drop(day);
            Err(PlanEnd::Memory)
        }
    }
}

fn fault_of(ended: PlanEnd) -> ServeFault
    ensures { result ≡ fault_for ended }
{
    match ended {
        PlanEnd::ReadFault => ServeFault::ReadFault,
        PlanEnd::Memory => ServeFault::Memory,
    }
}

// The run, from the plan's first item on.
fn serve_plan<F: Folder, G: Gate, R: Threads + Wait + Sync>(
    rt: &R,
    alloc: Global,
    gate: &G,
    building: Building,
    folder: &mut F,
    plan: &[PlanItem],
    script: &Script,
) -> Result<Served, ServeFault>
    requires plan { BeginsWithDay plan.now }
    requires items { length plan.now ≤ 100 }
    requires building { IsGoodBuilding building }
    requires script { IsScript script.now }
    requires mirrored { building.mirrored ≡ needs_mirrors script.now }
    requires count { F.faults folder.old < 2 ^ 64 - 1 }
    ensures served { IfOk result (IsServed (F.files folder.old) building.options plan.now
        script.now) }
    ensures files { F.files folder.new ≡ F.files folder.old }
    ensures faults { IfOk result (λ _. F.faults folder.new ≡ F.faults folder.old) }
    ensures fault { IfErr result (IsServeFault (F.files folder.old) building.options plan.now
        (F.faults folder.old) (F.faults folder.new)) }
{
    match build_day(rt, alloc, gate, building, folder, first_day(plan)) {
        Ok(edition) => {
            let served = serve_from::<Brand, F, G, R>(
                rt,
                alloc,
                gate,
                building,
                folder,
                plan,
                Opened::new(),
                edition,
                script,
            );
            match served {
                Ok(served) => Ok(served),
                Err(ended) => Err(fault_of(ended)),
            }
        }
        Err(DayFault::Feed(fault)) => Err(ServeFault::Feed(fault)),
        Err(DayFault::ReadFault) => Err(ServeFault::ReadFault),
        Err(DayFault::Memory) => Err(ServeFault::Memory),
    }
}

/// Publishes the plan's items, each as it is read and built, while the lanes of a script are
/// answered, each by a caller of its own, in threads where these can be started; in the end each
/// lane's first request and each that was deferred is answered once more by the last edition. The
/// plan begins with a day. `workers` workers reduce the transfers of an item: 1 to 64. `Feed` comes
/// only where the first item's feed is refused; where it is and the folder doesn't fail, nothing
/// else comes but `Memory`. `ReadFault` comes only where the folder's count of faults rose. It may
/// wait. That lanes and publisher are at work at once, and that the gate is told of pieces,
/// publications and requests, and may hold them, is tested and in no clause.
pub fn serve<F: Folder + Send, G: Gate, R: Threads + Wait + Sync>(
    rt: &R,
    alloc: Global,
    plan: &[PlanItem],
    options: &Options,
    workers: u32,
    script: &Script,
    folder: &mut F,
    gate: &G,
) -> Result<Served, ServeFault>
    requires plan { BeginsWithDay plan.now }
    requires items { length plan.now ≤ 100 }
    requires options { AreWithinADay options.now }
    requires workers { AreWorkers workers }
    requires script { IsScript script.now }
    requires count { F.faults folder.old < 2 ^ 64 - 1 }
    ensures served { IfOk result (IsServed (F.files folder.old) options.now plan.now script.now) }
    ensures files { F.files folder.new ≡ F.files folder.old }
    ensures faults { IfOk result (λ _. F.faults folder.new ≡ F.faults folder.old) }
    ensures fault { IfErr result (IsServeFault (F.files folder.old) options.now plan.now
        (F.faults folder.old) (F.faults folder.new)) }
    ensures refused { IsSome (F.files folder.old) → F.faults folder.new ≡ F.faults folder.old →
        (f : FeedFault) → FirstGives (F.files folder.old) options.now plan.now (Err f) →
        TellsFault f result }
    ensures outcomes { IfOk result (λ s. length (ServedData.outcomes s) ≡ length plan.now) }
{
    asked_determined();
    let building = Building {
        options: *options,
        workers,
        mirrored: script.needs_mirrors(),
    };
    serve_plan(rt, alloc, gate, building, folder, plan, script)
}
