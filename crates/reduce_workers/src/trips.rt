//! The reduction, trip by trip.
ghost use Rattle.std.specs.Prelude.{◌≡◌, ◌+◌, ◌-◌, ◌<◌, ◌≤◌, [], IfOk, OnOk, length};
ghost use Rattle.tb_base.specs.TimetableData.{events_of};
ghost use Rattle.tb_base.specs.Transfers.{candidates, candidates_without_u_turns, kept_hops, transfers_of};
ghost use Rattle.transfer_reduce.specs.Tried.{AreTried};
ghost use Rattle.reduce_workers.specs.Reductions.{reduced, reduced_from};
ghost use Rattle.reduce_workers.specs.Events.{IsDoneTo};

use super::reduced::Reduced;
use line_split::Lines;
use std::alloc::Global;
use tb_base::{Memory, Timetable, Transfer, TripNo};
use transfer_make::add_event;
use transfer_pack::{Calls, FlatCalls};
use transfer_reduce::{Labels, TRIED, Tried, begin_trip, reduce_event};
use uturn_cut::cut_by;

// What the reduction makes of one trip, or of its events from the last one down.
#[derive(Drop)]
struct TripReduced {
    rows: Vec<Transfer>,
    generated: usize,
    after_uturn: usize,
}

impl TripReduced {
    // Adds what the reduction makes of the event before. The candidates of an event are looked at
    // while they are fresh: they stand in `found`, which is empty before and behind.
    fn add(
        &mut self,
        table: &Timetable,
        lines: &Lines,
        calls: &FlatCalls,
        labels: &mut Labels,
        tried: &mut [Tried; TRIED],
        trip: TripNo,
        at: usize,
        found: &mut Vec<Transfer>,
    ) -> Result<(), Memory>
        requires lines { lines.now.table ≡ table.now }
        requires calls { calls.now ≡ table.now }
        requires labels { labels.old.table ≡ table.now }
        requires tried { AreTried table.now labels.old.times tried.old }
        requires trip { trip < length table.now.trips }
        requires at { at < length (events_of table.now trip) }
        requires found { found.old.items ≡ [] }
        requires done { IsDoneTo table.now lines.now.lines trip (at + 1) self.old.rows.items
            self.old.generated self.old.after_uturn labels.old.times }
        ensures labels { labels.new.table ≡ table.now }
        ensures tried { OnOk result (AreTried table.now labels.new.times tried.new) }
        ensures found { OnOk result (found.new.items ≡ []) }
        ensures done { OnOk result (IsDoneTo table.now lines.now.lines trip at self.new.rows.items
            self.new.generated self.new.after_uturn labels.new.times) }
    {
        table.soundness();
        lines.soundness();
        add_event(found, table, lines, trip, at)?;
        self.generated += found.len();
        cut_by(table, calls, found);
        self.after_uturn += found.len();
        reduce_event(table, calls, labels, tried, trip, at, found);
        self.rows.append(found)?;
        Ok(())
    }
}

// Reduces the transfers of one trip.
fn reduce_trip(
    alloc: Global,
    table: &Timetable,
    lines: &Lines,
    calls: &FlatCalls,
    labels: &mut Labels,
    trip: TripNo,
) -> Result<TripReduced, Memory>
    requires lines { lines.now.table ≡ table.now }
    requires calls { calls.now ≡ table.now }
    requires labels { labels.old.table ≡ table.now }
    requires trip { trip < length table.now.trips }
    ensures labels { labels.new.table ≡ table.now }
    ensures rows { IfOk result (λ r. r.rows.items
        ≡ transfers_of table.now (kept_hops table.now lines.now.lines trip) trip) }
    ensures generated { IfOk result (λ r. r.generated
        ≡ length (transfers_of table.now (candidates table.now lines.now.lines trip) trip)) }
    ensures after_uturn { IfOk result (λ r. r.after_uturn ≡ length
        (transfers_of table.now (candidates_without_u_turns table.now lines.now.lines trip) trip)) }
{
    let mut tried = begin_trip(table, labels);
    let mut done = TripReduced {
        rows: Vec::new(alloc),
        generated: 0,
        after_uturn: 0,
    };
    let mut found = Vec::new(alloc);
    let mut at = calls.count(trip);
    while at > 0 {
        at -= 1;
        done.add(
            table, lines, calls, labels, &mut tried, trip, at, &mut found,
        )?;
    }
    done.rows.shrink_to_fit();
    Ok(done)
}

/// The kept transfers of one trip, from its last event down, and within an event in their order. The
/// lines and the calls are those of the timetable; the labels are for its stops, and may have
/// served any trip before. Takes memory for the kept transfers, and for the candidates of one event
/// besides. Refused only for want of memory; the labels may serve any trip then too.
pub fn kept_row(
    alloc: Global,
    table: &Timetable,
    lines: &Lines,
    calls: &FlatCalls,
    labels: &mut Labels,
    trip: TripNo,
) -> Result<Vec<Transfer>, Memory>
    requires lines { lines.now.table ≡ table.now }
    requires calls { calls.now ≡ table.now }
    requires labels { labels.old.table ≡ table.now }
    requires trip { trip < length table.now.trips }
    ensures labels { labels.new.table ≡ table.now }
    ensures row { IfOk result (λ row. row.items
        ≡ transfers_of table.now (kept_hops table.now lines.now.lines trip) trip) }
{
    let reduced = reduce_trip(alloc, table, lines, calls, labels, trip)?;
    Ok(reduced.rows)
}

impl Reduced {
    // Adds what the reduction makes of the trip that comes next.
    fn add(
        &mut self,
        alloc: Global,
        table: &Timetable,
        lines: &Lines,
        calls: &FlatCalls,
        labels: &mut Labels,
        trip: TripNo,
    ) -> Result<(), Memory>
        requires lines { lines.now.table ≡ table.now }
        requires calls { calls.now ≡ table.now }
        requires labels { labels.old.table ≡ table.now }
        requires trip { trip < length table.now.trips }
        requires trips { self.old.trips ≤ trip }
        requires before { self.old
            ≡ reduced_from table.now lines.now.lines (trip - self.old.trips) self.old.trips }
        ensures labels { labels.new.table ≡ table.now }
        ensures trips { OnOk result (self.new.trips ≡ self.old.trips + 1) }
        ensures after { OnOk result (self.new
            ≡ reduced_from table.now lines.now.lines (trip - self.old.trips)
            (self.old.trips + 1)) }
    {
        table.soundness();
        lines.soundness();
        let more = reduce_trip(alloc, table, lines, calls, labels, trip)?;
        self.generated += more.generated as u64;
        self.after_uturn += more.after_uturn as u64;
        self.kept += more.rows.len() as u64;
        self.rows.push(more.rows)?;
        self.trips += 1;
        Ok(())
    }
}

/// Reduces the transfers of `count` trips from trip `first` on. The lines and the calls are those
/// of the timetable; the labels are for its stops, and serve all trips. Takes memory for the kept
/// transfers, and for the candidates of one event besides. Refused only for want of memory.
pub(crate) fn reduce_from(
    alloc: Global,
    table: &Timetable,
    lines: &Lines,
    calls: &FlatCalls,
    labels: &mut Labels,
    first: u32,
    count: u32,
) -> Result<Reduced, Memory>
    requires lines { lines.now.table ≡ table.now }
    requires calls { calls.now ≡ table.now }
    requires labels { labels.old.table ≡ table.now }
    requires within { first + count ≤ length table.now.trips }
    ensures labels { labels.new.table ≡ table.now }
    ensures reduced { IfOk result (λ r. r ≡ reduced_from table.now lines.now.lines first count) }
{
    table.soundness();
    let mut reduced = Reduced::new(alloc);
    for t in first..first + count {
        reduced.add(alloc, table, lines, calls, labels, TripNo(t))?;
    }
    Ok(reduced)
}
