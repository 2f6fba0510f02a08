//! The events that the stop times of each trip give.
ghost use Rattle.std.specs.Prelude.{◌≡◌, ◌≤◌, ◌<◌, ◌^◌, ℕ, All, IfOk, IfSome, length, map};
ghost use Rattle.tb_base.specs.declared.table.Event.{Event};
ghost use Rattle.gtfs_rows.specs.Refused.{AreRowsRefused, Yields};
ghost use Rattle.service_trips.specs.declared.stop_time.StopTime.{StopTime};
ghost use Rattle.service_trips.specs.StopTimes.{DifferWithinTrips};
ghost use Rattle.service_trips.specs.Times.{HasFileTimes};
ghost use Rattle.service_trips.specs.Rides.{event_of, events_in, ride_in, checked_rides, IsSoundRide};

use crate::StopTime;
use crate::chains::TripChains;
use crate::faults::trip_fault;
use crate::order::stop_times;
use crate::times::{
    Timepoint, Times, first_timed, nearest_after, nearest_before, times_at, times_of,
};
use gtfs_rows::RowsFault;
use std::alloc::Global;
use tb_base::{Event, Memory};

/// The events of each trip, in the order of trips.txt: none where it doesn't run or has fewer than
/// two stop times. `runs` says which trips run.
///
/// Or else the first fault over all trips in that order, running or not: `NoEndTime` of the first
/// row, then of the last, then `TimeRunsBack` along the rows. Two rows of a trip have different
/// sequence numbers, and each time that a row gives is from 0 to 359,999 seconds (99:59:59).
pub fn rides_of(
    alloc: Global,
    rows: &[StopTime],
    runs: &[bool],
) -> Result<Vec<Vec<Event>>, RowsFault>
    requires trips { All (λ r. StopTime.trip_row r < length runs.now) rows.now }
    requires row_count { length rows.now ≤ 20000000 }
    requires trip_count { length runs.now ≤ 2000000 }
    requires sequences { DifferWithinTrips rows.now }
    requires times { All HasFileTimes rows.now }
    ensures meant { Yields AreRowsRefused result (λ rides. map (λ ride. ride.items) rides.items)
        (checked_rides rows.now runs.now) }

    // Whatever number of stops the rows name, the trips are sound among so many.
    ensures sound { IfOk result (λ rides. (stops : ℕ) → All (λ r. StopTime.stop r < stops) rows.now
        → All (λ ride. IsSoundRide stops ride.items) rides.items) }
{
    let chains = TripChains::new(alloc, rows, runs.len())?;
    let mut rides: Vec<Vec<Event>> = Vec::new(alloc);
    let mut ordered: Vec<StopTime> = Vec::new(alloc);
    for trip in 0..runs.len() {
        stop_times(&chains, rows, trip as u32, &mut ordered)?;
        if let Some(fault) = trip_fault(&ordered) {
            return Err(RowsFault::Feed(fault));
        }
        let ride = ride_in(alloc, runs[trip], &ordered)?;
        rides.push(ride)?;
    }
    Ok(rides)
}

// The events of a trip whose rows stand in order, where it runs and has at least two.
fn ride_in(alloc: Global, runs: bool, rows: &[StopTime]) -> Result<Vec<Event>, Memory>
    requires fits { length rows.now < 2 ^ 32 }
    requires times { All HasFileTimes rows.now }
    ensures { IfOk result (λ ride. ride.items ≡ ride_in runs rows.now) }
{
    if !runs || rows.len() < 2 {
        return Ok(Vec::new(alloc));
    }
    match timed_events(alloc, rows)? {
        Some(events) => Ok(events),
        None => events_in(alloc, rows),
    }
}

// The same of rows of which each is timed, as mostly. `None` says nothing.
fn timed_events(alloc: Global, rows: &[StopTime]) -> Result<Option<Vec<Event>>, Memory>
    ensures { IfOk result (λ events. IfSome events (λ v. v.items ≡ events_in rows.now)) }
{
    let mut events: Vec<Event> = Vec::with_capacity(alloc, rows.len())?;
    for row in rows {
        let Some(times) = times_of(row) else {
            return Ok(None);
        };
        events.push(event_of(row, times))?;
    }
    Ok(Some(events))
}

// The events of a trip whose rows stand in order.
fn events_in(alloc: Global, rows: &[StopTime]) -> Result<Vec<Event>, Memory>
    requires fits { length rows.now < 2 ^ 32 }
    requires times { All HasFileTimes rows.now }
    ensures { IfOk result (λ events. events.items ≡ events_in rows.now) }
{
    let mut events: Vec<Event> = Vec::with_capacity(alloc, rows.len())?;
    let mut before: Option<Timepoint> = None;
    let mut after: Option<Timepoint> = first_timed(rows, 0);
    for k in 0..rows.len() {
        after = nearest_after(rows, k, after);
        let times = times_at(&rows[k], k, before, after);
        events.push(event_of(&rows[k], times))?;
        before = nearest_before(rows, k, before);
    }
    Ok(events)
}

// The event that a row gives.
fn event_of(row: &StopTime, times: Times) -> Event
    ensures { result ≡ event_of row.now times }
{
    Event {
        stop: row.stop,
        arr: times.arr,
        dep: times.dep,
        board: row.board,
        alight: row.alight,
    }
}
