//! The order in which trips are placed.
ghost use Rattle.std.specs.Prelude.{◌≡◌, ◌<◌, All, IfOk, length, map};
ghost use Rattle.std.specs.List.{range_with_len};
ghost use Rattle.std.specs.List.Sorted.{IsPermutation, IsSortedBy};
ghost use Rattle.tb_base.specs.Lines.{compare_trips, IsTripOrder};
ghost use Rattle.line_split.specs.Orders.{IsTimed, compare_timed, trip_precedes};

use super::events::{compare_times, events_of};
use std::alloc::Global;
use std::cmp::Ordering;
use tb_base::{Memory, Sec, Timetable, TripNo};

// A trip, and the times of its first event, by which most trips are told apart.
#[derive(Clone, Copy)]
struct Timed {
    arr: Sec,
    dep: Sec,
    trip: TripNo,
}

/// All trips, by their times, then by their numbers.
pub(crate) fn trip_order(alloc: Global, table: &Timetable) -> Result<Vec<TripNo>, Memory>
    ensures order { IfOk result (λ order. IsTripOrder table.now order.items) }
    ensures count { IfOk result (λ order. length order.items ≡ length table.now.trips) }
{
    table.soundness();
    let mut timed = all_timed(alloc, table)?;
    timed.sort_unstable_by(|a, b| compare_timed(table, a, b));
    trips_of(alloc, timed.as_slice())
}

/// Sorts trips by their times, then by their numbers.
pub(crate) fn sort_trips(table: &Timetable, trips: &mut Vec<TripNo>)
    ensures permutation { IsPermutation trips.old.items trips.new.items }
    ensures sorted { IsSortedBy (trip_precedes table.now) trips.new.items }
{
    trips.sort_unstable_by(|t, u| compare_trips(table, *t, *u));
}

// The trips, by their numbers, each with the times of its first event.
fn all_timed(alloc: Global, table: &Timetable) -> Result<Vec<Timed>, Memory>
    ensures trips { IfOk result (λ timed.
        map (λ a. a.trip) timed.items ≡ range_with_len 0 (length table.now.trips)) }
    ensures timed { IfOk result (λ timed. All (IsTimed table.now) timed.items) }
{
    table.soundness();
    let mut timed = Vec::new(alloc);
    timed.reserve(table.trip_count() as usize)?;
    for trip in 0..table.trip_count() {
        timed.push(timed_of(table, TripNo(trip)))?;
    }
    Ok(timed)
}

// A trip with the times of its first event.
fn timed_of(table: &Timetable, trip: TripNo) -> Timed
    requires { trip < length table.now.trips }
    ensures trip { result.trip ≡ trip }
    ensures timed { IsTimed table.now result }
{
    table.soundness();
    let event = table.event(trip, 0);
    Timed {
        arr: event.arr,
        dep: event.dep,
        trip,
    }
}

// The trips alone.
fn trips_of(alloc: Global, timed: &[Timed]) -> Result<Vec<TripNo>, Memory>
    ensures { IfOk result (λ trips. trips.items ≡ map (λ a. a.trip) timed.now) }
{
    let mut trips = Vec::new(alloc);
    trips.reserve(timed.len())?;
    for one in timed {
        trips.push(one.trip)?;
    }
    Ok(trips)
}

// How two trips compare: by the times of their first events, then by all times and their numbers.
fn compare_timed(table: &Timetable, a: &Timed, b: &Timed) -> Ordering
    ensures { result ≡ compare_timed table.now a.now b.now }
{
    let first = a.arr.cmp(&b.arr).then(a.dep.cmp(&b.dep));
    if first != Ordering::Equal {
        return first;
    }
    compare_trips(table, a.trip, b.trip)
}

/// How two trips compare: by their times, then by their numbers.
pub(crate) fn compare_trips(table: &Timetable, t: TripNo, u: TripNo) -> Ordering
    ensures { result ≡ compare_trips table.now t u }
{
    compare_times(events_of(table, t), events_of(table, u)).then(t.index().cmp(&u.index()))
}
