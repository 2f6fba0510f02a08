//! The calls of a long trip by stop and time, so that one is found by halving.
ghost use Rattle.std.specs.Prelude.{◌≡◌, ◌<◌, ◌^◌, IfOk, IfSome, OnOk, length};
ghost use Rattle.std.specs.List.Sorted.{IsSorted};
ghost use Rattle.journey_read.specs.Calls.{AreCalls, AreInOrder, HaveCalls, HoldsCalls, IsFirstCall, compare_calls, is_at, time_by};

use std::alloc::Global;
use std::cmp::Ordering;
use tb_base::{Event, Memory, Sec, StopNo, Timetable, TripNo};

// How many calls a trip has at least whose calls are put in order: in fewer one looks for a ride
// from call to call.
const LONG: usize = 64;

/// A call of a trip: its stop, one of its times, and its index.
#[derive(Clone, Copy)]
pub(crate) struct Call {
    pub(crate) stop: StopNo,
    pub(crate) time: Sec,
    pub(crate) at: u32,
}

impl Call {
    // How two calls compare: by their stops, then by their times, then by their indexes.
    fn compare(&self, other: &Call) -> Ordering
        ensures { result ≡ compare_calls self.now other.now }
    {
        let stops = self.stop.index().cmp(&other.stop.index());
        stops
            .then(self.time.cmp(&other.time))
            .then(self.at.cmp(&other.at))
    }

    // Whether it has the stop and the time of another.
    fn is_at(&self, other: &Call) -> bool
        ensures { result ≡ is_at self.now other.now }
    {
        self.stop.index() == other.stop.index() && self.time == other.time
    }
}

/// One of the two times of an event.
#[derive(Clone, Copy)]
pub(crate) enum EventTime {
    Departure,
    Arrival,
}

impl EventTime {
    fn of(&self, event: &Event) -> Sec
        ensures { result ≡ time_by self.now event.now }
    {
        match self {
            EventTime::Departure => event.dep,
            EventTime::Arrival => event.arr,
        }
    }

    // The call at an event with an index.
    fn call_at(&self, event: &Event, at: u32) -> Call
        ensures stop { result.stop ≡ event.now.stop }
        ensures time { result.time ≡ time_by self.now event.now }
        ensures at { result.at ≡ at }
    {
        Call {
            stop: event.stop,
            time: self.of(event),
            at,
        }
    }
}

/// The calls of a trip in order of their stops, then of one of their times, then of their indexes.
#[derive(Drop)]
pub(crate) struct TripCalls {
    pub(crate) departures: Vec<Call>,
    pub(crate) arrivals: Vec<Call>,
}

// The calls at events, with one of their times.
fn calls_at(alloc: Global, events: &[Event], which: EventTime) -> Result<Vec<Call>, Memory>
    requires { length events.now < 2 ^ 32 }
    ensures { IfOk result
        (λ calls. AreCalls (time_by which) events.now (length events.now) calls.items) }
{
    let mut calls = Vec::new(alloc);
    calls.reserve(events.len())?;
    for at in 0..events.len() {
        calls.push(which.call_at(&events[at], at as u32))?;
    }
    Ok(calls)
}

// The same in order.
fn calls_in_order(alloc: Global, events: &[Event], which: EventTime) -> Result<Vec<Call>, Memory>
    requires { length events.now < 2 ^ 32 }
    ensures { IfOk result (λ calls. AreInOrder (time_by which) events.now calls.items) }
{
    let mut calls = calls_at(alloc, events, which)?;
    calls.sort_unstable_by(|a, b| a.compare(b));
    Ok(calls)
}

// The calls of a trip, if it is long.
fn calls_of(alloc: Global, events: &[Event]) -> Result<Option<TripCalls>, Memory>
    requires { length events.now < 2 ^ 32 }
    ensures { IfOk result (λ calls. IfSome calls (HoldsCalls events.now)) }
{
    if events.len() < LONG {
        return Ok(None);
    }
    let departures = calls_in_order(alloc, events, EventTime::Departure)?;
    let arrivals = calls_in_order(alloc, events, EventTime::Arrival)?;
    Ok(Some(TripCalls {
        departures,
        arrivals,
    }))
}

/// The calls of each long trip. Refused only for want of memory.
pub(crate) fn all_calls(alloc: Global, table: &Timetable) -> Result<Vec<Option<TripCalls>>, Memory>
    ensures { IfOk result (λ calls. HaveCalls table.now.trips calls.items) }
{
    table.soundness();
    let mut calls = Vec::new(alloc);
    for t in 0..table.trip_count() {
        calls.push(calls_of(alloc, table.events(TripNo(t)))?)?;
    }
    Ok(calls)
}

/// The index of the first call with a stop and a time, from an index on.
pub(crate) fn first_call(calls: &[Call], wanted: &Call) -> Option<u32>
    requires { IsSorted compare_calls calls.now }
    ensures { IsFirstCall calls.now wanted.now result }
{
    let place = calls.partition_point(|call| call.compare(wanted) == Ordering::Less);
    if place == calls.len() {
        return None;
    }
    let found = &calls[place];
    if found.is_at(wanted) {
        Some(found.at)
    } else {
        None
    }
}
