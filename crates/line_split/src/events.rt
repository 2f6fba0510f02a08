//! The events of trips side by side.
ghost use Rattle.std.specs.Prelude.{◌≡◌, ◌<◌, ◌==◌, ◌&&◌, int_le};
ghost use Rattle.std.specs.Ordering.{int_cmp, nat_cmp, ordering_then};
ghost use Rattle.std.specs.Cmp.Lexicographic.{slice_cmp};
ghost use Rattle.tb_base.specs.TimetableData.{events_of};
ghost use Rattle.tb_base.specs.Lines.{last_trip, may_follow, same_mark, times_of};
ghost use Rattle.line_split.specs.Patterns.{mix, pattern_hash, pattern_of, marks_of};

use std::cmp::Ordering;
use tb_base::{Event, Timetable, TripNo};

/// The events of a trip, and none where there is no such trip.
pub(crate) fn events_of(table: &Timetable, trip: TripNo) -> &[Event]
    ensures { result.now ≡ events_of table.now trip }
{
    if trip.index() < table.trip_count() as usize {
        table.events(trip)
    } else {
        &[]
    }
}

/// The last trip of a line.
pub(crate) fn last_trip(trips: &[TripNo]) -> TripNo
    ensures { result ≡ last_trip trips.now }
{
    if trips.is_empty() {
        return TripNo(0);
    }
    trips[trips.len() - 1]
}

// Whether the second event has the first one's stop and marks, and is nowhere earlier.
fn follows(e: &Event, f: &Event) -> bool
    ensures { result ≡ ((e.now.stop == f.now.stop) && same_mark e.now.board f.now.board
        && same_mark e.now.alight f.now.alight && int_le e.now.arr f.now.arr
        && int_le e.now.dep f.now.dep) }
{
    e.stop.index() == f.stop.index()
        && e.board == f.board
        && e.alight == f.alight
        && e.arr <= f.arr
        && e.dep <= f.dep
}

/// Whether the second trip may follow the first on a line: one pattern, and nowhere earlier.
pub(crate) fn may_follow(first: &[Event], second: &[Event]) -> bool
    ensures { result ≡ may_follow first.now second.now }
{
    if first.len() != second.len() {
        return false;
    }
    for i in 0..first.len() {
        if !follows(&first[i], &second[i]) {
            return false;
        }
    }
    true
}

/// How the times of two trips compare, as lists of arrivals and departures.
pub(crate) fn compare_times(first: &[Event], second: &[Event]) -> Ordering
    ensures { result ≡ slice_cmp int_cmp (times_of first.now) (times_of second.now) }
{
    let both = first.len().min(second.len());
    for i in 0..both {
        let order = compare_event(&first[i], &second[i]);
        if order != Ordering::Equal {
            return order;
        }
    }
    first.len().cmp(&second.len())
}

// How the times of two events compare.
fn compare_event(e: &Event, f: &Event) -> Ordering
    ensures { result ≡ ordering_then (int_cmp e.now.arr f.now.arr) (int_cmp e.now.dep f.now.dep) }
{
    e.arr.cmp(&f.arr).then(e.dep.cmp(&f.dep))
}

/// How the patterns of two trips compare, as lists of stops and marks.
pub(crate) fn compare_patterns(first: &[Event], second: &[Event]) -> Ordering
    ensures { result ≡ slice_cmp nat_cmp (pattern_of first.now) (pattern_of second.now) }
{
    let both = first.len().min(second.len());
    for i in 0..both {
        let order = compare_call(&first[i], &second[i]);
        if order != Ordering::Equal {
            return order;
        }
    }
    first.len().cmp(&second.len())
}

// How the stops and marks of two events compare.
fn compare_call(e: &Event, f: &Event) -> Ordering
    ensures { result ≡ ordering_then (nat_cmp e.now.stop f.now.stop)
        (nat_cmp (marks_of e.now) (marks_of f.now)) }
{
    e.stop
        .index()
        .cmp(&f.stop.index())
        .then(marks_of(e).cmp(&marks_of(f)))
}

// One step of the hash.
fn mix(hash: u64, number: u64) -> u64
    ensures { result ≡ mix hash number }
{
    (hash ^ number).wrapping_mul(0x9e37_79b9_7f4a_7c15)
}

fn marks_of(event: &Event) -> u64
    ensures { result ≡ marks_of event.now }
{
    u64::from(event.board) * 2 + u64::from(event.alight)
}

/// A number that trips of one pattern have in common.
pub(crate) fn pattern_hash(events: &[Event]) -> u64
    ensures { result ≡ pattern_hash events.now }
{
    let mut hash = 0;
    for event in events {
        hash = mix(hash, event.stop.index() as u64);
        hash = mix(hash, marks_of(event));
    }
    hash
}
