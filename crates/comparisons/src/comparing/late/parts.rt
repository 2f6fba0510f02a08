//! Two editions, part by part.
use crate::comparing::refused::{Difference, Refused, held};
use crate::comparing::same_hops::are_same;
use edition_store::Edition;
use line_split::Lines;
use tb_base::{Event, LineNo, Timetable, Trip, TripNo};
use transfer_pack::Hops;

/// The events of a trip, none where there is no such trip.
pub fn events_of(table: &Timetable, trip: TripNo) -> &[Event] {
    if trip.0 < table.trip_count() {
        table.events(trip)
    } else {
        &[]
    }
}

// The trips of a line, none where there is no such line.
fn trips_of(lines: &Lines, line: LineNo) -> &[TripNo] {
    if line.0 < lines.count() {
        lines.trips(line)
    } else {
        &[]
    }
}

// The hops of an event of a trip, none where there is no such event.
fn hops_of(edition: &Edition, trip: TripNo, at: usize) -> Hops<'_> {
    let table = edition.table();
    table.soundness();
    if trip.0 < table.trip_count() && at < table.events(trip).len() {
        edition.set().out(trip, at as u32)
    } else {
        Hops::of(&[])
    }
}

// Whether two trips have the same name, day and events.
fn same_trip(one: &Trip, other: &Trip) -> bool {
    one.day.is(other.day)
        && one.name.bytes() == other.name.bytes()
        && one.events.as_slice() == other.events.as_slice()
}

// Whether two timetables have the same trips, in the same order.
fn same_trips(one: &Timetable, other: &Timetable) -> bool {
    if one.trip_count() != other.trip_count() {
        return false;
    }
    for t in 0..one.trip_count() {
        if !same_trip(one.trip(TripNo(t)), other.trip(TripNo(t))) {
            return false;
        }
    }
    true
}

// Whether these are the same lines, in the same order.
fn same_lines(one: &Lines, other: &Lines) -> bool {
    if one.count() != other.count() {
        return false;
    }
    for l in 0..one.count() {
        if trips_of(one, LineNo(l)) != trips_of(other, LineNo(l)) {
            return false;
        }
    }
    true
}

// Whether two editions have the same hops, in the same order, from so many events of a trip.
fn same_hops_from(one: &Edition, other: &Edition, trip: TripNo, events: usize) -> bool {
    for at in 0..events {
        if !are_same(hops_of(one, trip, at), hops_of(other, trip, at)) {
            return false;
        }
    }
    true
}

// Whether two editions have the same hops, in the same order, from each event.
fn same_hops(one: &Edition, other: &Edition) -> bool {
    for t in 0..one.table().trip_count() {
        let trip = TripNo(t);
        let events = events_of(one.table(), trip).len();
        if !same_hops_from(one, other, trip, events) {
            return false;
        }
    }
    true
}

/// Holds the trips, the lines and the kept transfers of two editions against one another.
pub fn compare_editions(one: &Edition, other: &Edition) -> Result<(), Refused> {
    held(same_trips(one.table(), other.table()), Difference::Trips)?;
    held(same_lines(one.lines(), other.lines()), Difference::Lines)?;
    held(one.kept() == other.kept(), Difference::Transfers)?;
    held(same_hops(one, other), Difference::Transfers)
}
