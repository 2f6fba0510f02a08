//! Trips that run backwards.
ghost use Rattle.std.specs.Prelude.{◌≡◌, ◌<◌, ◌≤ℤ◌, IfOk, length, map, negsuc};
ghost use Rattle.tb_base.specs.TimetableData.{events_of};
ghost use Rattle.edition_store.specs.Mirror.{mirror_event, mirror_events, mirror_trip};

use crate::mirror_time::mirrored_time;
use std::alloc::Global;
use tb_base::{Event, Memory, Name, Timetable, Trip, TripNo};

// An event in the mirror.
fn mirrored_event(event: &Event) -> Event
    requires earliest { negsuc 86399 ≤ℤ event.now.arr }
    requires waits { event.now.arr ≤ℤ event.now.dep }
    ensures { result ≡ mirror_event event.now }
{
    Event {
        stop: event.stop,
        arr: mirrored_time(event.dep),
        dep: mirrored_time(event.arr),
        board: event.alight,
        alight: event.board,
    }
}

// The events of a trip in the mirror, the last one first.
fn mirrored_events(alloc: Global, table: &Timetable, t: TripNo) -> Result<Vec<Event>, Memory>
    requires { t < length table.now.trips }
    ensures { IfOk result (λ v. v.items ≡ mirror_events (events_of table.now t)) }
{
    table.soundness();
    let events = table.events(t);
    let mut mirrored = Vec::new(alloc);
    for i in 0..events.len() {
        let back = events.len() - 1 - i;
        let event = events[back];
        mirrored.push(mirrored_event(&event))?;
    }
    Ok(mirrored)
}

/// The trips of a timetable in the mirror. Refused only for want of memory.
pub(crate) fn mirrored_trips(alloc: Global, table: &Timetable) -> Result<Vec<Trip>, Memory>
    ensures { IfOk result (λ v. v.items ≡ map mirror_trip table.now.trips) }
{
    let mut trips = Vec::new(alloc);
    for t in 0..table.trip_count() {
        let trip = table.trip(TripNo(t));
        let name = Name::new(alloc, trip.name.bytes())?;
        let day = trip.day;
        let events = mirrored_events(alloc, table, TripNo(t))?;
        trips.push(Trip { name, day, events })?;
    }
    Ok(trips)
}
