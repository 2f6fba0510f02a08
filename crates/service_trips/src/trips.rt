//! The trips of a service day, as a timetable shows them.
ghost use Rattle.std.specs.Prelude.{◌≡◌, ◌<◌, ◌++◌, All, IfOk, OnOk, filter, length, map};
ghost use Rattle.service_trips.specs.Starts.{names_trip};
ghost use Rattle.service_trips.specs.ShownRides.{IsRideOrNone};
ghost use Rattle.service_trips.specs.ServiceDay.{trips_where, service_trips};
ghost use Rattle.service_trips.specs.TimetableTrips.{reckoned, shown};

use crate::FrequencyTable;
use crate::by_starts::add_by_starts;
use crate::moved_rides::{day_shift, is_shown, moved_ride};
use gtfs_rows::TripRow;
use std::alloc::Global;
use std::mem;
use tb_base::{Event, Memory, Name, ServiceDay, Trip};

// Adds what is shown of a row of trips.txt on a service day, if it runs then.
fn add_shown(
    alloc: Global,
    trips: &mut Vec<Trip>,
    day: ServiceDay,
    runs: bool,
    id: &Name,
    ride: &[Event],
    table: &FrequencyTable,
    trip: usize,
) -> Result<(), Memory>
    requires ride { IsRideOrNone ride.now }
    requires trip { trip < table.now.trips }
    ensures { OnOk result (trips.new.items
        ≡ trips.old.items
        ++ shown day
        (trips_where runs id.now (filter (names_trip trip) table.now.rows) ride.now)) }
{
    if !runs || ride.is_empty() {
        return Ok(());
    }
    if !table.places(trip).is_empty() {
        return add_by_starts(alloc, trips, id, ride, table, trip, day);
    }
    if !is_shown(ride, day) {
        return Ok(());
    }
    let name = Name::new(alloc, id.bytes())?;
    let events = moved_ride(alloc, ride, day_shift(day))?;
    trips.push(Trip { name, day, events })?;
    Ok(())
}

// A trip of the date: its times are those of the date as they are.
fn own_trip(name: Name, events: Vec<Event>) -> Trip
    ensures { result
        ≡ reckoned ServiceDay.Date
        (record { name = name; day = ServiceDay.Date; events = events.items }) }
{
    Trip {
        name,
        day: ServiceDay::Date,
        events,
    }
}

// Adds the trips of a row of trips.txt on the date, if it runs then. Where no row of frequencies.txt
// names it, its events go over to its trip.
fn add_own(
    alloc: Global,
    trips: &mut Vec<Trip>,
    runs: bool,
    id: &Name,
    ride: Vec<Event>,
    table: &FrequencyTable,
    trip: usize,
) -> Result<(), Memory>
    requires ride { IsRideOrNone ride.items }
    requires trip { trip < table.now.trips }
    ensures { OnOk result (trips.new.items
        ≡ trips.old.items
        ++ shown ServiceDay.Date
        (trips_where runs id.now (filter (names_trip trip) table.now.rows) ride.items)) }
{
    if !runs || ride.is_empty() {
        return Ok(());
    }
    if !table.places(trip).is_empty() {
        return add_by_starts(alloc, trips, id, &ride, table, trip, ServiceDay::Date);
    }
    let name = Name::new(alloc, id.bytes())?;
    trips.push(own_trip(name, ride))?;
    Ok(())
}

/// Adds what is shown of the trips of a service day, by which rows of trips.txt run on it.
pub(crate) fn add_trips(
    alloc: Global,
    trips: &mut Vec<Trip>,
    day: ServiceDay,
    runs: &[bool],
    rows: &[TripRow],
    rides: &[Vec<Event>],
    table: &FrequencyTable,
) -> Result<(), Memory>
    requires rows { length rows.now ≡ length rides.now }
    requires runs { length runs.now ≡ length rides.now }
    requires trips { table.now.trips ≡ length rides.now }
    requires rides { All (λ ride. IsRideOrNone ride.items) rides.now }
    ensures { OnOk result (trips.new.items
        ≡ trips.old.items
        ++ shown day
        (service_trips
        (record {
          rows = rows.now;
          rides = map (λ ride. ride.items) rides.now;
          frequencies = table.now.rows;
        })
        runs.now)) }
{
    for trip in 0..rides.len() {
        let row = &rows[trip];
        let ride = rides[trip].as_slice();
        add_shown(alloc, trips, day, runs[trip], &row.id, ride, table, trip)?;
    }
    Ok(())
}

/// What is shown of the trips of the date, by which rows of trips.txt run on it.
pub(crate) fn own_trips(
    alloc: Global,
    runs: &[bool],
    rows: &[TripRow],
    given: Vec<Vec<Event>>,
    table: &FrequencyTable,
) -> Result<Vec<Trip>, Memory>
    requires rows { length rows.now ≡ length given.items }
    requires runs { length runs.now ≡ length given.items }
    requires trips { table.now.trips ≡ length given.items }
    requires rides { All (λ ride. IsRideOrNone ride.items) given.items }
    ensures { IfOk result
        (λ trips. trips.items
        ≡ shown ServiceDay.Date
        (service_trips
        (record {
          rows = rows.now;
          rides = map (λ ride. ride.items) given.items;
          frequencies = table.now.rows;
        })
        runs.now)) }
{
    let mut rides = given;
    let mut trips: Vec<Trip> = Vec::new(alloc);
    for trip in 0..rows.len() {
        let ride = mem::replace(&mut rides[trip], Vec::new(alloc));
        let row = &rows[trip];
        add_own(alloc, &mut trips, runs[trip], &row.id, ride, table, trip)?;
    }
    Ok(trips)
}
