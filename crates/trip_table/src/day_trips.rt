//! The trips of the timetable of a day.
ghost use Rattle.std.specs.Prelude.{◌≡◌, ◌≤◌, All, bytes_eq, IfOk, length, map, sum_by};
ghost use Rattle.std.specs.List.{list_any};
ghost use Rattle.tb_base.specs.Soundness.{IsSoundTrip};
ghost use Rattle.tb_base.specs.TimetableData.{TripData};
ghost use Rattle.gtfs_rows.specs.TripsFile as row;
ghost use Rattle.gtfs_rows.specs.Refused.{AreRowsRefused, Yields};
ghost use Rattle.footpaths.specs.Stops.{platforms};
ghost use Rattle.service_trips.specs.Rides.{IsSoundRide};
ghost use Rattle.service_trips.specs.TimetableTrips.{DayRunsData};
ghost use Rattle.trip_table.specs.Day.{runs_if, runs_on, runs_of, rides_of_rows, trips_on};

use crate::rows::FeedRows;
use gtfs_rows::{RowsFault, TripRow};
use service_day::{Day, Services, running};
use service_trips::{DayRuns, FrequencyTable, rides_of, timetable_trips};
use std::alloc::Global;
use tb_base::{Event, Horizon, Memory, ServiceDay, Trip};

// Whether the service of each row runs.
fn services_run(alloc: Global, services: &Services, trips: &[TripRow]) -> Result<Vec<bool>, Memory>
    ensures { IfOk result
        (λ runs. runs.items
        ≡ map (λ t. list_any (bytes_eq (row.TripData.service t)) services.now) trips.now) }
{
    let mut runs: Vec<bool> = Vec::new(alloc);
    for trip in trips {
        runs.push(services.runs(trip.service.bytes()))?;
    }
    Ok(runs)
}

// Which rows of trips.txt have a service that runs on the day.
fn runs_on(alloc: Global, rows: &FeedRows, day: &Day) -> Result<Vec<bool>, Memory>
    ensures runs { IfOk result (λ runs. runs.items ≡ runs_on rows.now day.now) }
    ensures long { IfOk result (λ runs. length runs.items ≡ length rows.now.trips) }
    ensures few { IfOk result (λ runs. length runs.items ≤ 2000000) }
{
    let found = rows.services();
    let services = running(
        alloc,
        rows.stops().key(),
        day,
        found.calendar.as_slice(),
        found.dates.as_slice(),
    )?;
    services_run(alloc, &services, rows.trips().rows())
}

// The same of a day that there may be; where there is none, no service runs.
fn runs_if(alloc: Global, rows: &FeedRows, date: Option<Day>) -> Result<Vec<bool>, Memory>
    ensures runs { IfOk result (λ runs. runs.items ≡ runs_if rows.now date) }
    ensures long { IfOk result (λ runs. length runs.items ≡ length rows.now.trips) }
{
    match date {
        Some(date) => runs_on(alloc, rows, &date),
        None => all_rows(alloc, rows, false),
    }
}

// A service day of the timetable of a date, and which rows of trips.txt have a service that runs on
// it.
fn runs_of(alloc: Global, rows: &FeedRows, date: &Day, day: ServiceDay) -> Result<DayRuns, Memory>
    ensures runs { IfOk result (λ runs. runs ≡ runs_of rows.now date.now day) }
    ensures long { IfOk result
        (λ runs. length (DayRunsData.runs runs) ≡ length rows.now.trips) }
{
    let runs = runs_if(alloc, rows, date.of_service_day(day))?;
    Ok(DayRuns { day, runs })
}

// The same of each of some service days.
fn runs_of_days(
    alloc: Global,
    rows: &FeedRows,
    date: &Day,
    days: &[ServiceDay],
) -> Result<Vec<DayRuns>, Memory>
    ensures runs { IfOk result (λ runs. runs.items ≡ map (runs_of rows.now date.now) days.now) }
    ensures long { IfOk result
        (λ runs. All (λ d. length (DayRunsData.runs d) ≡ length rows.now.trips) runs.items) }
{
    let mut runs = Vec::new(alloc);
    for day in days {
        runs.push(runs_of(alloc, rows, date, *day)?)?;
    }
    Ok(runs)
}

// One answer for each row of trips.txt.
fn all_rows(alloc: Global, rows: &FeedRows, answer: bool) -> Result<Vec<bool>, Memory>
    ensures answers { IfOk result (λ answers. answers.items ≡ map (λ t. answer) rows.now.trips) }
    ensures long { IfOk result (λ answers. length answers.items ≡ length rows.now.trips) }
    ensures few { IfOk result (λ answers. length answers.items ≤ 2000000) }
{
    let answers = vec![in alloc; answer; rows.trips().rows().len()]?;
    Ok(answers)
}

/// The events of each row of trips.txt, or the first thing that is wrong with their times.
pub fn all_rides(alloc: Global, rows: &FeedRows) -> Result<Vec<Vec<Event>>, RowsFault>
    ensures rides { Yields AreRowsRefused result (λ rides. map (λ ride. ride.items) rides.items)
        (rides_of_rows rows.now) }
    ensures long { IfOk result (λ rides. length rides.items ≡ length rows.now.trips) }
    ensures sound { IfOk result (λ rides.
        All (λ ride. IsSoundRide (length (platforms rows.now.stops)) ride.items) rides.items) }
{
    let wanted = all_rows(alloc, rows, true)?;
    match rides_of(alloc, rows.times(), wanted.as_slice()) {
        Ok(rides) => Ok(rides),
        Err(fault) => Err(fault),
    }
}

/// The trips of the timetable of a date, or the first thing that is wrong with the times of a trip,
/// with those that starts give, or with the size of the timetable.
pub(crate) fn trips_on(
    alloc: Global,
    rows: &FeedRows,
    frequencies: &FrequencyTable,
    date: &Day,
    horizon: Horizon,
) -> Result<Vec<Trip>, RowsFault>
    requires { frequencies.now.trips ≡ length rows.now.trips }
    ensures trips { Yields AreRowsRefused result (λ trips. trips.items)
        (trips_on rows.now frequencies.now.rows date.now horizon) }
    ensures trip_count { IfOk result (λ trips. length trips.items ≤ 500000) }
    ensures event_count { IfOk result
        (λ trips. sum_by (λ t. length (TripData.events t)) trips.items ≤ 10000000) }
    ensures sound { IfOk result
        (λ trips. All (IsSoundTrip (length (platforms rows.now.stops))) trips.items) }
{
    let runs = runs_on(alloc, rows, date)?;
    let others = runs_of_days(alloc, rows, date, horizon.other_days())?;
    let rides = match all_rides(alloc, rows) {
        Ok(rides) => rides,
        Err(fault) => return Err(fault),
    };
    let trips = rows.trips().rows();
    timetable_trips(
        alloc,
        trips,
        rides,
        frequencies,
        runs.as_slice(),
        others.as_slice(),
    )
}
