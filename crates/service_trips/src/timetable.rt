//! The trips of a timetable, or the first thing that is wrong with them.
ghost use Rattle.std.specs.Prelude.{◌≡◌, ◌≤◌, ◌++◌, ◌∷◌, ℕ, List, All, IfOk, OnOk, flat_map, length, map, sum_by};
ghost use Rattle.tb_base.specs.TimetableData.{TripData};
ghost use Rattle.tb_base.specs.Soundness.{IsSoundTrip};
ghost use Rattle.gtfs_rows.specs.Refused.{AreRowsRefused, Yields};
ghost use Rattle.gtfs_rows.specs.TripsFile as row;
ghost use Rattle.service_trips.specs.Rides.{IsSoundRide};
ghost use Rattle.service_trips.specs.ShownRides.{IsRideOrNone};
ghost use Rattle.service_trips.specs.Sizes.{IsSize};
ghost use Rattle.service_trips.specs.TimetableTrips.{DayRunsData, timetable_trips};
ghost use Rattle.service_trips.specs.Limits.{checked_trips};

use crate::FrequencyTable;
use crate::beyond::first_beyond;
use crate::size::{Size, service_size};
use crate::trips::{add_trips, own_trips};
use gtfs_rows::{RowsFault, TripRow};
use std::alloc::Global;
use std::marker::Model;
use tb_base::{Event, Memory, ServiceDay, Trip};

/// A service day of a timetable, and for each row of trips.txt whether its service runs on it.
#[derive(Debug, Drop)]
pub struct DayRuns {
    pub day: ServiceDay,
    pub runs: Vec<bool>,
}

impl Model for DayRuns {
    ghost use Rattle.service_trips.specs.TimetableTrips.{DayRunsData};

    ghost Value = { DayRunsData };

    ghost view = { λ d. record { day = d.day; runs = d.runs.items } };
}

// The size of the trips of some service days.
fn days_size(rides: &[Vec<Event>], table: &FrequencyTable, days: &[DayRuns]) -> Size
    requires days { All (λ d. length (DayRunsData.runs d) ≡ length rides.now) days.now }
    requires trips { table.now.trips ≡ length rides.now }
    requires rides { All (λ ride. IsRideOrNone ride.items) rides.now }
    ensures { (rows : List row.TripData) → length rows ≡ length rides.now →
        IsSize
        (timetable_trips
        (record {
          rows = rows;
          rides = map (λ ride. ride.items) rides.now;
          frequencies = table.now.rows;
        })
        days.now)
        result }
{
    let mut size = Size {
        trips: 0,
        events: 0,
    };
    for day in days {
        size = size.plus(service_size(rides, table, day.runs.as_slice(), day.day));
    }
    size
}

// The trips of some service days, one day after another.
fn days_trips(
    alloc: Global,
    rows: &[TripRow],
    rides: &[Vec<Event>],
    table: &FrequencyTable,
    days: &[DayRuns],
) -> Result<Vec<Trip>, Memory>
    requires rows { length rows.now ≡ length rides.now }
    requires days { All (λ d. length (DayRunsData.runs d) ≡ length rides.now) days.now }
    requires trips { table.now.trips ≡ length rides.now }
    requires rides { All (λ ride. IsRideOrNone ride.items) rides.now }
    ensures { IfOk result
        (λ trips. trips.items
        ≡ timetable_trips
        (record {
          rows = rows.now;
          rides = map (λ ride. ride.items) rides.now;
          frequencies = table.now.rows;
        })
        days.now) }
{
    let mut trips: Vec<Trip> = Vec::new(alloc);
    for day in days {
        let runs = day.runs.as_slice();
        add_trips(alloc, &mut trips, day.day, runs, rows, rides, table)?;
    }
    Ok(trips)
}

// The trips of the date, and then those of other service days.
fn made_trips(
    alloc: Global,
    rows: &[TripRow],
    rides: Vec<Vec<Event>>,
    table: &FrequencyTable,
    runs: &[bool],
    others: &[DayRuns],
) -> Result<Vec<Trip>, Memory>
    requires rows { length rows.now ≡ length rides.items }
    requires runs { length runs.now ≡ length rides.items }
    requires others { All (λ d. length (DayRunsData.runs d) ≡ length rides.items) others.now }
    requires trips { table.now.trips ≡ length rides.items }
    requires rides { All (λ ride. IsRideOrNone ride.items) rides.items }
    ensures { IfOk result
        (λ trips. trips.items
        ≡ timetable_trips
        (record {
          rows = rows.now;
          rides = map (λ ride. ride.items) rides.items;
          frequencies = table.now.rows;
        })
        (record { day = ServiceDay.Date; runs = runs.now } ∷ others.now)) }
{
    let mut behind = days_trips(alloc, rows, &rides, table, others)?;
    let mut trips = own_trips(alloc, runs, rows, rides, table)?;
    trips.append(&mut behind)?;
    Ok(trips)
}

/// The trips of a timetable: those of its date, in the order of trips.txt, and then those that it
/// shows of other service days. Or else the first thing that is wrong: a row of frequencies.txt with
/// a start that moves a time beyond the limits of a day, whether its trip runs or not, then too many
/// trips, then too many events. In the code they are counted before one is made; no clause says it.
///
/// For each row of trips.txt there are its events, none for fewer than two stop times, and whether
/// its service runs on the date and on each of the other service days.
pub fn timetable_trips(
    alloc: Global,
    rows: &[TripRow],
    rides: Vec<Vec<Event>>,
    table: &FrequencyTable,
    runs: &[bool],
    others: &[DayRuns],
) -> Result<Vec<Trip>, RowsFault>
    requires rows { length rows.now ≡ length rides.items }
    requires runs { length runs.now ≡ length rides.items }
    requires others { All (λ d. length (DayRunsData.runs d) ≡ length rides.items) others.now }
    requires trips { table.now.trips ≡ length rides.items }
    requires rides { All (λ ride. IsRideOrNone ride.items) rides.items }
    ensures meant { Yields AreRowsRefused result (λ trips. trips.items)
        (checked_trips
        (record {
          rows = rows.now;
          rides = map (λ ride. ride.items) rides.items;
          frequencies = table.now.rows;
        })
        (record { day = ServiceDay.Date; runs = runs.now } ∷ others.now)) }
    ensures trip_count { IfOk result (λ trips. length trips.items ≤ 500000) }
    ensures event_count { IfOk result
        (λ trips. sum_by (λ t. length (TripData.events t)) trips.items ≤ 10000000) }

    // Whatever number of stops the events name, the trips are sound among so many.
    ensures sound { IfOk result (λ trips. (stops : ℕ) →
        All (λ ride. IsSoundRide stops ride.items) rides.items →
        All (IsSoundTrip stops) trips.items) }
{
    if let Some(fault) = first_beyond(&rides, table) {
        return Err(RowsFault::Feed(fault));
    }
    let own = service_size(&rides, table, runs, ServiceDay::Date);
    let size = own.plus(days_size(&rides, table, others));
    if let Some(fault) = size.fault() {
        return Err(RowsFault::Feed(fault));
    }
    match made_trips(alloc, rows, rides, table, runs, others) {
        Ok(trips) => Ok(trips),
        Err(Memory) => Err(RowsFault::Memory),
    }
}
