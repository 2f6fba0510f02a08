//! How many trips and events a timetable has, counted by division before one is made.
ghost use Rattle.std.specs.Prelude.{◌≡◌, ◌<◌, ◌++◌, ◌-◌, ◌^◌, ℕ, List, All, MatchOption, Ok, Err, filter, length, map, min, sum_by};
ghost use Rattle.tb_base.specs.TimetableData.{TripData};
ghost use Rattle.gtfs_rows.specs.TripsFile as row;
ghost use Rattle.service_trips.specs.Starts.{names_trip, starts_in};
ghost use Rattle.service_trips.specs.ShownRides.{IsRide, IsRideOrNone};
ghost use Rattle.service_trips.specs.ServiceDay.{trips_of, trips_where, service_trips};
ghost use Rattle.service_trips.specs.TimetableTrips.{shown};
ghost use Rattle.service_trips.specs.Sizes.{IsSize, check_size};

use crate::FrequencyTable;
use crate::moved_rides::{is_shown, shown_starts};
use crate::starts::{StartSpan, starts_in};
use gtfs_rows::{FeedFault, Many};
use tb_base::{Event, ServiceDay};

const MOST_TRIPS: u64 = 500_000;

const MOST_EVENTS: u64 = 10_000_000;

/// How many trips there are, and how many events they have, each up to the last number of 64 bits.
#[derive(Clone, Copy)]
pub(crate) struct Size {
    pub trips: u64,
    pub events: u64,
}

impl Size {
    /// The size of some trips and others.
    pub fn plus(self, others: Size) -> Size
        ensures { (xs ys : List TripData) → IsSize xs self → IsSize ys others →
            IsSize (xs ++ ys) result }
    {
        Size {
            trips: self.trips.saturating_add(others.trips),
            events: self.events.saturating_add(others.events),
        }
    }

    /// The first limit that trips of this size pass.
    pub fn fault(self) -> Option<FeedFault>
        ensures { (trips : List TripData) → IsSize trips self →
            MatchOption result (check_size trips ≡ Ok trips) (λ f. check_size trips ≡ Err f) }
    {
        if self.trips > MOST_TRIPS {
            return Some(FeedFault::TooMany(Many::RunningTrips, 0));
        }
        if self.events > MOST_EVENTS {
            return Some(FeedFault::TooMany(Many::Events, 0));
        }
        None
    }
}

// How many starts of a trip's rows in frequencies.txt are in a span.
fn count_starts(table: &FrequencyTable, trip: usize, span: StartSpan) -> u64
    requires { trip < table.now.trips }
    ensures { result
        ≡ min (sum_by (λ f. length (starts_in span f)) (filter (names_trip trip) table.now.rows))
        (2 ^ 64 - 1) }
{
    let rows = table.rows();
    let places = table.places(trip);
    let mut count: u64 = 0;
    for place in places {
        let starts = starts_in(&rows[*place as usize], span);
        count = count.saturating_add(starts.count as u64);
    }
    count
}

// How many trips of a row of trips.txt that runs are shown.
fn count_trips(table: &FrequencyTable, trip: usize, ride: &[Event], day: ServiceDay) -> u64
    requires ride { IsRide ride.now }
    requires trip { trip < table.now.trips }
    ensures { (id : List ℕ) →
        result ≡ min (length (shown day
        (trips_of id (filter (names_trip trip) table.now.rows) ride.now))) (2 ^ 64 - 1) }
{
    if table.places(trip).is_empty() {
        return is_shown(ride, day) as u64;
    }
    count_starts(table, trip, shown_starts(ride, day))
}

// The size of the trips of a row of trips.txt that are shown.
fn row_size(
    table: &FrequencyTable,
    trip: usize,
    ride: &[Event],
    runs: bool,
    day: ServiceDay,
) -> Size
    requires ride { IsRideOrNone ride.now }
    requires trip { trip < table.now.trips }
    ensures { (id : List ℕ) →
        IsSize
        (shown day (trips_where runs id (filter (names_trip trip) table.now.rows) ride.now))
        result }
{
    if !runs || ride.is_empty() {
        return Size {
            trips: 0,
            events: 0,
        };
    }
    let trips = count_trips(table, trip, ride, day);
    Size {
        trips,
        events: trips.saturating_mul(ride.len() as u64),
    }
}

/// The size of the trips of a service day that are shown, by which rows of trips.txt run on it.
pub(crate) fn service_size(
    rides: &[Vec<Event>],
    table: &FrequencyTable,
    runs: &[bool],
    day: ServiceDay,
) -> Size
    requires runs { length runs.now ≡ length rides.now }
    requires trips { table.now.trips ≡ length rides.now }
    requires rides { All (λ ride. IsRideOrNone ride.items) rides.now }
    ensures { (rows : List row.TripData) → length rows ≡ length rides.now →
        IsSize
        (shown day
        (service_trips
        (record {
          rows = rows;
          rides = map (λ ride. ride.items) rides.now;
          frequencies = table.now.rows;
        })
        runs.now))
        result }
{
    let mut size = Size {
        trips: 0,
        events: 0,
    };
    for trip in 0..rides.len() {
        size = size.plus(row_size(table, trip, &rides[trip], runs[trip], day));
    }
    size
}
