//! The rows of a feed.
ghost use Rattle.std.specs.Prelude.{◌≡◌, ◌≢◌, ◌<◌, ◌-◌, ◌^◌, [], All, IsSome};
ghost use Rattle.gtfs_rows.specs.Refused.{Yields};
ghost use Rattle.gtfs_rows.specs.StopsFile.{StopData};
ghost use Rattle.trip_table.specs.Answers.{IsDayRefused, Leaves, feed_of};
ghost use Rattle.trip_table.specs.References.{rows_of, rows_after_stops, rows_after_services, rows_after_trips};
ghost use Rattle.trip_table.specs.GoodTimes.{AreGoodTimes};

use crate::DayFault;
use crate::services::{ServiceRows, read_services};
use crate::stops::read_stops;
use crate::times::read_times;
use crate::trips::{TripRowTable, read_trips};
use footpaths::StopTable;
use service_trips::StopTime;
use std::alloc::Global;
use std::marker::Model;
use tb_io::Folder;

/// The rows of a feed with which nothing is wrong up to the times of its trips. Contracts see it as
/// the rows of each file, the stop times by the numbers of their trips and platforms.
#[derive(Drop)]
pub struct FeedRows {
    stops: StopTable,
    services: ServiceRows,
    trips: TripRowTable,
    times: Vec<StopTime>,
}

impl Model for FeedRows {
    ghost use Rattle.std.specs.Prelude.{◌≢◌, [], All};
    ghost use Rattle.gtfs_rows.specs.StopsFile.{StopData};
    ghost use Rattle.trip_table.specs.References.{Rows};
    ghost use Rattle.trip_table.specs.GoodTimes.{AreGoodTimes};

    ghost Value = { Rows };

    ghost view = { λ r.
        record { stops = r.stops; services = r.services; trips = r.trips; times = r.times.items } };

    ghost invariant = { λ r.
        AreGoodTimes r.stops r.trips r.times.items × All (λ s. StopData.id s ≢ []) r.stops };
}

impl FeedRows {
    /// The rows of these.
    pub fn of_parts(
        stops: StopTable,
        services: ServiceRows,
        trips: TripRowTable,
        times: Vec<StopTime>,
    ) -> FeedRows
        requires good { AreGoodTimes stops trips times.items }
        requires named { All (λ s. StopData.id s ≢ []) stops }
        ensures { result
            ≡ record { stops = stops; services = services; trips = trips; times = times.items } }
    {
        FeedRows {
            stops,
            services,
            trips,
            times,
        }
    }

    /// The rows of stops.txt: their ids aren't empty.
    pub fn stops(&self) -> &StopTable
        ensures stops { result.now ≡ self.now.stops }
        ensures named { All (λ s. StopData.id s ≢ []) self.now.stops }
    {
        &self.stops
    }

    /// The rows that say which services run.
    pub fn services(&self) -> &ServiceRows
        ensures { result.now ≡ self.now.services }
    {
        &self.services
    }

    /// The rows of trips.txt.
    pub fn trips(&self) -> &TripRowTable
        ensures { result.now ≡ self.now.trips }
    {
        &self.trips
    }

    /// The stop times.
    pub fn times(&self) -> &[StopTime]
        ensures times { result.now ≡ self.now.times }
        ensures good { AreGoodTimes self.now.stops self.now.trips self.now.times }
    {
        self.times.as_slice()
    }
}

// The rows of a feed, where those of stops.txt, those that say which services run and those of
// trips.txt were read. What isn't handed on is dropped by a call: at the end of a scope each part
// of it would be dropped by itself, and the proof would go through all of them.
fn rows_after_trips<F: Folder>(
    alloc: Global,
    folder: &mut F,
    dir: &str,
    stops: StopTable,
    services: ServiceRows,
    trips: TripRowTable,
) -> Result<FeedRows, DayFault>
    requires faults { F.faults folder.old < 2 ^ 64 - 1 }
    requires named { All (λ s. StopData.id s ≢ []) stops }
    ensures told { IsSome (F.files folder.old) →
        Yields IsDayRefused result (λ x. x)
        (rows_after_trips (feed_of (F.files folder.old) dir.now) stops services trips) }
    ensures leaves { Leaves (F.files folder.old) (F.files folder.new) (F.faults folder.old)
        (F.faults folder.new) result }
{
    match read_times(alloc, folder, dir, &stops, &trips) {
        Ok(times) => Ok(FeedRows {
            stops,
            services,
            trips,
            times,
        }),
        Err(fault) => {
            drop(stops);
            drop(services);
            drop(trips);
            Err(fault)
        }
    }
}

// The same, where those of trips.txt are yet to be read.
fn rows_after_services<F: Folder>(
    alloc: Global,
    folder: &mut F,
    dir: &str,
    stops: StopTable,
    services: ServiceRows,
) -> Result<FeedRows, DayFault>
    requires faults { F.faults folder.old < 2 ^ 64 - 1 }
    requires named { All (λ s. StopData.id s ≢ []) stops }
    ensures told { IsSome (F.files folder.old) →
        Yields IsDayRefused result (λ x. x)
        (rows_after_services (feed_of (F.files folder.old) dir.now) stops services) }
    ensures leaves { Leaves (F.files folder.old) (F.files folder.new) (F.faults folder.old)
        (F.faults folder.new) result }
{
    match read_trips(alloc, folder, dir) {
        Ok(trips) => rows_after_trips(alloc, folder, dir, stops, services, trips),
        Err(fault) => {
            drop(stops);
            drop(services);
            Err(fault)
        }
    }
}

// The same, where those of stops.txt alone were read.
fn rows_after_stops<F: Folder>(
    alloc: Global,
    folder: &mut F,
    dir: &str,
    stops: StopTable,
) -> Result<FeedRows, DayFault>
    requires faults { F.faults folder.old < 2 ^ 64 - 1 }
    requires named { All (λ s. StopData.id s ≢ []) stops }
    ensures told { IsSome (F.files folder.old) →
        Yields IsDayRefused result (λ x. x)
        (rows_after_stops (feed_of (F.files folder.old) dir.now) stops) }
    ensures leaves { Leaves (F.files folder.old) (F.files folder.new) (F.faults folder.old)
        (F.faults folder.new) result }
{
    match read_services(alloc, folder, dir) {
        Ok(services) => rows_after_services(alloc, folder, dir, stops, services),
        Err(fault) => {
            drop(stops);
            Err(fault)
        }
    }
}

/// The rows of a feed in a directory of a folder, or the first thing that is wrong with a file: in
/// the order of stops.txt, calendar.txt, calendar_dates.txt, trips.txt and stop_times.txt, and in
/// each file its presence, its size, its text, its columns, its rows and what they name.
///
/// `ReadFault` comes only where the folder's count of faults rose. A file's bytes are dropped once
/// its rows are read.
pub fn read_rows<F: Folder>(alloc: Global, folder: &mut F, dir: &str) -> Result<FeedRows, DayFault>
    requires { F.faults folder.old < 2 ^ 64 - 1 }
    ensures told { IsSome (F.files folder.old) →
        Yields IsDayRefused result (λ x. x) (rows_of (feed_of (F.files folder.old) dir.now)) }
    ensures leaves { Leaves (F.files folder.old) (F.files folder.new) (F.faults folder.old)
        (F.faults folder.new) result }
{
    match read_stops(alloc, folder, dir) {
        Ok(stops) => rows_after_stops(alloc, folder, dir, stops),
        Err(fault) => Err(fault),
    }
}
