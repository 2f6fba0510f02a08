//! What is left of frequencies.txt where rows that move a time of their trip beyond a day give no
//! start.
ghost use Rattle.std.specs.Prelude.{◌≡◌, ◌<◌, ◌≤◌, ◌++◌, All, IfOk, OnOk, flat_map, length, map};
ghost use Rattle.service_trips.specs.ShownRides.{IsRideOrNone};
ghost use Rattle.service_trips.specs.Starts.{IsGoodFrequency};
ghost use Rattle.service_trips.specs.declared.frequency.TripFrequency.{TripFrequency};
ghost use Rattle.trip_table.specs.LeftFeed.{left_start, left_starts, start_faults, wrong_start};
ghost use Rattle.trip_table.specs.Sieves.{Sieves};

use crate::day_trips::all_rides;
use crate::feed::spot;
use crate::rows::FeedRows;
use gtfs_rows::columns::frequencies;
use gtfs_rows::{FeedFault, FeedFile, RowsFault};
use service_trips::{FrequencyTable, TripFrequency, moves_beyond};
use std::alloc::Global;
use tb_base::{Event, Memory};

// What is wrong with the starts of a row: one moves a time of its trip beyond a day.
fn wrong_start(rides: &[Vec<Event>], row: &TripFrequency) -> Option<FeedFault>
    requires rides { All (λ ride. IsRideOrNone ride.items) rides.now }
    requires trip { row.now.trip_row < length rides.now }
    requires good { IsGoodFrequency row.now }
    ensures { result ≡ wrong_start (map (λ ride. ride.items) rides.now) row.now }
{
    if moves_beyond(&rides[row.trip_row as usize], row) {
        return Some(FeedFault::BeyondDay(spot(
            FeedFile::Frequencies,
            row.row,
            frequencies::START_TIME,
        )));
    }
    None
}

// A row, which gives no start where something is wrong with its starts; this is told.
fn left_start(
    rides: &[Vec<Event>],
    row: &TripFrequency,
    told: &mut Vec<FeedFault>,
) -> Result<TripFrequency, Memory>
    requires rides { All (λ ride. IsRideOrNone ride.items) rides.now }
    requires trip { row.now.trip_row < length rides.now }
    requires good { IsGoodFrequency row.now }
    ensures told { OnOk result (told.new.items
        ≡ told.old.items ++ start_faults (map (λ ride. ride.items) rides.now) row.now) }
    ensures left { IfOk result
        (λ f. f ≡ left_start (map (λ ride. ride.items) rides.now) row.now) }
{
    let Some(fault) = wrong_start(rides, row) else {
        return Ok(*row);
    };
    told.push(fault)?;
    Ok(TripFrequency {
        row: row.row,
        trip_row: row.trip_row,
        start: 0,
        end: 0,
        headway: 1,
    })
}

// The rows, each as it is left.
fn leave_starts(
    alloc: Global,
    rides: &[Vec<Event>],
    rows: &[TripFrequency],
    told: &mut Vec<FeedFault>,
) -> Result<Vec<TripFrequency>, Memory>
    requires rides { All (λ ride. IsRideOrNone ride.items) rides.now }
    requires trips { All (λ f. TripFrequency.trip_row f < length rides.now) rows.now }
    requires good { All IsGoodFrequency rows.now }
    ensures told { OnOk result (told.new.items
        ≡ told.old.items ++ flat_map (start_faults (map (λ ride. ride.items) rides.now)) rows.now) }
    ensures left { IfOk result
        (λ v. v.items ≡ map (left_start (map (λ ride. ride.items) rides.now)) rows.now) }
{
    let mut left: Vec<TripFrequency> = Vec::new(alloc);
    for row in rows {
        left.push(left_start(rides, row, told)?)?;
    }
    Ok(left)
}

/// Rows of frequencies.txt, of which those that move a time of their trip beyond a day are told and
/// give no start. Where there are none no trip's times are made.
pub fn left_starts(
    alloc: Global,
    rows: &FeedRows,
    named: FrequencyTable,
    told: &mut Vec<FeedFault>,
) -> Result<FrequencyTable, RowsFault>
    requires { named.trips ≡ length rows.now.trips }
    ensures left { Sieves (left_starts rows.now named.rows) told.old.items told.new.items result
        (λ table. table.rows) }
    ensures trips { IfOk result (λ table. table.trips ≡ length rows.now.trips) }
{
    let found = named.rows();
    if found.is_empty() {
        return Ok(named);
    }
    let rides = match all_rides(alloc, rows) {
        Ok(rides) => rides,
        Err(fault) => return Err(fault),
    };
    let left = leave_starts(alloc, rides.as_slice(), found, told)?;
    let table = FrequencyTable::new(alloc, left, rides.len())?;
    Ok(table)
}
