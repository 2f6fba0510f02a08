//! Starts that move a time of their trip beyond the limits of a day.
ghost use Rattle.std.specs.Prelude.{◌≡◌, ◌<◌, ◌≤◌, List, All, MatchOption, Ok, Err, length, map, pos, int_lt, ◌||◌};
ghost use Rattle.gtfs_rows.specs.TripsFile as row;
ghost use Rattle.service_trips.specs.Starts.{IsGoodFrequency};
ghost use Rattle.service_trips.specs.ShownRides.{IsRide, IsRideOrNone, begin_from, end_from};
ghost use Rattle.service_trips.specs.Limits.{moves_beyond, check_frequencies};

use crate::moved_rides::to_start;
use crate::starts::starts_from;
use crate::{FrequencyTable, TripFrequency};
use gtfs_rows::columns::frequencies;
use gtfs_rows::{FeedFault, FeedFile, Spot};
use tb_base::{Event, Sec};

// The last time of a day: 99:59:59.
const LATEST: i32 = 359_999;

// When a trip that starts at a time arrives at its first stop.
fn begin_from(ride: &[Event], start: u32) -> Sec
    requires ride { IsRide ride.now }
    requires start { start ≤ 359999 }
    ensures { result ≡ begin_from ride.now start }
{
    ride[0].arr + to_start(ride, start)
}

// When it departs from its last stop.
fn end_from(ride: &[Event], start: u32) -> Sec
    requires ride { IsRide ride.now }
    requires start { start ≤ 359999 }
    ensures { result ≡ end_from ride.now start }
{
    ride[ride.len() - 1].dep + to_start(ride, start)
}

/// Whether some start of a row moves a time of its trip beyond the limits of a day: the first one
/// the first arrival, or the last one the last departure.
pub fn moves_beyond(ride: &[Event], frequency: &TripFrequency) -> bool
    requires ride { IsRideOrNone ride.now }
    requires good { IsGoodFrequency frequency.now }
    ensures { result ≡ moves_beyond ride.now frequency.now }
{
    if ride.is_empty() {
        return false;
    }
    let starts = starts_from(frequency, 0);
    if starts.count == 0 {
        return false;
    }
    let last = starts.first + (starts.count - 1) as u64 * frequency.headway as u64;
    let begin = begin_from(ride, starts.first as u32);
    let end = end_from(ride, last as u32);
    is_outside(begin, end)
}

// Whether a trip that begins and ends at these times leaves the limits of a day.
fn is_outside(begin: Sec, end: Sec) -> bool
    ensures { result ≡ (int_lt begin (pos 0) || int_lt (pos 359999) end) }
{
    begin < 0 || end > LATEST
}

/// The first row of frequencies.txt of which some start moves a time of its trip beyond the limits
/// of a day.
pub(crate) fn first_beyond(rides: &[Vec<Event>], table: &FrequencyTable) -> Option<FeedFault>
    requires trips { table.now.trips ≡ length rides.now }
    requires rides { All (λ ride. IsRideOrNone ride.items) rides.now }
    ensures { (rows : List row.TripData) →
        MatchOption result
        (check_frequencies
        (record {
          rows = rows;
          rides = map (λ ride. ride.items) rides.now;
          frequencies = table.now.rows;
        })
        ≡ Ok table.now.rows)
        (λ f. check_frequencies
        (record {
          rows = rows;
          rides = map (λ ride. ride.items) rides.now;
          frequencies = table.now.rows;
        })
        ≡ Err f) }
{
    for frequency in table.rows() {
        if moves_beyond(&rides[frequency.trip_row as usize], frequency) {
            return Some(FeedFault::BeyondDay(Spot {
                file: FeedFile::Frequencies,
                row: frequency.row,
                column: frequencies::START_TIME,
            }));
        }
    }
    None
}
