//! The rows of frequencies.txt, by the numbers of their trips.
ghost use Rattle.std.specs.Prelude.{◌≡◌, ◌≤◌, ◌<◌, All, IfOk, length, map, filter};
ghost use Rattle.service_trips.specs.Starts.{IsGoodFrequency, names_trip, frequency_at};

use std::alloc::Global;
use std::marker::Model;
use tb_base::{Groups, Memory};

/// A row of frequencies.txt whose trip is named by a number. Times are in seconds since noon minus
/// twelve hours.
#[derive(Clone, Copy, Debug)]
pub struct TripFrequency {
    /// The row in its file, from 1.
    pub row: u32,
    /// The position of the trip's row in trips.txt, from 0.
    pub trip_row: u32,
    /// The first start.
    pub start: u32,
    /// Each start is before it.
    pub end: u32,
    /// The seconds from one start to the next.
    pub headway: u32,
}

/// The rows of frequencies.txt with a look-up by trip. Contracts see it as the number of trips and
/// the list of the rows.
#[derive(Drop)]
pub struct FrequencyTable {
    rows: Vec<TripFrequency>,
    by_trip: Groups,
}

impl Model for FrequencyTable {
    ghost use Rattle.std.specs.Prelude.{length};
    ghost use Rattle.service_trips.specs.Starts.{Frequencies, AreIndexed};

    ghost Value = { Frequencies };

    ghost view = { λ t. record { trips = length t.by_trip; rows = t.rows.items } };

    ghost invariant = { λ t. AreIndexed t.rows.items t.by_trip };
}

// The number of the trip of each row.
fn trip_rows(alloc: Global, rows: &[TripFrequency]) -> Result<Vec<u32>, Memory>
    ensures { IfOk result (λ keys. keys.items ≡ map (λ f. TripFrequency.trip_row f) rows.now) }
{
    let mut keys: Vec<u32> = Vec::new(alloc);
    for row in rows {
        keys.push(row.trip_row)?;
    }
    Ok(keys)
}

impl FrequencyTable {
    /// The table of rows that name so many trips.
    pub fn new(
        alloc: Global,
        rows: Vec<TripFrequency>,
        trips: usize,
    ) -> Result<FrequencyTable, Memory>
        requires few { length rows.items ≤ 200000 }
        requires trips { All (λ f. TripFrequency.trip_row f < trips) rows.items }
        requires good { All IsGoodFrequency rows.items }
        ensures rows { IfOk result (λ t. t.rows ≡ rows.items) }
        ensures trips { IfOk result (λ t. t.trips ≡ trips) }
    {
        let keys = trip_rows(alloc, rows.as_slice())?;
        let by_trip = Groups::by_key(alloc, keys.as_slice(), trips)?;
        Ok(FrequencyTable { rows, by_trip })
    }

    /// The rows, in file order.
    pub fn rows(&self) -> &[TripFrequency]
        ensures rows { result.now ≡ self.now.rows }
        ensures few { length self.now.rows ≤ 200000 }
        ensures trips { All (λ f. TripFrequency.trip_row f < self.now.trips) self.now.rows }
        ensures good { All IsGoodFrequency self.now.rows }
    {
        self.rows.as_slice()
    }

    /// The places of a trip's rows among the rows, in file order.
    pub fn places(&self, trip: usize) -> &[u32]
        requires { trip < self.now.trips }
        ensures rows { map (frequency_at self.now.rows) result.now
            ≡ filter (names_trip trip) self.now.rows }
        ensures within { All (λ place. place < length self.now.rows) result.now }
    {
        self.by_trip.of(trip)
    }
}
