//! The rows of stop_times.txt, by the numbers of what their ids name.
ghost use Rattle.std.specs.Prelude.{◌≡◌, ◌<◌, ◌≤◌, ◌-◌, ◌^◌, IfOk, IsSome, length};
ghost use Rattle.gtfs_rows.specs.Faults.{check_rows};
ghost use Rattle.gtfs_rows.specs.Refused.{AreRowsRefused, Yields};
ghost use Rattle.gtfs_rows.specs.TimesFile.{time_data};
ghost use Rattle.gtfs_rows.specs.declared.fault.FeedFile.TheVariants as file;
ghost use Rattle.trip_table.specs.Answers.{IsDayRefused, Leaves, feed_of};
ghost use Rattle.trip_table.specs.GoodTimes.{AreGoodTimes};
ghost use Rattle.trip_table.specs.References.{times_of_feed, numbered, numbered_row, wrong_time, wrong_names, key_of, platform_number};

use crate::DayFault;
use crate::feed::{file_rows, spot};
use crate::seen::{SeenKeys, SequenceKey};
use crate::trips::TripRowTable;
use footpaths::{Found, StopTable};
use gtfs_rows::columns::stop_times;
use gtfs_rows::{FeedFault, FeedFile, RowCursor, RowReader, RowsFault, TimeFields, time_fields};
use service_trips::StopTime;
use std::alloc::Global;
use std::cell::Cell;
use tb_base::{Memory, StopNo};
use tb_io::Folder;

// What the next row may name: the trip of the row before, and the stop that followed the stop of
// that row the last time. It decides only where one looks first.
#[derive(Drop)]
pub struct Guesses {
    trip: Cell<u32>,
    stop: Cell<u32>,
    // For each stop the one that followed it.
    next: Vec<Cell<u32>>,
}

impl Guesses {
    // Before the first row, with so many stops.
    fn new(alloc: Global, stops: u32) -> Result<Guesses, Memory> {
        let mut next = Vec::with_capacity(alloc, stops as usize)?;
        for _stop in 0..stops {
            next.push(Cell::new(0))?;
        }
        Ok(Guesses {
            trip: Cell::new(0),
            stop: Cell::new(0),
            next,
        })
    }

    // The stop that followed the stop of the row before.
    fn next_stop(&self) -> u32 {
        match self.next.get(self.stop.get() as usize) {
            Some(stop) => stop.get(),
            None => 0,
        }
    }

    // Notes what a row names.
    fn learn(&self, trip: u32, stop: u32) {
        if let Some(next) = self.next.get(self.stop.get() as usize) {
            next.set(stop);
        }
        self.trip.set(trip);
        self.stop.set(stop);
    }
}

/// Reads the rows of stop_times.txt, and numbers what their ids name.
#[derive(Drop)]
pub struct StopTimeReader<'a> {
    pub stops: &'a StopTable,
    pub trips: &'a TripRowTable,
    guesses: Guesses,
}

impl StopTimeReader<'_> {
    // A stop time by the numbers of its trip and its platform.
    fn numbered(&self, fields: &TimeFields) -> StopTime
        ensures { result ≡ numbered self.now.stops.now self.now.trips.now (time_data fields.now) }
    {
        self.stops.soundness();
        let guesses = &self.guesses;
        let trip = self.trips.number_near(guesses.trip.get(), fields.trip);
        let found = self
            .stops
            .find_near(StopNo(guesses.next_stop()), fields.stop);
        let stop = platform_number(self.stops.platforms(), &found);
        guesses.learn(trip, stop);
        StopTime {
            row: fields.row,
            trip_row: trip,
            stop: StopNo(stop),
            arr: fields.arr,
            dep: fields.dep,
            sequence: fields.sequence,
            board: fields.board,
            alight: fields.alight,
        }
    }
}

impl RowReader for StopTimeReader<'_> {
    type Row = StopTime;

    ghost file = { file.StopTimes };

    ghost reading = { λ r. numbered_row r.stops.now r.trips.now };

    fn file(&self) -> FeedFile {
        FeedFile::StopTimes
    }

    fn read(&self, _alloc: Global, cursor: &RowCursor) -> Result<Option<StopTime>, RowsFault> {
        match time_fields(cursor) {
            Ok(fields) => Ok(Some(self.numbered(&fields))),
            Err(fault) => Err(RowsFault::Feed(fault)),
        }
    }
}

// The number of a platform of so many; where no stop has the id, their count, and where one has it
// that is no platform, one more.
fn platform_number(count: u32, found: &Option<Found>) -> u32
    requires { count ≤ 100000 }
    ensures { result ≡ platform_number count found.now }
{
    match found {
        Some(Found::Platform(stop)) => stop.0,
        Some(Found::Station(_)) => count + 1,
        Some(Found::Other) => count + 1,
        None => count,
    }
}

/// Refuses the first row that names no trip or no platform, or whose trip has had its
/// `stop_sequence`. The rows of a trip mostly stand in order, and as long as they do, one number a
/// trip tells: the least that its next row may have.
pub fn check_times(
    alloc: Global,
    stops: &StopTable,
    trips: &TripRowTable,
    rows: &[StopTime],
) -> Result<(), RowsFault>
    ensures { Yields AreRowsRefused result (λ _. rows.now)
        (check_rows (wrong_time stops.now trips.now) rows.now) }
{
    let mut least = zeros(alloc, trips.rows().len())?;
    for row in rows {
        match name_fault(stops, trips, row) {
            Some(fault) => return Err(RowsFault::Feed(fault)),
            None => {}
        }
        let trip = row.trip_row as usize;
        if (row.sequence as u64) < least[trip] {
            return check_keys(alloc, stops, trips, rows);
        }
        least[trip] = row.sequence as u64 + 1;
    }
    Ok(())
}

// The least number of the next row of each of so many trips, before their first rows.
fn zeros(alloc: Global, trips: usize) -> Result<Vec<u64>, Memory>
    ensures { IfOk result (λ v. length v.items ≡ trips) }
{
    let least = vec![in alloc; 0; trips]?;
    Ok(least)
}

// The same of rows in any order, by a set of the numbers that trips have had.
fn check_keys(
    alloc: Global,
    stops: &StopTable,
    trips: &TripRowTable,
    rows: &[StopTime],
) -> Result<(), RowsFault>
    ensures { Yields AreRowsRefused result (λ _. rows.now)
        (check_rows (wrong_time stops.now trips.now) rows.now) }
{
    let mut seen = SeenKeys::new(alloc);
    for row in rows {
        match name_fault(stops, trips, row) {
            Some(fault) => return Err(RowsFault::Feed(fault)),
            None => {}
        }
        match seen.add(key_of(row)) {
            Ok(true) => {}
            Ok(false) => {
                let spot = spot(FeedFile::StopTimes, row.row, stop_times::STOP_SEQUENCE);
                return Err(RowsFault::Feed(FeedFault::DuplicateSequence(spot)));
            }
            Err(_) => return Err(RowsFault::Memory),
        }
    }
    Ok(())
}

/// What is wrong with what a row names.
pub fn name_fault(stops: &StopTable, trips: &TripRowTable, row: &StopTime) -> Option<FeedFault>
    ensures { result ≡ wrong_names stops.now trips.now row.now }
{
    if row.trip_row as usize >= trips.rows().len() {
        return Some(FeedFault::UnknownTrip(spot(
            FeedFile::StopTimes,
            row.row,
            stop_times::TRIP_ID,
        )));
    }
    let platforms = stops.platforms();
    if row.stop.0 == platforms {
        return Some(FeedFault::UnknownStop(spot(
            FeedFile::StopTimes,
            row.row,
            stop_times::STOP_ID,
        )));
    }
    if row.stop.0 > platforms {
        return Some(FeedFault::NotAPlatform(spot(
            FeedFile::StopTimes,
            row.row,
            stop_times::STOP_ID,
        )));
    }
    None
}

/// The trip of a row, and its number within the trip.
pub fn key_of(row: &StopTime) -> SequenceKey
    ensures { result ≡ key_of row.now }
{
    SequenceKey {
        trip_row: row.trip_row,
        sequence: row.sequence,
    }
}

/// A reader of rows that name these stops and trips.
pub fn time_reader<'a>(
    alloc: Global,
    stops: &'a StopTable,
    trips: &'a TripRowTable,
) -> Result<StopTimeReader<'a>, Memory>
    ensures { IfOk result (λ r. (r.stops.now ≡ stops.now) × (r.trips.now ≡ trips.now)) }
{
    let guesses = Guesses::new(alloc, stops.platforms())?;
    Ok(StopTimeReader {
        stops,
        trips,
        guesses,
    })
}

/// The rows of stop_times.txt by the numbers of their trips and platforms.
pub fn read_times<F: Folder>(
    alloc: Global,
    folder: &mut F,
    dir: &str,
    stops: &StopTable,
    trips: &TripRowTable,
) -> Result<Vec<StopTime>, DayFault>
    requires { F.faults folder.old < 2 ^ 64 - 1 }
    ensures told { IsSome (F.files folder.old) →
        Yields IsDayRefused result (λ times. times.items)
        (times_of_feed (feed_of (F.files folder.old) dir.now) stops.now trips.now) }
    ensures good { IfOk result (λ times. AreGoodTimes stops.now trips.now times.items) }
    ensures leaves { Leaves (F.files folder.old) (F.files folder.new) (F.faults folder.old)
        (F.faults folder.new) result }
{
    let Ok(guesses) = Guesses::new(alloc, stops.platforms()) else {
        return Err(DayFault::Memory);
    };
    let reader = StopTimeReader {
        stops,
        trips,
        guesses,
    };
    let times = match file_rows(alloc, folder, dir, &reader) {
        Ok(Some(times)) => times,
        Ok(None) => return Err(DayFault::Feed(FeedFault::MissingFile(FeedFile::StopTimes))),
        Err(fault) => return Err(fault),
    };
    check_times(alloc, stops, trips, times.as_slice())?;
    Ok(times)
}
