//! What is left of stop_times.txt where trips with bad rows are left out.
ghost use Rattle.std.specs.Prelude.{◌≡◌, ◌≤◌, ◌<◌, ◌++◌, ◌==◌, [], All, IfOk, IfSome, List, Ok, OnOk, false, get_or, length, map, option_map, replicate, ℕ};
ghost use Rattle.std.specs.List.{list_any};
ghost use Rattle.gtfs_rows.specs.Columns.{row_limit};
ghost use Rattle.gtfs_rows.specs.RawRows.{typed_rows};
ghost use Rattle.gtfs_rows.specs.Steps.{and_then};
ghost use Rattle.gtfs_rows.specs.Refused.{AreRowsRefused, Yields};
ghost use Rattle.gtfs_rows.specs.declared.fault.FeedFile.TheVariants as file;
ghost use Rattle.service_trips.specs.Broken.{broken_trips};
ghost use Rattle.service_trips.specs.declared.broken.TripFault.{TripFault};
ghost use Rattle.service_trips.specs.declared.stop_time.StopTime.{StopTime};
ghost use Rattle.service_trips.specs.Times.{HasFileTimes};
ghost use Rattle.trip_table.specs.Feed.{or_missing, rows_in};
ghost use Rattle.trip_table.specs.GoodTimes.{AreGoodTimes};
ghost use Rattle.trip_table.specs.LeftFeed.{apart_times, bad_time, gone_trips, good_time, leave_trips, left_or_none, left_times, mark_trips, marks_apart, timed_rows, times_in, twins, without_trips};
ghost use Rattle.trip_table.specs.Sieves.{Sieves, after, ended};

use crate::feed::spot;
use crate::seen::SeenKeys;
use crate::times::{StopTimeReader, check_times, key_of, name_fault, time_reader};
use crate::trips::TripRowTable;
use footpaths::StopTable;
use gtfs_rows::columns::stop_times;
use gtfs_rows::{FeedFault, FeedFile, RowCursor, RowReader, RowsFault, typed_rows};
use service_trips::{StopTime, TripFault, broken_trips};
use std::alloc::Global;
use tb_base::Memory;

// Reads what is wrong with the bad rows of stop_times.txt, and the number of the trip that each
// names.
#[derive(Drop)]
struct BadTimes<'a> {
    reader: StopTimeReader<'a>,
}

impl RowReader for BadTimes<'_> {
    type Row = TripFault;

    ghost file = { file.StopTimes };

    ghost reading = { λ r. bad_time r.reader.stops.now r.reader.trips.now };

    fn file(&self) -> FeedFile {
        FeedFile::StopTimes
    }

    fn read(&self, alloc: Global, cursor: &RowCursor) -> Result<Option<TripFault>, RowsFault> {
        let fault = match self.reader.read(alloc, cursor) {
            Ok(None) => return Ok(None),
            Ok(Some(row)) => match name_fault(self.reader.stops, self.reader.trips, &row) {
                Some(fault) => fault,
                None => return Ok(None),
            },
            Err(RowsFault::Feed(fault)) => fault,
            Err(RowsFault::Memory) => return Err(RowsFault::Memory),
        };
        let trip = self.reader.trips.number(cursor.cell(stop_times::TRIP_ID));
        Ok(Some(TripFault { trip, fault }))
    }
}

// Reads the rows of stop_times.txt that aren't bad.
#[derive(Drop)]
struct GoodTimes<'a> {
    reader: StopTimeReader<'a>,
}

impl RowReader for GoodTimes<'_> {
    type Row = StopTime;

    ghost file = { file.StopTimes };

    ghost reading = { λ r. good_time r.reader.stops.now r.reader.trips.now };

    fn file(&self) -> FeedFile {
        FeedFile::StopTimes
    }

    fn read(&self, alloc: Global, cursor: &RowCursor) -> Result<Option<StopTime>, RowsFault> {
        match self.reader.read(alloc, cursor) {
            Ok(None) => Ok(None),
            Ok(Some(row)) => match name_fault(self.reader.stops, self.reader.trips, &row) {
                Some(fault) => {
                    drop(fault);
                    Ok(None)
                }
                None => Ok(Some(row)),
            },
            Err(RowsFault::Feed(fault)) => {
                drop(fault);
                Ok(None)
            }
            Err(RowsFault::Memory) => Err(RowsFault::Memory),
        }
    }
}

// The rows of a file that has to be there, by a reader.
fn rows_by<R: RowReader>(
    alloc: Global,
    reader: &R,
    text: Option<&[u8]>,
) -> Result<Vec<R::Row>, RowsFault>
    requires { IfSome text (λ bytes. length bytes.now ≤ 1_073_741_824) }
    ensures rows { Yields AreRowsRefused result (λ v. v.items)
        (and_then (rows_in R.file (R.reading reader.now) (option_map (λ bytes. bytes.now) text.entry))
        (or_missing R.file)) }
    ensures bytes { IfOk result
        (λ v. (bytes : List ℕ) × (typed_rows R.file (R.reading reader.now) bytes ≡ Ok v.items)) }
    ensures few { IfOk result (λ v. length v.items ≤ row_limit R.file) }
{
    let Some(bytes) = text else {
        return Err(RowsFault::Feed(FeedFault::MissingFile(reader.file())));
    };
    typed_rows(alloc, reader, bytes)
}

// The bad rows of stop_times.txt.
fn bad_times(
    alloc: Global,
    stops: &StopTable,
    trips: &TripRowTable,
    text: Option<&[u8]>,
) -> Result<Vec<TripFault>, RowsFault>
    requires { IfSome text (λ bytes. length bytes.now ≤ 1_073_741_824) }
    ensures { Yields AreRowsRefused result (λ v. v.items)
        (times_in (bad_time stops.now trips.now) (option_map (λ bytes. bytes.now) text.entry)).end }
{
    let reader = time_reader(alloc, stops, trips)?;
    rows_by(alloc, &BadTimes { reader }, text)
}

// The others.
fn good_times(
    alloc: Global,
    stops: &StopTable,
    trips: &TripRowTable,
    text: Option<&[u8]>,
) -> Result<Vec<StopTime>, RowsFault>
    requires { IfSome text (λ bytes. length bytes.now ≤ 1_073_741_824) }
    ensures rows { Yields AreRowsRefused result (λ v. v.items)
        (times_in (good_time stops.now trips.now) (option_map (λ bytes. bytes.now) text.entry)).end }
    ensures trips { IfOk result
        (λ v. All (λ r. StopTime.trip_row r < length trips.now) v.items) }
    ensures times { IfOk result (λ v. All HasFileTimes v.items) }
    ensures few { IfOk result (λ v. length v.items ≤ 20000000) }
{
    let reader = time_reader(alloc, stops, trips)?;
    rows_by(alloc, &GoodTimes { reader }, text)
}

// Which of so many trips bear a fault.
fn marks_of(alloc: Global, trips: usize, found: &[TripFault]) -> Result<Vec<bool>, Memory>
    ensures marks { IfOk result (λ marks.
        (t : ℕ) → t < trips →
        get_or marks.items t false ≡ list_any (λ f. TripFault.trip f == t) found.now) }
    ensures length { IfOk result (λ marks. length marks.items ≡ trips) }
{
    let mut marks = unmarked(alloc, trips)?;
    for broken in found {
        let trip = broken.trip as usize;
        if trip < marks.len() {
            marks[trip] = true;
        }
    }
    Ok(marks)
}

// Marks trips that bear faults.
fn mark_trips(marks: &mut Vec<bool>, found: &[TripFault])
    ensures { marks.new.items ≡ mark_trips found.now marks.old.items }
{
    for broken in found {
        let trip = broken.trip as usize;
        if trip < marks.len() {
            marks[trip] = true;
        }
    }
}

/// So many marks that aren't set.
pub fn unmarked(alloc: Global, count: usize) -> Result<Vec<bool>, Memory>
    ensures { IfOk result (λ marks. marks.items ≡ replicate count false) }
{
    let marks = vec![in alloc; false; count]?;
    Ok(marks)
}

/// Whether a trip is marked.
pub fn is_marked(marks: &[bool], trip: u32) -> bool
    ensures { result ≡ get_or marks.now trip false }
{
    match marks.get(trip as usize) {
        Some(mark) => *mark,
        None => false,
    }
}

// Stop times without those of trips that bear a fault.
fn without_trips(
    alloc: Global,
    trips: usize,
    rows: Vec<StopTime>,
    found: &[TripFault],
) -> Result<Vec<StopTime>, Memory>
    requires { All (λ r. StopTime.trip_row r < trips) rows.items }
    ensures { IfOk result (λ left. left.items ≡ without_trips found.now rows.items) }
{
    let marks = marks_of(alloc, trips, found)?;
    let mut rows = rows;
    rows.retain(|row| !is_marked(&marks, row.trip_row));
    Ok(rows)
}

// Tells what is wrong with trips.
fn tell_trips(told: &mut Vec<FeedFault>, found: Vec<TripFault>) -> Result<(), Memory>
    ensures { OnOk result
        (told.new.items ≡ told.old.items ++ map (λ t. TripFault.fault t) found.items) }
{
    for broken in found {
        told.push(broken.fault)?;
    }
    Ok(())
}

/// Rows of stop_times.txt, and marks at the trips that are left out.
#[derive(Drop)]
pub struct LeftTimes {
    pub rows: Vec<StopTime>,
    pub gone: Vec<bool>,
}

// Leaves out trips for the faults that they bear, which are told.
fn leave_trips(
    alloc: Global,
    trips: usize,
    times: LeftTimes,
    found: Vec<TripFault>,
    told: &mut Vec<FeedFault>,
) -> Result<LeftTimes, Memory>
    requires { All (λ r. StopTime.trip_row r < trips) times.rows.items }
    ensures told { IfOk result (λ left.
        after told.old.items (leave_trips found.items times.rows.items)
        ≡ ended told.new.items (Ok left.rows.items)) }
    ensures left { IfOk result
        (λ left. left.rows.items ≡ without_trips found.items times.rows.items) }
    ensures gone { IfOk result
        (λ left. left.gone.items ≡ mark_trips found.items times.gone.items) }
{
    let mut gone = times.gone;
    mark_trips(&mut gone, found.as_slice());
    let rows = without_trips(alloc, trips, times.rows, found.as_slice())?;
    tell_trips(told, found)?;
    Ok(LeftTimes { rows, gone })
}

// The rows whose trip has an earlier row with their `stop_sequence`.
fn twins(alloc: Global, rows: &[StopTime]) -> Result<Vec<TripFault>, Memory>
    ensures { IfOk result (λ found. found.items ≡ twins [] rows.now) }
{
    let mut seen = SeenKeys::new(alloc);
    let mut found: Vec<TripFault> = Vec::new(alloc);
    for row in rows {
        if !seen.add(key_of(row))? {
            let spot = spot(FeedFile::StopTimes, row.row, stop_times::STOP_SEQUENCE);
            found.push(TripFault {
                trip: row.trip_row,
                fault: FeedFault::DuplicateSequence(spot),
            })?;
        }
    }
    Ok(found)
}

// The rows of stop_times.txt without those of trips of which one is bad, or repeats a number, which
// are told.
fn apart_times(
    alloc: Global,
    stops: &StopTable,
    trips: &TripRowTable,
    text: Option<&[u8]>,
    told: &mut Vec<FeedFault>,
) -> Result<LeftTimes, RowsFault>
    requires { IfSome text (λ bytes. length bytes.now ≤ 1_073_741_824) }
    ensures apart { Sieves
        (apart_times stops.now trips.now (option_map (λ bytes. bytes.now) text.entry)) told.old.items
        told.new.items result (λ left. left.rows.items) }
    ensures gone { IfOk result (λ left.
        left.gone.items ≡ marks_apart (length trips.now)
        (left_or_none
        (times_in (bad_time stops.now trips.now) (option_map (λ bytes. bytes.now) text.entry)))
        (left_or_none
        (times_in (good_time stops.now trips.now) (option_map (λ bytes. bytes.now) text.entry)))) }
    ensures times { IfOk result (λ left. All HasFileTimes left.rows.items) }
    ensures few { IfOk result (λ left. length left.rows.items ≤ 20000000) }
{
    let found = match bad_times(alloc, stops, trips, text) {
        Ok(found) => found,
        Err(fault) => return Err(fault),
    };
    let rows = match good_times(alloc, stops, trips, text) {
        Ok(rows) => rows,
        Err(fault) => return Err(fault),
    };
    let count = trips.rows().len();
    let gone = unmarked(alloc, count)?;
    let named = leave_trips(alloc, count, LeftTimes { rows, gone }, found, told)?;
    let doubled = twins(alloc, named.rows.as_slice())?;
    let apart = leave_trips(alloc, count, named, doubled, told)?;
    Ok(apart)
}

// Rows with which nothing else is wrong, without those of trips with whose times something is wrong,
// which are told.
fn timed_rows(
    alloc: Global,
    stops: &StopTable,
    trips: &TripRowTable,
    apart: LeftTimes,
    told: &mut Vec<FeedFault>,
) -> Result<LeftTimes, RowsFault>
    requires times { All HasFileTimes apart.rows.items }
    requires few { length apart.rows.items ≤ 20000000 }
    ensures left { Sieves (timed_rows stops.now trips.now apart.rows.items) told.old.items
        told.new.items result (λ left. left.rows.items) }
    ensures gone { IfOk result (λ left.
        left.gone.items
        ≡ mark_trips (broken_trips apart.rows.items (length trips.now)) apart.gone.items) }
    ensures good { IfOk result (λ left. AreGoodTimes stops.now trips.now left.rows.items) }
{
    match check_times(alloc, stops, trips, apart.rows.as_slice()) {
        Ok(()) => {}
        Err(fault) => return Err(fault),
    }
    let count = trips.rows().len();
    let broken = broken_trips(alloc, apart.rows.as_slice(), count)?;
    let left = leave_trips(alloc, count, apart, broken, told)?;
    Ok(left)
}

/// The rows of stop_times.txt by the numbers of their trips and platforms, without all rows of a
/// trip of which one is bad, or repeats a number, or with whose times something is wrong, which is
/// marked. The faults of trips are told, and those of rows that name no trip.
pub fn left_times(
    alloc: Global,
    stops: &StopTable,
    trips: &TripRowTable,
    text: Option<&[u8]>,
    told: &mut Vec<FeedFault>,
) -> Result<LeftTimes, RowsFault>
    requires { IfSome text (λ bytes. length bytes.now ≤ 1_073_741_824) }
    ensures left { Sieves
        (left_times stops.now trips.now (option_map (λ bytes. bytes.now) text.entry)) told.old.items
        told.new.items result (λ left. left.rows.items) }
    ensures gone { IfOk result (λ left.
        left.gone.items
        ≡ gone_trips stops.now trips.now (option_map (λ bytes. bytes.now) text.entry)) }
    ensures good { IfOk result (λ left. AreGoodTimes stops.now trips.now left.rows.items) }
{
    match apart_times(alloc, stops, trips, text, told) {
        Ok(apart) => timed_rows(alloc, stops, trips, apart, told),
        Err(fault) => Err(fault),
    }
}
