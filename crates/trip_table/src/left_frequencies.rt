//! What is left of frequencies.txt where bad rows give no start.
ghost use Rattle.std.specs.Prelude.{◌≡◌, ◌≤◌, [], Err, IfOk, IfSome, MatchResult, Ok, Some, length, map, option_map, unwrap_or};
ghost use Rattle.gtfs_rows.specs.Refused.{AreRowsRefused, Yields};
ghost use Rattle.gtfs_rows.specs.Steps.{and_then};
ghost use Rattle.gtfs_rows.specs.declared.fault.FeedFile.TheVariants as file;
ghost use Rattle.trip_table.specs.Feed.{rows_in};
ghost use Rattle.trip_table.specs.LeftFeed.{bad, left_frequencies, left_frequency, name_row, named_frequencies, named_frequency, no_starts};
ghost use Rattle.trip_table.specs.References.{check_named, numbered_frequency};
ghost use Rattle.trip_table.specs.Sieves.{Sieves};

use crate::feed::spot;
use crate::frequencies::table_of;
use crate::left_starts::left_starts;
use crate::left_times::is_marked;
use crate::rows::FeedRows;
use crate::sieve::tell_all;
use crate::trips::TripRowTable;
use gtfs_rows::columns::frequencies;
use gtfs_rows::{
    FeedFault, FeedFile, FrequencyReader, FrequencyRow, Name, RowCursor, RowReader, RowsFault,
    typed_rows,
};
use service_trips::FrequencyTable;
use std::alloc::Global;
use tb_base::Memory;

// A row whose trip has to be there.
fn name_row(
    trips: &TripRowTable,
    gone: &[bool],
    row: FrequencyRow,
) -> Result<FrequencyRow, FeedFault>
    ensures { MatchResult result (λ f. name_row trips.now gone.now (Some row) ≡ Ok (Some f))
        (λ f. name_row trips.now gone.now (Some row) ≡ Err f) }
{
    let trip = trips.number(row.trip.bytes());
    if trip as usize >= trips.rows().len() || is_marked(gone, trip) {
        return Err(FeedFault::UnknownTrip(spot(
            FeedFile::Frequencies,
            row.row,
            frequencies::TRIP_ID,
        )));
    }
    Ok(row)
}

// What the row at hand gives, whose trip has to be there.
fn named(
    alloc: Global,
    trips: &TripRowTable,
    gone: &[bool],
    cursor: &RowCursor,
) -> Result<Option<FrequencyRow>, RowsFault>
    ensures { Yields AreRowsRefused result (λ x. x)
        (named_frequency trips.now gone.now cursor.now.current) }
{
    match FrequencyReader.read(alloc, cursor) {
        Ok(None) => Ok(None),
        Ok(Some(row)) => match name_row(trips, gone, row) {
            Ok(found) => Ok(Some(found)),
            Err(fault) => Err(RowsFault::Feed(fault)),
        },
        Err(fault) => Err(fault),
    }
}

// A row of a trip that gives no start, where the trip is there.
fn no_starts(
    alloc: Global,
    trips: &TripRowTable,
    row: u32,
    id: &[u8],
) -> Result<Option<FrequencyRow>, Memory>
    ensures { IfOk result (λ found. found ≡ no_starts trips.now row id.now) }
{
    if trips.number(id) as usize >= trips.rows().len() {
        return Ok(None);
    }
    let trip = Name::new(alloc, id)?;
    Ok(Some(FrequencyRow {
        row,
        trip,
        start: 0,
        end: 0,
        headway: 1,
    }))
}

// Reads what is wrong with the bad rows of frequencies.txt.
#[derive(Drop)]
struct BadFrequencies<'a> {
    trips: &'a TripRowTable,
    gone: &'a [bool],
}

impl RowReader for BadFrequencies<'_> {
    type Row = FeedFault;

    ghost use Rattle.gtfs_rows.specs.declared.fault.FeedFile.TheVariants as file;
    ghost use Rattle.trip_table.specs.LeftFeed.{bad, named_frequency};

    ghost file = { file.Frequencies };

    ghost reading = { λ r. bad (named_frequency r.trips.now r.gone.now) };

    fn file(&self) -> FeedFile {
        FeedFile::Frequencies
    }

    fn read(&self, alloc: Global, cursor: &RowCursor) -> Result<Option<FeedFault>, RowsFault> {
        match named(alloc, self.trips, self.gone, cursor) {
            Ok(_) => Ok(None),
            Err(RowsFault::Feed(fault)) => Ok(Some(fault)),
            Err(RowsFault::Memory) => Err(RowsFault::Memory),
        }
    }
}

// Reads the rows of frequencies.txt. A bad one of a trip that is there gives no start.
#[derive(Drop)]
struct LeftFrequencies<'a> {
    trips: &'a TripRowTable,
    gone: &'a [bool],
}

impl RowReader for LeftFrequencies<'_> {
    type Row = FrequencyRow;

    ghost use Rattle.gtfs_rows.specs.declared.fault.FeedFile.TheVariants as file;
    ghost use Rattle.trip_table.specs.LeftFeed.{left_frequency};

    ghost file = { file.Frequencies };

    ghost reading = { λ r. left_frequency r.trips.now r.gone.now };

    fn file(&self) -> FeedFile {
        FeedFile::Frequencies
    }

    fn read(&self, alloc: Global, cursor: &RowCursor) -> Result<Option<FrequencyRow>, RowsFault> {
        match named(alloc, self.trips, self.gone, cursor) {
            Ok(row) => Ok(row),
            Err(RowsFault::Feed(fault)) => {
                drop(fault);
                let id = cursor.cell(frequencies::TRIP_ID);
                Ok(no_starts(alloc, self.trips, cursor.row(), id)?)
            }
            Err(RowsFault::Memory) => Err(RowsFault::Memory),
        }
    }
}

// The rows of the file's bytes, where it is there, with a look-up by trip.
fn left_table(
    alloc: Global,
    trips: &TripRowTable,
    gone: &[bool],
    text: Option<&[u8]>,
) -> Result<FrequencyTable, RowsFault>
    requires { IfSome text (λ bytes. length bytes.now ≤ 1_073_741_824) }
    ensures rows { Yields AreRowsRefused result (λ table. table.rows)
        (and_then
        (rows_in file.Frequencies (left_frequency trips.now gone.now)
        (option_map (λ bytes. bytes.now) text.entry))
        (λ rows. check_named trips.now (map (numbered_frequency trips.now) (unwrap_or rows [])))) }
    ensures trips { IfOk result (λ table. table.trips ≡ length trips.now) }
{
    let rows = match text {
        Some(bytes) => match typed_rows(alloc, &LeftFrequencies { trips, gone }, bytes) {
            Ok(rows) => rows,
            Err(fault) => return Err(fault),
        },
        None => Vec::new(alloc),
    };
    table_of(alloc, trips, rows)
}

// What is wrong with the bad rows.
fn bad_frequencies(
    alloc: Global,
    trips: &TripRowTable,
    gone: &[bool],
    text: Option<&[u8]>,
) -> Result<Option<Vec<FeedFault>>, RowsFault>
    requires { IfSome text (λ bytes. length bytes.now ≤ 1_073_741_824) }
    ensures { Yields AreRowsRefused result (option_map (λ v. v.items))
        (rows_in file.Frequencies (bad (named_frequency trips.now gone.now))
        (option_map (λ bytes. bytes.now) text.entry)) }
{
    let Some(bytes) = text else {
        return Ok(None);
    };
    match typed_rows(alloc, &BadFrequencies { trips, gone }, bytes) {
        Ok(faults) => Ok(Some(faults)),
        Err(fault) => Err(fault),
    }
}

// The rows of frequencies.txt by the numbers of their trips; none where the file isn't there. The
// faults of bad ones are told, and these give no start.
fn named_frequencies(
    alloc: Global,
    trips: &TripRowTable,
    gone: &[bool],
    text: Option<&[u8]>,
    told: &mut Vec<FeedFault>,
) -> Result<FrequencyTable, RowsFault>
    requires { IfSome text (λ bytes. length bytes.now ≤ 1_073_741_824) }
    ensures left { Sieves
        (named_frequencies trips.now gone.now (option_map (λ bytes. bytes.now) text.entry)) told.old.items
        told.new.items result (λ table. table.rows) }
    ensures trips { IfOk result (λ table. table.trips ≡ length trips.now) }
{
    match bad_frequencies(alloc, trips, gone, text) {
        Ok(Some(faults)) => tell_all(told, faults)?,
        Ok(None) => {}
        Err(fault) => return Err(fault),
    }
    left_table(alloc, trips, gone, text)
}

/// The rows of frequencies.txt by the numbers of their trips; none where the file isn't there. The
/// faults of bad ones, and of those that move a time of their trip beyond a day, are told, and these
/// give no start.
pub fn left_frequencies(
    alloc: Global,
    rows: &FeedRows,
    gone: &[bool],
    text: Option<&[u8]>,
    told: &mut Vec<FeedFault>,
) -> Result<FrequencyTable, RowsFault>
    requires { IfSome text (λ bytes. length bytes.now ≤ 1_073_741_824) }
    ensures left { Sieves
        (left_frequencies rows.now gone.now (option_map (λ bytes. bytes.now) text.entry)) told.old.items
        told.new.items result (λ table. table.rows) }
    ensures trips { IfOk result (λ table. table.trips ≡ length rows.now.trips) }
{
    match named_frequencies(alloc, rows.trips(), gone, text, told) {
        Ok(named) => left_starts(alloc, rows, named, told),
        Err(fault) => Err(fault),
    }
}
