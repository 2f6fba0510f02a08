//! The rows of frequencies.txt, by the numbers of their trips.
ghost use Rattle.std.specs.Prelude.{◌≡◌, ◌≤◌, ◌<◌, ◌-◌, ◌^◌, All, Ok, Err, IfOk, IsSome, MatchOption, length, map};
ghost use Rattle.gtfs_rows.specs.Refused.{AreRowsRefused, Yields};
ghost use Rattle.service_trips.specs.Starts.{IsGoodFrequency};
ghost use Rattle.trip_table.specs.Answers.{IsDayRefused, Leaves, feed_of};
ghost use Rattle.trip_table.specs.References.{numbered_frequency, check_named, frequency_rows_of, frequencies_of};

use crate::DayFault;
use crate::feed::{file_rows, spot};
use crate::trips::TripRowTable;
use gtfs_rows::columns::frequencies;
use gtfs_rows::{FeedFault, FeedFile, FrequencyReader, FrequencyRow, RowsFault};
use service_trips::{FrequencyTable, TripFrequency};
use std::alloc::Global;
use tb_base::Memory;
use tb_io::Folder;

// The rows of frequencies.txt: none where the file isn't there.
fn frequency_rows_of<F: Folder>(
    alloc: Global,
    folder: &mut F,
    dir: &str,
) -> Result<Vec<FrequencyRow>, DayFault>
    requires { F.faults folder.old < 2 ^ 64 - 1 }
    ensures told { IsSome (F.files folder.old) →
        Yields IsDayRefused result (λ rows. rows.items)
        (frequency_rows_of (feed_of (F.files folder.old) dir.now)) }
    ensures few { IfOk result (λ rows. length rows.items ≤ 200000) }
    ensures leaves { Leaves (F.files folder.old) (F.files folder.new) (F.faults folder.old)
        (F.faults folder.new) result }
{
    match file_rows(alloc, folder, dir, &FrequencyReader) {
        Ok(Some(rows)) => Ok(rows),
        Ok(None) => Ok(Vec::new(alloc)),
        Err(fault) => Err(fault),
    }
}

// A row by the number of its trip.
fn numbered(trips: &TripRowTable, row: &FrequencyRow) -> TripFrequency
    ensures numbered { result ≡ numbered_frequency trips.now row.now }
    ensures good { IsGoodFrequency result }
{
    TripFrequency {
        row: row.row,
        trip_row: trips.number(row.trip.bytes()),
        start: row.start,
        end: row.end,
        headway: row.headway,
    }
}

// The rows by the numbers of their trips.
fn numbered_rows(
    alloc: Global,
    trips: &TripRowTable,
    rows: &[FrequencyRow],
) -> Result<Vec<TripFrequency>, Memory>
    ensures numbered { IfOk result (λ v. v.items ≡ map (numbered_frequency trips.now) rows.now) }
    ensures good { IfOk result (λ v. All IsGoodFrequency v.items) }
{
    let mut found: Vec<TripFrequency> = Vec::new(alloc);
    for row in rows {
        found.push(numbered(trips, row))?;
    }
    Ok(found)
}

// The first row that names no row of trips.txt.
fn name_fault(trips: &TripRowTable, rows: &[TripFrequency]) -> Option<FeedFault>
    ensures { MatchOption result (check_named trips.now rows.now ≡ Ok rows.now)
        (λ f. check_named trips.now rows.now ≡ Err f) }
{
    let count = trips.rows().len();
    for row in rows {
        if row.trip_row as usize >= count {
            return Some(FeedFault::UnknownTrip(spot(
                FeedFile::Frequencies,
                row.row,
                frequencies::TRIP_ID,
            )));
        }
    }
    None
}

/// The rows with a look-up by trip, or the first row that names no row of trips.txt.
pub fn table_of(
    alloc: Global,
    trips: &TripRowTable,
    rows: Vec<FrequencyRow>,
) -> Result<FrequencyTable, RowsFault>
    requires { length rows.items ≤ 200000 }
    ensures rows { Yields AreRowsRefused result (λ table. table.rows)
        (check_named trips.now (map (numbered_frequency trips.now) rows.items)) }
    ensures trips { IfOk result (λ table. table.trips ≡ length trips.now) }
{
    let found = numbered_rows(alloc, trips, rows.as_slice())?;
    if let Some(fault) = name_fault(trips, found.as_slice()) {
        return Err(RowsFault::Feed(fault));
    }
    let table = FrequencyTable::new(alloc, found, trips.rows().len())?;
    Ok(table)
}

/// The rows of frequencies.txt by the numbers of their trips; none where the file isn't there.
pub fn read_frequencies<F: Folder>(
    alloc: Global,
    folder: &mut F,
    dir: &str,
    trips: &TripRowTable,
) -> Result<FrequencyTable, DayFault>
    requires { F.faults folder.old < 2 ^ 64 - 1 }
    ensures told { IsSome (F.files folder.old) →
        Yields IsDayRefused result (λ table. table.rows)
        (frequencies_of (feed_of (F.files folder.old) dir.now) trips.now) }
    ensures trips { IfOk result (λ table. table.trips ≡ length trips.now) }
    ensures leaves { Leaves (F.files folder.old) (F.files folder.new) (F.faults folder.old)
        (F.faults folder.new) result }
{
    let rows = match frequency_rows_of(alloc, folder, dir) {
        Ok(rows) => rows,
        Err(fault) => return Err(fault),
    };
    Ok(table_of(alloc, trips, rows)?)
}
