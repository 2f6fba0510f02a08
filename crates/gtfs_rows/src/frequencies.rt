//! The rows of frequencies.txt.
ghost use Rattle.std.specs.Prelude.{◌≡◌, ◌≤◌, IfSome, length};
ghost use Rattle.gtfs_rows.specs.FrequenciesFile.{exact_times, frequency_row, frequency_rows, headway_of};
ghost use Rattle.gtfs_rows.specs.Refused.{AreRowsRefused, Yields};
ghost use Rattle.gtfs_rows.specs.declared.fault.FeedFile.TheVariants as file;

use crate::columns::frequencies;
use crate::fields::{code_of, id_of, spot};
use crate::numbers::{number_of, time_secs};
use crate::{FeedFault, FeedFile, Name, RowCursor, RowReader, RowsFault, typed_rows};
use std::alloc::Global;
use std::marker::Model;

/// A row of frequencies.txt: its number in the file, its `trip_id`, and when the trip starts: at
/// `start` and every `headway` seconds after it, as long as that is before `end`. Times are seconds
/// from noon minus twelve hours, at most 359,999, and `headway` is at least 1.
#[derive(Drop)]
pub struct FrequencyRow {
    pub row: u32,
    pub trip: Name,
    pub start: u32,
    pub end: u32,
    pub headway: u32,
}

impl Model for FrequencyRow {
    ghost use Rattle.std.specs.Prelude.{◌≤◌};
    ghost use Rattle.gtfs_rows.specs.FrequenciesFile.{FrequencyData};

    ghost Value = { FrequencyData };

    ghost view = { λ f. record {
      row = f.row;
      trip = f.trip;
      start = f.start;
      end = f.end;
      headway = f.headway;
    } };

    ghost invariant = { λ f. (f.start ≤ 359999) × (f.end ≤ 359999) × (1 ≤ f.headway) };
}

// The seconds from one start to the next: at least one.
fn headway_of(text: &[u8]) -> Option<u32>
    ensures headway { result ≡ headway_of text.now }
    ensures some { IfSome result (λ secs. 1 ≤ secs) }
{
    match number_of(text) {
        Some(secs) if secs >= 1 => Some(secs),
        _ => None,
    }
}

// Whether the starts are exact, `1`, or not, `0` or nothing.
fn exact_times(text: &[u8]) -> Option<u8>
    ensures { result ≡ exact_times text.now }
{
    match code_of(text) {
        Some(code) if code <= 1 => Some(code),
        _ => None,
    }
}

/// Reads the rows of frequencies.txt.
#[derive(Clone, Copy)]
pub struct FrequencyReader;

impl RowReader for FrequencyReader {
    type Row = FrequencyRow;

    ghost file = { file.Frequencies };

    ghost reading = { λ _. frequency_row };

    fn file(&self) -> FeedFile {
        FeedFile::Frequencies
    }

    fn read(&self, alloc: Global, cursor: &RowCursor) -> Result<Option<FrequencyRow>, RowsFault> {
        let file = FeedFile::Frequencies;
        let Some(trip) = id_of(cursor.cell(frequencies::TRIP_ID)) else {
            return Err(RowsFault::Feed(FeedFault::EmptyId(spot(
                cursor,
                file,
                frequencies::TRIP_ID,
            ))));
        };
        let Some(start) = time_secs(cursor.cell(frequencies::START_TIME)) else {
            return Err(RowsFault::Feed(FeedFault::BadTime(spot(
                cursor,
                file,
                frequencies::START_TIME,
            ))));
        };
        let Some(end) = time_secs(cursor.cell(frequencies::END_TIME)) else {
            return Err(RowsFault::Feed(FeedFault::BadTime(spot(
                cursor,
                file,
                frequencies::END_TIME,
            ))));
        };
        let Some(headway) = headway_of(cursor.cell(frequencies::HEADWAY_SECS)) else {
            return Err(RowsFault::Feed(FeedFault::BadNumber(spot(
                cursor,
                file,
                frequencies::HEADWAY_SECS,
            ))));
        };
        let Some(_) = exact_times(cursor.cell(frequencies::EXACT_TIMES)) else {
            return Err(RowsFault::Feed(FeedFault::BadCode(spot(
                cursor,
                file,
                frequencies::EXACT_TIMES,
            ))));
        };
        Ok(Some(FrequencyRow {
            row: cursor.row(),
            trip: Name::new(alloc, trip)?,
            start,
            end,
            headway,
        }))
    }
}

/// The typed rows of frequencies.txt in file order, or the file's first fault. Starts are the same
/// whether `exact_times` is set or not.
pub fn frequency_rows(alloc: Global, bytes: &[u8]) -> Result<Vec<FrequencyRow>, RowsFault>
    requires { length bytes.now ≤ 1_073_741_824 }
    ensures { Yields AreRowsRefused result (λ v. v.items) (frequency_rows bytes.now) }
{
    typed_rows(alloc, &FrequencyReader, bytes)
}
