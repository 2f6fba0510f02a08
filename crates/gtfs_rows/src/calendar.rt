//! The rows of calendar.txt.
ghost use Rattle.std.specs.Prelude.{◌≡◌, ◌≤◌, IfErr, length};
ghost use Rattle.gtfs_rows.specs.CalendarFile.{calendar_row, calendar_rows, flag_in, flag_of, week_in};
ghost use Rattle.gtfs_rows.specs.LeftOut.{IsOfRow};
ghost use Rattle.gtfs_rows.specs.Refused.{AreRowsRefused, Yields};
ghost use Rattle.gtfs_rows.specs.declared.fault.FeedFile.TheVariants as file;

use crate::civil::date_of;
use crate::columns::calendar;
use crate::fields::{digit_of, id_of, spot};
use crate::{FeedFault, FeedFile, Name, RowCursor, RowReader, RowsFault, typed_rows};
use std::alloc::Global;
use std::marker::Model;

/// A row of calendar.txt: the days of the week on which a service runs, from Monday on, from its
/// first date to its last one, both counted. A date is the number that its eight digits YYYYMMDD
/// write.
#[derive(Drop)]
pub struct CalendarRow {
    pub row: u32,
    pub service: Name,
    pub days: [bool; 7],
    pub start: u32,
    pub end: u32,
}

impl Model for CalendarRow {
    ghost use Rattle.gtfs_rows.specs.CalendarFile.{CalendarData};

    ghost Value = { CalendarData };

    ghost view = { λ r.
        record { row = r.row; service = r.service; days = r.days; start = r.start; end = r.end } };
}

// Whether the service runs on a day of the week: `0` or `1`.
fn flag_of(text: &[u8]) -> Option<bool>
    ensures { result ≡ flag_of text.now }
{
    match digit_of(text) {
        Some(digit) if digit <= 1 => Some(digit == 1),
        _ => None,
    }
}

fn flag_in(cursor: &RowCursor, column: u8) -> Result<bool, RowsFault>
    requires { 1 ≤ column }
    ensures meant { Yields AreRowsRefused result (λ x. x) (flag_in cursor.now.current column) }
    ensures borne { IfErr result (IsOfRow file.Calendar cursor.now.current.row) }
{
    match flag_of(cursor.cell(column)) {
        Some(flag) => Ok(flag),
        None => Err(RowsFault::Feed(FeedFault::BadCode(spot(cursor, FeedFile::Calendar, column)))),
    }
}

// The seven days of the week of a row, from Monday on.
fn week_in(cursor: &RowCursor) -> Result<[bool; 7], RowsFault>
    ensures meant { Yields AreRowsRefused result (λ x. x) (week_in cursor.now.current) }
    ensures borne { IfErr result (IsOfRow file.Calendar cursor.now.current.row) }
{
    let monday = flag_in(cursor, calendar::MONDAY)?;
    let tuesday = flag_in(cursor, calendar::TUESDAY)?;
    let wednesday = flag_in(cursor, calendar::WEDNESDAY)?;
    let thursday = flag_in(cursor, calendar::THURSDAY)?;
    let friday = flag_in(cursor, calendar::FRIDAY)?;
    let saturday = flag_in(cursor, calendar::SATURDAY)?;
    let sunday = flag_in(cursor, calendar::SUNDAY)?;
    Ok([
        monday, tuesday, wednesday, thursday, friday, saturday, sunday,
    ])
}

/// Reads the rows of calendar.txt.
#[derive(Clone, Copy)]
pub struct CalendarReader;

impl RowReader for CalendarReader {
    type Row = CalendarRow;

    ghost file = { file.Calendar };

    ghost reading = { λ _. calendar_row };

    fn file(&self) -> FeedFile {
        FeedFile::Calendar
    }

    fn read(&self, alloc: Global, cursor: &RowCursor) -> Result<Option<CalendarRow>, RowsFault> {
        let file = FeedFile::Calendar;
        let Some(service) = id_of(cursor.cell(calendar::SERVICE_ID)) else {
            return Err(RowsFault::Feed(FeedFault::EmptyId(spot(
                cursor,
                file,
                calendar::SERVICE_ID,
            ))));
        };
        let days = week_in(cursor)?;
        let Some(start) = date_of(cursor.cell(calendar::START_DATE)) else {
            return Err(RowsFault::Feed(FeedFault::BadDate(spot(
                cursor,
                file,
                calendar::START_DATE,
            ))));
        };
        let Some(end) = date_of(cursor.cell(calendar::END_DATE)) else {
            return Err(RowsFault::Feed(FeedFault::BadDate(spot(cursor, file, calendar::END_DATE))));
        };
        Ok(Some(CalendarRow {
            row: cursor.row(),
            service: Name::new(alloc, service)?,
            days,
            start,
            end,
        }))
    }
}

/// The typed rows of calendar.txt in file order, or the file's first fault.
pub fn calendar_rows(alloc: Global, bytes: &[u8]) -> Result<Vec<CalendarRow>, RowsFault>
    requires { length bytes.now ≤ 1_073_741_824 }
    ensures { Yields AreRowsRefused result (λ v. v.items) (calendar_rows bytes.now) }
{
    typed_rows(alloc, &CalendarReader, bytes)
}
