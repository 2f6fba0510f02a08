//! The rows of calendar.txt and calendar_dates.txt.
ghost use Rattle.std.specs.Prelude.{◌≡◌, ◌<◌, ◌-◌, ◌^◌, Ok, Err, MatchResult, IsSome, option_map, unwrap_or, []};
ghost use Rattle.gtfs_rows.specs.Refused.{Yields};
ghost use Rattle.gtfs_rows.specs.Faults.{check_rows};
ghost use Rattle.gtfs_rows.specs.Refused as rows;
ghost use Rattle.trip_table.specs.Answers.{IsDayRefused, Leaves, feed_of};
ghost use Rattle.trip_table.specs.References.{wrong_calendar, calendar_of, check_services, services_of};

use crate::DayFault;
use crate::distinct::distinct_ids;
use crate::feed::file_rows;
use gtfs_rows::{CalendarReader, CalendarRow, DateReader, DateRow, FeedFault, FeedFile, RowsFault};
use std::alloc::Global;
use std::marker::Model;
use tb_base::HashKey;
use tb_io::Folder;

/// The rows that say which services run.
#[derive(Drop)]
pub struct ServiceRows {
    pub calendar: Vec<CalendarRow>,
    pub dates: Vec<DateRow>,
}

impl Model for ServiceRows {
    ghost use Rattle.trip_table.specs.References.{ServiceData};

    ghost Value = { ServiceData };

    ghost view = { λ s. record { calendar = s.calendar.items; dates = s.dates.items } };
}

// Refuses the first row of calendar.txt whose service has an earlier row.
fn check_calendar(
    alloc: Global,
    key: HashKey,
    calendar: &Option<Vec<CalendarRow>>,
) -> Result<(), RowsFault>
    ensures { Yields rows.AreRowsRefused result
        (λ _. unwrap_or (option_map (λ v. v.items) calendar.now) [])
        (check_rows wrong_calendar (unwrap_or (option_map (λ v. v.items) calendar.now) [])) }
{
    let Some(rows) = calendar else {
        return Ok(());
    };
    match distinct_ids(alloc, key, rows.as_slice()) {
        Ok(_) => Ok(()),
        Err(fault) => Err(fault),
    }
}

// The rows of calendar.txt, where it is there.
fn read_calendar<F: Folder>(
    alloc: Global,
    folder: &mut F,
    dir: &str,
) -> Result<Option<Vec<CalendarRow>>, DayFault>
    requires { F.faults folder.old < 2 ^ 64 - 1 }
    ensures told { IsSome (F.files folder.old) →
        Yields IsDayRefused result (option_map (λ v. v.items))
        (calendar_of (feed_of (F.files folder.old) dir.now)) }
    ensures leaves { Leaves (F.files folder.old) (F.files folder.new) (F.faults folder.old)
        (F.faults folder.new) result }
{
    let calendar = match file_rows(alloc, folder, dir, &CalendarReader) {
        Ok(rows) => rows,
        Err(fault) => return Err(fault),
    };
    check_calendar(alloc, folder.key(), &calendar)?;
    Ok(calendar)
}

/// The rows of both files, of which one has to be there.
pub fn services(
    alloc: Global,
    calendar: Option<Vec<CalendarRow>>,
    dates: Option<Vec<DateRow>>,
) -> Result<ServiceRows, FeedFault>
    ensures { MatchResult result
        (λ services. check_services (option_map (λ v. v.items) calendar)
        (option_map (λ v. v.items) dates) ≡ Ok services)
        (λ f. check_services (option_map (λ v. v.items) calendar)
        (option_map (λ v. v.items) dates) ≡ Err f) }
{
    match (calendar, dates) {
        (None, None) => Err(FeedFault::MissingFile(FeedFile::Calendar)),
        (None, Some(dates)) => Ok(ServiceRows {
            calendar: Vec::new(alloc),
            dates,
        }),
        (Some(calendar), None) => Ok(ServiceRows {
            calendar,
            dates: Vec::new(alloc),
        }),
        (Some(calendar), Some(dates)) => Ok(ServiceRows { calendar, dates }),
    }
}

/// The rows of calendar.txt and calendar_dates.txt. One of the two files has to be there.
pub fn read_services<F: Folder>(
    alloc: Global,
    folder: &mut F,
    dir: &str,
) -> Result<ServiceRows, DayFault>
    requires { F.faults folder.old < 2 ^ 64 - 1 }
    ensures told { IsSome (F.files folder.old) →
        Yields IsDayRefused result (λ x. x) (services_of (feed_of (F.files folder.old) dir.now)) }
    ensures leaves { Leaves (F.files folder.old) (F.files folder.new) (F.faults folder.old)
        (F.faults folder.new) result }
{
    let calendar = match read_calendar(alloc, folder, dir) {
        Ok(rows) => rows,
        Err(fault) => return Err(fault),
    };
    let dates = match file_rows(alloc, folder, dir, &DateReader) {
        Ok(rows) => rows,
        Err(fault) => return Err(fault),
    };
    match services(alloc, calendar, dates) {
        Ok(services) => Ok(services),
        Err(fault) => Err(DayFault::Feed(fault)),
    }
}
