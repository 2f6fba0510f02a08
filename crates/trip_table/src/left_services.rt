//! What is left of calendar.txt and calendar_dates.txt where bad rows are left out.
ghost use Rattle.std.specs.Prelude.{◌≡◌, ◌≤◌, IfOk, IfSome, Ok, length, option_map};
ghost use Rattle.trip_table.specs.LeftFeed.{left_services, sift_found};
ghost use Rattle.trip_table.specs.References.{duplicate_service, service_id, wrong_twice};
ghost use Rattle.trip_table.specs.Sieves.{Sieves, after, ended};

use crate::distinct::without_twins;
use crate::services::{ServiceRows, services};
use crate::sieve::sieve_file;
use gtfs_rows::{CalendarReader, CalendarRow, DateReader, FeedFault, RowsFault};
use std::alloc::Global;
use tb_base::{HashKey, Memory};

// The rows of calendar.txt, where it is there, without those of a service that has an earlier one.
fn without_twins_found(
    alloc: Global,
    key: HashKey,
    found: Option<Vec<CalendarRow>>,
    told: &mut Vec<FeedFault>,
) -> Result<Option<Vec<CalendarRow>>, Memory>
    ensures { IfOk result (λ kept.
        after told.old.items
        (sift_found (wrong_twice service_id duplicate_service)
        (option_map (λ v. v.items) found))
        ≡ ended told.new.items (Ok (option_map (λ v. v.items) kept))) }
{
    let Some(rows) = found else {
        return Ok(None);
    };
    let kept = without_twins(alloc, key, rows, told)?;
    Ok(Some(kept))
}

/// The rows of calendar.txt and calendar_dates.txt, of which one has to be there, without bad rows
/// and those of calendar.txt of a service that has an earlier one, which are told.
pub fn left_services(
    alloc: Global,
    key: HashKey,
    calendar: Option<&[u8]>,
    dates: Option<&[u8]>,
    told: &mut Vec<FeedFault>,
) -> Result<ServiceRows, RowsFault>
    requires calendar { IfSome calendar (λ bytes. length bytes.now ≤ 1_073_741_824) }
    requires dates { IfSome dates (λ bytes. length bytes.now ≤ 1_073_741_824) }
    ensures { Sieves
        (left_services (option_map (λ bytes. bytes.now) calendar.entry)
        (option_map (λ bytes. bytes.now) dates.entry))
        told.old.items told.new.items result (λ x. x) }
{
    let found = match sieve_file(alloc, &CalendarReader, calendar, told) {
        Ok(found) => found,
        Err(fault) => return Err(fault),
    };
    let rows = without_twins_found(alloc, key, found, told)?;
    let days = match sieve_file(alloc, &DateReader, dates, told) {
        Ok(days) => days,
        Err(fault) => return Err(fault),
    };
    match services(alloc, rows, days) {
        Ok(services) => Ok(services),
        Err(fault) => Err(RowsFault::Feed(fault)),
    }
}
