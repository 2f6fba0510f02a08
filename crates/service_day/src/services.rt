//! The services that run on a day.
ghost use Rattle.std.specs.Prelude.{◌≡◌, ◌||◌, ◌&&◌, ℕ, List, IfOk, OnOk, bytes_eq, false, not, ◌<◌};
ghost use Rattle.std.specs.List.{list_any};
ghost use Rattle.service_day.specs.Running.{says, holds, runs};

use crate::Day;
use gtfs_rows::{CalendarRow, DateRow};
use std::alloc::Global;
use std::marker::Model;
use tb_base::{HashKey, Memory, NameIndex};

/// The services that run on a day, seen as their ids.
#[derive(Drop)]
pub struct Services {
    ids: NameIndex,
}

impl Model for Services {
    ghost Value = { List (List ℕ) };

    ghost view = { λ s. s.ids };
}

impl Services {
    /// Whether a service runs, by its `service_id`. No memory is taken.
    pub fn runs(&self, service: &[u8]) -> bool
        ensures { result ≡ list_any (bytes_eq service.now) self.now }
    {
        self.ids.contains(service)
    }
}

// The services that the date rows of a day add, or those that they remove.
fn dated(
    alloc: Global,
    key: HashKey,
    day: u32,
    dates: &[DateRow],
    added: bool,
) -> Result<NameIndex, Memory>
    ensures { IfOk result
        (λ ids. (service : List ℕ) →
        list_any (bytes_eq service) ids ≡ list_any (says day added service) dates.now) }
{
    let mut ids = NameIndex::new(alloc, key);
    for row in dates {
        if row.date == day && row.added == added {
            if ids.add(alloc, row.service.bytes()).is_err() {
                return Err(Memory);
            }
        }
    }
    Ok(ids)
}

fn holds(day: &Day, row: &CalendarRow) -> bool
    ensures { result ≡ holds day.now row.now }
{
    row.days[day.weekday() as usize] && row.start <= day.date() && day.date() <= row.end
}

// Adds a name where a test holds.
fn add_if(alloc: Global, ids: &mut NameIndex, id: &[u8], test: bool) -> Result<(), Memory>
    ensures { OnOk result ((name : List ℕ) →
        list_any (bytes_eq name) ids.new
        ≡ (list_any (bytes_eq name) ids.old || (test && bytes_eq name id.now))) }
{
    if !test {
        return Ok(());
    }
    match ids.add(alloc, id) {
        Ok(_) => Ok(()),
        Err(_) => Err(Memory),
    }
}

// Whether a calendar row holds, and its service isn't removed.
fn counts(day: &Day, row: &CalendarRow, removed: &NameIndex) -> bool
    ensures { result
        ≡ (holds day.now row.now && not (list_any (bytes_eq row.now.service) removed.now)) }
{
    holds(day, row) && !removed.contains(row.service.bytes())
}

/// The services that run on a day, by the rows of calendar.txt and calendar_dates.txt. Ids are
/// hashed by the key.
pub fn running(
    alloc: Global,
    key: HashKey,
    day: &Day,
    calendar: &[CalendarRow],
    dates: &[DateRow],
) -> Result<Services, Memory>
    ensures { IfOk result
        (λ s. (service : List ℕ) →
        list_any (bytes_eq service) s ≡ runs day.now calendar.now dates.now service) }
{
    let removed = dated(alloc, key, day.date(), dates, false)?;
    let mut ids = dated(alloc, key, day.date(), dates, true)?;
    for row in calendar {
        let service = row.service.bytes();
        let test = counts(day, row, &removed);
        let Ok(()) = add_if(alloc, &mut ids, service, test) else {
            return Err(Memory);
        };
    }
    Ok(Services { ids })
}
