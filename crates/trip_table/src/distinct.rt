//! Rows whose ids differ.
ghost use Rattle.std.specs.Prelude.{◌≡◌, ◌≤◌, [], ℕ, List, Ok, IfOk, MatchResult, length, map};
ghost use Rattle.footpaths.specs.Stops.{stop_id};
ghost use Rattle.trip_table.specs.LeftFeed.{duplicate_stop, sift};
ghost use Rattle.trip_table.specs.Sieves.{after, ended};
ghost use Rattle.gtfs_rows.specs.Faults.{check_rows};
ghost use Rattle.gtfs_rows.specs.Refused.{AreRowsRefused};
ghost use Rattle.gtfs_rows.specs.declared.fault.FeedFault.{FeedFault};
ghost use Rattle.trip_table.specs.References.{service_id, duplicate_service, trip_id, duplicate_trip, wrong_twice};

use crate::feed::spot;
use gtfs_rows::columns::{calendar, stops, trips};
use gtfs_rows::{CalendarRow, FeedFault, FeedFile, RowsFault, StopRow, TripRow};
use std::alloc::Global;
use tb_base::{HashKey, Memory, NameIndex};

/// A row with an id that no other row of its file may have.
pub trait Identified {
    ghost id: { Self → List ℕ };

    ghost duplicate: { Self → FeedFault };

    /// Its id.
    fn id(&self) -> &[u8]
        ensures { result.now ≡ id self.now };

    /// What is wrong with it where an earlier row has its id.
    fn duplicate(&self) -> FeedFault
        ensures { result ≡ duplicate self.now };
}

impl Identified for CalendarRow {
    ghost id = { service_id };

    ghost duplicate = { duplicate_service };

    fn id(&self) -> &[u8] {
        self.service.bytes()
    }

    fn duplicate(&self) -> FeedFault {
        FeedFault::DuplicateId(spot(FeedFile::Calendar, self.row, calendar::SERVICE_ID))
    }
}

impl Identified for TripRow {
    ghost id = { trip_id };

    ghost duplicate = { duplicate_trip };

    fn id(&self) -> &[u8] {
        self.id.bytes()
    }

    fn duplicate(&self) -> FeedFault {
        FeedFault::DuplicateId(spot(FeedFile::Trips, self.row, trips::TRIP_ID))
    }
}

impl Identified for StopRow {
    ghost id = { stop_id };

    ghost duplicate = { duplicate_stop };

    fn id(&self) -> &[u8] {
        self.id.bytes()
    }

    fn duplicate(&self) -> FeedFault {
        FeedFault::DuplicateId(spot(FeedFile::Stops, self.row, stops::STOP_ID))
    }
}

/// The ids of rows, which all differ, hashed by the key; or what is wrong with the first row that
/// has the id of an earlier one.
pub fn distinct_ids<R: Identified>(
    alloc: Global,
    key: HashKey,
    rows: &[R],
) -> Result<NameIndex, RowsFault>
    ensures { MatchResult result
        (λ ids. (check_rows (λ _. wrong_twice R.id R.duplicate) rows.now ≡ Ok rows.now)
        × (ids ≡ map R.id rows.now))
        (AreRowsRefused (check_rows (λ _. wrong_twice R.id R.duplicate) rows.now)) }
{
    let mut ids = NameIndex::new(alloc, key);
    for row in rows {
        match ids.add(alloc, row.id()) {
            Ok(true) => {}
            Ok(false) => return Err(RowsFault::Feed(row.duplicate())),
            Err(_) => return Err(RowsFault::Memory),
        }
    }
    Ok(ids)
}

/// Rows without those that have the id of an earlier one, which are told. Ids are hashed by the key.
pub fn without_twins<R: Identified + Drop>(
    alloc: Global,
    key: HashKey,
    rows: Vec<R>,
    told: &mut Vec<FeedFault>,
) -> Result<Vec<R>, Memory>
    ensures kept { IfOk result (λ kept.
        after told.old.items (sift (wrong_twice R.id R.duplicate) [] rows.items)
        ≡ ended told.new.items (Ok kept.items)) }
    ensures few { IfOk result (λ kept. length kept.items ≤ length rows.items) }
{
    let mut ids = NameIndex::new(alloc, key);
    let mut kept: Vec<R> = Vec::new(alloc);
    for row in rows {
        match ids.add(alloc, row.id()) {
            Ok(true) => kept.push(row)?,
            Ok(false) => told.push(row.duplicate())?,
            Err(_) => return Err(Memory),
        }
    }
    Ok(kept)
}
