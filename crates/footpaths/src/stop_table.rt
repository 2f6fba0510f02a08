//! The rows of stops.txt, with their numbers and a look-up by id.
ghost use Rattle.std.specs.Prelude.{◌≡◌, ◌<◌, ◌≤◌, ℕ, List, Ok, IfOk, MatchResult, length, map, position, bytes_eq, is_some, IfSome};
ghost use Rattle.std.specs.List.{list_any};
ghost use Rattle.gtfs_rows.specs.StopsFile.{StopData, is_platform, is_station};
ghost use Rattle.footpaths.specs.Stops.{stop_id, has_stop_id, lacks_parent, platforms, stations, parent_station, check_stops, IsStopsRefused};

use crate::{Found, StopsFault};
use gtfs_rows::StopRow;
use std::alloc::Global;
use std::marker::Model;
use tb_base::{HashKey, Memory, Name, NameIndex, StopNo};

// The ids of all rows, where an id that stands twice counts once.
fn known_ids(alloc: Global, key: HashKey, rows: &[StopRow]) -> Result<NameIndex, Memory>
    ensures { IfOk result
        (λ ids. (id : List ℕ) → list_any (bytes_eq id) ids ≡ list_any (has_stop_id id) rows.now) }
{
    let mut ids = NameIndex::new(alloc, key);
    for row in rows {
        ids.add(alloc, row.id.bytes())?;
    }
    Ok(ids)
}

// Whether a row names a parent that no row has.
fn lacks_parent(row: &StopRow, known: &NameIndex) -> bool
    ensures { (stops : List StopData) →
        ((id : List ℕ) → list_any (bytes_eq id) known.now ≡ list_any (has_stop_id id) stops) →
        result ≡ lacks_parent stops row.now }
{
    let parent = row.parent.bytes();
    !parent.is_empty() && !known.contains(parent)
}

// The ids of all rows, which differ, where nothing is wrong with the rows.
fn checked_ids(alloc: Global, rows: &[StopRow], known: &NameIndex) -> Result<NameIndex, StopsFault>
    requires { (id : List ℕ) →
        list_any (bytes_eq id) known.now ≡ list_any (has_stop_id id) rows.now }
    ensures { MatchResult result
        (λ ids. (check_stops rows.now ≡ Ok rows.now) × (ids ≡ map stop_id rows.now))
        (IsStopsRefused (check_stops rows.now)) }
{
    let mut ids = NameIndex::new(alloc, known.key());
    for row in rows {
        match ids.add(alloc, row.id.bytes()) {
            Ok(true) => {}
            Ok(false) => return Err(StopsFault::DuplicateId(row.row)),
            Err(_) => return Err(StopsFault::Memory),
        }
        if lacks_parent(row, known) {
            return Err(StopsFault::UnknownStop(row.row));
        }
    }
    Ok(ids)
}

// The ids of the platforms, in file order.
fn platform_ids(alloc: Global, key: HashKey, rows: &[StopRow]) -> Result<NameIndex, Memory>
    requires { check_stops rows.now ≡ Ok rows.now }
    ensures { IfOk result (λ ids. ids ≡ map stop_id (platforms rows.now)) }
{
    let mut ids = NameIndex::new(alloc, key);
    for row in rows {
        if row.kind.is_platform() {
            ids.add(alloc, row.id.bytes())?;
        }
    }
    Ok(ids)
}

// The ids of the stations, in file order.
fn station_ids(alloc: Global, key: HashKey, rows: &[StopRow]) -> Result<NameIndex, Memory>
    requires { check_stops rows.now ≡ Ok rows.now }
    ensures { IfOk result (λ ids. ids ≡ map stop_id (stations rows.now)) }
{
    let mut ids = NameIndex::new(alloc, key);
    for row in rows {
        if row.kind.is_station() {
            ids.add(alloc, row.id.bytes())?;
        }
    }
    Ok(ids)
}

// The place of an id, where it is there.
fn place_of(ids: &NameIndex, id: &[u8]) -> Option<u32>
    requires { length ids.now ≤ 100000 }
    ensures { result ≡ position (bytes_eq id.now) ids.now }
{
    match ids.find(id) {
        Some(place) => Some(place as u32),
        None => None,
    }
}

// The same, where one place is looked at first.
fn place_near(ids: &NameIndex, guess: StopNo, id: &[u8]) -> Option<u32>
    requires { length ids.now ≤ 100000 }
    ensures { result ≡ position (bytes_eq id.now) ids.now }
{
    match ids.find_near(guess.0 as usize, id) {
        Some(place) => Some(place as u32),
        None => None,
    }
}

// The station of each platform.
fn parents_of(
    alloc: Global,
    rows: &[StopRow],
    station_ids: &NameIndex,
) -> Result<Vec<Option<u32>>, Memory>
    requires few { length rows.now ≤ 100000 }
    requires ids { station_ids.now ≡ map stop_id (stations rows.now) }
    ensures { IfOk result (λ v. v.items ≡ map (parent_station rows.now) (platforms rows.now)) }
{
    let mut parents = Vec::new(alloc);
    for row in rows {
        if row.kind.is_platform() {
            parents.push(place_of(station_ids, row.parent.bytes()))?;
        }
    }
    Ok(parents)
}

fn copy_of(alloc: Global, row: &StopRow) -> Result<StopRow, Memory>
    ensures { IfOk result (λ copy. copy ≡ row.now) }
{
    let id = Name::new(alloc, row.id.bytes())?;
    let parent = Name::new(alloc, row.parent.bytes())?;
    Ok(StopRow {
        row: row.row,
        id,
        kind: row.kind,
        parent,
    })
}

fn copies_of(alloc: Global, rows: &[StopRow]) -> Result<Vec<StopRow>, Memory>
    ensures { IfOk result (λ v. v.items ≡ rows.now) }
{
    let mut copies = Vec::with_capacity(alloc, rows.len())?;
    for row in rows {
        copies.push(copy_of(alloc, row)?)?;
    }
    Ok(copies)
}

/// The rows of stops.txt, with the numbers of platforms and stations and a look-up by id.
/// Contracts see it as the list of the rows.
#[derive(Drop)]
pub struct StopTable {
    rows: Vec<StopRow>,
    ids: NameIndex,
    platforms: NameIndex,
    stations: NameIndex,
    parents: Vec<Option<u32>>,
}

impl Model for StopTable {
    ghost use Rattle.std.specs.Prelude.{List};
    ghost use Rattle.gtfs_rows.specs.StopsFile.{StopData};
    ghost use Rattle.footpaths.specs.Stops.{IsIndexed};

    ghost Value = { List StopData };

    ghost view = { λ t. t.rows.items };

    ghost invariant = { λ t. IsIndexed t.rows.items t.ids t.platforms t.stations t.parents.items };
}

impl StopTable {
    ghost use Rattle.footpaths.specs.Stops.{find_stop, station_of};

    /// The table of these rows. Refused exactly where a row has the id of an earlier row, or names
    /// a parent that no row has: the first such row, and its first such fault. Ids are hashed by
    /// the key.
    pub fn new(alloc: Global, key: HashKey, rows: &[StopRow]) -> Result<StopTable, StopsFault>
        requires { length rows.now ≤ 100000 }
        ensures { MatchResult result
            (λ table. (table ≡ rows.now) × (check_stops rows.now ≡ Ok rows.now))
            (IsStopsRefused (check_stops rows.now)) }
    {
        let known = known_ids(alloc, key, rows)?;
        let checked = checked_ids(alloc, rows, &known);
        drop(known);
        let table = StopTable::with_ids(alloc, rows, checked?)?;
        Ok(table)
    }

    // The table of rows with which nothing is wrong.
    fn with_ids(alloc: Global, rows: &[StopRow], ids: NameIndex) -> Result<StopTable, Memory>
        requires few { length rows.now ≤ 100000 }
        requires checked { check_stops rows.now ≡ Ok rows.now }
        requires ids { ids ≡ map stop_id rows.now }
        ensures { IfOk result (λ table. table ≡ rows.now) }
    {
        let Ok(platforms) = platform_ids(alloc, ids.key(), rows) else {
            drop(ids);
            return Err(Memory);
        };
        let Ok(stations) = station_ids(alloc, ids.key(), rows) else {
            drop(platforms);
            drop(ids);
            return Err(Memory);
        };
        let Ok(parents) = parents_of(alloc, rows, &stations) else {
            drop(stations);
            drop(platforms);
            drop(ids);
            return Err(Memory);
        };
        let Ok(rows) = copies_of(alloc, rows) else {
            drop(parents);
            drop(stations);
            drop(platforms);
            drop(ids);
            return Err(Memory);
        };
        Ok(StopTable {
            rows,
            ids,
            platforms,
            stations,
            parents,
        })
    }

    /// What every table keeps: there are at most 100,000 rows, and nothing is wrong with them.
    pub fn soundness(&self)
        ensures few { length self.now ≤ 100000 }
        ensures checked { check_stops self.now ≡ Ok self.now }
    {
        let _rows = &self.rows;
    }

    /// The key by which ids are hashed.
    pub fn key(&self) -> HashKey {
        self.ids.key()
    }

    /// The rows, in file order.
    pub fn rows(&self) -> &[StopRow]
        ensures { result.now ≡ self.now }
    {
        self.rows.as_slice()
    }

    /// How many rows there are.
    pub fn row_count(&self) -> u32
        ensures { result ≡ length self.now }
    {
        self.rows.len() as u32
    }

    // The place of the row with an id, where there is one.
    pub(crate) fn place(&self, id: &[u8]) -> Option<u32>
        ensures place { result ≡ position (has_stop_id id.now) self.now }
        ensures there { is_some result ≡ list_any (has_stop_id id.now) self.now }
        ensures few { IfSome result (λ place. place < 100000) }
    {
        place_of(&self.ids, id)
    }

    /// How many platforms there are.
    pub fn platforms(&self) -> u32
        ensures { result ≡ length (platforms self.now) }
    {
        self.parents.len() as u32
    }

    /// What has an id; None exactly where no row has it.
    pub fn find(&self, id: &[u8]) -> Option<Found>
        ensures { result ≡ find_stop self.now id.now }
    {
        self.find_near(StopNo(0), id)
    }

    /// The same, where one platform is looked at first: quicker where it has the id.
    pub fn find_near(&self, guess: StopNo, id: &[u8]) -> Option<Found>
        ensures { result ≡ find_stop self.now id.now }
    {
        if let Some(place) = place_near(&self.platforms, guess, id) {
            return Some(Found::Platform(StopNo(place)));
        }
        if let Some(place) = place_of(&self.stations, id) {
            return Some(Found::Station(place));
        }
        if self.ids.contains(id) {
            return Some(Found::Other);
        }
        None
    }

    /// The number of a platform's station, where its parent is a station.
    pub fn station_of(&self, stop: StopNo) -> Option<u32>
        requires { stop < length (platforms self.now) }
        ensures { result ≡ station_of self.now stop }
    {
        self.parents[stop.index()]
    }
}
