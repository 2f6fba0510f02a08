//! What is left of stops.txt where bad rows are left out.
ghost use Rattle.std.specs.Prelude.{◌≡◌, ◌≢◌, ◌≤◌, ◌<◌, ◌++◌, [], All, IfOk, IfSome, List, Ok, OnOk, bytes_eq, filter, length, map, option_map, slice_index_or, ℕ};
ghost use Rattle.std.specs.List.{list_any};
ghost use Rattle.footpaths.specs.Stops.{check_stops, has_stop_id, lacks_parent, stop_id};
ghost use Rattle.gtfs_rows.specs.Faults.{check_rows};
ghost use Rattle.gtfs_rows.specs.Refused.{AreRowsRefused, Yields};
ghost use Rattle.gtfs_rows.specs.StopsFile.{StopData};
ghost use Rattle.trip_table.specs.LeftFeed.{duplicate_stop, leave_orphans, left_stops, orphan_fault};
ghost use Rattle.trip_table.specs.References.{wrong_twice};
ghost use Rattle.trip_table.specs.Turns.{is_there, turn_of};
ghost use Rattle.trip_table.specs.Sieves.{Sieves, after, ended};

use crate::distinct::{distinct_ids, without_twins};
use crate::feed::spot;
use crate::sieve::sieve_file;
use crate::turns::turns_of;
use footpaths::{StopTable, StopsFault};
use gtfs_rows::columns::stops;
use gtfs_rows::{FeedFault, FeedFile, RowsFault, StopReader, StopRow};
use std::alloc::Global;
use tb_base::{Groups, HashKey, Memory, NameIndex};

/// The ids of rows.
pub fn known_ids(alloc: Global, key: HashKey, rows: &[StopRow]) -> Result<NameIndex, Memory>
    ensures known { IfOk result
        (λ ids. (id : List ℕ) → list_any (bytes_eq id) ids ≡ list_any (has_stop_id id) rows.now) }
    ensures few { IfOk result (λ ids. length ids ≤ length rows.now) }
{
    let mut ids = NameIndex::new(alloc, key);
    for row in rows {
        ids.add(alloc, row.id.bytes())?;
    }
    Ok(ids)
}

// Whether a row names a parent that no row has.
fn lacks_parent(row: &StopRow, known: &NameIndex) -> bool
    ensures { (rows : List StopData) →
        ((id : List ℕ) → list_any (bytes_eq id) known.now ≡ list_any (has_stop_id id) rows) →
        result ≡ lacks_parent rows row.now }
{
    let parent = row.parent.bytes();
    !parent.is_empty() && !known.contains(parent)
}

fn orphan_fault(row: &StopRow) -> FeedFault
    ensures { result ≡ orphan_fault row.now }
{
    FeedFault::UnknownStop(spot(FeedFile::Stops, row.row, stops::PARENT_STATION))
}

// Whether a row lacks its parent.
fn lacks_any(rows: &[StopRow], known: &NameIndex) -> bool
    requires { (id : List ℕ) →
        list_any (bytes_eq id) known.now ≡ list_any (has_stop_id id) rows.now }
    ensures { result ≡ list_any (lacks_parent rows.now) rows.now }
{
    for row in rows {
        if lacks_parent(row, known) {
            return true;
        }
    }
    false
}

// Tells that the rows at some places lack their parents.
fn tell_orphans(rows: &[StopRow], places: &[u32], told: &mut Vec<FeedFault>) -> Result<(), Memory>
    requires { All (λ place. place < length rows.now) places.now }
    ensures { (other : StopData) →
        OnOk result (told.new.items
        ≡ told.old.items
        ++ map (λ place. orphan_fault (slice_index_or rows.now place other)) places.now) }
{
    for place in places {
        told.push(orphan_fault(&rows[*place as usize]))?;
    }
    Ok(())
}

// Tells which rows lack their parents, turn by turn, and answers the first turn in which none does.
fn tell_turns(
    alloc: Global,
    rows: &[StopRow],
    turns: &[u32],
    told: &mut Vec<FeedFault>,
) -> Result<u32, Memory>
    requires apart { check_rows (λ _. wrong_twice stop_id duplicate_stop) rows.now ≡ Ok rows.now }
    requires few { length rows.now ≤ 100000 }
    requires turns { turns.now ≡ map (turn_of rows.now) rows.now }
    ensures { IfOk result (λ turn.
        after told.old.items (leave_orphans (length rows.now) rows.now)
        ≡ ended told.new.items (Ok (filter (is_there rows.now turn) rows.now))) }
{
    let groups = Groups::by_key(alloc, turns, rows.len() + 1)?;
    for turn in 0..rows.len() {
        let places = groups.of(turn);
        if places.is_empty() {
            return Ok(turn as u32);
        }
        tell_orphans(rows, places, told)?;
    }
    Ok(rows.len() as u32)
}

// The rows that are there in a turn.
fn rows_there(
    alloc: Global,
    rows: Vec<StopRow>,
    turns: &[u32],
    turn: u32,
) -> Result<Vec<StopRow>, Memory>
    requires { turns.now ≡ map (turn_of rows.items) rows.items }
    ensures { IfOk result (λ kept. kept.items ≡ filter (is_there rows.items turn) rows.items) }
{
    let mut kept: Vec<StopRow> = Vec::new(alloc);
    let mut place = 0;
    for row in rows {
        if turn <= turns[place] {
            kept.push(row)?;
        }
        place += 1;
    }
    Ok(kept)
}

// The ids of rows of which none has that of another.
fn ids_of(alloc: Global, key: HashKey, rows: &[StopRow]) -> Result<NameIndex, Memory>
    requires { check_rows (λ _. wrong_twice stop_id duplicate_stop) rows.now ≡ Ok rows.now }
    ensures { IfOk result (λ ids. ids ≡ map stop_id rows.now) }
{
    match distinct_ids(alloc, key, rows) {
        Ok(ids) => Ok(ids),
        Err(RowsFault::Feed(_)) => unreachable!(),
        Err(RowsFault::Memory) => Err(Memory),
    }
}

// Rows without those that lack their parent, which are told, until none does.
fn without_orphans(
    alloc: Global,
    key: HashKey,
    rows: Vec<StopRow>,
    told: &mut Vec<FeedFault>,
) -> Result<Vec<StopRow>, Memory>
    requires apart { check_rows (λ _. wrong_twice stop_id duplicate_stop) rows.items
        ≡ Ok rows.items }
    requires few { length rows.items ≤ 100000 }
    ensures kept { IfOk result (λ kept.
        after told.old.items (leave_orphans (length rows.items) rows.items)
        ≡ ended told.new.items (Ok kept.items)) }
    ensures few { IfOk result (λ kept. length kept.items ≤ length rows.items) }
{
    let known = ids_of(alloc, key, rows.as_slice())?;
    if !lacks_any(rows.as_slice(), &known) {
        return Ok(rows);
    }
    let turns = turns_of(alloc, &known, rows.as_slice())?;
    let turn = tell_turns(alloc, rows.as_slice(), turns.as_slice(), told)?;
    rows_there(alloc, rows, turns.as_slice(), turn)
}

// The table of rows, or the first thing that is wrong with them.
fn table_of(alloc: Global, key: HashKey, rows: &[StopRow]) -> Result<StopTable, RowsFault>
    requires { length rows.now ≤ 100000 }
    ensures { Yields AreRowsRefused result (λ x. x) (check_stops rows.now) }
{
    match StopTable::new(alloc, key, rows) {
        Ok(table) => Ok(table),
        Err(StopsFault::DuplicateId(row)) => Err(RowsFault::Feed(FeedFault::DuplicateId(spot(
            FeedFile::Stops,
            row,
            stops::STOP_ID,
        )))),
        Err(StopsFault::UnknownStop(row)) => Err(RowsFault::Feed(FeedFault::UnknownStop(spot(
            FeedFile::Stops,
            row,
            stops::PARENT_STATION,
        )))),
        Err(StopsFault::Memory) => Err(RowsFault::Memory),
    }
}

/// The rows of stops.txt, without bad rows, those with the id of an earlier one and those that lack
/// their parent, which are told.
pub fn left_stops(
    alloc: Global,
    key: HashKey,
    text: Option<&[u8]>,
    told: &mut Vec<FeedFault>,
) -> Result<StopTable, RowsFault>
    requires { IfSome text (λ bytes. length bytes.now ≤ 1_073_741_824) }
    ensures left { Sieves (left_stops (option_map (λ bytes. bytes.now) text.entry)) told.old.items
        told.new.items result (λ x. x) }
    ensures named { IfOk result (λ stops. All (λ s. StopData.id s ≢ []) stops) }
{
    let rows = match sieve_file(alloc, &StopReader, text, told) {
        Ok(Some(rows)) => rows,
        Ok(None) => return Err(RowsFault::Feed(FeedFault::MissingFile(FeedFile::Stops))),
        Err(fault) => return Err(fault),
    };
    let distinct = without_twins(alloc, key, rows, told)?;
    let kept = without_orphans(alloc, key, distinct, told)?;
    table_of(alloc, key, kept.as_slice())
}
