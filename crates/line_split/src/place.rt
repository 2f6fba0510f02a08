//! Trips are placed on lines, one after another.
ghost use Rattle.std.specs.Prelude.{◌≡◌, ◌<◌, ◌≤◌, ◌+◌, ◌/◌, ◌%◌, ◌++◌, ◌∷◌, ℕ, false, [], IfOk, OnOk, All, fold, length, replicate, slice_index_or, slice_set};
ghost use Rattle.std.specs.Int.{bit_at};
ghost use Rattle.tb_base.specs.TimetableData.{events_of};
ghost use Rattle.tb_base.specs.Lines.{last_trip, may_follow, place_trip};
ghost use Rattle.line_split.specs.Patterns.{AreNumbered};
ghost use Rattle.line_split.specs.Buckets.{AreBucketed, IsFirstPlace, IsFirstWithin, may_join_line};
ghost use Rattle.line_split.specs.Floors.{AreFloors, AreFloorsOf};

use super::bitmaps::WORD;
use super::events::{events_of, last_trip, may_follow};
use super::floors::{Floors, lack_bitmaps, map_at, mark_at, no_floors, note_in};
use super::nested::Nested;
use std::alloc::Global;
use tb_base::{Memory, Timetable, TripNo};

/// The lines: each trip in turn joins the first line that it may follow the last trip of, else it
/// opens a new one. For each trip of the timetable there is a number of its pattern, below a count.
pub(crate) fn place_trips(
    alloc: Global,
    table: &Timetable,
    numbers: &[usize],
    count: usize,
    order: &[TripNo],
) -> Result<Nested<TripNo>, Memory>
    requires order { All (λ t. t < length table.now.trips) order.now }
    requires numbered { AreNumbered table.now numbers.now count }
    ensures { IfOk result (λ lines. lines ≡ fold (place_trip table.now) [] order.now) }
{
    let mut lines = Nested::new(alloc);
    let mut buckets = Nested::with_rows(alloc, count)?;
    let mut floors = no_floors(alloc, count)?;
    for trip in order {
        place(
            alloc,
            table,
            numbers,
            &mut lines,
            &mut buckets,
            floors.as_mut_slice(),
            *trip,
        )?;
    }
    Ok(lines)
}

// Places one trip. The buckets hold the numbers of the lines, by the number of their pattern; the
// floors of their blocks are made of the trips that opened them.
fn place(
    alloc: Global,
    table: &Timetable,
    numbers: &[usize],
    lines: &mut Nested<TripNo>,
    buckets: &mut Nested<usize>,
    floors: &mut [Floors],
    trip: TripNo,
) -> Result<(), Memory>
    requires trip { trip < length table.now.trips }
    requires numbered { AreNumbered table.now numbers.now (length buckets.old) }
    requires bucketed { AreBucketed table.now numbers.now lines.old buckets.old }
    requires floors { AreFloors table.now lines.old buckets.old floors.old }
    ensures placed { OnOk result (lines.new ≡ place_trip table.now lines.old trip) }
    ensures room { OnOk result (length buckets.new ≡ length buckets.old) }
    ensures bucketed { OnOk result (AreBucketed table.now numbers.now lines.new buckets.new) }
    ensures floors { OnOk result (AreFloors table.now lines.new buckets.new floors.new) }
{
    let bucket = numbers[trip.index()];
    map_lines(alloc, table, numbers, lines, buckets, floors, bucket)?;
    match first_line(
        alloc,
        table,
        lines,
        buckets.row(bucket),
        &floors[bucket],
        trip,
    )? {
        Some(place) => {
            let line = buckets.row(bucket)[place];
            mark_at(floors, bucket, place, events_of(table, trip));
            lines.add(line, trip)
        }
        None => {
            let count = buckets.row(bucket).len();
            note_in(alloc, floors, bucket, count, events_of(table, trip))?;
            buckets.add(bucket, lines.len())?;
            lines.open_with(alloc, trip)
        }
    }
}

// Makes bitmaps of a bucket's lines, as soon as they are many.
fn map_lines(
    alloc: Global,
    table: &Timetable,
    numbers: &[usize],
    lines: &Nested<TripNo>,
    buckets: &Nested<usize>,
    floors: &mut [Floors],
    bucket: usize,
) -> Result<(), Memory>
    requires bucket { bucket < length buckets.now }
    requires numbers { length numbers.now ≡ length table.now.trips }
    requires known { All (λ l. l < length lines.now) (slice_index_or buckets.now bucket []) }
    requires floors { AreFloors table.now lines.now buckets.now floors.old }
    ensures { OnOk result (AreFloors table.now lines.now buckets.now floors.new) }
{
    let among = buckets.row(bucket);
    if !lack_bitmaps(floors, bucket, among.len()) {
        return Ok(());
    }
    let trips = trips_of(alloc, table, numbers, bucket)?;
    map_at(alloc, table, lines, floors, bucket, among, trips.as_slice())
}

// The trips of a bucket.
fn trips_of(
    alloc: Global,
    table: &Timetable,
    numbers: &[usize],
    bucket: usize,
) -> Result<Vec<TripNo>, Memory>
    requires { length numbers.now ≡ length table.now.trips }
{
    let mut trips = Vec::new(alloc);
    for trip in 0..table.trip_count() {
        if numbers[trip as usize] == bucket {
            trips.push(TripNo(trip))?;
        }
    }
    Ok(trips)
}

// The place of the first of these lines that a trip may join. Blocks of lines are passed over that
// are later than the trip at some event by a floor or by bitmaps.
fn first_line(
    alloc: Global,
    table: &Timetable,
    lines: &Nested<TripNo>,
    among: &[usize],
    floors: &Floors,
    trip: TripNo,
) -> Result<Option<usize>, Memory>
    requires lines { All (λ l. l < length lines.now) among.now }
    requires floors { AreFloorsOf table.now lines.now among.now floors.now }
    ensures { IfOk result (λ found. IsFirstPlace (λ l.
        may_follow (events_of table.now (last_trip (slice_index_or lines.now l [])))
        (events_of table.now trip)) among.now found) }
{
    let events = events_of(table, trip);
    let picked = floors.picked_for(alloc, events)?;
    let mut place = 0;
    while place < among.len() {
        let later = floors.later_from(place, among.len() - place, events, picked.as_slice());
        if later > 0 {
            place += later;
            continue;
        }
        let out = floors.out_at(place, picked.as_slice());
        let found = first_of_word(table, lines, among, out, place, trip);
        if found.is_some() {
            return Ok(found);
        }
        place += WORD;
    }
    Ok(None)
}

// The place of the first of the lines of one word that a trip may join, where those whose bit is 1
// are out.
fn first_of_word(
    table: &Timetable,
    lines: &Nested<TripNo>,
    among: &[usize],
    out: u64,
    from: usize,
    trip: TripNo,
) -> Option<usize>
    requires lines { All (λ l. l < length lines.now) among.now }
    requires from { (from % 64 ≡ 0) × (from < length among.now) }
    requires out { (k : ℕ) → k < length among.now → k / 64 ≡ from / 64 →
        bit_at out (k % 64) ≡ 1 →
        may_join_line table.now lines.now trip (slice_index_or among.now k 0) ≡ false }
    ensures { IsFirstWithin (may_join_line table.now lines.now trip) among.now from (from + 64)
        result }
{
    let events = events_of(table, trip);
    let to = among.len().min(from + WORD);
    for place in from..to {
        if (out >> (place % WORD)) % 2 == 0
            && may_follow(events_of(table, last_trip(lines.row(among[place]))), events)
        {
            return Some(place);
        }
    }
    None
}
