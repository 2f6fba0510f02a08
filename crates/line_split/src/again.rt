//! The lines of a timetable, of which those before some of its trips changed are known.
ghost use Rattle.std.specs.Prelude.{◌≡◌, ◌<◌, ◌++◌, ℕ, false, true, IfOk, IsTrue, filter, length, not, slice_index_or};
ghost use Rattle.std.specs.List.{concat};
ghost use Rattle.std.specs.List.Sorted.{IsPermutation, IsSortedBy};
ghost use Rattle.tb_base.specs.TimetableData.{events_of};
ghost use Rattle.tb_base.specs.Lines.{AreLines, compare_trips};
ghost use Rattle.line_split.specs.Marks.{AreMarked, MarksChanged, is_line_marked, is_marked};
ghost use Rattle.line_split.specs.Orders.{line_precedes};

use super::berths::first_of;
use super::events::{events_of, last_trip};
use super::laid_out;
use super::lines::Lines;
use super::nested::Nested;
use super::order::{compare_trips, sort_trips};
use super::patterns::{bucket_of, patterns_among};
use super::place::place_trips;
use std::alloc::Global;
use std::cmp::Ordering;
use tb_base::{Event, LineNo, Memory, Timetable, TripNo};

/// The lines of a timetable, as `split` makes them, by those of the timetable before: the same but
/// for the events of some trips, which are marked as changed. Lines of the patterns of no changed
/// trip, as they were and as they are, stay; all other trips are placed anew. In the order of their
/// first trips these are the lines.
pub fn split_again(
    alloc: Global,
    before: &Timetable,
    old: &Lines,
    table: &Timetable,
    changed: &[bool],
) -> Result<Lines, Memory>
    requires old { old.now.table ≡ before.now }
    requires trips { length before.now.trips ≡ length table.now.trips }
    requires long { length changed.now ≡ length table.now.trips }
    requires same { (t : ℕ) → t < length table.now.trips →
        slice_index_or changed.now t false ≡ false →
        events_of before.now t ≡ events_of table.now t }
    ensures table { IfOk result (λ lines. lines.table ≡ table.now) }
    ensures lines { IfOk result (λ lines. AreLines table.now lines.lines) }
{
    old.soundness();
    let marks = marks_of(alloc, before, table, changed)?;
    let (kept, mut trips) = parted(alloc, before, old, marks.as_slice())?;
    sort_trips(table, &mut trips);
    let (numbers, count) = patterns_among(alloc, table, trips.as_slice())?;
    let placed = place_trips(alloc, table, numbers.as_slice(), count, trips.as_slice())?;
    let lines = merged(table, kept, placed)?;
    laid_out(alloc, table, lines)
}

// Marks the patterns of changed trips, as they were and as they are.
fn marks_of(
    alloc: Global,
    before: &Timetable,
    table: &Timetable,
    changed: &[bool],
) -> Result<Vec<bool>, Memory>
    requires { length changed.now ≡ length table.now.trips }
    ensures { IfOk result (λ marks. MarksChanged before.now table.now changed.now marks.items) }
{
    let count = table.trip_count();
    let mut marks = Vec::new(alloc);
    marks.resize(count as usize + 1, false)?;
    for trip in 0..count {
        if changed[trip as usize] {
            mark(marks.as_mut_slice(), events_of(before, TripNo(trip)));
            mark(marks.as_mut_slice(), events_of(table, TripNo(trip)));
        }
    }
    Ok(marks)
}

// Marks the pattern of some events.
fn mark(marks: &mut [bool], events: &[Event])
    requires { 0 < length marks.old }
    ensures { AreMarked events.now marks.old marks.new }
{
    let bucket = bucket_of(events, marks.len());
    marks[bucket] = true;
}

// Whether the pattern of some events is marked.
fn is_marked(marks: &[bool], events: &[Event]) -> bool
    requires { 0 < length marks.now }
    ensures { result ≡ is_marked marks.now events.now }
{
    marks[bucket_of(events, marks.len())]
}

// The lines whose pattern isn't marked, and the trips of the others.
fn parted(
    alloc: Global,
    before: &Timetable,
    old: &Lines,
    marks: &[bool],
) -> Result<(Nested<TripNo>, Vec<TripNo>), Memory>
    requires { 0 < length marks.now }
    ensures kept { IfOk result (λ all. all.0
        ≡ filter (λ line. not (is_line_marked before.now marks.now line)) old.now.lines) }
    ensures trips { IfOk result (λ all. all.1.items
        ≡ concat (filter (is_line_marked before.now marks.now) old.now.lines)) }
{
    let mut kept = Nested::new(alloc);
    let mut trips = Vec::new(alloc);
    for line in 0..old.count() {
        let row = old.trips(LineNo(line));
        if is_marked(marks, events_of(before, last_trip(row))) {
            trips.extend_from_slice(row)?;
        } else {
            kept.open_row(copied(alloc, row)?)?;
        }
    }
    Ok((kept, trips))
}

// The same trips.
fn copied(alloc: Global, trips: &[TripNo]) -> Result<Vec<TripNo>, Memory>
    ensures { IfOk result (λ copy. copy.items ≡ trips.now) }
{
    let mut copy = Vec::new(alloc);
    copy.extend_from_slice(trips)?;
    Ok(copy)
}

// How two lines compare: by their first trips.
fn compare_lines(table: &Timetable, k: &Vec<TripNo>, l: &Vec<TripNo>) -> Ordering
    ensures { result ≡ compare_trips table.now (slice_index_or k.now.items 0 0)
        (slice_index_or l.now.items 0 0) }
{
    compare_trips(table, first_of(k.as_slice()), first_of(l.as_slice()))
}

// All these lines, by their first trips.
fn merged(
    table: &Timetable,
    kept: Nested<TripNo>,
    placed: Nested<TripNo>,
) -> Result<Nested<TripNo>, Memory>
    ensures permutation { IfOk result (λ lines. IsPermutation (kept ++ placed) lines) }
    ensures sorted { IfOk result (λ lines. IsSortedBy (line_precedes table.now) lines) }
{
    let mut rows = kept.into_rows();
    rows.append(&mut placed.into_rows())?;
    rows.sort_by(|k, l| compare_lines(table, k, l))?;
    Ok(Nested::of(rows))
}
