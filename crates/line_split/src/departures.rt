//! The departures of all lines, one after another.
ghost use Rattle.std.specs.Prelude.{◌≡◌, ◌++◌, OnOk, IfOk, length, map, flat_map};
ghost use Rattle.std.specs.List.{range_with_len};
ghost use Rattle.tb_base.specs.TimetableData.{departure_at};
ghost use Rattle.line_split.specs.Layout.{departures_at, line_departures, start_of};

use super::berths::first_of;
use super::events::events_of;
use super::nested::Nested;
use std::alloc::Global;
use tb_base::{Memory, Sec, Timetable, TripNo};

/// The departures, line after line and within a line index after index, behind the places where
/// each line's begin.
pub(crate) fn departures_of(
    alloc: Global,
    table: &Timetable,
    lines: &Nested<TripNo>,
) -> Result<(Vec<usize>, Vec<Sec>), Memory>
    ensures starts { IfOk result (λ all. all.0.items
        ≡ map (start_of table.now lines.now) (range_with_len 0 (length lines.now))) }
    ensures departures { IfOk result
        (λ all. all.1.items ≡ flat_map (line_departures table.now) lines.now) }
{
    let mut starts = Vec::new(alloc);
    let mut departures = Vec::new(alloc);
    for line in 0..lines.len() {
        starts.push(departures.len())?;
        add_line(&mut departures, table, lines.row(line))?;
    }
    Ok((starts, departures))
}

// Adds the departures of a line.
fn add_line(departures: &mut Vec<Sec>, table: &Timetable, trips: &[TripNo]) -> Result<(), Memory>
    ensures { OnOk result (departures.new.items
        ≡ departures.old.items ++ line_departures table.now trips.now) }
{
    let count = events_of(table, first_of(trips)).len();
    for at in 0..count {
        add_index(departures, table, trips, at)?;
    }
    Ok(())
}

// Adds the departures of a line at one index.
fn add_index(
    departures: &mut Vec<Sec>,
    table: &Timetable,
    trips: &[TripNo],
    at: usize,
) -> Result<(), Memory>
    ensures { OnOk result (departures.new.items
        ≡ departures.old.items ++ departures_at table.now trips.now at) }
{
    for trip in trips {
        departures.push(departure(table, *trip, at))?;
    }
    Ok(())
}

fn departure(table: &Timetable, trip: TripNo, at: usize) -> Sec
    ensures { result ≡ departure_at table.now trip at }
{
    let events = events_of(table, trip);
    if at < events.len() { events[at].dep } else { 0 }
}
