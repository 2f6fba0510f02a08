//! The lines of a timetable, as Trip-Based Public Transit Routing (Witt, ESA 2015) has them: trips
//! with one sequence of stops and of boarding and alighting marks, none of which overtakes another.
//!
//! `split` makes the lines; `split_again` makes the same from those of the timetable before some of
//! its trips changed, in less time. The layer above is promised that they are the lines of the
//! timetable (`Lines::soundness`), and finds in them without taking memory: the line of a trip and
//! its place there, the trips of a line, all or from one on, where lines call at a stop, which of
//! them may be boarded there, and the first trip of a line that departs at an index no earlier than
//! a time, by one search along a run of departures, which a boarding knows.
#![tactic(auto)]

ghost use Rattle.std.specs.Prelude.{◌≡◌, IfOk};
ghost use Rattle.tb_base.specs.Lines.{AreLines};

mod again;
mod before;
mod berths;
mod bitmaps;
mod boardings;
mod departures;
mod events;
mod floors;
pub mod laws;
mod lines;
mod nested;
mod onward;
mod order;
mod patterns;
mod place;
mod places;

pub use again::split_again;
use before::befores_of;
use berths::berths_of;
pub use boardings::Boarding;
use boardings::boardings_of;
use departures::departures_of;
pub use lines::{Berth, Lines};
use nested::Nested;
use onward::onward_of;
use order::trip_order;
use patterns::patterns_of;
use place::place_trips;
use places::places_of;
use std::alloc::Global;
use tb_base::{Memory, Timetable, TripNo};

/// The lines of a timetable: trips of one pattern of stops and marks, none of which overtakes
/// another. Each trip, in the order of all times and then of the numbers, joins the first line
/// whose last trip is nowhere later, else it opens the next line.
pub fn split(alloc: Global, table: &Timetable) -> Result<Lines, Memory>
    ensures table { IfOk result (λ lines. lines.table ≡ table.now) }
    ensures lines { IfOk result (λ lines. AreLines table.now lines.lines) }
{
    table.soundness();
    let order = trip_order(alloc, table)?;
    let (numbers, count) = patterns_of(alloc, table)?;
    let lines = place_trips(alloc, table, numbers.as_slice(), count, order.as_slice())?;
    laid_out(alloc, table, lines)
}

// The lines of a timetable, with all that is looked up in them.
fn laid_out(alloc: Global, table: &Timetable, lines: Nested<TripNo>) -> Result<Lines, Memory>
    requires { AreLines table.now lines }
    ensures table { IfOk result (λ lines. lines.table ≡ table.now) }
    ensures lines { IfOk result (λ lines. AreLines table.now lines.lines) }
{
    table.soundness();
    let places = places_of(alloc, table.trip_count(), &lines)?;
    let (in_order, runs) = onward_of(alloc, &lines, places.as_slice())?;
    let before = befores_of(alloc, &lines, places.as_slice())?;
    let berths = berths_of(alloc, table, &lines)?;
    let (starts, departures) = departures_of(alloc, table, &lines)?;
    let boardings = boardings_of(
        alloc,
        table,
        &lines,
        &berths,
        starts.as_slice(),
        departures.as_slice(),
    )?;
    let split = Lines::new(
        table, lines, places, in_order, runs, before, berths, boardings, starts, departures,
    );
    split.soundness();
    Ok(split)
}
