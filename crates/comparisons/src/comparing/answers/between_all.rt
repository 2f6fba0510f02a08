//! Feeds asked between all of their stops.
ghost use Rattle.std.specs.Prelude.{◌<◌, length};
ghost use Rattle.edition_store.specs.Mirror.{IsMirror};

use super::arriving::compare_departures;
use super::hops::compare_hops;
use super::profiles::{SECONDS, compare_slots};
use super::queries::compare_values;
use super::reaching::compare_reach;
use super::tally::AnswersTally;
use super::travelling::compare_travel;
use crate::building::{built, mirror_built};
use crate::comparing::refused::{MadeFeed, Refused};
use crate::made::{ring, town};
use crate::questions::{arrival, one_stop, query, window};
use crate::reading::Unread;
use edition_store::Edition;
use reach_all::Departures;
use segment_queue::Desk;
use std::alloc::Global;
use std::thread::Threads;
use tb_base::{Memory, Sec, Timetable, TripNo};

// Times at which one leaves, in seconds after the first departure.
const LEAVING: [Sec; 5] = [0, 1, 600, 1_260, 2_400];

// Times by which one arrives, likewise.
const ARRIVING: [Sec; 5] = [599, 1_799, 1_800, 2_700, 4_500];

// When what is asked begins.
#[derive(Clone, Copy)]
struct Times {
    // The first departure.
    start: Sec,
    // The windows.
    window: Sec,
}

// When the first trip leaves its first stop.
fn first_departure(table: &Timetable) -> Sec {
    let mut first: Sec = 359_999;
    for trip in 0..table.trip_count() {
        if let Some(event) = table.events(TripNo(trip)).first() {
            first = first.min(event.dep);
        }
    }
    first
}

// Compares for a query between two stops.
fn try_query(
    alloc: Global,
    edition: &Edition,
    desk: &mut Desk,
    from: u32,
    to: u32,
    leave: Sec,
) -> Result<AnswersTally, Refused>
    requires from { from < length edition.now.table.stops }
    requires to { to < length edition.now.table.stops }
{
    let query = query(alloc, edition.table(), from, to, leave)?;
    compare_values(alloc, edition, desk, &query)
}

// Compares for queries between two stops.
fn try_queries(
    alloc: Global,
    edition: &Edition,
    desk: &mut Desk,
    from: u32,
    to: u32,
    start: Sec,
) -> Result<AnswersTally, Refused>
    requires from { from < length edition.now.table.stops }
    requires to { to < length edition.now.table.stops }
{
    let mut tally = AnswersTally::NOTHING;
    for after in LEAVING {
        let leave = start.saturating_add(after);
        tally.add(try_query(alloc, edition, desk, from, to, leave)?);
    }
    Ok(tally)
}

// Compares for a time to arrive by between two stops.
fn try_arrival(
    alloc: Global,
    edition: &Edition,
    mirrored: &Edition,
    desk: &mut Desk,
    from: u32,
    to: u32,
    by: Sec,
) -> Result<AnswersTally, Refused>
    requires mirror { IsMirror edition.now.table mirrored.now.table }
    requires from { from < length edition.now.table.stops }
    requires to { to < length edition.now.table.stops }
{
    let by = arrival(alloc, edition.table(), from, to, by)?;
    compare_departures(alloc, edition, mirrored, desk, &by)
}

// Compares for times to arrive by between two stops.
fn try_arrivals(
    alloc: Global,
    edition: &Edition,
    mirrored: &Edition,
    desk: &mut Desk,
    from: u32,
    to: u32,
    start: Sec,
) -> Result<AnswersTally, Refused>
    requires mirror { IsMirror edition.now.table mirrored.now.table }
    requires from { from < length edition.now.table.stops }
    requires to { to < length edition.now.table.stops }
{
    let mut tally = AnswersTally::NOTHING;
    for after in ARRIVING {
        let by = start.saturating_add(after);
        tally.add(try_arrival(alloc, edition, mirrored, desk, from, to, by)?);
    }
    Ok(tally)
}

// Compares for the window between two stops that begins at a time.
fn try_window(
    alloc: Global,
    edition: &Edition,
    desk: &mut Desk,
    from: u32,
    to: u32,
    first: Sec,
) -> Result<AnswersTally, Refused>
    requires from { from < length edition.now.table.stops }
    requires to { to < length edition.now.table.stops }
{
    let window = window(alloc, edition.table(), from, to, first, SECONDS)?;
    compare_slots(alloc, edition, desk, &window, SECONDS)
}

// Compares from one stop to each.
fn try_from(
    alloc: Global,
    edition: &Edition,
    mirrored: &Edition,
    desk: &mut Desk,
    from: u32,
    times: Times,
) -> Result<AnswersTally, Refused>
    requires mirror { IsMirror edition.now.table mirrored.now.table }
    requires from { from < length edition.now.table.stops }
{
    let mut tally = AnswersTally::NOTHING;
    for to in 0..edition.table().stop_count() {
        tally.add(try_queries(alloc, edition, desk, from, to, times.start)?);
        tally.add(try_arrivals(alloc, edition, mirrored, desk, from, to, times.start)?);
        tally.add(try_window(alloc, edition, desk, from, to, times.window)?);
    }
    Ok(tally)
}

// Compares from one stop to all at once.
fn try_origin(
    alloc: Global,
    edition: &Edition,
    desk: &mut Desk,
    from: u32,
    start: Sec,
) -> Result<AnswersTally, Refused>
    requires { from < length edition.now.table.stops }
{
    let origins = one_stop(alloc, edition.table(), from)?;
    let mut tally = AnswersTally::NOTHING;
    for after in LEAVING {
        let leave = start.saturating_add(after).min(359_999);
        let reached = compare_reach(alloc, edition, desk, origins.as_slice(), leave)?;
        tally.add(reached);
    }
    Ok(tally)
}

// Compares travel times from one stop to all, at departures from some minutes before a time on.
fn try_travel(
    alloc: Global,
    edition: &Edition,
    desk: &mut Desk,
    from: u32,
    start: Sec,
) -> Result<AnswersTally, Refused>
    requires { from < length edition.now.table.stops }
{
    let origins = one_stop(alloc, edition.table(), from)?;
    let first = start.saturating_sub(600).max(0).min(350_000);
    let departures = Departures {
        first,
        last: first.saturating_add(3_000),
        step: 300,
    };
    compare_travel(alloc, edition, desk, origins.as_slice(), &departures, None)
}

// Compares all over an edition and that of the mirror.
fn try_editions(
    alloc: Global,
    edition: &Edition,
    mirrored: &Edition,
    desk: &mut Desk,
    times: Times,
) -> Result<AnswersTally, Refused>
    requires { IsMirror edition.now.table mirrored.now.table }
{
    let mut tally = AnswersTally::FEED;
    for from in 0..edition.table().stop_count() {
        tally.add(try_from(alloc, edition, mirrored, desk, from, times)?);
        tally.add(try_origin(alloc, edition, desk, from, times.start)?);
        tally.add(try_travel(alloc, edition, desk, from, times.start)?);
    }
    Ok(tally)
}

// Compares all over an edition. An edition that isn't handed on is dropped by a call: at the end of
// a scope each part of it would be dropped by itself, and the proof would go through all of them.
fn try_edition<R: Threads + Sync>(
    rt: &R,
    alloc: Global,
    edition: &Edition,
    times: Times,
    desk: &mut Desk,
) -> Result<AnswersTally, Refused> {
    compare_hops(rt, alloc, edition)?;
    match mirror_built(rt, alloc, edition.table()) {
        Ok(mirrored) => {
            let compared = try_editions(alloc, edition, &mirrored, desk, times);
            drop(mirrored);
            compared
        }
        Err(Memory) => Err(Refused::Memory),
    }
}

// Compares all over a timetable, between all of its stops.
fn try_between_all<R: Threads + Sync>(
    rt: &R,
    alloc: Global,
    table: Timetable,
    times: Times,
    desk: &mut Desk,
) -> Result<AnswersTally, Refused> {
    match built(rt, alloc, table) {
        Ok(edition) => {
            let compared = try_edition(rt, alloc, &edition, times, desk);
            drop(edition);
            compared
        }
        Err(Memory) => Err(Refused::Memory),
    }
}

/// Compares all over a timetable, between all of its stops, in windows that begin before the first
/// departure.
pub fn try_between<R: Threads + Sync>(
    rt: &R,
    alloc: Global,
    table: Timetable,
    desk: &mut Desk,
) -> Result<AnswersTally, Refused> {
    let start = first_departure(&table);
    let window = start.saturating_sub(100);
    try_between_all(rt, alloc, table, Times { start, window }, desk)
}

impl MadeFeed {
    fn timetable(self, alloc: Global) -> Result<Timetable, Unread> {
        match self {
            MadeFeed::Town => town(alloc),
            MadeFeed::Ring => ring(alloc),
        }
    }

    // When the windows begin that are asked for.
    fn first_time(self) -> Sec {
        match self {
            MadeFeed::Town => 28_700,
            MadeFeed::Ring => 30_000,
        }
    }
}

/// Compares all over a feed that is made by hand, between all of its stops.
pub fn try_made<R: Threads + Sync>(
    rt: &R,
    alloc: Global,
    feed: MadeFeed,
    desk: &mut Desk,
) -> Result<AnswersTally, Refused> {
    match feed.timetable(alloc) {
        Ok(table) => {
            let start = first_departure(&table);
            let window = feed.first_time();
            try_between_all(rt, alloc, table, Times { start, window }, desk)
        }
        Err(unread) => Err(Refused::from(unread)),
    }
}
