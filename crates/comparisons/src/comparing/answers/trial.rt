//! Feeds that look random, one after another, and what is compared over each.
ghost use Rattle.std.specs.Prelude.{◌<◌, length};
ghost use Rattle.edition_store.specs.Mirror.{IsMirror};

use super::arriving::compare_departures;
use super::drawn::{
    some_arrival, some_departures, some_limit, some_query, some_stops, some_time, some_window,
};
use super::hops::compare_hops;
use super::profiles::compare_slots;
use super::queries::compare_values;
use super::reaching::compare_reach;
use super::tally::AnswersTally;
use super::travelling::compare_travel;
use crate::building::mirror_built;
use crate::comparing::feed::edition_of;
use crate::comparing::refused::Refused;
use crate::reading::Reading;
use edition_store::Edition;
use feed_maker::{Draw, small_feed};
use segment_queue::Desk;
use std::alloc::Global;
use std::thread::Threads;
use tb_base::Memory;

// How much is asked over each feed.
const QUERIES: u32 = 60;

const WINDOWS: u32 = 2;

const ARRIVALS: u32 = 12;

const ORIGINS: u32 = 6;

const TRAVELS: u32 = 4;

// The seconds of a window are at most as many.
const WINDOW: u32 = 900;

// Compares for a query.
fn try_query(
    alloc: Global,
    edition: &Edition,
    desk: &mut Desk,
    draw: &mut Draw,
) -> Result<AnswersTally, Refused>
    requires { 0 < length edition.now.table.stops }
{
    let query = some_query(alloc, draw, edition.table())?;
    compare_values(alloc, edition, desk, &query)
}

// Compares for queries.
fn try_queries(
    alloc: Global,
    edition: &Edition,
    desk: &mut Desk,
    draw: &mut Draw,
) -> Result<AnswersTally, Refused>
    requires { 0 < length edition.now.table.stops }
{
    let mut tally = AnswersTally::NOTHING;
    for _turn in 0..QUERIES {
        tally.add(try_query(alloc, edition, desk, draw)?);
    }
    Ok(tally)
}

// Compares for a window.
fn try_window(
    alloc: Global,
    edition: &Edition,
    desk: &mut Desk,
    draw: &mut Draw,
) -> Result<AnswersTally, Refused>
    requires { 0 < length edition.now.table.stops }
{
    let seconds = draw.below(WINDOW) + 1;
    let window = some_window(alloc, draw, edition.table(), seconds)?;
    compare_slots(alloc, edition, desk, &window, seconds)
}

// Compares for windows.
fn try_windows(
    alloc: Global,
    edition: &Edition,
    desk: &mut Desk,
    draw: &mut Draw,
) -> Result<AnswersTally, Refused>
    requires { 0 < length edition.now.table.stops }
{
    let mut tally = AnswersTally::NOTHING;
    for _turn in 0..WINDOWS {
        tally.add(try_window(alloc, edition, desk, draw)?);
    }
    Ok(tally)
}

// Compares for a time to arrive by.
fn try_arrival(
    alloc: Global,
    edition: &Edition,
    mirrored: &Edition,
    desk: &mut Desk,
    draw: &mut Draw,
) -> Result<AnswersTally, Refused>
    requires stops { 0 < length edition.now.table.stops }
    requires mirror { IsMirror edition.now.table mirrored.now.table }
{
    let by = some_arrival(alloc, draw, edition.table())?;
    compare_departures(alloc, edition, mirrored, desk, &by)
}

// Compares for times to arrive by.
fn try_arrivals(
    alloc: Global,
    edition: &Edition,
    mirrored: &Edition,
    desk: &mut Desk,
    draw: &mut Draw,
) -> Result<AnswersTally, Refused>
    requires stops { 0 < length edition.now.table.stops }
    requires mirror { IsMirror edition.now.table mirrored.now.table }
{
    let mut tally = AnswersTally::NOTHING;
    for _turn in 0..ARRIVALS {
        tally.add(try_arrival(alloc, edition, mirrored, desk, draw)?);
    }
    Ok(tally)
}

// Compares from some stops to all.
fn try_origin(
    alloc: Global,
    edition: &Edition,
    desk: &mut Desk,
    draw: &mut Draw,
) -> Result<AnswersTally, Refused>
    requires { 0 < length edition.now.table.stops }
{
    let table = edition.table();
    let from = some_stops(alloc, draw, table.stop_count())?;
    let leave = some_time(draw, table);
    compare_reach(alloc, edition, desk, from.as_slice(), leave)
}

// Compares from some stops to all, some times.
fn try_origins(
    alloc: Global,
    edition: &Edition,
    desk: &mut Desk,
    draw: &mut Draw,
) -> Result<AnswersTally, Refused>
    requires { 0 < length edition.now.table.stops }
{
    let mut tally = AnswersTally::NOTHING;
    for _turn in 0..ORIGINS {
        tally.add(try_origin(alloc, edition, desk, draw)?);
    }
    Ok(tally)
}

// Compares travel times from some stops to all.
fn try_travel(
    alloc: Global,
    edition: &Edition,
    desk: &mut Desk,
    draw: &mut Draw,
) -> Result<AnswersTally, Refused>
    requires { 0 < length edition.now.table.stops }
{
    let table = edition.table();
    let from = some_stops(alloc, draw, table.stop_count())?;
    let departures = some_departures(draw, table);
    let rides = some_limit(draw);
    compare_travel(alloc, edition, desk, from.as_slice(), &departures, rides)
}

// Compares travel times, some times.
fn try_travels(
    alloc: Global,
    edition: &Edition,
    desk: &mut Desk,
    draw: &mut Draw,
) -> Result<AnswersTally, Refused> {
    let mut tally = AnswersTally::NOTHING;
    if edition.table().stop_count() == 0 {
        return Ok(tally);
    }
    for _turn in 0..TRAVELS {
        tally.add(try_travel(alloc, edition, desk, draw)?);
    }
    Ok(tally)
}

// Compares all but the latest departures over an edition.
fn try_edition(
    alloc: Global,
    edition: &Edition,
    desk: &mut Desk,
    draw: &mut Draw,
) -> Result<AnswersTally, Refused>
    requires { 0 < length edition.now.table.stops }
{
    let mut tally = try_queries(alloc, edition, desk, draw)?;
    tally.add(try_windows(alloc, edition, desk, draw)?);
    tally.add(try_origins(alloc, edition, desk, draw)?);
    Ok(tally)
}

// Compares the latest departures over an edition.
fn try_mirror<R: Threads + Sync>(
    rt: &R,
    alloc: Global,
    edition: &Edition,
    desk: &mut Desk,
    draw: &mut Draw,
) -> Result<AnswersTally, Refused>
    requires { 0 < length edition.now.table.stops }
{
    match mirror_built(rt, alloc, edition.table()) {
        Ok(mirrored) => {
            let compared = try_arrivals(alloc, edition, &mirrored, desk, draw);
            drop(mirrored);
            compared
        }
        Err(Memory) => Err(Refused::Memory),
    }
}

/// Compares all over an edition.
pub fn try_all<R: Threads + Sync>(
    rt: &R,
    alloc: Global,
    edition: &Edition,
    desk: &mut Desk,
    draw: &mut Draw,
) -> Result<AnswersTally, Refused> {
    compare_hops(rt, alloc, edition)?;
    if edition.table().stop_count() == 0 {
        return Ok(AnswersTally::NOTHING);
    }
    let mut tally = try_edition(alloc, edition, desk, draw)?;
    tally.add(try_mirror(rt, alloc, edition, desk, draw)?);
    tally.add(AnswersTally::FEED);
    Ok(tally)
}

// Compares all over an edition, and then travel times, so that these change nothing of what is drawn
// for the others.
fn try_also_travels<R: Threads + Sync>(
    rt: &R,
    alloc: Global,
    edition: &Edition,
    desk: &mut Desk,
    draw: &mut Draw,
) -> Result<AnswersTally, Refused> {
    let mut tally = try_all(rt, alloc, edition, desk, draw)?;
    tally.add(try_travels(alloc, edition, desk, draw)?);
    Ok(tally)
}

/// Compares all over the feed of a seed.
pub fn try_seed<R: Threads + Sync>(
    rt: &R,
    alloc: Global,
    desk: &mut Desk,
    seed: u32,
) -> Result<AnswersTally, Refused> {
    let mut draw = Draw::new(seed as u64);
    let files = small_feed(alloc, &mut draw)?;
    let reading = Reading::drawn(&mut draw);
    match edition_of(rt, alloc, files, reading) {
        Ok(edition) => {
            let compared = try_also_travels(rt, alloc, &edition, desk, &mut draw);
            drop(edition);
            compared
        }
        Err(refused) => Err(refused),
    }
}
