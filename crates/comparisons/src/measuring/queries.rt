//! Random queries and profiles, and what they find.
ghost use Rattle.std.specs.Prelude.{◌<◌, length};

use super::drawn::{Pair, time_of_day};
use super::found::Found;
use crate::questions::{query, window};
use crate::ways::{asked_by_rounds, offers_of, searched};
use edition_store::Edition;
use feed_maker::Draw;
use segment_queue::Desk;
use std::alloc::Global;
use tb_base::{Memory, Timetable};

// The seconds of a day.
const DAY: u32 = 86_400;

/// What a profile of 24 hours between two stops finds.
pub fn by_profile(
    alloc: Global,
    edition: &Edition,
    desk: &mut Desk,
    draw: &mut Draw,
) -> Result<Found, Memory>
    requires { 0 < length edition.now.table.stops }
{
    let table = edition.table();
    let Pair { from, to } = Pair::drawn(draw, table.stop_count());
    let window = window(alloc, table, from, to, 0, DAY)?;
    let offers = offers_of(alloc, edition, desk, &window);
    drop(window);
    let offers = offers?;
    let found = Found::of_offers(offers.as_slice());
    drop(offers);
    Ok(found)
}

/// What a query between two stops finds by a search over the kept transfers.
pub fn by_search(
    alloc: Global,
    edition: &Edition,
    desk: &mut Desk,
    draw: &mut Draw,
) -> Result<Found, Memory>
    requires { 0 < length edition.now.table.stops }
{
    let table = edition.table();
    let Pair { from, to } = Pair::drawn(draw, table.stop_count());
    let query = query(alloc, table, from, to, time_of_day(draw))?;
    let choices = searched(alloc, edition, desk, &query);
    drop(query);
    let choices = choices?;
    let found = Found::of_choices(choices.as_slice());
    drop(choices);
    Ok(found)
}

// What a query between two stops finds round by round.
fn by_round(alloc: Global, table: &Timetable, draw: &mut Draw) -> Result<Found, Memory>
    requires { 0 < length table.now.stops }
{
    let Pair { from, to } = Pair::drawn(draw, table.stop_count());
    let query = query(alloc, table, from, to, time_of_day(draw))?;
    let choices = asked_by_rounds(alloc, table, &query);
    drop(query);
    let choices = choices?;
    let found = Found::of_choices(choices.as_slice());
    drop(choices);
    Ok(found)
}

/// What so many queries find round by round.
pub fn by_rounds(alloc: Global, table: &Timetable, count: u32) -> Result<Found, Memory> {
    let mut draw = Draw::new(1);
    let mut found = Found::NOTHING;
    if table.stop_count() == 0 {
        return Ok(found);
    }
    for _turn in 0..count {
        found.add(by_round(alloc, table, &mut draw)?);
    }
    Ok(found)
}
