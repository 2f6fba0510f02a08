//! Random times to arrive by, and the latest departures.
ghost use Rattle.std.specs.Prelude.{◌<◌, length};
ghost use Rattle.edition_store.specs.Mirror.{IsMirror};

use super::drawn::{Pair, time_of_day};
use super::found::Found;
use crate::questions::arrival;
use crate::ways::departures_by;
use arrive_by::Departure;
use edition_store::Edition;
use feed_maker::Draw;
use segment_queue::Desk;
use std::alloc::Global;
use tb_base::{Memory, Timetable};

// The count of departures, and the sum of their times.
fn found_in(departures: &[Departure]) -> Found {
    let mut found = Found::NOTHING;
    for departure in departures {
        found.add_time(departure.leave);
    }
    found
}

// What a time to arrive by between two stops finds.
fn by_arrival(
    alloc: Global,
    mirrored: &Edition,
    table: &Timetable,
    desk: &mut Desk,
    draw: &mut Draw,
) -> Result<Found, Memory>
    requires mirror { IsMirror table.now mirrored.now.table }
    requires stops { 0 < length table.now.stops }
{
    let Pair { from, to } = Pair::drawn(draw, table.stop_count());
    let by = arrival(alloc, table, from, to, time_of_day(draw))?;
    let departures = departures_by(alloc, mirrored, table, desk, &by);
    drop(by);
    let departures = departures?;
    let found = found_in(departures.as_slice());
    drop(departures);
    Ok(found)
}

/// The latest departures of so many random times to arrive by, over the edition of the mirror: how
/// many there are, and the sum of their times.
pub fn by_arrivals(
    alloc: Global,
    mirrored: &Edition,
    table: &Timetable,
    desk: &mut Desk,
    count: u32,
) -> Result<Found, Memory>
    requires { IsMirror table.now mirrored.now.table }
{
    let mut draw = Draw::new(1);
    let mut found = Found::NOTHING;
    if table.stop_count() == 0 {
        return Ok(found);
    }
    for _turn in 0..count {
        found.add(by_arrival(alloc, mirrored, table, desk, &mut draw)?);
    }
    Ok(found)
}
