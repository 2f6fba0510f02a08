//! Random origins, and the travel times to every stop.
ghost use Rattle.std.specs.Prelude.{◌<◌, length};

use super::drawn::time_of_day;
use super::found::Found;
use crate::ways::travelled;
use edition_store::Edition;
use feed_maker::Draw;
use reach_all::{Departures, Figures};
use segment_queue::Desk;
use std::alloc::Global;
use tb_base::{Memory, StopNo};

// The count of stops that some departure reaches, and the sum of the least travel times to them.
fn found_in(figures: &[Figures]) -> Found {
    let mut found = Found::NOTHING;
    for figures in figures {
        if let Some(time) = figures.least {
            found.add_time(time);
        }
    }
    found
}

/// What the travel times from a stop to every stop are over sixty departures, one a minute, from a
/// time of the day on.
pub fn by_travel_times(
    alloc: Global,
    edition: &Edition,
    desk: &mut Desk,
    draw: &mut Draw,
) -> Result<Found, Memory>
    requires { 0 < length edition.now.table.stops }
{
    let from = [StopNo(draw.below(edition.table().stop_count()))];
    let first = time_of_day(draw).max(0).min(82_800);
    let departures = Departures {
        first,
        last: first.saturating_add(3_540),
        step: 60,
    };
    let travel = travelled(alloc, edition, desk, from.as_slice(), &departures, None)?;
    let found = found_in(travel.figures.as_slice());
    drop(travel);
    Ok(found)
}
