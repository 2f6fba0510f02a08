//! Random origins, and the best values to every stop.
ghost use Rattle.std.specs.Prelude.{◌<◌, length};

use super::drawn::time_of_day;
use super::found::Found;
use crate::ways::reached;
use edition_store::Edition;
use feed_maker::Draw;
use segment_queue::Desk;
use std::alloc::Global;
use tb_base::{Memory, StopNo, Value};

// The count of values to all stops, and the sum of their arrivals.
fn found_in(lists: &[Vec<Value>]) -> Found {
    let mut found = Found::NOTHING;
    for values in lists {
        found.add_values(values.as_slice());
    }
    found
}

/// What is found from a stop to every stop, at a time of the day.
pub fn by_reach(
    alloc: Global,
    edition: &Edition,
    desk: &mut Desk,
    draw: &mut Draw,
) -> Result<Found, Memory>
    requires { 0 < length edition.now.table.stops }
{
    let from = [StopNo(draw.below(edition.table().stop_count()))];
    let leave = time_of_day(draw);
    let lists = reached(alloc, edition, desk, from.as_slice(), leave)?;
    let found = found_in(lists.as_slice());
    drop(lists);
    Ok(found)
}
