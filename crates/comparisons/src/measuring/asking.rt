//! Many questions of one edition.
ghost use Rattle.std.specs.Prelude.{◌<◌, length};

use super::found::Found;
use super::method::Asking;
use super::queries::{by_profile, by_search};
use super::reaches::by_reach;
use super::travels::by_travel_times;
use edition_store::Edition;
use feed_maker::Draw;
use segment_queue::Desk;
use std::alloc::Global;
use tb_base::Memory;

// What one question finds.
fn asked(
    alloc: Global,
    edition: &Edition,
    asking: Asking,
    desk: &mut Desk,
    draw: &mut Draw,
) -> Result<Found, Memory>
    requires { 0 < length edition.now.table.stops }
{
    match asking {
        Asking::Search => by_search(alloc, edition, desk, draw),
        Asking::Profile => by_profile(alloc, edition, desk, draw),
        Asking::Reach => by_reach(alloc, edition, desk, draw),
        Asking::Times => by_travel_times(alloc, edition, desk, draw),
    }
}

/// What so many questions find.
pub fn by_asking(
    alloc: Global,
    edition: &Edition,
    asking: Asking,
    desk: &mut Desk,
    count: u32,
) -> Result<Found, Memory> {
    let mut draw = Draw::new(1);
    let mut found = Found::NOTHING;
    if edition.table().stop_count() == 0 {
        return Ok(found);
    }
    for _turn in 0..count {
        found.add(asked(alloc, edition, asking, desk, &mut draw)?);
    }
    Ok(found)
}
