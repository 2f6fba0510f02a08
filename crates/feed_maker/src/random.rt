//! Feeds that look random.
ghost use Rattle.std.specs.Prelude.{◌<◌};

use super::calls::{Trips, drawn_calls, timed_calls};
use super::draw::Draw;
use super::texts::{Feed, Files, files};
use std::alloc::{AllocError, Global};
use tb_base::Memory;

// Seconds from noon minus twelve hours: 07:50:00.
const MORNING: u32 = 28_200;

/// Ten minutes before midnight, in seconds from noon minus twelve hours.
pub const MIDNIGHT: u32 = 85_800;

/// Platforms, some of them of a station, as stops.txt.
pub fn stops(alloc: Global, draw: &mut Draw, count: u32) -> Result<String, AllocError> {
    let mut text = String::from_str(alloc, "stop_id,location_type,parent_station\nC,1,\n")?;
    for p in 0..count {
        let parent = if draw.one_in(3) { "C" } else { "" };
        text.push_str(format!(in alloc; "P{p},,{parent}\n")?.as_str())?;
    }
    Ok(text)
}

/// Ways between some of so many platforms, a few of them forbidden, and change times of some, as
/// transfers.txt.
pub fn transfers(alloc: Global, draw: &mut Draw, count: u32) -> Result<String, AllocError> {
    let mut text = String::from_str(
        alloc,
        "from_stop_id,to_stop_id,transfer_type,min_transfer_time\n",
    )?;
    for p in 0..count {
        for q in 0..count {
            if draw.one_in(6) {
                let kind = if draw.one_in(8) { 3 } else { 2 };
                let secs = draw.below(6) * 60;
                text.push_str(format!(in alloc; "P{p},P{q},{kind},{secs}\n")?.as_str())?;
            }
        }
    }
    Ok(text)
}

// How many stops and lines of trips a feed has, and when its first trips leave.
#[derive(Clone, Copy)]
struct Size {
    stops: u32,
    patterns: u32,
    start: u32,
}

// Adds one to four trips of a pattern.
fn add_pattern(
    alloc: Global,
    draw: &mut Draw,
    trips: &mut Trips,
    pattern: u32,
    size: Size,
) -> Result<(), AllocError>
    requires { 0 < size.stops }
{
    let calls = drawn_calls(alloc, draw, size.stops)?;
    for turn in 0..draw.below(4) + 1 {
        let trip = format!(in alloc; "L{pattern}T{turn}")?;
        let first = size.start.saturating_add(draw.below(20) * 60);
        let timed = timed_calls(alloc, draw, calls.as_slice())?;
        trips.add(alloc, "S", trip.as_str(), timed.as_slice(), first)?;
    }
    Ok(())
}

fn drawn_trips(alloc: Global, draw: &mut Draw, size: Size) -> Result<Trips, AllocError>
    requires { 0 < size.stops }
{
    let mut trips = Trips::new(alloc)?;
    for pattern in 0..size.patterns {
        add_pattern(alloc, draw, &mut trips, pattern, size)?;
    }
    Ok(trips)
}

/// The files of a small feed, of two to seven platforms, of which some belong to a station, and of
/// up to twenty trips. Its footpaths may break the footpath law, so it wants to be read with
/// footpaths closed.
pub fn small_feed(alloc: Global, draw: &mut Draw) -> Result<Files, Memory> {
    let size = Size {
        stops: draw.below(6) + 2,
        patterns: draw.below(5) + 1,
        start: if draw.one_in(4) { MIDNIGHT } else { MORNING },
    };
    let trips = drawn_trips(alloc, draw, size)?;
    let stops = stops(alloc, draw, size.stops)?;
    let transfers = transfers(alloc, draw, size.stops)?;
    files(
        alloc,
        Feed {
            stops: stops.as_str(),
            trips: trips.trips.as_str(),
            times: trips.times.as_str(),
            transfers: transfers.as_str(),
        },
    )
}
