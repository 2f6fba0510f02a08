//! Made feeds: a city, for measuring, and small feeds that look random, for comparing.
//!
//! `city` gives the timetable of a square grid of stops, with trips along its rows and its columns
//! both ways, of any size up to 40 by 40 stops: 14,400 trips with 576,000 events. To the layer
//! above it promises every part of it: each name, number, time and stop. Times are those of a
//! service day of the GTFS Schedule Reference, in seconds from noon minus twelve hours.
//!
//! `small_feed` makes the files of a feed with loops, marks of boarding and alighting, footpaths,
//! forbidden ways, stations, ties and times beyond midnight, that look random; the same seed gives
//! the same files. `twin_feed` makes one with trips by frequency and trips of the day before, and
//! `written_out_feed` of the same seed one with the same trips written out, a day later. `Seeds`
//! says which of them a program takes. Nothing is promised of these but that they are made safely.
#![tactic(auto)]

ghost use Rattle.std.specs.Prelude.{◌≡◌, ◌<◌, ◌≤◌, IfOk};
ghost use Rattle.feed_maker.specs.City.{city};

mod calls;
mod draw;
mod grid;
mod heading;
mod lines;
mod random;
mod texts;
mod twins;
mod words;

pub use draw::Draw;
pub use random::small_feed;
use std::alloc::Global;
use tb_base::{HashKey, Memory, Parts, Timetable};
pub use texts::{Feed, Files, MADE_FOLDER, files};
pub use twins::{DAY, twin_feed, written_out_feed};
pub use words::{Seeds, words_of};

// The parts of the city with so many rows and columns.
fn parts(alloc: Global, side: u32) -> Result<Parts, Memory>
    requires some { 0 < side }
    requires few { side ≤ 40 }
    ensures { IfOk result (λ parts. parts ≡ city side) }
{
    let count = (side * side) as usize;
    Ok(Parts {
        stops: grid::stops(alloc, side)?,
        stations: Vec::new(alloc),
        trips: lines::trips(alloc, side)?,
        change: grid::change_times(alloc, count)?,
        paths: grid::no_footpaths(alloc, count)?,
    })
}

/// The city with so many rows and columns: the stop in column x and row y has the name `Sx-y`.
/// Along each row and each column 90 trips head each way, from 06:00:00 on or up to nine minutes
/// later, one every ten minutes and a minute and a half from stop to stop, where one may board and
/// alight everywhere. Trip m along row or column k has the name `DdKkMm`, where d is 0 for the
/// trips to the right, 1 to the left, 2 down and 3 up; the trips are in the order of d, then k,
/// then m, each from 0. To change takes a minute at every stop. Refused only for want of memory.
#[tactic(auto, using(crate::proofs::Sound::city_sound))]
pub fn city(alloc: Global, side: u32) -> Result<Timetable, Memory>
    requires some { 2 ≤ side }
    requires few { side ≤ 40 }
    ensures { IfOk result (λ table. table ≡ city side) }
{
    Timetable::new(alloc, HashKey::known(), parts(alloc, side)?)
}
