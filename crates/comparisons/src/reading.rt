//! The timetables of feeds.
ghost use Rattle.std.specs.Prelude.{◌≤◌, IfSome};

use feed_maker::{Draw, Feed, Files, MADE_FOLDER, files};
use service_day::{Day, day_of};
use std::alloc::Global;
use tb_base::{Horizon, Memory, Timetable};
use tb_io::MemFolder;
use trip_table::{DayFault, Options, read_day};

/// Why a feed has no timetable: something is wrong with it, or memory was wanting.
#[derive(Clone, Copy, Debug)]
pub enum Unread {
    NoTimetable,
    Memory,
}

impl From<Memory> for Unread {
    fn from(_memory: Memory) -> Unread {
        Unread::Memory
    }
}

/// What is said of footpaths and of service days where a feed is read.
#[derive(Clone, Copy)]
pub struct Reading {
    // Whether a change takes a minute at a stop of which transfers.txt doesn't speak, not no time.
    takes_minute: bool,
    // Whether a station makes footpaths, of two minutes.
    joins_stations: bool,
    closes: bool,
    horizon: Horizon,
}

impl Reading {
    /// A stop of which transfers.txt doesn't speak takes no time to change at, a station makes no
    /// footpath, and none is added. One service day counts.
    pub const PLAIN: Reading = Reading {
        takes_minute: false,
        joins_stations: false,
        closes: false,
        horizon: Horizon::OneDay,
    };

    /// What is said where a feed is read that looks random: its footpaths are closed.
    pub fn drawn(draw: &mut Draw) -> Reading {
        Reading {
            takes_minute: draw.below(2) == 1,
            joins_stations: draw.one_in(2),
            closes: true,
            horizon: Horizon::OneDay,
        }
    }

    /// The same with so many service days.
    pub fn up_to(self, horizon: Horizon) -> Reading {
        Reading { horizon, ..self }
    }

    fn options(self) -> Options
        ensures change { result.change ≤ 86400 }
        ensures station { IfSome result.station (λ secs. secs ≤ 86400) }
    {
        Options {
            change: if self.takes_minute { 60 } else { 0 },
            station: if self.joins_stations { Some(120) } else { None },
            close: self.closes,
            horizon: self.horizon,
            lenient: false,
        }
    }
}

// The timetable of a feed's files on a day.
fn timetable_on(
    alloc: Global,
    files: Files,
    day: &Day,
    options: &Options,
) -> Result<Timetable, Unread>
    requires change { options.now.change ≤ 86400 }
    requires station { IfSome options.now.station (λ secs. secs ≤ 86400) }
{
    let mut folder = MemFolder::new(files, Vec::new(alloc));
    match read_day(alloc, &mut folder, MADE_FOLDER, day, options) {
        Ok(table) => Ok(table),
        Err(DayFault::Memory) => Err(Unread::Memory),
        Err(_) => Err(Unread::NoTimetable),
    }
}

/// The timetable of a feed's files.
pub fn timetable_of(alloc: Global, files: Files, reading: Reading) -> Result<Timetable, Unread> {
    let Ok(day) = day_of(b"20260302".as_slice()) else {
        unreachable!()
    };
    timetable_on(alloc, files, &day, &reading.options())
}

/// The timetable of a feed's files on the day before, with all trips of both days.
pub fn timetable_of_two_days(
    alloc: Global,
    files: Files,
    reading: Reading,
) -> Result<Timetable, Unread> {
    let Ok(day) = day_of(b"20260301".as_slice()) else {
        unreachable!()
    };
    timetable_on(
        alloc,
        files,
        &day,
        &reading.up_to(Horizon::TwoDays).options(),
    )
}

/// The timetable of a feed, where nothing is said of footpaths.
pub fn timetable(alloc: Global, feed: Feed<'_>) -> Result<Timetable, Unread> {
    timetable_of(alloc, files(alloc, feed)?, Reading::PLAIN)
}
