//! Feeds that look random, with trips by frequency and trips of the day before, each beside the
//! same trips written out.
ghost use Rattle.std.specs.Prelude.{◌<◌};

use super::calls::{TimedCall, Trips, clock, drawn_calls, timed_calls};
use super::draw::Draw;
use super::random::{MIDNIGHT, stops, transfers};
use super::texts::{Feed, Files, files, files_of_two_days};
use std::alloc::{AllocError, Global};
use tb_base::Memory;

// Ten minutes after midnight, in seconds from noon minus twelve hours.
const EARLY: u32 = 600;

/// The seconds of a day, by which the trips that are written out are later.
pub const DAY: u32 = 86_400;

// On which days the service of a trip runs.
#[derive(Clone, Copy)]
enum Runs {
    Today,
    DayBefore,
    BothDays,
}

impl Runs {
    fn drawn(draw: &mut Draw) -> Runs {
        match draw.below(3) {
            0 => Runs::Today,
            1 => Runs::DayBefore,
            _ => Runs::BothDays,
        }
    }

    fn service(self) -> &'static str {
        match self {
            Runs::Today => "S",
            Runs::DayBefore => "B",
            Runs::BothDays => "E",
        }
    }

    fn is_today(self) -> bool {
        matches!(self, Runs::Today | Runs::BothDays)
    }

    fn is_day_before(self) -> bool {
        matches!(self, Runs::DayBefore | Runs::BothDays)
    }

    // When the first of these trips leave, so that those of both days meet after midnight.
    fn start(self) -> u32 {
        match self {
            Runs::Today => EARLY,
            Runs::DayBefore | Runs::BothDays => MIDNIGHT,
        }
    }
}

// A row of frequencies.txt: starts from one time on, a headway apart, before another.
#[derive(Clone, Copy)]
struct Starts {
    first: u32,
    end: u32,
    headway: u32,
}

impl Starts {
    // Up to half an hour, every one to ten minutes; none where the end is the first.
    fn drawn(draw: &mut Draw, start: u32) -> Starts
        ensures { 0 < result.headway }
    {
        let first = start.saturating_add(draw.below(20) * 60);
        Starts {
            first,
            end: first.saturating_add(draw.below(30) * 60),
            headway: (draw.below(10) + 1) * 60,
        }
    }

    fn row(self, alloc: Global, trip: &str) -> Result<String, AllocError> {
        let first = clock(alloc, self.first)?;
        let end = clock(alloc, self.end)?;
        let headway = self.headway;
        format!(in alloc; "{trip},{first},{end},{headway}\n")
    }

    // How many starts are before the end.
    fn count(self) -> u32
        requires { 0 < self.headway }
    {
        self.end.saturating_sub(self.first).div_ceil(self.headway)
    }

    // When a start is, of those that are counted from 0.
    fn departure(self, turn: u32) -> u32 {
        self.first.saturating_add(turn.saturating_mul(self.headway))
    }
}

// A trip: on which days it runs, and its calls.
#[derive(Clone, Copy)]
struct Trip<'a> {
    runs: Runs,
    calls: &'a [TimedCall],
}

impl Trip<'_> {
    // Its first arrival, where it first departs at a time.
    fn first_arrival(self, departure: u32) -> u32 {
        match self.calls.first() {
            Some(first) => departure.saturating_sub(first.wait),
            None => departure,
        }
    }

    // Its last arrival, by its first.
    fn last_arrival(self, first: u32) -> u32 {
        match self.calls.last() {
            Some(last) => first.saturating_add(last.after),
            None => first,
        }
    }
}

// The trips of both feeds, and frequencies.txt of the given one.
#[derive(Drop)]
struct Both {
    given: Trips,
    frequencies: String,
    written_out: Trips,
    count: u32,
}

impl Both {
    fn new(alloc: Global) -> Result<Both, AllocError> {
        Ok(Both {
            given: Trips::new(alloc)?,
            frequencies: String::from_str(alloc, "trip_id,start_time,end_time,headway_secs\n")?,
            written_out: Trips::new(alloc)?,
            count: 0,
        })
    }

    // Adds a trip whose first arrival is at a time to those that are written out.
    fn write_at(
        &mut self,
        alloc: Global,
        calls: &[TimedCall],
        first: u32,
    ) -> Result<(), AllocError> {
        self.count = self.count.wrapping_add(1);
        let count = self.count;
        let name = format!(in alloc; "W{count}")?;
        self.written_out
            .add(alloc, "S", name.as_str(), calls, first)
    }

    // Writes a trip out that first departs at a time: for the day, a day later; and for the day
    // before, where it hasn't ended by midnight.
    fn write_out(
        &mut self,
        alloc: Global,
        trip: Trip<'_>,
        departure: u32,
    ) -> Result<(), AllocError> {
        let first = trip.first_arrival(departure);
        if trip.runs.is_today() {
            self.write_at(alloc, trip.calls, first.saturating_add(DAY))?;
        }
        if trip.runs.is_day_before() && trip.last_arrival(first) >= DAY {
            self.write_at(alloc, trip.calls, first)?;
        }
        Ok(())
    }

    // Adds a row of frequencies.txt, and writes its starts out.
    fn add_starts(
        &mut self,
        alloc: Global,
        name: &str,
        trip: Trip<'_>,
        starts: Starts,
    ) -> Result<(), AllocError>
        requires { 0 < starts.headway }
    {
        let row = starts.row(alloc, name)?;
        self.frequencies.push_str(row.as_str())?;
        for turn in 0..starts.count() {
            self.write_out(alloc, trip, starts.departure(turn))?;
        }
        Ok(())
    }

    // Adds one or two rows of frequencies.txt of a trip.
    fn add_frequencies(
        &mut self,
        alloc: Global,
        draw: &mut Draw,
        name: &str,
        trip: Trip<'_>,
    ) -> Result<(), AllocError> {
        for _row in 0..draw.below(2) + 1 {
            let starts = Starts::drawn(draw, trip.runs.start());
            self.add_starts(alloc, name, trip, starts)?;
        }
        Ok(())
    }

    // Adds a trip to the given feed, by frequency or once, and writes it out.
    fn add(
        &mut self,
        alloc: Global,
        draw: &mut Draw,
        name: &str,
        trip: Trip<'_>,
    ) -> Result<(), AllocError> {
        let departure = trip.runs.start().saturating_add(draw.below(20) * 60);
        let first = trip.first_arrival(departure);
        self.given
            .add(alloc, trip.runs.service(), name, trip.calls, first)?;
        if draw.one_in(2) {
            self.add_frequencies(alloc, draw, name, trip)
        } else {
            self.write_out(alloc, trip, departure)
        }
    }

    // Adds one to three trips of a pattern.
    fn add_pattern(
        &mut self,
        alloc: Global,
        draw: &mut Draw,
        pattern: u32,
        stops: u32,
    ) -> Result<(), AllocError>
        requires { 0 < stops }
    {
        let calls = drawn_calls(alloc, draw, stops)?;
        for turn in 0..draw.below(3) + 1 {
            let name = format!(in alloc; "L{pattern}T{turn}")?;
            let timed = timed_calls(alloc, draw, calls.as_slice())?;
            let trip = Trip {
                runs: Runs::drawn(draw),
                calls: timed.as_slice(),
            };
            self.add(alloc, draw, name.as_str(), trip)?;
        }
        Ok(())
    }
}

// The trips of one to four patterns.
fn drawn_trips(alloc: Global, draw: &mut Draw, stops: u32) -> Result<Both, AllocError>
    requires { 0 < stops }
{
    let mut trips = Both::new(alloc)?;
    for pattern in 0..draw.below(4) + 1 {
        trips.add_pattern(alloc, draw, pattern, stops)?;
    }
    Ok(trips)
}

// A feed of these trips.
fn feed_of<'a>(stops: &'a str, trips: &'a Trips, transfers: &'a str) -> Feed<'a> {
    Feed {
        stops,
        trips: trips.trips.as_str(),
        times: trips.times.as_str(),
        transfers,
    }
}

// The texts of both feeds.
#[derive(Drop)]
struct Texts {
    stops: String,
    trips: Both,
    transfers: String,
}

fn drawn_texts(alloc: Global, draw: &mut Draw) -> Result<Texts, AllocError> {
    let count = draw.below(5) + 2;
    Ok(Texts {
        trips: drawn_trips(alloc, draw, count)?,
        stops: stops(alloc, draw, count)?,
        transfers: transfers(alloc, draw, count)?,
    })
}

/// The files of a feed of two to six platforms, of which trips run by frequency, and some on the
/// day before until after midnight. Its footpaths may break the footpath law, so it wants to be
/// read with footpaths closed.
pub fn twin_feed(alloc: Global, draw: &mut Draw) -> Result<Files, Memory> {
    let texts = drawn_texts(alloc, draw)?;
    let trips = &texts.trips;
    let feed = feed_of(texts.stops.as_str(), &trips.given, texts.transfers.as_str());
    files_of_two_days(alloc, feed, trips.frequencies.as_str())
}

/// The files of the feed that `twin_feed` makes of the same numbers, but with the trips of its day
/// written out, so that each time is a day later: each start is a trip of its own that runs on the
/// day, and of the day before only such as haven't ended by midnight.
pub fn written_out_feed(alloc: Global, draw: &mut Draw) -> Result<Files, Memory> {
    let texts = drawn_texts(alloc, draw)?;
    let trips = &texts.trips;
    let feed = feed_of(
        texts.stops.as_str(),
        &trips.written_out,
        texts.transfers.as_str(),
    );
    files(alloc, feed)
}
