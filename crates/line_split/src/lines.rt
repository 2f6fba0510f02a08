ghost use Rattle.std.specs.Prelude.{◌≡◌, ◌<◌, ◌≤◌, ◌≤ℤ◌, ◌<ℤ◌, ◌+◌, ◌*◌, take, drop, [], AllPairs, length, slice_index_or};
ghost use Rattle.std.specs.List.{AllWithin};

use super::berths::first_of;
use super::boardings::{Boarding, may_be_boarded, run_start};
use super::nested::Nested;
use std::marker::Model;
use std::snapshot::Snapshot;
use tb_base::{LineNo, Sec, StopNo, Timetable, TripNo};

/// A place where a line calls: an index of its trips.
#[derive(Clone, Copy, Debug, PartialEq, Eq)]
pub struct Berth {
    pub line: LineNo,
    pub at: u32,
}

/// The lines of a timetable. They remember for contracts of which timetable they are; that takes no
/// room.
#[derive(Drop)]
pub struct Lines {
    table: Snapshot<Timetable>,
    lines: Nested<TripNo>,
    places: Vec<(LineNo, u32)>,
    in_order: Vec<TripNo>,
    runs: Vec<(u32, u32)>,
    before: Vec<Option<TripNo>>,
    berths: Nested<Berth>,
    boardings: Nested<Boarding>,
    starts: Vec<usize>,
    departures: Vec<Sec>,
}

impl Model for Lines {
    ghost use Rattle.line_split.specs.LinesData.{LinesData};
    ghost use Rattle.line_split.specs.Layout.{AreLaidOut};

    ghost Value = { LinesData };

    ghost view = { λ l. record { table = l.table.value; lines = l.lines } };

    ghost invariant = { λ l. AreLaidOut l.table.value (record {
      lines = l.lines;
      places = l.places.items;
      in_order = l.in_order.items;
      runs = l.runs.items;
      before = l.before.items;
      berths = l.berths;
      boardings = l.boardings;
      starts = l.starts.items;
      departures = l.departures.items;
    }) };
}

impl Lines {
    ghost use Rattle.std.specs.Prelude.{MatchOption, slice_get};
    ghost use Rattle.tb_base.specs.Lines.{AreDividedInto, AreLines};
    ghost use Rattle.tb_base.specs.Transfers.{earliest_trip, may_be_boarded};
    ghost use Rattle.line_split.specs.Layout.{AreBoardings, AreLaidOut, IsBoarding, departures_at};
    ghost use Rattle.line_split.specs.LinesOf.{IsBefore, IsRestOfLine, StandsAt, berths_at, line_events};

    // The lines with these parts.
    pub(crate) fn new(
        table: &Timetable,
        lines: Nested<TripNo>,
        places: Vec<(LineNo, u32)>,
        in_order: Vec<TripNo>,
        runs: Vec<(u32, u32)>,
        before: Vec<Option<TripNo>>,
        berths: Nested<Berth>,
        boardings: Nested<Boarding>,
        starts: Vec<usize>,
        departures: Vec<Sec>,
    ) -> Lines
        requires { AreLaidOut table.now (record {
          lines = lines;
          places = places.items;
          in_order = in_order.items;
          runs = runs.items;
          before = before.items;
          berths = berths;
          boardings = boardings;
          starts = starts.items;
          departures = departures.items;
        }) }
        ensures { result ≡ record { table = table.now; lines = lines } }
    {
        Lines {
            table: Snapshot::of(table),
            lines,
            places,
            in_order,
            runs,
            before,
            berths,
            boardings,
            starts,
            departures,
        }
    }

    /// What lines always keep: they are the lines of their timetable, and these are all its trips,
    /// each once, with the same stops and marks and no falling time along a line. Does nothing.
    pub fn soundness(&self)
        ensures lines { AreLines self.now.table self.now.lines }
        ensures divided { AreDividedInto self.now.table self.now.lines }
    {
        let _lines = &self.lines;
    }

    /// How many lines there are.
    pub fn count(&self) -> u32
        ensures { result ≡ length self.now.lines }
    {
        self.lines.len() as u32
    }

    /// The line of a trip, and the trip's place in it, counted from 0.
    pub fn of(&self, trip: TripNo) -> (LineNo, u32)
        requires { trip < length self.now.table.trips }
        ensures { StandsAt self.now.lines trip result }
    {
        self.places[trip.index()]
    }

    /// The trips of a trip's line from it on, in order.
    pub fn onward(&self, trip: TripNo) -> &[TripNo]
        requires { trip < length self.now.table.trips }
        ensures { IsRestOfLine self.now.lines trip result.now }
    {
        let (from, to) = self.runs[trip.index()];
        let in_order = self.in_order.as_slice();
        &in_order[from as usize..to as usize]
    }

    /// The trip just before on a trip's line, where there is one.
    pub fn before(&self, trip: TripNo) -> Option<TripNo>
        requires { trip < length self.now.table.trips }
        ensures { IsBefore self.now.lines trip result }
    {
        self.before[trip.index()]
    }

    /// The trips of a line, in order.
    pub fn trips(&self, line: LineNo) -> &[TripNo]
        requires { line < length self.now.lines }
        ensures { result.now ≡ slice_index_or self.now.lines line [] }
    {
        self.lines.row(line.index())
    }

    /// The first trip of a line.
    pub fn first(&self, line: LineNo) -> TripNo
        requires { line < length self.now.lines }
        ensures { result ≡ slice_index_or (slice_index_or self.now.lines line []) 0 0 }
    {
        first_of(self.lines.row(line.index()))
    }

    /// Whether a line may be boarded at an index: boarding is allowed there, and it is not the
    /// line's last index. The lines are those of the timetable.
    pub fn may_be_boarded(&self, table: &Timetable, line: LineNo, at: u32) -> bool
        requires table { self.now.table ≡ table.now }
        requires line { line < length self.now.lines }
        ensures { result ≡ may_be_boarded table.now
            (slice_index_or (slice_index_or self.now.lines line []) 0 0) at }
    {
        may_be_boarded(table, self.lines.row(line.index()), at)
    }

    /// Where lines call at a stop: every index of every line there, by line, then by index.
    pub fn at(&self, stop: StopNo) -> &[Berth]
        requires { stop < length self.now.table.stops }
        ensures { result.now ≡ berths_at self.now.table self.now.lines stop }
    {
        self.berths.row(stop.index())
    }

    /// The lines that may be boarded at a stop, by line, then by index.
    pub fn boardings(&self, stop: StopNo) -> &[Boarding]
        requires { stop < length self.now.table.stops }
        ensures { AreBoardings self.now.table self.now.lines
            (berths_at self.now.table self.now.lines stop) result.now }
    {
        self.boardings.row(stop.index())
    }

    /// The first trip of a line that departs where it is boarded no earlier than the time, in
    /// seconds, and the trip's place in the line, counted from 0.
    pub fn boarded(&self, boarding: &Boarding, time: Sec) -> Option<(TripNo, usize)>
        requires { IsBoarding self.now.table self.now.lines boarding.now }
        ensures { let line = slice_index_or self.now.lines boarding.now.line [] in
            MatchOption result (earliest_trip self.now.table line boarding.now.at time ≡ None)
            (λ r. (earliest_trip self.now.table line boarding.now.at time ≡ Some r.0)
            × (slice_get line r.1 ≡ Some r.0)) }
    {
        self.soundness();
        let place = first_from(self.boarded_at(boarding), time);
        let trips = self.lines.row(boarding.line.index());
        if place < trips.len() {
            Some((trips[place], place))
        } else {
            None
        }
    }

    // The departures of a line where it is boarded, in the order of the trips.
    fn boarded_at(&self, boarding: &Boarding) -> &[Sec]
        requires { IsBoarding self.now.table self.now.lines boarding.now }
        ensures { result.now ≡ departures_at self.now.table
            (slice_index_or self.now.lines boarding.now.line []) boarding.now.at }
    {
        part(self.departures.as_slice(), boarding.start, boarding.count)
    }

    // The departures of a line's trips at one index, in the order of the trips.
    fn departures_at(&self, line: LineNo, at: u32) -> &[Sec]
        requires line { line < length self.now.lines }
        requires at { at
            < length (line_events self.now.table (slice_index_or self.now.lines line [])) }
        ensures { result.now
            ≡ departures_at self.now.table (slice_index_or self.now.lines line []) at }
    {
        let departures = self.departures.as_slice();
        let count = self.lines.row(line.index()).len();
        run(departures, self.starts[line.index()], at as usize, count)
    }

    /// The line's first trip that departs at an index no earlier than the time, in seconds.
    /// The lines are those of the timetable.
    pub fn earliest(&self, table: &Timetable, line: LineNo, at: u32, time: Sec) -> Option<TripNo>
        requires table { self.now.table ≡ table.now }
        requires line { line < length self.now.lines }
        requires at { at < length (line_events table.now (slice_index_or self.now.lines line [])) }
        ensures { result
            ≡ earliest_trip table.now (slice_index_or self.now.lines line []) at time }
    {
        self.soundness();
        let place = first_from(self.departures_at(line, at), time);
        let trips = self.lines.row(line.index());
        if place < trips.len() {
            Some(trips[place])
        } else {
            None
        }
    }
}

// The run of so many departures at an index, where runs of one length begin at a place.
fn run(departures: &[Sec], start: usize, at: usize, count: usize) -> &[Sec]
    requires { start + at * count + count ≤ length departures.now }
    ensures { result.now ≡ take count (drop (start + at * count) departures.now) }
{
    part(departures, run_start(departures, start, at, count), count)
}

// So many departures from a place on.
fn part(departures: &[Sec], start: usize, count: usize) -> &[Sec]
    requires { start + count ≤ length departures.now }
    ensures { result.now ≡ take count (drop start departures.now) }
{
    &departures[start..start + count]
}

// How many departures are few: these are counted one by one.
const FEW: usize = 16;

// How many of these departures are earlier than the time, counted without a branch for each.
fn count_earlier(departures: &[Sec], time: Sec) -> u32
    requires few { length departures.now ≤ 16 }
    requires order { AllPairs (λ x y. x ≤ℤ y) departures.now }
    ensures bound { result ≤ length departures.now }
    ensures earlier { AllWithin (λ x. x <ℤ time) departures.now 0 result }
    ensures from { AllWithin (λ x. time ≤ℤ x) departures.now result (length departures.now) }
{
    let mut earlier: u32 = 0;
    for departure in departures {
        if *departure < time {
            earlier += 1;
        }
    }
    earlier
}

// Where a part of the departures begins, and how many they are: all before it are earlier than the
// time, and none behind it is. It is halved, without a branch that hangs on a departure, until they
// are few.
fn narrowed(departures: &[Sec], time: Sec) -> (usize, usize)
    requires { AllPairs (λ x y. x ≤ℤ y) departures.now }
    ensures within { result.0 + result.1 ≤ length departures.now }
    ensures few { result.1 ≤ 16 }
    ensures earlier { AllWithin (λ x. x <ℤ time) departures.now 0 result.0 }
    ensures from { AllWithin (λ x. time ≤ℤ x) departures.now (result.0 + result.1)
        (length departures.now) }
{
    let mut from = 0;
    let mut count = departures.len();
    while count > FEW {
        let half = count / 2;
        if departures[from + half - 1] < time {
            from += half;
        }
        count -= half;
    }
    (from, count)
}

// The first place from which on no departure is earlier than the time.
fn first_from(departures: &[Sec], time: Sec) -> usize
    requires { AllPairs (λ x y. x ≤ℤ y) departures.now }
    ensures bound { result ≤ length departures.now }
    ensures earlier { AllWithin (λ x. x <ℤ time) departures.now 0 result }
    ensures from { AllWithin (λ x. time ≤ℤ x) departures.now result (length departures.now) }
{
    let (from, count) = narrowed(departures, time);
    from + count_earlier(part(departures, from, count), time) as usize
}
