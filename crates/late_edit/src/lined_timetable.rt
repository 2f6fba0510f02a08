//! A timetable with its lines.
ghost use Rattle.std.specs.Prelude.{◌≡◌, ◌<◌, ◌==◌, ◌&&◌, [], All, OnOk, length, nat_le, slice_index_or};
ghost use Rattle.line_split.specs.Layout.{AreBoardings, IsBoarding, berth_of};
ghost use Rattle.line_split.specs.LinesOf.{StandsAt, berths_at, line_events};
ghost use Rattle.transfer_make.specs.ByBerth.{hop_at, row_by};
ghost use Rattle.tb_base.specs.Lines.{AreDividedInto, AreLines};
ghost use Rattle.tb_base.specs.Soundness.{IsSound, IsSoundEvent};
ghost use Rattle.tb_base.specs.TimetableData.{events_of};
ghost use Rattle.late_edit.specs.Touched.{candidates_at};

use line_split::{Boarding, Lines};
use std::marker::Model;
use tb_base::{Event, LineNo, Memory, Sec, StopNo, Timetable, Transfer, TripNo};
use transfer_make::add_event;

/// A change from an event of a trip: the time when one comes to a stop from there.
#[derive(Clone, Copy)]
pub(crate) struct Changing {
    pub(crate) trip: TripNo,
    pub(crate) at: u32,
    pub(crate) time: Sec,
}

/// A timetable, and its lines.
#[derive(Drop)]
pub struct LinedTimetable<'a> {
    table: &'a Timetable,
    lines: &'a Lines,
}

impl<'a> Model for LinedTimetable<'a> {
    ghost use Rattle.std.specs.Prelude.{◌≡◌};
    ghost use Rattle.line_split.specs.LinesData.{LinesData};

    ghost Value = { LinesData };

    ghost view = { λ n. n.lines.now };

    ghost invariant = { λ n. n.lines.now.table ≡ n.table.now };
}

impl<'a> LinedTimetable<'a> {
    /// A timetable, and its lines.
    pub fn new(table: &'a Timetable, lines: &'a Lines) -> LinedTimetable<'a>
        requires { lines.now.table ≡ table.now }
        ensures { result ≡ lines.now }
    {
        LinedTimetable { table, lines }
    }

    // Its timetable is sound, and its lines are those of its timetable. Does nothing.
    pub(crate) fn soundness(&self)
        ensures sound { IsSound self.now.table }
        ensures lines { AreLines self.now.table self.now.lines }
        ensures divided { AreDividedInto self.now.table self.now.lines }
    {
        self.table.soundness();
        self.lines.soundness();
    }

    // Its timetable.
    pub(crate) fn table(&self) -> &'a Timetable
        ensures { result.now ≡ self.now.table }
    {
        self.table
    }

    // The events of a trip, in order.
    pub(crate) fn events(&self, trip: TripNo) -> &'a [Event]
        requires { trip < length self.now.table.trips }
        ensures events { result.now ≡ events_of self.now.table trip }
        ensures sound { All (IsSoundEvent (length self.now.table.stops)) result.now }
    {
        let table = self.table;
        table.trip(trip).events.as_slice()
    }

    // How many events a trip has.
    pub(crate) fn event_count(&self, trip: TripNo) -> u32
        requires { trip < length self.now.table.trips }
        ensures { result ≡ length (events_of self.now.table trip) }
    {
        let table = self.table;
        table.soundness();
        table.events(trip).len() as u32
    }

    // Puts the candidates of an event of a trip, in order, in the place of some rows.
    pub(crate) fn take_candidates(
        &self,
        rows: &mut Vec<Transfer>,
        trip: TripNo,
        at: u32,
    ) -> Result<(), Memory>
        requires trip { trip < length self.now.table.trips }
        requires at { at < length (events_of self.now.table trip) }
        ensures { OnOk result (rows.new.items ≡ candidates_at self.now trip at) }
    {
        rows.clear();
        add_event(rows, self.table, self.lines, trip, at as usize)
    }

    // The lines that may be boarded at a stop.
    pub(crate) fn boardings(&self, stop: StopNo) -> &'a [Boarding]
        requires { stop < length self.now.table.stops }
        ensures { AreBoardings self.now.table self.now.lines
            (berths_at self.now.table self.now.lines stop) result.now }
    {
        let lines = self.lines;
        lines.boardings(stop)
    }

    // The trips of a line, in order.
    pub(crate) fn trips(&self, line: LineNo) -> &'a [TripNo]
        requires { line < length self.now.lines }
        ensures { result.now ≡ slice_index_or self.now.lines line [] }
    {
        let lines = self.lines;
        lines.trips(line)
    }

    // How many lines there are.
    pub(crate) fn line_count(&self) -> u32
        ensures { result ≡ length self.now.lines }
    {
        let lines = self.lines;
        lines.count()
    }

    // The line of a trip, and the trip's place in it.
    pub(crate) fn place(&self, trip: TripNo) -> (LineNo, u32)
        requires { trip < length self.now.table.trips }
        ensures { StandsAt self.now.lines trip result }
    {
        let lines = self.lines;
        lines.of(trip)
    }

    // The events of a line's first trip, at whose stops all its trips call.
    pub(crate) fn line_events(&self, line: LineNo) -> &'a [Event]
        requires { line < length self.now.lines }
        ensures events { result.now
            ≡ line_events self.now.table (slice_index_or self.now.lines line []) }
        ensures sound { All (IsSoundEvent (length self.now.table.stops)) result.now }
    {
        let lines = self.lines;
        let first = lines.first(line);
        if first.index() >= self.table.trip_count() as usize {
            return &[];
        }
        self.events(first)
    }

    // The trips of a trip's line, in order, and none where there is no such trip.
    pub(crate) fn trips_beside(&self, trip: TripNo) -> &'a [TripNo] {
        let lines = self.lines;
        if trip.index() >= self.table.trip_count() as usize {
            return &[];
        }
        let (line, _) = lines.of(trip);
        if line.index() >= lines.count() as usize {
            return &[];
        }
        lines.trips(line)
    }

    // The trip that is hopped onto at a change where a line is boarded, unless staying does as well.
    fn hop(&self, from: &Changing, boarding: &Boarding) -> Option<TripNo>
        requires trip { from.now.trip < length self.now.table.trips }
        requires boarding { IsBoarding self.now.table self.now.lines boarding.now }
        ensures { result ≡ hop_at self.now.table self.now.lines from.now.trip from.now.at
            from.now.time (berth_of boarding.now) }
    {
        self.lines.soundness();
        let Some(found) = self.lines.boarded(boarding, from.time) else {
            return None;
        };
        if is_onward(self.lines.of(from.trip), from.at, boarding, found.1) {
            return None;
        }
        Some(found.0)
    }

    // The transfer of a change onto a line where it is boarded, unless staying does as well.
    pub(crate) fn row_onto(&self, from: &Changing, boarding: &Boarding) -> Option<Transfer>
        requires trip { from.now.trip < length self.now.table.trips }
        requires boarding { IsBoarding self.now.table self.now.lines boarding.now }
        ensures { result ≡ row_by self.now.table self.now.lines from.now.trip from.now.at
            from.now.time (berth_of boarding.now) }
    {
        match self.hop(from, boarding) {
            Some(to_trip) => Some(Transfer {
                trip: from.trip,
                at: from.at,
                to_trip,
                to_at: boarding.at,
            }),
            None => None,
        }
    }
}

// Whether a trip at a place of a line is the one at this place, or comes after it on the same line,
// and is boarded no earlier than at this index.
fn is_onward(place: (LineNo, u32), at: u32, boarding: &Boarding, found: usize) -> bool
    ensures { result ≡ ((boarding.now.line == place.0) && nat_le at boarding.now.at
        && nat_le place.1 found) }
{
    boarding.line.index() == place.0.index() && at <= boarding.at && place.1 as usize <= found
}
