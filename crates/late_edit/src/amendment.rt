//! The trips that a change of times touches.
ghost use Rattle.std.specs.Prelude.{◌≡◌, ◌<◌, ◌≤◌, ◌+ℤ◌, ℕ, All, IfOk, IfSome, false, length, pos};
ghost use Rattle.std.specs.Bool.{OnTrue};
ghost use Rattle.late_edit.specs.Updated.{IsUpdated};
ghost use Rattle.tb_base.specs.Soundness.{IsSoundEvent, IsSoundPath};
ghost use Rattle.tb_base.specs.TimetableData.{events_of};
ghost use Rattle.late_edit.specs.Touched.{MarksOthers, has_other_events, is_touched, is_touched_at};

use crate::compared::Compared;
use crate::doubts::{Doubt, all_doubts};
use crate::lined_timetable::{Changing, LinedTimetable};
use crate::near::{is_marked, near_lines, near_stops};
use crate::settled::are_settled;
use std::alloc::Global;
use std::marker::Model;
use tb_base::{Event, Memory, Path, StopNo, Transfer, TripNo};

/// A timetable with its lines, and the same with other events.
#[derive(Drop)]
pub struct Amendment<'a> {
    compared: Compared<'a>,
    doubts: Vec<Vec<Doubt>>,
    near: Vec<bool>,
    near_lines: Vec<bool>,
}

impl<'a> Model for Amendment<'a> {
    ghost use Rattle.std.specs.Prelude.{map};
    ghost use Rattle.late_edit.specs.Updated.{AmendmentData};
    ghost use Rattle.late_edit.specs.Doubts.{AreAllDoubts, MarksLines, MarksNear};

    ghost Value = { AmendmentData };

    ghost view = { λ r. r.compared };

    ghost invariant = { λ r. AreAllDoubts r.compared.before r.compared.after
        (map (λ row. row.items) r.doubts.items)
        × MarksNear r.compared.before.table (map (λ row. row.items) r.doubts.items) r.near.items
        × MarksLines r.compared.before r.near.items r.near_lines.items };
}

impl<'a> Amendment<'a> {
    ghost use Rattle.tb_base.specs.Walking.{change};
    ghost use Rattle.late_edit.specs.Doubts.{AreSettled, rows_to};

    /// Of two timetables with their lines that differ in times and marks alone, of which all trips
    /// that have no mark among `others` have the same events. Refused only for want of memory.
    pub fn between(
        alloc: Global,
        before: LinedTimetable<'a>,
        after: LinedTimetable<'a>,
        others: &[bool],
    ) -> Result<Amendment<'a>, Memory>
        requires updated { IsUpdated before.table after.table }
        requires others { MarksOthers before.table after.table others.now }
        ensures before { IfOk result (λ amendment. amendment.before ≡ before.entry) }
        ensures after { IfOk result (λ amendment. amendment.after ≡ after.entry) }
    {
        let compared = Compared::new(alloc, before, after, others)?;
        let doubts = all_doubts(alloc, &compared)?;
        let near = near_stops(alloc, compared.before().table(), doubts.as_slice())?;
        let near_lines = near_lines(alloc, compared.before(), near.as_slice())?;
        Ok(Amendment {
            compared,
            doubts,
            near,
            near_lines,
        })
    }

    // Whether the transfers of a change onto the lines at a stop are plainly the same in both
    // timetables, and none leads to a trip with other events.
    #[inline(always)]
    fn is_settled_to(&self, stop: StopNo, from: &Changing) -> bool
        requires trip { from.now.trip < length self.now.before.table.trips }
        requires stop { stop < length self.now.before.table.stops }
        ensures { OnTrue result (AreSettled self.now.before self.now.after
            (rows_to self.now.before from.now.trip from.now.at stop from.now.time)
            (rows_to self.now.after from.now.trip from.now.at stop from.now.time)) }
    {
        let doubts = self.doubts[stop.index()].as_slice();
        are_settled(&self.compared, doubts, from)
    }

    // The same of the stops that footpaths lead to, from an event.
    fn is_settled_along(&self, paths: &[Path], trip: TripNo, at: u32, event: &Event) -> bool
        requires trip { trip < length self.now.before.table.trips }
        requires event { IsSoundEvent (length self.now.before.table.stops) event.now }
        requires paths { All (IsSoundPath (length self.now.before.table.stops) event.now.stop)
            paths.now }
        ensures { OnTrue result (All (λ f. AreSettled self.now.before self.now.after
            (rows_to self.now.before trip at f.to (event.now.arr +ℤ pos f.secs))
            (rows_to self.now.after trip at f.to (event.now.arr +ℤ pos f.secs))) paths.now) }
    {
        for path in paths {
            let from = changing(trip, at, event, path.secs);
            if !self.is_settled_to(path.to, &from) {
                return false;
            }
        }
        true
    }

    // The same of the stop of an event itself.
    fn is_settled_here(&self, trip: TripNo, at: u32, event: &Event) -> bool
        requires trip { trip < length self.now.before.table.trips }
        requires event { IsSoundEvent (length self.now.before.table.stops) event.now }
        ensures { OnTrue result
            (IfSome (change self.now.before.table event.now.stop event.now.stop)
            (λ secs. AreSettled self.now.before self.now.after
            (rows_to self.now.before trip at event.now.stop (event.now.arr +ℤ pos secs))
            (rows_to self.now.after trip at event.now.stop (event.now.arr +ℤ pos secs)))) }
    {
        let table = self.compared.before().table();
        match table.change(event.stop, event.stop) {
            Some(secs) => self.is_settled_to(event.stop, &changing(trip, at, event, secs)),
            None => true,
        }
    }

    // Whether from an event of a trip all transfers are plainly the same in both timetables, and none
    // leads to a trip with other events.
    fn is_settled(&self, trip: TripNo, at: u32) -> bool
        requires trip { trip < length self.now.before.table.trips }
        requires at { at < length (events_of self.now.before.table trip) }
        requires same { has_other_events self.now.before.table self.now.after.table trip ≡ false }
        ensures { OnTrue result (is_touched_at self.now.before self.now.after trip at ≡ false) }
    {
        self.compared.soundness();
        let table = self.compared.before().table();
        table.soundness();
        let event = table.event(trip, at);
        let paths = table.paths(event.stop);
        if !is_marked(self.near.as_slice(), event.stop) {
            return true;
        }
        if !self.is_settled_here(trip, at, &event) {
            return false;
        }
        self.is_settled_along(paths, trip, at, &event)
    }

    // Whether an event of a trip touches it, by the candidates from there: others than before, or
    // one that leads to a trip with other events. They may be put into `old` and `new`.
    fn is_touched_at(
        &self,
        old: &mut Vec<Transfer>,
        new: &mut Vec<Transfer>,
        trip: TripNo,
        at: u32,
    ) -> Result<bool, Memory>
        requires trip { trip < length self.now.before.table.trips }
        requires at { at < length (events_of self.now.before.table trip) }
        requires same { has_other_events self.now.before.table self.now.after.table trip ≡ false }
        ensures { IfOk result (λ touched.
            touched ≡ is_touched_at self.now.before self.now.after trip at) }
    {
        if self.is_settled(trip, at) {
            return Ok(false);
        }
        self.compared.is_touched_at(old, new, trip, at)
    }

    // Whether a trip with the same events calls at no stop from which a change leads to one with
    // doubts, so that nothing touches it. Its line is looked up alone.
    fn is_far(&self, trip: TripNo) -> bool
        requires trip { trip < length self.now.before.table.trips }
        requires same { has_other_events self.now.before.table self.now.after.table trip ≡ false }
        ensures { OnTrue result (is_touched self.now.before self.now.after trip ≡ false) }
    {
        self.compared.soundness();
        let before = self.compared.before();
        before.soundness();
        let (line, _) = before.place(trip);
        !self.near_lines[line.index()]
    }

    /// Whether a trip is touched: it has other events, or another list of candidates, or a trip in
    /// that list has other events. Refused only for want of memory.
    pub fn is_touched(&self, alloc: Global, trip: TripNo) -> Result<bool, Memory>
        requires { trip < length self.now.before.table.trips }
        ensures { IfOk result (λ touched.
            touched ≡ is_touched self.now.before self.now.after trip) }
    {
        if self.compared.has_other_events(trip) {
            return Ok(true);
        }
        if self.is_far(trip) {
            return Ok(false);
        }
        let mut old = Vec::new(alloc);
        let mut new = Vec::new(alloc);
        for at in 0..self.compared.before().event_count(trip) {
            let touched = self.is_touched_at(&mut old, &mut new, trip, at)?;
            if touched {
                return Ok(true);
            }
        }
        Ok(false)
    }
}

// The change from an event of a trip that takes so many seconds.
fn changing(trip: TripNo, at: u32, event: &Event, secs: u32) -> Changing
    requires event { (n : ℕ) × IsSoundEvent n event.now }
    requires secs { secs ≤ 86400 }
    ensures { result ≡ record { trip = trip; at = at; time = event.now.arr +ℤ pos secs } }
{
    Changing {
        trip,
        at,
        time: event.arr + secs as i32,
    }
}
