//! Two timetables with their lines that differ in times and marks alone, side by side.
ghost use Rattle.std.specs.Prelude.{◌≡◌, ◌<◌, IfOk, false, length};
ghost use Rattle.std.specs.List.{list_any};
ghost use lib.Pointwise.{pointwise};
ghost use Rattle.tb_base.specs.TimetableData.{events_of};
ghost use Rattle.late_edit.specs.Touched.{MarksOthers, has_other_events, is_touched_at, same_transfer};
ghost use Rattle.late_edit.specs.Updated.{IsUpdated};

use crate::events::other_events;
use crate::lined_timetable::LinedTimetable;
use std::alloc::Global;
use std::marker::Model;
use tb_base::{Memory, Transfer, TripNo};

/// A timetable with its lines, the same with other events, and for each trip whether it has others.
#[derive(Drop)]
pub(crate) struct Compared<'a> {
    before: LinedTimetable<'a>,
    after: LinedTimetable<'a>,
    other_events: Vec<bool>,
}

impl<'a> Model for Compared<'a> {
    ghost use Rattle.late_edit.specs.Updated.{IsUpdated, AmendmentData};
    ghost use Rattle.late_edit.specs.Touched.{TellsOtherEvents};

    ghost Value = { AmendmentData };

    ghost view = { λ r. record { before = r.before; after = r.after } };

    ghost invariant = { λ r. IsUpdated r.before.table r.after.table
        × TellsOtherEvents r.before.table r.after.table r.other_events.items };
}

impl<'a> Compared<'a> {
    /// Two timetables with their lines that differ in times and marks alone, of which all trips that
    /// have no mark among `others` have the same events. Refused only for want of memory.
    pub(crate) fn new(
        alloc: Global,
        before: LinedTimetable<'a>,
        after: LinedTimetable<'a>,
        others: &[bool],
    ) -> Result<Compared<'a>, Memory>
        requires updated { IsUpdated before.table after.table }
        requires others { MarksOthers before.table after.table others.now }
        ensures { IfOk result (λ c. c ≡ record { before = before.entry; after = after.entry }) }
    {
        let other_events = other_events(alloc, before.table(), after.table(), others)?;
        Ok(Compared {
            before,
            after,
            other_events,
        })
    }

    /// What is always so of the two. Does nothing.
    pub(crate) fn soundness(&self)
        ensures { IsUpdated self.now.before.table self.now.after.table }
    {
        let _before = &self.before;
    }

    /// The first of the two.
    pub(crate) fn before(&self) -> &LinedTimetable<'a>
        ensures { result.now ≡ self.now.before }
    {
        &self.before
    }

    /// The second of the two.
    pub(crate) fn after(&self) -> &LinedTimetable<'a>
        ensures { result.now ≡ self.now.after }
    {
        &self.after
    }

    /// Whether a trip has other events; one that isn't there has none.
    pub(crate) fn has_other_events(&self, trip: TripNo) -> bool
        ensures { result
            ≡ has_other_events self.now.before.table self.now.after.table trip }
    {
        trip.index() < self.other_events.len() && self.other_events[trip.index()]
    }

    // Whether one of the trips that some transfers lead to has other events.
    fn leads_to_other_events(&self, rows: &[Transfer]) -> bool
        ensures { result ≡ list_any
            (λ r. has_other_events self.now.before.table self.now.after.table r.to_trip)
            rows.now }
    {
        rows.iter().any(|row| self.has_other_events(row.to_trip))
    }

    /// Whether an event of a trip touches it, by the candidates from there: others than before, or
    /// one that leads to a trip with other events. They are put into `old` and `new`.
    pub(crate) fn is_touched_at(
        &self,
        old: &mut Vec<Transfer>,
        new: &mut Vec<Transfer>,
        trip: TripNo,
        at: u32,
    ) -> Result<bool, Memory>
        requires trip { trip < length self.now.before.table.trips }
        requires at { at < length (events_of self.now.before.table trip) }
        requires same { has_other_events self.now.before.table self.now.after.table trip ≡ false }
        ensures { IfOk result (λ touched.
            touched ≡ is_touched_at self.now.before self.now.after trip at) }
    {
        self.before.take_candidates(old, trip, at)?;
        if self.leads_to_other_events(old.as_slice()) {
            return Ok(true);
        }
        self.after.take_candidates(new, trip, at)?;
        Ok(!same_transfers(old.as_slice(), new.as_slice()))
    }
}

// Whether two lists of transfers are the same.
fn same_transfers(old: &[Transfer], new: &[Transfer]) -> bool
    ensures { result ≡ pointwise same_transfer old.now new.now }
{
    old == new
}
