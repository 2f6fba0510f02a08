//! Which trips have other events.
ghost use Rattle.std.specs.Prelude.{◌≡◌, ◌<◌, IfOk, length, not};
ghost use lib.Pointwise.{pointwise};
ghost use Rattle.tb_base.specs.TimetableData.{events_of};
ghost use Rattle.late_edit.specs.Touched.{MarksOthers, TellsOtherEvents, has_other_events, same_event};

use std::alloc::Global;
use tb_base::{Event, Memory, Timetable, TripNo};

// The events of a trip, and none where there is no such trip.
fn events_of(table: &Timetable, trip: TripNo) -> &[Event]
    ensures { result.now ≡ events_of table.now trip }
{
    if trip.index() < table.trip_count() as usize {
        table.events(trip)
    } else {
        &[]
    }
}

// Whether two events have the same stop, times and marks.
fn same_event(e: &Event, f: &Event) -> bool
    ensures { result ≡ same_event e.now f.now }
{
    e.stop == f.stop
        && e.arr == f.arr
        && e.dep == f.dep
        && e.board == f.board
        && e.alight == f.alight
}

// Whether some events differ, event for event.
fn events_differ(old: &[Event], new: &[Event]) -> bool
    ensures { result ≡ not (pointwise same_event old.now new.now) }
{
    if old.len() != new.len() {
        return true;
    }
    for i in 0..old.len() {
        if !same_event(&old[i], &new[i]) {
            return true;
        }
    }
    false
}

// Whether a trip of the first timetable has other events in the second, where those without a mark
// have the same.
fn has_other_events(old: &Timetable, new: &Timetable, marks: &[bool], trip: TripNo) -> bool
    requires marks { MarksOthers old.now new.now marks.now }
    requires trip { trip < length old.now.trips }
    ensures { result ≡ has_other_events old.now new.now trip }
{
    if !marks[trip.index()] {
        return false;
    }
    events_differ(events_of(old, trip), events_of(new, trip))
}

/// For each trip of the first timetable, whether it has other events in the second. Those without a
/// mark have the same, and aren't looked at.
pub(crate) fn other_events(
    alloc: Global,
    old: &Timetable,
    new: &Timetable,
    marks: &[bool],
) -> Result<Vec<bool>, Memory>
    requires { MarksOthers old.now new.now marks.now }
    ensures { IfOk result (λ others. TellsOtherEvents old.now new.now others.items) }
{
    let mut others = Vec::new(alloc);
    others.reserve(old.trip_count() as usize)?;
    for number in 0..old.trip_count() {
        others.push(has_other_events(old, new, marks, TripNo(number)))?;
    }
    Ok(others)
}
