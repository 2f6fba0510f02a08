//! Whether a transfer is a U-turn.
ghost use Rattle.std.specs.Prelude.{◌≡◌, ◌≤◌, ◌≤ℤ◌, pos, negsuc, IfSome, if◌then◌else◌, Some, None, int_le, is_some};
ghost use Rattle.std.specs.Option.{option_and_then};
ghost use Rattle.tb_base.specs.TimetableData.{event_at, stop_at};
ghost use Rattle.tb_base.specs.Walking.{change_time};
ghost use Rattle.uturn_cut.specs.UTurns.{is_u_turn_row, can_change_within};

use tb_base::{Event, StopNo, Timetable, Transfer, TripNo};
use transfer_pack::Calls;

// An event of a trip. What stands for one that doesn't exist allows neither boarding nor alighting.
fn event_at(table: &Timetable, trip: TripNo, at: usize) -> Event
    ensures event { result ≡ event_at table.now trip at }
    ensures earliest { negsuc 86399 ≤ℤ result.arr }
    ensures latest { result.arr ≤ℤ pos 359999 }
{
    if trip.index() < table.trip_count() as usize {
        let events = table.trip(trip).events.as_slice();
        if at < events.len() {
            return events[at];
        }
    }
    Event {
        stop: StopNo(0),
        arr: 0,
        dep: 0,
        board: false,
        alight: false,
    }
}

// The change time of a stop, where it has one.
fn change_time(table: &Timetable, stop: StopNo) -> Option<u32>
    ensures time { result ≡ change_time table.now.footpaths stop }
    ensures at_most_a_day { IfSome result (λ secs. secs ≤ 86400) }
{
    table.soundness();
    if stop.index() < table.stop_count() as usize {
        table.change(stop, stop)
    } else {
        None
    }
}

// Whether one can change, within the stop of the first event, to the second.
fn can_change(table: &Timetable, before: &Event, after: &Event) -> bool
    requires earliest { negsuc 86399 ≤ℤ before.now.arr }
    requires latest { before.now.arr ≤ℤ pos 359999 }
    ensures { result ≡ can_change_within table.now before.now after.now }
{
    match change_time(table, before.stop) {
        Some(secs) => before.arr + secs as i32 <= after.dep,
        None => false,
    }
}

// The stop of an event of a trip. What stands for one that doesn't exist has number 0.
fn stop_at<C: Calls>(calls: &C, trip: TripNo, at: usize) -> StopNo
    ensures { result ≡ stop_at (C.table calls.now) trip at }
{
    if at < calls.count(trip) {
        calls.call(trip, at).stop
    } else {
        StopNo(0)
    }
}

/// Whether a transfer is a U-turn, if the calls are those of the timetable. More than the two stops
/// is looked at only where they are the same.
pub(crate) fn is_u_turn<C: Calls>(table: &Timetable, calls: &C, row: &Transfer) -> bool
    ensures { C.table calls.now ≡ table.now → result ≡ is_u_turn_row table.now row.now }
{
    if row.at == 0 {
        return false;
    }
    let at = row.at as usize - 1;
    let next = row.to_at as usize + 1;
    if stop_at(calls, row.trip, at).index() != stop_at(calls, row.to_trip, next).index() {
        return false;
    }
    let before = event_at(table, row.trip, at);
    let after = event_at(table, row.to_trip, next);
    before.alight && after.board && can_change(table, &before, &after)
}
