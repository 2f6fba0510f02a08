//! The events of a late trip are moved.
ghost use Rattle.std.specs.Prelude.{◌≡◌, ◌<◌, ◌≤ℤ◌, All, Err, IfErr, MatchResult, Ok, OnErr, OnOk, int_lt, length, map, negsuc, pos};
ghost use Rattle.std.specs.List.{list_any};
ghost use Rattle.late_edit.specs.Amended.{events_moved, has_time_outside, is_outside, is_over_a_day, is_reached_early, delayed, moved_from};
ghost use Rattle.late_edit.specs.Finding.{IsTimedEvent};
ghost use Rattle.late_edit.specs.Updates.{IsOfUpdate};

use crate::late::{Late, LateFault};
use tb_base::{Event, Sec};

const DAY: Sec = 86_400;

const EARLIEST: Sec = -86_400;

const LATEST: Sec = 359_999;

// More than a day, late or early.
fn is_over_a_day(late: &Late) -> bool
    ensures { result ≡ is_over_a_day late.now.secs }
{
    late.secs < -DAY || late.secs > DAY
}

// A time outside the limits of a timetable.
fn is_outside(time: Sec) -> bool
    ensures { result ≡ is_outside time }
{
    time < EARLIEST || time > LATEST
}

// An event with its times moved as a late says.
fn moved(event: &Event, late: &Late) -> Event
    requires event { IsTimedEvent event.now }
    requires early { negsuc 86399 ≤ℤ late.now.secs }
    requires late { late.now.secs ≤ℤ pos 86400 }
    ensures { result ≡ delayed late.now.secs event.now }
{
    Event {
        stop: event.stop,
        arr: event.arr + late.secs,
        dep: event.dep + late.secs,
        board: event.board,
        alight: event.alight,
    }
}

// Whether an event has a time outside the limits.
fn has_time_outside(event: &Event) -> bool
    ensures { result ≡ has_time_outside event.now }
{
    is_outside(event.arr) || is_outside(event.dep)
}

// Whether the late moves a time of one of the events outside the limits.
fn leave_limits(events: &[Event], late: &Late) -> bool
    requires events { All IsTimedEvent events.now }
    requires early { negsuc 86399 ≤ℤ late.now.secs }
    requires late { late.now.secs ≤ℤ pos 86400 }
    ensures { result ≡ list_any has_time_outside (map (delayed late.now.secs) events.now) }
{
    for event in events {
        if has_time_outside(&moved(event, late)) {
            return true;
        }
    }
    false
}

// Whether an event is reached before an earlier one is left.
fn is_before(event: &Event, earlier: &Event) -> bool
    ensures { result ≡ int_lt event.now.arr earlier.now.dep }
{
    event.arr < earlier.dep
}

// Whether the first event that the late moves is then reached before the one before it is left.
fn is_reached_early(events: &[Event], late: &Late) -> bool
    requires events { All IsTimedEvent events.now }
    requires from { late.now.from < length events.now }
    requires early { negsuc 86399 ≤ℤ late.now.secs }
    requires late { late.now.secs ≤ℤ pos 86400 }
    ensures { result
        ≡ is_reached_early (moved_from late.now.from late.now.secs events.now) late.now.from }
{
    let from = late.from as usize;
    from > 0 && is_before(&moved(&events[from], late), &events[from - 1])
}

// Moves all of the events.
fn move_all(events: &mut [Event], late: &Late)
    requires events { All IsTimedEvent events.old }
    requires early { negsuc 86399 ≤ℤ late.now.secs }
    requires late { late.now.secs ≤ℤ pos 86400 }
    ensures { events.new ≡ map (delayed late.now.secs) events.old }
{
    for event in events.iter_mut() {
        *event = moved(event, late);
    }
}

// Whether the events of a trip can be moved as a late says, or else the late's first fault.
fn check_move(events: &[Event], late: &Late) -> Result<(), LateFault>
    requires { All IsTimedEvent events.now }
    ensures fault { MatchResult result (λ _. events_moved late.now events.now
        ≡ Ok (moved_from late.now.from late.now.secs events.now))
        (λ f. events_moved late.now events.now ≡ Err f) }
    ensures own { IfErr result IsOfUpdate }
    ensures from { OnOk result (late.now.from < length events.now) }
    ensures early { OnOk result (negsuc 86399 ≤ℤ late.now.secs) }
    ensures late { OnOk result (late.now.secs ≤ℤ pos 86400) }
{
    let from = late.from as usize;
    if from >= events.len() {
        return Err(LateFault::BadEvent(late.line));
    }
    if is_over_a_day(late) || leave_limits(&events[from..], late) {
        return Err(LateFault::OutOfRange(late.line));
    }
    if is_reached_early(events, late) {
        return Err(LateFault::TimeRunsBack(late.line));
    }
    Ok(())
}

/// Moves the events of a trip as a late says, or tells the late's first fault.
pub(crate) fn move_events(events: &mut [Event], late: &Late) -> Result<(), LateFault>
    requires { All IsTimedEvent events.old }
    ensures moved { MatchResult result (λ _. events_moved late.now events.old ≡ Ok events.new)
        (λ f. events_moved late.now events.old ≡ Err f) }
    ensures own { IfErr result IsOfUpdate }
    ensures unchanged { OnErr result (events.new ≡ events.old) }
{
    check_move(events, late)?;
    move_all(&mut events[late.from as usize..], late);
    Ok(())
}
