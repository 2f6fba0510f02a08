//! The events of a trip, moved to a start and into the reckoning of the date of a timetable.
ghost use Rattle.std.specs.Prelude.{◌≡◌, ◌<◌, ◌≤◌, ◌≤ℤ◌, ◌-ℤ◌, ◌+ℤ◌, ℕ, All, IfOk, length, map, pos, negsuc};
ghost use Rattle.tb_base.specs.ServiceDays.{seconds_after};
ghost use Rattle.service_trips.specs.Starts.{is_in};
ghost use Rattle.service_trips.specs.ShownRides.{IsRide, IsDayEvent, IsFromZero, shift};
ghost use Rattle.service_trips.specs.ServiceDay.{first_departure, moved, starting_at};
ghost use Rattle.service_trips.specs.TimetableTrips.{is_shown, last_arrival, last_departure};

use crate::starts::StartSpan;
use std::alloc::Global;
use tb_base::{Event, Memory, Sec, ServiceDay};

// The seconds of a day.
const DAY: i32 = 86_400;

// The last time of a timetable: 99:59:59.
const LATEST: i32 = 359_999;

/// The departure of a trip.
pub(crate) fn first_departure(ride: &[Event]) -> Sec
    requires { 0 < length ride.now }
    ensures { result ≡ first_departure ride.now }
{
    ride[0].dep
}

// The arrival of a trip.
fn last_arrival(ride: &[Event]) -> Sec
    requires { 0 < length ride.now }
    ensures { result ≡ last_arrival ride.now }
{
    ride[ride.len() - 1].arr
}

// The departure of a trip from its last stop.
fn last_departure(ride: &[Event]) -> Sec
    requires { 0 < length ride.now }
    ensures { result ≡ last_departure ride.now }
{
    ride[ride.len() - 1].dep
}

/// Whether a timetable shows the events of a trip of a service day.
pub(crate) fn is_shown(ride: &[Event], day: ServiceDay) -> bool
    requires { 0 < length ride.now }
    ensures { result ≡ is_shown day ride.now }
{
    match day {
        ServiceDay::Before => last_arrival(ride) >= DAY,
        ServiceDay::Date => true,
        ServiceDay::After => last_departure(ride) <= LATEST - DAY,
        ServiceDay::SecondAfter => last_departure(ride) <= LATEST - 2 * DAY,
    }
}

// The event with its times moved by so many seconds.
fn moved(event: &Event, secs: i32) -> Event
    requires event { IsDayEvent event.now }
    requires back { negsuc 999999 ≤ℤ secs }
    requires on { secs ≤ℤ pos 999999 }
    ensures { result ≡ moved secs event.now }
{
    Event {
        stop: event.stop,
        arr: event.arr + secs,
        dep: event.dep + secs,
        board: event.board,
        alight: event.alight,
    }
}

/// The events with all times moved by so many seconds.
pub(crate) fn moved_ride(alloc: Global, ride: &[Event], secs: i32) -> Result<Vec<Event>, Memory>
    requires events { All IsDayEvent ride.now }
    requires back { negsuc 999999 ≤ℤ secs }
    requires on { secs ≤ℤ pos 999999 }
    ensures { IfOk result (λ events. events.items ≡ map (moved secs) ride.now) }
{
    let mut events: Vec<Event> = Vec::with_capacity(alloc, ride.len())?;
    for event in ride {
        events.push(moved(event, secs))?;
    }
    Ok(events)
}

/// The seconds by which a trip is moved that starts at a time, in the reckoning of its own day.
pub(crate) fn to_start(ride: &[Event], start: u32) -> i32
    requires ride { IsRide ride.now }
    requires start { start ≤ 359999 }
    ensures secs { result ≡ pos start -ℤ first_departure ride.now }
    ensures back { negsuc 359999 ≤ℤ result }
    ensures on { result ≤ℤ pos 359999 }
{
    start as i32 - first_departure(ride)
}

/// The seconds by which a trip of a service day is moved that starts at a time, told as times of the
/// date.
pub(crate) fn shift(ride: &[Event], start: u32, day: ServiceDay) -> i32
    requires ride { IsRide ride.now }
    requires start { start ≤ 359999 }
    ensures shift { result ≡ shift day ride.now start }
    ensures back { negsuc 999999 ≤ℤ result }
    ensures on { result ≤ℤ pos 999999 }
{
    to_start(ride, start) + day_shift(day)
}

/// The seconds that times of a service day gain when they are told as times of the date.
pub(crate) fn day_shift(day: ServiceDay) -> i32
    ensures shift { result ≡ seconds_after day }
    ensures back { negsuc 86399 ≤ℤ result }
    ensures on { result ≤ℤ pos 172800 }
{
    day.seconds_after()
}

/// The starts with which a timetable shows a trip of a service day: of the date all, of the day
/// before those with which it still arrives after midnight, of a later day those with which it is
/// over in time.
pub(crate) fn shown_starts(ride: &[Event], day: ServiceDay) -> StartSpan
    requires { IsRide ride.now }
    ensures { (start : ℕ) → is_in result start ≡ is_shown day (starting_at ride.now start) }
{
    match day {
        ServiceDay::Before => StartSpan::From(least_start(ride)),
        ServiceDay::Date => StartSpan::From(0),
        ServiceDay::After => StartSpan::Until(late_start(ride, day)),
        ServiceDay::SecondAfter => StartSpan::Until(late_start(ride, day)),
    }
}

// The least start with which a trip arrives after its day.
fn least_start(ride: &[Event]) -> u32
    requires { IsRide ride.now }
    ensures { IsFromZero (pos 86400 +ℤ first_departure ride.now -ℤ last_arrival ride.now) result }
{
    let time = midnight_start(ride);
    if time > 0 { time.unsigned_abs() } else { 0 }
}

// The start with which a trip arrives at midnight, after its day.
fn midnight_start(ride: &[Event]) -> Sec
    requires { IsRide ride.now }
    ensures { result ≡ pos 86400 +ℤ first_departure ride.now -ℤ last_arrival ride.now }
{
    DAY + first_departure(ride) - last_arrival(ride)
}

// The least start with which a trip of a service day is over too late.
fn late_start(ride: &[Event], day: ServiceDay) -> u32
    requires { IsRide ride.now }
    ensures { IsFromZero
        (pos 360000 -ℤ seconds_after day +ℤ first_departure ride.now -ℤ last_departure ride.now)
        result }
{
    let time = end_start(ride, day);
    if time > 0 { time.unsigned_abs() } else { 0 }
}

// The start with which a trip of a service day departs from its last stop a second too late.
fn end_start(ride: &[Event], day: ServiceDay) -> Sec
    requires { IsRide ride.now }
    ensures { result
        ≡ pos 360000 -ℤ seconds_after day +ℤ first_departure ride.now -ℤ last_departure ride.now }
{
    LATEST + 1 - day_shift(day) + begin_of(ride) - end_of(ride)
}

// The departure of a trip from its first stop, which is a time of a day.
fn begin_of(ride: &[Event]) -> Sec
    requires { IsRide ride.now }
    ensures begin { result ≡ first_departure ride.now }
    ensures least { pos 0 ≤ℤ result }
    ensures most { result ≤ℤ pos 359999 }
{
    first_departure(ride)
}

// The departure of a trip from its last stop, which is a time of a day.
fn end_of(ride: &[Event]) -> Sec
    requires { IsRide ride.now }
    ensures end { result ≡ last_departure ride.now }
    ensures least { pos 0 ≤ℤ result }
    ensures most { result ≤ℤ pos 359999 }
{
    last_departure(ride)
}
