//! What the words of a line claim.
ghost use Rattle.std.specs.Prelude.{◌≡◌};
ghost use Rattle.journey_read.specs.Claims.{ends_of, leg_of, ride_named, ride_claimed, stop_named, stop_of, value_claimed, value_shown, walk_between, walk_of};

use crate::claim::JourneyFault;
use crate::indexed_timetable::IndexedTimetable;
use crate::rides::Ends;
use crate::times::shown_time_of;
use gtfs_rows::number_of;
use tb_base::{Leg, Name, Place, ServiceDay, StopNo, Timetable, Value};

// The stop with a name.
fn stop_named(table: &Timetable, name: &[u8]) -> Option<StopNo>
    ensures { result ≡ stop_named table.now name.now }
{
    let place = table.place(name)?;
    match &place {
        Place::Stop(p) => Some(StopNo(p.0)),
        Place::Station(_) => None,
    }
}

// The stop that a line names.
fn stop_of(table: &Timetable, line: u32, name: &[u8]) -> Result<StopNo, JourneyFault>
    ensures { result ≡ stop_of table.now line name.now }
{
    stop_named(table, name).ok_or(JourneyFault::UnknownStop(line))
}

/// The walk that a line claims, by the names of its stops and its seconds in digits.
pub(crate) fn walk_between(
    table: &Timetable,
    line: u32,
    from: &[u8],
    to: &[u8],
    secs: &[u8],
) -> Result<Leg, JourneyFault>
    ensures { result ≡ walk_between table.now line from.now to.now secs.now }
{
    let secs = number_of(secs).ok_or(JourneyFault::BadLine(line))?;
    let from = stop_of(table, line, from)?;
    let to = stop_of(table, line, to)?;
    Ok(Leg::Walk { from, to, secs })
}

// STOP STOP SECONDS.
fn walk_of(table: &Timetable, line: u32, words: &[Name]) -> Result<Leg, JourneyFault>
    ensures { result ≡ walk_of table.now line words.now }
{
    let [from, to, secs] = words else {
        return Err(JourneyFault::BadLine(line));
    };
    walk_between(table, line, from.bytes(), to.bytes(), secs.bytes())
}

/// Where and when a ride begins and ends that a line claims, by the names of its stops and by its
/// times as they are shown.
pub(crate) fn ends_of(
    table: &Timetable,
    line: u32,
    from: &[u8],
    departure: &[u8],
    to: &[u8],
    arrival: &[u8],
) -> Result<Ends, JourneyFault>
    ensures { result ≡ ends_of table.now line from.now departure.now to.now arrival.now }
{
    let departure = shown_time_of(departure).ok_or(JourneyFault::BadLine(line))?;
    let arrival = shown_time_of(arrival).ok_or(JourneyFault::BadLine(line))?;
    let from = stop_of(table, line, from)?;
    let to = stop_of(table, line, to)?;
    Ok(Ends {
        from,
        departure,
        to,
        arrival,
    })
}

/// The ride that a line claims between these ends, on a trip with this name and service day.
pub(crate) fn ride_named(
    table: &IndexedTimetable<'_>,
    line: u32,
    trip: &[u8],
    day: ServiceDay,
    ends: &Ends,
) -> Result<Leg, JourneyFault>
    ensures { result ≡ ride_named table.now line trip.now day ends.now }
{
    ends.ride(table, trip, day)
        .ok_or(JourneyFault::NoSuchRide(line))
}

// TRIP STOP TIME STOP TIME, or the same and a service day.
fn ride_of(table: &IndexedTimetable<'_>, line: u32, words: &[Name]) -> Result<Leg, JourneyFault>
    ensures { result ≡ ride_claimed table.now line words.now }
{
    let [trip, from, departure, to, arrival, marks @ ..] = words else {
        return Err(JourneyFault::BadLine(line));
    };
    let day = ServiceDay::by_words(marks).ok_or(JourneyFault::BadLine(line))?;
    let ends = ends_of(
        table.table(),
        line,
        from.bytes(),
        departure.bytes(),
        to.bytes(),
        arrival.bytes(),
    )?;
    ride_named(table, line, trip.bytes(), day, &ends)
}

/// The leg that a line claims: `walk STOP STOP SECONDS`, `ride TRIP STOP TIME STOP TIME`, or the
/// latter with `day-before`, `day-after` or `day+2` behind it.
pub(crate) fn leg_of(
    table: &IndexedTimetable<'_>,
    line: u32,
    words: &[Name],
) -> Result<Leg, JourneyFault>
    ensures { result ≡ leg_of table.now line words.now }
{
    match words {
        [] => Err(JourneyFault::BadLine(line)),
        [word, rest @ ..] => {
            if word.bytes() == b"walk".as_slice() {
                walk_of(table.table(), line, rest)
            } else if word.bytes() == b"ride".as_slice() {
                ride_of(table, line, rest)
            } else {
                Err(JourneyFault::BadLine(line))
            }
        }
    }
}

/// TIME and N, as a value.
pub(crate) fn value_shown(time: &[u8], count: &[u8]) -> Option<Value>
    ensures { result ≡ value_shown time.now count.now }
{
    let arrive = shown_time_of(time)?;
    let rides = number_of(count)?;
    Some(Value { arrive, rides })
}

/// The value that a line claims: `arrive TIME rides N`.
pub(crate) fn value_of(words: &[Name]) -> Option<Value>
    ensures { result ≡ value_claimed words.now }
{
    let [arrive, time, rides, count] = words else {
        return None;
    };
    if arrive.bytes() == b"arrive".as_slice() && rides.bytes() == b"rides".as_slice() {
        value_shown(time.bytes(), count.bytes())
    } else {
        None
    }
}
