//! A claim as JSON.
ghost use Rattle.std.specs.Prelude.{◌≡◌, ◌<◌, ◌≤◌, ◌^◌, IfOk, codes, length, option_and_then, option_map};
ghost use Rattle.json.specs.Find.{as_array, get};
ghost use Rattle.json.specs.Value.{items_view, value_view};
ghost use Rattle.tb_base.specs.Refusals.{Yields};
ghost use Rattle.journey_read.specs.JsonClaims.{day_in, day_numbered, json_claim, json_claim_of, json_ends, json_leg, json_legs, json_ride, json_value, json_walk, number_at, text_at};

use crate::claim::{Claimed, JourneyFault};
use crate::indexed_timetable::IndexedTimetable;
use crate::legs::{ends_of, ride_named, value_shown, walk_between};
use crate::reader::MOST_BYTES;
use crate::rides::Ends;
use json::{Error, Scratch, Value as Json};
use std::alloc::Global;
use tb_base::{Leg, Refused, ServiceDay, Timetable, Value};

// The text of a member that is a string.
fn text_at<'a>(object: &Json<'a>, name: &str) -> Option<&'a [u8]>
    ensures { option_map (λ text. text.now) result ≡ text_at name.now (value_view object.now) }
{
    let text = object.get(name)?.as_str()?;
    Some(text.as_bytes())
}

// The text of a member that is a number.
fn number_at<'a>(object: &Json<'a>, name: &str) -> Option<&'a [u8]>
    ensures { option_map (λ text. text.now) result ≡ number_at name.now (value_view object.now) }
{
    let text = object.get(name)?.as_number()?;
    Some(text.as_bytes())
}

// A walk.
fn walk_of(table: &Timetable, line: u32, leg: &Json<'_>) -> Result<Leg, JourneyFault>
    ensures { result ≡ json_walk table.now line (value_view leg.now) }
{
    let from = text_at(leg, "from").ok_or(JourneyFault::BadLine(line))?;
    let to = text_at(leg, "to").ok_or(JourneyFault::BadLine(line))?;
    let secs = number_at(leg, "seconds").ok_or(JourneyFault::BadLine(line))?;
    walk_between(table, line, from, to, secs)
}

// Where and when a ride begins and ends.
fn json_ends(table: &Timetable, line: u32, leg: &Json<'_>) -> Result<Ends, JourneyFault>
    ensures { result ≡ json_ends table.now line (value_view leg.now) }
{
    let from = text_at(leg, "from").ok_or(JourneyFault::BadLine(line))?;
    let departure = text_at(leg, "departure").ok_or(JourneyFault::BadLine(line))?;
    let to = text_at(leg, "to").ok_or(JourneyFault::BadLine(line))?;
    let arrival = text_at(leg, "arrival").ok_or(JourneyFault::BadLine(line))?;
    ends_of(table, line, from, departure, to, arrival)
}

// The service day that a number names, in days after the date.
fn day_numbered(number: &[u8]) -> Option<ServiceDay>
    ensures { result ≡ day_numbered number.now }
{
    if number == b"-1".as_slice() {
        Some(ServiceDay::Before)
    } else if number == b"1".as_slice() {
        Some(ServiceDay::After)
    } else if number == b"2".as_slice() {
        Some(ServiceDay::SecondAfter)
    } else {
        None
    }
}

// The service day of a ride's trip: the date where there is no such member.
fn day_in(leg: &Json<'_>) -> Option<ServiceDay>
    ensures { result ≡ day_in (get (codes "day") (value_view leg.now)) }
{
    match leg.get("day") {
        None => Some(ServiceDay::Date),
        Some(day) => day_numbered(day.as_number()?.as_bytes()),
    }
}

// A ride on a trip.
fn ride_of(
    table: &IndexedTimetable<'_>,
    line: u32,
    trip: &Json<'_>,
    leg: &Json<'_>,
) -> Result<Leg, JourneyFault>
    ensures { result ≡ json_ride table.now line (value_view trip.now) (value_view leg.now) }
{
    let name = trip.as_str().ok_or(JourneyFault::BadLine(line))?;
    let day = day_in(leg).ok_or(JourneyFault::BadLine(line))?;
    let ends = json_ends(table.table(), line, leg)?;
    ride_named(table, line, name.as_bytes(), day, &ends)
}

// A leg.
fn json_leg(table: &IndexedTimetable<'_>, line: u32, leg: &Json<'_>) -> Result<Leg, JourneyFault>
    ensures { result ≡ json_leg table.now line (value_view leg.now) }
{
    match leg.get("trip") {
        None => walk_of(table.table(), line, leg),
        Some(trip) => ride_of(table, line, trip, leg),
    }
}

// The legs of an array.
fn json_legs(
    alloc: Global,
    table: &IndexedTimetable<'_>,
    items: &[Json<'_>],
) -> Result<Vec<Leg>, Refused<JourneyFault>>
    requires { length items.now ≤ 1048576 }
    ensures legs { Yields result (λ legs. legs.items)
        (json_legs table.now 2 (items_view items.now)) }
    ensures count { IfOk result (λ legs. length legs.items ≤ length items.now) }
{
    let mut legs: Vec<Leg> = Vec::new(alloc);
    for at in 0..items.len() {
        let leg = match json_leg(table, at as u32 + 2, &items[at]) {
            Ok(leg) => leg,
            Err(fault) => return Err(Refused::Fault(fault)),
        };
        if legs.push(leg).is_err() {
            return Err(Refused::Memory);
        }
    }
    Ok(legs)
}

// The value.
fn json_value(claim: &Json<'_>) -> Option<Value>
    ensures { result ≡ json_value (value_view claim.now) }
{
    let time = text_at(claim, "arrive")?;
    let count = number_at(claim, "rides")?;
    value_shown(time, count)
}

// The items of a member that is an array.
fn items_at<'v, 'a>(object: &'v Json<'a>, name: &str) -> Option<&'v [Json<'a>]>
    ensures { option_map (λ items. items_view items.now) result
        ≡ option_and_then as_array (get name.now (value_view object.now)) }
{
    match object.get(name)? {
        Json::Array(items) => Some(items.as_slice()),
        _ => None,
    }
}

// The claim.
fn json_claim(
    alloc: Global,
    table: &Timetable,
    claim: &Json<'_>,
) -> Result<Claimed, Refused<JourneyFault>>
    ensures claim { Yields result (λ c. c) (json_claim table.now (value_view claim.now)) }
    ensures count { IfOk result (λ c. length c.legs < 2 ^ 32) }
{
    let Some(value) = json_value(claim) else {
        return Err(Refused::Fault(JourneyFault::BadLine(1)));
    };
    let Some(items) = items_at(claim, "legs") else {
        return Err(Refused::Fault(JourneyFault::BadLine(1)));
    };
    // A text has no more items than bytes.
    if items.len() > MOST_BYTES {
        return Err(Refused::Memory);
    }
    let indexed = IndexedTimetable::new(alloc, table)?;
    let legs = json_legs(alloc, &indexed, items)?;
    Ok(Claimed { value, legs })
}

/// The journey that a JSON text claims, or exactly its first fault: one JSON value in UTF-8, an
/// object with `arrive`, `rides` and `legs`, as `ask` and `profile` write it. A leg with a `trip` is
/// a ride, with `from`, `departure`, `to` and `arrival` beside it, and `"day":N`, N being -1, 1 or 2,
/// where its trip's service day is N days after the date; each other one a walk, with `from`, `to`
/// and `seconds`. Names, times and numbers are read as in the lines of `read_journey`, and other
/// members are passed over; of members with one name the last counts. The value is line 1 and each
/// leg a line after it; what is no JSON is bad at line 0.
pub fn read_json_journey(
    alloc: Global,
    table: &Timetable,
    bytes: &[u8],
) -> Result<Claimed, Refused<JourneyFault>>
    ensures claim { Yields result (λ c. c) (json_claim_of table.now bytes.now) }
    ensures count { IfOk result (λ c. length c.legs < 2 ^ 32) }
{
    if bytes.len() > MOST_BYTES {
        return Err(Refused::Fault(JourneyFault::TooLong));
    }
    let mut scratch = Scratch::new(alloc);
    match Json::from_slice(alloc, bytes, &mut scratch) {
        Ok(claim) => json_claim(alloc, table, &claim),
        Err(Error::Invalid) => Err(Refused::Fault(JourneyFault::BadLine(0))),
        Err(_) => Err(Refused::Memory),
    }
}
