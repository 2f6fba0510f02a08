//! Choices that are judged as claims, and claims that differ from one in a single field.
ghost use Rattle.std.specs.Prelude.{◌<◌, ◌≤ℤ◌, pos, All, length};

use journey_read::{Claimed, Verdict, fault, judge};
use std::alloc::Global;
use tb_base::{Choice, Leg, Memory, Query, Sec, StopNo, Timetable, TripNo, Value};

// Legs are numbered below this.
const MOST_LEGS: u64 = 4_294_967_296;

/// A claim of a value by legs.
pub fn claim(alloc: Global, value: Value, legs: &[Leg]) -> Result<Claimed, Memory> {
    Ok(Claimed {
        value,
        legs: Vec::from_slice(alloc, legs)?,
    })
}

/// What is said of a claim; nothing of one with more legs than can be numbered.
pub fn verdict_on(table: &Timetable, query: &Query, claimed: &Claimed) -> Option<Verdict>
    requires origins { All (λ p. p < length table.now.stops) query.now.from }
    requires time { query.now.leave ≤ℤ pos 359999 }
{
    if claimed.legs.len() as u64 >= MOST_LEGS {
        return None;
    }
    Some(judge(table, query, claimed))
}

// When a trip arrives at an index, where it has that.
fn arrival(table: &Timetable, trip: TripNo, at: u32) -> Option<Sec> {
    if trip.0 >= table.trip_count() {
        return None;
    }
    match table.events(trip).get(at as usize) {
        Some(event) => Some(event.arr),
        None => None,
    }
}

// The value of legs that are gone from a time on, where each has an end.
fn value_of(table: &Timetable, leave: Sec, legs: &[Leg]) -> Option<Value> {
    let mut arrive = leave;
    let mut rides: u32 = 0;
    for leg in legs {
        match leg {
            Leg::Walk { secs, .. } => {
                arrive = arrive.saturating_add(i32::try_from(*secs).ok()?);
            }
            Leg::Ride { trip, alight, .. } => {
                arrive = arrival(table, *trip, *alight)?;
                rides = rides.saturating_add(1);
            }
        }
    }
    Some(Value { arrive, rides })
}

// What has to be said of a claim, by the rules and by the values of legs.
fn due_verdict(table: &Timetable, query: &Query, claimed: &Claimed) -> Option<Verdict>
    requires origins { All (λ p. p < length table.now.stops) query.now.from }
{
    let legs = claimed.legs.as_slice();
    if legs.len() as u64 >= MOST_LEGS {
        return None;
    }
    if let Some(broken) = fault(table, query, legs) {
        return Some(Verdict::Broken(broken));
    }
    let value = value_of(table, query.leave, legs)?;
    if value == claimed.value {
        return Some(Verdict::Yes);
    }
    Some(Verdict::OtherValue(value))
}

// The value of a claim's legs by what is said of it, where they spell a journey.
fn said_value(verdict: Verdict, claimed: &Claimed) -> Option<Value> {
    match verdict {
        Verdict::Yes => Some(claimed.value),
        Verdict::OtherValue(value) => Some(value),
        Verdict::Broken(_) => None,
    }
}

// Whether some best value arrives no later with no more rides.
fn is_no_better(value: Value, best: &[Choice]) -> bool {
    best.iter().any(|choice| choice.value.arrive <= value.arrive
        && choice.value.rides <= value.rides)
}

// Whether what is said of a claim is what has to be said, and its journey no better than the best.
fn is_judged(table: &Timetable, query: &Query, claimed: &Claimed, best: &[Choice]) -> bool
    requires origins { All (λ p. p < length table.now.stops) query.now.from }
    requires time { query.now.leave ≤ℤ pos 359999 }
{
    let due = due_verdict(table, query, claimed);
    let Some(said) = verdict_on(table, query, claimed) else {
        return false;
    };
    if due != Some(said) {
        return false;
    }
    match said_value(said, claimed) {
        Some(value) => is_no_better(value, best),
        None => true,
    }
}

// Values that differ from another in one field.
fn other_values(value: Value) -> [Value; 4] {
    let Value { arrive, rides } = value;
    [
        Value {
            arrive: arrive.saturating_add(1),
            rides,
        },
        Value {
            arrive: arrive.saturating_sub(1),
            rides,
        },
        Value {
            arrive,
            rides: rides.wrapping_add(1),
        },
        Value {
            arrive,
            rides: rides.wrapping_sub(1),
        },
    ]
}

// Walks that differ from another in one field.
fn other_walks(from: u32, to: u32, secs: u32) -> [Leg; 6] {
    let walk = |from, to, secs| Leg::Walk {
        from: StopNo(from),
        to: StopNo(to),
        secs,
    };
    [
        walk(from.wrapping_add(1), to, secs),
        walk(from.wrapping_sub(1), to, secs),
        walk(from, to.wrapping_add(1), secs),
        walk(from, to.wrapping_sub(1), secs),
        walk(from, to, secs.wrapping_add(1)),
        walk(from, to, secs.wrapping_sub(1)),
    ]
}

// Rides that differ from another in one field.
fn other_rides(trip: u32, board: u32, alight: u32) -> [Leg; 6] {
    let ride = |trip, board, alight| Leg::Ride {
        trip: TripNo(trip),
        board,
        alight,
    };
    [
        ride(trip.wrapping_add(1), board, alight),
        ride(trip.wrapping_sub(1), board, alight),
        ride(trip, board.wrapping_add(1), alight),
        ride(trip, board.wrapping_sub(1), alight),
        ride(trip, board, alight.wrapping_add(1)),
        ride(trip, board, alight.wrapping_sub(1)),
    ]
}

// Legs that differ from another in one field.
fn other_legs(leg: Leg) -> [Leg; 6] {
    match leg {
        Leg::Walk { from, to, secs } => other_walks(from.0, to.0, secs),
        Leg::Ride {
            trip,
            board,
            alight,
        } => other_rides(trip.0, board, alight),
    }
}

// The claim of a choice with another leg at a place, where it has that.
fn with_leg(alloc: Global, choice: &Choice, at: usize, leg: Leg) -> Result<Claimed, Memory> {
    let mut claimed = claim(alloc, choice.value, choice.legs.as_slice())?;
    if let Some(place) = claimed.legs.get_mut(at) {
        *place = leg;
    }
    Ok(claimed)
}

// Adds the claims that differ from a choice in one field.
fn add_claims(alloc: Global, choice: &Choice, claims: &mut Vec<Claimed>) -> Result<(), Memory> {
    for value in other_values(choice.value) {
        claims.push(claim(alloc, value, choice.legs.as_slice())?)?;
    }
    for (at, leg) in choice.legs.iter().enumerate() {
        for other in other_legs(*leg) {
            claims.push(with_leg(alloc, choice, at, other)?)?;
        }
    }
    Ok(())
}

// The claims that differ from one of these choices in one field.
fn claims_beside(alloc: Global, choices: &[Choice]) -> Result<Vec<Claimed>, Memory> {
    let mut claims = Vec::new(alloc);
    for choice in choices {
        add_claims(alloc, choice, &mut claims)?;
    }
    Ok(claims)
}

// Whether each claim is judged as it has to be.
fn are_judged(table: &Timetable, query: &Query, claims: &[Claimed], best: &[Choice]) -> bool
    requires origins { All (λ p. p < length table.now.stops) query.now.from }
    requires time { query.now.leave ≤ℤ pos 359999 }
{
    for claimed in claims {
        if !is_judged(table, query, claimed, best) {
            return false;
        }
    }
    true
}

/// How many claims differ from one of these choices, the best, in one field, and none where one of
/// them isn't judged as rules and values say, or is better.
pub fn judged_claims(
    alloc: Global,
    table: &Timetable,
    query: &Query,
    best: &[Choice],
) -> Result<Option<usize>, Memory>
    requires origins { All (λ p. p < length table.now.stops) query.now.from }
    requires time { query.now.leave ≤ℤ pos 359999 }
{
    let claims = claims_beside(alloc, best)?;
    let judged = are_judged(table, query, claims.as_slice(), best);
    Ok(if judged { Some(claims.len()) } else { None })
}
