//! The latest departures by a time, and what the profile says of them.
ghost use Rattle.std.specs.Prelude.{◌≡◌, ◌<◌, ◌≤ℤ◌, All, IfOk, length, pos};
ghost use Rattle.edition_store.specs.Mirror.{IsMirror};
ghost use Rattle.tb_base.specs.BestValues.{QueryData};
ghost use Rattle.tb_base.specs.Profiles.{WindowData};

use super::claims::{claim, verdict_on};
use super::tally::AnswersTally;
use crate::comparing::refused::{Difference, Refused, held};
use crate::ways::{asked_by_rounds, departures_by, offers_of};
use arrive_by::{Arrival, Departure};
use edition_store::Edition;
use journey_read::{Claimed, Verdict};
use segment_queue::Desk;
use std::alloc::Global;
use tb_base::{Choice, Memory, Offer, Query, Rule, Sec, Timetable, Value, Window};

// Nothing leaves so early.
const FIRST: Sec = -200_000;

// A departure without its legs.
#[derive(Clone, Copy, PartialEq, Eq)]
struct Leaving {
    leave: Sec,
    rides: u32,
}

// A query that asks for the ends of an arrival, at a time.
fn query_at(alloc: Global, by: &Arrival, leave: Sec) -> Result<Query, Memory>
    ensures from { IfOk result (λ query. QueryData.from query ≡ by.now.from) }
    ensures to { IfOk result (λ query. QueryData.to query ≡ by.now.to) }
    ensures leave { IfOk result (λ query. QueryData.leave query ≡ leave) }
{
    Ok(Query {
        from: Vec::from_slice(alloc, by.from.as_slice())?,
        to: Vec::from_slice(alloc, by.to.as_slice())?,
        leave,
    })
}

// The choices that leave at the time, by plain rounds.
fn choices_at(alloc: Global, table: &Timetable, by: &Arrival) -> Result<Vec<Choice>, Memory>
    requires origins { All (λ p. p < length table.now.stops) by.now.from }
    requires targets { All (λ p. p < length table.now.stops) by.now.to }
    requires latest { by.now.by ≤ℤ pos 273599 }
{
    let query = query_at(alloc, by, by.by)?;
    asked_by_rounds(alloc, table, &query)
}

// The departure of the walk among choices that leave at a time, so that it arrives at that time.
fn walk_among(choices: &[Choice], by: Sec) -> Option<Leaving> {
    let first = choices.first()?;
    if first.value.rides > 0 {
        return None;
    }
    let secs = first.value.arrive.saturating_sub(by);
    Some(Leaving {
        leave: by.saturating_sub(secs),
        rides: 0,
    })
}

// The departure of the shortest walk that arrives at the time, where there is a walk.
fn walk_by(alloc: Global, table: &Timetable, by: &Arrival) -> Result<Option<Leaving>, Memory>
    requires origins { All (λ p. p < length table.now.stops) by.now.from }
    requires targets { All (λ p. p < length table.now.stops) by.now.to }
    requires latest { by.now.by ≤ℤ pos 273599 }
{
    let choices = choices_at(alloc, table, by)?;
    Ok(walk_among(choices.as_slice(), by.by))
}

// The latest time at which a slot with so many rides leaves that arrives by a time.
fn latest_slot(offers: &[Offer], by: Sec, rides: u32) -> Option<Sec> {
    let mut latest = None;
    for offer in offers {
        if offer.slot.rides == rides && offer.slot.arrive <= by {
            latest = latest.max(Some(offer.slot.leave));
        }
    }
    latest
}

// The most rides of a slot.
fn most_rides(offers: &[Offer]) -> u32 {
    let mut most = 0;
    for offer in offers {
        most = offer.slot.rides.max(most);
    }
    most
}

// The latest departures by a time, as a walk and the slots of a profile say.
fn due_departures(
    alloc: Global,
    walk: Option<Leaving>,
    offers: &[Offer],
    by: Sec,
) -> Result<Vec<Leaving>, Memory> {
    let mut found: Vec<Leaving> = Vec::new(alloc);
    let mut best = None;
    if let Some(walk) = walk {
        found.push(walk)?;
        best = Some(walk.leave);
    }
    for rides in 1..most_rides(offers).saturating_add(1) {
        let latest = latest_slot(offers, by, rides);
        if let Some(leave) = latest {
            if best < latest {
                found.push(Leaving { leave, rides })?;
                best = latest;
            }
        }
    }
    Ok(found)
}

// The window of all times at which one can leave and arrive by a time.
fn window_by(alloc: Global, by: &Arrival) -> Result<Window, Memory>
    requires latest { by.now.by ≤ℤ pos 273599 }
    ensures from { IfOk result (λ window. WindowData.from window ≡ by.now.from) }
    ensures to { IfOk result (λ window. WindowData.to window ≡ by.now.to) }
    ensures last { IfOk result (λ window. WindowData.last window ≤ℤ pos 359998) }
{
    Ok(Window {
        from: Vec::from_slice(alloc, by.from.as_slice())?,
        to: Vec::from_slice(alloc, by.to.as_slice())?,
        first: FIRST,
        last: by.by,
    })
}

// What is said of a claim that leaves no earlier than a time.
fn verdict_at(
    alloc: Global,
    table: &Timetable,
    by: &Arrival,
    claimed: &Claimed,
    leave: Sec,
) -> Result<Option<Verdict>, Memory>
    requires origins { All (λ p. p < length table.now.stops) by.now.from }
    requires time { leave ≤ℤ pos 359999 }
{
    let query = query_at(alloc, by, leave)?;
    Ok(verdict_on(table, &query, claimed))
}

// Whether a verdict says that legs are a journey with so many rides that arrives by the time.
fn arrives(verdict: Option<Verdict>, by: Sec, rides: u32) -> bool {
    match verdict {
        Some(Verdict::Yes) => true,
        Some(Verdict::OtherValue(value)) => value.arrive <= by && value.rides == rides,
        _ => false,
    }
}

// Whether a verdict says that legs leave too early.
fn is_too_early(verdict: Option<Verdict>) -> bool {
    match verdict {
        Some(Verdict::Broken(broken)) => broken.rule == Rule::TooEarly,
        _ => false,
    }
}

// Whether a claim is a journey that leaves just then and arrives by the time. A walk may leave at
// any time.
fn is_claim_right(
    alloc: Global,
    table: &Timetable,
    by: &Arrival,
    claimed: &Claimed,
    leave: Sec,
) -> Result<bool, Memory>
    requires origins { All (λ p. p < length table.now.stops) by.now.from }
    requires time { leave ≤ℤ pos 359998 }
{
    let rides = claimed.value.rides;
    let then = verdict_at(alloc, table, by, claimed, leave)?;
    if !arrives(then, by.by, rides) {
        return Ok(false);
    }
    if rides == 0 {
        return Ok(true);
    }
    let later = verdict_at(alloc, table, by, claimed, leave + 1)?;
    Ok(is_too_early(later))
}

// Whether the legs of a departure are such a journey.
fn is_right(
    alloc: Global,
    table: &Timetable,
    by: &Arrival,
    departure: &Departure,
) -> Result<bool, Memory>
    requires origins { All (λ p. p < length table.now.stops) by.now.from }
{
    let value = Value {
        arrive: by.by,
        rides: departure.rides,
    };
    let claimed = claim(alloc, value, departure.legs.as_slice())?;
    is_claim_right(alloc, table, by, &claimed, departure.leave.min(359_998))
}

// Whether the legs of each departure are such a journey.
fn are_right(
    alloc: Global,
    table: &Timetable,
    by: &Arrival,
    departures: &[Departure],
) -> Result<bool, Memory>
    requires origins { All (λ p. p < length table.now.stops) by.now.from }
{
    for departure in departures {
        if !is_right(alloc, table, by, departure)? {
            return Ok(false);
        }
    }
    Ok(true)
}

// Whether departures are these.
fn are_same(departures: &[Departure], due: &[Leaving]) -> bool {
    let found = departures.iter().map(|departure| Leaving {
        leave: departure.leave,
        rides: departure.rides,
    });
    found.eq(due.iter().copied())
}

// The offers of all times at which one can leave and arrive by a time.
fn offers_by(
    alloc: Global,
    edition: &Edition,
    desk: &mut Desk,
    by: &Arrival,
) -> Result<Vec<Offer>, Memory>
    requires origins { All (λ p. p < length edition.now.table.stops) by.now.from }
    requires targets { All (λ p. p < length edition.now.table.stops) by.now.to }
    requires latest { by.now.by ≤ℤ pos 273599 }
{
    let window = window_by(alloc, by)?;
    offers_of(alloc, edition, desk, &window)
}

// The latest departures by a time, as the profile says.
fn asked_departures(
    alloc: Global,
    edition: &Edition,
    desk: &mut Desk,
    by: &Arrival,
) -> Result<Vec<Leaving>, Memory>
    requires origins { All (λ p. p < length edition.now.table.stops) by.now.from }
    requires targets { All (λ p. p < length edition.now.table.stops) by.now.to }
    requires latest { by.now.by ≤ℤ pos 273599 }
{
    let walk = walk_by(alloc, edition.table(), by)?;
    let offers = offers_by(alloc, edition, desk, by)?;
    due_departures(alloc, walk, offers.as_slice(), by.by)
}

// Holds departures by a time against those that are due.
fn compare_found(
    alloc: Global,
    table: &Timetable,
    by: &Arrival,
    departures: &[Departure],
    due: &[Leaving],
) -> Result<AnswersTally, Refused>
    requires origins { All (λ p. p < length table.now.stops) by.now.from }
{
    held(are_same(departures, due), Difference::Departures)?;
    let right = are_right(alloc, table, by, departures)?;
    held(right, Difference::Departures)?;
    Ok(AnswersTally {
        arrivals: 1,
        departures: departures.len() as u64,
        ..AnswersTally::NOTHING
    })
}

/// Holds the latest departures by a time against the profile of all times before.
pub fn compare_departures(
    alloc: Global,
    edition: &Edition,
    mirrored: &Edition,
    desk: &mut Desk,
    by: &Arrival,
) -> Result<AnswersTally, Refused>
    requires mirror { IsMirror edition.now.table mirrored.now.table }
    requires origins { All (λ p. p < length edition.now.table.stops) by.now.from }
    requires targets { All (λ p. p < length edition.now.table.stops) by.now.to }
    requires earliest { pos 0 ≤ℤ by.now.by }
    requires latest { by.now.by ≤ℤ pos 273599 }
{
    let table = edition.table();
    let due = asked_departures(alloc, edition, desk, by)?;
    let found = departures_by(alloc, mirrored, table, desk, by)?;
    compare_found(alloc, table, by, found.as_slice(), due.as_slice())
}
