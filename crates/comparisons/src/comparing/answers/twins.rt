//! Feeds with trips by frequency and trips of the day before, each held against the same trips
//! written out a day later, and against itself on the day before with the day as the day after.
ghost use Rattle.std.specs.Prelude.{◌<◌, ◌≤◌, length};

use super::profiles::SECONDS;
use super::tally::{AnswersTally, TwinTally};
use super::trial::try_all;
use crate::comparing::feed::edition_of;
use crate::comparing::refused::{Difference, Refused, held};
use crate::questions::{query, window};
use crate::reading::{Reading, timetable_of_two_days};
use crate::ways::{asked_by_rounds, offers_of, searched};
use edition_store::Edition;
use feed_maker::{DAY, Draw, twin_feed, written_out_feed};
use segment_queue::Desk;
use std::alloc::Global;
use std::thread::Threads;
use tb_base::{Choice, Memory, Offer, Sec, ServiceDay, Slot, Timetable, TripNo, Value};

// How many times are asked between each two stops.
const TIMES: u32 = 3;

// What twins draw comes from other numbers than what the feed of the same seed draws.
const OTHER: u64 = 1 << 32;

// A time a day later.
fn day_later(time: Sec) -> Sec {
    time.saturating_add(DAY as i32)
}

fn is_value_later(given: Value, written_out: Value) -> bool {
    written_out.arrive == day_later(given.arrive) && written_out.rides == given.rides
}

fn is_slot_later(given: Slot, written_out: Slot) -> bool {
    written_out.leave == day_later(given.leave)
        && written_out.arrive == day_later(given.arrive)
        && written_out.rides == given.rides
}

// Up to an hour from ten minutes before midnight on, or a second before such a time.
fn some_time(draw: &mut Draw) -> Sec {
    draw.below(60) as i32 * 60 - draw.below(2) as i32 - 600
}

// Whether the latter are the values of the former a day later.
fn are_values_later(given: &[Choice], written_out: &[Choice]) -> bool {
    given.len() == written_out.len()
        && given
            .iter()
            .zip(written_out.iter())
            .all(|(one, other)| is_value_later(one.value, other.value))
}

// Whether the latter are the slots of the former a day later.
fn are_slots_later(given: &[Offer], written_out: &[Offer]) -> bool {
    given.len() == written_out.len()
        && given
            .iter()
            .zip(written_out.iter())
            .all(|(one, other)| is_slot_later(one.slot, other.slot))
}

// The editions of a feed and of its trips written out, and the timetable that the feed has on the
// day before, of two days.
#[derive(Clone, Copy)]
struct Editions<'a> {
    given: &'a Edition,
    written_out: &'a Edition,
    two_days: &'a Timetable,
}

// The choices between two stops at a time, by the search.
fn searched_between(
    alloc: Global,
    edition: &Edition,
    desk: &mut Desk,
    from: u32,
    to: u32,
    leave: Sec,
) -> Result<Vec<Choice>, Memory>
    requires from { from < length edition.now.table.stops }
    requires to { to < length edition.now.table.stops }
{
    let query = query(alloc, edition.table(), from, to, leave)?;
    searched(alloc, edition, desk, &query)
}

// The same by plain rounds.
fn plain_between(
    alloc: Global,
    table: &Timetable,
    from: u32,
    to: u32,
    leave: Sec,
) -> Result<Vec<Choice>, Memory>
    requires from { from < length table.now.stops }
    requires to { to < length table.now.stops }
{
    let query = query(alloc, table, from, to, leave)?;
    asked_by_rounds(alloc, table, &query)
}

// Holds choices between two stops against those a day later, and says how many these are.
fn values_later(
    alloc: Global,
    later: &Timetable,
    from: u32,
    to: u32,
    leave: Sec,
    given: &[Choice],
) -> Result<u64, Refused>
    requires from { from < length later.now.stops }
    requires to { to < length later.now.stops }
{
    let choices = plain_between(alloc, later, from, to, day_later(leave))?;
    let count = choices.len() as u64;
    let same = are_values_later(given, choices.as_slice());
    drop(choices);
    held(same, Difference::WrittenOut)?;
    Ok(count)
}

// Compares the best values between two stops: the search over the given feed, and plain rounds over
// the trips that are written out, and from midnight on over those of two days, which has further
// ones that have ended by then.
fn compare_query(
    alloc: Global,
    editions: &Editions<'_>,
    desk: &mut Desk,
    from: u32,
    to: u32,
    leave: Sec,
) -> Result<TwinTally, Refused>
    requires from { from < length editions.now.given.now.table.stops }
    requires to { to < length editions.now.given.now.table.stops }
    requires from_later { from < length editions.now.written_out.now.table.stops }
    requires to_later { to < length editions.now.written_out.now.table.stops }
    requires from_days { from < length editions.now.two_days.now.stops }
    requires to_days { to < length editions.now.two_days.now.stops }
{
    let written_out = editions.written_out.table();
    let choices = searched_between(alloc, editions.given, desk, from, to, leave)?;
    let values = values_later(alloc, written_out, from, to, leave, choices.as_slice());
    let of_two_days = if leave < 0 {
        Ok(0)
    } else {
        let two_days = editions.two_days;
        values_later(alloc, two_days, from, to, leave, choices.as_slice())
    };
    drop(choices);
    of_two_days?;
    Ok(TwinTally {
        queries: 1,
        values: values?,
        ..TwinTally::NOTHING
    })
}

// The offers of a window between two stops that begins at a time.
fn offers_between(
    alloc: Global,
    edition: &Edition,
    desk: &mut Desk,
    from: u32,
    to: u32,
    first: Sec,
) -> Result<Vec<Offer>, Memory>
    requires from { from < length edition.now.table.stops }
    requires to { to < length edition.now.table.stops }
{
    let window = window(alloc, edition.table(), from, to, first, SECONDS)?;
    offers_of(alloc, edition, desk, &window)
}

// Holds offers of a window against those a day later, and says how many these are.
fn slots_later(
    alloc: Global,
    written_out: &Edition,
    desk: &mut Desk,
    from: u32,
    to: u32,
    first: Sec,
    given: &[Offer],
) -> Result<u64, Refused>
    requires from { from < length written_out.now.table.stops }
    requires to { to < length written_out.now.table.stops }
{
    let offers = offers_between(alloc, written_out, desk, from, to, day_later(first))?;
    let count = offers.len() as u64;
    let same = are_slots_later(given, offers.as_slice());
    drop(offers);
    held(same, Difference::WrittenOut)?;
    Ok(count)
}

// Compares the profiles of a window between two stops that begins at a time.
fn compare_window(
    alloc: Global,
    editions: &Editions<'_>,
    desk: &mut Desk,
    from: u32,
    to: u32,
    first: Sec,
) -> Result<TwinTally, Refused>
    requires from { from < length editions.now.given.now.table.stops }
    requires to { to < length editions.now.given.now.table.stops }
    requires from_later { from < length editions.now.written_out.now.table.stops }
    requires to_later { to < length editions.now.written_out.now.table.stops }
{
    let written_out = editions.written_out;
    let offers = offers_between(alloc, editions.given, desk, from, to, first)?;
    let slots = slots_later(alloc, written_out, desk, from, to, first, offers.as_slice());
    drop(offers);
    Ok(TwinTally {
        windows: 1,
        slots: slots?,
        ..TwinTally::NOTHING
    })
}

// Compares between two stops.
fn compare_pair(
    alloc: Global,
    editions: &Editions<'_>,
    desk: &mut Desk,
    draw: &mut Draw,
    from: u32,
    to: u32,
) -> Result<TwinTally, Refused>
    requires from { from < length editions.now.given.now.table.stops }
    requires to { to < length editions.now.given.now.table.stops }
    requires from_later { from < length editions.now.written_out.now.table.stops }
    requires to_later { to < length editions.now.written_out.now.table.stops }
    requires from_days { from < length editions.now.two_days.now.stops }
    requires to_days { to < length editions.now.two_days.now.stops }
{
    let first = some_time(draw);
    let mut tally = compare_window(alloc, editions, desk, from, to, first)?;
    for _turn in 0..TIMES {
        let leave = some_time(draw);
        tally.add(compare_query(alloc, editions, desk, from, to, leave)?);
    }
    Ok(tally)
}

// Compares from one stop to each.
fn compare_from(
    alloc: Global,
    editions: &Editions<'_>,
    desk: &mut Desk,
    draw: &mut Draw,
    from: u32,
    stops: u32,
) -> Result<TwinTally, Refused>
    requires from { from < stops }
    requires stops { stops ≤ length editions.now.given.now.table.stops }
    requires stops_later { stops ≤ length editions.now.written_out.now.table.stops }
    requires stops_days { stops ≤ length editions.now.two_days.now.stops }
{
    let mut tally = TwinTally::NOTHING;
    for to in 0..stops {
        tally.add(compare_pair(alloc, editions, desk, draw, from, to)?);
    }
    Ok(tally)
}

// Compares between all stops.
fn compare_editions(
    alloc: Global,
    editions: &Editions<'_>,
    desk: &mut Desk,
    draw: &mut Draw,
) -> Result<TwinTally, Refused> {
    let stops = editions.given.table().stop_count();
    if editions.written_out.table().stop_count() != stops
        || editions.two_days.stop_count() != stops
    {
        return Err(Refused::Differs(Difference::WrittenOut));
    }
    let mut tally = TwinTally::NOTHING;
    for from in 0..stops {
        tally.add(compare_from(alloc, editions, desk, draw, from, stops)?);
    }
    Ok(tally)
}

// How many trips run by frequency, and how many began on the day before.
fn counted_trips(table: &Timetable) -> TwinTally {
    let mut tally = TwinTally {
        feeds: 1,
        ..TwinTally::NOTHING
    };
    for t in 0..table.trip_count() {
        let trip = table.trip(TripNo(t));
        tally.add(TwinTally {
            by_frequency: u64::from(trip.name.bytes().contains(&b'#')),
            day_before: u64::from(trip.day.is(ServiceDay::Before)),
            ..TwinTally::NOTHING
        });
    }
    tally
}

// Compares all over the given feed, and it against the trips that are written out.
fn compare_twins<R: Threads + Sync>(
    rt: &R,
    alloc: Global,
    editions: &Editions<'_>,
    desk: &mut Desk,
    draw: &mut Draw,
) -> Result<AnswersTally, Refused> {
    let mut tally = try_all(rt, alloc, editions.given, desk, draw)?;
    let mut twins = counted_trips(editions.given.table());
    twins.add(compare_editions(alloc, editions, desk, draw)?);
    tally.twins = twins;
    Ok(tally)
}

// Compares all over the given feed of a seed and its trips written out, read in this way.
fn try_both<R: Threads + Sync>(
    rt: &R,
    alloc: Global,
    given: &Edition,
    written_out: &Edition,
    reading: Reading,
    desk: &mut Desk,
    draw: &mut Draw,
    seed: u64,
) -> Result<AnswersTally, Refused> {
    let files = twin_feed(alloc, &mut Draw::new(seed))?;
    match timetable_of_two_days(alloc, files, reading) {
        Ok(two_days) => {
            let editions = Editions {
                given,
                written_out,
                two_days: &two_days,
            };
            let compared = compare_twins(rt, alloc, &editions, desk, draw);
            drop(two_days);
            compared
        }
        Err(unread) => Err(unread.into()),
    }
}

// Compares all over the given feed of a seed, read in this way.
fn try_given<R: Threads + Sync>(
    rt: &R,
    alloc: Global,
    given: &Edition,
    reading: Reading,
    desk: &mut Desk,
    draw: &mut Draw,
    seed: u64,
) -> Result<AnswersTally, Refused> {
    let files = written_out_feed(alloc, &mut Draw::new(seed))?;
    match edition_of(rt, alloc, files, reading) {
        Ok(edition) => {
            let compared = try_both(rt, alloc, given, &edition, reading, desk, draw, seed);
            drop(edition);
            compared
        }
        Err(refused) => Err(refused),
    }
}

/// Compares all over the twins of a seed.
pub fn try_twins<R: Threads + Sync>(
    rt: &R,
    alloc: Global,
    desk: &mut Desk,
    seed: u32,
) -> Result<AnswersTally, Refused> {
    let seed = seed as u64 + OTHER;
    let mut draw = Draw::new(seed);
    let files = twin_feed(alloc, &mut draw)?;
    let reading = Reading::drawn(&mut draw);
    match edition_of(rt, alloc, files, reading) {
        Ok(given) => {
            let compared = try_given(rt, alloc, &given, reading, desk, &mut draw, seed);
            drop(given);
            compared
        }
        Err(refused) => Err(refused),
    }
}
