//! Travel times over several departures, by one sweep and by asking at each departure alone.
ghost use Rattle.std.specs.Prelude.{◌<◌, ◌≤◌, ◌≤ℤ◌, All, length, pos};

use super::tally::AnswersTally;
use crate::comparing::refused::{Difference, Refused, held};
use crate::ways::{reached, travelled};
use edition_store::Edition;
use reach_all::{Departures, Figures, TravelTimes};
use segment_queue::Desk;
use std::alloc::Global;
use tb_base::{Memory, Sec, StopNo, Value};

/// The most departures that are compared.
pub const MOST: u32 = 16;

const LAST: Sec = 359_999;

// The travel time by the best values to a stop, with no more rides than the limit.
fn time_by(values: &[Value], rides: Option<u32>, leave: Sec) -> Option<Sec> {
    let most = rides.unwrap_or(u32::MAX);
    let mut least: Option<Sec> = None;
    for value in values {
        if value.rides <= most {
            let time = value.arrive.saturating_sub(leave);
            least = Some(least.unwrap_or(time).min(time));
        }
    }
    least
}

// The travel times to all stops by the best values to them.
fn times_by(
    alloc: Global,
    lists: &[Vec<Value>],
    rides: Option<u32>,
    leave: Sec,
) -> Result<Vec<Option<Sec>>, Memory> {
    let mut times = Vec::new(alloc);
    for values in lists {
        times.push(time_by(values.as_slice(), rides, leave))?;
    }
    Ok(times)
}

// The travel times to all stops at one departure.
fn times_at(
    alloc: Global,
    edition: &Edition,
    desk: &mut Desk,
    from: &[StopNo],
    rides: Option<u32>,
    leave: Sec,
) -> Result<Vec<Option<Sec>>, Memory>
    requires origins { All (λ p. p < length edition.now.table.stops) from.now }
    requires leave { leave ≤ℤ pos 359999 }
{
    let lists = reached(alloc, edition, desk, from, leave)?;
    let times = times_by(alloc, lists.as_slice(), rides, leave);
    drop(lists);
    times
}

// The travel times to all stops, one list a departure.
fn times_of(
    alloc: Global,
    edition: &Edition,
    desk: &mut Desk,
    from: &[StopNo],
    departures: &Departures,
    rides: Option<u32>,
) -> Result<Vec<Vec<Option<Sec>>>, Memory>
    requires { All (λ p. p < length edition.now.table.stops) from.now }
{
    let mut lists = Vec::new(alloc);
    for turn in 0..MOST {
        let seconds = turn.saturating_mul(departures.step);
        let after = if seconds <= 360_000 {
            seconds as i32
        } else {
            360_000
        };
        let leave = departures.first.saturating_add(after);
        if leave <= departures.last && leave <= LAST {
            lists.push(times_at(alloc, edition, desk, from, rides, leave)?)?;
        }
    }
    Ok(lists)
}

// The travel time to a stop in a list, none where there is none.
fn time_in(times: &[Option<Sec>], stop: u32) -> Option<Sec> {
    match times.get(stop as usize) {
        Some(time) => *time,
        None => None,
    }
}

// How many departures reach a stop within a time.
fn count_within(lists: &[Vec<Option<Sec>>], stop: u32, most: Sec) -> u64 {
    let mut count: u64 = 0;
    for times in lists {
        if let Some(time) = time_in(times.as_slice(), stop) {
            if time <= most {
                count = count.wrapping_add(1);
            }
        }
    }
    count
}

// The least travel time within which so many departures reach a stop.
fn ranked(lists: &[Vec<Option<Sec>>], stop: u32, rank: u64) -> Option<Sec> {
    let mut least: Option<Sec> = None;
    for times in lists {
        if let Some(time) = time_in(times.as_slice(), stop) {
            if count_within(lists, stop, time) >= rank {
                least = Some(least.unwrap_or(time).min(time));
            }
        }
    }
    least
}

// The least number that is no less than so many percent of some.
fn rank_of(percent: u64, count: u64) -> u64 {
    for rank in 0..count {
        if rank.saturating_mul(100) >= percent.saturating_mul(count) {
            return rank;
        }
    }
    count
}

// Whether these are the figures of a stop.
fn are_figures(lists: &[Vec<Option<Sec>>], stop: u32, figures: &Figures) -> bool {
    let count = lists.len() as u64;
    figures.reached as u64 == count_within(lists, stop, Sec::MAX)
        && figures.least == ranked(lists, stop, 1)
        && figures.percentile_5 == ranked(lists, stop, rank_of(5, count))
        && figures.percentile_25 == ranked(lists, stop, rank_of(25, count))
        && figures.percentile_50 == ranked(lists, stop, rank_of(50, count))
        && figures.percentile_75 == ranked(lists, stop, rank_of(75, count))
        && figures.percentile_95 == ranked(lists, stop, rank_of(95, count))
        && figures.greatest == ranked(lists, stop, count)
}

// Whether these are the figures of all stops.
fn are_travel_times(lists: &[Vec<Option<Sec>>], travel: &TravelTimes) -> bool {
    let mut stop: u32 = 0;
    for figures in travel.figures.as_slice() {
        if !are_figures(lists, stop, figures) {
            return false;
        }
        stop = stop.wrapping_add(1);
    }
    travel.departures as usize == lists.len()
}

/// Holds the travel times to every stop over several departures, at most `MOST`, against asking at
/// each of them alone.
pub fn compare_travel(
    alloc: Global,
    edition: &Edition,
    desk: &mut Desk,
    from: &[StopNo],
    departures: &Departures,
    rides: Option<u32>,
) -> Result<AnswersTally, Refused>
    requires origins { All (λ p. p < length edition.now.table.stops) from.now }
    requires first { pos 0 ≤ℤ departures.now.first }
    requires order { departures.now.first ≤ℤ departures.now.last }
    requires last { departures.now.last ≤ℤ pos 359999 }
    requires step { 1 ≤ departures.now.step }
    requires most_step { departures.now.step ≤ 3600 }
{
    let travel = travelled(alloc, edition, desk, from, departures, rides)?;
    let lists = times_of(alloc, edition, desk, from, departures, rides)?;
    let same = are_travel_times(lists.as_slice(), &travel);
    let count = travel.figures.len() as u64;
    drop(lists);
    drop(travel);
    held(same, Difference::Times)?;
    Ok(AnswersTally {
        times: count,
        ..AnswersTally::NOTHING
    })
}
