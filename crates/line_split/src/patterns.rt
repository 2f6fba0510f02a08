//! Trips of one pattern of stops and marks have one number.
ghost use Rattle.std.specs.Prelude.{◌≡◌, ◌+◌, ◌<◌, ◌≤◌, ◌^◌, All, IfOk, filter, length, map, slice_index_or};
ghost use Rattle.std.specs.List.{range_with_len};
ghost use Rattle.std.specs.List.Sorted.{IsSortedBy};
ghost use Rattle.tb_base.specs.TimetableData.{events_of};
ghost use Rattle.line_split.specs.Patterns.{AreNumbered, HasWholePatterns, bucket_of, compare_patterns, number_of, pattern_precedes};

use super::events::{compare_patterns, events_of, pattern_hash};
use std::alloc::Global;
use std::cmp::Ordering;
use tb_base::{Event, Memory, Timetable, TripNo};

/// For each trip the number of its pattern, behind which comes a number that is above all of them.
/// A pattern has the number of its bucket by a hash. Where several fall into one bucket, the others
/// are told apart by a search in their trips, which are sorted: no choice of stops makes it slow.
pub(crate) fn patterns_of(alloc: Global, table: &Timetable) -> Result<(Vec<usize>, usize), Memory>
    ensures { IfOk result (λ all. AreNumbered table.now all.0.items all.1) }
{
    let buckets = buckets_of(alloc, table)?;
    let first = first_of(alloc, buckets.as_slice())?;
    let others = others_of(alloc, table, buckets.as_slice(), first.as_slice())?;
    let numbers = numbers_of(
        alloc,
        table,
        buckets.as_slice(),
        first.as_slice(),
        others.as_slice(),
    )?;
    Ok((numbers, first.len() + others.len() + 1))
}

// For each trip the bucket of its pattern; there are as many as trips.
fn buckets_of(alloc: Global, table: &Timetable) -> Result<Vec<usize>, Memory>
    ensures buckets { IfOk result (λ buckets. buckets.items
        ≡ map (λ t. bucket_of (length table.now.trips) (events_of table.now t))
        (range_with_len 0 (length table.now.trips))) }
    ensures below { IfOk result (λ buckets. All (λ b. b < length table.now.trips) buckets.items) }
    ensures fits { length table.now.trips < 2 ^ 32 }
{
    let count = table.trip_count();
    let mut buckets = Vec::new(alloc);
    for trip in 0..count {
        buckets.push(bucket_of(events_of(table, TripNo(trip)), count as usize))?;
    }
    Ok(buckets)
}

/// The bucket of a pattern, of so many.
pub(crate) fn bucket_of(events: &[Event], count: usize) -> usize
    requires { 0 < count }
    ensures value { result ≡ bucket_of count events.now }
    ensures below { result < count }
{
    (pattern_hash(events) >> 32) as usize % count
}

// For each bucket a trip of it, where it has one.
fn first_of(alloc: Global, buckets: &[usize]) -> Result<Vec<TripNo>, Memory>
    requires fits { length buckets.now < 2 ^ 32 }
    requires below { All (λ b. b < length buckets.now) buckets.now }
    ensures { IfOk result (λ first. length first.items ≡ length buckets.now) }
{
    let mut first = Vec::new(alloc);
    first.resize(buckets.len(), TripNo(0))?;
    for trip in 0..buckets.len() {
        first[buckets[trip]] = TripNo(trip as u32);
    }
    Ok(first)
}

// The trips with another pattern than the trip that stands first in their bucket, by their patterns.
fn others_of(
    alloc: Global,
    table: &Timetable,
    buckets: &[usize],
    first: &[TripNo],
) -> Result<Vec<TripNo>, Memory>
    requires trips { length buckets.now ≡ length table.now.trips }
    requires below { All (λ b. b < length first.now) buckets.now }
    ensures sorted { IfOk result (λ others.
        IsSortedBy (pattern_precedes table.now) others.items) }
    ensures count { IfOk result (λ others. length others.items ≤ length table.now.trips) }
{
    let mut others = Vec::new(alloc);
    for trip in 0..table.trip_count() {
        let first = first[buckets[trip as usize]];
        if compare_trips(table, TripNo(trip), first) != Ordering::Equal {
            others.push(TripNo(trip))?;
        }
    }
    others.sort_unstable_by(|t, u| compare_trips(table, *t, *u));
    Ok(others)
}

// How the patterns of two trips compare.
fn compare_trips(table: &Timetable, t: TripNo, u: TripNo) -> Ordering
    ensures { result ≡ compare_patterns table.now t u }
{
    compare_patterns(events_of(table, t), events_of(table, u))
}

// For each trip the number of its pattern.
fn numbers_of(
    alloc: Global,
    table: &Timetable,
    buckets: &[usize],
    first: &[TripNo],
    others: &[TripNo],
) -> Result<Vec<usize>, Memory>
    requires trips { length buckets.now ≡ length table.now.trips }
    requires below { All (λ b. b < length first.now) buckets.now }
    requires fits { length first.now + length others.now < 2 ^ 64 }
    requires sorted { IsSortedBy (pattern_precedes table.now) others.now }
    ensures { IfOk result (λ numbers. numbers.items
        ≡ map (λ t. number_of table.now first.now others.now (slice_index_or buckets.now t 0) t)
        (range_with_len 0 (length table.now.trips))) }
{
    let mut numbers = Vec::new(alloc);
    for trip in 0..table.trip_count() {
        let bucket = buckets[trip as usize];
        numbers.push(number_of(table, first, others, bucket, TripNo(trip)))?;
    }
    Ok(numbers)
}

// The number of a trip's pattern.
fn number_of(
    table: &Timetable,
    first: &[TripNo],
    others: &[TripNo],
    bucket: usize,
    trip: TripNo,
) -> usize
    requires bucket { bucket < length first.now }
    requires fits { length first.now + length others.now < 2 ^ 64 }
    requires sorted { IsSortedBy (pattern_precedes table.now) others.now }
    ensures { result ≡ number_of table.now first.now others.now bucket trip }
{
    if compare_trips(table, trip, first[bucket]) == Ordering::Equal {
        return bucket;
    }
    first.len() + earlier_patterns(table, others, trip)
}

/// Numbers of patterns for trips that are all trips of their patterns, behind which comes a number
/// that is above all of them. They are told apart by a search in these trips, which are sorted; all
/// other trips have one number.
pub(crate) fn patterns_among(
    alloc: Global,
    table: &Timetable,
    trips: &[TripNo],
) -> Result<(Vec<usize>, usize), Memory>
    requires trips { All (λ t. t < length table.now.trips) trips.now }
    requires whole { HasWholePatterns table.now trips.now }
    ensures { IfOk result (λ all. AreNumbered table.now all.0.items all.1) }
{
    let sorted = by_pattern(alloc, table, trips)?;
    let mut numbers = Vec::new(alloc);
    numbers.resize(table.trip_count() as usize, trips.len())?;
    for trip in trips {
        numbers[trip.index()] = earlier_patterns(table, sorted.as_slice(), *trip);
    }
    Ok((numbers, trips.len() + 1))
}

// These trips, sorted by their patterns.
fn by_pattern(alloc: Global, table: &Timetable, trips: &[TripNo]) -> Result<Vec<TripNo>, Memory>
    ensures sorted { IfOk result (λ sorted.
        IsSortedBy (pattern_precedes table.now) sorted.items) }
    ensures count { IfOk result (λ sorted. length sorted.items ≡ length trips.now) }
{
    let mut sorted = Vec::new(alloc);
    sorted.extend_from_slice(trips)?;
    sorted.sort_unstable_by(|t, u| compare_trips(table, *t, *u));
    Ok(sorted)
}

// How many of these trips have an earlier pattern.
fn earlier_patterns(table: &Timetable, others: &[TripNo], trip: TripNo) -> usize
    requires { IsSortedBy (pattern_precedes table.now) others.now }
    ensures { result ≡ length (filter (λ u. pattern_precedes table.now u trip) others.now) }
{
    others.partition_point(|other| compare_trips(table, *other, trip) == Ordering::Less)
}
