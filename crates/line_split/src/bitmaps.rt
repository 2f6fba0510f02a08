//! Bitmaps of a bucket's lines: for a quick look at many lines, whatever their times are.
ghost use Rattle.std.specs.Prelude.{◌≡◌, ◌<◌, ◌≤◌, ◌*◌, ◌+◌, ◌/◌, ◌%◌, ℕ, [], IfOk, OnOk, All, length, replicate, slice_index_or};
ghost use Rattle.std.specs.Bool.{OnFalse, OnTrue};
ghost use Rattle.std.specs.Int.{bit_at};
ghost use Rattle.tb_base.specs.TimetableData.{events_of};
ghost use Rattle.line_split.specs.Bitmaps.{time_at, time_by, AreBitmapsOf, AreMarked, AreOutIn, IsLate, IsMarked, IsOut, IsOutBy, IsPicked, IsUnset, no_bitmap};

use super::events::{events_of, last_trip};
use super::nested::Nested;
use std::alloc::Global;
use std::marker::Model;
use std::simd::prelude::*;
use tb_base::{Event, Memory, Sec, Timetable, TripNo};

/// How many bits a word has.
pub(crate) const WORD: usize = 64;

// How many words are looked at in one step.
const WORDS: usize = 8;

/// How many limits there are for the arrivals, or departures, at an event: so many bitmaps, with
/// their limits in ascending order, come one after another.
const LIMITS: usize = 128;

/// For each line one bit, set only where the arrival, or departure, of its last trip at an event is
/// later than a limit.
#[derive(Drop)]
pub(crate) struct Bitmap {
    event: usize,
    departs: bool,
    limit: Sec,
    bits: Vec<u64>,
    // how many bits are set
    set: usize,
}

impl Model for Bitmap {
    ghost use Rattle.line_split.specs.Bitmaps.{BitmapData};

    ghost Value = { BitmapData };

    ghost view = { λ b. record {
      event = b.event;
      departs = b.departs;
      limit = b.limit;
      bits = b.bits.items;
    } };
}

impl Bitmap {
    /// A bitmap of so many words, without a bit that is set.
    fn new(
        alloc: Global,
        event: usize,
        departs: bool,
        limit: Sec,
        words: usize,
    ) -> Result<Bitmap, Memory>
        ensures { IfOk result (λ bitmap. IsUnset bitmap) }
    {
        Ok(Bitmap {
            event,
            departs,
            limit,
            bits: zeros(alloc, words)?,
            set: 0,
        })
    }

    /// How many bits are set.
    fn bits_set(&self) -> usize {
        self.set
    }

    /// The bits of one word, and none where there is no such word.
    fn word(&self, word: usize) -> u64
        ensures { result ≡ slice_index_or self.now.bits word 0 }
    {
        if word < self.bits.len() {
            self.bits[word]
        } else {
            0
        }
    }

    /// The bits of eight words from one on, and none where not all of them are there.
    fn eight_words(&self, word: usize) -> u64x8
        ensures { AreOutIn (IsOut self.now) word result }
    {
        let bits = self.bits.as_slice();
        if bits.len().saturating_sub(word) < WORDS {
            return u64x8::splat(0);
        }
        u64x8::from_slice(&bits[word..])
    }

    /// Whether some events are later than the limit.
    fn is_late(&self, events: &[Event]) -> bool
        ensures late { OnTrue result (IsLate self.now events.now) }
        ensures within { OnFalse result (¬ (IsLate self.now events.now)) }
    {
        time_at(events, self.event, self.departs) > self.limit
    }

    /// Marks the line at a place, which has come to these events, if they are later than the limit.
    /// Whether it wasn't marked before and is now.
    fn mark(&mut self, place: usize, events: &[Event]) -> bool
        ensures { IsMarked place events.now self.old self.new }
    {
        let word = place / WORD;
        if word >= self.bits.len() || !self.is_late(events) {
            return false;
        }
        let bits = self.bits[word];
        if (bits >> (place % WORD)) & 1 == 1 {
            return false;
        }
        self.bits[word] = bits | 1 << (place % WORD);
        self.set = self.set.saturating_add(1);
        true
    }
}

// So many words without a bit that is set.
fn zeros(alloc: Global, count: usize) -> Result<Vec<u64>, Memory>
    ensures { IfOk result (λ words. words.items ≡ replicate count 0) }
{
    let mut words = Vec::new(alloc);
    for _word in 0..count {
        words.push(0)?;
    }
    Ok(words)
}

/// Marks the line at a place, which has come to these events, in each bitmap whose limit is earlier.
pub(crate) fn mark_in(bitmaps: &mut [Bitmap], place: usize, events: &[Event])
    ensures { AreMarked place events.now bitmaps.old bitmaps.new }
{
    for time in 0..bitmaps.len() / LIMITS {
        mark_from(bitmaps, time * LIMITS, place, events);
    }
}

// The same in the bitmaps for one time, which begin at a place. Where a line is marked in one, it is
// in those before it.
fn mark_from(bitmaps: &mut [Bitmap], first: usize, place: usize, events: &[Event])
    requires { first + 128 ≤ length bitmaps.old }
    ensures { AreMarked place events.now bitmaps.old bitmaps.new }
{
    let mut at = first_within(bitmaps, first, events);
    while at > first {
        at -= 1;
        if !bitmaps[at].mark(place, events) {
            return;
        }
    }
}

// The place of the first of the bitmaps for one time, which begin at a place, whose limit some
// events are no later than; else the place behind them.
fn first_within(bitmaps: &[Bitmap], first: usize, events: &[Event]) -> usize
    requires { first + 128 ≤ length bitmaps.now }
    ensures { result ≤ first + 128 }
{
    let mut from = first;
    let mut to = first + LIMITS;
    while from < to {
        let half = from + (to - from) / 2;
        if bitmaps[half].is_late(events) {
            from = half + 1;
        } else {
            to = half;
        }
    }
    from
}

/// The places of the bitmaps that tell of some events, those with most bits first: for each arrival
/// and departure the first bitmap whose limit is no earlier.
pub(crate) fn picked_for(
    alloc: Global,
    bitmaps: &[Bitmap],
    events: &[Event],
) -> Result<Vec<usize>, Memory>
    ensures { IfOk result (λ picked. All (IsPicked bitmaps.now events.now) picked.items) }
{
    let mut picked = Vec::new(alloc);
    for time in 0..bitmaps.len() / LIMITS {
        let at = first_within(bitmaps, time * LIMITS, events);
        if at < time * LIMITS + LIMITS && set_in(bitmaps, at) > 0 && !bitmaps[at].is_late(events) {
            picked.push(at)?;
        }
    }
    picked.sort_unstable_by(|i, j| set_in(bitmaps, *j).cmp(&set_in(bitmaps, *i)));
    Ok(picked)
}

// How many bits of a bitmap are set.
fn set_in(bitmaps: &[Bitmap], i: usize) -> usize {
    if i < bitmaps.len() {
        bitmaps[i].bits_set()
    } else {
        0
    }
}

/// How many lines from a place on are out, by these bitmaps: all those of eight words, or none.
pub(crate) fn out_from(bitmaps: &[Bitmap], picked: &[usize], place: usize) -> usize
    requires { All (λ i. i < length bitmaps.now) picked.now }
    ensures whole { result % 64 ≡ 0 }
    ensures most { result ≤ 512 }
    ensures out { (k : ℕ) → place ≤ k → k < place + result → IsOutBy bitmaps.now picked.now k }
{
    if place % (WORDS * WORD) != 0 || !are_out(bitmaps, picked, place / WORD) {
        return 0;
    }
    WORDS * WORD
}

// Whether all lines of eight words, from one on, are out, by these bitmaps.
fn are_out(bitmaps: &[Bitmap], picked: &[usize], word: usize) -> bool
    requires { All (λ i. i < length bitmaps.now) picked.now }
    ensures { OnTrue result ((k : ℕ) → word ≤ k / 64 → k / 64 < word + 8 →
        IsOutBy bitmaps.now picked.now k) }
{
    let mut out = u64x8::splat(0);
    for n in 0..picked.len() {
        out = out | bitmaps[picked[n]].eight_words(word);
        if out.reduce_and() == u64::MAX {
            return true;
        }
    }
    false
}

/// The lines of a word that are out, by these bitmaps.
pub(crate) fn out_in(bitmaps: &[Bitmap], picked: &[usize], word: usize) -> u64
    requires { All (λ i. i < length bitmaps.now) picked.now }
    ensures { (k : ℕ) → k / 64 ≡ word → bit_at result (k % 64) ≡ 1 →
        IsOutBy bitmaps.now picked.now k }
{
    let mut out = 0;
    for n in 0..picked.len() {
        out |= bitmaps[picked[n]].word(word);
        if out == u64::MAX {
            return out;
        }
    }
    out
}

/// Bitmaps of lines, which these trips are on and further trips of the same pattern may come to.
pub(crate) fn bitmaps_of(
    alloc: Global,
    table: &Timetable,
    lines: &Nested<TripNo>,
    among: &[usize],
    trips: &[TripNo],
) -> Result<Vec<Bitmap>, Memory>
    requires { All (λ l. l < length lines.now) among.now }
    ensures { IfOk result (λ bitmaps. AreBitmapsOf table.now lines.now among.now bitmaps.items) }
{
    let mut bitmaps = unset_for(alloc, table, trips)?;
    for place in 0..among.len() {
        let events = events_of(table, last_trip(lines.row(among[place])));
        mark_in(bitmaps.as_mut_slice(), place, events);
    }
    Ok(bitmaps)
}

// Bitmaps for trips of one pattern, without a bit that is set.
fn unset_for(alloc: Global, table: &Timetable, trips: &[TripNo]) -> Result<Vec<Bitmap>, Memory>
    ensures { IfOk result (λ bitmaps. All IsUnset bitmaps.items) }
{
    let mut bitmaps = Vec::new(alloc);
    if trips.is_empty() {
        return Ok(bitmaps);
    }
    for event in 0..events_of(table, trips[0]).len() {
        add_unset(alloc, &mut bitmaps, table, trips, event, false)?;
        if stand_at(table, trips, event) {
            add_unset(alloc, &mut bitmaps, table, trips, event, true)?;
        }
    }
    Ok(bitmaps)
}

// Whether one of these trips departs from an event at another time than it arrives.
fn stand_at(table: &Timetable, trips: &[TripNo], event: usize) -> bool {
    for trip in trips {
        let events = events_of(table, *trip);
        if time_at(events, event, false) != time_at(events, event, true) {
            return true;
        }
    }
    false
}

// Adds those for the arrivals, or departures, at an event.
fn add_unset(
    alloc: Global,
    bitmaps: &mut Vec<Bitmap>,
    table: &Timetable,
    trips: &[TripNo],
    event: usize,
    departs: bool,
) -> Result<(), Memory>
    requires { All IsUnset bitmaps.old.items }
    ensures { OnOk result (All IsUnset bitmaps.new.items) }
{
    let limits = limits_of(alloc, table, trips, event, departs)?;
    let words = trips.len() / WORD + 1;
    for limit in limits.as_slice() {
        bitmaps.push(Bitmap::new(alloc, event, departs, *limit, words)?)?;
    }
    Ok(())
}

// So many arrivals, or departures, of trips at an event, in ascending order, that those of about as
// many trips are between each two.
fn limits_of(
    alloc: Global,
    table: &Timetable,
    trips: &[TripNo],
    event: usize,
    departs: bool,
) -> Result<Vec<Sec>, Memory> {
    let mut times = Vec::new(alloc);
    for trip in trips {
        times.push(time_at(events_of(table, *trip), event, departs))?;
    }
    times.sort_unstable();
    let mut limits = Vec::new(alloc);
    let mut at = 0usize;
    for _limit in 0..LIMITS {
        if at < times.len() {
            limits.push(times[at])?;
        }
        at = at.saturating_add(times.len() / LIMITS);
    }
    Ok(limits)
}

// The arrival, or departure, of some events at one of them; 0 where there is none.
fn time_at(events: &[Event], event: usize, departs: bool) -> Sec
    ensures { result ≡ time_at event departs events.now }
{
    if event < events.len() {
        time_of(&events[event], departs)
    } else {
        0
    }
}

// The departure, or arrival, of an event.
fn time_of(event: &Event, departs: bool) -> Sec
    ensures { result ≡ time_by departs event.now }
{
    if departs { event.dep } else { event.arr }
}
