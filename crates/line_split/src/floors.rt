//! Floors of blocks of lines, and bitmaps where lines are many, for a quick look at them.
ghost use Rattle.std.specs.Prelude.{◌≡◌, ◌≢◌, ◌*◌, ◌+◌, ◌/◌, ◌%◌, ◌<◌, ◌≤◌, ℕ, [], All, IfOk, OnOk, length, replicate, slice_index_or};
ghost use Rattle.std.specs.Bool.{OnFalse};
ghost use Rattle.std.specs.Int.{bit_at};
ghost use Rattle.line_split.specs.Bitmaps.{AreBitmapsOf, AreMarked, IsOutBy, IsPicked};
ghost use Rattle.line_split.specs.Floors.{AreBelow, AreNoLater, AreNoted, IsEarlier, IsLower, IsNoted, IsPassed, IsSameBut, no_floor};

use super::bitmaps::{Bitmap, WORD, bitmaps_of, mark_in, out_from, out_in, picked_for};
use super::nested::Nested;
use std::alloc::Global;
use std::marker::Model;
use tb_base::{Event, Memory, Timetable, TripNo};

/// How many lines have one floor, and how many floors have one below them.
const BLOCK: usize = 64;

/// Before so few lines no floor is looked at.
const FEW: usize = 8;

/// From so many lines on a bucket has bitmaps.
const MANY: usize = 512;

/// The floors of a bucket's lines: one of each block of lines, and one of each block of these; and
/// bitmaps, if the lines are many.
#[derive(Drop)]
pub(crate) struct Floors {
    near: Nested<Event>,
    far: Nested<Event>,
    bitmaps: Vec<Bitmap>,
}

impl Model for Floors {
    ghost use Rattle.line_split.specs.Floors.{FloorsData};

    ghost Value = { FloorsData };

    ghost view = { λ f. record { near = f.near; far = f.far; bitmaps = f.bitmaps.items } };
}

impl Floors {
    /// No floor.
    fn new(alloc: Global) -> Floors
        ensures { result ≡ no_floor }
    {
        Floors {
            near: Nested::new(alloc),
            far: Nested::new(alloc),
            bitmaps: Vec::new(alloc),
        }
    }

    /// The places of the bitmaps that tell of some events.
    pub(crate) fn picked_for(&self, alloc: Global, events: &[Event]) -> Result<Vec<usize>, Memory>
        ensures { IfOk result
            (λ picked. All (IsPicked self.now.bitmaps events.now) picked.items) }
    {
        picked_for(alloc, self.bitmaps.as_slice(), events)
    }

    /// How many lines from a place on, of so many that are left, are later than the events that
    /// these bitmaps were picked for.
    pub(crate) fn later_from(
        &self,
        place: usize,
        left: usize,
        events: &[Event],
        picked: &[usize],
    ) -> usize
        requires near { place < 64 * length self.now.near }
        requires far { AreBelow self.now.far self.now.near }
        requires picked { All (λ i. i < length self.now.bitmaps) picked.now }
        requires whole { place % 64 ≡ 0 }
        ensures whole { result % 64 ≡ 0 }
        ensures most { result ≤ 4096 }
        ensures later { (k : ℕ) → place ≤ k → k < place + result →
            k < 64 * length self.now.near → IsPassed self.now events.now picked.now k }
    {
        let far = self.far_from(place, left, events);
        if far > 0 {
            return far;
        }
        let out = out_from(self.bitmaps.as_slice(), picked, place);
        if out > 0 {
            return out;
        }
        self.near_from(place, left, events)
    }

    /// The lines of the word of a place that are out, by these bitmaps.
    pub(crate) fn out_at(&self, place: usize, picked: &[usize]) -> u64
        requires { All (λ i. i < length self.now.bitmaps) picked.now }
        ensures { (k : ℕ) → k / 64 ≡ place / 64 → bit_at result (k % 64) ≡ 1 →
            IsOutBy self.now.bitmaps picked.now k }
    {
        out_in(self.bitmaps.as_slice(), picked, place / WORD)
    }

    // How many are later by a floor of floors.
    fn far_from(&self, place: usize, left: usize, events: &[Event]) -> usize
        requires near { place < 64 * length self.now.near }
        requires far { AreBelow self.now.far self.now.near }
        requires whole { place % 64 ≡ 0 }
        ensures whole { result % 64 ≡ 0 }
        ensures most { result ≤ 4096 }
        ensures later { (k : ℕ) → place ≤ k → k < place + result →
            k < 64 * length self.now.near →
            ¬ (AreNoLater (slice_index_or self.now.near (k / 64) []) events.now) }
    {
        let block = place / BLOCK;
        if left <= FEW || block % BLOCK != 0 {
            return 0;
        }
        if is_below(self.far.row(block / BLOCK), events) {
            return 0;
        }
        BLOCK * BLOCK
    }

    // How many are later by the floor of their block.
    fn near_from(&self, place: usize, left: usize, events: &[Event]) -> usize
        requires near { place < 64 * length self.now.near }
        requires whole { place % 64 ≡ 0 }
        ensures whole { result % 64 ≡ 0 }
        ensures most { result ≤ 64 }
        ensures later { (k : ℕ) → place ≤ k → k < place + result →
            ¬ (AreNoLater (slice_index_or self.now.near (k / 64) []) events.now) }
    {
        if left <= FEW {
            return 0;
        }
        if is_below(self.near.row(place / BLOCK), events) {
            return 0;
        }
        BLOCK
    }

    /// Notes a line that begins with these events, behind so many.
    fn note(&mut self, alloc: Global, count: usize, events: &[Event]) -> Result<(), Memory>
        requires near { count ≤ 64 * length self.old.near }
        requires far { count / 64 ≤ 64 * length self.old.far }
        ensures { OnOk result (AreNoted count events.now self.old self.new) }
    {
        let block = count / BLOCK;
        mark_in(self.bitmaps.as_mut_slice(), count, events);
        note(alloc, &mut self.near, count, events)?;
        note(alloc, &mut self.far, block, self.near.row(block))
    }

    /// Marks the line at a place, which has come to these events.
    fn mark(&mut self, place: usize, events: &[Event])
        ensures near { self.new.near ≡ self.old.near }
        ensures far { self.new.far ≡ self.old.far }
        ensures bitmaps { AreMarked place events.now self.old.bitmaps self.new.bitmaps }
    {
        mark_in(self.bitmaps.as_mut_slice(), place, events);
    }

    /// Whether bitmaps are to be made of so many lines.
    fn lack_bitmaps(&self, count: usize) -> bool {
        count >= MANY && self.bitmaps.is_empty()
    }

    /// Makes bitmaps of these lines, for these trips.
    fn map(
        &mut self,
        alloc: Global,
        table: &Timetable,
        lines: &Nested<TripNo>,
        among: &[usize],
        trips: &[TripNo],
    ) -> Result<(), Memory>
        requires { All (λ l. l < length lines.now) among.now }
        ensures near { self.new.near ≡ self.old.near }
        ensures far { self.new.far ≡ self.old.far }
        ensures bitmaps { OnOk result
            (AreBitmapsOf table.now lines.now among.now self.new.bitmaps) }
    {
        self.bitmaps = bitmaps_of(alloc, table, lines, among, trips)?;
        Ok(())
    }
}

/// For each of so many buckets no floor.
pub(crate) fn no_floors(alloc: Global, count: usize) -> Result<Vec<Floors>, Memory>
    ensures { IfOk result (λ floors. floors.items ≡ replicate count no_floor) }
{
    let mut floors = Vec::new(alloc);
    for _bucket in 0..count {
        floors.push(Floors::new(alloc))?;
    }
    Ok(floors)
}

/// Whether a floor is no later than some events. Where it is later, the lines above it are.
pub(crate) fn is_below(floor: &[Event], events: &[Event]) -> bool
    ensures { OnFalse result (¬ (AreNoLater floor.now events.now)) }
{
    let both = floor.len().min(events.len());
    for passed in 0..both {
        let i = both - 1 - passed;
        if floor[i].arr > events[i].arr || floor[i].dep > events[i].dep {
            return false;
        }
    }
    true
}

/// Notes a line in a bucket, behind so many, that begins with these events.
pub(crate) fn note_in(
    alloc: Global,
    floors: &mut [Floors],
    bucket: usize,
    count: usize,
    events: &[Event],
) -> Result<(), Memory>
    requires bucket { bucket < length floors.old }
    requires near { count ≤ 64 * length (slice_index_or floors.old bucket no_floor).near }
    requires far { count / 64 ≤ 64 * length (slice_index_or floors.old bucket no_floor).far }
    ensures many { length floors.new ≡ length floors.old }
    ensures noted { OnOk result (AreNoted count events.now
        (slice_index_or floors.old bucket no_floor)
        (slice_index_or floors.new bucket no_floor)) }
    ensures others { (b : ℕ) → b ≢ bucket →
        slice_index_or floors.new b no_floor ≡ slice_index_or floors.old b no_floor }
{
    floors[bucket].note(alloc, count, events)
}

/// Marks the line at a place of a bucket, which has come to these events.
pub(crate) fn mark_at(floors: &mut [Floors], bucket: usize, place: usize, events: &[Event])
    requires { bucket < length floors.old }
    ensures same { IsSameBut bucket floors.old floors.new }
    ensures marked { AreMarked place events.now
        (slice_index_or floors.old bucket no_floor).bitmaps
        (slice_index_or floors.new bucket no_floor).bitmaps }
{
    floors[bucket].mark(place, events);
}

/// Whether bitmaps are to be made of so many lines of a bucket.
pub(crate) fn lack_bitmaps(floors: &[Floors], bucket: usize, count: usize) -> bool {
    bucket < floors.len() && floors[bucket].lack_bitmaps(count)
}

/// Makes bitmaps of these lines of a bucket, for its trips.
pub(crate) fn map_at(
    alloc: Global,
    table: &Timetable,
    lines: &Nested<TripNo>,
    floors: &mut [Floors],
    bucket: usize,
    among: &[usize],
    trips: &[TripNo],
) -> Result<(), Memory>
    requires bucket { bucket < length floors.old }
    requires lines { All (λ l. l < length lines.now) among.now }
    ensures same { IsSameBut bucket floors.old floors.new }
    ensures bitmaps { OnOk result (AreBitmapsOf table.now lines.now among.now
        (slice_index_or floors.new bucket no_floor).bitmaps) }
{
    floors[bucket].map(alloc, table, lines, among, trips)
}

// Notes a row with these events, at a place: the floor of its block is no later.
fn note(
    alloc: Global,
    floors: &mut Nested<Event>,
    place: usize,
    events: &[Event],
) -> Result<(), Memory>
    requires room { place ≤ 64 * length floors.old }
    ensures { OnOk result (IsNoted place events.now floors.old floors.new) }
{
    let block = place / BLOCK;
    if block == floors.len() {
        let floor = lowered(alloc, events, events)?;
        return floors.open_row(floor);
    }
    let floor = lowered(alloc, floors.row(block), events)?;
    floors.put(block, floor);
    Ok(())
}

// The earlier of a floor's times and those of some events.
fn lowered(alloc: Global, floor: &[Event], events: &[Event]) -> Result<Vec<Event>, Memory>
    ensures lower { IfOk result (λ low. IsLower low.items floor.now) }
    ensures below { IfOk result (λ low. IsLower low.items events.now) }
{
    let both = floor.len().min(events.len());
    let mut low = Vec::new(alloc);
    for i in 0..both {
        low.push(earlier(&floor[i], &events[i]))?;
    }
    Ok(low)
}

// The earlier times of two events.
fn earlier(e: &Event, f: &Event) -> Event
    ensures first { IsEarlier result e.now }
    ensures second { IsEarlier result f.now }
{
    let mut both = *e;
    both.arr = e.arr.min(f.arr);
    both.dep = e.dep.min(f.dep);
    both
}
