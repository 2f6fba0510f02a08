ghost use Rattle.std.specs.Prelude.{◌≡◌, ◌-◌, ◌<◌, ◌≤◌, ◌++◌, ◌⊎◌, [], All, IsSomeAnd, IsOk, IsTrue, MatchBool, ◌↔◌, None, Some, OnErr, OnOk, length, replicate, slice_index_or, slice_set, take, unwrap_or};
ghost use Rattle.transfer_pack.specs.Words.{lent};
ghost use Rattle.segment_queue.specs.Scans.{HoldOpen};
ghost use Rattle.segment_queue.specs.Words.{IsAbove, lowered_marks, lowered_words};

use std::alloc::Global;
use std::marker::Model;
use tb_base::{Memory, TripNo};
use transfer_pack::Hops;

// How many indices there are: no timetable has more events.
const INDICES: u32 = 10_000_000;

// The word of a trip that no search has marked.
const UNMARKED: u32 = 4_294_967_295;

// How many times a floor can be lowered.
const FLOORS: u32 = 428;

// As many words of trips that no search has marked.
fn unmark(words: &mut Vec<u32>)
    ensures { words.new.items ≡ replicate (length words.old.items) 4294967295 }
{
    let count = words.len();
    words.clear();
    let _ = words.resize(count, UNMARKED);
}

// Writes this word for the trips, in order, up to the first whose own isn't greater.
fn lower_words(words: &mut [u32], trips: &[TripNo], word: u32)
    requires { All (λ t. t < length words.old) trips.now }
    ensures { words.new ≡ lowered_words trips.now word words.old }
{
    for trip in trips {
        let place = trip.index();
        if words[place] <= word {
            return;
        }
        words[place] = word;
    }
}

/// An index for some of the trips, emptied mostly without writing a word. It is seen as a list: for
/// each trip its index, where it has one.
///
/// A trip's word is the floor of the search that wrote it and the index. Each search's floor lies
/// by as much below the one before as there are indices, so the words of earlier searches lie above
/// all of its own.
#[derive(Drop)]
pub struct Marks {
    words: Vec<u32>,
    floor: u32,
}

impl Model for Marks {
    ghost use Rattle.std.specs.Prelude.{◌+◌, ◌≤◌, ℕ, List, Option, map, All};

    ghost Value = { List (Option ℕ) };

    ghost use Rattle.segment_queue.specs.Words.{mark_in};

    ghost view = { λ m. map (mark_in m.floor) m.words.items };

    ghost invariant = { λ m. (m.floor + 10000000 ≤ 4294967295)
        × All (λ word. m.floor ≤ word) m.words.items };
}

impl Marks {
    /// No trips.
    pub fn new(alloc: Global) -> Marks
        ensures { result ≡ [] }
    {
        Marks {
            words: Vec::new(alloc),
            floor: FLOORS * INDICES,
        }
    }

    /// So many trips without an index. So many times, and at most 428 times, `begin` writes no
    /// word; the next time it writes all of them. That is so in the code and in no clause.
    pub fn with_floors(alloc: Global, trips: u32, floors: u32) -> Result<Marks, Memory>
        ensures { OnOk result (result ≡ Ok (replicate trips None)) }
    {
        let mut marks = Marks {
            words: Vec::new(alloc),
            floor: floors.min(FLOORS) * INDICES,
        };
        marks.make_room(trips)?;
        Ok(marks)
    }

    /// For how many trips there is room.
    pub fn trips(&self) -> usize
        ensures { result ≡ length self.now }
    {
        self.words.len()
    }

    /// At least so many trips. The further ones have no index. Where there are as many already it
    /// isn't refused.
    pub fn make_room(&mut self, trips: u32) -> Result<(), Memory>
        ensures room { OnOk result
            (self.new ≡ self.old ++ replicate (trips - length self.old) None) }
        ensures ready { trips ≤ length self.old → IsOk result }
        ensures memory { OnErr result (self.new ≡ self.old) }
    {
        if trips as usize <= self.words.len() {
            return Ok(());
        }
        self.words.resize(trips as usize, UNMARKED)?;
        Ok(())
    }

    /// No trip has an index.
    pub fn begin(&mut self)
        ensures { self.new ≡ replicate (length self.old) None }
    {
        if INDICES <= self.floor {
            self.floor -= INDICES;
            return;
        }
        unmark(&mut self.words);
        self.floor = FLOORS * INDICES;
    }

    // How far the word of a trip lies above the floor.
    #[inline(always)]
    fn above(&self, trip: TripNo) -> u32
        requires { trip < length self.now }
        ensures { IsAbove result (slice_index_or self.now trip None) }
    {
        self.words[trip.index()] - self.floor
    }

    /// The index of a trip, where it has one.
    pub fn get(&self, trip: TripNo) -> Option<u32>
        requires { trip < length self.now }
        ensures { result ≡ slice_index_or self.now trip None }
    {
        let above = self.above(trip);
        if above < INDICES { Some(above) } else { None }
    }

    /// The index of a trip, and this one where it has none.
    pub(crate) fn get_or(&self, trip: TripNo, otherwise: u32) -> u32
        requires { trip < length self.now }
        ensures mark { result ≡ unwrap_or (slice_index_or self.now trip None) otherwise }
        ensures few { result ≡ otherwise ⊎ result < 10000000 }
    {
        let above = self.above(trip);
        if above < INDICES { above } else { otherwise }
    }

    /// Whether a trip has an index that is at most this one. Of a number that is no index it may
    /// say so too.
    #[inline(always)]
    pub(crate) fn is_passed(&self, trip: TripNo, at: u32) -> bool
        requires { trip < length self.now }
        ensures { MatchBool result
            (IsSomeAnd (slice_index_or self.now trip None) (λ m. m ≤ at) ⊎ (10000000 ≤ at))
            (IsSomeAnd (slice_index_or self.now trip None) (λ m. m ≤ at) → ⊥) }
    {
        self.above(trip) <= at
    }

    /// Writes down the places, from one up to another, of the hops that lead to a trip without an
    /// index, or with a greater one, and answers how many they are. No branch hangs on a hop.
    #[inline(always)]
    pub(crate) fn open_places(
        &self,
        hops: &Hops<'_>,
        from: usize,
        to: usize,
        places: &mut [usize],
    ) -> usize
        requires trips { All (λ h. h.trip < length self.now) (lent hops.now) }
        requires from { from ≤ to }
        requires to { to ≤ length (lent hops.now) }
        requires room { to - from ≤ length places.old }
        ensures long { length places.new ≡ length places.old }
        ensures count { result ≤ to - from }
        ensures within { All (λ k. k < to) (take result places.new) }
        ensures open { HoldOpen (λ h. IsSomeAnd (slice_index_or self.now h.trip None) (λ m. m ≤ h.at)
            ⊎ (10000000 ≤ h.at)) (lent hops.now) from to (take result places.new) }
    {
        let mut count = 0;
        for place in from..to {
            let hop = hops.at(place);
            places[count] = place;
            if !self.is_passed(hop.trip, hop.at) {
                count += 1;
            }
        }
        count
    }

    /// Gives a trip this index, and answers true. A number from 10,000,000 on is no index of an
    /// event: then the answer is false, and all is as before.
    pub fn set(&mut self, trip: TripNo, at: u32) -> bool
        requires { trip < length self.old }
        ensures told { IsTrue result ↔ (at < 10000000) }
        ensures marked { MatchBool result (self.new ≡ slice_set self.old trip (Some at))
            (self.new ≡ self.old) }
    {
        if at >= INDICES {
            return false;
        }
        self.put(trip, at);
        true
    }

    // Gives a trip this index.
    #[inline(always)]
    pub(crate) fn put(&mut self, trip: TripNo, at: u32)
        requires trip { trip < length self.old }
        requires at { at < 10000000 }
        ensures { self.new ≡ slice_set self.old trip (Some at) }
    {
        self.words[trip.index()] = self.floor + at;
    }

    /// Gives these trips this index, in order, up to the first that has one that isn't greater. The
    /// words of trips without an index are greater than those of trips with one, so one comparison
    /// a trip is enough.
    pub(crate) fn lower(&mut self, trips: &[TripNo], at: u32)
        requires trips { All (λ t. t < length self.old) trips.now }
        requires at { at < 10000000 }
        ensures { self.new ≡ lowered_marks trips.now at self.old }
    {
        let word = self.floor + at;
        lower_words(self.words.as_mut_slice(), trips, word);
    }

    /// The same marks once more.
    pub fn copy(&self, alloc: Global) -> Result<Marks, Memory>
        ensures { OnOk result (result ≡ Ok self.now) }
    {
        Ok(Marks {
            words: Vec::from_slice(alloc, self.words.as_slice())?,
            floor: self.floor,
        })
    }
}
