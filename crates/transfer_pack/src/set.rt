ghost use Rattle.std.specs.Prelude.{◌≡◌, suc, Contains, Some, slice_get, ◌+◌, ◌<◌, ◌++◌, ◌-◌, ◌≤◌, [], ℕ, IfOk, OnOk, length, map, slice_index_or};
ghost use Rattle.std.specs.List.{AllWithin};
ghost use Rattle.std.specs.List.Sorted.{IsNonDecreasingBy};
ghost use Rattle.tb_base.specs.OutSets.{AreRowsOf, hops_at, row_of};
ghost use Rattle.tb_base.specs.TimetableData.{events_of};
ghost use Rattle.tb_base.specs.declared.transfer.Hop.{Hop};
ghost use Rattle.transfer_pack.specs.CallsOf.{call_of};
ghost use Rattle.transfer_pack.specs.Packed.{AreBounds, begin_of, hops_before, hops_over, hops_rebuilt, packed, runs_in};
ghost use Rattle.transfer_pack.specs.Spots.{calls_beside, ends_in};
ghost use Rattle.transfer_pack.specs.Words.{lent};
ghost use Rattle.transfer_pack.specs.declared.set.Spot.{Spot};

use super::ahead::ReadAhead;
use super::calls::Call;
use super::hops::{HopList, Hops, part};
use super::numbers::number;
use super::packed_call::{NO_PACKED_CALL, PackedCall};
use super::trip_spots::{add_rebuilt_trip, add_trip};
use std::alloc::Global;
use std::marker::Model;
use std::snapshot::Snapshot;
use tb_base::{Event, Hop, Memory, Timetable, Transfer, TripNo};

// An event as a search reads it, in twelve bytes: its call, and where its hops end. They begin
// where those of the spot before end.
#[derive(Clone, Copy)]
pub(crate) struct Spot {
    pub(crate) packed: PackedCall,
    pub(crate) end: u32,
}

// What stands before the first event.
const NO_SPOT: Spot = Spot {
    packed: NO_PACKED_CALL,
    end: 0,
};

/// A set of transfers, and what a search reads of events: the hops of all events one behind the
/// other, and for each event where its hops end, beside its stop and its arrival. It remembers for
/// contracts of which timetable it is; that takes no room.
#[derive(Drop)]
pub struct Set {
    table: Snapshot<Timetable>,
    starts: Vec<u32>,
    spots: Vec<Spot>,
    hops: HopList,
}

impl Model for Set {
    ghost use Rattle.std.specs.Prelude.{length};
    ghost use Rattle.transfer_pack.specs.Packed.{AreBounds, FitsRuns, PackedHops, runs_in};
    ghost use Rattle.transfer_pack.specs.Spots.{AreCalls, calls_beside, ends_in};

    ghost Value = { PackedHops };

    ghost view = { λ s. record {
      table = s.table.value;
      starts = s.starts.items;
      hops = s.hops;
      bounds = ends_in s.spots.items;
      runs = runs_in s.hops (ends_in s.spots.items);
    } };

    ghost invariant = { λ s. AreBounds (ends_in s.spots.items) (length s.hops)
        × FitsRuns (record {
          table = s.table.value;
          starts = s.starts.items;
          hops = s.hops;
          bounds = ends_in s.spots.items;
          runs = runs_in s.hops (ends_in s.spots.items);
        })
        × AreCalls s.table.value s.starts.items (calls_beside s.spots.items) };
}

impl Set {
    /// The set of these transfers: one list for each trip, of transfers from its events, in any
    /// order. Takes memory by the numbers of events and transfers. Refused only for want of memory,
    /// which more than 4,294,967,295 transfers are counted as.
    pub fn build(alloc: Global, table: &Timetable, rows: &[Vec<Transfer>]) -> Result<Set, Memory>
        requires { AreRowsOf table.now (map (λ row. row.items) rows.now) }
        ensures table { IfOk result (λ set. set.table ≡ table.now) }
        ensures hops { IfOk result
            (λ set. (t i : ℕ) → packed set t i
            ≡ hops_at (row_of (map (λ row. row.items) rows.now) t) i) }
    {
        table.soundness();
        let mut starts = Vec::new(alloc);
        let mut spots = Vec::new(alloc);
        let mut hops = HopList::new(alloc);
        spots.push(NO_SPOT)?;
        starts.push(0)?;
        for t in 0..table.trip_count() {
            let events = table.events(TripNo(t));
            add_trip(
                alloc,
                &mut hops,
                &mut spots,
                rows[t as usize].as_slice(),
                events,
            )?;
            starts.push(number(spots.len() - 1)?)?;
        }
        Ok(Set {
            table: Snapshot::of(table),
            starts,
            spots,
            hops,
        })
    }

    /// The set of a timetable in which the trips that are marked have these transfers, and all
    /// others the hops of another set, whose trips have as many events: those are taken over as they
    /// are. Takes memory and is refused as `build`.
    pub fn rebuild(
        alloc: Global,
        table: &Timetable,
        kept: &Set,
        redone: &[bool],
        rows: &[Vec<Transfer>],
    ) -> Result<Set, Memory>
        requires rows { AreRowsOf table.now (map (λ row. row.items) rows.now) }
        requires marks { length redone.now ≡ length table.now.trips }
        requires trips { length kept.now.table.trips ≡ length table.now.trips }
        requires events { (t : ℕ) →
            length (events_of kept.now.table t) ≡ length (events_of table.now t) }
        ensures table { IfOk result (λ set. set.table ≡ table.now) }
        ensures hops { IfOk result (λ set. (t i : ℕ) → packed set t i
            ≡ hops_rebuilt kept.now redone.now (map (λ row. row.items) rows.now) t i) }
    {
        table.soundness();
        let mut starts = Vec::new(alloc);
        let mut spots = Vec::new(alloc);
        let mut hops = HopList::new(alloc);
        spots.reserve(kept.spots.len())?;
        spots.push(NO_SPOT)?;
        starts.push(0)?;
        for t in 0..table.trip_count() {
            let events = table.events(TripNo(t));
            add_rebuilt_trip(
                alloc,
                &mut hops,
                &mut spots,
                kept,
                TripNo(t),
                redone[t as usize],
                rows[t as usize].as_slice(),
                events,
            )?;
            starts.push(number(spots.len() - 1)?)?;
        }
        Ok(Set {
            table: Snapshot::of(table),
            starts,
            spots,
            hops,
        })
    }
}

// The run between the ends of a spot and of the next.
fn run_behind<'a>(hops: &'a HopList, spots: &[Spot], k: usize) -> Hops<'a>
    requires bounds { AreBounds (ends_in spots.now) (length hops.now) }
    requires inside { k + 1 < length spots.now }
    ensures { lent result ≡ slice_index_or (runs_in hops.now (ends_in spots.now)) k [] }
{
    hops.run(spots[k].end as usize, spots[k + 1].end as usize)
}

// How many spots are few: these are halved to none in as many steps each time.
const FEW: usize = 31;

// Where a part of the spots begins, and how many they are: all before it end by this place, and
// none behind it does. It is halved until no more than so many are left. Where the numbers are
// known no branch hangs on a spot.
#[inline(always)]
fn halved(spots: &[Spot], from: usize, count: usize, least: usize, place: usize) -> (usize, usize)
    requires rising { IsNonDecreasingBy (λ s. s.end) spots.now }
    requires within { from + count ≤ length spots.now }
    requires ended { AllWithin (λ s. s.end ≤ place) spots.now 0 from }
    requires open { AllWithin (λ s. place < s.end) spots.now (from + count) (length spots.now) }
    ensures few { result.1 ≤ least }
    ensures within { result.0 + result.1 ≤ length spots.now }
    ensures ended { AllWithin (λ s. s.end ≤ place) spots.now 0 result.0 }
    ensures open { AllWithin (λ s. place < s.end) spots.now (result.0 + result.1)
        (length spots.now) }
{
    let mut first = from;
    let mut left = count;
    while left > least {
        let half = left - left / 2;
        let end = spots[first + half - 1].end as usize;
        if end <= place {
            first += half;
        }
        left -= half;
    }
    (first, left)
}

// How many of the spots end by this place: no more than so many.
#[inline(always)]
fn ended_by(spots: &[Spot], count: usize, place: usize) -> usize
    requires rising { IsNonDecreasingBy (λ s. s.end) spots.now }
    requires within { count ≤ length spots.now }
    requires open { AllWithin (λ s. place < s.end) spots.now count (length spots.now) }
    ensures within { result ≤ count }
    ensures ended { AllWithin (λ s. s.end ≤ place) spots.now 0 result }
    ensures open { AllWithin (λ s. place < s.end) spots.now result (length spots.now) }
{
    let (first, left) = halved(spots, 0, count, FEW, place);
    if first + FEW <= spots.len() {
        return halved(spots, first, FEW, 0, place).0;
    }
    halved(spots, first, left, 0, place).0
}

impl Set {
    ghost use Rattle.tb_base.specs.TimetableData.{event_at, events_of};

    // The number of an event: how many events there are before it.
    fn event(&self, trip: TripNo, at: u32) -> usize
        requires trip { trip < length self.now.table.trips }
        requires at { at < length (events_of self.now.table trip) }
        ensures number { result ≡ slice_index_or self.now.starts trip 0 + at }
        ensures inside { result < length self.now.runs }
    {
        self.starts[trip.index()] as usize + at as usize
    }

    /// The hops from event `at` of a trip. No memory is taken.
    pub fn out(&self, trip: TripNo, at: u32) -> Hops<'_>
        requires trip { trip < length self.now.table.trips }
        requires at { at < length (events_of self.now.table trip) }
        ensures { lent result ≡ packed self.now trip at }
    {
        let event = self.event(trip, at);
        run_behind(&self.hops, self.spots.as_slice(), event)
    }

    /// How many events a trip has.
    pub fn event_count(&self, trip: TripNo) -> u32
        requires { trip < length self.now.table.trips }
        ensures { result ≡ length (events_of self.now.table trip) }
    {
        self.starts[trip.index() + 1] - self.starts[trip.index()]
    }

    /// Event `at` of a trip.
    pub fn call(&self, trip: TripNo, at: u32) -> Call
        requires trip { trip < length self.now.table.trips }
        requires at { at < length (events_of self.now.table trip) }
        ensures { result ≡ call_of (event_at self.now.table trip at) }
    {
        let event = self.event(trip, at);
        self.spots[event + 1].packed.call()
    }

    // Where the hops from an event begin among all hops.
    pub(crate) fn begin_of(&self, trip: TripNo, at: u32) -> u32
        requires trip { trip < length self.now.table.trips }
        requires at { at < length (events_of self.now.table trip) }
        ensures { result ≡ begin_of self.now trip at }
    {
        self.spots[self.event(trip, at)].end
    }

    // Where they end, and those from the next event begin.
    fn end_of(&self, trip: TripNo, at: u32) -> u32
        requires trip { trip < length self.now.table.trips }
        requires at { at < length (events_of self.now.table trip) }
        ensures { result ≡ begin_of self.now trip (suc at) }
    {
        self.spots[self.event(trip, at) + 1].end
    }

    // The spots of a trip's events, of which it has some.
    pub(crate) fn spots_of(&self, trip: TripNo) -> &[Spot]
        requires trip { trip < length self.now.table.trips }
        requires some { 0 < length (events_of self.now.table trip) }
        ensures count { length result.now ≡ length (events_of self.now.table trip) }
        ensures ends { (i : ℕ) (d : Spot) → i < length result.now →
            (slice_index_or result.now i d).end
            ≡ begin_of self.now trip 0 + length (hops_before (packed self.now) trip 0 (i + 1)) }
    {
        let first = self.event(trip, 0);
        let last = self.event(trip, self.event_count(trip) - 1);
        part(self.spots.as_slice(), first + 1, last + 2)
    }

    /// The hops from the events of a trip from `first` to `last`, one event behind the other.
    pub fn hops_over(&self, trip: TripNo, first: u32, last: u32) -> Hops<'_>
        requires trip { trip < length self.now.table.trips }
        requires order { first ≤ last }
        requires last { last < length (events_of self.now.table trip) }
        ensures { lent result ≡ hops_over (packed self.now) trip first last }
    {
        let from = self.begin_of(trip, first) as usize;
        let to = self.end_of(trip, last) as usize;
        self.hops.run(from, to)
    }

    /// The event of a trip, of those from `first` to `last`, from which the hop at this place among
    /// all of theirs is.
    pub fn event_of(&self, trip: TripNo, first: u32, last: u32, place: usize) -> u32
        requires trip { trip < length self.now.table.trips }
        requires order { first ≤ last }
        requires last { last < length (events_of self.now.table trip) }
        requires place { place < length (hops_over (packed self.now) trip first last) }
        ensures first { first ≤ result }
        ensures last { result ≤ last }
        ensures begun { length (hops_before (packed self.now) trip first result) ≤ place }
        ensures ends { place < length (hops_over (packed self.now) trip first result) }
        ensures hop { (h : Hop) →
            slice_get (hops_over (packed self.now) trip first last) place ≡ Some h →
            Contains (packed self.now trip result) h }
    {
        let begin = self.begin_of(trip, first) as usize;
        // Where the hops end bounds the sum below.
        let _end = self.end_of(trip, last);
        let spots = self.spots.as_slice();
        let next = self.event(trip, first) + 1;
        let end = self.event(trip, last) + 1;
        let behind = part(spots, next, spots.len());
        first + ended_by(behind, end - next, begin + place) as u32
    }

    /// Reads event `at` of a trip ahead.
    pub fn read_event_ahead(&self, trip: TripNo, at: u32, ahead: &mut ReadAhead)
        requires trip { trip < length self.now.table.trips }
        requires at { at < length (events_of self.now.table trip) }
    {
        ahead.take(self.call(trip, at).stop.0);
    }

    /// Reads the first and the last of the hops from the events of a trip from `first` to `last`
    /// ahead. Where these have none it reads hops of events beside them.
    pub fn read_hops_ahead(&self, trip: TripNo, first: u32, last: u32, ahead: &mut ReadAhead)
        requires trip { trip < length self.now.table.trips }
        requires order { first ≤ last }
        requires last { last < length (events_of self.now.table trip) }
    {
        self.hops
            .read_ahead(self.begin_of(trip, first) as usize, ahead);
        let end = self.end_of(trip, last) as usize;
        self.hops.read_ahead(end.saturating_sub(1), ahead);
    }
}
