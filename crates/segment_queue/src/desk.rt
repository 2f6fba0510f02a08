ghost use Rattle.std.specs.Prelude.{◌≡◌, ◌+◌, ◌-◌, ◌<◌, ◌≤◌, ◌++◌, ◌∷◌, [], ℕ, None, IsSomeAnd, IsTrue, ◌↔◌, MatchBool, IsOk, OnErr, OnOk, All, length, replicate, slice_get, slice_index_or, take, vec_capacity, vec_len};
ghost use Rattle.transfer_pack.specs.Words.{lent};
ghost use Rattle.tb_base.specs.Lines.{AreDividedInto};
ghost use Rattle.tb_base.specs.Network.{NetData};
ghost use Rattle.tb_base.specs.TimetableData.{TimetableData};
ghost use Rattle.segment_queue.specs.Scans.{HoldOpen, trips_from};
ghost use Rattle.segment_queue.specs.Queue.{EntersSegment, Fits, IsClipped, IsFalling, IsInStep, IsSoundSegment, last_index, lowered_mark, mark_of};

use super::ahead::Ahead;
use super::marks::Marks;
use super::notes::Note;
use super::scan::Scan;
use std::alloc::Global;
use std::marker::Model;
use tb_base::{Memory, Query, StopNo, TripNo, Value};
use transfer_pack::Hops;

/// A part of a trip: boarded at `board`, and looked at no further than `end`. It was hopped onto
/// from the segment with the first number of `parent`, at the second number, an index of that
/// segment's trip; without a parent it is a first ride.
#[derive(Clone, Copy, Debug, PartialEq, Eq)]
pub struct Segment {
    pub trip: TripNo,
    pub board: u32,
    pub end: u32,
    pub parent: Option<(u32, u32)>,
}

/// How a journey ends: it is a walk, or one alights from segment `entry` at index `at` and walks to
/// a target.
#[derive(Clone, Copy, Debug, PartialEq, Eq)]
pub enum LastLeg {
    OnFoot { from: StopNo, to: StopNo },
    Aboard { entry: u32, at: u32, to: StopNo },
}

/// A value, and how a journey with it ends.
#[derive(Clone, Copy, Debug, PartialEq, Eq)]
pub struct Hit {
    pub value: Value,
    pub last: LastLeg,
}

/// What a search writes: the queue of segments, the marks, the hits, and notes of where to go on
/// from. It is made once, and used for any number of queries. Nobody sees what is read ahead.
#[derive(Drop)]
pub struct Desk {
    marks: Marks,
    pub(crate) segments: Vec<Segment>,
    hits: Vec<Hit>,
    pub(crate) notes: Vec<Note>,
    pub(crate) ahead: Ahead,
}

impl Model for Desk {
    ghost use Rattle.std.specs.Prelude.{vec_capacity};
    ghost use Rattle.segment_queue.specs.Queue.{DeskData};

    ghost Value = { DeskData };

    ghost view = { λ d. record {
      marks = d.marks;
      segments = d.segments.items;
      hits = d.hits.items;
      notes = d.notes.items;
      segment_room = vec_capacity d.segments;
      hit_room = vec_capacity d.hits;
      note_room = vec_capacity d.notes;
    } };
}

// Appends to a vector that has room, so that no memory is needed.
fn push_within<T: Copy>(items: &mut Vec<T>, item: T)
    requires { vec_len items.old < vec_capacity items.old }
    ensures items { items.new.items ≡ items.old.items ++ item ∷ [] }
    ensures room { vec_capacity items.new ≡ vec_capacity items.old }
{
    items.push_reserved(item);
}

// Room for so many items in all. Where there is room it takes no memory.
fn make_room_for<T>(items: &mut Vec<T>, count: usize) -> Result<(), Memory>
    ensures items { items.new.items ≡ items.old.items }
    ensures room { OnOk result (count ≤ vec_capacity items.new) }
    ensures grows { vec_capacity items.old ≤ vec_capacity items.new }
    ensures ready { count ≤ vec_capacity items.old → IsOk result }
    ensures kept { count ≤ vec_capacity items.old →
        vec_capacity items.new ≡ vec_capacity items.old }
{
    if count <= items.capacity() {
        return Ok(());
    }
    items.reserve(count - items.len())?;
    Ok(())
}

// The mark of a trip.
pub(crate) fn mark_on<S: Scan>(marks: &Marks, scan: &S, trip: TripNo) -> u32
    requires trip { trip < length (S.net scan.now).table.trips }
    requires room { trip < length marks.now }
    ensures { result ≡ mark_of (S.net scan.now).table marks.now trip }
{
    match marks.get(trip) {
        Some(at) => at,
        None => scan.last_at(trip),
    }
}

// Lowers the marks of a trip and of the later trips of its line to the index, where they are
// greater. Along a line marks never rise, so it stops at the first that isn't greater. All trips of
// a line have the same last index, which is the mark of those that no search has marked: it is
// greater than the index for all of them or for none.
pub(crate) fn lower_marks<S: Scan>(
    marks: &mut Marks,
    scan: &S,
    trip: TripNo,
    onward: &[TripNo],
    at: u32,
    last: u32,
)
    requires trip { trip < length (S.net scan.now).table.trips }
    requires onward { onward.now ≡ trips_from (S.net scan.now).lines trip }
    requires there { All (λ u. u < length (S.net scan.now).table.trips) onward.now }
    requires room { length (S.net scan.now).table.trips ≤ length marks.old }
    requires divided { AreDividedInto (S.net scan.now).table (S.net scan.now).lines }
    requires falling { IsFalling (S.net scan.now).table marks.old
        (trips_from (S.net scan.now).lines trip) }
    requires last { (at < last) ↔ (at < last_index (S.net scan.now).table trip) }
    ensures trips { length marks.new ≡ length marks.old }
    ensures marks { (u : ℕ) → u < length (S.net scan.now).table.trips →
        mark_of (S.net scan.now).table marks.new u
        ≡ lowered_mark (trips_from (S.net scan.now).lines trip) at u
        (mark_of (S.net scan.now).table marks.old u) }
{
    scan.soundness();
    if at < last {
        marks.lower(onward, at);
        return;
    }
    for later in onward {
        if marks.get_or(*later, last) <= at {
            return;
        }
        marks.put(*later, at);
    }
}

impl Desk {
    /// A desk without room.
    pub fn new(alloc: Global) -> Desk
        ensures { result ≡ record {
          marks = [];
          segments = [];
          hits = [];
          notes = [];
          segment_room = 0;
          hit_room = 0;
          note_room = 0;
        } }
    {
        Desk {
            marks: Marks::new(alloc),
            segments: Vec::new(alloc),
            hits: Vec::new(alloc),
            notes: Vec::new(alloc),
            ahead: Ahead::new(),
        }
    }

    /// Room for the scan: the desk fits it. Where it fits already this isn't refused, and takes no
    /// memory. At a refusal it fits what it fitted. What was in step stays so.
    pub fn make_room<S: Scan>(&mut self, scan: &S) -> Result<(), Memory>
        ensures fits { OnOk result (Fits (S.net scan.now).table self.new) }
        ensures ready { Fits (S.net scan.now).table self.old → IsOk result }
        ensures kept { Fits (S.net scan.now).table self.old → self.new ≡ self.old }
        ensures still { (T : TimetableData) → Fits T self.old → Fits T self.new }
        ensures step { (N : NetData) → IsInStep N self.old → IsInStep N self.new }
        ensures marks { (more : ℕ) × (self.new.marks ≡ self.old.marks ++ replicate more None) }
        ensures segments { self.new.segments ≡ self.old.segments }
        ensures hits { self.new.hits ≡ self.old.hits }
        ensures notes { self.new.notes ≡ self.old.notes }
    {
        scan.soundness();
        let shape = scan.shape();
        self.marks.make_room(shape.trips)?;
        make_room_for(&mut self.segments, shape.events as usize)?;
        make_room_for(&mut self.hits, shape.events as usize + 1)?;
        make_room_for(&mut self.notes, shape.events as usize)?;
        Ok(())
    }

    /// Empties the queue, the marks, the hits and the notes.
    pub fn begin<S: Scan>(&mut self, scan: &S, _query: &Query)
        requires { Fits (S.net scan.now).table self.old }
        ensures step { IsInStep (S.net scan.now) self.new }
        ensures emptied { self.new ≡ record self.old {
          marks = replicate (length self.old.marks) None;
          segments = [];
          hits = [];
          notes = [];
        } }
    {
        scan.soundness();
        self.marks.begin();
        self.segments.clear();
        self.hits.clear();
        self.notes.clear();
    }

    /// Enters a trip at an index. Where the index is below the trip's mark, the segment from there
    /// up to the mark joins the queue, and the marks of the trip and of the later trips of its line
    /// fall to the index where they are greater.
    #[inline(always)]
    pub fn reach<S: Scan>(
        &mut self,
        scan: &S,
        trip: TripNo,
        at: u32,
        parent: Option<(u32, u32)>,
    ) -> bool
        requires step { IsInStep (S.net scan.now) self.old }
        requires trip { trip < length (S.net scan.now).table.trips }
        ensures step { IsInStep (S.net scan.now) self.new }
        ensures told { IsTrue result ↔ (at < mark_of (S.net scan.now).table self.old.marks trip) }
        ensures entered { MatchBool result
            (EntersSegment (S.net scan.now) trip at parent self.old self.new)
            (self.new ≡ self.old) }
    {
        scan.soundness();
        if self.marks.is_passed(trip, at) {
            return false;
        }
        self.enter(scan, trip, at, parent)
    }

    /// Whether a trip has been reached at an index or before: then to enter it there changes
    /// nothing. Of a trip without a mark it may say no although the index is its last.
    #[inline(always)]
    pub fn is_passed<S: Scan>(&self, scan: &S, trip: TripNo, at: u32) -> bool
        requires step { IsInStep (S.net scan.now) self.now }
        requires trip { trip < length (S.net scan.now).table.trips }
        ensures { MatchBool result (mark_of (S.net scan.now).table self.now.marks trip ≤ at)
            (IsSomeAnd (slice_index_or self.now.marks trip None) (λ m. m ≤ at) → ⊥) }
    {
        scan.soundness();
        self.marks.is_passed(trip, at)
    }

    /// Writes down the places, from one up to another, of the hops that lead to a trip that wasn't
    /// passed, and answers how many they are. No branch hangs on a hop.
    #[inline(always)]
    pub fn open_places<S: Scan>(
        &self,
        scan: &S,
        hops: &Hops<'_>,
        from: usize,
        to: usize,
        places: &mut [usize],
    ) -> usize
        requires step { IsInStep (S.net scan.now) self.now }
        requires trips { All (λ h. h.trip < length (S.net scan.now).table.trips) (lent hops.now) }
        requires from { from ≤ to }
        requires to { to ≤ length (lent hops.now) }
        requires room { to - from ≤ length places.old }
        ensures long { length places.new ≡ length places.old }
        ensures count { result ≤ to - from }
        ensures within { All (λ k. k < to) (take result places.new) }
        ensures open { HoldOpen (λ h. mark_of (S.net scan.now).table self.now.marks h.trip ≤ h.at)
            (lent hops.now) from to (take result places.new) }
    {
        scan.soundness();
        self.marks.open_places(hops, from, to, places)
    }

    // Enters a trip at an index, as `reach` does: most hops lead to a trip that was passed, and
    // don't come here.
    #[inline(never)]
    fn enter<S: Scan>(
        &mut self,
        scan: &S,
        trip: TripNo,
        at: u32,
        parent: Option<(u32, u32)>,
    ) -> bool
        requires step { IsInStep (S.net scan.now) self.old }
        requires trip { trip < length (S.net scan.now).table.trips }
        ensures step { IsInStep (S.net scan.now) self.new }
        ensures told { IsTrue result ↔ (at < mark_of (S.net scan.now).table self.old.marks trip) }
        ensures entered { MatchBool result
            (EntersSegment (S.net scan.now) trip at parent self.old self.new)
            (self.new ≡ self.old) }
    {
        scan.soundness();
        let end = mark_on(&self.marks, scan, trip);
        if end <= at {
            return false;
        }
        push_within(
            &mut self.segments,
            Segment {
                trip,
                board: at,
                end,
                parent,
            },
        );
        lower_marks(&mut self.marks, scan, trip, scan.onward(trip), at, end);
        true
    }

    /// Appends a segment, whatever the marks say. It needs memory, where there is no room; at a
    /// refusal the desk holds what it held, and fits what it fitted.
    pub fn add_segment(&mut self, segment: Segment) -> Result<(), Memory>
        ensures segments { OnOk result (self.new.segments ≡ self.old.segments ++ segment ∷ []) }
        ensures refused { OnErr result (self.new.segments ≡ self.old.segments) }
        ensures hits { self.new.hits ≡ self.old.hits }
        ensures marks { self.new.marks ≡ self.old.marks }
        ensures notes { self.new.notes ≡ self.old.notes }
        ensures still { (T : TimetableData) → Fits T self.old → Fits T self.new }
    {
        self.segments.push(segment)?;
        Ok(())
    }

    /// How many segments there are.
    pub fn segment_count(&self) -> usize
        ensures { result ≡ length self.now.segments }
    {
        self.segments.len()
    }

    /// Segment `n` of the queue, and none past the last.
    pub fn segment(&self, n: u32) -> Option<Segment>
        ensures { result ≡ slice_get self.now.segments n }
    {
        self.segments.get(n as usize).copied()
    }

    /// Up to which index a segment has to be looked at: no further than the mark of the trip just
    /// before on its line. Whoever sits in that trip is at all behind its mark as early. Whoever
    /// calls it sees to it that this takes no more rides, as it does where no segment of a later
    /// round was entered.
    pub fn clipped_end<S: Scan>(&self, scan: &S, segment: &Segment) -> u32
        requires sound { IsSoundSegment (S.net scan.now).table segment.now }
        requires room { length (S.net scan.now).table.trips ≤ length self.now.marks }
        ensures { IsClipped (S.net scan.now) self.now.marks segment.now result }
    {
        scan.soundness();
        match scan.before(segment.trip) {
            Some(before) => segment.end.min(self.marks.get_or(before, segment.end)),
            None => segment.end,
        }
    }

    /// Appends a hit.
    pub fn add_hit(&mut self, hit: Hit)
        requires { length self.old.hits < self.old.hit_room }
        ensures { self.new ≡ record self.old { hits = self.old.hits ++ hit ∷ [] } }
    {
        push_within(&mut self.hits, hit);
    }

    /// Appends a hit. It needs memory, where there is no room; at a refusal the desk holds what it
    /// held, and fits what it fitted.
    pub fn push_hit(&mut self, hit: Hit) -> Result<(), Memory>
        ensures hits { OnOk result (self.new.hits ≡ self.old.hits ++ hit ∷ []) }
        ensures refused { OnErr result (self.new.hits ≡ self.old.hits) }
        ensures segments { self.new.segments ≡ self.old.segments }
        ensures marks { self.new.marks ≡ self.old.marks }
        ensures notes { self.new.notes ≡ self.old.notes }
        ensures still { (T : TimetableData) → Fits T self.old → Fits T self.new }
    {
        let count = self.hits.len() + 1;
        make_room_for(&mut self.hits, count)?;
        push_within(&mut self.hits, hit);
        Ok(())
    }

    /// Lets the hits go, and keeps all else.
    pub fn clear_hits(&mut self)
        ensures { self.new ≡ record self.old { hits = [] } }
    {
        self.hits.clear();
    }

    /// The hits, in order.
    pub fn hits(&self) -> &[Hit]
        ensures { result.now ≡ self.now.hits }
    {
        self.hits.as_slice()
    }
}
