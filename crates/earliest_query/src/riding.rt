ghost use Rattle.std.specs.Prelude.{◌≡◌, ◌+◌, ◌-◌, ◌<◌, ◌≤◌, ◌⊎◌, ◌++◌, ℕ, suc, Some, All, Contains, IfSome, IsTrue, ◌↔◌, MatchBool, MatchOption, length, pos, slice_get, ◌≤ℤ◌};
ghost use Rattle.tb_base.specs.Sufficiency.{AreSufficient};
ghost use Rattle.tb_base.specs.Walking.{walk};
ghost use Rattle.segment_queue.specs.Queue.{IsClipped, covered_indices};
ghost use Rattle.segment_queue.specs.Scans.{followed_seen, hops_seen, seen_arr, seen_first, seen_last, seen_trip};
ghost use Rattle.segment_queue.specs.Traced.{round_of, segment_of};
ghost use Rattle.segment_queue.specs.declared.desk.Segment.{Segment};
ghost use Rattle.segment_queue.specs.declared.notes.Note.{Note};
ghost use Rattle.transfer_pack.specs.Words.{lent};
ghost use Rattle.earliest_query.specs.Choices.{ArrivesBy, IsWeighed, alighting_hit, earlier_hit};
ghost use Rattle.earliest_query.specs.Meeting.{IsMetInTime};
ghost use Rattle.earliest_query.specs.Noted.{IsOf, IsSeenBehind, IsSoundNote, IsWeighedOff, note_of, notes_of};
ghost use Rattle.earliest_query.specs.UnderWay.{Covers, AddsSegments, IsDealtWith, IsDone, IsImproved, IsOutdone, IsQueue, IsReachedBy, covered_before, room_of};

use super::at_event::AtEvent;
use super::search::Search;
use super::walks::{nearest, targets};
use segment_queue::{Desk, Followed, Hit, LastLeg, Look, Note, Scan, Seen, Steps, Visit};
use std::sync::ledger::Ledger;
use tb_base::{Hop, Path, StopNo, Value};

// How many segments are clipped at a time: so few that what was read then is still at hand when
// they are weighed.
const STRETCH: u32 = 128;

/// How many hops are tried at a time.
pub(crate) const TRIED: usize = 64;

// Whether one may alight at an event, and it is reached before the best hit so far arrives.
fn may_improve(best: &Option<Hit>, visit: &Visit) -> bool
    ensures { MatchBool result (IsTrue visit.now.alight) (IsTrue visit.now.alight →
        ArrivesBy best.now visit.now.arr) }
{
    match best {
        Some(hit) => visit.alight && visit.arr < hit.value.arrive,
        None => visit.alight,
    }
}

// Whether the best hit so far arrives no later than an event is reached.
pub(crate) fn is_late(best: &Option<Hit>, visit: &Visit) -> bool
    ensures { IsTrue result ↔ ArrivesBy best.now visit.now.arr }
{
    match best {
        Some(hit) => hit.value.arrive <= visit.arr,
        None => false,
    }
}

// Whether the best hit arrives no later than the first of the events that were noted is reached.
fn is_noted_late(best: &Option<Hit>, note: &Note) -> bool
    ensures { IsTrue result ↔ ArrivesBy best.now (seen_arr note.now.seen) }
{
    match best {
        Some(hit) => hit.value.arrive <= note.seen.arr(),
        None => false,
    }
}

// What has been seen of a trip, with the event behind it.
pub(crate) fn seen_on(seen: Option<Seen>, next: Seen) -> Seen
    requires { IfSome seen (λ s. IsSeenBehind s next) }
    ensures trip { seen_trip result ≡ seen_trip next }
    ensures last { seen_last result ≡ seen_last next }
    ensures first { MatchOption seen
        ((seen_first result ≡ seen_first next) × (seen_arr result ≡ seen_arr next))
        (λ s. (seen_first result ≡ seen_first s) × (seen_arr result ≡ seen_arr s)) }
{
    match seen {
        Some(seen) => seen.and(next),
        None => next,
    }
}

// Notes what was seen of a segment, to go on from.
fn note_down(desk: &mut Desk, segment: u32, seen: Option<Seen>)
    requires { length desk.old.notes < desk.old.note_room }
    ensures { desk.new ≡ record desk.old { notes = desk.old.notes ++ notes_of segment seen } }
{
    if let Some(seen) = seen {
        desk.add_note(Note { segment, seen });
    }
}

// The earlier of the best hit so far and another.
pub(crate) fn earlier(best: Option<Hit>, hit: Hit) -> Option<Hit>
    ensures { result ≡ earlier_hit best hit }
{
    match best {
        Some(other) => {
            if hit.value.arrive < other.value.arrive {
                Some(hit)
            } else {
                Some(other)
            }
        }
        None => Some(hit),
    }
}

// To alight at an event, and to walk on by this path.
fn alighting(visit: &Visit, path: Path, entry: u32, at: u32, round: u32) -> Hit
    requires arr { visit.now.arr ≤ℤ pos 359999 }
    requires secs { path.secs ≤ 86400 }
    ensures { result ≡ alighting_hit visit.now.arr path entry at round }
{
    Hit {
        value: Value {
            arrive: visit.arr + path.secs as i32,
            rides: round,
        },
        last: LastLeg::Aboard {
            entry,
            at,
            to: path.to,
        },
    }
}

impl<S: Scan> Search<'_, S> {
    // Whether there may be a walk from a stop to a target: not where its group is another than that
    // of all targets.
    #[inline(always)]
    fn may_be_near(&self, p: StopNo) -> bool
        requires { p < length (S.net self.now.scan.now).table.stops }
        ensures { (q secs : ℕ) → Contains self.now.query.now.to q →
            walk (S.net self.now.scan.now).table p q ≡ Some secs → IsTrue result }
    {
        match self.target_group {
            Some(group) => self.groups[p.index()] == group,
            None => true,
        }
    }

    // Makes it the best hit to alight at an event of a segment, where one may, and walk on to the
    // nearest target, where that is earlier. Few events come here.
    #[inline(never)]
    fn weigh_near(&self, best: &mut Option<Hit>, visit: &Visit, entry: u32, at: u32, round: u32)
        requires stop { visit.now.stop < length (S.net self.now.scan.now).table.stops }
        requires arr { visit.now.arr ≤ℤ pos 359999 }
        requires alight { IsTrue visit.now.alight }
        ensures { IsWeighed (S.net self.now.scan.now).table self.now.query.now visit.now.stop
            visit.now.arr visit.now.alight entry at round best.old best.new }
    {
        let Some(path) = nearest(self.scan, visit.stop, targets(self.query)) else {
            return;
        };
        *best = earlier(*best, alighting(visit, path, entry, at, round));
    }

    // Makes it the best hit to alight at an event of a segment, where that is earlier.
    #[inline(always)]
    pub(crate) fn weigh(
        &self,
        best: &mut Option<Hit>,
        visit: &Visit,
        entry: u32,
        at: u32,
        round: u32,
    )
        requires stop { visit.now.stop < length (S.net self.now.scan.now).table.stops }
        requires arr { visit.now.arr ≤ℤ pos 359999 }
        ensures { IsWeighed (S.net self.now.scan.now).table self.now.query.now visit.now.stop
            visit.now.arr visit.now.alight entry at round best.old best.new }
    {
        if !may_improve(best, visit) || !self.may_be_near(visit.stop) {
            return;
        }
        self.weigh_near(best, visit, entry, at, round);
    }

    // Looks at the indices that a segment covers one by one, and weighs to alight there. It ends
    // where one gets no earlier than the best hit so far arrives, and where it is clipped: there
    // the trip before on the line has been entered, in which one is there as early with no more
    // rides. Answers what it has seen before.
    fn weigh_events<L: Ledger, A: AtEvent<S>>(
        &self,
        desk: &Desk,
        n: u32,
        end: u32,
        round: u32,
        best: &mut Option<Hit>,
        also: &mut A,
        steps: &mut Steps<L>,
    ) -> Option<Seen>
    where
        S: Look<L>,
        requires queue { IsQueue (S.net self.now.scan.now) self.now.query.now desk.now round }
        requires segment { n < length desk.now.segments }
        requires round { round_of desk.now.segments n ≡ round }
        requires ready { (later : ℕ) → round ≤ later →
            A.is_ready also.old (S.net self.now.scan.now) self.now.query.now later }
        requires clipped { (s : Segment) → slice_get desk.now.segments n ≡ Some s →
            IsClipped (S.net self.now.scan.now) desk.now.marks s end }
        ensures seen { All (IsSoundNote (S.net self.now.scan.now) desk.now.segments round)
            (notes_of n result) }
        ensures weighed { (i : ℕ) → Covers desk.now n i →
            IsWeighedOff (S.net self.now.scan.now) self.now.query.now desk.now best.new
            (notes_of n result) n i
            ⊎ IsOutdone (S.net self.now.scan.now) desk.now.segments n i }
        ensures improved { IsImproved (S.net self.now.scan.now).table self.now.query.now desk.now
            round best.old best.new }
        ensures met { (i : ℕ) → Covers desk.now n i →
            IsMetInTime (S.net self.now.scan.now) (A.has_met also.new (S.net self.now.scan.now))
            desk.now best.new n i }
        ensures ready { (later : ℕ) → round ≤ later →
            A.is_ready also.new (S.net self.now.scan.now) self.now.query.now later }
        ensures still_met { (t i r : ℕ) → A.has_met also.old (S.net self.now.scan.now) t i r →
            A.has_met also.new (S.net self.now.scan.now) t i r }
        ensures steps { steps.new ≤ steps.old + covered_indices (segment_of desk.now.segments n) }
    {
        let scan = self.scan;
        scan.soundness();
        let Some(segment) = desk.segment(n) else {
            return None;
        };
        let mut seen = None;
        for before in segment.board..end {
            let at = before + 1;
            let visit = scan.visit(segment.trip, at, steps);
            also.meet(self, &segment, at, round, &visit);
            self.weigh(best, &visit, n, at, round);
            if is_late(best, &visit) {
                return seen;
            }
            seen = Some(seen_on(seen, visit.seen));
        }
        seen
    }

    // Weighs a segment, and notes what was seen of it to go on from.
    fn weigh_segment<L: Ledger, A: AtEvent<S>>(
        &self,
        desk: &mut Desk,
        n: u32,
        end: u32,
        round: u32,
        best: &mut Option<Hit>,
        also: &mut A,
        steps: &mut Steps<L>,
    )
    where
        S: Look<L>,
        requires queue { IsQueue (S.net self.now.scan.now) self.now.query.now desk.old round }
        requires segment { n < length desk.old.segments }
        requires round { round_of desk.old.segments n ≡ round }
        requires room { length desk.old.notes + covered_indices (segment_of desk.old.segments n)
            ≤ desk.old.note_room }
        requires notes { All (IsSoundNote (S.net self.now.scan.now) desk.old.segments round)
            desk.old.notes }
        requires ready { (later : ℕ) → round ≤ later →
            A.is_ready also.old (S.net self.now.scan.now) self.now.query.now later }
        requires clipped { (s : Segment) → slice_get desk.old.segments n ≡ Some s →
            IsClipped (S.net self.now.scan.now) desk.old.marks s end }
        ensures rest { desk.new ≡ record desk.old { notes = desk.new.notes } }
        ensures notes { All (IsSoundNote (S.net self.now.scan.now) desk.old.segments round)
            desk.new.notes }
        ensures kept { (note : Note) → Contains desk.old.notes note → Contains desk.new.notes note }
        ensures weighed { (i : ℕ) → Covers desk.old n i →
            IsWeighedOff (S.net self.now.scan.now) self.now.query.now desk.old best.new
            desk.new.notes n i
            ⊎ IsOutdone (S.net self.now.scan.now) desk.old.segments n i }
        ensures improved { IsImproved (S.net self.now.scan.now).table self.now.query.now desk.old
            round best.old best.new }
        ensures met { (i : ℕ) → Covers desk.old n i →
            IsMetInTime (S.net self.now.scan.now) (A.has_met also.new (S.net self.now.scan.now))
            desk.old best.new n i }
        ensures ready { (later : ℕ) → round ≤ later →
            A.is_ready also.new (S.net self.now.scan.now) self.now.query.now later }
        ensures still_met { (t i r : ℕ) → A.has_met also.old (S.net self.now.scan.now) t i r →
            A.has_met also.new (S.net self.now.scan.now) t i r }
        ensures few { length desk.new.notes
            ≤ length desk.old.notes + covered_indices (segment_of desk.old.segments n) }
        ensures steps { steps.new ≤ steps.old + covered_indices (segment_of desk.old.segments n) }
    {
        let seen = self.weigh_events(desk, n, end, round, best, also, steps);
        note_down(desk, n, seen);
    }

    // Weighs the segments of a round, from one number up to another.
    fn weigh_round<L: Ledger, A: AtEvent<S>>(
        &self,
        desk: &mut Desk,
        from: u32,
        to: u32,
        round: u32,
        so_far: Option<Hit>,
        also: &mut A,
        steps: &mut Steps<L>,
    ) -> Option<Hit>
    where
        S: Look<L>,
        requires queue { IsQueue (S.net self.now.scan.now) self.now.query.now desk.old round }
        requires from { from ≤ to }
        requires to { to ≤ length desk.old.segments }
        requires rounds { (n : ℕ) → from ≤ n → n < to → round_of desk.old.segments n ≡ round }
        requires ready { (later : ℕ) → round ≤ later →
            A.is_ready also.old (S.net self.now.scan.now) self.now.query.now later }
        ensures rest { desk.new ≡ record desk.old { notes = desk.new.notes } }
        ensures notes { All (IsSoundNote (S.net self.now.scan.now) desk.old.segments round)
            desk.new.notes }
        ensures weighed { (n i : ℕ) → from ≤ n → n < to → Covers desk.old n i →
            IsWeighedOff (S.net self.now.scan.now) self.now.query.now desk.old result
            desk.new.notes n i
            ⊎ IsOutdone (S.net self.now.scan.now) desk.old.segments n i }
        ensures improved { IsImproved (S.net self.now.scan.now).table self.now.query.now desk.old
            round so_far result }
        ensures met { (n i : ℕ) → from ≤ n → n < to → Covers desk.old n i →
            IsMetInTime (S.net self.now.scan.now) (A.has_met also.new (S.net self.now.scan.now))
            desk.old result n i }
        ensures ready { (later : ℕ) → round ≤ later →
            A.is_ready also.new (S.net self.now.scan.now) self.now.query.now later }
        ensures still_met { (t i r : ℕ) → A.has_met also.old (S.net self.now.scan.now) t i r →
            A.has_met also.new (S.net self.now.scan.now) t i r }
        ensures steps { steps.new + covered_before desk.old.segments from
            ≤ steps.old + covered_before desk.old.segments to }
    {
        desk.clear_notes();
        let mut ends = [0; STRETCH as usize];
        let mut best = so_far;
        let mut next = from;
        while next < to {
            let ahead = (to - next).min(STRETCH);
            let stop = next + ahead;
            desk.clip_ahead(self.scan, next, stop, &mut ends);
            for n in next..stop {
                let end = ends[(n - next) as usize];
                self.weigh_segment(desk, n, end, round, &mut best, also, steps);
            }
            next = stop;
        }
        best
    }

    // Follows the hop with this place among those from the events that were noted.
    fn follow_hop(
        &self,
        desk: &mut Desk,
        hop: Hop,
        segment: u32,
        followed: &Followed<'_>,
        place: usize,
        round: u32,
    )
        requires queue { IsQueue (S.net self.now.scan.now) self.now.query.now desk.old (suc round) }
        requires note { IsSoundNote (S.net self.now.scan.now) desk.old.segments round
            (note_of segment followed.now) }
        requires hop { slice_get (hops_seen (S.net self.now.scan.now).hops
            (followed_seen followed.now)) place ≡ Some hop }
        requires sufficient { AreSufficient (S.net self.now.scan.now).table
            (S.net self.now.scan.now).hops }
        ensures queue { IsQueue (S.net self.now.scan.now) self.now.query.now desk.new (suc round) }
        ensures extends { AddsSegments desk.old desk.new (suc round) }
        ensures room { room_of desk.new ≡ room_of desk.old }
        ensures notes { desk.new.notes ≡ desk.old.notes }
        ensures reached { IsReachedBy (S.net self.now.scan.now).table desk.new
            (length desk.new.segments) (suc round) hop.trip hop.at }
    {
        let scan = self.scan;
        scan.soundness();
        if desk.is_passed(scan, hop.trip, hop.at) {
            return;
        }
        let at = scan.event_of(followed, place);
        self.enter(desk, hop, Some((segment, at)));
    }

    // Follows the hops with places from one up to another among those from the events that were
    // noted. First the places of those that lead on are written down: marks only fall, so whoever
    // was passed then is passed still, and most are.
    fn follow_some(
        &self,
        desk: &mut Desk,
        segment: u32,
        followed: &Followed<'_>,
        from: usize,
        to: usize,
        round: u32,
        places: &mut [usize],
    )
        requires queue { IsQueue (S.net self.now.scan.now) self.now.query.now desk.old (suc round) }
        requires note { IsSoundNote (S.net self.now.scan.now) desk.old.segments round
            (note_of segment followed.now) }
        requires hops { lent followed.now.hops ≡ hops_seen (S.net self.now.scan.now).hops
            (followed_seen followed.now) }
        requires from { from ≤ to }
        requires to { to ≤ length (lent followed.now.hops) }
        requires room { to - from ≤ length places.old }
        requires sufficient { AreSufficient (S.net self.now.scan.now).table
            (S.net self.now.scan.now).hops }
        ensures queue { IsQueue (S.net self.now.scan.now) self.now.query.now desk.new (suc round) }
        ensures extends { AddsSegments desk.old desk.new (suc round) }
        ensures room { room_of desk.new ≡ room_of desk.old }
        ensures notes { desk.new.notes ≡ desk.old.notes }
        ensures places { length places.new ≡ length places.old }
        ensures reached { (k : ℕ) (h : Hop) → from ≤ k → k < to →
            slice_get (lent followed.now.hops) k ≡ Some h →
            IsReachedBy (S.net self.now.scan.now).table desk.new (length desk.new.segments)
            (suc round) h.trip h.at }
    {
        let scan = self.scan;
        scan.soundness();
        let hops = followed.hops;
        let count = desk.open_places(scan, &hops, from, to, places);
        for k in 0..count {
            let place = places[k];
            self.follow_hop(desk, hops.at(place), segment, followed, place, round);
        }
    }

    // Follows the hops from the events that were noted, unless one gets to the first no earlier
    // than the best hit arrives.
    fn follow_note(
        &self,
        desk: &mut Desk,
        best: &Option<Hit>,
        note: Note,
        round: u32,
        places: &mut [usize],
    )
        requires room { 64 ≤ length places.old }
        requires queue { IsQueue (S.net self.now.scan.now) self.now.query.now desk.old (suc round) }
        requires note { IsSoundNote (S.net self.now.scan.now) desk.old.segments round note }
        requires sufficient { AreSufficient (S.net self.now.scan.now).table
            (S.net self.now.scan.now).hops }
        ensures queue { IsQueue (S.net self.now.scan.now) self.now.query.now desk.new (suc round) }
        ensures extends { AddsSegments desk.old desk.new (suc round) }
        ensures room { room_of desk.new ≡ room_of desk.old }
        ensures notes { desk.new.notes ≡ desk.old.notes }
        ensures places { length places.new ≡ length places.old }
        ensures done { (i : ℕ) → IsOf note note.segment i →
            IsDone (S.net self.now.scan.now) desk.new best.now note.segment i }
    {
        let scan = self.scan;
        scan.soundness();
        if is_noted_late(best, &note) {
            return;
        }
        let segment = note.segment;
        let followed = scan.hops_from(note.seen);
        let count = followed.hops.count();
        let mut from = 0;
        while from < count {
            let tried = (count - from).min(TRIED);
            self.follow_some(desk, segment, &followed, from, from + tried, round, places);
            from += tried;
        }
    }

    // Follows the hops from all events that were noted, and leaves no note to follow.
    fn follow_notes(&self, desk: &mut Desk, best: &Option<Hit>, round: u32)
        requires queue { IsQueue (S.net self.now.scan.now) self.now.query.now desk.old (suc round) }
        requires notes { All (IsSoundNote (S.net self.now.scan.now) desk.old.segments round)
            desk.old.notes }
        requires sufficient { AreSufficient (S.net self.now.scan.now).table
            (S.net self.now.scan.now).hops }
        ensures queue { IsQueue (S.net self.now.scan.now) self.now.query.now desk.new (suc round) }
        ensures extends { AddsSegments desk.old desk.new (suc round) }
        ensures room { room_of desk.new ≡ room_of desk.old }
        ensures done { (note : Note) (i : ℕ) → Contains desk.old.notes note →
            IsOf note note.segment i →
            IsDone (S.net self.now.scan.now) desk.new best.now note.segment i }
    {
        self.scan.soundness();
        let mut places = [0; TRIED];
        for k in 0..desk.note_count() {
            desk.read_notes_ahead(self.scan, k);
            let note = desk.take_note(k);
            self.follow_note(desk, best, note, round, &mut places);
        }
    }

    // Rides the segments of a round, from one number up to another: weighs all of them, and then
    // goes on from where one gets before the best hit.
    pub(crate) fn ride_round<L: Ledger, A: AtEvent<S>>(
        &self,
        desk: &mut Desk,
        from: u32,
        to: u32,
        round: u32,
        so_far: Option<Hit>,
        also: &mut A,
        steps: &mut Steps<L>,
    ) -> Option<Hit>
    where
        S: Look<L>,
        requires queue { IsQueue (S.net self.now.scan.now) self.now.query.now desk.old round }
        requires from { from ≤ to }
        requires to { to ≤ length desk.old.segments }
        requires rounds { (n : ℕ) → from ≤ n → n < to → round_of desk.old.segments n ≡ round }
        requires ready { (later : ℕ) → round ≤ later →
            A.is_ready also.old (S.net self.now.scan.now) self.now.query.now later }
        requires sufficient { AreSufficient (S.net self.now.scan.now).table
            (S.net self.now.scan.now).hops }
        ensures queue { IsQueue (S.net self.now.scan.now) self.now.query.now desk.new (suc round) }
        ensures extends { AddsSegments desk.old desk.new (suc round) }
        ensures room { room_of desk.new ≡ room_of desk.old }
        ensures ridden { (n i : ℕ) → from ≤ n → n < to → Covers desk.old n i →
            IsDealtWith (S.net self.now.scan.now) self.now.query.now desk.new result n i
            ⊎ IsOutdone (S.net self.now.scan.now) desk.new.segments n i }
        ensures improved { IsImproved (S.net self.now.scan.now).table self.now.query.now desk.new
            round so_far result }
        ensures met { (n i : ℕ) → from ≤ n → n < to → Covers desk.old n i →
            IsMetInTime (S.net self.now.scan.now) (A.has_met also.new (S.net self.now.scan.now))
            desk.new result n i }
        ensures ready { (later : ℕ) → round ≤ later →
            A.is_ready also.new (S.net self.now.scan.now) self.now.query.now later }
        ensures still_met { (t i r : ℕ) → A.has_met also.old (S.net self.now.scan.now) t i r →
            A.has_met also.new (S.net self.now.scan.now) t i r }
        ensures steps { steps.new + covered_before desk.old.segments from
            ≤ steps.old + covered_before desk.old.segments to }
    {
        let best = self.weigh_round(desk, from, to, round, so_far, also, steps);
        self.follow_notes(desk, &best, round);
        best
    }
}
