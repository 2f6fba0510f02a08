ghost use Rattle.std.specs.Prelude.{◌≡◌, ◌+◌, ◌<◌, ◌≤◌, ◌++◌, ℕ, List, Some, All, Contains, IfSome, length, pos, ◌+ℤ◌, ◌≤ℤ◌};
ghost use Rattle.tb_base.specs.Sufficiency.{AreSufficient};
ghost use Rattle.tb_base.specs.Walking.{walk};
ghost use Rattle.segment_queue.specs.Queue.{IsInStep};
ghost use Rattle.segment_queue.specs.Traced.{IsTracedHit};
ghost use Rattle.segment_queue.specs.declared.desk.Segment.{Segment};
ghost use Rattle.earliest_query.specs.Choices.{ArrivesBy, IsWalked, hits_of, last_of, walking_hit};
ghost use Rattle.earliest_query.specs.Meeting.{IsMetUnlessHit};
ghost use Rattle.earliest_query.specs.UnderWay.{Covers, covered_before, room_of};
ghost use Rattle.earliest_query.specs.Ridden.{IsRidden};

use super::at_event::AtEvent;
use super::riding::earlier;
use super::search::Search;
use super::walks::{after, nearest, origins, targets};
use segment_queue::{Desk, Hit, LastLeg, Look, Scan, Steps};
use std::sync::ledger::Ledger;
use tb_base::{Path, Query, StopNo, Value};

// A walk from an origin by this path.
fn walking(query: &Query, origin: StopNo, path: Path) -> Hit
    requires leave { query.now.leave ≤ℤ pos 359999 }
    requires secs { path.secs ≤ 86400 }
    ensures { result ≡ walking_hit query.now.leave origin path }
{
    Hit {
        value: Value {
            arrive: after(query, path.secs),
            rides: 0,
        },
        last: LastLeg::OnFoot {
            from: origin,
            to: path.to,
        },
    }
}

// The last hit of a desk.
pub(crate) fn last_hit(desk: &Desk) -> Option<Hit>
    ensures { result ≡ last_of desk.now.hits }
{
    let hits = desk.hits();
    if hits.is_empty() {
        return None;
    }
    Some(hits[hits.len() - 1])
}

// Adds the best hit so far to the hits, if it is of this round.
pub(crate) fn keep(desk: &mut Desk, best: Option<Hit>, round: u32)
    requires { length desk.old.hits < desk.old.hit_room }
    ensures { desk.new ≡ record desk.old { hits = desk.old.hits ++ hits_of round best } }
{
    if let Some(hit) = best {
        if hit.value.rides == round {
            desk.add_hit(hit);
        }
    }
}

impl<S: Scan> Search<'_, S> {
    // The better of the best walk so far and the walk from an origin to the nearest target.
    fn walk_from(&self, best: Option<Hit>, origin: StopNo) -> Option<Hit>
        requires origin { origin < length (S.net self.now.scan.now).table.stops }
        requires from { Contains self.now.query.now.from origin }
        requires leave { self.now.query.now.leave ≤ℤ pos 359999 }
        ensures { IsWalked (S.net self.now.scan.now).table self.now.query.now origin best result }
    {
        match nearest(self.scan, origin, targets(self.query)) {
            Some(path) => earlier(best, walking(self.query, origin, path)),
            None => best,
        }
    }

    // The best walk from an origin to a target.
    pub(crate) fn walk_hit(&self) -> Option<Hit>
        requires origins { All (λ p. p < length (S.net self.now.scan.now).table.stops)
            self.now.query.now.from }
        requires leave { self.now.query.now.leave ≤ℤ pos 359999 }
        ensures traced { IfSome result
            (λ h. ((segments : List Segment) →
            IsTracedHit (S.net self.now.scan.now).table self.now.query.now segments h)
            × (h.value.rides ≡ 0)) }
        ensures bounded { (p q secs : ℕ) → Contains self.now.query.now.from p →
            Contains self.now.query.now.to q →
            walk (S.net self.now.scan.now).table p q ≡ Some secs →
            ArrivesBy result (self.now.query.now.leave +ℤ pos secs) }
    {
        let mut best = None;
        for origin in origins(self.query) {
            best = self.walk_from(best, *origin);
        }
        best
    }

    // How many segments there are.
    fn count(&self, desk: &Desk) -> u32
        requires { IsInStep (S.net self.now.scan.now) desk.now }
        ensures result { result ≡ length desk.now.segments }
        ensures most { result ≤ 10000000 }
    {
        let scan = self.scan;
        scan.soundness();
        desk.segment_count() as u32
    }

    // Rides a round of segments, and keeps its best hit. Answers how many segments have been
    // ridden.
    fn ride_next<L: Ledger, A: AtEvent<S>>(
        &self,
        desk: &mut Desk,
        from: u32,
        round: u32,
        also: &mut A,
        steps: &mut Steps<L>,
    ) -> u32
    where
        S: Look<L>,
        requires ridden { IsRidden (S.net self.now.scan.now) self.now.query.now
            desk.old from round }
        requires from { from < length desk.old.segments }
        requires sufficient { AreSufficient (S.net self.now.scan.now).table
            (S.net self.now.scan.now).hops }
        requires ready { (later : ℕ) → round ≤ later →
            A.is_ready also.old (S.net self.now.scan.now) self.now.query.now later }
        requires met { (n i : ℕ) → n < from → Covers desk.old n i →
            IsMetUnlessHit (S.net self.now.scan.now) (A.has_met also.old (S.net self.now.scan.now))
            desk.old n i }
        ensures ridden { IsRidden (S.net self.now.scan.now) self.now.query.now desk.new
            result (round + 1) }
        ensures room { room_of desk.new ≡ room_of desk.old }
        ensures met { (n i : ℕ) → n < result → Covers desk.new n i →
            IsMetUnlessHit (S.net self.now.scan.now) (A.has_met also.new (S.net self.now.scan.now))
            desk.new n i }
        ensures ready { (later : ℕ) → round ≤ later →
            A.is_ready also.new (S.net self.now.scan.now) self.now.query.now later }
        ensures further { from < result }
        ensures most { result ≤ 10000000 }
        ensures steps { steps.new + covered_before desk.old.segments from
            ≤ steps.old + covered_before desk.new.segments result }
    {
        let to = self.count(desk);
        let last = last_hit(desk);
        let best = self.ride_round(desk, from, to, round, last, also, steps);
        keep(desk, best, round);
        to
    }

    // Rides all segments, round by round, and meets each event that is looked at.
    pub(crate) fn ride_all<L: Ledger, A: AtEvent<S>>(
        &self,
        desk: &mut Desk,
        also: &mut A,
        steps: &mut Steps<L>,
    )
    where
        S: Look<L>,
        requires ridden { IsRidden (S.net self.now.scan.now) self.now.query.now desk.old 0 1 }
        requires sufficient { AreSufficient (S.net self.now.scan.now).table
            (S.net self.now.scan.now).hops }
        requires ready { (later : ℕ) → 1 ≤ later →
            A.is_ready also.old (S.net self.now.scan.now) self.now.query.now later }
        ensures ridden { (rounds : ℕ) × IsRidden (S.net self.now.scan.now) self.now.query.now
            desk.new (length desk.new.segments) rounds }
        ensures room { room_of desk.new ≡ room_of desk.old }
        ensures met { (n i : ℕ) → n < length desk.new.segments → Covers desk.new n i →
            IsMetUnlessHit (S.net self.now.scan.now) (A.has_met also.new (S.net self.now.scan.now))
            desk.new n i }
        ensures ready { (rounds : ℕ) × A.is_ready also.new (S.net self.now.scan.now)
            self.now.query.now rounds }
        ensures steps { steps.new ≤ steps.old + covered_before desk.new.segments
            (length desk.new.segments) }
    {
        let mut from = 0;
        let mut round = 1;
        while from < self.count(desk) {
            from = self.ride_next(desk, from, round, also, steps);
            round += 1;
        }
    }
}
