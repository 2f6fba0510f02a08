ghost use Rattle.std.specs.Prelude.{◌≡◌, ◌+◌, ◌<◌, ◌≤◌, ◌++◌, ◌⊎◌, ℕ, suc, All, IfOk, OnErr, OnOk, length};
ghost use Rattle.tb_base.specs.Sufficiency.{AreSufficient};
ghost use Rattle.tb_base.specs.TimetableData.{TimetableData};
ghost use Rattle.segment_queue.specs.Levels.{with_level};
ghost use Rattle.segment_queue.specs.Queue.{Fits, IsSoundSegment};
ghost use Rattle.segment_queue.specs.Traced.{round_of};
ghost use Rattle.segment_queue.specs.declared.desk.Hit.{Hit};
ghost use Rattle.earliest_query.specs.Choices.{hits_of};
ghost use Rattle.earliest_query.specs.Bounding.{IsBestBefore, bounding_hit, earlier_value};
ghost use Rattle.earliest_query.specs.Noted.{IsSoundNote, IsWeighedOff, notes_of};
ghost use Rattle.earliest_query.specs.Sweeping.{IsSweptQueue, IsSweptRound, KeepsSegments};
ghost use Rattle.earliest_query.specs.UnderWay.{Covers, AddsSegments, IsBounded, IsDone, IsImproved};

use super::all_rounds::last_hit;
use super::riding::{TRIED, earlier, is_late, seen_on};
use super::search::Search;
use segment_queue::{Desk, Hit, LastLeg, Levels, Look, Scan, Seen, Steps};
use std::alloc::Global;
use std::sync::ledger::Ledger;
use tb_base::{Memory, StopNo, Value};

// A bound on arrivals, as a hit that no round keeps, since it has no ride.
fn bounding(value: &Value) -> Hit
    ensures { result ≡ bounding_hit value.now.arrive }
{
    Hit {
        value: Value {
            arrive: value.arrive,
            rides: 0,
        },
        last: LastLeg::OnFoot {
            from: StopNo(0),
            to: StopNo(0),
        },
    }
}

// The earlier of the best so far and a value, if that has no more rides than the round.
fn earlier_of(best: Option<Hit>, value: &Value, round: u32) -> Option<Hit>
    ensures { result ≡ earlier_value round best value.now }
{
    if value.rides <= round {
        earlier(best, bounding(value))
    } else {
        best
    }
}

// The best so far when a round begins: the earlier of the last hit and the values with no more
// rides than the round.
fn best_before(desk: &Desk, values: &[Value], round: u32) -> Option<Hit>
    requires some_round { 1 ≤ round }
    requires fewer { All (λ (h : Hit). h.value.rides < round) desk.now.hits }
    ensures { IsBestBefore desk.now.hits values.now round result }
{
    let mut best = last_hit(desk);
    for value in values {
        best = earlier_of(best, value, round);
    }
    best
}

// Adds the best hit so far to the hits, if it is of this round.
fn keep_hit(desk: &mut Desk, best: Option<Hit>, round: u32) -> Result<(), Memory>
    ensures hits { OnOk result (desk.new.hits ≡ desk.old.hits ++ hits_of round best) }
    ensures segments { desk.new.segments ≡ desk.old.segments }
    ensures still { (T : TimetableData) → Fits T desk.old → Fits T desk.new }
{
    if let Some(hit) = best {
        if hit.value.rides == round {
            desk.push_hit(hit)?;
        }
    }
    Ok(())
}

// A level for the rides that follow a round.
fn have_level(alloc: Global, levels: &mut Levels, round: u32) -> Result<(), Memory>
    requires some_level { 0 < length levels.old }
    requires levels { round ≤ length levels.old }
    ensures level { OnOk result (round < length levels.new) }
    ensures made { OnOk result ((levels.new ≡ levels.old) ⊎ (levels.new ≡ with_level levels.old)) }
{
    if levels.count() == round as usize {
        levels.make(alloc)?;
    }
    Ok(())
}

/// How many segments a desk has. More than have numbers are refused, and no fewer.
pub fn segment_total(desk: &Desk) -> Result<u32, Memory>
    ensures count { IfOk result (λ count. count ≡ length desk.now.segments) }
    ensures most { IfOk result (λ count. count < 4294967295) }
    ensures too_many { OnErr result (4294967295 ≤ length desk.now.segments) }
{
    let count = desk.segment_count();
    if count >= u32::MAX as usize {
        return Err(Memory);
    }
    Ok(count as u32)
}

impl<S: Scan> Search<'_, S> {
    // Looks at the indices that a segment covers one by one, and weighs to alight there. It ends
    // where one gets no earlier than the best so far arrives. Answers what it has seen before, too.
    fn weigh_level<L: Ledger>(
        &self,
        desk: &Desk,
        n: u32,
        round: u32,
        so_far: Option<Hit>,
        steps: &mut Steps<L>,
    ) -> (Option<Hit>, Option<Seen>)
    where
        S: Look<L>,
        requires sound { All (IsSoundSegment (S.net self.now.scan.now).table) desk.now.segments }
        requires segment { n < length desk.now.segments }
        requires round { round_of desk.now.segments n ≡ round }
        ensures seen { All (IsSoundNote (S.net self.now.scan.now) desk.now.segments round)
            (notes_of n result.1) }
        ensures weighed { (i : ℕ) → Covers desk.now n i →
            IsWeighedOff (S.net self.now.scan.now) self.now.query.now desk.now result.0
            (notes_of n result.1) n i }
        ensures improved { IsImproved (S.net self.now.scan.now).table self.now.query.now desk.now
            round so_far result.0 }
    {
        let scan = self.scan;
        scan.soundness();
        let Some(segment) = desk.segment(n) else {
            return (so_far, None);
        };
        let mut best = so_far;
        let mut seen = None;
        for before in segment.board..segment.end {
            let at = before + 1;
            let visit = scan.visit(segment.trip, at, steps);
            self.weigh(&mut best, &visit, n, at, round);
            if is_late(&best, &visit) {
                return (best, seen);
            }
            seen = Some(seen_on(seen, visit.seen));
        }
        (best, seen)
    }

    // Rides a segment: weighs it, and follows the hops from what was seen of it, as rides for which
    // there is a level.
    fn ride_level<L: Ledger>(
        &self,
        desk: &mut Desk,
        levels: &mut Levels,
        n: u32,
        round: u32,
        so_far: Option<Hit>,
        places: &mut [usize],
        steps: &mut Steps<L>,
    ) -> Result<Option<Hit>, Memory>
    where
        S: Look<L>,
        requires room { 64 ≤ length places.old }
        requires queue { IsSweptQueue (S.net self.now.scan.now) self.now.query.now
            desk.old levels.old }
        requires level { round < length levels.old }
        requires segment { n < length desk.old.segments }
        requires round { round_of desk.old.segments n ≡ round }
        requires sufficient { AreSufficient (S.net self.now.scan.now).table
            (S.net self.now.scan.now).hops }
        ensures queue { OnOk result
            (IsSweptQueue (S.net self.now.scan.now) self.now.query.now desk.new levels.new) }
        ensures levels { OnOk result (length levels.new ≡ length levels.old) }
        ensures places { OnOk result (length places.new ≡ length places.old) }
        ensures extends { OnOk result (AddsSegments desk.old desk.new (suc round)) }
        ensures followed { IfOk result (λ best. (i : ℕ) → Covers desk.old n i →
            IsDone (S.net self.now.scan.now) desk.new best n i) }
        ensures bounded { IfOk result (λ best. (i : ℕ) → Covers desk.old n i →
            IsBounded (S.net self.now.scan.now).table self.now.query.now desk.old best n i) }
        ensures improved { IfOk result
            (λ best. IsImproved (S.net self.now.scan.now).table self.now.query.now desk.new round
            so_far best) }
        ensures still { Fits (S.net self.now.scan.now).table desk.old →
            Fits (S.net self.now.scan.now).table desk.new }
    {
        let (best, seen) = self.weigh_level(desk, n, round, so_far, steps);
        self.follow_seen(desk, levels, round as usize, n, seen, places)?;
        Ok(best)
    }

    // Rides the segments of a round, from one number up to another.
    fn ride_level_round<L: Ledger>(
        &self,
        desk: &mut Desk,
        levels: &mut Levels,
        from: u32,
        to: u32,
        round: u32,
        so_far: Option<Hit>,
        steps: &mut Steps<L>,
    ) -> Result<Option<Hit>, Memory>
    where
        S: Look<L>,
        requires queue { IsSweptQueue (S.net self.now.scan.now) self.now.query.now
            desk.old levels.old }
        requires level { round < length levels.old }
        requires from { from ≤ to }
        requires to { to ≤ length desk.old.segments }
        requires rounds { (n : ℕ) → from ≤ n → n < to → round_of desk.old.segments n ≡ round }
        requires sufficient { AreSufficient (S.net self.now.scan.now).table
            (S.net self.now.scan.now).hops }
        ensures queue { OnOk result
            (IsSweptQueue (S.net self.now.scan.now) self.now.query.now desk.new levels.new) }
        ensures extends { OnOk result (AddsSegments desk.old desk.new (suc round)) }
        ensures followed { IfOk result (λ best. (n i : ℕ) → from ≤ n → n < to →
            Covers desk.old n i → IsDone (S.net self.now.scan.now) desk.new best n i) }
        ensures bounded { IfOk result (λ best. (n i : ℕ) → from ≤ n → n < to → Covers desk.old n i →
            IsBounded (S.net self.now.scan.now).table self.now.query.now desk.old best n i) }
        ensures improved { IfOk result
            (λ best. IsImproved (S.net self.now.scan.now).table self.now.query.now desk.new round
            so_far best) }
        ensures still { Fits (S.net self.now.scan.now).table desk.old →
            Fits (S.net self.now.scan.now).table desk.new }
    {
        let mut places = [0; TRIED];
        let mut best = so_far;
        for n in from..to {
            desk.read_level_ahead(self.scan, from, n, to);
            best = self.ride_level(desk, levels, n, round, best, &mut places, steps)?;
        }
        Ok(best)
    }

    // Rides a round of segments, and keeps its best hit. Answers how many segments have been
    // ridden.
    fn ride_next_level<L: Ledger>(
        &self,
        alloc: Global,
        desk: &mut Desk,
        levels: &mut Levels,
        values: &[Value],
        from: u32,
        round: u32,
        steps: &mut Steps<L>,
    ) -> Result<u32, Memory>
    where
        S: Look<L>,
        requires ridden { IsSweptRound (S.net self.now.scan.now) self.now.query.now desk.old
            levels.old values.now from round }
        requires from { from < length desk.old.segments }
        requires sufficient { AreSufficient (S.net self.now.scan.now).table
            (S.net self.now.scan.now).hops }
        ensures ridden { IfOk result
            (λ to. IsSweptRound (S.net self.now.scan.now) self.now.query.now desk.new levels.new
            values.now to (round + 1)) }
        ensures further { IfOk result (λ to. from < to) }
        ensures kept { OnOk result (KeepsSegments desk.old desk.new) }
        ensures most { IfOk result (λ to. to < 4294967295) }
        ensures still { Fits (S.net self.now.scan.now).table desk.old →
            Fits (S.net self.now.scan.now).table desk.new }
    {
        let to = segment_total(desk)?;
        have_level(alloc, levels, round)?;
        let before = best_before(desk, values, round);
        let best = self.ride_level_round(desk, levels, from, to, round, before, steps)?;
        keep_hit(desk, best, round)?;
        Ok(to)
    }

    // Rides all segments from a number on, round by round. What it finds is bounded by the hits and
    // by values of later departures. It needs memory; at a refusal the desk still fits.
    pub(crate) fn ride_levels<L: Ledger>(
        &self,
        alloc: Global,
        desk: &mut Desk,
        levels: &mut Levels,
        values: &[Value],
        from: u32,
        steps: &mut Steps<L>,
    ) -> Result<(), Memory>
    where
        S: Look<L>,
        requires ridden { IsSweptRound (S.net self.now.scan.now) self.now.query.now desk.old
            levels.old values.now from 1 }
        requires sufficient { AreSufficient (S.net self.now.scan.now).table
            (S.net self.now.scan.now).hops }
        ensures ridden { OnOk result
            ((rounds : ℕ) × IsSweptRound (S.net self.now.scan.now) self.now.query.now desk.new
            levels.new values.now (length desk.new.segments) rounds) }
        ensures kept { OnOk result (KeepsSegments desk.old desk.new) }
        ensures still { Fits (S.net self.now.scan.now).table desk.old →
            Fits (S.net self.now.scan.now).table desk.new }
    {
        let mut next = from;
        let mut round = 1;
        while (next as usize) < desk.segment_count() {
            next = self.ride_next_level(alloc, desk, levels, values, next, round, steps)?;
            round += 1;
        }
        Ok(())
    }
}
