ghost use Rattle.std.specs.Prelude.{◌≡◌, ◌+◌, ◌-◌, ◌<◌, ◌≤◌, [], ℕ, suc, Some, All, Contains, OnOk, length, slice_get, slice_index_or, take};
ghost use Rattle.tb_base.specs.Sufficiency.{AreSufficient};
ghost use Rattle.tb_base.specs.TimetableData.{events_of};
ghost use Rattle.segment_queue.specs.Levels.{level_mark};
ghost use Rattle.segment_queue.specs.Queue.{Fits};
ghost use Rattle.segment_queue.specs.Scans.{HoldOpen, followed_seen, hops_seen};
ghost use Rattle.segment_queue.specs.Traced.{IsEntered, round_after, round_segments, segment_of};
ghost use Rattle.transfer_pack.specs.Words.{lent};
ghost use Rattle.earliest_query.specs.Noted.{IsNoted, IsOf, IsSoundNote, note_of, notes_of};
ghost use Rattle.earliest_query.specs.Sweeping.{IsSweptQueue};
ghost use Rattle.earliest_query.specs.UnderWay.{AddsSegments, IsFollowed, IsReachedBy};

use super::riding::TRIED;
use super::search::Search;
use segment_queue::{Desk, Followed, Levels, Note, Scan, Seen, Segment};
use tb_base::{Hop, Memory};
use transfer_pack::Hops;

// Writes down the places, from one up to another, of the hops that lead to a trip that wasn't
// passed at a level, and answers how many they are. No branch hangs on a hop.
#[inline(always)]
fn open_places<S: Scan>(
    scan: &S,
    levels: &Levels,
    level: usize,
    hops: &Hops<'_>,
    from: usize,
    to: usize,
    places: &mut [usize],
) -> usize
    requires level { level < length levels.now }
    requires trips { All (λ h. h.trip < length (S.net scan.now).table.trips) (lent hops.now) }
    requires marks { length (S.net scan.now).table.trips
        ≤ length (slice_index_or levels.now level []) }
    requires within { (t : ℕ) → t < length (S.net scan.now).table.trips →
        level_mark (S.net scan.now).table levels.now level t
        < length (events_of (S.net scan.now).table t) }
    requires from { from ≤ to }
    requires to { to ≤ length (lent hops.now) }
    requires room { to - from ≤ length places.old }
    ensures long { length places.new ≡ length places.old }
    ensures count { result ≤ to - from }
    ensures within { All (λ k. k < to) (take result places.new) }
    ensures open { HoldOpen
        (λ h. level_mark (S.net scan.now).table levels.now level h.trip ≤ h.at)
        (lent hops.now) from to (take result places.new) }
{
    let mut count = 0;
    for place in from..to {
        let hop = hops.at(place);
        places[count] = place;
        if !levels.is_passed(scan, level, hop.trip, hop.at) {
            count += 1;
        }
    }
    count
}

impl<S: Scan> Search<'_, S> {
    // Enters the trip of a hop where it is boarded, as a ride for which there is a level.
    #[inline(never)]
    pub(crate) fn enter_level(
        &self,
        desk: &mut Desk,
        levels: &mut Levels,
        level: usize,
        hop: Hop,
        parent: Option<(u32, u32)>,
    ) -> Result<(), Memory>
        requires queue { IsSweptQueue (S.net self.now.scan.now) self.now.query.now
            desk.old levels.old }
        requires level { level < length levels.old }
        requires round { round_after (round_segments desk.old.segments) parent ≡ suc level }
        requires trip { hop.trip < length (S.net self.now.scan.now).table.trips }
        requires not_last { hop.at + 1
            < length (events_of (S.net self.now.scan.now).table hop.trip) }
        requires boards { IsEntered (S.net self.now.scan.now).table self.now.query.now
            desk.old.segments (length desk.old.segments) parent hop.trip hop.at }
        requires in_set { (p : ℕ × ℕ) → parent ≡ Some p →
            Contains ((S.net self.now.scan.now).hops (segment_of desk.old.segments p.0).trip p.1)
            hop }
        ensures queue { OnOk result
            (IsSweptQueue (S.net self.now.scan.now) self.now.query.now desk.new levels.new) }
        ensures levels { OnOk result (length levels.new ≡ length levels.old) }
        ensures reached { OnOk result
            (IsReachedBy (S.net self.now.scan.now).table desk.new (length desk.new.segments)
            (suc level) hop.trip hop.at) }
        ensures extends { OnOk result (AddsSegments desk.old desk.new (suc level)) }
        ensures still { Fits (S.net self.now.scan.now).table desk.old →
            Fits (S.net self.now.scan.now).table desk.new }
    {
        let scan = self.scan;
        scan.soundness();
        let end = levels.mark(scan, level, hop.trip);
        if end <= hop.at {
            return Ok(());
        }
        desk.add_segment(Segment {
            trip: hop.trip,
            board: hop.at,
            end,
            parent,
        })?;
        levels.lower(scan, level, hop.trip, hop.at);
        Ok(())
    }

    // Follows the hop with this place among those from the events that were noted, as a ride for
    // which there is a level.
    #[inline(always)]
    fn follow_level_hop(
        &self,
        desk: &mut Desk,
        levels: &mut Levels,
        level: usize,
        hop: Hop,
        segment: u32,
        followed: &Followed<'_>,
        place: usize,
    ) -> Result<(), Memory>
        requires queue { IsSweptQueue (S.net self.now.scan.now) self.now.query.now
            desk.old levels.old }
        requires level { level < length levels.old }
        requires note { IsSoundNote (S.net self.now.scan.now) desk.old.segments level
            (note_of segment followed.now) }
        requires hop { slice_get (hops_seen (S.net self.now.scan.now).hops
            (followed_seen followed.now)) place ≡ Some hop }
        requires sufficient { AreSufficient (S.net self.now.scan.now).table
            (S.net self.now.scan.now).hops }
        ensures queue { OnOk result
            (IsSweptQueue (S.net self.now.scan.now) self.now.query.now desk.new levels.new) }
        ensures levels { OnOk result (length levels.new ≡ length levels.old) }
        ensures extends { OnOk result (AddsSegments desk.old desk.new (suc level)) }
        ensures reached { OnOk result
            (IsReachedBy (S.net self.now.scan.now).table desk.new (length desk.new.segments)
            (suc level) hop.trip hop.at) }
        ensures still { Fits (S.net self.now.scan.now).table desk.old →
            Fits (S.net self.now.scan.now).table desk.new }
    {
        let scan = self.scan;
        scan.soundness();
        if levels.is_passed(scan, level, hop.trip, hop.at) {
            return Ok(());
        }
        let at = scan.event_of(followed, place);
        self.enter_level(desk, levels, level, hop, Some((segment, at)))
    }

    // Follows the hops with places from one up to another among those from the events that were
    // noted, as rides for which there is a level. First the places of those that lead on are
    // written down.
    #[inline(always)]
    fn follow_level_some(
        &self,
        desk: &mut Desk,
        levels: &mut Levels,
        level: usize,
        segment: u32,
        followed: &Followed<'_>,
        from: usize,
        to: usize,
        places: &mut [usize],
    ) -> Result<(), Memory>
        requires queue { IsSweptQueue (S.net self.now.scan.now) self.now.query.now
            desk.old levels.old }
        requires level { level < length levels.old }
        requires note { IsSoundNote (S.net self.now.scan.now) desk.old.segments level
            (note_of segment followed.now) }
        requires hops { lent followed.now.hops ≡ hops_seen (S.net self.now.scan.now).hops
            (followed_seen followed.now) }
        requires from { from ≤ to }
        requires to { to ≤ length (lent followed.now.hops) }
        requires room { to - from ≤ length places.old }
        requires sufficient { AreSufficient (S.net self.now.scan.now).table
            (S.net self.now.scan.now).hops }
        ensures queue { OnOk result
            (IsSweptQueue (S.net self.now.scan.now) self.now.query.now desk.new levels.new) }
        ensures levels { OnOk result (length levels.new ≡ length levels.old) }
        ensures extends { OnOk result (AddsSegments desk.old desk.new (suc level)) }
        ensures places { OnOk result (length places.new ≡ length places.old) }
        ensures reached { OnOk result ((k : ℕ) (h : Hop) → from ≤ k → k < to →
            slice_get (lent followed.now.hops) k ≡ Some h →
            IsReachedBy (S.net self.now.scan.now).table desk.new (length desk.new.segments)
            (suc level) h.trip h.at) }
        ensures still { Fits (S.net self.now.scan.now).table desk.old →
            Fits (S.net self.now.scan.now).table desk.new }
    {
        let scan = self.scan;
        scan.soundness();
        let hops = followed.hops;
        let count = open_places(scan, levels, level, &hops, from, to, places);
        for k in 0..count {
            let place = places[k];
            self.follow_level_hop(
                desk,
                levels,
                level,
                hops.at(place),
                segment,
                followed,
                place,
            )?;
        }
        Ok(())
    }

    // Follows the hops from the events that were noted, as rides for which there is a level.
    fn follow_level(
        &self,
        desk: &mut Desk,
        levels: &mut Levels,
        level: usize,
        note: Note,
        places: &mut [usize],
    ) -> Result<(), Memory>
        requires room { 64 ≤ length places.old }
        requires queue { IsSweptQueue (S.net self.now.scan.now) self.now.query.now
            desk.old levels.old }
        requires level { level < length levels.old }
        requires note { IsSoundNote (S.net self.now.scan.now) desk.old.segments level note }
        requires sufficient { AreSufficient (S.net self.now.scan.now).table
            (S.net self.now.scan.now).hops }
        ensures queue { OnOk result
            (IsSweptQueue (S.net self.now.scan.now) self.now.query.now desk.new levels.new) }
        ensures levels { OnOk result (length levels.new ≡ length levels.old) }
        ensures extends { OnOk result (AddsSegments desk.old desk.new (suc level)) }
        ensures places { OnOk result (length places.new ≡ length places.old) }
        ensures followed { OnOk result ((i : ℕ) → IsOf note note.segment i →
            IsFollowed (S.net self.now.scan.now) desk.new note.segment i) }
        ensures still { Fits (S.net self.now.scan.now).table desk.old →
            Fits (S.net self.now.scan.now).table desk.new }
    {
        let scan = self.scan;
        scan.soundness();
        let segment = note.segment;
        let followed = scan.hops_from(note.seen);
        let count = followed.hops.count();
        let mut from = 0;
        while from < count {
            let tried = (count - from).min(TRIED);
            self.follow_level_some(
                desk,
                levels,
                level,
                segment,
                &followed,
                from,
                from + tried,
                places,
            )?;
            from += tried;
        }
        Ok(())
    }

    // Follows the hops from what was seen of a segment, if anything was.
    pub(crate) fn follow_seen(
        &self,
        desk: &mut Desk,
        levels: &mut Levels,
        level: usize,
        segment: u32,
        seen: Option<Seen>,
        places: &mut [usize],
    ) -> Result<(), Memory>
        requires room { 64 ≤ length places.old }
        requires queue { IsSweptQueue (S.net self.now.scan.now) self.now.query.now
            desk.old levels.old }
        requires level { level < length levels.old }
        requires notes { All (IsSoundNote (S.net self.now.scan.now) desk.old.segments level)
            (notes_of segment seen) }
        requires sufficient { AreSufficient (S.net self.now.scan.now).table
            (S.net self.now.scan.now).hops }
        ensures queue { OnOk result
            (IsSweptQueue (S.net self.now.scan.now) self.now.query.now desk.new levels.new) }
        ensures levels { OnOk result (length levels.new ≡ length levels.old) }
        ensures extends { OnOk result (AddsSegments desk.old desk.new (suc level)) }
        ensures places { OnOk result (length places.new ≡ length places.old) }
        ensures followed { OnOk result ((i : ℕ) → IsNoted (notes_of segment seen) segment i →
            IsFollowed (S.net self.now.scan.now) desk.new segment i) }
        ensures still { Fits (S.net self.now.scan.now).table desk.old →
            Fits (S.net self.now.scan.now).table desk.new }
    {
        match seen {
            Some(seen) => self.follow_level(desk, levels, level, Note { segment, seen }, places),
            None => Ok(()),
        }
    }
}
