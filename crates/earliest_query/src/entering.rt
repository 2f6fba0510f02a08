ghost use Rattle.std.specs.Prelude.{◌≡◌, ◌+◌, ◌<◌, ℕ, Some, Contains, length};
ghost use Rattle.tb_base.specs.TimetableData.{events_of};
ghost use Rattle.segment_queue.specs.Traced.{IsEntered, round_after, round_segments, segment_of};
ghost use Rattle.earliest_query.specs.UnderWay.{AddsSegments, IsQueue, IsReachedBy, room_of};

use super::search::Search;
use segment_queue::{Desk, Scan};
use tb_base::Hop;

impl<S: Scan> Search<'_, S> {
    // Enters the trip of a hop where it is boarded, in the round behind its parent.
    pub(crate) fn enter(&self, desk: &mut Desk, hop: Hop, parent: Option<(u32, u32)>)
        requires queue { IsQueue (S.net self.now.scan.now) self.now.query.now desk.old
            (round_after (round_segments desk.old.segments) parent) }
        requires trip { hop.trip < length (S.net self.now.scan.now).table.trips }
        requires not_last { hop.at + 1
            < length (events_of (S.net self.now.scan.now).table hop.trip) }
        requires boards { IsEntered (S.net self.now.scan.now).table self.now.query.now
            desk.old.segments (length desk.old.segments) parent hop.trip hop.at }
        requires in_set { (p : ℕ × ℕ) → parent ≡ Some p →
            Contains ((S.net self.now.scan.now).hops (segment_of desk.old.segments p.0).trip p.1)
            hop }
        ensures queue { IsQueue (S.net self.now.scan.now) self.now.query.now desk.new
            (round_after (round_segments desk.old.segments) parent) }
        ensures reached { IsReachedBy (S.net self.now.scan.now).table desk.new
            (length desk.new.segments) (round_after (round_segments desk.old.segments) parent)
            hop.trip hop.at }
        ensures extends { AddsSegments desk.old desk.new
            (round_after (round_segments desk.old.segments) parent) }
        ensures room { room_of desk.new ≡ room_of desk.old }
        ensures notes { desk.new.notes ≡ desk.old.notes }
    {
        let scan = self.scan;
        scan.soundness();
        let _entered = desk.reach(scan, hop.trip, hop.at, parent);
    }
}
