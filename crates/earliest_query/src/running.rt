ghost use Rattle.std.specs.Prelude.{◌≡◌, ◌+◌, ◌<◌, ◌≤◌, ℕ, All, length, pos, ◌≤ℤ◌};
ghost use Rattle.tb_base.specs.Sufficiency.{AreSufficient};
ghost use Rattle.segment_queue.specs.Queue.{Fits, IsInStep};
ghost use Rattle.earliest_query.specs.Choices.{search_looks};
ghost use Rattle.earliest_query.specs.Meeting.{IsMetUnlessHit};
ghost use Rattle.earliest_query.specs.Ridden.{IsRidden};
ghost use Rattle.earliest_query.specs.UnderWay.{Covers, room_of};

use super::all_rounds::keep;
use super::at_event::AtEvent;
use super::search::Search;
use segment_queue::{Desk, Look, Scan, Steps};
use std::sync::ledger::Ledger;

impl<S: Scan> Search<'_, S> {
    /// Searches over a set of hops that is sufficient, and leaves in the desk the segments that
    /// were entered and the hits. Each event that a segment covers is met, but where some hit is no
    /// worse than to get there and where it is outdone.
    pub fn run<L: Ledger, A: AtEvent<S>>(&self, desk: &mut Desk, also: &mut A, steps: &mut Steps<L>)
    where
        S: Look<L>,
        requires fits { Fits (S.net self.now.scan.now).table desk.old }
        requires origins { All (λ p. p < length (S.net self.now.scan.now).table.stops)
            self.now.query.now.from }
        requires leave { self.now.query.now.leave ≤ℤ pos 359999 }
        requires sufficient { AreSufficient (S.net self.now.scan.now).table
            (S.net self.now.scan.now).hops }
        requires ready { (later : ℕ) → 1 ≤ later →
            A.is_ready also.old (S.net self.now.scan.now) self.now.query.now later }
        ensures step { IsInStep (S.net self.now.scan.now) desk.new }
        ensures ridden { (rounds : ℕ) × IsRidden (S.net self.now.scan.now) self.now.query.now
            desk.new (length desk.new.segments) rounds }
        ensures room { room_of desk.new ≡ room_of desk.old }
        ensures met { (n i : ℕ) → n < length desk.new.segments → Covers desk.new n i →
            IsMetUnlessHit (S.net self.now.scan.now) (A.has_met also.new (S.net self.now.scan.now))
            desk.new n i }
        ensures ready { (rounds : ℕ) × A.is_ready also.new (S.net self.now.scan.now)
            self.now.query.now rounds }
        ensures steps { steps.new ≤ steps.old
            + search_looks (S.net self.now.scan.now) self.now.query.now.from }
    {
        let scan = self.scan;
        scan.soundness();
        desk.begin(scan, self.query);
        let walk = self.walk_hit();
        keep(desk, walk, 0);
        self.board_all(desk, steps);
        self.ride_all(desk, also, steps);
    }
}
