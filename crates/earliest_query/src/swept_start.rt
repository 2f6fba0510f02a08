ghost use Rattle.std.specs.Prelude.{◌≡◌, ◌<◌, ◌≤◌, Some, All, Contains, OnOk, length, slice_index_or, pos, ◌+ℤ◌, ◌≤ℤ◌};
ghost use Rattle.tb_base.specs.declared.transfer.Hop.{Hop};
ghost use Rattle.segment_queue.specs.Queue.{Fits};
ghost use Rattle.segment_queue.specs.Scans.{boarding_hop, line_indices_at, no_line_index};
ghost use Rattle.earliest_query.specs.Choices.{IsNear};
ghost use Rattle.earliest_query.specs.Sweeping.{AreStarted, IsSweptQueue, IsWalkedFrom};
ghost use Rattle.earliest_query.specs.UnderWay.{AddsSegments, IsStopBoarded, IsReachedBy};

use super::search::Search;
use super::walks::{after, origins};
use segment_queue::{Desk, Levels, Look, Scan, Steps};
use std::sync::ledger::Ledger;
use tb_base::{Memory, StopNo};

impl<S: Scan> Search<'_, S> {
    // Boards a line at a stop as a first ride, after a walk of so many seconds from an origin.
    fn start_line<L: Ledger>(
        &self,
        desk: &mut Desk,
        levels: &mut Levels,
        stop: StopNo,
        berth: u32,
        secs: u32,
        steps: &mut Steps<L>,
    ) -> Result<(), Memory>
    where
        S: Look<L>,
        requires queue { IsSweptQueue (S.net self.now.scan.now) self.now.query.now
            desk.old levels.old }
        requires stop { stop < length (S.net self.now.scan.now).table.stops }
        requires berth { berth
            < length (line_indices_at (S.net self.now.scan.now).table
            (S.net self.now.scan.now).lines stop) }
        requires near { IsNear (S.net self.now.scan.now).table self.now.query.now.from stop secs }
        requires secs { secs ≤ 86400 }
        requires leave { self.now.query.now.leave ≤ℤ pos 359999 }
        ensures queue { OnOk result
            (IsSweptQueue (S.net self.now.scan.now) self.now.query.now desk.new levels.new) }
        ensures extends { OnOk result (AddsSegments desk.old desk.new 1) }
        ensures reached { OnOk result ((h : Hop) →
            boarding_hop (S.net self.now.scan.now).table
            (slice_index_or (line_indices_at (S.net self.now.scan.now).table
            (S.net self.now.scan.now).lines stop) berth no_line_index)
            (self.now.query.now.leave +ℤ pos secs) ≡ Some h →
            IsReachedBy (S.net self.now.scan.now).table desk.new (length desk.new.segments) 1
            h.trip h.at) }
        ensures still { Fits (S.net self.now.scan.now).table desk.old →
            Fits (S.net self.now.scan.now).table desk.new }
    {
        let scan = self.scan;
        scan.soundness();
        let time = after(self.query, secs);
        if let Some(hop) = scan.boarding(stop, berth, time, steps) {
            self.enter_level(desk, levels, 0, hop, None)?;
        }
        Ok(())
    }

    // Boards each line at a stop as a first ride, after a walk of so many seconds from an origin.
    fn start_stop<L: Ledger>(
        &self,
        desk: &mut Desk,
        levels: &mut Levels,
        stop: StopNo,
        secs: u32,
        steps: &mut Steps<L>,
    ) -> Result<(), Memory>
    where
        S: Look<L>,
        requires queue { IsSweptQueue (S.net self.now.scan.now) self.now.query.now
            desk.old levels.old }
        requires stop { stop < length (S.net self.now.scan.now).table.stops }
        requires near { IsNear (S.net self.now.scan.now).table self.now.query.now.from stop secs }
        requires secs { secs ≤ 86400 }
        requires leave { self.now.query.now.leave ≤ℤ pos 359999 }
        ensures queue { OnOk result
            (IsSweptQueue (S.net self.now.scan.now) self.now.query.now desk.new levels.new) }
        ensures extends { OnOk result (AddsSegments desk.old desk.new 1) }
        ensures boarded { OnOk result
            (IsStopBoarded (S.net self.now.scan.now).table self.now.query.now desk.new stop secs) }
        ensures still { Fits (S.net self.now.scan.now).table desk.old →
            Fits (S.net self.now.scan.now).table desk.new }
    {
        let scan = self.scan;
        scan.soundness();
        for berth in 0..scan.berths(stop) {
            self.start_line(desk, levels, stop, berth, secs, steps)?;
        }
        Ok(())
    }

    // Boards at an origin and at each stop that it has a walk to.
    fn start_from<L: Ledger>(
        &self,
        desk: &mut Desk,
        levels: &mut Levels,
        origin: StopNo,
        steps: &mut Steps<L>,
    ) -> Result<(), Memory>
    where
        S: Look<L>,
        requires queue { IsSweptQueue (S.net self.now.scan.now) self.now.query.now
            desk.old levels.old }
        requires origin { origin < length (S.net self.now.scan.now).table.stops }
        requires from { Contains self.now.query.now.from origin }
        requires leave { self.now.query.now.leave ≤ℤ pos 359999 }
        ensures queue { OnOk result
            (IsSweptQueue (S.net self.now.scan.now) self.now.query.now desk.new levels.new) }
        ensures extends { OnOk result (AddsSegments desk.old desk.new 1) }
        ensures boarded { OnOk result
            (IsWalkedFrom (S.net self.now.scan.now).table self.now.query.now desk.new origin) }
        ensures still { Fits (S.net self.now.scan.now).table desk.old →
            Fits (S.net self.now.scan.now).table desk.new }
    {
        let scan = self.scan;
        scan.soundness();
        self.start_stop(desk, levels, origin, 0, steps)?;
        for path in scan.walks(origin) {
            self.start_stop(desk, levels, path.to, path.secs, steps)?;
        }
        Ok(())
    }

    // Boards at each stop with a walk from an origin.
    pub(crate) fn start_level<L: Ledger>(
        &self,
        desk: &mut Desk,
        levels: &mut Levels,
        steps: &mut Steps<L>,
    ) -> Result<(), Memory>
    where
        S: Look<L>,
        requires queue { IsSweptQueue (S.net self.now.scan.now) self.now.query.now
            desk.old levels.old }
        requires origins { All (λ p. p < length (S.net self.now.scan.now).table.stops)
            self.now.query.now.from }
        requires leave { self.now.query.now.leave ≤ℤ pos 359999 }
        ensures queue { OnOk result
            (IsSweptQueue (S.net self.now.scan.now) self.now.query.now desk.new levels.new) }
        ensures extends { OnOk result (AddsSegments desk.old desk.new 1) }
        ensures starts { OnOk result
            (AreStarted (S.net self.now.scan.now).table self.now.query.now desk.new) }
        ensures still { Fits (S.net self.now.scan.now).table desk.old →
            Fits (S.net self.now.scan.now).table desk.new }
    {
        for origin in origins(self.query) {
            self.start_from(desk, levels, *origin, steps)?;
        }
        Ok(())
    }
}
