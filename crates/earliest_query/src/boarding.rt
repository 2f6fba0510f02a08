ghost use Rattle.std.specs.Prelude.{◌≡◌, ◌+◌, ◌<◌, ◌≤◌, ℕ, Some, All, length, slice_index, slice_index_or, pos, ◌+ℤ◌, ◌≤ℤ◌};
ghost use Rattle.tb_base.specs.Walking.{walk};
ghost use Rattle.tb_base.specs.declared.transfer.Hop.{Hop};
ghost use Rattle.segment_queue.specs.Scans.{boarding_hop, line_indices_at, no_line_index};
ghost use Rattle.earliest_query.specs.Choices.{IsFirstChoice, IsNear, lines_near};
ghost use Rattle.earliest_query.specs.UnderWay.{AreBoarded, BoardsOnce, BoardsStops, AddsSegments, IsStopBoarded, IsQueue, IsReachedBy, room_of};

use super::search::Search;
use super::walks::{after, is_first_choice, origins};
use segment_queue::{Desk, Look, Scan, Steps};
use std::sync::ledger::Ledger;
use tb_base::StopNo;

impl<S: Scan> Search<'_, S> {
    // Boards a line at a stop, after a walk of so many seconds from an origin.
    fn board_line<L: Ledger>(
        &self,
        desk: &mut Desk,
        stop: StopNo,
        berth: u32,
        secs: u32,
        steps: &mut Steps<L>,
    )
    where
        S: Look<L>,
        requires queue { IsQueue (S.net self.now.scan.now) self.now.query.now desk.old 1 }
        requires stop { stop < length (S.net self.now.scan.now).table.stops }
        requires berth { berth
            < length (line_indices_at (S.net self.now.scan.now).table
            (S.net self.now.scan.now).lines stop) }
        requires near { IsNear (S.net self.now.scan.now).table self.now.query.now.from stop secs }
        requires secs { secs ≤ 86400 }
        requires leave { self.now.query.now.leave ≤ℤ pos 359999 }
        ensures queue { IsQueue (S.net self.now.scan.now) self.now.query.now desk.new 1 }
        ensures extends { AddsSegments desk.old desk.new 1 }
        ensures room { room_of desk.new ≡ room_of desk.old }
        ensures reached { (h : Hop) →
            boarding_hop (S.net self.now.scan.now).table
            (slice_index_or (line_indices_at (S.net self.now.scan.now).table
            (S.net self.now.scan.now).lines stop) berth no_line_index)
            (self.now.query.now.leave +ℤ pos secs) ≡ Some h →
            IsReachedBy (S.net self.now.scan.now).table desk.new (length desk.new.segments)
            1 h.trip h.at }
        ensures step { steps.new ≡ steps.old + 1 }
    {
        let scan = self.scan;
        scan.soundness();
        let time = after(self.query, secs);
        if let Some(hop) = scan.boarding(stop, berth, time, steps) {
            self.enter(desk, hop, None);
        }
    }

    // Boards each line at a stop, after a walk of so many seconds from an origin.
    fn board_stop<L: Ledger>(&self, desk: &mut Desk, stop: StopNo, secs: u32, steps: &mut Steps<L>)
    where
        S: Look<L>,
        requires queue { IsQueue (S.net self.now.scan.now) self.now.query.now desk.old 1 }
        requires stop { stop < length (S.net self.now.scan.now).table.stops }
        requires near { IsNear (S.net self.now.scan.now).table self.now.query.now.from stop secs }
        requires secs { secs ≤ 86400 }
        requires leave { self.now.query.now.leave ≤ℤ pos 359999 }
        ensures queue { IsQueue (S.net self.now.scan.now) self.now.query.now desk.new 1 }
        ensures extends { AddsSegments desk.old desk.new 1 }
        ensures room { room_of desk.new ≡ room_of desk.old }
        ensures boarded { IsStopBoarded (S.net self.now.scan.now).table self.now.query.now
            desk.new stop secs }
        ensures steps { steps.new
            ≡ steps.old + length (line_indices_at (S.net self.now.scan.now).table
            (S.net self.now.scan.now).lines stop) }
    {
        let scan = self.scan;
        scan.soundness();
        for berth in 0..scan.berths(stop) {
            self.board_line(desk, stop, berth, secs, steps);
        }
    }

    // Boards at a stop, if it is boarded from the origin at this place.
    fn board_if_first<L: Ledger>(
        &self,
        desk: &mut Desk,
        place: usize,
        stop: StopNo,
        secs: u32,
        steps: &mut Steps<L>,
    )
    where
        S: Look<L>,
        requires queue { IsQueue (S.net self.now.scan.now) self.now.query.now desk.old 1 }
        requires origins { All (λ p. p < length (S.net self.now.scan.now).table.stops)
            self.now.query.now.from }
        requires place { place < length self.now.query.now.from }
        requires stop { stop < length (S.net self.now.scan.now).table.stops }
        requires walks { walk (S.net self.now.scan.now).table
            (slice_index self.now.query.now.from place) stop ≡ Some secs }
        requires secs { secs ≤ 86400 }
        requires leave { self.now.query.now.leave ≤ℤ pos 359999 }
        ensures queue { IsQueue (S.net self.now.scan.now) self.now.query.now desk.new 1 }
        ensures extends { AddsSegments desk.old desk.new 1 }
        ensures room { room_of desk.new ≡ room_of desk.old }
        ensures boarded { IsFirstChoice (S.net self.now.scan.now).table self.now.query.now.from
            place stop secs →
            IsStopBoarded (S.net self.now.scan.now).table self.now.query.now desk.new stop secs }
        ensures steps { BoardsOnce (S.net self.now.scan.now) self.now.query.now.from place stop secs
            steps.old steps.new }
    {
        if is_first_choice(self.scan, origins(self.query), place, stop, secs) {
            self.board_stop(desk, stop, secs, steps);
        }
    }

    // Boards at the stops that are boarded from the origin at this place.
    fn board_from<L: Ledger>(&self, desk: &mut Desk, place: usize, steps: &mut Steps<L>)
    where
        S: Look<L>,
        requires queue { IsQueue (S.net self.now.scan.now) self.now.query.now desk.old 1 }
        requires origins { All (λ p. p < length (S.net self.now.scan.now).table.stops)
            self.now.query.now.from }
        requires place { place < length self.now.query.now.from }
        requires leave { self.now.query.now.leave ≤ℤ pos 359999 }
        ensures queue { IsQueue (S.net self.now.scan.now) self.now.query.now desk.new 1 }
        ensures extends { AddsSegments desk.old desk.new 1 }
        ensures room { room_of desk.new ≡ room_of desk.old }
        ensures boarded { AreBoarded (S.net self.now.scan.now).table self.now.query.now
            desk.new place }
        ensures steps { BoardsStops (S.net self.now.scan.now) self.now.query.now.from place
            (place + 1) steps.old steps.new }
    {
        let scan = self.scan;
        scan.soundness();
        let origin = origins(self.query)[place];
        self.board_if_first(desk, place, origin, 0, steps);
        for path in scan.walks(origin) {
            self.board_if_first(desk, place, path.to, path.secs, steps);
        }
    }

    // Boards at each stop with a walk from an origin, once.
    pub(crate) fn board_all<L: Ledger>(&self, desk: &mut Desk, steps: &mut Steps<L>)
    where
        S: Look<L>,
        requires queue { IsQueue (S.net self.now.scan.now) self.now.query.now desk.old 1 }
        requires origins { All (λ p. p < length (S.net self.now.scan.now).table.stops)
            self.now.query.now.from }
        requires leave { self.now.query.now.leave ≤ℤ pos 359999 }
        ensures queue { IsQueue (S.net self.now.scan.now) self.now.query.now desk.new 1 }
        ensures extends { AddsSegments desk.old desk.new 1 }
        ensures room { room_of desk.new ≡ room_of desk.old }
        ensures boarded { (place : ℕ) → place < length self.now.query.now.from →
            AreBoarded (S.net self.now.scan.now).table self.now.query.now desk.new place }
        ensures steps { steps.new ≤ steps.old + lines_near (S.net self.now.scan.now)
            self.now.query.now.from }
    {
        for place in 0..origins(self.query).len() {
            self.board_from(desk, place, steps);
        }
    }
}
