ghost use Rattle.std.specs.Prelude.{◌≡◌, ◌<◌, ◌+◌, Some, All, AllPairs, MatchOption, length, slice_get};
ghost use Rattle.tb_base.specs.Soundness.{IsSoundPath};
ghost use Rattle.tb_base.specs.TimetableData.{arrival_at, event_at, events_of, stop_at};
ghost use Rattle.segment_queue.specs.Scans.{AreEvents, IsFirst, StandsBefore, followed_seen, hops_seen, seen_arr, seen_first, seen_last, seen_trip, trips_from};
ghost use Rattle.segment_queue.specs.WalkGroups.{AreWalkGroups};
ghost use Rattle.transfer_pack.specs.Packed.{packed};
ghost use Rattle.transfer_pack.specs.Words.{lent};

use super::ahead::Ahead;
use super::scan::{Look, Scan, Shape, Visit};
use super::seen::{Followed, Seen};
use super::steps::Steps;
use super::walk_groups::WalkGroups;
use line_split::Lines;
use std::marker::Model;
use std::sync::ledger::Ledger;
use tb_base::{Hop, Path, Sec, StopNo, Timetable, TripNo};
use transfer_pack::Set;

/// A timetable, its lines and a set of hops, as a search looks at them.
#[derive(Drop)]
pub struct View<'a> {
    table: &'a Timetable,
    lines: &'a Lines,
    set: &'a Set,
    groups: &'a WalkGroups,
}

impl<'a> Model for View<'a> {
    ghost use Rattle.std.specs.Prelude.{◌≡◌};
    ghost use Rattle.tb_base.specs.TimetableData.{TimetableData};
    ghost use Rattle.line_split.specs.LinesData.{LinesData};
    ghost use Rattle.transfer_pack.specs.Packed.{PackedHops};

    ghost Value = { TimetableData × LinesData × PackedHops };

    ghost view = { λ v. (v.table.now, v.lines.now, v.set.now) };

    ghost invariant = { λ v. (v.lines.now.table ≡ v.table.now)
        × (v.set.now.table ≡ v.table.now) × (v.groups.now ≡ v.table.now) };
}

impl<'a> View<'a> {
    /// The view of a timetable, its lines, a set of hops for its events, and the groups of its
    /// stops.
    pub fn new(
        table: &'a Timetable,
        lines: &'a Lines,
        set: &'a Set,
        groups: &'a WalkGroups,
    ) -> View<'a>
        requires lines { lines.now.table ≡ table.now }
        requires set { set.now.table ≡ table.now }
        requires groups { groups.now ≡ table.now }
        ensures table { result.0 ≡ table.now }
        ensures lines { result.1 ≡ lines.now }
        ensures set { result.2 ≡ set.now }
    {
        View {
            table,
            lines,
            set,
            groups,
        }
    }

    /// The footpaths that leave a stop, for as long as the timetable is lent.
    pub fn paths_from(&self, p: StopNo) -> &'a [Path]
        requires { p < length self.now.0.stops }
        ensures paths { slice_get self.now.0.footpaths.paths p ≡ Some result.now }
        ensures sound { All (IsSoundPath (length self.now.0.stops) p) result.now }
        ensures ascending { AllPairs (λ f g. f.to < g.to) result.now }
    {
        let table = self.table;
        table.paths(p)
    }

    /// The group of each stop, for as long as the groups are lent.
    pub fn stop_groups(&self) -> &'a [u32]
        ensures { AreWalkGroups self.now.0 result.now }
    {
        let groups = self.groups;
        groups.as_slice()
    }

    /// The trips of a trip's line from it on, in order, for as long as the lines are lent.
    pub fn trips_onward(&self, trip: TripNo) -> &'a [TripNo]
        requires { trip < length self.now.0.trips }
        ensures trips { result.now ≡ trips_from self.now.1.lines trip }
        ensures there { All (λ u. u < length self.now.0.trips) result.now }
    {
        let lines = self.lines;
        lines.soundness();
        lines.onward(trip)
    }

    /// The trip just before on the trip's line, where there is one.
    pub fn trip_before(&self, trip: TripNo) -> Option<TripNo>
        requires { trip < length self.now.0.trips }
        ensures { MatchOption result (IsFirst self.now.1.lines trip)
            (λ v. (v < length self.now.0.trips) × StandsBefore self.now.1.lines v trip) }
    {
        let lines = self.lines;
        lines.soundness();
        lines.before(trip)
    }

    /// Event `at` of a trip. It is a step.
    pub fn look_at<L: Ledger>(&self, trip: TripNo, at: u32, steps: &mut Steps<L>) -> Visit
        requires trip { trip < length self.now.0.trips }
        requires at { at < length (events_of self.now.0 trip) }
        ensures stop { result.stop ≡ stop_at self.now.0 trip at }
        ensures arr { result.arr ≡ arrival_at self.now.0 trip at }
        ensures alight { result.alight ≡ (event_at self.now.0 trip at).alight }
        ensures trip { seen_trip result.seen ≡ trip }
        ensures first { seen_first result.seen ≡ at }
        ensures last { seen_last result.seen ≡ at }
        ensures seen { seen_arr result.seen ≡ arrival_at self.now.0 trip at }
        ensures step { steps.new ≡ steps.old + 1 }
    {
        steps.tick();
        let set = self.set;
        let call = set.call(trip, at);
        Visit {
            stop: call.stop,
            arr: call.arr,
            alight: call.alight,
            seen: Seen {
                trip,
                first: at,
                last: at,
                arr: call.arr,
            },
        }
    }

    /// The hops from events that have been looked at, for as long as the set is lent.
    pub fn hops_of(&self, seen: Seen) -> Followed<'a>
        requires { AreEvents self.now.0 seen }
        ensures seen { followed_seen result ≡ seen }
        ensures hops { lent result.hops ≡ hops_seen (packed self.now.2) seen }
    {
        let set = self.set;
        let hops = set.hops_over(seen.trip, seen.first, seen.last);
        Followed { seen, hops }
    }
}

impl<'a> Scan for View<'a> {
    ghost use Rattle.transfer_pack.specs.Packed.{packed};

    ghost net = { λ v. record { table = v.0; lines = v.1.lines; hops = packed v.2 } };

    fn soundness(&self) {
        let lines = self.lines;
        lines.soundness();
        let table = self.table;
        table.soundness();
    }

    fn shape(&self) -> Shape {
        let table = self.table;
        Shape {
            stops: table.stop_count(),
            trips: table.trip_count(),
            events: table.event_count(),
            lines: self.lines.count(),
        }
    }

    fn walks(&self, p: StopNo) -> &[Path] {
        self.paths_from(p)
    }

    fn may_walk(&self, p: StopNo, q: StopNo) -> bool {
        let groups = self.groups;
        groups.may_walk(p, q)
    }

    fn groups(&self) -> &[u32] {
        self.stop_groups()
    }

    fn berths(&self, p: StopNo) -> u32 {
        let lines = self.lines;
        lines.soundness();
        let table = self.table;
        table.soundness();
        lines.at(p).len() as u32
    }

    fn last_at(&self, trip: TripNo) -> u32 {
        let table = self.table;
        table.soundness();
        let set = self.set;
        set.event_count(trip) - 1
    }

    fn onward(&self, trip: TripNo) -> &[TripNo] {
        self.trips_onward(trip)
    }

    fn before(&self, trip: TripNo) -> Option<TripNo> {
        self.trip_before(trip)
    }

    fn hops_from(&self, seen: Seen) -> Followed<'_> {
        self.hops_of(seen)
    }

    fn event_of(&self, followed: &Followed<'_>, place: usize) -> u32 {
        let set = self.set;
        let seen = &followed.seen;
        set.event_of(seen.trip, seen.first, seen.last, place)
    }

    fn read_event_ahead(&self, trip: TripNo, at: u32, ahead: &mut Ahead) {
        let set = self.set;
        set.read_event_ahead(trip, at, &mut ahead.read);
    }

    fn read_event_hops_ahead(&self, trip: TripNo, at: u32, ahead: &mut Ahead) {
        let set = self.set;
        set.read_hops_ahead(trip, at, at, &mut ahead.read);
    }

    fn read_hops_ahead(&self, seen: &Seen, ahead: &mut Ahead) {
        let set = self.set;
        set.read_hops_ahead(seen.trip, seen.first, seen.last, &mut ahead.read);
    }
}

impl<'a, L: Ledger> Look<L> for View<'a> {
    fn boarding(&self, p: StopNo, berth: u32, time: Sec, steps: &mut Steps<L>) -> Option<Hop> {
        steps.tick();
        let table = self.table;
        let lines = self.lines;
        let berth = lines.at(p)[berth as usize];
        if !lines.may_be_boarded(table, berth.line, berth.at) {
            return None;
        }
        match lines.earliest(table, berth.line, berth.at, time) {
            Some(trip) => Some(Hop { trip, at: berth.at }),
            None => None,
        }
    }

    fn visit(&self, trip: TripNo, at: u32, steps: &mut Steps<L>) -> Visit {
        self.look_at(trip, at, steps)
    }
}
