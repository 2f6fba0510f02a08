ghost use Rattle.std.specs.Prelude.{◌≡◌, ◌+◌, ◌<◌, ◌≤◌, ℕ, All, Contains, AllPairs, IsTrue, MatchOption, Some, length, slice_get, slice_index_or};
ghost use Rattle.tb_base.specs.Lines.{AreDividedInto};
ghost use Rattle.tb_base.specs.Soundness.{IsSound, IsSoundPath};
ghost use Rattle.tb_base.specs.Walking.{walk};
ghost use Rattle.tb_base.specs.TimetableData.{arrival_at, event_at, event_total, events_of, stop_at};
ghost use Rattle.segment_queue.specs.Scans.{AreEvents, IsFirst, StandsBefore, boarding_hop, followed_seen, hops_seen, hops_seen_before, hops_seen_to, line_indices_at, no_line_index, seen_arr, seen_first, seen_last, seen_trip, trips_from};
ghost use Rattle.segment_queue.specs.WalkGroups.{AreWalkGroups};
ghost use Rattle.transfer_pack.specs.Words.{lent};

use super::ahead::Ahead;
use super::seen::{Followed, Seen};
use super::steps::Steps;
use std::sync::ledger::Ledger;
use tb_base::{Hop, Path, Sec, StopNo, TripNo};

/// How large a timetable is.
#[derive(Clone, Copy, Debug, PartialEq, Eq)]
pub struct Shape {
    pub stops: u32,
    pub trips: u32,
    pub events: u64,
    pub lines: u32,
}

/// An event as a search sees it: its stop, its arrival, whether one may alight there, and by what
/// the hops from it can be followed.
#[derive(Drop)]
pub struct Visit {
    pub stop: StopNo,
    pub arr: Sec,
    pub alight: bool,
    pub seen: Seen,
}

/// What a search looks at: the network of a day. No call takes memory.
pub trait Scan {
    ghost use Rattle.tb_base.specs.Network.{NetData};
    ghost use Rattle.tb_base.specs.declared.transfer.Hop.{Hop};

    /// The network: a timetable, its lines, and for each event the hops by which a search goes on.
    ghost net: { Self → NetData };

    /// The timetable is sound, and the lines are its trips, each once.
    fn soundness(&self)
        ensures sound { IsSound (net self.now).table }
        ensures divided { AreDividedInto (net self.now).table (net self.now).lines };

    /// How large the timetable is.
    fn shape(&self) -> Shape
        ensures stops { result.stops ≡ length (net self.now).table.stops }
        ensures trips { result.trips ≡ length (net self.now).table.trips }
        ensures events { result.events ≡ event_total (net self.now).table }
        ensures lines { result.lines ≡ length (net self.now).lines };

    /// The footpaths that leave a stop, by the numbers of the stops that they lead to.
    fn walks(&self, p: StopNo) -> &[Path]
        requires { p < length (net self.now).table.stops }
        ensures paths { slice_get (net self.now).table.footpaths.paths p ≡ Some result.now }
        ensures sound { All (IsSoundPath (length (net self.now).table.stops) p) result.now }
        ensures ascending { AllPairs (λ f g. f.to < g.to) result.now };

    /// Whether there may be a walk from a stop to another. Where it says no there is none; to say
    /// yes too often only costs time.
    fn may_walk(&self, p: StopNo, q: StopNo) -> bool
        requires { p < length (net self.now).table.stops }
        ensures { (secs : ℕ) → walk (net self.now).table p q ≡ Some secs → IsTrue result };

    /// The group of each stop. No walk leads from one group to another; stops of one group need not
    /// have a walk.
    fn groups(&self) -> &[u32]
        ensures { AreWalkGroups (net self.now).table result.now };

    /// How many line indices are at a stop.
    fn berths(&self, p: StopNo) -> u32
        requires { p < length (net self.now).table.stops }
        ensures { result ≡ length (line_indices_at (net self.now).table (net self.now).lines p) };

    /// The last index of a trip.
    fn last_at(&self, trip: TripNo) -> u32
        requires { trip < length (net self.now).table.trips }
        ensures { result + 1 ≡ length (events_of (net self.now).table trip) };

    /// The trips of the trip's line from it on, in order: it is the first.
    fn onward(&self, trip: TripNo) -> &[TripNo]
        requires { trip < length (net self.now).table.trips }
        ensures trips { result.now ≡ trips_from (net self.now).lines trip }
        ensures there { All (λ u. u < length (net self.now).table.trips) result.now };

    /// The trip just before on the trip's line, where there is one.
    fn before(&self, trip: TripNo) -> Option<TripNo>
        requires { trip < length (net self.now).table.trips }
        ensures { MatchOption result (IsFirst (net self.now).lines trip)
            (λ v. (v < length (net self.now).table.trips)
            × StandsBefore (net self.now).lines v trip) };

    /// The hops from events that have been looked at, one event behind the other. It is no further
    /// step, and takes what was seen: no look gives hops twice.
    fn hops_from(&self, seen: Seen) -> Followed<'_>
        requires { AreEvents (net self.now).table seen }
        ensures seen { followed_seen result ≡ seen }
        ensures hops { lent result.hops ≡ hops_seen (net self.now).hops seen };

    /// The event, of those whose hops are followed, from which the hop at this place among all of
    /// theirs is. It is no further step.
    fn event_of(&self, followed: &Followed<'_>, place: usize) -> u32
        requires events { AreEvents (net self.now).table (followed_seen followed.now) }
        requires place { place
            < length (hops_seen (net self.now).hops (followed_seen followed.now)) }
        ensures first { seen_first (followed_seen followed.now) ≤ result }
        ensures last { result ≤ seen_last (followed_seen followed.now) }
        ensures begun { length (hops_seen_before (net self.now).hops (followed_seen followed.now)
            result) ≤ place }
        ensures ends { place < length (hops_seen_to (net self.now).hops (followed_seen followed.now)
            result) }
        ensures hop { (h : Hop) →
            slice_get (hops_seen (net self.now).hops (followed_seen followed.now)) place ≡ Some h →
            Contains ((net self.now).hops (seen_trip (followed_seen followed.now)) result) h };

    /// Reads event `at` of a trip ahead. It shows nothing of the event, so it is no look.
    fn read_event_ahead(&self, trip: TripNo, at: u32, ahead: &mut Ahead)
        requires trip { trip < length (net self.now).table.trips }
        requires at { at < length (events_of (net self.now).table trip) };

    /// Reads the first and the last of the hops from event `at` of a trip ahead. It shows nothing
    /// of them, nor of the event, so it is no look.
    fn read_event_hops_ahead(&self, trip: TripNo, at: u32, ahead: &mut Ahead)
        requires trip { trip < length (net self.now).table.trips }
        requires at { at < length (events_of (net self.now).table trip) };

    /// Reads the first and the last of the hops from events that have been looked at ahead. It
    /// shows nothing of them.
    fn read_hops_ahead(&self, seen: &Seen, ahead: &mut Ahead)
        requires { AreEvents (net self.now).table seen.now };
}

/// The looks of a search at a network: who boards a line, and an event of a trip. Each is a step on
/// a counter of the ledger `L`, and there is no other way to see a time for the first time: a
/// `Seen` shows again when its first event arrives, and `hops_from` shows hops alone, and only
/// those from events that have been looked at, of which looks gave the `Seen`. So a search over any
/// `L` counts all its looks where its caller counts, since no counter that it makes is of this
/// ledger; and it is lent the hops from an event no more often than it looks at it, since a look
/// gives one `Seen`, which `hops_from` takes.
pub trait Look<L: Ledger>: Scan {
    /// Who boards the line at the line index with this number at the stop, no earlier than the
    /// time. It is a step.
    fn boarding(&self, p: StopNo, berth: u32, time: Sec, steps: &mut Steps<L>) -> Option<Hop>
        requires stop { p < length (Self.net self.now).table.stops }
        requires berth { berth
            < length (line_indices_at (Self.net self.now).table (Self.net self.now).lines p) }
        ensures hop { result ≡ boarding_hop (Self.net self.now).table
            (slice_index_or
            (line_indices_at (Self.net self.now).table (Self.net self.now).lines p) berth
            no_line_index) time }
        ensures step { steps.new ≡ steps.old + 1 };

    /// Event `at` of a trip. It is a step.
    fn visit(&self, trip: TripNo, at: u32, steps: &mut Steps<L>) -> Visit
        requires trip { trip < length (Self.net self.now).table.trips }
        requires at { at < length (events_of (Self.net self.now).table trip) }
        ensures stop { result.stop ≡ stop_at (Self.net self.now).table trip at }
        ensures arr { result.arr ≡ arrival_at (Self.net self.now).table trip at }
        ensures alight { result.alight ≡ (event_at (Self.net self.now).table trip at).alight }
        ensures trip { seen_trip result.seen ≡ trip }
        ensures first { seen_first result.seen ≡ at }
        ensures last { seen_last result.seen ≡ at }
        ensures seen { seen_arr result.seen ≡ arrival_at (Self.net self.now).table trip at }
        ensures step { steps.new ≡ steps.old + 1 };
}
