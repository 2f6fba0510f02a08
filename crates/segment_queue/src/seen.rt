ghost use Rattle.std.specs.Prelude.{◌≡◌, ◌+◌};
ghost use Rattle.segment_queue.specs.Scans.{followed_seen, no_events, seen_arr, seen_first, seen_last, seen_trip};

use std::mem;
use tb_base::{Sec, TripNo};
use transfer_pack::Hops;

/// Events of a trip that have been looked at, one behind the other: from index `first` to index
/// `last`, and when the first arrives. Whoever has one may follow the hops from those events, once:
/// it has no copy, and goes where its hops come from. That the events were looked at, at this
/// network and in this search, no clause says: outside this crate a `Seen` comes only from looks
/// and from joining what they gave, and shows no trip and no index.
#[derive(Drop)]
pub struct Seen {
    pub(crate) trip: TripNo,
    pub(crate) first: u32,
    pub(crate) last: u32,
    pub(crate) arr: Sec,
}

impl Seen {
    /// When the first of the events arrives.
    pub fn arr(&self) -> Sec
        ensures { result ≡ seen_arr self.now }
    {
        self.arr
    }

    /// These events, and those just behind them.
    pub fn and(self, next: Seen) -> Seen
        requires trip { seen_trip next ≡ seen_trip self }
        requires behind { seen_first next ≡ seen_last self + 1 }
        ensures trip { seen_trip result ≡ seen_trip self }
        ensures first { seen_first result ≡ seen_first self }
        ensures last { seen_last result ≡ seen_last next }
        ensures arr { seen_arr result ≡ seen_arr self }
    {
        Seen {
            trip: self.trip,
            first: self.first,
            last: next.last,
            arr: self.arr,
        }
    }

    // No events: the first is behind the last.
    fn none() -> Seen
        ensures { result ≡ no_events }
    {
        Seen {
            trip: TripNo(0),
            first: 1,
            last: 0,
            arr: 0,
        }
    }

    // Takes the events, and leaves none.
    pub(crate) fn take(&mut self) -> Seen
        ensures taken { result ≡ self.old }
        ensures none { self.new ≡ no_events }
    {
        mem::replace(self, Seen::none())
    }
}

/// The hops from events that have been looked at, to be followed.
#[derive(Drop)]
pub struct Followed<'a> {
    pub(crate) seen: Seen,
    pub hops: Hops<'a>,
}
