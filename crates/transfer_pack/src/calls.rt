//! The calls of a timetable.
ghost use Rattle.std.specs.Prelude.{◌≡◌, ◌<◌, length};
ghost use Rattle.tb_base.specs.TimetableData.{event_at, events_of};
ghost use Rattle.transfer_pack.specs.CallsOf.{call_of};

use tb_base::{Event, Sec, StopNo, Timetable, TripNo};

/// What the reduction and the search read of an event: its stop, its arrival, in seconds, and
/// whether one may alight there.
#[derive(Clone, Copy, Debug, PartialEq, Eq)]
pub struct Call {
    pub stop: StopNo,
    pub arr: Sec,
    pub alight: bool,
}

impl Call {
    /// The call of an event.
    pub fn of(event: &Event) -> Call
        ensures { result ≡ call_of event.now }
    {
        Call {
            stop: event.stop,
            arr: event.arr,
            alight: event.alight,
        }
    }
}

/// The calls of a timetable's events. Whoever is lent some asks, by a clause, that their timetable
/// is the one at hand.
pub trait Calls {
    ghost use Rattle.tb_base.specs.TimetableData.{TimetableData};

    /// The timetable.
    ghost table: { Self → TimetableData };

    /// How many events a trip has: none where there is no such trip.
    fn count(&self, trip: TripNo) -> usize
        ensures { result ≡ length (events_of (table self.now) trip) };

    /// The call of event `at` of a trip.
    fn call(&self, trip: TripNo, at: usize) -> Call
        requires { at < length (events_of (table self.now) trip) }
        ensures { result ≡ call_of (event_at (table self.now) trip at) };
}

impl Calls for Timetable {
    ghost table = { λ T. T };

    fn count(&self, trip: TripNo) -> usize {
        if trip.index() < self.trip_count() as usize {
            self.events(trip).len()
        } else {
            0
        }
    }

    fn call(&self, trip: TripNo, at: usize) -> Call {
        Call::of(&self.events(trip)[at])
    }
}
