//! Which ride a trip's name, its day, two stops and two times stand for.
ghost use Rattle.std.specs.Prelude.{◌≡◌, ◌<◌, ◌+◌, ◌^◌, IfSome, length};
ghost use Rattle.journey_read.specs.Calls.{HoldsCalls, first_begin, first_end};
ghost use Rattle.journey_read.specs.Rides.{arrives, departs, ends_among, ride_among, ride_on};

use crate::calls::{Call, TripCalls, first_call};
use crate::indexed_timetable::IndexedTimetable;
use tb_base::{Event, Leg, Sec, ServiceDay, StopNo, Trip, TripNo};

/// Where and when a ride begins and ends.
#[derive(Clone, Copy)]
pub(crate) struct Ends {
    pub(crate) from: StopNo,
    pub(crate) departure: Sec,
    pub(crate) to: StopNo,
    pub(crate) arrival: Sec,
}

impl Ends {
    // Whether the ride can begin at an event.
    fn departs(&self, event: &Event) -> bool
        ensures { result ≡ departs self.now event.now }
    {
        event.stop.index() == self.from.index() && event.dep == self.departure
    }

    // Whether it can end there.
    fn arrives(&self, event: &Event) -> bool
        ensures { result ≡ arrives self.now event.now }
    {
        event.stop.index() == self.to.index() && event.arr == self.arrival
    }

    // The indexes of the events of a trip where it begins and ends.
    fn among(&self, events: &[Event]) -> Option<(u32, u32)>
        requires { length events.now < 2 ^ 32 }
        ensures { result ≡ ends_among self.now 0 events.now }
    {
        let mut begin: Option<u32> = None;
        for at in 0..events.len() {
            let event = &events[at];
            match begin {
                Some(board) => {
                    if self.arrives(event) {
                        return Some((board, at as u32));
                    }
                }
                None => {
                    if self.departs(event) {
                        begin = Some(at as u32);
                    }
                }
            }
        }
        None
    }

    // The first call at which it can begin.
    fn first_begin(&self) -> Call
        ensures { result ≡ first_begin self.now }
    {
        Call {
            stop: self.from,
            time: self.departure,
            at: 0,
        }
    }

    // The first call at which it can end, where it begins at an index.
    fn first_end(&self, board: u32) -> Call
        requires { board + 1 < 2 ^ 32 }
        ensures { result ≡ first_end self.now board }
    {
        Call {
            stop: self.to,
            time: self.arrival,
            at: board + 1,
        }
    }

    // The same, by the calls of the trip where it is long.
    fn among_calls(&self, events: &[Event], calls: Option<&TripCalls>) -> Option<(u32, u32)>
        requires count { length events.now < 2 ^ 32 }
        requires calls { IfSome calls (λ c. HoldsCalls events.now c.now) }
        ensures { result ≡ ends_among self.now 0 events.now }
    {
        let Some(calls) = calls else {
            return self.among(events);
        };
        let board = first_call(calls.departures.as_slice(), &self.first_begin())?;
        let alight = first_call(calls.arrivals.as_slice(), &self.first_end(board))?;
        Some((board, alight))
    }

    // The ride on a trip with this number, if the trip has the name and the service day, and has
    // such a ride.
    fn on(
        &self,
        number: TripNo,
        trip: &Trip,
        calls: Option<&TripCalls>,
        name: &[u8],
        day: ServiceDay,
    ) -> Option<Leg>
        requires count { length trip.now.events < 2 ^ 32 }
        requires calls { IfSome calls (λ c. HoldsCalls trip.now.events c.now) }
        ensures { result ≡ ride_on name.now day self.now number trip.now }
    {
        if name != trip.name.bytes() || !day.is(trip.day) {
            return None;
        }
        let (board, alight) = self.among_calls(trip.events.as_slice(), calls)?;
        Some(Leg::Ride {
            trip: number,
            board,
            alight,
        })
    }

    /// The ride on the lowest-numbered trip that has one, of those with a name and a service day.
    pub(crate) fn ride(
        &self,
        table: &IndexedTimetable<'_>,
        name: &[u8],
        day: ServiceDay,
    ) -> Option<Leg>
        ensures { result ≡ ride_among name.now day self.now 0 table.now.trips }
    {
        let timetable = table.table();
        timetable.soundness();
        for t in table.trips_named(name) {
            let number = TripNo(*t);
            let trip = timetable.trip(number);
            if let Some(leg) = self.on(number, trip, table.calls(number), name, day) {
                return Some(leg);
            }
        }
        None
    }
}
