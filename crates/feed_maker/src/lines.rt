//! The trips of the city.
ghost use Rattle.std.specs.Prelude.{◌≡◌, ◌<◌, ◌≤◌, ◌++◌, IfOk, OnOk, map};
ghost use Rattle.tb_base.specs.Transfers.{numbers_below};
ghost use Rattle.feed_maker.specs.City.{city_event, city_trip, city_trips, stop_along, time_along, trips_along, trips_heading};

use crate::heading::Heading;
use std::alloc::Global;
use tb_base::{Event, Memory, Name, Sec, ServiceDay, StopNo, Trip};

const TRIPS: u32 = 90;

/// The trips along one row or column of a grid that head one way.
#[derive(Clone, Copy)]
struct Line {
    side: u32,
    heading: Heading,
    // The number of the row or the column.
    lane: u32,
}

impl Line {
    // The number of the stop where its trips are at an event.
    fn stop(self, event: u32) -> StopNo
        requires few { self.side ≤ 40 }
        requires lane { self.lane < self.side }
        requires event { event < self.side }
        ensures { result ≡ stop_along self.side self.heading self.lane event }
    {
        let ahead = self.side - 1 - event;
        let (column, row) = match self.heading {
            Heading::Rightward => (event, self.lane),
            Heading::Leftward => (ahead, self.lane),
            Heading::Downward => (self.lane, event),
            Heading::Upward => (self.lane, ahead),
        };
        StopNo(row * self.side + column)
    }

    // When trip `m` of it is at an event, in seconds from noon minus twelve hours.
    fn time(self, trip: u32, event: u32) -> u32
        requires few { self.side ≤ 40 }
        requires lane { self.lane < self.side }
        requires trip { trip < 90 }
        requires event { event < self.side }
        ensures { result ≡ time_along self.heading self.lane trip event }
    {
        let delay = (self.lane + self.heading.number()) % 10;
        21_600 + 600 * trip + 60 * delay + 90 * event
    }

    // An event of a trip of it.
    fn event(self, trip: u32, event: u32) -> Event
        requires few { self.side ≤ 40 }
        requires lane { self.lane < self.side }
        requires trip { trip < 90 }
        requires event { event < self.side }
        ensures { result ≡ city_event self.side self.heading self.lane trip event }
    {
        let time = self.time(trip, event) as Sec;
        Event {
            stop: self.stop(event),
            arr: time,
            dep: time,
            board: true,
            alight: true,
        }
    }

    // The events of a trip of it.
    #[tactic(auto, using(crate::proofs::Growing::map_more))]
    fn events(self, alloc: Global, trip: u32) -> Result<Vec<Event>, Memory>
        requires few { self.side ≤ 40 }
        requires lane { self.lane < self.side }
        requires trip { trip < 90 }
        ensures { IfOk result (λ v. v.items
            ≡ map (city_event self.side self.heading self.lane trip) (numbers_below self.side)) }
    {
        let mut events = Vec::with_capacity(alloc, self.side as usize)?;
        for event in 0..self.side {
            events.push(self.event(trip, event))?;
        }
        Ok(events)
    }

    // A trip of it.
    fn trip(self, alloc: Global, trip: u32) -> Result<Trip, Memory>
        requires few { self.side ≤ 40 }
        requires lane { self.lane < self.side }
        requires trip { trip < 90 }
        ensures { IfOk result (λ t. t ≡ city_trip self.side self.heading self.lane trip) }
    {
        let heading = self.heading.number();
        let lane = self.lane;
        let name = format!(in alloc; "D{heading}K{lane}M{trip}")?;
        Ok(Trip {
            name: Name::new(alloc, name.as_bytes())?,
            day: ServiceDay::Date,
            events: self.events(alloc, trip)?,
        })
    }

    // Adds its trips.
    #[tactic(auto, using(crate::proofs::Growing::map_more))]
    fn add_trips(self, alloc: Global, trips: &mut Vec<Trip>) -> Result<(), Memory>
        requires few { self.side ≤ 40 }
        requires lane { self.lane < self.side }
        ensures { OnOk result (trips.new.items
            ≡ trips.old.items ++ trips_along self.side self.heading self.lane) }
    {
        for trip in 0..TRIPS {
            trips.push(self.trip(alloc, trip)?)?;
        }
        Ok(())
    }
}

// Adds the trips of a grid that head one way.
#[tactic(auto, using(crate::proofs::Growing::flat_map_more))]
fn add_heading(
    alloc: Global,
    trips: &mut Vec<Trip>,
    side: u32,
    heading: Heading,
) -> Result<(), Memory>
    requires { side ≤ 40 }
    ensures { OnOk result (trips.new.items ≡ trips.old.items ++ trips_heading side heading) }
{
    for lane in 0..side {
        let line = Line {
            side,
            heading,
            lane,
        };
        line.add_trips(alloc, trips)?;
    }
    Ok(())
}

/// The trips of a grid, by the way that they head.
pub(crate) fn trips(alloc: Global, side: u32) -> Result<Vec<Trip>, Memory>
    requires { side ≤ 40 }
    ensures { IfOk result (λ v. v.items ≡ city_trips side) }
{
    let mut trips = Vec::new(alloc);
    add_heading(alloc, &mut trips, side, Heading::Rightward)?;
    add_heading(alloc, &mut trips, side, Heading::Leftward)?;
    add_heading(alloc, &mut trips, side, Heading::Downward)?;
    add_heading(alloc, &mut trips, side, Heading::Upward)?;
    Ok(trips)
}
