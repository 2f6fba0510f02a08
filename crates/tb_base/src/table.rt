ghost use Rattle.std.specs.Prelude.{◌≡◌, IfOk};

use super::days::ServiceDay;
use super::memory::Memory;
use super::numbers::{Sec, StopNo};
use std::alloc::Global;
use std::marker::Model;

/// A name of a stop, a station or a trip, as its bytes.
#[derive(Debug, Drop)]
pub struct Name(Vec<u8>);

impl Model for Name {
    ghost use Rattle.std.specs.Prelude.{ℕ, List};

    ghost Value = { List ℕ };

    ghost view = { λ n. n.0.items };
}

impl Name {
    /// The name with exactly these bytes. Refused only for want of memory.
    pub fn new(alloc: Global, bytes: &[u8]) -> Result<Name, Memory>
        ensures { IfOk result (λ name. name ≡ bytes.now) }
    {
        let copy = Vec::from_slice(alloc, bytes)?;
        Ok(Name(copy))
    }

    /// Its bytes.
    pub fn bytes(&self) -> &[u8]
        ensures { result.now ≡ self.now }
    {
        self.0.as_slice()
    }
}

/// An event: one stop of a trip, with the times of arrival and departure, and whether one may board
/// and alight there.
#[derive(Clone, Copy, Debug, PartialEq, Eq)]
pub struct Event {
    pub stop: StopNo,
    /// In seconds since noon minus twelve hours, as `dep`.
    pub arr: Sec,
    pub dep: Sec,
    pub board: bool,
    pub alight: bool,
}

/// A stop.
#[derive(Drop)]
pub struct Stop {
    pub name: Name,
}

/// A footpath to another stop, with its seconds.
#[derive(Clone, Copy, Debug, PartialEq, Eq)]
pub struct Path {
    pub to: StopNo,
    pub secs: u32,
}

/// A trip: its name, its service day, and its events in order. Its times are those of the date of
/// the timetable.
#[derive(Drop)]
pub struct Trip {
    pub name: Name,
    pub day: ServiceDay,
    pub events: Vec<Event>,
}

impl Model for Trip {
    ghost use Rattle.tb_base.specs.TimetableData.{TripData};

    ghost Value = { TripData };

    ghost view = { λ t. record {
      name = t.name;
      day = t.day;
      events = t.events.items;
    } };
}

/// A station: its name, and the stops that belong to it, in ascending order.
#[derive(Drop)]
pub struct Station {
    pub name: Name,
    pub stops: Vec<StopNo>,
}

impl Model for Station {
    ghost use Rattle.tb_base.specs.TimetableData.{StationData};

    ghost Value = { StationData };

    ghost view = { λ t. record { name = t.name; stops = t.stops.items } };
}

/// The parts of a timetable. For each stop, by its number, the change time if it has one, in
/// seconds, and the footpaths that leave it, by the stop that they lead to.
#[derive(Drop)]
pub struct Parts {
    pub stops: Vec<Stop>,
    pub stations: Vec<Station>,
    pub trips: Vec<Trip>,
    pub change: Vec<Option<u32>>,
    pub paths: Vec<Vec<Path>>,
}

impl Model for Parts {
    ghost use Rattle.std.specs.Prelude.{map};
    ghost use Rattle.tb_base.specs.TimetableData.{TimetableData};

    ghost Value = { TimetableData };

    ghost view = { λ t. record {
      stops = t.stops.items;
      stations = t.stations.items;
      trips = t.trips.items;
      footpaths = record {
        change = t.change.items;
        paths = map (λ row. row.items) t.paths.items;
      };
    } };
}
