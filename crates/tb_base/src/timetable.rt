ghost use Rattle.std.specs.Prelude.{◌≡◌, ◌<◌, ◌≤◌, length, map, sum_by, All, AllPairs, Some};
ghost use Rattle.tb_base.specs.TimetableData.{TripData};

use super::hash_key::HashKey;
use super::memory::Memory;
use super::name_index::NameIndex;
use super::numbers::{StopNo, TripNo};
use super::paths::secs_between;
use super::query::Place;
use super::table::{Event, Parts, Path, Station, Stop, Trip};
use std::alloc::Global;
use std::marker::Model;

/// A timetable: sound parts, for any number of queries.
#[derive(Drop)]
pub struct Timetable {
    parts: Parts,
    stop_names: NameIndex,
    station_names: NameIndex,
    events: u64,
    footpaths: u64,
}

impl Model for Timetable {
    ghost use Rattle.tb_base.specs.TimetableData.{TimetableData};
    ghost use Rattle.tb_base.specs.Indexed.{IsIndexed};

    ghost Value = { TimetableData };

    ghost view = { λ t. t.parts };

    ghost invariant = { λ t. IsIndexed t.parts t.stop_names t.station_names t.events t.footpaths };
}

// How many events the trips have.
fn events_in(trips: &[Trip]) -> u64
    requires { sum_by (λ t. length (TripData.events t)) trips.now ≤ 10000000 }
    ensures { result ≡ sum_by (λ t. length (TripData.events t)) trips.now }
{
    trips.iter().map(|trip| trip.events.len() as u64).sum()
}

// How many footpaths the rows have.
fn paths_in(rows: &[Vec<Path>]) -> u64
    requires { sum_by (λ row. length row.items) rows.now ≤ 2000000 }
    ensures { result ≡ sum_by (λ row. length row.items) rows.now }
{
    rows.iter().map(|row| row.len() as u64).sum()
}

impl Parts {
    ghost use Rattle.std.specs.Prelude.{slice_get};

    // The change time of a stop.
    fn change_time(&self, p: StopNo) -> Option<u32>
        requires { p < length self.now.footpaths.change }
        ensures { slice_get self.now.footpaths.change p ≡ Some result }
    {
        self.change[p.index()]
    }

    // The footpaths that leave a stop.
    fn paths_from(&self, p: StopNo) -> &[Path]
        requires { p < length self.now.footpaths.paths }
        ensures { slice_get self.now.footpaths.paths p ≡ Some result.now }
    {
        self.paths[p.index()].as_slice()
    }
}

impl Timetable {
    ghost use Rattle.std.specs.Prelude.{IfSome, IfOk, slice_get};
    ghost use Rattle.tb_base.specs.Places.{HasPlace, place_named, stops_of};
    ghost use Rattle.tb_base.specs.Soundness.{IsSound, IsSoundEvent, IsSoundPath, IsSoundStation, IsSoundTrip};
    ghost use Rattle.tb_base.specs.TimetableData.{event_at, event_total, events_of, path_total};
    ghost use Rattle.tb_base.specs.Walking.{change, walk};

    /// The timetable with exactly these parts. It owns them, and an index of the names of stops and
    /// stations besides, hashed by the key. Refused only for want of memory; the parts are dropped
    /// then.
    pub fn new(alloc: Global, key: HashKey, parts: Parts) -> Result<Timetable, Memory>
        requires { IsSound parts }
        ensures { IfOk result (λ table. table ≡ parts) }
    {
        let stop_names = NameIndex::of_stops(alloc, key, parts.stops.as_slice())?;
        let station_names = NameIndex::of_stations(alloc, key, parts.stations.as_slice())?;
        let events = events_in(parts.trips.as_slice());
        let footpaths = paths_in(parts.paths.as_slice());
        Ok(Timetable {
            parts,
            stop_names,
            station_names,
            events,
            footpaths,
        })
    }

    /// Every timetable is sound. Does nothing.
    pub fn soundness(&self)
        ensures { IsSound self.now }
    {
        let _parts = &self.parts;
    }

    /// The key by which names are hashed.
    pub fn key(&self) -> HashKey {
        self.stop_names.key()
    }

    /// How many stops there are. Their numbers are those below.
    pub fn stop_count(&self) -> u32
        ensures { result ≡ length self.now.stops }
    {
        self.parts.stops.len() as u32
    }

    /// How many stations there are. Their numbers are those below.
    pub fn station_count(&self) -> u32
        ensures { result ≡ length self.now.stations }
    {
        self.parts.stations.len() as u32
    }

    /// How many trips there are. Their numbers are those below.
    pub fn trip_count(&self) -> u32
        ensures { result ≡ length self.now.trips }
    {
        self.parts.trips.len() as u32
    }

    /// How many events all trips have.
    pub fn event_count(&self) -> u64
        ensures { result ≡ event_total self.now }
    {
        self.events
    }

    /// How many footpaths there are.
    pub fn path_count(&self) -> u64
        ensures { result ≡ path_total self.now.footpaths }
    {
        self.footpaths
    }

    /// The stop with a number.
    pub fn stop(&self, p: StopNo) -> &Stop
        requires { p < length self.now.stops }
        ensures { slice_get self.now.stops p ≡ Some result.now }
    {
        &self.parts.stops[p.index()]
    }

    /// The station with a number.
    pub fn station(&self, n: u32) -> &Station
        requires { n < length self.now.stations }
        ensures station { slice_get self.now.stations n ≡ Some result.now }
        ensures sound { IsSoundStation (length self.now.stops) result.now }
    {
        &self.parts.stations[n as usize]
    }

    /// The trip with a number.
    pub fn trip(&self, t: TripNo) -> &Trip
        requires { t < length self.now.trips }
        ensures trip { slice_get self.now.trips t ≡ Some result.now }
        ensures events { result.now.events ≡ events_of self.now t }
        ensures sound { IsSoundTrip (length self.now.stops) result.now }
    {
        &self.parts.trips[t.index()]
    }

    /// The events of a trip, in order.
    pub fn events(&self, t: TripNo) -> &[Event]
        requires { t < length self.now.trips }
        ensures { result.now ≡ events_of self.now t }
    {
        self.trip(t).events.as_slice()
    }

    /// The event of a trip with an index, counted from 0.
    pub fn event(&self, t: TripNo, i: u32) -> Event
        requires trip { t < length self.now.trips }
        requires at { i < length (events_of self.now t) }
        ensures event { result ≡ event_at self.now t i }
        ensures sound { IsSoundEvent (length self.now.stops) result }
    {
        self.trip(t).events[i as usize]
    }

    /// The footpaths that leave a stop, by the numbers of the stops that they lead to.
    pub fn paths(&self, p: StopNo) -> &[Path]
        requires { p < length self.now.stops }
        ensures paths { slice_get self.now.footpaths.paths p ≡ Some result.now }
        ensures sound { All (IsSoundPath (length self.now.stops) p) result.now }
        ensures ascending { AllPairs (λ f g. f.to < g.to) result.now }
    {
        self.parts.paths_from(p)
    }

    /// The stop or the station with a name, and none exactly where no stop and no station has it.
    /// Takes no memory.
    pub fn place(&self, name: &[u8]) -> Option<Place>
        ensures place { result ≡ place_named self.now name.now }
        ensures within { IfSome result (HasPlace self.now) }
    {
        match self.stop_names.find(name) {
            Some(p) => Some(Place::Stop(StopNo(p as u32))),
            None => match self.station_names.find(name) {
                Some(n) => Some(Place::Station(n as u32)),
                None => None,
            },
        }
    }

    /// The stops of a place: the stop alone, or those of the station, in ascending order.
    /// Refused only for want of memory.
    pub fn place_stops(&self, alloc: Global, place: Place) -> Result<Vec<StopNo>, Memory>
        requires { HasPlace self.now place }
        ensures stops { IfOk result (λ stops. stops.items ≡ stops_of self.now place) }
        ensures within { IfOk result (λ stops. All (λ p. p < length self.now.stops) stops.items) }
    {
        match place {
            Place::Stop(p) => Ok(vec![in alloc; p]?),
            Place::Station(n) => Ok(Vec::from_slice(alloc, self.station(n).stops.as_slice())?),
        }
    }

    /// The seconds of the walk from one stop to another: none within one stop, else those of the
    /// footpath, where there is one. Takes time by the logarithm of the number of footpaths that
    /// leave the first stop.
    pub fn walk(&self, p: StopNo, q: StopNo) -> Option<u32>
        requires from { p < length self.now.stops }
        requires to { q < length self.now.stops }
        ensures walk { result ≡ walk self.now p q }
        ensures at_most_a_day { IfSome result (λ secs. secs ≤ 86400) }
    {
        secs_between(Some(0), self.paths(p), p, q)
    }

    /// The seconds that it takes to change from one stop to another: within one stop its change
    /// time, else those of the footpath, where there is one. Takes time as a walk does.
    pub fn change(&self, p: StopNo, q: StopNo) -> Option<u32>
        requires from { p < length self.now.stops }
        requires to { q < length self.now.stops }
        ensures change { result ≡ change self.now p q }
        ensures at_most_a_day { IfSome result (λ secs. secs ≤ 86400) }
    {
        secs_between(self.parts.change_time(p), self.paths(p), p, q)
    }
}
