//! Copies of the parts of a timetable.
//!
//! A timetable is never changed. Who makes another one from it, as its mirror, or one in which some
//! trips run late, copies the parts that stay. Each copy is the part itself.
ghost use Rattle.std.specs.Prelude.{◌≡◌, IfOk, map};

use super::memory::Memory;
use super::numbers::{StopNo, TripNo};
use super::table::{Name, Path, Station, Stop, Trip};
use super::timetable::Timetable;
use std::alloc::Global;

impl Timetable {
    /// A copy of its stops. Refused only for want of memory.
    pub fn copy_stops(&self, alloc: Global) -> Result<Vec<Stop>, Memory>
        ensures { IfOk result (λ v. v.items ≡ self.now.stops) }
    {
        let mut stops = Vec::new(alloc);
        for p in 0..self.stop_count() {
            let name = Name::new(alloc, self.stop(StopNo(p)).name.bytes())?;
            stops.push(Stop { name })?;
        }
        Ok(stops)
    }

    /// A copy of its stations. Refused only for want of memory.
    pub fn copy_stations(&self, alloc: Global) -> Result<Vec<Station>, Memory>
        ensures { IfOk result (λ v. v.items ≡ self.now.stations) }
    {
        let mut stations = Vec::new(alloc);
        for n in 0..self.station_count() {
            let station = self.station(n);
            let name = Name::new(alloc, station.name.bytes())?;
            let stops = Vec::from_slice(alloc, station.stops.as_slice())?;
            stations.push(Station { name, stops })?;
        }
        Ok(stations)
    }

    /// A copy of its trips. Refused only for want of memory.
    pub fn copy_trips(&self, alloc: Global) -> Result<Vec<Trip>, Memory>
        ensures { IfOk result (λ v. v.items ≡ self.now.trips) }
    {
        let mut trips = Vec::new(alloc);
        for t in 0..self.trip_count() {
            let trip = self.trip(TripNo(t));
            let name = Name::new(alloc, trip.name.bytes())?;
            let day = trip.day;
            let events = Vec::from_slice(alloc, trip.events.as_slice())?;
            trips.push(Trip { name, day, events })?;
        }
        Ok(trips)
    }

    /// A copy of its change times, in seconds. Refused only for want of memory.
    pub fn copy_change_times(&self, alloc: Global) -> Result<Vec<Option<u32>>, Memory>
        ensures { IfOk result (λ v. v.items ≡ self.now.footpaths.change) }
    {
        self.soundness();
        let mut times = Vec::new(alloc);
        for p in 0..self.stop_count() {
            times.push(self.change(StopNo(p), StopNo(p)))?;
        }
        Ok(times)
    }

    /// A copy of its footpaths. Refused only for want of memory.
    pub fn copy_paths(&self, alloc: Global) -> Result<Vec<Vec<Path>>, Memory>
        ensures { IfOk result (λ v. map (λ row. row.items) v.items ≡ self.now.footpaths.paths) }
    {
        self.soundness();
        let mut paths = Vec::new(alloc);
        for p in 0..self.stop_count() {
            paths.push(Vec::from_slice(alloc, self.paths(StopNo(p)))?)?;
        }
        Ok(paths)
    }
}
