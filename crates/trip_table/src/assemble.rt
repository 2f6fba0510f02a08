//! The timetable of trips over the stops of a feed.
ghost use Rattle.std.specs.Prelude.{◌≡◌, ◌≢◌, ◌≤◌, ◌++◌, ◌∷◌, [], IfOk, OnOk, All, length, map, sum_by};
ghost use Rattle.tb_base.specs.TimetableData.{TripData, FootpathData};
ghost use Rattle.tb_base.specs.Soundness.{IsSoundTrip, IsSoundFootpaths};
ghost use Rattle.tb_base.specs.Walking.{KeepsFootpathLaw};
ghost use Rattle.gtfs_rows.specs.StopsFile.{StopData, is_platform, is_station};
ghost use Rattle.footpaths.specs.Stops.{platforms, stations};
ghost use Rattle.trip_table.specs.Day.{stations_from, timetable};

use footpaths::{Paths, StopTable};
use gtfs_rows::StopRow;
use std::alloc::Global;
use tb_base::{Memory, Name, Parts, Station, Stop, StopNo, Timetable, Trip};

/// The platforms, as stops by their ids.
pub(crate) fn stops_of(alloc: Global, rows: &[StopRow]) -> Result<Vec<Stop>, Memory>
    ensures { IfOk result
        (λ v. v.items ≡ map (λ s. record { name = StopData.id s }) (platforms rows.now)) }
{
    let mut stops = Vec::new(alloc);
    for row in rows {
        if row.kind.is_platform() {
            let name = Name::new(alloc, row.id.bytes())?;
            stops.push(Stop { name })?;
        }
    }
    Ok(stops)
}

// The stations by their ids, as yet with no stops.
fn empty_stations(alloc: Global, rows: &[StopRow]) -> Result<Vec<Station>, Memory>
    ensures { IfOk result
        (λ v.
        v.items ≡ map (λ s. record { name = StopData.id s; stops = [] }) (stations rows.now)) }
{
    let mut stations = Vec::new(alloc);
    for row in rows {
        if row.kind.is_station() {
            let name = Name::new(alloc, row.id.bytes())?;
            let stops = Vec::new(alloc);
            stations.push(Station { name, stops })?;
        }
    }
    Ok(stations)
}

// One stop more of a station, after those that are there.
fn add_stop(station: &mut Station, stop: StopNo) -> Result<(), Memory>
    ensures { OnOk result
        (station.new ≡ record station.old { stops = station.old.stops ++ stop ∷ [] }) }
{
    match station.stops.push(stop) {
        Ok(()) => Ok(()),
        Err(_) => Err(Memory),
    }
}

// The stations, each with the platforms that name it as their parent: one pass over the platforms.
fn stations_of(alloc: Global, stops: &StopTable) -> Result<Vec<Station>, Memory>
    ensures { IfOk result (λ v. v.items ≡ stations_from stops.now 0 (stations stops.now)) }
{
    let mut stations = empty_stations(alloc, stops.rows())?;
    for p in 0..stops.platforms() {
        let stop = StopNo(p);
        if let Some(n) = stops.station_of(stop) {
            add_stop(&mut stations[n as usize], stop)?;
        }
    }
    Ok(stations)
}

/// The timetable of a day: its stops and stations, its trips, and change times and footpaths that
/// keep the law. Refused only for want of memory; the trips and paths are dropped then.
pub(crate) fn assemble(
    alloc: Global,
    stops: &StopTable,
    paths: Paths,
    trips: Vec<Trip>,
) -> Result<Timetable, Memory>
    requires named { All (λ s. StopData.id s ≢ []) stops.now }
    requires paths { IsSoundFootpaths paths }
    requires many { length (FootpathData.change paths) ≡ length (platforms stops.now) }
    requires law { KeepsFootpathLaw paths }
    requires trip_count { length trips.items ≤ 500000 }
    requires event_count { sum_by (λ t. length (TripData.events t)) trips.items ≤ 10000000 }
    requires sound { All (IsSoundTrip (length (platforms stops.now))) trips.items }
    ensures { IfOk result
        (λ table. table
        ≡ timetable (record { stops = stops.now; footpaths = paths; trips = trips.items })
        paths) }
{
    stops.soundness();
    let key = stops.key();
    let stations = stations_of(alloc, stops)?;
    let stops = stops_of(alloc, stops.rows())?;
    let Paths { change, paths } = paths;
    let parts = Parts {
        stops,
        stations,
        trips,
        change,
        paths,
    };
    Timetable::new(alloc, key, parts)
}
