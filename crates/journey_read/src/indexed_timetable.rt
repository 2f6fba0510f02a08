//! A timetable with its trips by their names, and the calls of long trips.
ghost use Rattle.std.specs.Prelude.{◌≡◌, ◌<◌, ◌≤◌, All, IfOk, IfSome, length};
ghost use Rattle.journey_read.specs.Calls.{HoldsCalls};
ghost use Rattle.journey_read.specs.Rides.{HaveRides};
ghost use Rattle.journey_read.specs.TripNames.{name_place, name_places};
ghost use Rattle.tb_base.specs.TimetableData.{events_of};

use crate::calls::{TripCalls, all_calls};
use std::alloc::Global;
use std::marker::Model;
use tb_base::{Groups, Memory, NameIndex, Timetable, TripNo};

// The names of all trips.
fn names_of(alloc: Global, table: &Timetable) -> Result<NameIndex, Memory>
    ensures { IfOk result (λ names. length names ≤ length table.now.trips) }
{
    let mut names = NameIndex::new(alloc, table.key());
    for t in 0..table.trip_count() {
        names.add(alloc, table.trip(TripNo(t)).name.bytes())?;
    }
    Ok(names)
}

// The place of a name among these, or the number behind all of them where it isn't there.
fn place_of(names: &NameIndex, behind: u32, name: &[u8]) -> u32
    requires { length names.now ≤ behind }
    ensures place { result ≡ name_place names.now behind name.now }
    ensures within { result ≤ behind }
{
    match names.find(name) {
        Some(place) => place as u32,
        None => behind,
    }
}

// The place of each trip's name.
fn places_of(alloc: Global, table: &Timetable, names: &NameIndex) -> Result<Vec<u32>, Memory>
    requires { length names.now ≤ length table.now.trips }
    ensures { IfOk result (λ places. places.items ≡ name_places names.now table.now.trips) }
{
    let count = table.trip_count();
    let mut places = Vec::new(alloc);
    for t in 0..count {
        places.push(place_of(names, count, table.trip(TripNo(t)).name.bytes()))?;
    }
    Ok(places)
}

/// A timetable, its trips by their names, and the calls of its long trips. Contracts see it as the
/// timetable.
#[derive(Drop)]
pub(crate) struct IndexedTimetable<'a> {
    table: &'a Timetable,
    names: NameIndex,
    trips: Groups,
    calls: Vec<Option<TripCalls>>,
}

impl<'a> Model for IndexedTimetable<'a> {
    ghost use Rattle.tb_base.specs.TimetableData.{TimetableData};
    ghost use Rattle.journey_read.specs.TripNames.{AreByName};
    ghost use Rattle.journey_read.specs.Calls.{HaveCalls};

    ghost Value = { TimetableData };

    ghost view = { λ t. t.table.now };

    ghost invariant = { λ t.
        AreByName t.names t.trips t.table.now.trips
        × HaveCalls t.table.now.trips t.calls.items };
}

impl<'a> IndexedTimetable<'a> {
    /// A timetable, with its trips by their names and the calls of its long trips. Refused only for
    /// want of memory.
    pub(crate) fn new(alloc: Global, table: &'a Timetable) -> Result<IndexedTimetable<'a>, Memory>
        ensures { IfOk result (λ indexed. indexed ≡ table.now) }
    {
        table.soundness();
        let names = names_of(alloc, table)?;
        let places = places_of(alloc, table, &names)?;
        let trips = Groups::by_key(alloc, places.as_slice(), table.trip_count() as usize + 1)?;
        Ok(IndexedTimetable {
            table,
            names,
            trips,
            calls: all_calls(alloc, table)?,
        })
    }

    /// The timetable.
    pub(crate) fn table(&self) -> &'a Timetable
        ensures { result.now ≡ self.now }
    {
        self.table
    }

    /// The numbers of trips, in order, all of those with a name among them.
    pub(crate) fn trips_named(&self, name: &[u8]) -> &[u32]
        ensures rides { HaveRides name.now self.now.trips result.now }
        ensures within { All (λ t. t < length self.now.trips) result.now }
    {
        let table = self.table;
        self.trips
            .of(place_of(&self.names, table.trip_count(), name) as usize)
    }
    /// The calls of a trip, if it is long.
    pub(crate) fn calls(&self, trip: TripNo) -> Option<&TripCalls>
        requires { trip < length self.now.trips }
        ensures { IfSome result (λ c. HoldsCalls (events_of self.now trip) c.now) }
    {
        self.calls[trip.index()].as_ref()
    }
}
