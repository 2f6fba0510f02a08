//! The first trip of each of some names.
ghost use Rattle.std.specs.Prelude.{◌≡◌, ℕ, List, IfOk, None, OnOk, Some, bytes_eq, if◌then◌else◌, true};
ghost use Rattle.std.specs.List.{list_any};
ghost use Rattle.tb_base.specs.TimetableData.{TripData};
ghost use Rattle.tb_base.specs.declared.days.ServiceDay.{ServiceDay};
ghost use Rattle.late_edit.specs.Amended.{is_named};
ghost use Rattle.late_edit.specs.Finding.{FindsFirst, trip_found, trip_noted};

use indexmap::IndexMap;
use std::alloc::Global;
use std::marker::Model;
use tb_base::{HashKey, Memory, NameIndex, ServiceDay, Timetable, Trip, TripNo};

// For each name the number of a trip, where one is noted.
#[derive(Drop)]
struct NamedTrips {
    trips: IndexMap<Vec<u8>, u32, HashKey>,
}

impl Model for NamedTrips {
    ghost use Rattle.std.specs.Prelude.{map};
    ghost use Rattle.late_edit.specs.Finding.{Noted};

    ghost Value = { Noted };

    ghost view = { λ n. map (λ e. (e.0.items, e.1)) n.trips.entries };
}

impl NamedTrips {
    fn new(alloc: Global, key: HashKey) -> NamedTrips
        ensures { (name : List ℕ) → trip_noted result name ≡ None }
    {
        NamedTrips {
            trips: IndexMap::with_hasher(alloc, key),
        }
    }

    // Notes the trip of a name, in place of one that was noted before.
    fn note(&mut self, alloc: Global, name: &[u8], trip: u32) -> Result<(), Memory>
        ensures { OnOk result ((n : List ℕ) →
            trip_noted self.new n
            ≡ if bytes_eq n name.now then Some trip else trip_noted self.old n) }
    {
        let copy = Vec::from_slice(alloc, name)?;
        self.trips.insert(copy, trip)?;
        Ok(())
    }

    fn find(&self, name: &[u8]) -> Option<u32>
        ensures { result ≡ trip_noted self.now name.now }
    {
        self.trips.get(name).copied()
    }
}

// Whether a trip has one of these names.
fn has_name(names: &NameIndex, trip: &Trip) -> bool
    ensures { result ≡ list_any (bytes_eq (TripData.name trip.now)) names.now }
{
    names.contains(trip.name.bytes())
}

/// For each service day and each of some names the first trip that has both.
#[derive(Drop)]
pub(crate) struct FirstTrips {
    before: NamedTrips,
    date: NamedTrips,
    after: NamedTrips,
    second_after: NamedTrips,
}

impl Model for FirstTrips {
    ghost use Rattle.late_edit.specs.Finding.{FirstData};

    ghost Value = { FirstData };

    ghost view = { λ f. record {
      before = f.before;
      date = f.date;
      after = f.after;
      second_after = f.second_after;
    } };
}

impl FirstTrips {
    // No trip.
    fn new(alloc: Global, key: HashKey) -> FirstTrips
        ensures { (day : ServiceDay) (name : List ℕ) → trip_found result day name ≡ None }
    {
        FirstTrips {
            before: NamedTrips::new(alloc, key),
            date: NamedTrips::new(alloc, key),
            after: NamedTrips::new(alloc, key),
            second_after: NamedTrips::new(alloc, key),
        }
    }

    // Notes a trip with its number, in place of one of its name and day that was noted before.
    fn note(&mut self, alloc: Global, trip: &Trip, number: u32) -> Result<(), Memory>
        ensures { OnOk result ((day : ServiceDay) (name : List ℕ) →
            trip_found self.new day name
            ≡ if is_named day name trip.now then Some number
            else trip_found self.old day name) }
    {
        let name = trip.name.bytes();
        match trip.day {
            ServiceDay::Before => self.before.note(alloc, name, number),
            ServiceDay::Date => self.date.note(alloc, name, number),
            ServiceDay::After => self.after.note(alloc, name, number),
            ServiceDay::SecondAfter => self.second_after.note(alloc, name, number),
        }
    }

    // The same, where the trip has one of these names.
    fn note_named(
        &mut self,
        alloc: Global,
        names: &NameIndex,
        trip: &Trip,
        number: u32,
    ) -> Result<(), Memory>
        ensures { OnOk result ((day : ServiceDay) (name : List ℕ) →
            list_any (bytes_eq name) names.now ≡ true →
            trip_found self.new day name
            ≡ if is_named day name trip.now then Some number
            else trip_found self.old day name) }
    {
        if !has_name(names, trip) {
            return Ok(());
        }
        self.note(alloc, trip, number)
    }

    /// The first trip of a timetable of each of these names. The last one is noted first, so that an
    /// earlier one takes the place of a later one. Takes memory by the names, and none for a trip
    /// that has another name.
    pub(crate) fn of(
        alloc: Global,
        table: &Timetable,
        names: &NameIndex,
    ) -> Result<FirstTrips, Memory>
        ensures { IfOk result (λ first. FindsFirst first names.now table.now.trips) }
    {
        let mut first = FirstTrips::new(alloc, table.key());
        let count = table.trip_count();
        for t in (0..count).rev() {
            let trip = table.trip(TripNo(t));
            let Ok(()) = first.note_named(alloc, names, trip, t) else {
                drop(first);
                return Err(Memory);
            };
        }
        Ok(first)
    }

    /// The trip of a service day and a name.
    pub(crate) fn find(&self, day: ServiceDay, name: &[u8]) -> Option<u32>
        ensures { result ≡ trip_found self.now day name.now }
    {
        match day {
            ServiceDay::Before => self.before.find(name),
            ServiceDay::Date => self.date.find(name),
            ServiceDay::After => self.after.find(name),
            ServiceDay::SecondAfter => self.second_after.find(name),
        }
    }
}
