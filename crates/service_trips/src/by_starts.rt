//! The trips that the rows of frequencies.txt give a trip.
ghost use Rattle.std.specs.Prelude.{◌≡◌, ◌<◌, ◌≤◌, ◌++◌, IfOk, OnOk, map, filter, pos, codes};
ghost use Rattle.std.specs.List.{flat_map};
ghost use Rattle.tb_base.specs.Clock.{time_text};
ghost use Rattle.service_trips.specs.ShownRides.{IsRide};
ghost use Rattle.service_trips.specs.Starts.{IsGoodFrequency, names_trip, starts};
ghost use Rattle.service_trips.specs.ServiceDay.{trip_starting_at};
ghost use Rattle.service_trips.specs.TimetableTrips.{reckoned, shown};

use crate::moved_rides::{moved_ride, shift, shown_starts};
use crate::starts::starts_in;
use crate::{FrequencyTable, TripFrequency};
use std::alloc::Global;
use tb_base::{Event, Memory, Name, ServiceDay, Trip, time_text};

// The name of a trip that starts at a time: the trip's id, `#` and the time.
fn start_name(alloc: Global, id: &Name, start: u32) -> Result<Name, Memory>
    requires { start ≤ 359999 }
    ensures { IfOk result (λ name. name ≡ id.now ++ codes "#" ++ time_text (pos start)) }
{
    let mut name: Vec<u8> = Vec::from_slice(alloc, id.bytes())?;
    name.extend_from_slice(b"#")?;
    let time = time_text(alloc, start as i32)?;
    name.extend_from_slice(time.as_slice())?;
    Name::new(alloc, name.as_slice())
}

// The trip of a service day that starts at a time, in the reckoning of the date.
fn trip_starting_at(
    alloc: Global,
    id: &Name,
    ride: &[Event],
    start: u32,
    day: ServiceDay,
) -> Result<Trip, Memory>
    requires ride { IsRide ride.now }
    requires start { start ≤ 359999 }
    ensures { IfOk result (λ trip.
        trip ≡ reckoned day (trip_starting_at id.now ride.now start)) }
{
    let name = start_name(alloc, id, start)?;
    let events = moved_ride(alloc, ride, shift(ride, start, day))?;
    Ok(Trip { name, day, events })
}

// Adds the trips of one row of frequencies.txt that are shown.
fn add_starts(
    alloc: Global,
    trips: &mut Vec<Trip>,
    id: &Name,
    ride: &[Event],
    frequency: &TripFrequency,
    day: ServiceDay,
) -> Result<(), Memory>
    requires ride { IsRide ride.now }
    requires good { IsGoodFrequency frequency.now }
    ensures { OnOk result (trips.new.items
        ≡ trips.old.items
        ++ shown day (map (trip_starting_at id.now ride.now) (starts frequency.now))) }
{
    let starts = starts_in(frequency, shown_starts(ride, day));
    for k in 0..starts.count {
        let start = starts.first + k as u64 * frequency.headway as u64;
        let trip = trip_starting_at(alloc, id, ride, start as u32, day)?;
        trips.push(trip)?;
    }
    Ok(())
}

/// Adds the trips of all rows of frequencies.txt that name a trip, as far as they are shown.
pub(crate) fn add_by_starts(
    alloc: Global,
    trips: &mut Vec<Trip>,
    id: &Name,
    ride: &[Event],
    table: &FrequencyTable,
    trip: usize,
    day: ServiceDay,
) -> Result<(), Memory>
    requires ride { IsRide ride.now }
    requires trip { trip < table.now.trips }
    ensures { OnOk result (trips.new.items
        ≡ trips.old.items ++ shown day
        (map (trip_starting_at id.now ride.now)
        (flat_map starts (filter (names_trip trip) table.now.rows)))) }
{
    let rows = table.rows();
    let places = table.places(trip);
    for place in places {
        add_starts(alloc, trips, id, ride, &rows[*place as usize], day)?;
    }
    Ok(())
}
