ghost use Rattle.std.specs.Prelude.{◌≡◌, IfErr, map};
ghost use Rattle.tb_base.specs.Refusals.{Yields};
ghost use Rattle.late_edit.specs.Amended.{amended, trip_named};
ghost use Rattle.late_edit.specs.Updates.{IsOfUpdateAlone};

use crate::late::LateFault;
use crate::named_trips::named_trips;
use crate::update::Update;
use crate::updated_trips::UpdatedTrips;
use std::alloc::Global;
use tb_base::{Parts, Refused, Timetable};

/// The timetable amended by updates that name these trips, or the first fault of one.
pub(crate) fn amended_by(
    alloc: Global,
    table: &Timetable,
    updates: &[Update],
    named: &[Option<u32>],
) -> Result<Timetable, Refused<LateFault>>
    requires { named.now ≡ map (trip_named table.now.trips) updates.now }
    ensures table { Yields result (λ new. new) (amended table.now updates.now) }
    ensures own { IfErr result IsOfUpdateAlone }
{
    let mut trips = UpdatedTrips::of(alloc, table)?;
    for at in 0..updates.len() {
        if let Err(fault) = trips.apply(&updates[at], named[at]) {
            drop(trips);
            return Err(Refused::Fault(fault));
        }
    }
    let trips = trips.into_trips();
    table.soundness();
    let parts = Parts {
        stops: table.copy_stops(alloc)?,
        stations: table.copy_stations(alloc)?,
        trips,
        change: table.copy_change_times(alloc)?,
        paths: table.copy_paths(alloc)?,
    };
    Ok(Timetable::new(alloc, table.key(), parts)?)
}

/// The timetable amended by updates, each of which changes what those before it left, or exactly the
/// first fault of one, and none of a file. Takes time by the size of the timetable, and by the
/// events that are changed.
pub fn amended(
    alloc: Global,
    table: &Timetable,
    updates: &[Update],
) -> Result<Timetable, Refused<LateFault>>
    ensures table { Yields result (λ new. new) (amended table.now updates.now) }
    ensures own { IfErr result IsOfUpdateAlone }
{
    let named = named_trips(alloc, table, updates)?;
    let table = amended_by(alloc, table, updates, named.as_slice());
    drop(named);
    table
}
