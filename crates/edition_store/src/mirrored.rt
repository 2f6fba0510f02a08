ghost use Rattle.std.specs.Prelude.{IfOk};
ghost use Rattle.edition_store.specs.Mirror.{IsMirror};

use crate::turned_trips::mirrored_trips;
use std::alloc::Global;
use tb_base::{Memory, Parts, Timetable};
use transfer_pack::PathsInto;

/// The mirror of a timetable: with the same stops, stations, change times, and names and numbers of
/// trips, while trips and footpaths lead back and a time is the seconds from it until 273,599.
/// Takes time and memory by the size of the timetable. Refused only for want of memory.
pub fn mirror(alloc: Global, table: &Timetable) -> Result<Timetable, Memory>
    ensures { IfOk result (IsMirror table.now) }
{
    table.soundness();
    let parts = Parts {
        stops: table.copy_stops(alloc)?,
        stations: table.copy_stations(alloc)?,
        trips: mirrored_trips(alloc, table)?,
        change: table.copy_change_times(alloc)?,
        paths: PathsInto::of(alloc, table)?.into_rows(),
    };
    Timetable::new(alloc, table.key(), parts)
}
