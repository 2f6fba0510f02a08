//! The rows of stops.txt.
ghost use Rattle.std.specs.Prelude.{◌≢◌, ◌<◌, ◌-◌, ◌^◌, [], All, IfOk, IsSome};
ghost use Rattle.gtfs_rows.specs.Refused.{Yields};
ghost use Rattle.gtfs_rows.specs.StopsFile.{StopData};
ghost use Rattle.trip_table.specs.Answers.{IsDayRefused, Leaves, feed_of};
ghost use Rattle.trip_table.specs.References.{stops_of};

use crate::DayFault;
use crate::feed::{file_rows, spot};
use footpaths::{StopTable, StopsFault};
use gtfs_rows::{FeedFault, FeedFile, StopReader};
use std::alloc::Global;
use tb_io::Folder;

/// The rows of stops.txt, with a look-up by id.
pub fn read_stops<F: Folder>(
    alloc: Global,
    folder: &mut F,
    dir: &str,
) -> Result<StopTable, DayFault>
    requires { F.faults folder.old < 2 ^ 64 - 1 }
    ensures told { IsSome (F.files folder.old) →
        Yields IsDayRefused result (λ x. x) (stops_of (feed_of (F.files folder.old) dir.now)) }
    ensures named { IfOk result (λ stops. All (λ s. StopData.id s ≢ []) stops) }
    ensures leaves { Leaves (F.files folder.old) (F.files folder.new) (F.faults folder.old)
        (F.faults folder.new) result }
{
    let rows = match file_rows(alloc, folder, dir, &StopReader) {
        Ok(Some(rows)) => rows,
        Ok(None) => return Err(DayFault::Feed(FeedFault::MissingFile(FeedFile::Stops))),
        Err(fault) => return Err(fault),
    };
    match StopTable::new(alloc, folder.key(), rows.as_slice()) {
        Ok(table) => Ok(table),
        Err(StopsFault::DuplicateId(row)) => Err(DayFault::Feed(FeedFault::DuplicateId(spot(
            FeedFile::Stops,
            row,
            1,
        )))),
        Err(StopsFault::UnknownStop(row)) => Err(DayFault::Feed(FeedFault::UnknownStop(spot(
            FeedFile::Stops,
            row,
            3,
        )))),
        Err(StopsFault::Memory) => Err(DayFault::Memory),
    }
}
