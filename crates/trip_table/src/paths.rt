//! Change times and footpaths from transfers.txt.
ghost use Rattle.std.specs.Prelude.{◌≡◌, ◌<◌, ◌-◌, ◌^◌, List, Ok, IfOk, IfSome, IsSome, MatchResult, length};
ghost use Rattle.gtfs_rows.specs.Refused.{AreRowsRefused, Yields};
ghost use Rattle.gtfs_rows.specs.TransfersFile.{TransferData};
ghost use Rattle.footpaths.specs.Limits.{AreWithinADay};
ghost use Rattle.footpaths.specs.Links.{check_transfers};
ghost use Rattle.footpaths.specs.Stops.{platforms};
ghost use Rattle.tb_base.specs.TimetableData.{FootpathData};
ghost use Rattle.tb_base.specs.Soundness.{IsSoundFootpaths};
ghost use Rattle.trip_table.specs.Answers.{IsCounted, IsDayRefused, Leaves, feed_of};
ghost use Rattle.trip_table.specs.Day.{given_footpaths};
ghost use Rattle.trip_table.specs.References.{transfer_rows_of, transfers_of_feed};

use crate::DayFault;
use crate::feed::{file_rows, spot};
use footpaths::{Options, Paths, PathsFault, StopTable, build_paths};
use gtfs_rows::columns::transfers;
use gtfs_rows::{FeedFault, FeedFile, RowsFault, TransferReader, TransferRow};
use std::alloc::Global;
use tb_io::Folder;

// The rows of transfers.txt: none where the file isn't there.
fn transfer_rows_of<F: Folder>(
    alloc: Global,
    folder: &mut F,
    dir: &str,
) -> Result<Vec<TransferRow>, DayFault>
    requires { F.faults folder.old < 2 ^ 64 - 1 }
    ensures told { IsSome (F.files folder.old) →
        Yields IsDayRefused result (λ rows. rows.items)
        (transfer_rows_of (feed_of (F.files folder.old) dir.now)) }
    ensures leaves { Leaves (F.files folder.old) (F.files folder.new) (F.faults folder.old)
        (F.faults folder.new) result }
{
    match file_rows(alloc, folder, dir, &TransferReader) {
        Ok(Some(rows)) => Ok(rows),
        Ok(None) => Ok(Vec::new(alloc)),
        Err(fault) => Err(fault),
    }
}

/// The change times and footpaths of good rows: None where they are too many.
pub(crate) fn given_footpaths(
    alloc: Global,
    rows: &[TransferRow],
    stops: &StopTable,
    options: &Options,
) -> Result<Option<Paths>, RowsFault>
    requires { AreWithinADay options.now }
    ensures told { MatchResult result
        (λ told. (check_transfers stops.now rows.now ≡ Ok rows.now)
        × IsCounted (given_footpaths stops.now options.now rows.now) told)
        (AreRowsRefused (check_transfers stops.now rows.now)) }
    ensures sound { IfOk result (λ told. IfSome told IsSoundFootpaths) }
    ensures many { IfOk result
        (λ told.
        IfSome told (λ paths. length (FootpathData.change paths) ≡ length (platforms stops.now))) }
{
    match build_paths(alloc, rows, stops, options) {
        Ok(paths) => Ok(Some(paths)),
        Err(PathsFault::TooMany) => Ok(None),
        Err(PathsFault::DuplicateTransfer(row)) => Err(RowsFault::Feed(FeedFault::DuplicateTransfer(
            spot(FeedFile::Transfers, row, transfers::FROM_STOP_ID),
        ))),
        Err(PathsFault::UnknownStop { row, column }) => Err(RowsFault::Feed(FeedFault::UnknownStop(
            spot(FeedFile::Transfers, row, column),
        ))),
        Err(PathsFault::Memory) => Err(RowsFault::Memory),
    }
}

/// The change times and footpaths between the platforms of a feed, as transfers.txt and the options
/// tell them, or the first thing that is wrong with the file. None where the footpaths are too
/// many, which is no fault yet: the times of trips come before it.
pub fn read_paths<F: Folder>(
    alloc: Global,
    folder: &mut F,
    dir: &str,
    stops: &StopTable,
    options: &Options,
) -> Result<Option<Paths>, DayFault>
    requires faults { F.faults folder.old < 2 ^ 64 - 1 }
    requires options { AreWithinADay options.now }
    ensures told { IsSome (F.files folder.old) →
        MatchResult result
        (λ told. (rows : List TransferData)
        × (transfers_of_feed (feed_of (F.files folder.old) dir.now) stops.now ≡ Ok rows)
        × IsCounted (given_footpaths stops.now options.now rows) told)
        (IsDayRefused (transfers_of_feed (feed_of (F.files folder.old) dir.now) stops.now)) }
    ensures sound { IfOk result (λ told. IfSome told IsSoundFootpaths) }
    ensures many { IfOk result
        (λ told.
        IfSome told (λ paths. length (FootpathData.change paths) ≡ length (platforms stops.now))) }
    ensures leaves { Leaves (F.files folder.old) (F.files folder.new) (F.faults folder.old)
        (F.faults folder.new) result }
{
    let rows = match transfer_rows_of(alloc, folder, dir) {
        Ok(rows) => rows,
        Err(fault) => return Err(fault),
    };
    Ok(given_footpaths(alloc, rows.as_slice(), stops, options)?)
}
