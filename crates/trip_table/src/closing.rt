//! Footpaths closed over chains where that is asked for, and else tested.
ghost use Rattle.std.specs.Prelude.{◌≡◌, ◌<◌, IfOk, length};
ghost use Rattle.tb_base.specs.Walking.{KeepsFootpathLaw};
ghost use Rattle.gtfs_rows.specs.declared.fault.FeedFault.TheVariants as fault;
ghost use Rattle.footpaths.specs.Stops.{platforms};
ghost use Rattle.tb_base.specs.TimetableData.{FootpathData};
ghost use Rattle.tb_base.specs.Soundness.{IsSoundFootpaths};
ghost use Rattle.foot_close.specs.Closing.{IsCloseRefused};
ghost use Rattle.trip_table.specs.Answers.{GivesRows, IsRowsFault, AreThere};
ghost use Rattle.trip_table.specs.Day.{platform_id, AreClosed, AreClosedOrTested};

use crate::assemble::stops_of;
use crate::law::{name_of, tested};
use foot_close::laws::closed_keeps_law;
use foot_close::{CloseFault, close};
use footpaths::{Paths, StopTable};
use gtfs_rows::{FeedFault, Many, RowsFault, StopRow};
use std::alloc::Global;
use tb_base::{Memory, StopNo};

// What is wrong with the feed where two stops are more than a day apart.
fn far_fault(alloc: Global, rows: &[StopRow], from: StopNo, to: StopNo) -> Result<FeedFault, Memory>
    requires from { from < length (platforms rows.now) }
    requires to { to < length (platforms rows.now) }
    ensures { IfOk result
        (λ f. f ≡ fault.FarFootpath (platform_id rows.now from) (platform_id rows.now to)) }
{
    let stops = stops_of(alloc, rows)?;
    let stops = stops.as_slice();
    let from = name_of(alloc, stops, from)?;
    let to = name_of(alloc, stops, to)?;
    Ok(FeedFault::FarFootpath(from, to))
}

// What is wrong with the feed where its footpaths can't be closed.
fn refusal(alloc: Global, rows: &[StopRow], fault: CloseFault) -> RowsFault
    requires { AreThere (length (platforms rows.now)) fault }
    ensures { (told : FootpathData) → IsCloseRefused told fault →
        IsRowsFault (AreClosed rows.now told) result }
{
    match fault {
        CloseFault::TooMany => RowsFault::Feed(FeedFault::TooMany(Many::Footpaths, 0)),
        CloseFault::Far(from, to) => match far_fault(alloc, rows, from, to) {
            Ok(fault) => RowsFault::Feed(fault),
            Err(Memory) => RowsFault::Memory,
        },
        CloseFault::Memory => RowsFault::Memory,
    }
}

// Change times and footpaths closed over chains; else the fault that there would be too many
// footpaths, or else the first two stops that are more than a day apart.
fn closed(alloc: Global, stops: &StopTable, paths: Paths) -> Result<Paths, RowsFault>
    requires sound { IsSoundFootpaths paths }
    requires many { length (FootpathData.change paths) ≡ length (platforms stops.now) }
    ensures told { GivesRows (AreClosed stops.now paths) result }
    ensures sound { IfOk result IsSoundFootpaths }
    ensures many { IfOk result
        (λ paths. length (FootpathData.change paths) ≡ length (platforms stops.now)) }
    ensures law { IfOk result (λ paths. KeepsFootpathLaw paths) }
{
    closed_keeps_law();
    match close(alloc, paths) {
        Ok(closed) => Ok(closed.paths),
        Err(fault) => Err(refusal(alloc, stops.rows(), fault)),
    }
}

/// Change times and footpaths as they are asked for: closed over chains, or as they are, where they
/// keep the law; else the first thing that is wrong with them.
pub(crate) fn settled(
    alloc: Global,
    stops: &StopTable,
    paths: Paths,
    close: bool,
) -> Result<Paths, RowsFault>
    requires sound { IsSoundFootpaths paths }
    requires many { length (FootpathData.change paths) ≡ length (platforms stops.now) }
    ensures told { GivesRows (AreClosedOrTested close stops.now paths) result }
    ensures sound { IfOk result IsSoundFootpaths }
    ensures many { IfOk result
        (λ paths. length (FootpathData.change paths) ≡ length (platforms stops.now)) }
    ensures law { IfOk result (λ paths. KeepsFootpathLaw paths) }
{
    if close {
        return closed(alloc, stops, paths);
    }
    tested(alloc, stops, paths)
}
