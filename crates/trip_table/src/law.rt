//! The law that footpaths keep.
ghost use Rattle.std.specs.Prelude.{◌≡◌, ◌<◌, IfOk, List, length, map};
ghost use Rattle.tb_base.specs.Walking.{KeepsFootpathLaw};
ghost use Rattle.gtfs_rows.specs.StopsFile.{StopData};
ghost use Rattle.footpaths.specs.Stops.{platforms};
ghost use Rattle.tb_base.specs.TimetableData.{FootpathData};
ghost use Rattle.tb_base.specs.Soundness.{IsSoundFootpaths};
ghost use Rattle.trip_table.specs.Answers.{GivesRows, IsAmong};
ghost use Rattle.trip_table.specs.Day.{breach_fault, platform_id, KeepTheLaw};

use crate::assemble::stops_of;
use footpaths::{LawFault, Paths, StopTable, test_law};
use gtfs_rows::{FeedFault, Name, RowsFault, StopRow};
use std::alloc::Global;
use tb_base::{Memory, Stop, StopNo};

/// The name of a stop.
pub(crate) fn name_of(alloc: Global, stops: &[Stop], stop: StopNo) -> Result<Name, Memory>
    requires { stop < length stops.now }
    ensures { (rows : List StopData) →
        stops.now ≡ map (λ s. record { name = StopData.id s }) (platforms rows) →
        IfOk result (λ name. name ≡ platform_id rows stop) }
{
    Name::new(alloc, stops[stop.index()].name.bytes())
}

// The names of three stops.
fn names_of(
    alloc: Global,
    stops: &[Stop],
    from: StopNo,
    over: StopNo,
    to: StopNo,
) -> Result<(Name, Name, Name), Memory>
    requires from { from < length stops.now }
    requires over { over < length stops.now }
    requires to { to < length stops.now }
    ensures { (rows : List StopData) →
        stops.now ≡ map (λ s. record { name = StopData.id s }) (platforms rows) →
        IfOk result (λ names. (names.0 ≡ platform_id rows from)
        × (names.1 ≡ platform_id rows over) × (names.2 ≡ platform_id rows to)) }
{
    let from = name_of(alloc, stops, from)?;
    let over = name_of(alloc, stops, over)?;
    let to = name_of(alloc, stops, to)?;
    Ok((from, over, to))
}

// What is wrong with the feed where its footpaths break the law.
fn breach_fault(alloc: Global, rows: &[StopRow], breach: LawFault) -> Result<FeedFault, Memory>
    requires { IsAmong (length (platforms rows.now)) breach }
    ensures { IfOk result (λ fault. fault ≡ breach_fault rows.now breach) }
{
    let stops = stops_of(alloc, rows)?;
    match breach {
        LawFault::Absent(from, over, to) => {
            let names = names_of(alloc, stops.as_slice(), from, over, to);
            drop(stops);
            let (from, over, to) = names?;
            Ok(FeedFault::OpenFootpaths(from, over, to))
        }
        LawFault::Long(from, over, to) => {
            let names = names_of(alloc, stops.as_slice(), from, over, to);
            drop(stops);
            let (from, over, to) = names?;
            Ok(FeedFault::LongFootpath(from, over, to))
        }
    }
}

/// Change times and footpaths as they are, where they keep the law; else the first breach.
pub fn tested(alloc: Global, stops: &StopTable, paths: Paths) -> Result<Paths, RowsFault>
    requires sound { IsSoundFootpaths paths }
    requires many { length (FootpathData.change paths) ≡ length (platforms stops.now) }
    ensures told { GivesRows (KeepTheLaw stops.now paths) result }
    ensures sound { IfOk result IsSoundFootpaths }
    ensures many { IfOk result
        (λ paths. length (FootpathData.change paths) ≡ length (platforms stops.now)) }
    ensures law { IfOk result (λ paths. KeepsFootpathLaw paths) }
{
    let Err(breach) = test_law(&paths) else {
        return Ok(paths);
    };
    match breach_fault(alloc, stops.rows(), breach) {
        Ok(fault) => Err(RowsFault::Feed(fault)),
        Err(Memory) => Err(RowsFault::Memory),
    }
}
