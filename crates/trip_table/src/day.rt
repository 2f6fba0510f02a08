//! The timetable of a day.
ghost use Rattle.std.specs.Prelude.{◌≡◌, ◌⊎◌, ◌<◌, ◌-◌, ◌^◌, IfSome, IsSome, Ok, Err, Result, length};
ghost use Rattle.tb_base.specs.TimetableData.{TimetableData, FootpathData};
ghost use Rattle.gtfs_rows.specs.declared.fault.FeedFault.{FeedFault};
ghost use Rattle.footpaths.specs.Limits.{AreWithinADay};
ghost use Rattle.footpaths.specs.Stops.{platforms};
ghost use Rattle.tb_base.specs.Soundness.{IsSoundFootpaths};
ghost use Rattle.trip_table.specs.Answers.{Gives, GivesRows, IsCounted, Leaves, feed_of};
ghost use Rattle.trip_table.specs.Day.{parts_on, parts_after_paths, parts_after_rows, IsTimetableOf, IsTimetableOfParts, Then};

use crate::Options;
use crate::assemble::assemble;
use crate::closing::settled;
use crate::day_fault::DayFault;
use crate::day_trips::trips_on;
use crate::frequencies::read_frequencies;
use crate::laws::timetable_determined;
use crate::paths::read_paths;
use crate::rows::{FeedRows, read_rows};
use footpaths::Paths;
use gtfs_rows::{FeedFault, Many, RowsFault};
use service_day::Day;
use service_trips::FrequencyTable;
use std::alloc::Global;
use tb_base::{Memory, Timetable};
use tb_io::Folder;

/// The timetable of the rows of a feed on a day, or the first thing that is wrong with the times of
/// a trip, with those that starts give, with the size of the day, or with its footpaths.
pub(crate) fn timetable_of(
    alloc: Global,
    rows: &FeedRows,
    frequencies: &FrequencyTable,
    told: Option<Paths>,
    day: &Day,
    options: &Options,
) -> Result<Timetable, RowsFault>
    requires trips { frequencies.now.trips ≡ length rows.now.trips }
    requires sound { IfSome told IsSoundFootpaths }
    requires many { IfSome told
        (λ paths. length (FootpathData.change paths) ≡ length (platforms rows.now.stops)) }
    ensures { (counted : Result FootpathData FeedFault) → IsCounted counted told →
        GivesRows
        (Then (parts_on rows.now frequencies.now.rows day.now options.now.horizon counted)
        (IsTimetableOfParts options.now.close))
        result }
{
    let trips = match trips_on(alloc, rows, frequencies, day, options.horizon) {
        Ok(trips) => trips,
        Err(fault) => return Err(fault),
    };
    let Some(told) = told else {
        return Err(RowsFault::Feed(FeedFault::TooMany(Many::Footpaths, 0)));
    };
    let paths = match settled(alloc, rows.stops(), told, options.close) {
        Ok(paths) => paths,
        Err(fault) => return Err(fault),
    };
    match assemble(alloc, rows.stops(), paths, trips) {
        Ok(table) => Ok(table),
        Err(Memory) => Err(RowsFault::Memory),
    }
}

// The timetable of a day, where the rows of the feed and its footpaths were read, or the first
// thing that is wrong with frequencies.txt, or with the day.
fn timetable_after_paths<F: Folder>(
    alloc: Global,
    folder: &mut F,
    dir: &str,
    rows: &FeedRows,
    told: Option<Paths>,
    day: &Day,
    options: &Options,
) -> Result<Timetable, DayFault>
    requires count { F.faults folder.old < 2 ^ 64 - 1 }
    requires sound { IfSome told IsSoundFootpaths }
    requires many { IfSome told
        (λ paths. length (FootpathData.change paths) ≡ length (platforms rows.now.stops)) }
    ensures told { IsSome (F.files folder.old) →
        (counted : Result FootpathData FeedFault) → IsCounted counted told →
        Gives
        (Then (parts_after_paths (feed_of (F.files folder.old) dir.now) day.now options.now.horizon
        rows.now counted)
        (IsTimetableOfParts options.now.close))
        result }
    ensures leaves { Leaves (F.files folder.old) (F.files folder.new) (F.faults folder.old)
        (F.faults folder.new) result }
{
    let frequencies = match read_frequencies(alloc, folder, dir, rows.trips()) {
        Ok(frequencies) => frequencies,
        Err(fault) => return Err(fault),
    };
    Ok(timetable_of(alloc, rows, &frequencies, told, day, options)?)
}

// The same, where the rows of the feed were read and its footpaths are yet to be read.
fn timetable_after_rows<F: Folder>(
    alloc: Global,
    folder: &mut F,
    dir: &str,
    rows: &FeedRows,
    day: &Day,
    options: &Options,
) -> Result<Timetable, DayFault>
    requires options { AreWithinADay options.now }
    requires count { F.faults folder.old < 2 ^ 64 - 1 }
    ensures told { IsSome (F.files folder.old) →
        Gives
        (Then
        (parts_after_rows (feed_of (F.files folder.old) dir.now) day.now options.now rows.now)
        (IsTimetableOfParts options.now.close))
        result }
    ensures leaves { Leaves (F.files folder.old) (F.files folder.new) (F.faults folder.old)
        (F.faults folder.new) result }
{
    match read_paths(alloc, folder, dir, rows.stops(), options) {
        Ok(told) => timetable_after_paths(alloc, folder, dir, rows, told, day, options),
        Err(fault) => Err(fault),
    }
}

// The timetable of a day, from the files of a feed in a directory of a folder, or the first thing
// that is wrong with the feed.
fn read_timetable<F: Folder>(
    alloc: Global,
    folder: &mut F,
    dir: &str,
    day: &Day,
    options: &Options,
) -> Result<Timetable, DayFault>
    requires options { AreWithinADay options.now }
    requires count { F.faults folder.old < 2 ^ 64 - 1 }
    ensures told { IsSome (F.files folder.old) →
        Gives (IsTimetableOf (feed_of (F.files folder.old) dir.now) day.now options.now) result }
    ensures leaves { Leaves (F.files folder.old) (F.files folder.new) (F.faults folder.old)
        (F.faults folder.new) result }
{
    match read_rows(alloc, folder, dir) {
        Ok(rows) => {
            let told = timetable_after_rows(alloc, folder, dir, &rows, day, options);
            drop(rows);
            told
        }
        Err(fault) => Err(fault),
    }
}

/// The timetable of a day, from the files of a feed in a directory of a folder, or the first thing
/// that is wrong with the feed: with a file, then with the times of a trip, then with those that
/// starts give, then with the size of the day, then with its footpaths.
///
/// Footpaths are closed over chains where the options ask for it; else they have to keep the law.
/// `ReadFault` comes only where the folder's count of faults rose, and where it stands and the
/// folder tells its files, the answer is the day's or want of memory. The seconds of the options
/// are at most a day.
pub fn read_day<F: Folder>(
    alloc: Global,
    folder: &mut F,
    dir: &str,
    day: &Day,
    options: &Options,
) -> Result<Timetable, DayFault>
    requires options { AreWithinADay options.now }
    requires count { F.faults folder.old < 2 ^ 64 - 1 }
    ensures told { IsSome (F.files folder.old) →
        Gives (IsTimetableOf (feed_of (F.files folder.old) dir.now) day.now options.now) result }
    ensures timetable { IsSome (F.files folder.old) → F.faults folder.new ≡ F.faults folder.old →
        (T : TimetableData) →
        IsTimetableOf (feed_of (F.files folder.old) dir.now) day.now options.now (Ok T) →
        (result ≡ Ok T) ⊎ (result ≡ Err DayFault.Memory) }
    ensures fault { IsSome (F.files folder.old) → F.faults folder.new ≡ F.faults folder.old →
        (f : FeedFault) →
        IsTimetableOf (feed_of (F.files folder.old) dir.now) day.now options.now (Err f) →
        (result ≡ Err (DayFault.Feed f)) ⊎ (result ≡ Err DayFault.Memory) }
    ensures leaves { Leaves (F.files folder.old) (F.files folder.new) (F.faults folder.old)
        (F.faults folder.new) result }
{
    timetable_determined();
    read_timetable(alloc, folder, dir, day, options)
}
