//! What of a feed is read, but likely not meant.
ghost use Rattle.std.specs.Prelude.{◌≡◌, ◌≤◌, ◌<◌, ◌-◌, ◌^◌, ◌++◌, [], All, Err, IfOk, IfSome, IsSome, List, OnOk, false, flat_map, get_or, length, map, nat_lt, not, option_map, ℕ, bytes_eq};
ghost use Rattle.std.specs.List.{list_any};
ghost use Rattle.gtfs_rows.specs.TripsFile as row;
ghost use Rattle.gtfs_rows.specs.declared.fault.FeedFault.{FeedFault};
ghost use Rattle.footpaths.specs.Limits.{AreWithinADay};
ghost use Rattle.footpaths.specs.Stops.{platforms};
ghost use Rattle.service_trips.specs.declared.stop_time.StopTime.{StopTime};
ghost use Rattle.tb_base.specs.Soundness.{IsSoundFootpaths};
ghost use Rattle.trip_table.specs.Answers.{Leaves, feed_of};
ghost use Rattle.trip_table.specs.LeftFeed.{gone_trips, left_after_rows, left_data, text_at};
ghost use Rattle.trip_table.specs.Sieves.{Sieved};
ghost use Rattle.trip_table.specs.Warnings.{AreWarningsIf, AreWarningsLeft, AreWarningsOf, IsClosingWarning, IsGivenWarning, counts_warning, given_left, has_trips, headway_warning, is_named, is_served, service_warning, stop_warnings, warn_if};

use crate::left_day::{left_files, left_rows, take_feed};
use crate::left_times::unmarked;
use crate::paths::given_footpaths;
use crate::rows::FeedRows;
use crate::services::ServiceRows;
use crate::warning::Warning;
use crate::{DayFault, Options};
use foot_close::{CloseFault, Closed, close};
use footpaths::Paths;
use gtfs_rows::{FeedFault, RowsFault, TransferRow, TripRow};
use service_day::{Day, Services, running};
use service_trips::{StopTime, TripFrequency};
use std::alloc::Global;
use tb_base::{HashKey, Memory, NameIndex};
use tb_io::Folder;

// More seconds from one start to the next are more than a day.
const DAY_SECS: u32 = 86_400;

// Warns where something is so.
fn warn(warnings: &mut Vec<Warning>, is: bool, warning: Warning) -> Result<(), Memory>
    ensures { OnOk result (warnings.new.items ≡ warnings.old.items ++ warn_if is warning) }
{
    if is {
        warnings.push(warning)?;
    }
    Ok(())
}

// The services that rows of calendar.txt and calendar_dates.txt have.
fn named_services(alloc: Global, key: HashKey, rows: &ServiceRows) -> Result<NameIndex, Memory>
    ensures { IfOk result
        (λ ids. (id : List ℕ) → list_any (bytes_eq id) ids ≡ is_named rows.now id) }
{
    let mut ids = NameIndex::new(alloc, key);
    for row in &rows.calendar {
        ids.add(alloc, row.service.bytes())?;
    }
    for date in &rows.dates {
        ids.add(alloc, date.service.bytes())?;
    }
    Ok(ids)
}

// Warns of trips whose service no calendar names.
fn warn_of_services(
    alloc: Global,
    rows: &FeedRows,
    warnings: &mut Vec<Warning>,
) -> Result<(), Memory>
    ensures { OnOk result (warnings.new.items ≡ warnings.old.items
        ++ flat_map (service_warning rows.now.services) rows.now.trips) }
{
    let named = named_services(alloc, rows.stops().key(), rows.services())?;
    for trip in rows.trips().rows() {
        let is_named = named.contains(trip.service.bytes());
        warn(warnings, !is_named, Warning::UnknownService(trip.row))?;
    }
    Ok(())
}

// Whether one of some services is that of a trip.
fn has_trips(services: &Services, trips: &[TripRow]) -> bool
    ensures { result
        ≡ list_any (λ t. list_any (bytes_eq (row.TripData.service t)) services.now) trips.now }
{
    for trip in trips {
        if services.runs(trip.service.bytes()) {
            return true;
        }
    }
    false
}

// Warns of a day on which no trip runs.
fn warn_of_day(
    alloc: Global,
    rows: &FeedRows,
    day: &Day,
    warnings: &mut Vec<Warning>,
) -> Result<(), Memory>
    ensures { OnOk result (warnings.new.items ≡ warnings.old.items
        ++ warn_if (not (has_trips rows.now day.now)) Warning.NoTrips) }
{
    let found = rows.services();
    let services = running(
        alloc,
        rows.stops().key(),
        day,
        found.calendar.as_slice(),
        found.dates.as_slice(),
    )?;
    let is_there = has_trips(&services, rows.trips().rows());
    warn(warnings, !is_there, Warning::NoTrips)
}

// At which platforms stop times are.
fn served(alloc: Global, platforms: usize, times: &[StopTime]) -> Result<Vec<bool>, Memory>
    ensures { IfOk result (λ marks.
        (p : ℕ) → p < platforms → get_or marks.items p false ≡ is_served times.now p) }
{
    let mut marks = unmarked(alloc, platforms)?;
    for time in times {
        let stop = time.stop.index();
        if stop < marks.len() {
            marks[stop] = true;
        }
    }
    Ok(marks)
}

fn is_marked(marks: &[bool], place: usize) -> bool
    ensures { result ≡ get_or marks.now place false }
{
    match marks.get(place) {
        Some(mark) => *mark,
        None => false,
    }
}

// Warns of platforms at which no stop time is.
fn warn_of_stops(alloc: Global, rows: &FeedRows, warnings: &mut Vec<Warning>) -> Result<(), Memory>
    ensures { OnOk result (warnings.new.items ≡ warnings.old.items
        ++ stop_warnings rows.now.times 0 (platforms rows.now.stops)) }
{
    let served = served(alloc, rows.stops().platforms() as usize, rows.times())?;
    let mut platform = 0;
    for stop in rows.stops().rows() {
        if stop.kind.is_platform() {
            let is_served = is_marked(served.as_slice(), platform);
            warn(warnings, !is_served, Warning::UnservedStop(stop.row))?;
            platform += 1;
        }
    }
    Ok(())
}

// Warns of how many changes closing adds and lowers.
fn warn_of_counts(closed: &Closed, warnings: &mut Vec<Warning>) -> Result<(), Memory>
    ensures { OnOk result (warnings.new.items ≡ warnings.old.items
        ++ counts_warning closed.now.added closed.now.lowered) }
{
    let is_some = closed.added > 0 || closed.lowered > 0;
    warn(
        warnings,
        is_some,
        Warning::Closing(closed.added, closed.lowered),
    )
}

// Warns of what closing adds and lowers, where it isn't refused.
fn warn_of_closing(alloc: Global, paths: Paths, warnings: &mut Vec<Warning>) -> Result<(), Memory>
    requires { IsSoundFootpaths paths }
    ensures { OnOk result ((found : List Warning) × IsClosingWarning paths found
        × (warnings.new.items ≡ warnings.old.items ++ found)) }
{
    match close(alloc, paths) {
        Ok(closed) => {
            let done = warn_of_counts(&closed, warnings);
            drop(closed);
            done
        }
        Err(CloseFault::TooMany) => Ok(()),
        Err(CloseFault::Far(..)) => Ok(()),
        Err(CloseFault::Memory) => Err(Memory),
    }
}

// The same of the rows of transfers.txt.
fn warn_of_footpaths(
    alloc: Global,
    rows: &FeedRows,
    transfers: &[TransferRow],
    options: &Options,
    warnings: &mut Vec<Warning>,
) -> Result<(), Memory>
    requires { AreWithinADay options.now }
    ensures { OnOk result ((found : List Warning)
        × IsGivenWarning (given_left rows.now.stops options.now transfers.now) found
        × (warnings.new.items ≡ warnings.old.items ++ found)) }
{
    match given_footpaths(alloc, transfers, rows.stops(), options) {
        Ok(Some(paths)) => warn_of_closing(alloc, paths, warnings),
        Ok(None) => Ok(()),
        Err(RowsFault::Feed(_)) => Ok(()),
        Err(RowsFault::Memory) => Err(Memory),
    }
}

// Warns of rows of frequencies.txt with more than a day from one start to the next.
fn warn_of_headways(rows: &[TripFrequency], warnings: &mut Vec<Warning>) -> Result<(), Memory>
    ensures { OnOk result (warnings.new.items ≡ warnings.old.items
        ++ flat_map headway_warning rows.now) }
{
    for row in rows {
        let is_long = DAY_SECS < row.headway;
        warn(warnings, is_long, Warning::LongHeadway(row.row))?;
    }
    Ok(())
}

// Warns of all of what is left.
fn warn_of_left(
    alloc: Global,
    rows: &FeedRows,
    transfers: &[TransferRow],
    frequencies: &[TripFrequency],
    day: &Day,
    options: &Options,
    warnings: &mut Vec<Warning>,
) -> Result<(), Memory>
    requires options { AreWithinADay options.now }
    requires none { warnings.old.items ≡ [] }
    ensures { OnOk result (AreWarningsLeft day.now options.now
        (record { rows = rows.now; transfers = transfers.now; frequencies = frequencies.now })
        warnings.new.items) }
{
    warn_of_services(alloc, rows, warnings)?;
    warn_of_day(alloc, rows, day, warnings)?;
    warn_of_stops(alloc, rows, warnings)?;
    warn_of_footpaths(alloc, rows, transfers, options, warnings)?;
    warn_of_headways(frequencies, warnings)
}

// Warns of what is left, whose rows up to the times of trips were read, where no fault ends it.
fn warn_of_rows(
    alloc: Global,
    rows: &FeedRows,
    gone: &[bool],
    texts: &[Option<Vec<u8>>],
    day: &Day,
    options: &Options,
    told: &mut Vec<FeedFault>,
    warnings: &mut Vec<Warning>,
) -> Result<(), Memory>
    requires texts { All (λ text. IfSome text (λ v. length v.items ≤ 1_073_741_824)) texts.now }
    requires options { AreWithinADay options.now }
    requires none { warnings.old.items ≡ [] }
    requires gone { gone.now ≡ gone_trips rows.now.stops rows.now.trips
        (text_at (map (option_map (λ v. v.items)) texts.now) 4) }
    ensures { OnOk result (AreWarningsIf day.now options.now
        (Sieved.end (left_after_rows (map (option_map (λ v. v.items)) texts.now) rows.now))
        warnings.new.items) }
{
    match left_files(alloc, rows, gone, texts, told) {
        Ok(later) => {
            let transfers = later.transfers.as_slice();
            let frequencies = later.frequencies.rows();
            let done = warn_of_left(alloc, rows, transfers, frequencies, day, options, warnings);
            drop(later);
            done
        }
        Err(RowsFault::Feed(_)) => Ok(()),
        Err(RowsFault::Memory) => Err(Memory),
    }
}

// Warns of what is left of the files' bytes.
fn warn_of_texts(
    alloc: Global,
    key: HashKey,
    texts: &[Option<Vec<u8>>],
    day: &Day,
    options: &Options,
    warnings: &mut Vec<Warning>,
) -> Result<(), Memory>
    requires texts { All (λ text. IfSome text (λ v. length v.items ≤ 1_073_741_824)) texts.now }
    requires options { AreWithinADay options.now }
    requires none { warnings.old.items ≡ [] }
    ensures { OnOk result (AreWarningsIf day.now options.now
        (Sieved.end (left_data (map (option_map (λ v. v.items)) texts.now))) warnings.new.items) }
{
    let mut told = Vec::new(alloc);
    match left_rows(alloc, key, texts, &mut told) {
        Ok(left) => {
            let rows = &left.rows;
            let gone = left.gone.as_slice();
            let done = warn_of_rows(alloc, rows, gone, texts, day, options, &mut told, warnings);
            drop(left);
            done
        }
        Err(RowsFault::Feed(_)) => Ok(()),
        Err(RowsFault::Memory) => Err(Memory),
    }
}

/// What of a feed is read on a day, but likely not meant, where bad rows are left out: each row of
/// trips.txt whose service no calendar names, then whether no trip runs on the day, each platform
/// at which no stop time is, what closing footpaths adds and lowers, and each row of frequencies.txt
/// with more than a day from one start to the next. There is nothing where a fault ends what is left.
///
/// `ReadFault` comes only where the folder's count of faults rose, and no other fault than that and
/// `Memory` comes. The files are read for this alone.
pub fn feed_warnings<F: Folder>(
    alloc: Global,
    folder: &mut F,
    dir: &str,
    day: &Day,
    options: &Options,
) -> Result<Vec<Warning>, DayFault>
    requires options { AreWithinADay options.now }
    requires count { F.faults folder.old < 2 ^ 64 - 1 }
    ensures warnings { IfOk result (λ warnings. IsSome (F.files folder.old) →
        AreWarningsOf (feed_of (F.files folder.old) dir.now) day.now options.now
        warnings.items) }
    ensures ended { (fault : FeedFault) → result ≡ Err (DayFault.Feed fault) → ⊥ }
    ensures leaves { Leaves (F.files folder.old) (F.files folder.new) (F.faults folder.old)
        (F.faults folder.new) result }
{
    let mut warnings = Vec::new(alloc);
    let texts = match take_feed(alloc, folder, dir) {
        Ok(texts) => texts,
        Err(DayFault::Feed(_)) => return Ok(warnings),
        Err(DayFault::ReadFault) => return Err(DayFault::ReadFault),
        Err(DayFault::Memory) => return Err(DayFault::Memory),
    };
    let key = folder.key();
    match warn_of_texts(alloc, key, texts.as_slice(), day, options, &mut warnings) {
        Ok(()) => Ok(warnings),
        Err(Memory) => Err(DayFault::Memory),
    }
}
