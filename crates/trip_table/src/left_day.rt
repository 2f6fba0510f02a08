//! The timetable of a day by what is left of a feed where bad rows are left out.
ghost use Rattle.std.specs.Prelude.{◌≡◌, ◌≤◌, ◌<◌, ◌-◌, ◌^◌, [], All, IfOk, IfSome, IsSome, length, map, option_map};
ghost use Rattle.gtfs_rows.specs.Refused.{Yields};
ghost use Rattle.footpaths.specs.Limits.{AreWithinADay};
ghost use Rattle.trip_table.specs.Answers.{Gives, GivesRows, IsDayRefused, Leaves, feed_of};
ghost use Rattle.trip_table.specs.LeftFeed.{IsLeft, IsLeftOf, IsLenientOf, IsLeftOfTexts, IsTimetableLeft, feed_files, gone_trips, left_after_rows, left_rows, sized_all, text_at};
ghost use Rattle.trip_table.specs.References.{Rows};
ghost use Rattle.trip_table.specs.Sieves.{Sieves};

use crate::bearer::is_borne;
use crate::day::{read_day, timetable_of};
use crate::feed::take;
use crate::left_frequencies::left_frequencies;
use crate::left_services::left_services;
use crate::left_stops::left_stops;
use crate::left_times::left_times;
use crate::left_transfers::left_transfers;
use crate::left_trips::left_trips;
use crate::paths::given_footpaths;
use crate::rows::FeedRows;
use crate::{DayFault, Options};
use gtfs_rows::{FeedFault, FeedFile, RowsFault, TransferRow};
use service_day::Day;
use service_trips::FrequencyTable;
use std::alloc::Global;
use tb_base::{HashKey, Timetable};
use tb_io::Folder;

// The bytes of files, each where it is there.
fn take_all<F: Folder>(
    alloc: Global,
    folder: &mut F,
    dir: &str,
    files: &[FeedFile],
) -> Result<Vec<Option<Vec<u8>>>, DayFault>
    requires { F.faults folder.old < 2 ^ 64 - 1 }
    ensures told { IsSome (F.files folder.old) →
        Yields IsDayRefused result (λ texts. map (option_map (λ v. v.items)) texts.items)
        (sized_all (feed_of (F.files folder.old) dir.now) files.now) }
    ensures within { IfOk result
        (λ texts. All (λ text. IfSome text (λ v. length v.items ≤ 1_073_741_824)) texts.items) }
    ensures leaves { Leaves (F.files folder.old) (F.files folder.new) (F.faults folder.old)
        (F.faults folder.new) result }
{
    let mut texts: Vec<Option<Vec<u8>>> = Vec::new(alloc);
    for file in files {
        match take(alloc, folder, dir, *file) {
            Ok(text) => {
                let Ok(()) = texts.push(text) else {
                    return Err(DayFault::Memory);
                };
            }
            Err(fault) => return Err(fault),
        }
    }
    Ok(texts)
}

// The bytes of the file at a place.
fn text_at(texts: &[Option<Vec<u8>>], place: usize) -> Option<&[u8]>
    requires { All (λ text. IfSome text (λ v. length v.items ≤ 1_073_741_824)) texts.now }
    ensures text { option_map (λ bytes. bytes.now) result
        ≡ text_at (map (option_map (λ v. v.items)) texts.now) place }
    ensures within { IfSome result (λ bytes. length bytes.now ≤ 1_073_741_824) }
{
    match texts.get(place) {
        Some(Some(text)) => Some(text.as_slice()),
        Some(None) => None,
        None => None,
    }
}

/// The rows of a feed up to the times of its trips, and marks at the trips that are left out for their
/// stop times.
#[derive(Drop)]
pub struct LeftRows {
    pub rows: FeedRows,
    pub gone: Vec<bool>,
}

/// The rows of a feed up to the times of its trips.
pub fn left_rows(
    alloc: Global,
    key: HashKey,
    texts: &[Option<Vec<u8>>],
    told: &mut Vec<FeedFault>,
) -> Result<LeftRows, RowsFault>
    requires { All (λ text. IfSome text (λ v. length v.items ≤ 1_073_741_824)) texts.now }
    ensures rows { Sieves (left_rows (map (option_map (λ v. v.items)) texts.now)) told.old.items
        told.new.items result (λ left. left.rows) }
    ensures gone { IfOk result (λ left.
        left.gone.items ≡ gone_trips left.rows.stops left.rows.trips
        (text_at (map (option_map (λ v. v.items)) texts.now) 4)) }
{
    let stops = match left_stops(alloc, key, text_at(texts, 0), told) {
        Ok(stops) => stops,
        Err(fault) => return Err(fault),
    };
    let services = match left_services(alloc, key, text_at(texts, 1), text_at(texts, 2), told) {
        Ok(services) => services,
        Err(fault) => {
            drop(stops);
            return Err(fault);
        }
    };
    let trips = match left_trips(alloc, key, text_at(texts, 3), told) {
        Ok(trips) => trips,
        Err(fault) => {
            drop(stops);
            drop(services);
            return Err(fault);
        }
    };
    match left_times(alloc, &stops, &trips, text_at(texts, 4), told) {
        Ok(times) => {
            let rows = FeedRows::of_parts(stops, services, trips, times.rows);
            let gone = times.gone;
            Ok(LeftRows { rows, gone })
        }
        Err(fault) => {
            drop(stops);
            drop(services);
            drop(trips);
            Err(fault)
        }
    }
}

// The timetable by the rows of each file.
fn timetable_left(
    alloc: Global,
    rows: &FeedRows,
    transfers: &[TransferRow],
    frequencies: &FrequencyTable,
    day: &Day,
    options: &Options,
) -> Result<Timetable, RowsFault>
    requires options { AreWithinADay options.now }
    requires trips { frequencies.now.trips ≡ length rows.now.trips }
    ensures { GivesRows
        (IsTimetableLeft day.now options.now
        (record {
          rows = rows.now;
          transfers = transfers.now;
          frequencies = frequencies.now.rows;
        }))
        result }
{
    match given_footpaths(alloc, transfers, rows.stops(), options) {
        Ok(paths) => timetable_of(alloc, rows, frequencies, paths, day, options),
        Err(fault) => Err(fault),
    }
}

/// The rows of the files after stop_times.txt.
#[derive(Drop)]
pub struct LaterRows {
    pub transfers: Vec<TransferRow>,
    pub frequencies: FrequencyTable,
}

/// The rows of transfers.txt and frequencies.txt, behind those up to the times of trips.
pub fn left_files(
    alloc: Global,
    rows: &FeedRows,
    gone: &[bool],
    texts: &[Option<Vec<u8>>],
    told: &mut Vec<FeedFault>,
) -> Result<LaterRows, RowsFault>
    requires gone { gone.now ≡ gone_trips rows.now.stops rows.now.trips
        (text_at (map (option_map (λ v. v.items)) texts.now) 4) }
    requires texts { All (λ text. IfSome text (λ v. length v.items ≤ 1_073_741_824)) texts.now }
    ensures left { Sieves
        (left_after_rows (map (option_map (λ v. v.items)) texts.now) rows.now) told.old.items
        told.new.items result
        (λ found. record {
          rows = rows.now;
          transfers = found.transfers.items;
          frequencies = found.frequencies.rows;
        }) }
    ensures trips { IfOk result (λ found. found.frequencies.trips ≡ length rows.now.trips) }
{
    let transfers = match left_transfers(alloc, rows.stops(), text_at(texts, 5), told) {
        Ok(transfers) => transfers,
        Err(fault) => return Err(fault),
    };
    match left_frequencies(alloc, rows, gone, text_at(texts, 6), told) {
        Ok(frequencies) => Ok(LaterRows {
            transfers,
            frequencies,
        }),
        Err(fault) => Err(fault),
    }
}

// The timetable by the rows up to the times of trips, and the files after them.
fn left_after_rows(
    alloc: Global,
    rows: &FeedRows,
    gone: &[bool],
    texts: &[Option<Vec<u8>>],
    day: &Day,
    options: &Options,
    told: &mut Vec<FeedFault>,
) -> Result<Timetable, RowsFault>
    requires gone { gone.now ≡ gone_trips rows.now.stops rows.now.trips
        (text_at (map (option_map (λ v. v.items)) texts.now) 4) }
    requires texts { All (λ text. IfSome text (λ v. length v.items ≤ 1_073_741_824)) texts.now }
    requires options { AreWithinADay options.now }
    ensures { GivesRows
        (IsLeft day.now options.now
        (left_after_rows (map (option_map (λ v. v.items)) texts.now) rows.now) told.old.items
        told.new.items)
        result }
{
    match left_files(alloc, rows, gone, texts, told) {
        Ok(later) => {
            let transfers = later.transfers.as_slice();
            let table = timetable_left(alloc, rows, transfers, &later.frequencies, day, options);
            drop(later);
            table
        }
        Err(fault) => Err(fault),
    }
}

// The timetable of a day by what is left of the files' bytes.
fn left_timetable(
    alloc: Global,
    key: HashKey,
    texts: &[Option<Vec<u8>>],
    day: &Day,
    options: &Options,
    told: &mut Vec<FeedFault>,
) -> Result<Timetable, RowsFault>
    requires texts { All (λ text. IfSome text (λ v. length v.items ≤ 1_073_741_824)) texts.now }
    requires options { AreWithinADay options.now }
    ensures { GivesRows
        (IsLeftOfTexts day.now options.now (map (option_map (λ v. v.items)) texts.now)
        told.old.items told.new.items)
        result }
{
    match left_rows(alloc, key, texts, told) {
        Ok(left) => {
            let gone = left.gone.as_slice();
            let table = left_after_rows(alloc, &left.rows, gone, texts, day, options, told);
            drop(left);
            table
        }
        Err(fault) => Err(fault),
    }
}

/// The bytes of the files of a feed, in the order of reference, each where it is there.
pub fn take_feed<F: Folder>(
    alloc: Global,
    folder: &mut F,
    dir: &str,
) -> Result<Vec<Option<Vec<u8>>>, DayFault>
    requires { F.faults folder.old < 2 ^ 64 - 1 }
    ensures told { IsSome (F.files folder.old) →
        Yields IsDayRefused result (λ texts. map (option_map (λ v. v.items)) texts.items)
        (sized_all (feed_of (F.files folder.old) dir.now) feed_files) }
    ensures within { IfOk result
        (λ texts. All (λ text. IfSome text (λ v. length v.items ≤ 1_073_741_824)) texts.items) }
    ensures leaves { Leaves (F.files folder.old) (F.files folder.new) (F.faults folder.old)
        (F.faults folder.new) result }
{
    let files = [
        FeedFile::Stops,
        FeedFile::Calendar,
        FeedFile::CalendarDates,
        FeedFile::Trips,
        FeedFile::StopTimes,
        FeedFile::Transfers,
        FeedFile::Frequencies,
    ];
    take_all(alloc, folder, dir, &files)
}

// The timetable of a day by what is left of the files of a feed in a directory of a folder, where bad
// rows are left out; or the fault that ends it. The faults of what is left out are told after those
// that were told before.
fn read_left_day<F: Folder>(
    alloc: Global,
    folder: &mut F,
    dir: &str,
    day: &Day,
    options: &Options,
    told: &mut Vec<FeedFault>,
) -> Result<Timetable, DayFault>
    requires options { AreWithinADay options.now }
    requires count { F.faults folder.old < 2 ^ 64 - 1 }
    ensures told { IsSome (F.files folder.old) →
        Gives
        (IsLeftOf (feed_of (F.files folder.old) dir.now) day.now options.now told.old.items
        told.new.items)
        result }
    ensures leaves { Leaves (F.files folder.old) (F.files folder.new) (F.faults folder.old)
        (F.faults folder.new) result }
{
    let texts = match take_feed(alloc, folder, dir) {
        Ok(texts) => texts,
        Err(fault) => return Err(fault),
    };
    Ok(left_timetable(alloc, folder.key(), texts.as_slice(), day, options, told)?)
}

/// The timetable of a day for one who is lenient, with the faults of what is left out. A feed of which
/// no row bears the first fault is read as `read_day` reads it. Else bad rows are left out, file by
/// file in the order of reference, and what names them in turn; a fault that no row bears ends it.
///
/// `ReadFault` comes only where the folder's count of faults rose.
pub fn read_lenient_day<F: Folder>(
    alloc: Global,
    folder: &mut F,
    dir: &str,
    day: &Day,
    options: &Options,
    told: &mut Vec<FeedFault>,
) -> Result<Timetable, DayFault>
    requires options { AreWithinADay options.now }
    requires count { F.faults folder.old < 2 ^ 64 - 1 }
    requires none { told.old.items ≡ [] }
    ensures told { IsSome (F.files folder.old) →
        Gives
        (IsLenientOf (feed_of (F.files folder.old) dir.now) day.now options.now told.new.items)
        result }
    ensures leaves { Leaves (F.files folder.old) (F.files folder.new) (F.faults folder.old)
        (F.faults folder.new) result }
{
    let fault = match read_day(alloc, folder, dir, day, options) {
        Err(DayFault::Feed(fault)) => fault,
        told => return told,
    };
    if !is_borne(&fault) {
        return Err(DayFault::Feed(fault));
    }
    read_left_day(alloc, folder, dir, day, options, told)
}
