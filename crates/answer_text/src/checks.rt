//! All faults of a feed as texts, and what is left out for them.
ghost use Rattle.std.specs.Prelude.{◌≡◌, ◌++◌, ◌-◌, IfOk, OnOk, false, flat_map};
ghost use Rattle.gtfs_rows.specs.FileNames.{file_place};
ghost use Rattle.gtfs_rows.specs.LeftOut.{bearer};
ghost use Rattle.gtfs_rows.specs.Told.{count_of, most_kept};
ghost use Rattle.answer_text.specs.Checks.{bad_rows, check_text, fault_line, is_at, left_out_text, left_part, left_parts, more_line, more_text, rows_text, trips_for};

use crate::text::Text;
use gtfs_rows::{FeedFault, FeedFile, Spot, ToldFaults};
use std::alloc::Global;
use tb_base::Memory;

// How many faults of a number are told one by one.
const MOST_KEPT: u32 = 10_000;

/// The numbers of faults.
pub const FAULT_NUMBERS: [u8; 22] = [
    1, 2, 3, 4, 5, 6, 7, 8, 9, 10, 11, 12, 13, 14, 15, 16, 17, 18, 19, 20, 22, 23,
];

/// The files of a feed in the order of reference.
pub const ALL_FILES: [FeedFile; 7] = [
    FeedFile::Stops,
    FeedFile::Calendar,
    FeedFile::CalendarDates,
    FeedFile::Trips,
    FeedFile::StopTimes,
    FeedFile::Transfers,
    FeedFile::Frequencies,
];

/// How many more faults of a number were told than are kept.
pub fn more_of(told: &ToldFaults, number: u8) -> u32
    ensures { result ≡ count_of told.now number - most_kept }
{
    told.count(number).saturating_sub(MOST_KEPT)
}

// The place of a file among those of a feed.
fn file_place(file: FeedFile) -> u8
    ensures { result ≡ file_place file }
{
    match file {
        FeedFile::Stops => 0,
        FeedFile::Calendar => 1,
        FeedFile::CalendarDates => 2,
        FeedFile::Trips => 3,
        FeedFile::StopTimes => 4,
        FeedFile::Transfers => 5,
        FeedFile::Frequencies => 6,
    }
}

// The spot of the row that bears a fault.
fn bearer(fault: &FeedFault) -> Option<Spot>
    ensures { result ≡ bearer fault.now }
{
    match fault {
        FeedFault::BadNumber(spot) => Some(*spot),
        FeedFault::BadTime(spot) => Some(*spot),
        FeedFault::BadDate(spot) => Some(*spot),
        FeedFault::BadCode(spot) => Some(*spot),
        FeedFault::EmptyId(spot) => Some(*spot),
        FeedFault::DuplicateId(spot) => Some(*spot),
        FeedFault::UnknownStop(spot) => Some(*spot),
        FeedFault::UnknownTrip(spot) => Some(*spot),
        FeedFault::DuplicateSequence(spot) => Some(*spot),
        FeedFault::NoEndTime(spot) => Some(*spot),
        FeedFault::TimeRunsBack(spot) => Some(*spot),
        FeedFault::NotAPlatform(spot) => Some(*spot),
        FeedFault::DuplicateTransfer(spot) => Some(*spot),
        FeedFault::BeyondDay(spot) => Some(*spot),
        FeedFault::MissingFile(_)
        | FeedFault::FileTooLarge(_)
        | FeedFault::NotUtf8(_)
        | FeedFault::MissingColumn(_)
        | FeedFault::OpenFootpaths(..)
        | FeedFault::LongFootpath(..)
        | FeedFault::TooMany(..)
        | FeedFault::FarFootpath(..) => None,
    }
}

// Whether the row that bears a fault, if there is one, is of a file.
fn is_at(file: FeedFile, fault: &FeedFault) -> bool
    ensures { result ≡ is_at file (bearer fault.now) }
{
    match bearer(fault) {
        Some(spot) => file_place(spot.file) == file_place(file),
        None => false,
    }
}

/// How many of some faults are borne by rows of a file.
pub fn bad_rows(faults: &[FeedFault], file: FeedFile) -> u64
    ensures { result ≡ bad_rows faults.now file }
{
    let mut rows = 0;
    for fault in faults {
        if is_at(file, fault) {
            rows += 1;
        }
    }
    rows
}

// What is said before the rows of a file.
fn trips_for(file: FeedFile) -> &'static [u8]
    ensures { result.now ≡ trips_for file }
{
    match file {
        FeedFile::StopTimes => b"trips for ".as_slice(),
        _ => b"".as_slice(),
    }
}

impl Text {
    // Adds faults, each as a line.
    fn fault_lines(&mut self, faults: &[FeedFault]) -> Result<(), Memory>
        ensures { OnOk result (self.new ≡ self.old ++ flat_map fault_line faults.now) }
    {
        for fault in faults {
            self.fault(fault)?;
            self.add(b"\n")?;
        }
        Ok(())
    }

    // Adds how many more faults of a number there are, where there are more.
    fn more(&mut self, number: u8, more: u32) -> Result<(), Memory>
        ensures { OnOk result (self.new ≡ self.old ++ more_text number more) }
    {
        if more == 0 {
            return Ok(());
        }
        self.labelled(b"and ", u64::from(more))?;
        self.labelled(b" more of number ", u64::from(number))?;
        self.add(b"\n")
    }

    // Adds how many more faults of each number there are than are told one by one.
    fn more_lines(&mut self, told: &ToldFaults, numbers: &[u8]) -> Result<(), Memory>
        ensures { OnOk result (self.new ≡ self.old ++ flat_map (more_line told.now) numbers.now) }
    {
        for number in numbers {
            self.more(*number, more_of(told, *number))?;
        }
        Ok(())
    }

    // Adds a number of rows.
    fn rows(&mut self, rows: u64) -> Result<(), Memory>
        ensures { OnOk result (self.new ≡ self.old ++ rows_text rows) }
    {
        self.count(rows)?;
        if rows == 1 {
            self.add(b" row")
        } else {
            self.add(b" rows")
        }
    }

    // Adds rows of a file for which something is left out.
    fn left_part(&mut self, later: bool, file: FeedFile, rows: u64) -> Result<(), Memory>
        ensures { OnOk result (self.new ≡ self.old ++ left_part later file rows) }
    {
        if rows == 0 {
            return Ok(());
        }
        if later {
            self.add(b", ")?;
        }
        self.add(trips_for(file))?;
        self.rows(rows)?;
        self.add(b" of ")?;
        self.add(file.name().as_bytes())
    }

    // Adds the same of files in their order.
    fn left_parts(&mut self, faults: &[FeedFault], files: &[FeedFile]) -> Result<(), Memory>
        ensures { OnOk result (self.new ≡ self.old ++ left_parts false faults.now files.now) }
    {
        let mut later = false;
        for file in files {
            let rows = bad_rows(faults, *file);
            self.left_part(later, *file, rows)?;
            later = later || rows > 0;
        }
        Ok(())
    }
}

/// The faults that are told one by one, each as a line, how many more there are of each number, and
/// how many there are of all.
pub fn check_text(alloc: Global, told: &ToldFaults, count: u64) -> Result<Vec<u8>, Memory>
    ensures { IfOk result (λ v. v.items ≡ check_text told.now count) }
{
    let mut text = Text::new(alloc);
    text.fault_lines(told.kept())?;
    text.more_lines(told, &FAULT_NUMBERS)?;
    text.add(b"faults ")?;
    text.count(count)?;
    text.add(b"\n")?;
    Ok(text.into_bytes())
}

/// The line for standard error where something was left out for these faults: how many rows of each
/// file bear one. Nothing where there is no fault.
pub fn left_out_text(alloc: Global, faults: &[FeedFault]) -> Result<Vec<u8>, Memory>
    ensures { IfOk result (λ v. v.items ≡ left_out_text faults.now) }
{
    let mut text = Text::new(alloc);
    if faults.is_empty() {
        return Ok(text.into_bytes());
    }
    text.add(b"router: left out ")?;
    text.left_parts(faults, &ALL_FILES)?;
    text.add(b" (see check)\n")?;
    Ok(text.into_bytes())
}
