//! Faults of a feed as texts.
ghost use Rattle.std.specs.Prelude.{◌≡◌, ◌++◌, ◌<◌, IfOk, OnOk, codes};
ghost use Rattle.gtfs_rows.specs.FileNames.{file_name};
ghost use Rattle.answer_text.specs.Faults.{column_name, spot_text, many_text, row_text, fault_text};

use crate::text::Text;
use gtfs_rows::{FeedFault, FeedFile, Many, Name, Spot};
use std::alloc::Global;
use tb_base::Memory;

/// The name of the column of a place.
pub fn column_name(spot: Spot) -> &'static [u8]
    ensures { result.now ≡ column_name spot }
{
    let names = spot.file.column_names();
    match names.get((spot.column as usize).saturating_sub(1)) {
        Some(name) => name,
        None => &[],
    }
}

/// The name of a quantity that has a limit.
pub fn many_text(many: Many) -> &'static str
    ensures { result.now ≡ many_text many }
{
    match many {
        Many::Stops => "stops",
        Many::Calendar => "calendar",
        Many::CalendarDates => "calendar_dates",
        Many::Trips => "trips",
        Many::StopTimes => "stop_times",
        Many::Transfers => "transfers",
        Many::Frequencies => "frequencies",
        Many::RunningTrips => "running_trips",
        Many::Events => "events",
        Many::Footpaths => "footpaths",
    }
}

impl Text {
    // Adds a label and a file's name.
    fn file(&mut self, label: &[u8], file: FeedFile) -> Result<(), Memory>
        ensures { OnOk result (self.new ≡ self.old ++ (label.now ++ file_name file)) }
    {
        self.add(label)?;
        self.add(file.name().as_bytes())
    }

    // Adds a label and a place.
    fn spot(&mut self, label: &[u8], spot: Spot) -> Result<(), Memory>
        ensures { OnOk result (self.new ≡ self.old ++ (label.now ++ spot_text spot)) }
    {
        self.file(label, spot.file)?;
        self.add(b" row ")?;
        self.number(spot.row)?;
        self.add(b" column ")?;
        self.add(column_name(spot))
    }

    // Adds a label, a quantity and the row past its limit.
    fn too_many(&mut self, label: &[u8], many: Many, row: u32) -> Result<(), Memory>
        ensures { OnOk result (self.new
            ≡ self.old ++ (label.now ++ many_text many ++ row_text row)) }
    {
        self.add(label)?;
        self.add(many_text(many).as_bytes())?;
        if row == 0 {
            return Ok(());
        }
        self.add(b" row ")?;
        self.number(row)
    }

    // Adds a label and two names.
    fn two_names(&mut self, label: &[u8], p: &Name, q: &Name) -> Result<(), Memory>
        ensures { OnOk result (self.new ≡ self.old ++ (label.now ++ p.now ++ codes " " ++ q.now)) }
    {
        self.add(label)?;
        self.add(p.bytes())?;
        self.add(b" ")?;
        self.add(q.bytes())
    }

    // Adds a label and three names.
    fn three_names(&mut self, label: &[u8], p: &Name, q: &Name, r: &Name) -> Result<(), Memory>
        ensures { OnOk result (self.new
            ≡ self.old ++ (label.now ++ p.now ++ codes " " ++ q.now ++ codes " " ++ r.now)) }
    {
        self.two_names(label, p, q)?;
        self.add(b" ")?;
        self.add(r.bytes())
    }

    // Adds a fault.
    pub(crate) fn fault(&mut self, fault: &FeedFault) -> Result<(), Memory>
        ensures { OnOk result (self.new ≡ self.old ++ fault_text fault.now) }
    {
        match fault {
            FeedFault::MissingFile(file) => self.file(b"1 MissingFile ", *file),
            FeedFault::FileTooLarge(file) => self.file(b"2 FileTooLarge ", *file),
            FeedFault::NotUtf8(file) => self.file(b"3 NotUtf8 ", *file),
            FeedFault::MissingColumn(spot) => self.spot(b"4 MissingColumn ", *spot),
            FeedFault::BadNumber(spot) => self.spot(b"5 BadNumber ", *spot),
            FeedFault::BadTime(spot) => self.spot(b"6 BadTime ", *spot),
            FeedFault::BadDate(spot) => self.spot(b"7 BadDate ", *spot),
            FeedFault::BadCode(spot) => self.spot(b"8 BadCode ", *spot),
            FeedFault::EmptyId(spot) => self.spot(b"9 EmptyId ", *spot),
            FeedFault::DuplicateId(spot) => self.spot(b"10 DuplicateId ", *spot),
            FeedFault::UnknownStop(spot) => self.spot(b"11 UnknownStop ", *spot),
            FeedFault::UnknownTrip(spot) => self.spot(b"12 UnknownTrip ", *spot),
            FeedFault::DuplicateSequence(spot) => self.spot(b"13 DuplicateSequence ", *spot),
            FeedFault::NoEndTime(spot) => self.spot(b"14 NoEndTime ", *spot),
            FeedFault::TimeRunsBack(spot) => self.spot(b"15 TimeRunsBack ", *spot),
            FeedFault::NotAPlatform(spot) => self.spot(b"16 NotAPlatform ", *spot),
            FeedFault::DuplicateTransfer(spot) => self.spot(b"17 DuplicateTransfer ", *spot),
            FeedFault::OpenFootpaths(p, q, r) => self.three_names(b"18 OpenFootpaths ", p, q, r),
            FeedFault::LongFootpath(p, q, r) => self.three_names(b"19 LongFootpath ", p, q, r),
            FeedFault::TooMany(many, row) => self.too_many(b"20 TooMany ", *many, *row),
            FeedFault::FarFootpath(p, q) => self.two_names(b"22 FarFootpath ", p, q),
            FeedFault::BeyondDay(spot) => self.spot(b"23 BeyondDay ", *spot),
        }
    }
}

/// A fault's number, its name and where it is, without an end of line:
/// as in `12 UnknownTrip stop_times.txt row 5 column trip_id`.
pub fn fault_text(alloc: Global, fault: &FeedFault) -> Result<Vec<u8>, Memory>
    ensures { IfOk result (λ v. v.items ≡ fault_text fault.now) }
{
    let mut text = Text::new(alloc);
    text.fault(fault)?;
    Ok(text.into_bytes())
}
